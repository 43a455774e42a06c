//! The texts of procedures.
ghost use Rattle.std.specs.Prelude.{◌≡◌, ◌≢◌, ◌≤◌, IfOk};
ghost use Rattle.sgt_format.specs.ProcedureLines.{SpellsProcedure};
ghost use Rattle.sgt_c.specs.Handles.{Visits};
ghost use Rattle.sgt_c.specs.ProcedureTexts.{HasNoProcedure, ReturnsProcedure, SpellsAt};

use crate::buffer_text::write_text;
use crate::handle::{Handle, take_held};
use crate::status;
use sgt_assembly::SgtEngine;
use sgt_model::NoMemory;
use sgt_proc::Checked;
use sgt_proc_json::write;
use std::alloc::Global;

/// Writes the text of a procedure: JSON in which `sgt_procedure` reads this procedure. The text is written whole if it
/// fits, and else not at all. Its length is written to `length` in both cases. The call allocates memory for the text and
/// frees it.
///
/// - `BUSY`; `CLOSED`.
/// - `NONE`: no procedure has this number.
/// - `NO_MEMORY`: an allocation failed.
pub fn sgt_procedure_text(
    alloc: Global,
    engine: &mut Handle,
    number: u64,
    text: &mut [u8],
    length: &mut u64,
) -> u32
    ensures returned { result ≡ 0 → ReturnsProcedure engine.old.slot.held number text.old text.new length.new }
    ensures visits { Visits result engine.old.state engine.old.slot.held engine.new.state }
    ensures none { (result ≡ 4) → HasNoProcedure engine.old.slot.held number }
    ensures statuses { result ≢ 10 → result ≢ 4 → result ≤ 2 }
    ensures unwritten { result ≢ 0 → (text.new ≡ text.old) × (length.new ≡ length.old) }
    ensures same { engine.new.slot.held ≡ engine.old.slot.held }
{
    let held = take_held!(alloc, engine);
    let line = line_at(alloc, &held.engine, number);
    engine.put(held);
    match line {
        Ok(Some(line)) => {
            *length = write_text(text, line.as_slice());
            status::OK
        }
        Ok(None) => status::NONE,
        Err(NoMemory) => status::NO_MEMORY,
    }
}

/// A line that spells the procedure of this number, if there is one.
fn line_at(alloc: Global, engine: &SgtEngine, number: u64) -> Result<Option<Vec<u8>>, NoMemory>
    ensures { IfOk result (λ line. SpellsAt engine.now.procedures number line) }
{
    match engine.sched().procedures().get(number as usize) {
        Some(procedure) => Ok(Some(line_of(alloc, procedure)?)),
        None => Ok(None),
    }
}

/// A line that spells the procedure.
fn line_of(alloc: Global, procedure: &Checked) -> Result<Vec<u8>, NoMemory>
    ensures { IfOk result (λ line. SpellsProcedure line.items procedure.now) }
{
    // Its number of arguments comes with the fact that it has no flaw, and so it is not too deep to be read again.
    let _ = procedure.args();
    let tree = write(alloc, procedure.procedure())?;
    Ok(tree.to_vec(alloc)?)
}
