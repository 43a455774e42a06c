//! Adding procedures.
ghost use Rattle.std.specs.Prelude.{◌≡◌, ◌≢◌, ◌<◌, ◌≤◌, ◌↔◌, IfErr, IfOk, OnErr};
ghost use Rattle.sgt_c.specs.KeptFields.{KeepsOtherFaultFields};
ghost use Rattle.sgt_c.specs.Puts.{Added, HasBegun, HasNoNumber, IsAdded, IsRefusal, IsTextRefused};
ghost use Rattle.sgt_c.specs.Handles.{Visits};

use crate::fault_struct::{SgtFault, write_fault};
use crate::handle::{Handle, take_held};
use crate::held::Held;
use crate::status;
use sgt_engine::AddError;
use sgt_format::{OpeningError, read_procedure_line};
use sgt_model::NoMemory;
use std::alloc::Global;

/// Adds the procedure that a text spells, as one item of an opening's list. The history must be empty. The procedure
/// comes after the others, and its number is written to `number`.
///
/// - `BUSY`; `CLOSED`.
/// - `BEGUN`: there is a history.
/// - `TOO_MANY`: all 65535 numbers are used; number 65535 is that of the empty procedure.
/// - From 16 on: a fault of the text, which is written to `fault` with the number that the procedure was to get.
/// - `NO_MEMORY`: an allocation failed.
pub fn sgt_procedure(
    alloc: Global,
    engine: &mut Handle,
    text: &[u8],
    number: &mut u16,
    fault: &mut SgtFault,
) -> u32
    ensures added { result ≡ 0 → Added engine.old.slot.held text.now engine.new.slot.held number.new }
    ensures unchanged { result ≢ 0 → engine.new.slot.held ≡ engine.old.slot.held }
    ensures visits { Visits result engine.old.state engine.old.slot.held engine.new.state }
    ensures begun { (result ≡ 7) ↔ HasBegun engine.old.slot.held }
    ensures too_many { (result ≡ 9) ↔ HasNoNumber engine.old.slot.held }
    ensures refused { 16 ≤ result → (result ≡ fault.new.kind) × IsTextRefused engine.old.slot.held text.now fault.new }
    ensures statuses { result ≢ 10 → result < 16 → result ≢ 7 → result ≢ 9 → result ≤ 2 }
    ensures kept { result ≢ 0 → number.new ≡ number.old }
    ensures unwritten { result ≢ 1 → result < 16 → fault.new ≡ fault.old }
    ensures fault_kept { KeepsOtherFaultFields fault.old fault.new }
{
    let mut held = take_held!(alloc, engine);
    let added = add(alloc, &mut held, text);
    engine.put(held);
    match added {
        Ok(added) => {
            *number = added;
            status::OK
        }
        Err(Unadded::Begun) => status::BEGUN,
        Err(Unadded::TooMany) => status::TOO_MANY,
        Err(Unadded::Refused(error)) => write_fault(fault, &error),
    }
}

/// Why a procedure was not added.
#[derive(Drop)]
pub enum Unadded {
    /// There is a history.
    Begun,
    /// No number is left.
    TooMany,
    /// The text spells none, or an allocation failed.
    Refused(OpeningError),
}

/// Adds the procedure that a text spells to an engine, and returns its number.
fn add(alloc: Global, held: &mut Held, text: &[u8]) -> Result<u16, Unadded>
    ensures added { IfOk result (IsAdded held.old text.now held.new) }
    ensures refused { IfErr result (IsRefusal held.old.engine text.now) }
    ensures unchanged { OnErr result (held.new ≡ held.old) }
{
    let number = match held.engine.next_number() {
        Ok(number) => number,
        Err(AddError::Begun) => return Err(Unadded::Begun),
        Err(AddError::TooMany) => return Err(Unadded::TooMany),
        Err(AddError::NoMemory) => unreachable!(),
    };
    let procedure = match read_procedure_line(alloc, u64::from(number), text) {
        Ok(procedure) => procedure,
        Err(error) => return Err(Unadded::Refused(error)),
    };
    match held.engine.add_at_start(procedure) {
        Ok(()) => Ok(number),
        Err(NoMemory) => Err(Unadded::Refused(OpeningError::NoMemory)),
    }
}
