//! The engine that the program runs: its layers, and how an `Opening` (the first line) makes one.
ghost use Rattle.std.specs.Prelude.{◌≡◌, ◌++◌, [], IfOk};
ghost use Rattle.sgt_model.specs.Bounds.{AreInRange};
ghost use Rattle.sgt_engine.specs.EngineView.{configuration_of};
ghost use Rattle.sgt_smallbank.specs.Texts.{procedures};
ghost use Rattle.sgt_assembly.specs.Openings.{opened_configuration};

use sgt_access::PerKey;
use sgt_engine::Engine;
use sgt_format::Opening;
use sgt_graph::BitGraph;
use sgt_model::{MakeError, NoMemory};
use sgt_proc::Checked;
use sgt_records::SlabRecords;
use std::alloc::Global;

/// The storage of the records of the program's engine.
pub type SgtRecords = SlabRecords;

/// The storage of its accesses.
pub type SgtAccesses = PerKey;

/// The storage of its serialization graph.
pub type SgtGraph = BitGraph;

/// The engine of the program.
pub type SgtEngine = Engine<SlabRecords, PerKey, BitGraph>;

/// Makes the engine of an opening, with an empty history.
///
/// # Errors
///
/// `NoMemory` if an allocation failed.
pub fn open_engine(alloc: Global, opening: Opening) -> Result<SgtEngine, NoMemory>
    requires { AreInRange opening.limits }
    ensures configuration { IfOk result (λ e. configuration_of e ≡ opened_configuration opening) }
    ensures fresh { IfOk result (λ e. e.past ≡ []) }
{
    let Opening {
        limits,
        database,
        procedures,
    } = opening;
    let procedures = all_procedures(alloc, procedures)?;
    match Engine::new(alloc, database, procedures, limits) {
        Ok(engine) => Ok(engine),
        Err(MakeError::NoMemory) => Err(NoMemory),
        Err(MakeError::BadLimits) => unreachable!(),
    }
}

/// The procedures of an engine: SmallBank's five, and after them those of an opening.
///
/// # Errors
///
/// `NoMemory` if an allocation failed.
pub fn all_procedures(alloc: Global, mut own: Vec<Checked>) -> Result<Vec<Checked>, NoMemory>
    ensures { IfOk result (λ all. all.items ≡ procedures ++ own.items) }
{
    let mut all = sgt_smallbank::procedures(alloc)?;
    all.append(&mut own)?;
    Ok(all)
}
