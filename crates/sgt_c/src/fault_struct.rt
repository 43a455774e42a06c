//! The struct of a fault for C, and how it is written.
ghost use Rattle.std.specs.Prelude.{◌≡◌, ◌≤◌, drop, length, take};
ghost use Rattle.sgt_c.specs.FaultStructs.{HoldsFault};
ghost use Rattle.sgt_c.specs.KeptFields.{KeepsOtherFaultFields};

use crate::status;
use sgt_format::OpeningError;
use sgt_proc_json::Place;

/// Why an opening was refused. `kind` is the status, and says which of the other fields belong to this fault.
#[repr(C)]
#[derive(Drop)]
pub struct SgtFault {
    pub kind: u32,
    /// Of an account's fault its number, from 1 to 3; of a flaw its number, from 1 to 10.
    pub number: u32,
    /// The number of the procedure, from 5 on.
    pub procedure: u64,
    /// How many positions `place` has, and `spare`, which is unused.
    pub depth: u32,
    pub spare: u32,
    /// Where in the procedure's text: positions from the outermost list in, counted from 0.
    pub place: [u64; 128],
}

/// Writes a fault for C, and returns its status. The fields that do not count for its kind keep their values.
pub fn write_fault(into: &mut SgtFault, error: &OpeningError) -> u32
    ensures status { result ≡ into.new.kind }
    ensures fault { HoldsFault into.new error.now }
    ensures kept { KeepsOtherFaultFields into.old into.new }
{
    match error {
        OpeningError::NotJson => into.kind = status::NOT_JSON,
        OpeningError::BadLine => into.kind = status::BAD_LINE,
        OpeningError::BadLimits => into.kind = status::BAD_LIMITS,
        OpeningError::BadOpening(fault) => {
            into.kind = status::BAD_OPENING;
            into.number = fault.number() as u32;
        }
        OpeningError::ProcShape(procedure, place) => {
            into.kind = status::PROC_SHAPE;
            into.procedure = *procedure;
            into.depth = write_place(&mut into.place, place);
        }
        OpeningError::ProcFlaw(procedure, flaw) => {
            into.kind = status::PROC_FLAW;
            into.procedure = *procedure;
            into.number = flaw.number() as u32;
        }
        OpeningError::NoMemory => into.kind = status::NO_MEMORY,
    }
    into.kind
}

/// Writes positions, and returns how many: 128, the most that a `Place` stores, or fewer.
fn write_place(to: &mut [u64; 128], place: &Place) -> u32
    ensures place { take result to.new ≡ take 128 place.now }
    ensures rest { drop result to.new ≡ drop result to.old }
{
    let positions = first_128(place.as_slice());
    let count = positions.len();
    to[..count].copy_from_slice(positions);
    count as u32
}

fn first_128(positions: &[u64]) -> &[u64]
    ensures first { result.now ≡ take 128 positions.now }
    ensures few { length result.now ≤ 128 }
{
    if positions.len() <= 128 {
        positions
    } else {
        &positions[..128]
    }
}
