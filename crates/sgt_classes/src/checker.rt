//! The search for the first violation of a class, whichever class it is.
ghost use Rattle.std.specs.Prelude.{◌<◌, ◌+◌, ℕ, List, length, IfSome, IfOk, OnOk, IsNone};
ghost use Rattle.sgt_classes.specs.declared.operation.Operation.{Operation};
ghost use Rattle.sgt_classes.specs.Classes.{IsFirstViolation};
ghost use Rattle.sgt_classes.specs.Seen.{NoneBreaksBefore};

use crate::operation::{Operation, Violation};
use sgt_model::NoMemory;

/// What a checker of a class knows of the operations before a position.
pub(crate) trait Checker {
    /// Two operations of a history that break the class, by their positions.
    ghost breaks: { List Operation → ℕ → ℕ → Type 0 };

    /// The state is that of the operations before the position.
    ghost knows: { List Operation → ℕ → Self → Type 0 };

    /// The operation with which the one at the position breaks the class.
    fn broken(&mut self, history: &[Operation], place: usize) -> Result<Option<usize>, NoMemory>
        requires within { place < length history.now }
        requires state { knows history.now place self.old }
        requires before { NoneBreaksBefore (breaks history.now) place }
        ensures state { OnOk result (knows history.now place self.new) }
        ensures some { IfOk result (λ found. IfSome found (λ i. breaks history.now i place)) }
        ensures none { IfOk result (λ found. IsNone found → (i : ℕ) → ¬ breaks history.now i place) };

    /// Records the operation at the position.
    fn record(&mut self, history: &[Operation], place: usize) -> Result<(), NoMemory>
        requires within { place < length history.now }
        requires state { knows history.now place self.old }
        ensures { OnOk result (knows history.now (place + 1) self.new) };
}

/// The first operation of the history that breaks the class. No operation may be recorded yet.
pub(crate) fn first_violation<C: Checker>(
    seen: &mut C,
    history: &[Operation],
) -> Result<Option<Violation>, NoMemory>
    requires state { C.knows history.now 0 seen.old }
    requires within { (i j : ℕ) → C.breaks history.now i j → j < length history.now }
    ensures { IfOk result (IsFirstViolation (C.breaks history.now)) }
{
    for place in 0..history.len() {
        if let Some(earlier) = seen.broken(history, place)? {
            return Ok(Some(Violation {
                earlier,
                later: place,
            }));
        }
        seen.record(history, place)?;
    }
    Ok(None)
}
