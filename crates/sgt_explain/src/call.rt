//! The call that started a transaction.
ghost use Rattle.std.specs.Prelude.{◌≡◌, ◌<◌, ℕ, None, IfSome, IfNone};
ghost use Rattle.sgt_model.specs.Progress.{call_of};
ghost use Rattle.sgt_model.specs.Questions.{called};
ghost use Rattle.sgt_explain.specs.Places.{entries_before};
ghost use Rattle.sgt_explain.specs.Calls.{placed_call};

use crate::indexed_history::IndexedHistory;
use sgt_model::{Call, Tid};

/// The call that started a transaction, in the entries before a position. None if none of them starts it.
pub fn call_before(history: &IndexedHistory, place: usize, t: Tid) -> Option<Call>
    ensures call { IfSome result (λ call. call_of (entries_before history.now place) t ≡ called call) }
    ensures none { IfNone result
        ((n : ℕ) → n < place → placed_call history.now t n ≡ None) }
{
    let mut at = place.min(history.len());
    while 0 < at {
        at -= 1;
        if let Some(call) = history.entry(at).call_of(t) {
            return Some(call);
        }
    }
    None
}
