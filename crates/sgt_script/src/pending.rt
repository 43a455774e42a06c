//! The access that a transaction is about to make.

use sgt_assembly::SgtEngine;
use sgt_explain::{Pending, requested_by};
use sgt_model::{Event, Kind};
use sgt_proc::Ahead;

/// The access that the transaction of an event is about to make, before the engine answers the event: the next of its
/// procedure, or the one on which its caller decided. None if there is none.
pub(crate) fn pending_by(engine: &SgtEngine, event: &Event) -> Option<Pending> {
    let Event::Step(t) = event else {
        return requested_by(event);
    };
    match engine.sched().ahead(*t)? {
        Ahead::Look(key) => Some(Pending {
            key,
            kind: Kind::Look,
            removes: false,
        }),
        Ahead::Put(key, value) => Some(Pending {
            key,
            kind: Kind::Store,
            removes: value.is_none(),
        }),
        Ahead::Ends | Ahead::Asks(_) => None,
    }
}
