//! The access that a transaction's caller requests by an event.
ghost use Rattle.std.specs.Prelude.{◌≡◌, ℕ, List, Some, IfSome, slice_get};
ghost use Rattle.sgt_model.specs.declared.entry.Entry.{Entry};
ghost use Rattle.sgt_model.specs.Configurations.{Configuration};
ghost use Rattle.sgt_explain.specs.CycleEdges.{requested_access, WasAbout};

use crate::explanation::Pending;
use sgt_model::{Event, Kind, Request};

/// The access on which a transaction's caller decided, as an event requests it. None if the event is of another kind. If the
/// event's entry aborts the transaction by a cycle, this is the access that it was about to make.
#[tactic(auto, using(crate::proofs::Requests::requested_about))]
pub fn requested_by(event: &Event) -> Option<Pending>
    ensures access { result ≡ requested_access event.now }
    ensures about { IfSome result (λ p. (s : Configuration) (entries : List Entry) (place : ℕ) (e : Entry)
        → slice_get entries place ≡ Some e → e.event ≡ event.now → WasAbout s entries place p.key p.kind) }
{
    match event {
        Event::Access(_, Request::Read(key)) => Some(Pending {
            key: *key,
            kind: Kind::Look,
            removes: false,
        }),
        Event::Access(_, Request::Write(key, value)) => Some(Pending {
            key: *key,
            kind: Kind::Store,
            removes: value.is_none(),
        }),
        _ => None,
    }
}
