//! Events without their arguments, and the arguments.
ghost use Rattle.std.specs.Prelude.{◌≡◌, ◌↔◌, IsTrue};
ghost use Rattle.sgt_model.specs.declared.event.Event.TheVariants.{Access};
ghost use Rattle.sgt_log.specs.EntryParts.{bare_event, args_in, HasArgs};

use crate::access_kind::{AccessKind, key_in, request_args};
use sgt_model::{Args, Event, Request, Tid};

/// An event without its arguments.
#[derive(Clone, Copy, PartialEq, Eq)]
pub enum BareEvent {
    Start(u16),
    Step(Tid),
    Access { kind: AccessKind, table: u8, t: Tid },
    Commit(Tid),
    Quit(Tid),
}

impl BareEvent {
    /// The event without its arguments.
    pub fn of(event: &Event) -> Self
        ensures { result ≡ bare_event event.now }
    {
        match event {
            Event::Start { procedure, .. } => BareEvent::Start(*procedure),
            Event::Step(t) => BareEvent::Step(*t),
            Event::Access(t, request) => BareEvent::of_request(*t, request),
            Event::Commit(t) => BareEvent::Commit(*t),
            Event::Quit(t) => BareEvent::Quit(*t),
        }
    }

    /// That of an access on which the caller of a transaction decided.
    pub fn of_request(t: Tid, request: &Request) -> Self
        ensures { result ≡ bare_event (Access t request.now) }
    {
        BareEvent::Access {
            kind: AccessKind::of(request),
            table: key_in(request).table(),
            t,
        }
    }

    /// Whether both are the same.
    pub fn is_same(&self, other: &Self) -> bool
        ensures { IsTrue result ↔ (self.now ≡ other.now) }
    {
        self == other
    }
}

/// The arguments of an event: those of a start, or of the access on which a caller decided. Other events have none.
pub fn args_of(event: &Event) -> Args
    ensures args { result ≡ args_in event.now }
    ensures own { HasArgs (bare_event event.now) result }
{
    match event {
        Event::Start { args, .. } => args.copied(),
        Event::Access(_, request) => request_args(request),
        Event::Step(_) | Event::Commit(_) | Event::Quit(_) => Args::new(),
    }
}
