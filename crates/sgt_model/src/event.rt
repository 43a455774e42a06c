//! Events, with their arguments and answers.
ghost use Rattle.std.specs.Prelude.{◌≡◌, ◌↔◌, IsTrue};
ghost use Rattle.sgt_model.specs.Questions.{named_by, started_in, over_in};

use crate::bounded::Bounded;
use crate::key::Key;
use crate::reply::Reply;
use crate::tid::Tid;

/// The arguments of a procedure, at most 4, in order. An engine accepts only values.
pub type Args = Bounded<i64, 4>;

/// The answers of a procedure, at most 8 values, in order.
pub type Answers = Bounded<i64, 8>;

/// An access that a transaction's caller decides on, once the transaction's procedure is at its end. A transaction that began with
/// the empty procedure consists of such accesses alone.
#[derive(Clone, Copy, Debug, PartialEq, Eq)]
pub enum Request {
    /// A read of the record.
    Read(Key),
    /// A write of this value to the record, or, with no value, its removal.
    Write(Key, Option<i64>),
}

/// A request to an engine: one atomic step, answered by one reply. Step, Access, Commit and Quit name their transaction.
#[derive(Debug, Drop, PartialEq, Eq)]
pub enum Event {
    /// Start a transaction. It runs the procedure of this number with these arguments.
    Start { procedure: u16, args: Args },
    /// Let the transaction's procedure make its next access: one read or one write.
    Step(Tid),
    /// Make this access, on which the caller decided. The transaction's procedure must be at its end.
    Access(Tid, Request),
    /// Commit the transaction. Its procedure must be at its end.
    Commit(Tid),
    /// `Quit`: abort the transaction at its caller's request.
    Quit(Tid),
}

impl Event {
    /// A copy. It allocates nothing.
    pub fn copied(&self) -> Self
        ensures { result ≡ self.now }
    {
        match self {
            Event::Start { procedure, args } => Event::Start {
                procedure: *procedure,
                args: args.copied(),
            },
            Event::Step(t) => Event::Step(*t),
            Event::Access(t, request) => Event::Access(*t, *request),
            Event::Commit(t) => Event::Commit(*t),
            Event::Quit(t) => Event::Quit(*t),
        }
    }

    /// Whether both are the same event.
    pub fn is_same(&self, other: &Self) -> bool
        ensures { IsTrue result ↔ (self.now ≡ other.now) }
    {
        self == other
    }

    /// The transaction that the event names. A start names none.
    pub fn named(&self) -> Option<Tid>
        ensures { result ≡ named_by self.now }
    {
        match self {
            Event::Start { .. } => None,
            Event::Step(t) | Event::Access(t, _) | Event::Commit(t) | Event::Quit(t) => Some(*t),
        }
    }

    /// The transaction that the event starts if this is its reply, if any.
    pub fn started(&self, reply: &Reply) -> Option<Tid>
        ensures { result ≡ started_in self.now reply.now }
    {
        match self {
            Event::Start { .. } => reply.started(),
            Event::Step(_) | Event::Access(..) | Event::Commit(_) | Event::Quit(_) => None,
        }
    }

    /// The transaction that the event and this reply report to be over, if any. It is not live any more. The
    /// transaction of a `Quit` never is, whatever the reply.
    pub fn over(&self, reply: &Reply) -> Option<Tid>
        ensures { result ≡ over_in self.now reply.now }
    {
        match self {
            Event::Start { .. } => None,
            Event::Step(t) | Event::Access(t, _) | Event::Commit(t) => {
                reply.reports_end().then_some(*t)
            }
            Event::Quit(t) => Some(*t),
        }
    }
}
