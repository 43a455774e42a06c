//! Events of one transaction that never rest: its steps, the accesses that its caller decides, and its abort.
ghost use Rattle.std.specs.Prelude.{◌≡◌, true};
ghost use Rattle.sgt_desk.specs.Asks.{event_of};
ghost use Rattle.sgt_desk.specs.Calls.{MakeTurn};
ghost use Rattle.sgt_desk.specs.Desks.{state, Wakes};

use crate::answering::Answering;
use crate::ask::{Ticket, Turn};
use crate::desk::Desk;
use sgt_model::{Event, NoMemory, Request, ShortReply, Tid};

/// What is asked of a transaction.
#[derive(Clone, Copy)]
pub enum Asked {
    /// The next access of its procedure.
    Step,
    /// An access on which its caller decided.
    Access(Request),
    /// Its abort.
    Quit,
}

impl Asked {
    /// The event that asks it of this transaction.
    pub fn of(self, t: Tid) -> Event
        ensures { result ≡ event_of self t }
    {
        match self {
            Asked::Step => Event::Step(t),
            Asked::Access(request) => Event::Access(t, request),
            Asked::Quit => Event::Quit(t),
        }
    }
}

/// Makes an event of the transaction that a ticket names. It is done, or the ticket is stale, and nothing has happened.
///
/// `NoMemory` if an allocation failed; then nothing has changed.
pub fn make<E: Answering>(
    desk: &mut Desk<E>,
    ticket: Ticket,
    asked: Asked,
    reply: &mut ShortReply,
    wakes: &mut bool,
) -> Result<Turn, NoMemory>
    ensures turn { MakeTurn ticket asked (state E.state desk.old) reply.new (state E.state desk.new) result }
    ensures wakes { Wakes (state E.state desk.old) (state E.state desk.new) wakes.new }
    ensures woken { wakes.old ≡ true → wakes.new ≡ true }
{
    if ticket.part != desk.part {
        return Ok(Turn::Stale);
    }
    desk.answer(&asked.of(ticket.tid), reply, wakes)?;
    Ok(Turn::Done)
}
