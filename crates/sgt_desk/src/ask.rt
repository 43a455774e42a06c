//! A call under way, as its thread keeps it from turn to turn.
ghost use Rattle.std.specs.Prelude.{◌≡◌, ◌≢◌, true, false, cond};
ghost use Rattle.sgt_desk.specs.Asks.{has_come, begun, saw_cut, SameButCount};
ghost use Rattle.sgt_desk.specs.Desks.{with_call, without_call};

use crate::reason::Reason;
use sgt_model::{ShortReply, Tid};

/// Until when a call may rest, in nanoseconds of the caller's clock.
#[derive(Clone, Copy)]
pub enum Deadline {
    Never,
    /// It never rests.
    AtOnce,
    At(u64),
}

impl Deadline {
    /// Whether it has come at this time.
    pub fn has_come(self, now: u64) -> bool
        ensures { result ≡ has_come self now }
    {
        match self {
            Deadline::Never => false,
            Deadline::AtOnce => true,
            Deadline::At(at) => at <= now,
        }
    }
}

/// What the thread of a call does after a turn.
#[derive(Clone, Copy)]
pub enum Turn {
    /// It returns the reply.
    Done,
    /// It sleeps until all are woken or its deadline comes, and makes the next turn then.
    Rest,
    /// It returns: its deadline has come.
    Late,
    /// It makes the next turn at once.
    Again,
    /// It returns: its ticket names a transaction of a part of the history that was cut off.
    Stale,
}

/// The name of a transaction, which stays good beyond a cut: numbers begin anew in each part of the history.
#[derive(Clone, Copy)]
pub struct Ticket {
    /// The part of the history in which the transaction was started.
    pub part: u64,
    /// Its number there.
    pub tid: Tid,
}

/// A call under way.
#[derive(Clone, Copy)]
pub struct Ask {
    /// Until when it may rest.
    pub deadline: Deadline,
    /// Why it rests, if it does.
    pub reason: Option<Reason>,
    /// Whether the desk counts it among the commits that rest, or among those that wait for a cut.
    pub is_counted: bool,
    /// The newest reply to one of its events.
    pub reply: ShortReply,
}

impl Ask {
    /// A call that has not begun.
    pub fn new(deadline: Deadline) -> Self
        ensures { result ≡ begun deadline }
    {
        Ask {
            deadline,
            reason: None,
            is_counted: false,
            reply: ShortReply::Unknown,
        }
    }

    /// Whether a cut rested in another part of the history than this one, so that another call has made a cut meanwhile.
    pub fn saw_cut(&self, part: u64) -> bool
        ensures { result ≡ saw_cut self.now.reason part }
    {
        match self.reason {
            Some(Reason::Busy(before)) => before != part,
            _ => false,
        }
    }

    /// A call that has to rest does this: it is late if its deadline has come.
    pub fn turn(&self, now: u64) -> Turn
        ensures { result ≡ cond (has_come self.now.deadline now) Turn.Late Turn.Rest }
    {
        if self.deadline.has_come(now) {
            Turn::Late
        } else {
            Turn::Rest
        }
    }
}

/// Counts a call among those that rest, unless it is counted already.
pub(crate) fn count(counter: &mut u64, ask: &mut Ask)
    ensures counter { counter.new ≡ with_call ask.old.is_counted counter.old }
    ensures counted { ask.new.is_counted ≡ true }
    ensures same { SameButCount ask.old ask.new }
{
    if !ask.is_counted {
        ask.is_counted = true;
        *counter = counter.saturating_add(1);
    }
}

/// Counts a call no longer, if it is counted. `wakes` becomes true if it was the last.
pub(crate) fn uncount(counter: &mut u64, ask: &mut Ask, wakes: &mut bool)
    ensures counter { counter.new ≡ without_call ask.old.is_counted counter.old }
    ensures counted { ask.new.is_counted ≡ false }
    ensures same { SameButCount ask.old ask.new }
    ensures wakes { counter.old ≢ counter.new → counter.new ≡ 0 → wakes.new ≡ true }
    ensures woken { wakes.old ≡ true → wakes.new ≡ true }
{
    if ask.is_counted {
        ask.is_counted = false;
        *counter = counter.saturating_sub(1);
        if *counter == 0 {
            *wakes = true;
        }
    }
}
