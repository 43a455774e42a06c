//! The desk: an engine with what its threads have to know of each other.
ghost use Rattle.std.specs.Prelude.{◌≡◌, ℕ, true, false, [], Option, OnOk, OnErr, IfSome};
ghost use Rattle.std.specs.Result.{IsOk};
ghost use Rattle.sgt_model.specs.declared.event.Event.TheVariants.{Quit};
ghost use Rattle.sgt_model.specs.Fates.{live};
ghost use Rattle.sgt_model.specs.Legality.{Legal};
ghost use Rattle.sgt_desk.specs.Asks.{holds_up, is_held, is_of_cut, SameButCount};
ghost use Rattle.sgt_desk.specs.declared.reason.Reason.{Reason};
ghost use Rattle.sgt_desk.specs.Desks.{state, opened, Adds, Wakes, SameHistory, IsCutOff, holds, is_busy};
ghost use Rattle.sgt_desk.specs.Desks.{next_number, ends_short, reports_short, with_call, without_call, SameCounts};

use crate::answering::Answering;
use crate::ask::{Ask, Ticket, count, uncount};
use crate::reason::Reason;
use sgt_model::{Event, NoMemory, ShortReply, Tid, replies_report_who_is_live};
use std::alloc::Global;

/// An engine that threads share under a lock of theirs, with what they have to know of each other.
#[derive(Drop)]
pub struct Desk<E: Answering> {
    pub engine: E,
    /// How often the history was cut off.
    pub part: u64,
    /// How often a transaction has ended. After the last number of 64 bits it begins again at 0.
    pub ended: u64,
    /// How many calls were committed or refused, counted in the same way. So each of them has a number.
    pub reported: u64,
    /// The calls that rest in a commit.
    pub committing: u64,
    /// The calls that wait for a cut.
    pub cutters: u64,
}

impl<E: Answering> Desk<E> {
    /// A desk for an engine.
    pub fn new(engine: E) -> Self
        ensures { state E.state result ≡ opened (E.state engine) }
    {
        Desk {
            engine,
            part: 0,
            ended: 0,
            reported: 0,
            committing: 0,
            cutters: 0,
        }
    }

    /// The ticket of a transaction that was started in this part of the history.
    pub fn ticket(&self, t: Tid) -> Ticket
        ensures { (result.part ≡ (state E.state self.now).part) × (result.tid ≡ t) }
    {
        Ticket {
            part: self.part,
            tid: t,
        }
    }

    /// Whether the history may not be cut off: a transaction is live, or the end of one that rested in its commit was not
    /// returned yet, and its caller may still ask for its entries.
    pub fn is_busy(&self) -> bool
        ensures { result ≡ is_busy (state E.state self.now) }
    {
        self.engine.live_count() > 0 || self.committing > 0
    }

    /// Whether a reason to rest holds.
    pub fn holds(&self, reason: Reason) -> bool
        ensures { result ≡ holds reason (state E.state self.now) }
    {
        match reason {
            Reason::Turn(t, u) => self.engine.is_live(t) && self.engine.is_live(u),
            Reason::Full(count) => self.engine.live_count() >= count,
            Reason::End(ended) => self.ended == ended && self.engine.live_count() > 0,
            Reason::Busy(part) => self.part == part && self.is_busy(),
            Reason::Cut => self.cutters > 0,
        }
    }

    /// Whether a call that is no cut rests for a reason that holds, so that a turn would only have it rest again.
    pub fn holds_up(&self, ask: &Ask) -> bool
        ensures { result ≡ holds_up ask.now (state E.state self.now) }
    {
        match ask.reason {
            None | Some(Reason::Busy(_)) => false,
            Some(reason) => self.holds(reason),
        }
    }

    /// Makes an event of the engine. `wakes` becomes true if a reason to rest may have ceased.
    #[inline(always)]
    pub fn answer(
        &mut self,
        event: &Event,
        reply: &mut ShortReply,
        wakes: &mut bool,
    ) -> Result<(), NoMemory>
        ensures adds { OnOk result (Adds event.now (state E.state self.old) reply.new (state E.state self.new)) }
        ensures unchanged { OnErr result (state E.state self.new ≡ state E.state self.old) }
        ensures legal { Legal (state E.state self.new).configuration (state E.state self.new).past }
        ensures wakes { Wakes (state E.state self.old) (state E.state self.new) wakes.new }
        ensures woken { wakes.old ≡ true → wakes.new ≡ true }
        ensures quits { (t : ℕ) → event.now ≡ Quit t → live (state E.state self.old).past t ≡ true → IsOk result }
    {
        replies_report_who_is_live();
        self.engine.answer(event, reply)?;
        if ends(reply) {
            self.ended = next_number(self.ended);
            *wakes = true;
        }
        if reports(reply) {
            self.reported = next_number(self.reported);
        }
        Ok(())
    }

    /// Counts a call among the commits that rest. No cut comes before it has returned its end.
    #[inline(always)]
    pub fn begin_commit(&mut self, ask: &mut Ask)
        ensures history { SameHistory (state E.state self.old) (state E.state self.new) }
        ensures stays { (r : Reason) → holds r (state E.state self.old) ≡ true → holds r (state E.state self.new) ≡ true }
        ensures counted { ask.new.is_counted ≡ true }
        ensures counts { (state E.state self.new).committing ≡ with_call ask.old.is_counted (state E.state self.old).committing }
        ensures cutters { (state E.state self.new).cutters ≡ (state E.state self.old).cutters }
        ensures same { SameButCount ask.old ask.new }
    {
        count(&mut self.committing, ask);
    }

    /// Counts it no longer.
    #[inline(always)]
    pub fn end_commit(&mut self, ask: &mut Ask, wakes: &mut bool)
        ensures history { SameHistory (state E.state self.old) (state E.state self.new) }
        ensures stays { (r : Option Reason) → is_of_cut r ≡ false → is_held r (state E.state self.old) ≡ true
            → is_held r (state E.state self.new) ≡ true }
        ensures wakes { Wakes (state E.state self.old) (state E.state self.new) wakes.new }
        ensures counted { ask.new.is_counted ≡ false }
        ensures counts { (state E.state self.new).committing ≡ without_call ask.old.is_counted (state E.state self.old).committing }
        ensures cutters { (state E.state self.new).cutters ≡ (state E.state self.old).cutters }
        ensures same { SameButCount ask.old ask.new }
        ensures woken { wakes.old ≡ true → wakes.new ≡ true }
    {
        uncount(&mut self.committing, ask, wakes);
    }

    /// Counts a call among those that wait for a cut. Nothing is started meanwhile.
    pub fn begin_cut(&mut self, ask: &mut Ask)
        ensures history { SameHistory (state E.state self.old) (state E.state self.new) }
        ensures stays { (r : Reason) → holds r (state E.state self.old) ≡ true → holds r (state E.state self.new) ≡ true }
        ensures counted { ask.new.is_counted ≡ true }
        ensures counts { (state E.state self.new).cutters ≡ with_call ask.old.is_counted (state E.state self.old).cutters }
        ensures committing { (state E.state self.new).committing ≡ (state E.state self.old).committing }
        ensures same { SameButCount ask.old ask.new }
    {
        count(&mut self.cutters, ask);
    }

    /// Counts it no longer.
    pub fn end_cut(&mut self, ask: &mut Ask, wakes: &mut bool)
        ensures history { SameHistory (state E.state self.old) (state E.state self.new) }
        ensures wakes { Wakes (state E.state self.old) (state E.state self.new) wakes.new }
        ensures counted { ask.new.is_counted ≡ false }
        ensures counts { (state E.state self.new).cutters ≡ without_call ask.old.is_counted (state E.state self.old).cutters }
        ensures committing { (state E.state self.new).committing ≡ (state E.state self.old).committing }
        ensures same { SameButCount ask.old ask.new }
        ensures woken { wakes.old ≡ true → wakes.new ≡ true }
    {
        uncount(&mut self.cutters, ask, wakes);
    }

    /// Cuts the history off. The next part begins, and all tickets of this one are stale.
    pub fn cut_off(&mut self, alloc: Global, wakes: &mut bool) -> Result<(), NoMemory>
        requires { is_busy (state E.state self.old) ≡ false }
        ensures cut { OnOk result (IsCutOff (state E.state self.old) (state E.state self.new)) }
        ensures counts { SameCounts (state E.state self.old) (state E.state self.new) }
        ensures unchanged { OnErr result (state E.state self.new ≡ state E.state self.old) }
        ensures wakes { Wakes (state E.state self.old) (state E.state self.new) wakes.new }
        ensures woken { wakes.old ≡ true → wakes.new ≡ true }
    {
        self.engine.cut(alloc)?;
        self.part = next_number(self.part);
        *wakes = true;
        Ok(())
    }
}

/// The number after this one, and 0 after the last.
fn next_number(number: u64) -> u64
    ensures { result ≡ next_number number }
{
    number.checked_add(1).unwrap_or(0)
}

/// Whether a reply ends a live transaction.
fn ends(reply: &ShortReply) -> bool
    ensures { result ≡ ends_short reply.now }
{
    matches!(
        reply,
        ShortReply::Committed | ShortReply::Aborted(_) | ShortReply::Refused(_)
    )
}

/// Whether a reply commits or refuses a call, so that it is one of those that the serial run has.
fn reports(reply: &ShortReply) -> bool
    ensures { result ≡ reports_short reply.now }
{
    matches!(reply, ShortReply::Committed | ShortReply::Refused(_))
}
