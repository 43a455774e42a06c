//! Turns of a commit.
ghost use Rattle.std.specs.Prelude.{◌≡◌, ◌≢◌, true, false, Ok};
ghost use Rattle.sgt_model.specs.declared.event.Event.TheVariants.{Commit};
ghost use Rattle.sgt_desk.specs.Asks.{is_of_cut, CommitsWhy, IsLate, IsNoWait, Rests};
ghost use Rattle.sgt_desk.specs.Attempts.{ActsFor, CommitsAttempt, StaysLegal};
ghost use Rattle.sgt_desk.specs.Calls.{CommitTurn};
ghost use Rattle.sgt_desk.specs.Desks.{state, Adds, MayAdd, StaysLive, Wakes};

use crate::answering::Answering;
use crate::ask::{Ask, Ticket, Turn};
use crate::desk::Desk;
use crate::reason::Reason;
use sgt_model::{Event, NoMemory, ShortReply, Tid};

/// A turn of a commit: it is made, or the call rests for a transaction that is live.
#[inline(always)]
pub fn commit_turn<E: Answering>(
    desk: &mut Desk<E>,
    ask: &mut Ask,
    t: Tid,
    now: u64,
    wakes: &mut bool,
) -> Result<Turn, NoMemory>
    ensures done { result ≡ Ok Turn.Done → Adds (Commit t) (state E.state desk.old) ask.new.reply (state E.state desk.new) }
    ensures no_wait { result ≡ Ok Turn.Done → IsNoWait ask.new.reply }
    ensures rests { result ≡ Ok Turn.Rest → Rests ask.new now (state E.state desk.new) }
    ensures no_cut { result ≡ Ok Turn.Rest → is_of_cut ask.new.reason ≡ false }
    ensures late_no_cut { result ≡ Ok Turn.Late → is_of_cut ask.new.reason ≡ false }
    ensures why { CommitsWhy t (state E.state desk.new).past ask.old.reason ask.new.reply ask.new.reason }
    ensures late { result ≡ Ok Turn.Late → IsLate ask.old.deadline now ask.new.reason (state E.state desk.new) }
    ensures live { result ≢ Ok Turn.Done → StaysLive (state E.state desk.old) (state E.state desk.new) }
    ensures again { (result ≢ Ok Turn.Again) × (result ≢ Ok Turn.Stale) }
    ensures entries { MayAdd (Commit t) (state E.state desk.old) ask.new.reply (state E.state desk.new) }
    ensures deadline { ask.new.deadline ≡ ask.old.deadline }
    ensures counted { ask.new.is_counted ≡ ask.old.is_counted }
    ensures legal { StaysLegal (state E.state desk.old) (state E.state desk.new) }
    ensures acts { ActsFor t (state E.state desk.old) (state E.state desk.new) }
    ensures commits { CommitsAttempt t (state E.state desk.old) ask.old (state E.state desk.new) ask.new result }
    ensures wakes { Wakes (state E.state desk.old) (state E.state desk.new) wakes.new }
    ensures woken { wakes.old ≡ true → wakes.new ≡ true }
{
    if desk.holds_up(ask) {
        return Ok(ask.turn(now));
    }
    let mut reply = ShortReply::Unknown;
    desk.answer(&Event::Commit(t), &mut reply, wakes)?;
    ask.reply = reply;
    match reply {
        ShortReply::Waits(first) => {
            ask.reason = Some(Reason::Turn(t, first));
            Ok(ask.turn(now))
        }
        _ => {
            ask.reason = None;
            Ok(Turn::Done)
        }
    }
}

/// A turn of a commit of a transaction that was started in an earlier call. A transaction whose commit is late stays live.
///
/// `NoMemory` if an allocation failed; then the transaction is as it was.
pub fn commit<E: Answering>(
    desk: &mut Desk<E>,
    ask: &mut Ask,
    ticket: Ticket,
    now: u64,
    wakes: &mut bool,
) -> Result<Turn, NoMemory>
    ensures turn { CommitTurn ticket now (state E.state desk.old) ask.old (state E.state desk.new) ask.new result }
    ensures wakes { Wakes (state E.state desk.old) (state E.state desk.new) wakes.new }
    ensures woken { wakes.old ≡ true → wakes.new ≡ true }
{
    if ticket.part != desk.part {
        desk.end_commit(ask, wakes);
        return Ok(Turn::Stale);
    }
    let made = commit_turn(desk, ask, ticket.tid, now, wakes);
    match made {
        Ok(Turn::Rest) => desk.begin_commit(ask),
        _ => desk.end_commit(ask, wakes),
    }
    made
}
