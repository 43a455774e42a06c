//! Numbers for turns.
ghost use Rattle.std.specs.Prelude.{◌≡◌, ◌≢◌, ◌||◌, true, nat_eq, Ok};
ghost use Rattle.sgt_model.specs.ShortReplies.{reply_with};
ghost use Rattle.sgt_c.specs.DeskTurns.{IsTurn, status_of};
ghost use Rattle.sgt_c.specs.KeptFields.{KeepsOtherFields};
ghost use Rattle.sgt_c.specs.ReplyStructs.{HoldsReply};

use crate::reply_struct::{SgtReply, write_reply};
use crate::status;
use sgt_desk::Turn;
use sgt_model::{NoMemory, ReplyLists, ShortReply};

/// The number of what comes next.
pub fn status_of(turn: &Result<Turn, NoMemory>) -> u32
    ensures number { result ≡ status_of turn.now }
    ensures turns { IsTurn result }
{
    match turn {
        Ok(Turn::Done) => status::OK,
        Ok(Turn::Rest) => status::REST,
        Ok(Turn::Late) => status::TIMED_OUT,
        Ok(Turn::Again) => status::AGAIN,
        Ok(Turn::Stale) => status::STALE,
        Err(NoMemory) => status::NO_MEMORY,
    }
}

/// Notes that all that rest are to be woken, if so.
pub fn note_wake(wakes: &mut u32, woken: bool)
    ensures noted { woken ≡ true → wakes.new ≡ 1 }
    ensures woken { nat_eq wakes.new 1 ≡ (woken || nat_eq wakes.old 1) }
{
    if woken {
        *wakes = 1;
    }
}

/// Notes that all that rest are to be woken, if so; writes the reply of a call, if it is done; and returns the number of what comes next.
#[inline(always)]
pub fn end_turn(
    turn: &Result<Turn, NoMemory>,
    short: &ShortReply,
    lists: &ReplyLists,
    woken: bool,
    into: &mut SgtReply,
    wakes: &mut u32,
) -> u32
    ensures next { result ≡ status_of turn.now }
    ensures turns { IsTurn result }
    ensures reported { turn.now ≡ Ok Turn.Done → HoldsReply into.new (reply_with short.now lists.now) }
    ensures kept { turn.now ≡ Ok Turn.Done → KeepsOtherFields into.old into.new }
    ensures unwritten { turn.now ≢ Ok Turn.Done → into.new ≡ into.old }
    ensures woken { nat_eq wakes.new 1 ≡ (woken || nat_eq wakes.old 1) }
{
    match turn {
        Ok(Turn::Done) => write_reply(into, short, lists),
        _ => (),
    }
    note_wake(wakes, woken);
    status_of(turn)
}
