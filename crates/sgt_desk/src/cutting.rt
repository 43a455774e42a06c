//! Turns of a cut.
ghost use Rattle.std.specs.Prelude.{◌≡◌, ◌≢◌, ◌⊎◌, true, false, Ok, Some};
ghost use Rattle.sgt_desk.specs.declared.reason.Reason.TheVariants.{Busy};
ghost use Rattle.sgt_desk.specs.Asks.{has_come, Rests, SawCut};
ghost use Rattle.sgt_desk.specs.Calls.{CutTurn};
ghost use Rattle.sgt_desk.specs.Desks.{state, is_busy, IsCutOff, SameCounts, SameHistory, Wakes};

use crate::answering::Answering;
use crate::ask::{Ask, Turn};
use crate::desk::Desk;
use crate::reason::Reason;
use sgt_model::NoMemory;
use std::alloc::Global;

/// A turn of a cut: the history is cut off, or the call rests until no transaction is live and the end of each that rested in its
/// commit was returned. A cut that another call has made meanwhile serves this one too.
pub fn cut_turn<E: Answering>(
    desk: &mut Desk<E>,
    ask: &mut Ask,
    alloc: Global,
    now: u64,
    wakes: &mut bool,
) -> Result<Turn, NoMemory>
    ensures done { result ≡ Ok Turn.Done → IsCutOff (state E.state desk.old) (state E.state desk.new)
        ⊎ (SawCut ask.old (state E.state desk.old) × SameHistory (state E.state desk.old) (state E.state desk.new)) }
    ensures rests { result ≡ Ok Turn.Rest → Rests ask.new now (state E.state desk.new) }
    ensures why { result ≡ Ok Turn.Rest → ask.new.reason ≡ Some (Busy (state E.state desk.new).part) }
    ensures late { result ≡ Ok Turn.Late → (has_come ask.old.deadline now ≡ true) × (is_busy (state E.state desk.old) ≡ true) }
    ensures turns { (result ≢ Ok Turn.Again) × (result ≢ Ok Turn.Stale) }
    ensures unchanged { result ≢ Ok Turn.Done → SameHistory (state E.state desk.old) (state E.state desk.new) }
    ensures busy { is_busy (state E.state desk.old) ≡ true → SameHistory (state E.state desk.old) (state E.state desk.new) }
    ensures deadline { ask.new.deadline ≡ ask.old.deadline }
    ensures counted { ask.new.is_counted ≡ ask.old.is_counted }
    ensures counts { SameCounts (state E.state desk.old) (state E.state desk.new) }
    ensures wakes { Wakes (state E.state desk.old) (state E.state desk.new) wakes.new }
    ensures woken { wakes.old ≡ true → wakes.new ≡ true }
{
    let part = desk.part;
    if ask.saw_cut(part) {
        return Ok(Turn::Done);
    }
    if desk.is_busy() {
        ask.reason = Some(Reason::Busy(part));
        return Ok(ask.turn(now));
    }
    desk.cut_off(alloc, wakes)?;
    Ok(Turn::Done)
}

/// The same, counted: nothing is started while it rests.
pub fn cut<E: Answering>(
    desk: &mut Desk<E>,
    ask: &mut Ask,
    alloc: Global,
    now: u64,
    wakes: &mut bool,
) -> Result<Turn, NoMemory>
    ensures turn { CutTurn now (state E.state desk.old) ask.old (state E.state desk.new) ask.new result }
    ensures wakes { Wakes (state E.state desk.old) (state E.state desk.new) wakes.new }
    ensures woken { wakes.old ≡ true → wakes.new ≡ true }
{
    let made = cut_turn(desk, ask, alloc, now, wakes);
    match made {
        Ok(Turn::Rest) => desk.begin_cut(ask),
        _ => desk.end_cut(ask, wakes),
    }
    made
}
