//! Turns of a cut, for C.
ghost use Rattle.std.specs.Prelude.{◌≡◌, ◌≢◌, ◌<◌, cond, nat_eq, IfSome};
ghost use Rattle.sgt_desk.specs.Desks.{is_busy, without_call};
ghost use Rattle.sgt_c.specs.DeskStructs.{ask_in, desk_in};
ghost use Rattle.sgt_c.specs.DeskTurns.{IsRefused, IsTurn, MakesCut, OfDesks, WakesBy, cuts_now};
ghost use Rattle.sgt_c.specs.Handles.{Visits};

use crate::handle::{Handle, take_held};
use crate::held::Held;
use crate::shared::ask_struct::{SgtAsk, ask_struct, read_ask};
use crate::shared::desk_struct::SgtDesk;
use crate::shared::lent::{give_back, lend};
use crate::shared::turns::{note_wake, status_of};
use crate::status;
use sgt_desk::cut;
use std::alloc::Global;

/// A turn of a cut.
///
/// `OK`, `REST`, `TIMED_OUT`, `NO_MEMORY`; `BUSY`; `CLOSED`.
pub fn sgt_desk_cut(
    alloc: Global,
    engine: &mut Handle,
    desk: &mut SgtDesk,
    ask: &mut SgtAsk,
    now: u64,
    wakes: &mut u32,
) -> u32
    ensures turn { IsTurn result → OfDesks engine.old.slot.held desk.old engine.new.slot.held desk.new (MakesCut now result ask.old ask.new) }
    ensures wakes { IsTurn result → OfDesks engine.old.slot.held desk.old engine.new.slot.held desk.new (WakesBy wakes.new) }
    ensures unchanged { IsRefused result → (engine.new.slot.held ≡ engine.old.slot.held) × (desk.new ≡ desk.old)
        × (ask.new ≡ ask.old) × (wakes.new ≡ wakes.old) }
    ensures visits { Visits result engine.old.state engine.old.slot.held engine.new.state }
{
    let mut lent = lend(take_held!(alloc, engine), desk);
    let mut call = read_ask(ask);
    let mut woken = false;
    let made = cut(&mut lent, &mut call, alloc, now, &mut woken);
    *ask = ask_struct(&call);
    note_wake(wakes, woken);
    engine.put(give_back(lent, desk));
    status_of(&made)
}

/// 1 if the next turn of the cut would cut the history off: no transaction is live, no end of a commit is still to be returned, and no
/// other call has made the cut. Else 0. A caller can so look at the history before.
///
/// `BUSY`; `CLOSED`.
pub fn sgt_desk_cuts(
    alloc: Global,
    engine: &mut Handle,
    desk: &SgtDesk,
    ask: &SgtAsk,
    cuts: &mut u32,
) -> u32
    ensures cuts { result ≡ 0 → IfSome engine.old.slot.held (λ h. cuts.new ≡ cond (cuts_now (ask_in ask.now) (desk_in desk.now h)) 1 0) }
    ensures same { engine.new.slot.held ≡ engine.old.slot.held }
    ensures kept { result ≢ 0 → cuts.new ≡ cuts.old }
    ensures statuses { result ≢ 10 → result ≢ 0 → result ≡ 2 }
    ensures visits { Visits result engine.old.state engine.old.slot.held engine.new.state }
{
    let held = take_held!(alloc, engine);
    let call = read_ask(ask);
    *cuts = u32::from(!call.saw_cut(held.part) && !is_busy(&held, desk));
    engine.put(held);
    status::OK
}

/// Whether the history may not be cut off.
pub fn is_busy(held: &Held, desk: &SgtDesk) -> bool
    ensures { result ≡ is_busy (desk_in desk.now held.now) }
{
    held.engine.sched().live_count() > 0 || desk.committing > 0
}

/// Counts a call among those that wait for a cut no longer: its caller gives it up.
pub fn sgt_desk_leave(desk: &mut SgtDesk, ask: &mut SgtAsk, wakes: &mut u32)
    ensures cutters { desk.new.cutters ≡ without_call (nat_eq ask.old.is_counted 1) desk.old.cutters }
    ensures counts { (desk.new.ended ≡ desk.old.ended) × (desk.new.reported ≡ desk.old.reported) × (desk.new.committing ≡ desk.old.committing) }
    ensures counted { ask.new.is_counted ≡ cond (nat_eq ask.old.is_counted 1) 0 ask.old.is_counted }
    ensures wakes { 0 < desk.old.cutters → desk.new.cutters ≡ 0 → wakes.new ≡ 1 }
    ensures woken { wakes.old ≡ 1 → wakes.new ≡ 1 }
{
    if ask.is_counted == 1 {
        ask.is_counted = 0;
        desk.cutters = desk.cutters.saturating_sub(1);
        if desk.cutters == 0 {
            *wakes = 1;
        }
    }
}
