//! Cuts that the configuration of a shared engine asks for, for C.
ghost use Rattle.std.specs.Prelude.{◌≡◌, ◌≢◌, ◌⊎◌, IfSome, length, nat_eq};
ghost use Rattle.sgt_desk.specs.Desks.{is_busy};
ghost use Rattle.sgt_desk.specs.Plans.{IsPutOff, SamePlan};
ghost use Rattle.sgt_c.specs.DeskStructs.{desk_in};
ghost use Rattle.sgt_c.specs.Decisions.{MakesPlan, plan_in, planned_status};
ghost use Rattle.sgt_c.specs.Handles.{Visits};

use crate::handle::{Handle, take_held};
use crate::shared::cutting::is_busy;
use crate::shared::desk_struct::SgtDesk;
use crate::shared::turns::note_wake;
use crate::status;
use sgt_desk::{Plan, Planned};
use std::alloc::Global;

/// When the history is cut by itself. All bytes are zero if it never is.
#[repr(C)]
#[derive(Drop)]
pub struct SgtPlan {
    /// After how many entries. 0: never.
    pub after: u64,
    /// For how many nanoseconds starts wait for a cut that is due. 0: they do not.
    pub patience: u64,
    /// A cut is due once the history has this many entries.
    pub at: u64,
    /// Until when starts wait, if `pauses` is 1.
    pub pause: u64,
    pub pauses: u32,
    pub spare: u32,
}

/// What the plan asks for next: `OK` nothing; `AGAIN` a cut, which can be made now; `REST` starts wait until `pause`. If they have waited
/// as long as the plan says, the cut is put off. `wakes` becomes 1 if starts wait no longer.
///
/// `BUSY`; `CLOSED`.
pub fn sgt_desk_plan(
    alloc: Global,
    engine: &mut Handle,
    desk: &SgtDesk,
    plan: &mut SgtPlan,
    now: u64,
    wakes: &mut u32,
) -> u32
    ensures plan { result ≢ 10 → result ≢ 2 → IfSome engine.old.slot.held (λ h. MakesPlan (length h.engine.past)
        (is_busy (desk_in desk.now h)) now result plan.old plan.new (nat_eq wakes.new 1)) }
    ensures woken { wakes.old ≡ 1 → wakes.new ≡ 1 }
    ensures unchanged { (result ≡ 2) ⊎ (result ≡ 10) → (plan.new ≡ plan.old) × (wakes.new ≡ wakes.old) }
    ensures visits { Visits result engine.old.state engine.old.slot.held engine.new.state }
    ensures same { engine.new.slot.held ≡ engine.old.slot.held }
{
    let held = take_held!(alloc, engine);
    let entries = held.engine.history().len() as u64;
    let is_busy = is_busy(&held, desk);
    engine.put(held);
    plan_next(plan, entries, is_busy, now, wakes)
}

/// The same for a history of this many entries, which may be cut or not.
fn plan_next(plan: &mut SgtPlan, entries: u64, is_busy: bool, now: u64, wakes: &mut u32) -> u32
    ensures plan { MakesPlan entries is_busy now result plan.old plan.new (nat_eq wakes.new 1) }
    ensures woken { wakes.old ≡ 1 → wakes.new ≡ 1 }
    ensures statuses { (result ≢ 2) × (result ≢ 10) }
{
    let mut next = read_plan(plan);
    let mut woken = false;
    let planned = next.next(entries, is_busy, now, &mut woken);
    *plan = plan_struct(&next);
    note_wake(wakes, woken);
    planned_status(planned)
}

/// Puts the next cut off until the history has as many more entries as the plan says: after a cut, or where one failed. `wakes` becomes 1:
/// starts wait no longer.
///
/// `BUSY`; `CLOSED`.
pub fn sgt_desk_put_off(
    alloc: Global,
    engine: &mut Handle,
    plan: &mut SgtPlan,
    wakes: &mut u32,
) -> u32
    ensures put_off { result ≡ 0 → IfSome engine.old.slot.held (λ h. IsPutOff (length h.engine.past) (plan_in plan.old) (plan_in plan.new)
        × SamePlan (plan_in plan.old) (plan_in plan.new)) }
    ensures wakes { result ≡ 0 → wakes.new ≡ 1 }
    ensures unchanged { result ≢ 0 → (plan.new ≡ plan.old) × (wakes.new ≡ wakes.old) }
    ensures statuses { result ≢ 10 → result ≢ 0 → result ≡ 2 }
    ensures visits { Visits result engine.old.state engine.old.slot.held engine.new.state }
    ensures same { engine.new.slot.held ≡ engine.old.slot.held }
{
    let held = take_held!(alloc, engine);
    let entries = held.engine.history().len() as u64;
    engine.put(held);
    let mut next = read_plan(plan);
    next.put_off(entries, &mut false);
    *plan = plan_struct(&next);
    *wakes = 1;
    status::OK
}

/// The plan that a struct says.
fn read_plan(plan: &SgtPlan) -> Plan
    ensures { result ≡ plan_in plan.now }
{
    Plan {
        after: plan.after,
        patience: plan.patience,
        at: plan.at,
        pause: if plan.pauses == 1 {
            Some(plan.pause)
        } else {
            None
        },
    }
}

/// The struct of a plan.
fn plan_struct(plan: &Plan) -> SgtPlan
    ensures { plan_in result ≡ plan.now }
{
    SgtPlan {
        after: plan.after,
        patience: plan.patience,
        at: plan.at,
        pause: plan.pause.unwrap_or(0),
        pauses: u32::from(plan.pause.is_some()),
        spare: 0,
    }
}

/// The number of what comes next.
fn planned_status(planned: Planned) -> u32
    ensures { result ≡ planned_status planned }
{
    match planned {
        Planned::Nothing => status::OK,
        Planned::Cut => status::AGAIN,
        Planned::Pause(_) => status::REST,
    }
}
