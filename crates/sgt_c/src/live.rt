//! Who is live.
ghost use Rattle.std.specs.Prelude.{◌≡◌, ◌≢◌, IfSome, drop, length, take};
ghost use Rattle.sgt_model.specs.Fates.{live_ones};
ghost use Rattle.sgt_c.specs.Handles.{Visits};

use crate::handle::{Handle, take_held};
use crate::reply_struct::write_tids;
use crate::status;
use std::alloc::Global;

/// The numbers of the live transactions, rising: they are written to the first items of `tids`, and how many they are to `count`.
///
/// `BUSY`; `CLOSED`.
pub fn sgt_live_tids(
    alloc: Global,
    engine: &mut Handle,
    tids: &mut [u32; 32],
    count: &mut u64,
) -> u32
    ensures live { result ≡ 0 → IfSome engine.old.slot.held (λ h. take count.new tids.new ≡ live_ones h.engine.past) }
    ensures count { result ≡ 0 → IfSome engine.old.slot.held (λ h. count.new ≡ length (live_ones h.engine.past)) }
    ensures rest { result ≡ 0 → drop count.new tids.new ≡ drop count.new tids.old }
    ensures visits { Visits result engine.old.state engine.old.slot.held engine.new.state }
    ensures statuses { result ≢ 10 → result ≢ 0 → result ≡ 2 }
    ensures unwritten { result ≢ 0 → (tids.new ≡ tids.old) × (count.new ≡ count.old) }
    ensures same { engine.new.slot.held ≡ engine.old.slot.held }
{
    let held = take_held!(alloc, engine);
    let live = held.engine.sched().live();
    engine.put(held);
    *count = u64::from(write_tids(tids, &live));
    status::OK
}
