//! The limits of an engine.
ghost use Rattle.std.specs.Prelude.{◌≡◌, ◌≢◌, IfSome};
ghost use Rattle.sgt_c.specs.Limits.{limits_of};
ghost use Rattle.sgt_c.specs.Handles.{Visits};

use crate::handle::{Handle, take_held};
use crate::status;
use sgt_model::Asks;
use std::alloc::Global;

/// The three limits, as an opening has them: how many transactions may be live at once, how many may be started until the history is cut,
/// and when a code that a procedure raises is reported: 0 at the step, 1 at the commit.
///
/// `BUSY`; `CLOSED`.
pub fn sgt_limits(alloc: Global, engine: &mut Handle, limits: &mut [u64; 3]) -> u32
    ensures limits { result ≡ 0 → IfSome engine.old.slot.held (λ h. limits.new ≡ limits_of h.engine.limits) }
    ensures visits { Visits result engine.old.state engine.old.slot.held engine.new.state }
    ensures statuses { result ≢ 10 → result ≢ 0 → result ≡ 2 }
    ensures kept { result ≢ 0 → limits.new ≡ limits.old }
    ensures same { engine.new.slot.held ≡ engine.old.slot.held }
{
    let held = take_held!(alloc, engine);
    let said = held.engine.sched().limits();
    engine.put(held);
    *limits = [
        u64::from(said.live),
        u64::from(said.begins),
        match said.asks {
            Asks::AtStep => 0,
            Asks::AtCommit => 1,
        },
    ];
    status::OK
}
