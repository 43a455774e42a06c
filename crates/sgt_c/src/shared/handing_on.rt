//! The calls that an engine's threads hand on, for C: each once, in the order of their replies, with its number.
ghost use Rattle.std.specs.Prelude.{◌≡◌, ◌≢◌, ◌<◌, ◌⊎◌, IfSome, length, reverse};
ghost use Rattle.sgt_desk.specs.Desks.{position_in};
ghost use Rattle.sgt_c.specs.Decisions.{HandsOn};
ghost use Rattle.sgt_c.specs.ReplayedCalls.{ArePassed};
ghost use Rattle.sgt_c.specs.Handles.{Visits};

use crate::call_struct::SgtCall;
use crate::handle::{Handle, take_held};
use crate::replayed_calls::pass;
use crate::status;
use sgt_desk::Feed;
use std::alloc::Global;

/// Hands on the next call that was committed or refused, as `sgt_calls` returns it, with its number: how many were handed on before.
///
/// - `BUSY`; `CLOSED`.
/// - `NONE`: there is none yet.
pub fn sgt_desk_hand_on(
    alloc: Global,
    engine: &mut Handle,
    feed: &mut Feed,
    call: &mut [SgtCall; 1],
    number: &mut u64,
) -> u32
    ensures hands_on { result ≡ 0 → IfSome engine.old.slot.held (λ h. HandsOn h feed.old call.new number.new feed.new) }
    ensures none { result ≡ 4 → IfSome engine.old.slot.held (λ h. (length h.engine.past < position_in feed.old h.part)
        ⊎ ArePassed (reverse h.engine.past) (position_in feed.old h.part) call.new 0 feed.new.read) }
    ensures count { result ≢ 0 → (feed.new.count ≡ feed.old.count) × (number.new ≡ number.old) }
    ensures visits { Visits result engine.old.state engine.old.slot.held engine.new.state }
    ensures statuses { result ≢ 10 → result ≢ 0 → result ≢ 2 → result ≡ 4 }
    ensures same { engine.new.slot.held ≡ engine.old.slot.held }
{
    let held = take_held!(alloc, engine);
    let part = held.part;
    let passed = pass(held.engine.history(), feed.position(part), &mut call[..]);
    engine.put(held);
    let Some(passed) = passed else {
        return status::NONE;
    };
    match feed.pass(part, passed.next as u64, passed.count > 0) {
        Some(given) => {
            *number = given;
            status::OK
        }
        None => status::NONE,
    }
}
