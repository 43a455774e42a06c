//! The accesses on which a transaction's caller decided.
ghost use Rattle.std.specs.Prelude.{◌≡◌, ◌≢◌, ◌≤◌, ◌<◌, ◌^◌, ◌+◌, [], drop, length, map, reverse};
ghost use Rattle.sgt_model.specs.Progress.{caller_access_in, caller_accesses};
ghost use Rattle.sgt_c.specs.AccessStructs.{AddsAccess, HoldAccesses, ReturnsAccesses, accesses_of, kinded, listed, said};
ghost use Rattle.sgt_c.specs.Handles.{Visits};
ghost use Rattle.sgt_c.specs.ReplayedCalls.{IsLegal, past_at};

use crate::access_struct::SgtAccess;
use crate::handle::{Handle, take_held};
use crate::status;
use sgt_log::{EntryRef, History};
use sgt_model::{Event, ShortReply, Tid};
use std::alloc::Global;

/// The accesses on which the caller of a transaction decided, in the order in which they were made, each with the value
/// that was read or written. The first are written to `accesses`, as many as fit. `count` is the number of all. A
/// transaction that made none, or that was not started, has none.
///
/// It reads the entries back to the transaction's start.
///
/// `BUSY`; `CLOSED`.
pub fn sgt_accesses(
    alloc: Global,
    engine: &mut Handle,
    t: u32,
    accesses: &mut [SgtAccess],
    count: &mut u64,
) -> u32
    ensures returned { result ≡ 0 → ReturnsAccesses engine.old.slot.held t accesses.new count.new }
    ensures rest { drop count.new accesses.new ≡ drop count.new accesses.old }
    ensures capacity { length accesses.new ≡ length accesses.old }
    ensures visits { Visits result engine.old.state engine.old.slot.held engine.new.state }
    ensures statuses { result ≢ 10 → result ≢ 0 → result ≡ 2 }
    ensures unwritten { result ≢ 0 → (accesses.new ≡ accesses.old) × (count.new ≡ count.old) }
    ensures same { engine.new.slot.held ≡ engine.old.slot.held }
{
    let held = take_held!(alloc, engine);
    let written = write_accesses(accesses, held.engine.history(), Tid(t));
    engine.put(held);
    *count = written as u64;
    status::OK
}

/// Writes the accesses of a transaction's caller, as many as fit, and returns how many there are.
fn write_accesses(to: &mut [SgtAccess], history: &History, t: Tid) -> usize
    requires { IsLegal history.now.entries }
    ensures returned { HoldAccesses to.new (accesses_of (reverse history.now.entries) t) }
    ensures count { result ≡ length (accesses_of (reverse history.now.entries) t) }
    ensures rest { drop result to.new ≡ drop result to.old }
    ensures capacity { length to.new ≡ length to.old }
{
    let mut count = 0;
    for place in start_of(history, t)..history.len() {
        count = put(to, count, access_by(&history.entry(place), t));
    }
    count
}

/// Writes an access, if there is one, at this index, if it fits there, and returns how many accesses there are.
#[tactic(auto, using(crate::proofs::AccessLists::adds_none, crate::proofs::AccessLists::adds_within, crate::proofs::AccessLists::adds_beyond))]
fn put(to: &mut [SgtAccess], count: usize, access: Option<SgtAccess>) -> usize
    requires { count + 1 < 2 ^ 64 }
    ensures put { AddsAccess access count to.old result to.new }
    ensures step { (count ≤ result) × (result ≤ count + 1) }
    ensures rest { drop result to.new ≡ drop result to.old }
    ensures capacity { length to.new ≡ length to.old }
{
    let Some(access) = access else {
        return count;
    };
    if count >= to.len() {
        return count + 1;
    }
    to[count] = access;
    count + 1
}

/// A position of the history before which a transaction's caller made no access: that of its start, if it was started.
fn start_of(history: &History, t: Tid) -> usize
    requires { IsLegal history.now.entries }
    ensures within { result ≤ length history.now.entries }
    ensures none { caller_accesses (past_at history.now.entries result) t ≡ [] }
{
    let mut at = history.len();
    while 0 < at {
        at -= 1;
        if history.entry(at).started() == Some(t) {
            return at;
        }
    }
    0
}

/// The access that an entry makes for a transaction's caller, if it does.
pub fn access_by(entry: &EntryRef<'_>, t: Tid) -> Option<SgtAccess>
    ensures { map kinded (caller_access_in entry.now.event entry.now.reply t) ≡ listed said result }
{
    match entry.event() {
        Event::Access(u, _) => {
            if u == t {
                match entry.short() {
                    ShortReply::Looked { key, value } => Some(SgtAccess::read(key, value)),
                    ShortReply::Wrote { key, value } => Some(SgtAccess::written(key, value)),
                    _ => None,
                }
            } else {
                None
            }
        }
        _ => None,
    }
}
