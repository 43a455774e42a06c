//! The calls of the committed and refused transactions, in the order of their replies.
ghost use Rattle.std.specs.Prelude.{◌≡◌, ◌≢◌, ◌≤◌, ◌<◌, ◌↔◌, IsNone, IfSome, IfNone, List, ◌++◌, drop, length, reverse, take};
ghost use Rattle.std.specs.List.{All};
ghost use Rattle.sgt_model.specs.declared.entry.Entry.{Entry};
ghost use Rattle.sgt_model.specs.Progress.{call_of, caller_accesses};
ghost use Rattle.sgt_model.specs.Questions.{called};
ghost use Rattle.sgt_model.specs.Replay.{reported_call_in, reported_in};
ghost use Rattle.sgt_c.specs.AccessStructs.{listed};
ghost use Rattle.sgt_c.specs.Entries.{HasNoPlace};
ghost use Rattle.sgt_c.specs.ManyRuns.{IsStartable};
ghost use Rattle.sgt_c.specs.ReplayedCalls.{ArePassed, CountsAccesses, IsLegal, IsReportedAt, ReturnsCalls, call_in, ends_by, ends_in, past_at, result_in};
ghost use Rattle.sgt_c.specs.Reruns.{CanBeRerun};
ghost use Rattle.sgt_c.specs.Handles.{Visits};

use crate::access_list::access_by;
use crate::call_struct::SgtCall;
use crate::handle::{Handle, take_held};
use crate::status;
use sgt_log::{EntryRef, History};
use sgt_model::{Args, Call, ShortReply, Tid};
use sgt_progress::reruns_agree;
use std::alloc::Global;

/// The calls of the committed and refused transactions from a position of the history on, in the order of their
/// replies, each with its result and with the number of accesses on which its caller decided: `sgt_accesses` returns
/// these. The headline runs this list one after another. At most as many calls are written as
/// `calls` holds. `count` is their number, and `next` the position from which the next call continues.
///
/// It reads the entries from `from` to `next`, and for each call that it finds the entries back to the transaction's
/// start.
///
/// - `BUSY`; `CLOSED`.
/// - `NONE`: the history has fewer entries than this position.
pub fn sgt_calls(
    alloc: Global,
    engine: &mut Handle,
    from: u64,
    calls: &mut [SgtCall],
    count: &mut u64,
    next: &mut u64,
) -> u32
    ensures returned { result ≡ 0 → ReturnsCalls engine.old.slot.held from calls.new count.new next.new }
    ensures again { result ≡ 0 → CanBeRerun engine.old.slot.held from calls.new count.new next.new }
    ensures rest { drop count.new calls.new ≡ drop count.new calls.old }
    ensures capacity { length calls.new ≡ length calls.old }
    ensures none { (result ≡ 4) ↔ HasNoPlace engine.old.slot.held from }
    ensures visits { Visits result engine.old.state engine.old.slot.held engine.new.state }
    ensures statuses { result ≢ 10 → result ≢ 0 → result ≢ 2 → result ≡ 4 }
    ensures unwritten { result ≢ 0 → calls.new ≡ calls.old }
    ensures kept { result ≢ 0 → (count.new ≡ count.old) × (next.new ≡ next.old) }
    ensures same { engine.new.slot.held ≡ engine.old.slot.held }
{
    // If the calls that a history reports run one after another on a new engine, each gets the same result.
    reruns_agree();
    let held = take_held!(alloc, engine);
    let passed = pass(held.engine.history(), from, calls);
    engine.put(held);
    match passed {
        Some(passed) => {
            *count = passed.count as u64;
            *next = passed.next as u64;
            status::OK
        }
        None => status::NONE,
    }
}

/// How many calls were written, and up to which position the entries were read.
#[derive(Clone, Copy)]
pub struct Passed {
    pub count: usize,
    pub next: usize,
}

/// Writes the calls from a position on, at most as many as fit. None if the history has fewer entries than the position.
pub fn pass(history: &History, from: u64, to: &mut [SgtCall]) -> Option<Passed>
    requires { IsLegal history.now.entries }
    ensures passed { IfSome result (λ p. ArePassed history.now.entries from to.new p.count p.next) }
    ensures rest { IfSome result (λ p. drop p.count to.new ≡ drop p.count to.old) }
    ensures none { IsNone result ↔ (length history.now.entries < from) }
    ensures unwritten { IfNone result (to.new ≡ to.old) }
    ensures capacity { length to.new ≡ length to.old }
{
    if from > history.len() as u64 {
        return None;
    }
    let mut count = 0;
    let mut next = from as usize;
    while next < history.len() && count < to.len() {
        count = put(to, count, reported_at(history, next));
        next += 1;
    }
    Some(Passed { count, next })
}

/// Writes a call, if there is one, at this index, and returns how many calls there are.
fn put(to: &mut [SgtCall], count: usize, call: Option<SgtCall>) -> usize
    requires { count < length to.old }
    ensures put { take result to.new ≡ take count to.old ++ listed (λ call. call) call }
    ensures requested { All IsStartable (take count to.old) → IfSome call IsStartable → All IsStartable (take result to.new) }
    ensures accesses { (past : List Entry) → All (CountsAccesses past) (take count to.old) → IfSome call (CountsAccesses past)
        → All (CountsAccesses past) (take result to.new) }
    ensures rest { drop result to.new ≡ drop result to.old }
    ensures capacity { length to.new ≡ length to.old }
    ensures within { (count ≤ result) × (result ≤ length to.new) }
{
    match call {
        Some(call) => {
            to[count] = call;
            count + 1
        }
        None => count,
    }
}

/// The call of the transaction that the entry at a position commits or refuses, if any.
fn reported_at(history: &History, place: usize) -> Option<SgtCall>
    requires within { place < length history.now.entries }
    requires legal { IsLegal history.now.entries }
    ensures reported { IsReportedAt history.now.entries place result }
    ensures accesses { IfSome result (CountsAccesses (reverse history.now.entries)) }
    ensures requested { IfSome result IsStartable }
{
    let entry = history.entry(place);
    reported_by(history, place, &entry)
}

/// The call of the transaction that an entry commits or refuses, if any. The entry follows those before a position.
#[tactic(auto, using(crate::proofs::Replies::whole))]
fn reported_by(history: &History, place: usize, entry: &EntryRef<'_>) -> Option<SgtCall>
    requires within { place ≤ length history.now.entries }
    requires legal { IsLegal history.now.entries }
    ensures calls { reported_call_in (past_at history.now.entries place) entry.now.event entry.now.reply
        ≡ listed (call_in (past_at history.now.entries place)) result }
    ensures results { reported_in entry.now.reply ≡ listed result_in result }
    ensures ends { ends_by entry.now.event entry.now.reply ≡ listed ends_in result }
    ensures accesses { IfSome result (CountsAccesses (past_at history.now.entries place)) }
    ensures requested { IfSome result IsStartable }
{
    let t = entry.named().unwrap_or(Tid(0));
    match entry.short() {
        ShortReply::Committed => {
            let (started, accesses) = started(history, place, t);
            Some(SgtCall::committed(t, &started, accesses, entry.answers()))
        }
        ShortReply::Refused(code) => {
            let (started, accesses) = started(history, place, t);
            Some(SgtCall::refused(t, &started, accesses, code))
        }
        _ => None,
    }
}

/// What a transaction was started with in the entries before a position, and how many accesses its caller decided on
/// there. It reads them from the newest to the start.
fn started(history: &History, place: usize, t: Tid) -> (Call, usize)
    requires within { place ≤ length history.now.entries }
    requires legal { IsLegal history.now.entries }
    ensures call { call_of (past_at history.now.entries place) t ≡ called result.0 }
    ensures accesses { length (caller_accesses (past_at history.now.entries place) t) ≡ result.1 }
{
    let mut accesses = 0;
    let mut at = place;
    while 0 < at {
        at -= 1;
        let entry = history.entry(at);
        if let Some(started) = entry.call_of(t) {
            return (started, accesses);
        }
        if access_by(&entry, t).is_some() {
            accesses += 1;
        }
    }
    let none = Call {
        procedure: 0,
        args: Args::new(),
    };
    (none, accesses)
}
