//! Many transactions, run one after another by one call.
ghost use Rattle.std.specs.Prelude.{◌≡◌, ◌≢◌, ◌≤◌, ◌↔◌, ℕ, Option, IsTrue, OnOk, IfErr, OnErr, drop, length};
ghost use Rattle.std.specs.List.{All};
ghost use Rattle.sgt_model.specs.declared.event.Event.TheVariants.{Start};
ghost use Rattle.sgt_c.specs.KeptFields.{KeepOtherFields, KeepsOtherFields};
ghost use Rattle.sgt_c.specs.ManyRuns.{GaveUpAt, IsRunnable, RanAll, RanMany, RanOne, StoppedAt, args_in};
ghost use Rattle.sgt_c.specs.Runs.{GivesUp};
ghost use Rattle.sgt_c.specs.Handles.{VisitsIf};

use crate::call_struct::SgtCall;
use crate::handle::{Handle, take_held};
use crate::reply_struct::{SgtOutcome, write_outcome};
use crate::requested::arguments;
use crate::run::run;
use crate::status;
use sgt_assembly::SgtEngine;
use sgt_model::{Args, NoMemory};
use std::alloc::Global;

/// Runs calls one after another, each from its start to its commit as `sgt_run` does. Only the procedure and the
/// arguments of a call count. Each outcome is written at its call's index in `outcomes`. The number of calls that ran
/// is written to `done`.
///
/// - `BAD_CALL`, tested first: a procedure number is over 65535, a call has over 4 arguments, its caller decided on
///   accesses, or there are fewer outcomes than calls.
/// - `BUSY`; `CLOSED`.
/// - `NO_MEMORY`: the calls before number `done` ran. Of that call nothing has changed, or its transaction is aborted.
pub fn sgt_run_many(
    alloc: Global,
    engine: &mut Handle,
    calls: &[SgtCall],
    outcomes: &mut [SgtOutcome],
    done: &mut u64,
) -> u32
    ensures ran { result ≡ 0 → RanMany engine.old.slot.held calls.now outcomes.new engine.new.slot.held }
    ensures all { result ≡ 0 → done.new ≡ length calls.now }
    ensures gave_up { result ≡ 1 →
        GaveUpAt done.new engine.old.slot.held calls.now outcomes.new engine.new.slot.held }
    ensures kept { result ≤ 1 → KeepOtherFields outcomes.old outcomes.new }
    ensures rest { result ≤ 1 → drop done.new outcomes.new ≡ drop done.new outcomes.old }
    ensures capacity { length outcomes.new ≡ length outcomes.old }
    ensures unchanged { 2 ≤ result → engine.new.slot.held ≡ engine.old.slot.held }
    ensures unwritten { 2 ≤ result → (outcomes.new ≡ outcomes.old) × (done.new ≡ done.old) }
    ensures visits { VisitsIf (All IsRunnable calls.now × (length calls.now ≤ length outcomes.old)) result engine.old.state engine.old.slot.held engine.new.state }
    ensures statuses { result ≢ 10 → result ≢ 5 → result ≤ 2 }
{
    if !are_runnable(calls) || calls.len() > outcomes.len() {
        return status::BAD_CALL;
    }
    let mut held = take_held!(alloc, engine);
    let ran = run_each(&mut held.engine, calls, outcomes);
    let _ = held.engine.history();
    engine.put(held);
    match ran {
        Ok(()) => {
            *done = calls.len() as u64;
            status::OK
        }
        Err(at) => {
            *done = at as u64;
            status::NO_MEMORY
        }
    }
}

/// Whether each call can be run: its procedure number and its number of arguments are in range, and it has no accesses.
fn are_runnable(calls: &[SgtCall]) -> bool
    ensures { IsTrue result ↔ All IsRunnable calls.now }
{
    for call in calls {
        if !is_runnable(call) {
            return false;
        }
    }
    true
}

fn is_runnable(call: &SgtCall) -> bool
    ensures { IsTrue result ↔ IsRunnable call.now }
{
    call.procedure <= 65_535 && call.args <= 4 && call.accesses == 0
}

/// Runs calls one after another. If an allocation fails, the index of that call is the error.
fn run_each(
    engine: &mut SgtEngine,
    calls: &[SgtCall],
    outcomes: &mut [SgtOutcome],
) -> Result<(), usize>
    requires runnable { All IsRunnable calls.now }
    requires capacity { length calls.now ≤ length outcomes.old }
    ensures ran { OnOk result (RanAll calls.now outcomes.new engine.old engine.new) }
    ensures rest_ok { OnOk result (drop (length calls.now) outcomes.new ≡ drop (length calls.now) outcomes.old) }
    ensures stopped { IfErr result (λ at. StoppedAt at calls.now outcomes.new engine.old engine.new) }
    ensures rest_err { IfErr result (λ at. drop at outcomes.new ≡ drop at outcomes.old) }
    ensures kept { KeepOtherFields outcomes.old outcomes.new }
    ensures capacity { length outcomes.new ≡ length outcomes.old }
{
    for (index, call) in calls.iter().enumerate() {
        match run_one(engine, call, &mut outcomes[index]) {
            Ok(()) => (),
            Err(NoMemory) => return Err(index),
        }
    }
    Ok(())
}

/// Runs a call, and writes its outcome for C.
fn run_one(engine: &mut SgtEngine, call: &SgtCall, into: &mut SgtOutcome) -> Result<(), NoMemory>
    requires { IsRunnable call.now }
    ensures ran { OnOk result (RanOne call.now into.new engine.old engine.new) }
    ensures gave_up { OnErr result ((started : Option ℕ)
        × GivesUp (Start call.now.procedure (args_in call.now)) started engine.old engine.new) }
    ensures unwritten { OnErr result (into.new ≡ into.old) }
    ensures kept { KeepsOtherFields into.old.reply into.new.reply }
{
    match &run(engine, call.procedure as u16, args(call)) {
        Ok(outcome) => {
            write_outcome(into, outcome, engine.reply_lists());
            Ok(())
        }
        Err(NoMemory) => Err(NoMemory),
    }
}

/// The arguments of a call.
fn args(call: &SgtCall) -> Args
    requires { IsRunnable call.now }
    ensures { result ≡ args_in call.now }
{
    arguments(&call.arg[..call.args as usize])
}
