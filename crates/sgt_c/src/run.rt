//! A transaction that one call runs from its start to its end.
ghost use Rattle.std.specs.Prelude.{◌≡◌, ◌≢◌, ◌≤◌, ℕ, true, Some, Option, IfOk, OnOk, OnErr};
ghost use Rattle.sgt_model.specs.declared.event.Event.TheVariants.{Start, Quit};
ghost use Rattle.sgt_model.specs.declared.reply.Reply.{Reply};
ghost use Rattle.sgt_model.specs.Fates.{live};
ghost use Rattle.sgt_engine.specs.EngineView.{with_entry};
ghost use Rattle.sgt_c.specs.Asked.{IsCall};
ghost use Rattle.sgt_c.specs.KeptFields.{KeepsOtherFields};
ghost use Rattle.sgt_c.specs.Runs.{Ran, GaveUp, RunsTo, GivesUp, RunsOnTo, StepsTo, StopsLive, is_access, is_end, is_write};
ghost use Rattle.sgt_c.specs.Handles.{VisitsIf};

use crate::handle::{Handle, take_held};
use crate::held::Held;
use crate::reply_struct::{SgtReply, write_reply};
use crate::requested::{arguments, is_call};
use crate::status;
use sgt_assembly::SgtEngine;
use sgt_model::{Args, Event, NoMemory, ShortReply, Tid};
use std::alloc::Global;

/// Runs a procedure from its start to its commit, for a caller whose transactions need not run concurrently. The last
/// reply is returned: to the commit, to the step that aborted the transaction, or to the start that was refused. Each
/// event is an entry of the history. The number of a transaction that was started is written to `tid`; else that stays.
///
/// - `BAD_CALL`, tested first: there are over 4 arguments.
/// - `BUSY`; `CLOSED`.
/// - `NO_MEMORY`: nothing has changed, or the transaction that was started is aborted.
pub fn sgt_run(
    alloc: Global,
    engine: &mut Handle,
    procedure: u64,
    args: &[i64],
    tid: &mut u32,
    reply: &mut SgtReply,
) -> u32
    ensures ran { result ≡ 0 →
        Ran (Start procedure args.now) engine.old.slot.held engine.new.slot.held tid.old tid.new reply.new }
    ensures kept { result ≡ 0 → KeepsOtherFields reply.old reply.new }
    ensures gave_up { result ≡ 1 →
        GaveUp (Start procedure args.now) engine.old.slot.held engine.new.slot.held }
    ensures unchanged { 2 ≤ result → engine.new.slot.held ≡ engine.old.slot.held }
    ensures unwritten { result ≢ 0 → (tid.new ≡ tid.old) × (reply.new ≡ reply.old) }
    ensures visits { VisitsIf (IsCall procedure args.now) result engine.old.state engine.old.slot.held engine.new.state }
    ensures statuses { result ≢ 10 → result ≢ 5 → result ≤ 2 }
{
    if !is_call(procedure, args) {
        return status::BAD_CALL;
    }
    let mut held = take_held!(alloc, engine);
    let ran = run_in(&mut held, procedure as u16, arguments(args), tid, reply);
    engine.put(held);
    match ran {
        Ok(()) => status::OK,
        Err(NoMemory) => status::NO_MEMORY,
    }
}

/// Runs a procedure from its start to its commit, and writes the number and the last reply.
fn run_in(
    held: &mut Held,
    procedure: u16,
    args: Args,
    tid: &mut u32,
    reply: &mut SgtReply,
) -> Result<(), NoMemory>
    ensures ran { OnOk result
        (Ran (Start procedure args) (Some held.old) (Some held.new) tid.old tid.new reply.new) }
    ensures kept { OnOk result (KeepsOtherFields reply.old reply.new) }
    ensures gave_up { OnErr result (GaveUp (Start procedure args) (Some held.old) (Some held.new)) }
    ensures unwritten { OnErr result ((tid.new ≡ tid.old) × (reply.new ≡ reply.old)) }
{
    let ran = run(&mut held.engine, procedure, args);
    // The headline holds of the history that this call borrows.
    let _ = held.engine.history();
    match &ran {
        Ok(outcome) => {
            if let Some(t) = outcome.started {
                *tid = t.0;
            }
            write_reply(reply, &outcome.last, held.engine.reply_lists());
            Ok(())
        }
        Err(NoMemory) => Err(NoMemory),
    }
}

/// The outcome of a run: the number of its transaction, if one was started, whether one of its steps wrote, and the last
/// reply, whose lists the engine lends.
#[derive(Clone, Copy)]
pub struct Outcome {
    pub started: Option<Tid>,
    pub wrote: bool,
    pub last: ShortReply,
}

/// The steps of a transaction: whether one of them wrote, and the last reply.
#[derive(Clone, Copy)]
pub struct Steps {
    pub wrote: bool,
    pub last: ShortReply,
}

/// Runs a procedure from its start to its commit. If an allocation fails after the start, the transaction is aborted.
pub fn run(engine: &mut SgtEngine, procedure: u16, args: Args) -> Result<Outcome, NoMemory>
    ensures ran { IfOk result (λ r. RunsTo (Start procedure args) r.started r.wrote r.last engine.old engine.new) }
    ensures gave_up { OnErr result
        ((started : Option ℕ) × GivesUp (Start procedure args) started engine.old engine.new) }
{
    let mut reply = ShortReply::Unknown;
    engine.answer_inline(&Event::Start { procedure, args }, &mut reply)?;
    match reply {
        ShortReply::Started(t) => match run_on(engine, t) {
            Ok(Steps { wrote, last }) => Ok(Outcome {
                started: Some(t),
                wrote,
                last,
            }),
            Err(NoMemory) => {
                quit(engine, t);
                Err(NoMemory)
            }
        },
        last => Ok(Outcome {
            started: None,
            wrote: false,
            last,
        }),
    }
}

/// Steps a live transaction to its end, and commits it if it reaches it. The last reply is returned.
fn run_on(engine: &mut SgtEngine, t: Tid) -> Result<Steps, NoMemory>
    requires { live engine.old.past t ≡ true }
    ensures ran { IfOk result (λ s. RunsOnTo t s.wrote s.last engine.old engine.new) }
    ensures stopped { OnErr result (StopsLive t engine.old engine.new) }
{
    let steps = step_on(engine, t)?;
    if !is_end(&steps.last) {
        return Ok(steps);
    }
    let mut last = ShortReply::Unknown;
    engine.answer_inline(&Event::Commit(t), &mut last)?;
    Ok(Steps {
        wrote: steps.wrote,
        last,
    })
}

/// Steps a live transaction until a step makes no access. The last reply is that to this step.
fn step_on(engine: &mut SgtEngine, t: Tid) -> Result<Steps, NoMemory>
    requires { live engine.old.past t ≡ true }
    ensures stepped { IfOk result (λ s. StepsTo t s.wrote s.last engine.old engine.new) }
    ensures at_end { IfOk result (λ s. is_end s.last ≡ true → live engine.new.past t ≡ true) }
    ensures stopped { OnErr result (StopsLive t engine.old engine.new) }
{
    let step = Event::Step(t);
    let mut wrote = false;
    let mut last = ShortReply::Unknown;
    for _ in 0..u64::MAX {
        engine.answer_inline(&step, &mut last)?;
        if !is_access(&last) {
            return Ok(Steps { wrote, last });
        }
        wrote = is_write(&last) || wrote;
    }
    // No memory can hold a history of that many entries.
    Err(NoMemory)
}

/// Aborts a live transaction (`quit`), which takes no memory.
fn quit(engine: &mut SgtEngine, t: Tid)
    requires { live engine.old.past t ≡ true }
    ensures { (r : Reply) × (engine.new ≡ with_entry (Quit t) r engine.old) }
{
    let mut reply = ShortReply::Unknown;
    match engine.answer_inline(&Event::Quit(t), &mut reply) {
        Ok(()) => (),
        Err(NoMemory) => unreachable!(),
    }
}

fn is_access(reply: &ShortReply) -> bool
    ensures { result ≡ is_access reply.now }
{
    matches!(reply, ShortReply::Looked { .. } | ShortReply::Wrote { .. })
}

fn is_write(reply: &ShortReply) -> bool
    ensures { result ≡ is_write reply.now }
{
    matches!(reply, ShortReply::Wrote { .. })
}

fn is_end(reply: &ShortReply) -> bool
    ensures { result ≡ is_end reply.now }
{
    matches!(reply, ShortReply::Ended)
}
