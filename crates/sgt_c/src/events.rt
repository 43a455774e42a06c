//! Events and their replies.
ghost use Rattle.std.specs.Prelude.{◌≡◌, ◌≢◌, ◌≤◌, ℕ, true, Some, OnOk, OnErr};
ghost use Rattle.std.specs.Result.{IsOk};
ghost use Rattle.sgt_model.specs.declared.reply.Reply.{Reply};
ghost use Rattle.sgt_model.specs.Fates.{live};
ghost use Rattle.sgt_model.specs.Legality.{LegalReply};
ghost use Rattle.sgt_model.specs.Questions.{is_ending};
ghost use Rattle.sgt_engine.specs.EngineView.{configuration_of};
ghost use Rattle.sgt_model.specs.declared.event.Event.TheVariants.{Start, Step, Commit, Quit};
ghost use Rattle.sgt_c.specs.Calls.{Answered, EndsSucceed, QuitsSucceed};
ghost use Rattle.sgt_c.specs.Asked.{IsCall};
ghost use Rattle.sgt_c.specs.Handles.{Visits, VisitsIf};
ghost use Rattle.sgt_c.specs.KeptFields.{KeepsOtherFields, WritesReply};

use crate::handle::{Handle, take_held};
use crate::held::Held;
use crate::reply_struct::{SgtReply, write_reply};
use crate::requested::{arguments, is_call};
use crate::status;
use sgt_model::{Event, NoMemory, ShortReply, Tid};
use std::alloc::Global;

/// Starts a transaction of the procedure with this number and these arguments.
///
/// - `BAD_CALL`, tested first: the number is over 65535, or there are over 4 arguments.
/// - `BUSY`; `CLOSED`; `NO_MEMORY`.
pub fn sgt_start(
    alloc: Global,
    engine: &mut Handle,
    procedure: u64,
    args: &[i64],
    reply: &mut SgtReply,
) -> u32
    ensures ok { result ≡ 0 → Answered (Start procedure args.now) engine.old.slot.held engine.new.slot.held reply.new }
    ensures unchanged { result ≢ 0 → engine.new.slot.held ≡ engine.old.slot.held }
    ensures writes { WritesReply result reply.old reply.new }
    ensures visits { VisitsIf (IsCall procedure args.now) result engine.old.state engine.old.slot.held engine.new.state }
    ensures statuses { result ≢ 10 → result ≢ 5 → result ≤ 2 }
{
    if !is_call(procedure, args) {
        return status::BAD_CALL;
    }
    let procedure = procedure as u16;
    let args = arguments(args);
    apply_event(alloc, engine, Event::Start { procedure, args }, reply)
}

/// Runs the transaction up to and including its next access.
///
/// `NO_MEMORY`; `BUSY`; `CLOSED`.
pub fn sgt_step(alloc: Global, engine: &mut Handle, t: u32, reply: &mut SgtReply) -> u32
    ensures ok { result ≡ 0 → Answered (Step t) engine.old.slot.held engine.new.slot.held reply.new }
    ensures unchanged { result ≢ 0 → engine.new.slot.held ≡ engine.old.slot.held }
    ensures writes { WritesReply result reply.old reply.new }
    ensures visits { Visits result engine.old.state engine.old.slot.held engine.new.state }
    ensures ends { EndsSucceed (Step t) engine.old.slot.held result }
    ensures statuses { result ≢ 10 → result ≤ 2 }
{
    let mut held = take_held!(alloc, engine);
    let answered = step(&mut held, Tid(t), reply);
    engine.put(held);
    match answered {
        Ok(()) => status::OK,
        Err(NoMemory) => status::NO_MEMORY,
    }
}

/// Commits the transaction.
///
/// `NO_MEMORY`; `BUSY`; `CLOSED`.
pub fn sgt_commit(alloc: Global, engine: &mut Handle, t: u32, reply: &mut SgtReply) -> u32
    ensures ok { result ≡ 0 → Answered (Commit t) engine.old.slot.held engine.new.slot.held reply.new }
    ensures unchanged { result ≢ 0 → engine.new.slot.held ≡ engine.old.slot.held }
    ensures writes { WritesReply result reply.old reply.new }
    ensures visits { Visits result engine.old.state engine.old.slot.held engine.new.state }
    ensures ends { EndsSucceed (Commit t) engine.old.slot.held result }
    ensures statuses { result ≢ 10 → result ≤ 2 }
{
    apply_event(alloc, engine, Event::Commit(Tid(t)), reply)
}

/// Aborts the transaction for its caller (`quit`). If it is live, this succeeds.
///
/// `NO_MEMORY`; `BUSY`; `CLOSED`.
pub fn sgt_quit(alloc: Global, engine: &mut Handle, t: u32, reply: &mut SgtReply) -> u32
    ensures ok { result ≡ 0 → Answered (Quit t) engine.old.slot.held engine.new.slot.held reply.new }
    ensures unchanged { result ≢ 0 → engine.new.slot.held ≡ engine.old.slot.held }
    ensures writes { WritesReply result reply.old reply.new }
    ensures visits { Visits result engine.old.state engine.old.slot.held engine.new.state }
    ensures quits { QuitsSucceed (Quit t) engine.old.slot.held result }
    ensures statuses { result ≢ 10 → result ≤ 2 }
{
    apply_event(alloc, engine, Event::Quit(Tid(t)), reply)
}

/// Runs an event on the engine in a handle, and writes the reply.
#[inline(always)]
pub fn apply_event(alloc: Global, engine: &mut Handle, event: Event, reply: &mut SgtReply) -> u32
    ensures ok { result ≡ 0 → Answered event engine.old.slot.held engine.new.slot.held reply.new }
    ensures unchanged { result ≢ 0 → engine.new.slot.held ≡ engine.old.slot.held }
    ensures writes { WritesReply result reply.old reply.new }
    ensures visits { Visits result engine.old.state engine.old.slot.held engine.new.state }
    ensures ends { EndsSucceed event engine.old.slot.held result }
    ensures quits { QuitsSucceed event engine.old.slot.held result }
    ensures statuses { result ≢ 10 → result ≤ 2 }
{
    let mut held = take_held!(alloc, engine);
    let answered = answer(&mut held, event, reply);
    engine.put(held);
    match answered {
        Ok(()) => status::OK,
        Err(NoMemory) => status::NO_MEMORY,
    }
}

/// Runs an event on an engine, and writes the reply.
#[inline(always)]
fn answer(held: &mut Held, event: Event, reply: &mut SgtReply) -> Result<(), NoMemory>
    ensures ok { OnOk result (Answered event (Some held.old) (Some held.new) reply.new) }
    ensures kept { OnOk result (KeepsOtherFields reply.old reply.new) }
    ensures unchanged { OnErr result ((held.new ≡ held.old) × (reply.new ≡ reply.old)) }
    ensures ends { (r : Reply) → LegalReply (configuration_of held.old.engine) held.old.engine.past event r
        → is_ending r ≡ true
        → IsOk result }
    ensures quits { (t : ℕ) → event ≡ Quit t → live held.old.engine.past t ≡ true → IsOk result }
{
    let mut short = ShortReply::Unknown;
    match held.engine.answer_inline(&event, &mut short) {
        Ok(()) => {
            write_reply(reply, &short, held.engine.reply_lists());
            Ok(())
        }
        Err(NoMemory) => Err(NoMemory),
    }
}

/// Runs a step on an engine, and writes the reply.
#[inline(always)]
fn step(held: &mut Held, t: Tid, reply: &mut SgtReply) -> Result<(), NoMemory>
    ensures ok { OnOk result (Answered (Step t) (Some held.old) (Some held.new) reply.new) }
    ensures kept { OnOk result (KeepsOtherFields reply.old reply.new) }
    ensures unchanged { OnErr result ((held.new ≡ held.old) × (reply.new ≡ reply.old)) }
    ensures ends { (r : Reply) → LegalReply (configuration_of held.old.engine) held.old.engine.past (Step t) r
        → is_ending r ≡ true
        → IsOk result }
{
    match held.engine.answer_step(t) {
        Ok(stepped) => {
            write_reply(reply, &stepped, held.engine.reply_lists());
            Ok(())
        }
        Err(NoMemory) => Err(NoMemory),
    }
}
