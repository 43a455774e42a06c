//! Turns of the calls that have a reply, for C: a start, a commit, a run, and events of one transaction that never rest.
ghost use Rattle.std.specs.Prelude.{IfSome, IsNone, Some, ◌↔◌, ◌≡◌};
ghost use Rattle.sgt_c.specs.Asked.{IsCall};
ghost use Rattle.sgt_c.specs.DeskTurns.{IsRefused, IsRunnable, IsTurn, Makes, MakesCommit, MakesRun, MakesStart, OfDesks, Reports, WakesBy};
ghost use Rattle.sgt_c.specs.KeptFields.{WritesReply};
ghost use Rattle.sgt_c.specs.Handles.{Visits, VisitsIf};
ghost use Rattle.sgt_desk.specs.Desks.{state};
ghost use Rattle.sgt_c.specs.DeskStructs.{asked_in, lent_state};

use crate::handle::{Handle, take_held};
use crate::reply_struct::SgtReply;
use crate::requested::{arguments, is_call, keyed};
use crate::shared::ask_struct::{SgtAsk, ask_struct, read_ask};
use crate::shared::desk_struct::SgtDesk;
use crate::shared::lent::{Lent, give_back, lend};
use crate::shared::run_struct::{SgtRun, read_run, run_struct};
use crate::shared::turns::end_turn;
use crate::status;
use sgt_desk::{Asked, Desk, Ticket, commit, make, run_procedure, start};
use sgt_model::{Args, Key, Request, ShortReply, Tid};
use std::alloc::Global;

/// A turn of a start of the procedure with this number and these arguments. The reply is written if it is done.
///
/// - `BAD_CALL`, tested first: the number is over 65535, or there are over 4 arguments.
/// - `OK`, `REST`, `TIMED_OUT`, `NO_MEMORY`; `BUSY`; `CLOSED`.
pub fn sgt_desk_start(
    alloc: Global,
    engine: &mut Handle,
    desk: &mut SgtDesk,
    ask: &mut SgtAsk,
    procedure: u64,
    args: &[i64],
    now: u64,
    reply: &mut SgtReply,
    wakes: &mut u32,
) -> u32
    ensures turn { IsTurn result → OfDesks engine.old.slot.held desk.old engine.new.slot.held desk.new
        (MakesStart procedure args.now now result ask.old ask.new) }
    ensures reported { result ≡ 0 → OfDesks engine.old.slot.held desk.old engine.new.slot.held desk.new (Reports reply.new) }
    ensures wakes { IsTurn result → OfDesks engine.old.slot.held desk.old engine.new.slot.held desk.new (WakesBy wakes.new) }
    ensures writes { WritesReply result reply.old reply.new }
    ensures unchanged { IsRefused result → (engine.new.slot.held ≡ engine.old.slot.held) × (desk.new ≡ desk.old)
        × (ask.new ≡ ask.old) × (wakes.new ≡ wakes.old) }
    ensures visits { VisitsIf (IsCall procedure args.now) result engine.old.state engine.old.slot.held engine.new.state }
{
    if !is_call(procedure, args) {
        return status::BAD_CALL;
    }
    let mut lent = lend(take_held!(alloc, engine), desk);
    let args = arguments(args);
    let mut call = read_ask(ask);
    let mut woken = false;
    let made = start(
        &mut lent,
        &mut call,
        procedure as u16,
        &args,
        now,
        &mut woken,
    );
    *ask = ask_struct(&call);
    let lists = lent.engine.held.engine.reply_lists();
    let next = end_turn(&made, &call.reply, lists, woken, reply, wakes);
    engine.put(give_back(lent, desk));
    next
}

/// A turn of a commit. The reply is written if it is done.
///
/// `OK`, `REST`, `TIMED_OUT`, `STALE`, `NO_MEMORY`; `BUSY`; `CLOSED`.
pub fn sgt_desk_commit(
    alloc: Global,
    engine: &mut Handle,
    desk: &mut SgtDesk,
    ask: &mut SgtAsk,
    part: u64,
    t: u32,
    now: u64,
    reply: &mut SgtReply,
    wakes: &mut u32,
) -> u32
    ensures turn { IsTurn result → OfDesks engine.old.slot.held desk.old engine.new.slot.held desk.new
        (MakesCommit (record { part = part; tid = t }) now result ask.old ask.new) }
    ensures reported { result ≡ 0 → OfDesks engine.old.slot.held desk.old engine.new.slot.held desk.new (Reports reply.new) }
    ensures wakes { IsTurn result → OfDesks engine.old.slot.held desk.old engine.new.slot.held desk.new (WakesBy wakes.new) }
    ensures writes { WritesReply result reply.old reply.new }
    ensures unchanged { IsRefused result → (engine.new.slot.held ≡ engine.old.slot.held) × (desk.new ≡ desk.old)
        × (ask.new ≡ ask.old) × (wakes.new ≡ wakes.old) }
    ensures visits { Visits result engine.old.state engine.old.slot.held engine.new.state }
{
    let mut lent = lend(take_held!(alloc, engine), desk);
    let ticket = Ticket { part, tid: Tid(t) };
    let mut call = read_ask(ask);
    let mut woken = false;
    let made = commit(&mut lent, &mut call, ticket, now, &mut woken);
    *ask = ask_struct(&call);
    let lists = lent.engine.held.engine.reply_lists();
    let next = end_turn(&made, &call.reply, lists, woken, reply, wakes);
    engine.put(give_back(lent, desk));
    next
}

/// A turn of a run of the procedure with this number and these arguments, from its start to its commit, with new attempts after conflicts.
/// The reply is written if it is done.
///
/// - `BAD_CALL`, tested first: the number is over 65535, or there are over 4 arguments.
/// - `OK`, `REST`, `TIMED_OUT`, `AGAIN`, `NO_MEMORY`; `BUSY`; `CLOSED`.
pub fn sgt_desk_run(
    alloc: Global,
    engine: &mut Handle,
    desk: &mut SgtDesk,
    run: &mut SgtRun,
    procedure: u64,
    args: &[i64],
    now: u64,
    reply: &mut SgtReply,
    wakes: &mut u32,
) -> u32
    ensures turn { IsTurn result → OfDesks engine.old.slot.held desk.old engine.new.slot.held desk.new
        (MakesRun procedure args.now now result run.old run.new) }
    ensures reported { result ≡ 0 → OfDesks engine.old.slot.held desk.old engine.new.slot.held desk.new (Reports reply.new) }
    ensures wakes { IsTurn result → OfDesks engine.old.slot.held desk.old engine.new.slot.held desk.new (WakesBy wakes.new) }
    ensures writes { WritesReply result reply.old reply.new }
    ensures unchanged { IsRefused result → (engine.new.slot.held ≡ engine.old.slot.held) × (desk.new ≡ desk.old)
        × (run.new ≡ run.old) × (wakes.new ≡ wakes.old) }
    ensures visits { VisitsIf (IsCall procedure args.now) result engine.old.state engine.old.slot.held engine.new.state }
{
    if !is_call(procedure, args) {
        return status::BAD_CALL;
    }
    let mut lent = lend(take_held!(alloc, engine), desk);
    let args = arguments(args);
    let made = run_lent(&mut lent, run, procedure as u16, &args, now, reply, wakes);
    engine.put(give_back(lent, desk));
    made
}

/// The same for a desk.
fn run_lent(
    desk: &mut Desk<Lent>,
    run: &mut SgtRun,
    procedure: u16,
    args: &Args,
    now: u64,
    reply: &mut SgtReply,
    wakes: &mut u32,
) -> u32
    ensures turn { MakesRun procedure args.now now result run.old run.new (state lent_state desk.old) (state lent_state desk.new) }
    ensures reported { result ≡ 0 → Reports reply.new (state lent_state desk.old) (state lent_state desk.new) }
    ensures wakes { WakesBy wakes.new (state lent_state desk.old) (state lent_state desk.new) }
    ensures writes { WritesReply result reply.old reply.new }
    ensures turns { IsTurn result }
{
    let mut call = read_run(run);
    let mut woken = false;
    let made = run_procedure(desk, &mut call, procedure, args, now, &mut woken);
    *run = run_struct(&call);
    let lists = desk.engine.held.engine.reply_lists();
    end_turn(&made, &call.ask.reply, lists, woken, reply, wakes)
}

/// Asks this of a transaction: 2 is its next step, 4 its abort, 5 a read, 6 a write, 7 a removal. The reply is written if it is done.
///
/// - `BAD_CALL`, tested first: the table is over 7, the number is no value, or it is none of these.
/// - `OK`, `STALE`, `NO_MEMORY`; `BUSY`; `CLOSED`.
pub fn sgt_desk_make(
    alloc: Global,
    engine: &mut Handle,
    desk: &mut SgtDesk,
    part: u64,
    t: u32,
    kind: u32,
    table: u64,
    number: i64,
    value: i64,
    reply: &mut SgtReply,
    wakes: &mut u32,
) -> u32
    ensures turn { IsTurn result → OfDesks engine.old.slot.held desk.old engine.new.slot.held desk.new (λ d d'.
        IfSome (asked_in kind (table, number) value) (λ requested. Makes (record { part = part; tid = t }) requested result d d')) }
    ensures reported { result ≡ 0 → OfDesks engine.old.slot.held desk.old engine.new.slot.held desk.new (Reports reply.new) }
    ensures wakes { IsTurn result → OfDesks engine.old.slot.held desk.old engine.new.slot.held desk.new (WakesBy wakes.new) }
    ensures writes { WritesReply result reply.old reply.new }
    ensures unchanged { IsRefused result → (engine.new.slot.held ≡ engine.old.slot.held)
        × (desk.new ≡ desk.old) × (wakes.new ≡ wakes.old) }
    ensures visits { VisitsIf (IsRunnable kind table number) result engine.old.state engine.old.slot.held engine.new.state }
{
    let Some(requested) = asked_of(kind, table, number, value) else {
        return status::BAD_CALL;
    };
    let mut lent = lend(take_held!(alloc, engine), desk);
    let ticket = Ticket { part, tid: Tid(t) };
    let made = make_lent(&mut lent, ticket, requested, reply, wakes);
    engine.put(give_back(lent, desk));
    made
}

/// What these numbers ask, if it is something.
fn asked_of(kind: u32, table: u64, number: i64, value: i64) -> Option<Asked>
    ensures some { IfSome result (λ requested. asked_in kind (table, number) value ≡ Some requested) }
    ensures none { IsNone result ↔ (¬ IsRunnable kind table number) }
{
    match keyed(table, number) {
        Some(key) => read_asked(kind, key, value),
        None => None,
    }
}

/// The same for a record.
fn read_asked(kind: u32, key: Key, value: i64) -> Option<Asked>
    ensures { result ≡ asked_in kind key value }
{
    match kind {
        2 => Some(Asked::Step),
        4 => Some(Asked::Quit),
        5 => Some(Asked::Access(Request::Read(key))),
        6 => Some(Asked::Access(Request::Write(key, Some(value)))),
        7 => Some(Asked::Access(Request::Write(key, None))),
        _ => None,
    }
}

/// The same for a desk.
fn make_lent(
    desk: &mut Desk<Lent>,
    ticket: Ticket,
    requested: Asked,
    reply: &mut SgtReply,
    wakes: &mut u32,
) -> u32
    ensures turn { Makes ticket requested result (state lent_state desk.old) (state lent_state desk.new) }
    ensures reported { result ≡ 0 → Reports reply.new (state lent_state desk.old) (state lent_state desk.new) }
    ensures wakes { WakesBy wakes.new (state lent_state desk.old) (state lent_state desk.new) }
    ensures writes { WritesReply result reply.old reply.new }
    ensures turns { IsTurn result }
{
    let mut short = ShortReply::Unknown;
    let mut woken = false;
    let made = make(desk, ticket, requested, &mut short, &mut woken);
    let lists = desk.engine.held.engine.reply_lists();
    end_turn(&made, &short, lists, woken, reply, wakes)
}
