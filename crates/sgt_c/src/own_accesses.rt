//! Transactions whose accesses their caller decides.
ghost use Rattle.std.specs.Prelude.{◌≡◌, ◌≢◌, ◌≤◌, [], Some, None};
ghost use Rattle.sgt_model.specs.declared.event.Event.TheVariants.{Start, Access};
ghost use Rattle.sgt_model.specs.declared.event.Request.TheVariants.{Read, Write};
ghost use Rattle.sgt_c.specs.Asked.{IsRecord};
ghost use Rattle.sgt_c.specs.Calls.{Answered, EndsSucceed};
ghost use Rattle.sgt_c.specs.Handles.{Visits, VisitsIf};
ghost use Rattle.sgt_c.specs.KeptFields.{WritesReply};

use crate::events::apply_event;
use crate::handle::Handle;
use crate::reply_struct::SgtReply;
use crate::requested::keyed;
use crate::status;
use sgt_model::{Args, EMPTY_PROCEDURE, Event, Request, Tid};
use std::alloc::Global;

/// Starts a transaction of the empty procedure, number 65535. All its accesses are its caller's, by `sgt_read`,
/// `sgt_write` and `sgt_remove`.
///
/// `NO_MEMORY`; `BUSY`; `CLOSED`.
pub fn sgt_begin(alloc: Global, engine: &mut Handle, reply: &mut SgtReply) -> u32
    ensures ok { result ≡ 0 → Answered (Start 65535 []) engine.old.slot.held engine.new.slot.held reply.new }
    ensures unchanged { result ≢ 0 → engine.new.slot.held ≡ engine.old.slot.held }
    ensures writes { WritesReply result reply.old reply.new }
    ensures visits { Visits result engine.old.state engine.old.slot.held engine.new.state }
    ensures statuses { result ≢ 10 → result ≤ 2 }
{
    let start = Event::Start {
        procedure: EMPTY_PROCEDURE,
        args: Args::new(),
    };
    apply_event(alloc, engine, start, reply)
}

/// Reads a record for a transaction whose procedure is at its end.
///
/// - `BAD_CALL`, tested first: the table is over 7, or the number is no value.
/// - `NO_MEMORY`; `BUSY`; `CLOSED`.
pub fn sgt_read(
    alloc: Global,
    engine: &mut Handle,
    t: u32,
    table: u64,
    number: i64,
    reply: &mut SgtReply,
) -> u32
    ensures ok { result ≡ 0 → Answered (Access t (Read (table, number))) engine.old.slot.held engine.new.slot.held reply.new }
    ensures unchanged { result ≢ 0 → engine.new.slot.held ≡ engine.old.slot.held }
    ensures writes { WritesReply result reply.old reply.new }
    ensures visits { VisitsIf (IsRecord table number) result engine.old.state engine.old.slot.held engine.new.state }
    ensures ends { IsRecord table number → EndsSucceed (Access t (Read (table, number))) engine.old.slot.held result }
    ensures statuses { result ≢ 10 → result ≢ 5 → result ≤ 2 }
{
    let Some(key) = keyed(table, number) else {
        return status::BAD_CALL;
    };
    let read = Event::Access(Tid(t), Request::Read(key));
    apply_event(alloc, engine, read, reply)
}

/// Writes a value to a record, in the same way. If the value is out of its range, the reply says so.
///
/// - `BAD_CALL`, tested first: the table is over 7, or the number is no value.
/// - `NO_MEMORY`; `BUSY`; `CLOSED`.
pub fn sgt_write(
    alloc: Global,
    engine: &mut Handle,
    t: u32,
    table: u64,
    number: i64,
    value: i64,
    reply: &mut SgtReply,
) -> u32
    ensures ok { result ≡ 0 → Answered (Access t (Write (table, number) (Some value))) engine.old.slot.held engine.new.slot.held reply.new }
    ensures unchanged { result ≢ 0 → engine.new.slot.held ≡ engine.old.slot.held }
    ensures writes { WritesReply result reply.old reply.new }
    ensures visits { VisitsIf (IsRecord table number) result engine.old.state engine.old.slot.held engine.new.state }
    ensures ends { IsRecord table number → EndsSucceed (Access t (Write (table, number) (Some value))) engine.old.slot.held result }
    ensures statuses { result ≢ 10 → result ≢ 5 → result ≤ 2 }
{
    let Some(key) = keyed(table, number) else {
        return status::BAD_CALL;
    };
    let write = Event::Access(Tid(t), Request::Write(key, Some(value)));
    apply_event(alloc, engine, write, reply)
}

/// Removes a record, in the same way: a write of no value.
///
/// - `BAD_CALL`, tested first: the table is over 7, or the number is no value.
/// - `NO_MEMORY`; `BUSY`; `CLOSED`.
pub fn sgt_remove(
    alloc: Global,
    engine: &mut Handle,
    t: u32,
    table: u64,
    number: i64,
    reply: &mut SgtReply,
) -> u32
    ensures ok { result ≡ 0 → Answered (Access t (Write (table, number) None)) engine.old.slot.held engine.new.slot.held reply.new }
    ensures unchanged { result ≢ 0 → engine.new.slot.held ≡ engine.old.slot.held }
    ensures writes { WritesReply result reply.old reply.new }
    ensures visits { VisitsIf (IsRecord table number) result engine.old.state engine.old.slot.held engine.new.state }
    ensures ends { IsRecord table number → EndsSucceed (Access t (Write (table, number) None)) engine.old.slot.held result }
    ensures statuses { result ≢ 10 → result ≢ 5 → result ≤ 2 }
{
    let Some(key) = keyed(table, number) else {
        return status::BAD_CALL;
    };
    let removal = Event::Access(Tid(t), Request::Write(key, None));
    apply_event(alloc, engine, removal, reply)
}
