//! The struct of an event for C, and how it is written.
ghost use Rattle.std.specs.Prelude.{◌≡◌, ◌≤◌, drop, take};
ghost use Rattle.sgt_model.specs.declared.event.Event.TheVariants as event;
ghost use Rattle.sgt_c.specs.EventStructs.{HoldsEvent};
ghost use Rattle.sgt_c.specs.KeptFields.{KeepsOtherEventFields};

use sgt_model::{Args, Event, Request};

/// An event of the engine, for C. `kind` says which of the other fields belong to it.
#[repr(C)]
#[derive(Drop)]
pub struct SgtEvent {
    pub kind: u32,
    /// The transaction, of all events but a start.
    pub tid: u32,
    /// Of a start: the number of the procedure, and how many items `arg` has.
    pub procedure: u32,
    pub args: u32,
    pub arg: [i64; 4],
    /// Of an access that the caller decided on: its record. `spare` is unused.
    pub table: u32,
    pub spare: u32,
    pub number: i64,
    /// Of a write: its value.
    pub value: i64,
}

/// Writes an event for C. The fields that do not count for its kind keep their values.
pub fn write_event(into: &mut SgtEvent, event: &Event)
    ensures event { HoldsEvent into.new event.now }
    ensures kept { KeepsOtherEventFields into.old into.new }
{
    match event {
        Event::Start { procedure, args } => {
            into.kind = 1;
            into.procedure = *procedure as u32;
            into.args = write_args(&mut into.arg, args);
        }
        Event::Step(t) => {
            into.kind = 2;
            into.tid = t.0;
        }
        Event::Access(t, request) => write_request(into, t.0, request),
        Event::Commit(t) => {
            into.kind = 3;
            into.tid = t.0;
        }
        Event::Quit(t) => {
            into.kind = 4;
            into.tid = t.0;
        }
    }
}

fn write_request(into: &mut SgtEvent, t: u32, request: &Request)
    ensures event { HoldsEvent into.new (event.Access t request.now) }
    ensures kept { KeepsOtherEventFields into.old into.new }
{
    let (Request::Read(key) | Request::Write(key, _)) = request;
    into.tid = t;
    into.table = key.table() as u32;
    into.number = key.id();
    match request {
        Request::Read(_) => into.kind = 5,
        Request::Write(_, Some(value)) => {
            into.kind = 6;
            into.value = *value;
        }
        Request::Write(_, None) => into.kind = 7,
    }
}

/// Writes arguments, and returns how many there are. The items after them stay.
pub fn write_args(to: &mut [i64; 4], args: &Args) -> u32
    ensures args { take result to.new ≡ args.now }
    ensures few { result ≤ 4 }
    ensures rest { drop result to.new ≡ drop result to.old }
{
    let count = args.len();
    to[..count].copy_from_slice(args.as_slice());
    count as u32
}
