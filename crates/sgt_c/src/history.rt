//! The history: its length, its entries, and memory reserved for more.
ghost use Rattle.std.specs.Prelude.{◌≡◌, ◌≢◌, ◌≤◌, ◌<◌, ◌↔◌, Some, IfSome, length};
ghost use Rattle.sgt_model.specs.ShortReplies.{reply_with, short_reply};
ghost use Rattle.sgt_c.specs.KeptFields.{KeepsOtherEventFields, WritesReply};
ghost use Rattle.sgt_c.specs.Entries.{ReturnsEntry, HasNoEntry};
ghost use Rattle.sgt_c.specs.Handles.{Visits};

use crate::event_struct::{SgtEvent, write_event};
use crate::handle::{Handle, take_held};
use crate::reply_struct::{SgtReply, write_reply};
use crate::status;
use sgt_log::EntryRef;
use sgt_model::{NoMemory, ReplyLists, answers_of, tids_of};
use std::alloc::Global;

/// The number of entries in the history: one for each event.
///
/// `BUSY`; `CLOSED`.
pub fn sgt_entries(alloc: Global, engine: &mut Handle, count: &mut u64) -> u32
    ensures count { result ≡ 0 → IfSome engine.old.slot.held (λ h. count.new ≡ length h.engine.past) }
    ensures visits { Visits result engine.old.state engine.old.slot.held engine.new.state }
    ensures statuses { result ≢ 10 → result ≢ 0 → result ≡ 2 }
    ensures kept { result ≢ 0 → count.new ≡ count.old }
    ensures same { engine.new.slot.held ≡ engine.old.slot.held }
{
    let held = take_held!(alloc, engine);
    *count = held.engine.history().len() as u64;
    engine.put(held);
    status::OK
}

/// The entry at a position of the history: the event and its reply. Positions are counted from 0, oldest first.
///
/// - `BUSY`; `CLOSED`.
/// - `NONE`: the history ends before this position.
pub fn sgt_entry(
    alloc: Global,
    engine: &mut Handle,
    place: u64,
    event: &mut SgtEvent,
    reply: &mut SgtReply,
) -> u32
    ensures returned { result ≡ 0 → ReturnsEntry engine.old.slot.held place event.new reply.new }
    ensures none { (result ≡ 4) ↔ HasNoEntry engine.old.slot.held place }
    ensures visits { Visits result engine.old.state engine.old.slot.held engine.new.state }
    ensures statuses { result ≢ 10 → result ≢ 0 → result ≢ 2 → result ≡ 4 }
    ensures event_unwritten { result ≢ 0 → event.new ≡ event.old }
    ensures event_kept { result ≡ 0 → KeepsOtherEventFields event.old event.new }
    ensures writes { WritesReply result reply.old reply.new }
    ensures same { engine.new.slot.held ≡ engine.old.slot.held }
{
    let held = take_held!(alloc, engine);
    match held.engine.history().get_entry(place as usize) {
        Some(entry) => {
            write_event(event, &entry.event());
            write_reply(reply, &entry.short(), &lists_of(&entry));
            engine.put(held);
            status::OK
        }
        None => {
            engine.put(held);
            status::NONE
        }
    }
}

/// The lists of an entry's reply.
#[tactic(auto, using(crate::proofs::Replies::whole))]
fn lists_of(entry: &EntryRef<'_>) -> ReplyLists
    ensures { reply_with (short_reply entry.now.reply) result ≡ entry.now.reply }
{
    ReplyLists {
        answers: answers_of(entry.answers()),
        cycle: tids_of(entry.cycle()),
        fell: tids_of(entry.fell()),
    }
}

/// Allocates memory for this many more entries, so that the present ones are not moved until then. The lists in new
/// entries are not counted in. Nothing else changes.
///
/// `NO_MEMORY`; `BUSY`; `CLOSED`.
pub fn sgt_reserve(alloc: Global, engine: &mut Handle, entries: u64) -> u32
    ensures visits { Visits result engine.old.state engine.old.slot.held engine.new.state }
    ensures statuses { result ≢ 10 → result ≤ 2 }
    ensures same { engine.new.slot.held ≡ engine.old.slot.held }
{
    let mut held = take_held!(alloc, engine);
    let reserved = held.engine.reserve(entries as usize);
    engine.put(held);
    match reserved {
        Ok(()) => status::OK,
        Err(NoMemory) => status::NO_MEMORY,
    }
}
