//! Whether a transaction has written.
ghost use Rattle.std.specs.Prelude.{◌≡◌, ◌≢◌, IfSome, cond, reverse};
ghost use Rattle.sgt_model.specs.Accesses.{access_of, acts};
ghost use Rattle.sgt_c.specs.Handles.{Visits};
ghost use Rattle.sgt_c.specs.ReplayedCalls.{IsLegal};
ghost use Rattle.sgt_c.specs.Writes.{any_store, stores_by};

use crate::handle::{Handle, take_held};
use crate::status;
use sgt_log::{EntryRef, History};
use sgt_model::{Event, ShortReply, Tid};
use std::alloc::Global;

/// Whether a transaction, live or not, has written or removed a record: 1 if it has, by a step or for its caller, else 0. A transaction
/// that was not started has not.
///
/// It reads the entries back to the last write, or to the transaction's start.
///
/// `BUSY`; `CLOSED`.
pub fn sgt_wrote(alloc: Global, engine: &mut Handle, t: u32, wrote: &mut u32) -> u32
    ensures wrote { result ≡ 0 → IfSome engine.old.slot.held (λ h. wrote.new ≡ cond (any_store (acts h.engine.past t)) 1 0) }
    ensures visits { Visits result engine.old.state engine.old.slot.held engine.new.state }
    ensures statuses { result ≢ 10 → result ≢ 0 → result ≡ 2 }
    ensures kept { result ≢ 0 → wrote.new ≡ wrote.old }
    ensures same { engine.new.slot.held ≡ engine.old.slot.held }
{
    let held = take_held!(alloc, engine);
    let found = has_written(held.engine.history(), Tid(t));
    engine.put(held);
    *wrote = u32::from(found);
    status::OK
}

/// Whether an access of the transaction is a write.
fn has_written(history: &History, t: Tid) -> bool
    requires { IsLegal history.now.entries }
    ensures { result ≡ any_store (acts (reverse history.now.entries) t) }
{
    let mut at = history.len();
    while 0 < at {
        at -= 1;
        let entry = history.entry(at);
        if is_write_by(&entry, t) {
            return true;
        }
        if entry.started() == Some(t) {
            return false;
        }
    }
    false
}

/// Whether an entry is a write by the transaction.
fn is_write_by(entry: &EntryRef<'_>, t: Tid) -> bool
    ensures { result ≡ stores_by (access_of entry.now) t }
{
    if !matches!(entry.short(), ShortReply::Wrote { .. }) {
        return false;
    }
    match entry.event() {
        Event::Step(u) | Event::Access(u, _) => u == t,
        _ => false,
    }
}
