//! The transactions that a session started and has not seen end, and the capacity for their receipts.
ghost use Rattle.std.specs.Prelude.{◌≡◌, ◌+◌, ◌<◌, ◌≤◌, ℕ, true, length, OnOk};
ghost use Rattle.std.specs.Result.{IsOk};
ghost use Rattle.std.specs.Vec.{vec_len, vec_capacity};
ghost use Rattle.sgt_model.specs.declared.event.Event.TheVariants.{Quit};
ghost use Rattle.sgt_model.specs.declared.reply.Reply.{Reply};
ghost use Rattle.sgt_model.specs.Questions.{started_in, over_in};
ghost use Rattle.sgt_session.specs.Own.{with_one, open_without, open_by, is_open, capacity_needed};

use crate::receipts::Receipts;
use sgt_log::EntryRef;
use sgt_model::{Event, NoMemory, Tid};

/// Shows that the capacity for a call is reserved. Only `ensure_receipt_capacity` makes it, and taking the engine's lock
/// requires it. So no thread waits for the lock while another one's receipts grow.
#[derive(Drop)]
pub struct ReceiptCapacity(());

/// Reserves the capacity that a call of this event needs, whatever its reply: for its receipt, and for one end receipt
/// of each transaction that is open after it. Quitting an open transaction allocates nothing, since its capacity is
/// reserved.
///
/// `NoMemory` if an allocation failed.
pub fn ensure_receipt_capacity(
    receipts: &mut Receipts,
    own: &mut Vec<Tid>,
    event: &Event,
) -> Result<ReceiptCapacity, NoMemory>
    requires { vec_len own.old ≤ receipts.old.spare }
    ensures receipts { receipts.new.receipts ≡ receipts.old.receipts }
    ensures own { own.new.items ≡ own.old.items }
    ensures ends { vec_len own.new ≤ receipts.new.spare }
    ensures receipt { OnOk result (0 < receipts.new.spare) }
    ensures spare { OnOk result ((r : Reply) → 1 + length (open_by own.old.items event.now r) ≤ receipts.new.spare) }
    ensures started { OnOk result ((r : Reply) →
        length (with_one (started_in event.now r) own.old.items) ≤ vec_capacity own.new) }
    ensures quits { (t : ℕ) → event.now ≡ Quit t → is_open t own.old.items ≡ true → IsOk result }
{
    receipts.ensure_capacity(capacity_needed(event, own.as_slice()))?;
    if matches!(event, Event::Start { .. }) {
        own.reserve(1)?;
    }
    Ok(ReceiptCapacity(()))
}

/// How many more receipts must have capacity.
fn capacity_needed(event: &Event, own: &[Tid]) -> usize
    ensures { result ≡ capacity_needed event.now own.now }
{
    match event {
        Event::Start { .. } => own.len() + 2,
        Event::Step(_) | Event::Access(..) | Event::Commit(_) => own.len() + 1,
        Event::Quit(t) => {
            if own.contains(t) {
                own.len()
            } else {
                own.len() + 1
            }
        }
    }
}

/// Records what an entry says of the session's own transactions. Allocates nothing.
pub fn note(own: &mut Vec<Tid>, entry: &EntryRef<'_>)
    requires { length (with_one (started_in entry.now.event entry.now.reply) own.old.items) ≤ vec_capacity own.old }
    ensures own { own.new.items ≡ open_by own.old.items entry.now.event entry.now.reply }
    ensures count { vec_len own.new ≡ length (open_by own.old.items entry.now.event entry.now.reply) }
{
    add_started(own, entry);
    drop_ended(own, entry);
}

/// Adds the transaction that an entry starts, if any.
fn add_started(own: &mut Vec<Tid>, entry: &EntryRef<'_>)
    requires { length (with_one (started_in entry.now.event entry.now.reply) own.old.items) ≤ vec_capacity own.old }
    ensures { own.new.items ≡ with_one (started_in entry.now.event entry.now.reply) own.old.items }
{
    if let Some(t) = entry.started() {
        own.push_reserved(t);
    }
}

/// Removes the transaction that an entry ends by its reply, if any.
fn drop_ended(own: &mut Vec<Tid>, entry: &EntryRef<'_>)
    ensures { own.new.items ≡ open_without (over_in entry.now.event entry.now.reply) own.old.items }
{
    if let Some(t) = entry.over() {
        own.retain(|u| *u != t);
    }
}
