//! Tries that are made alone, and which starts wait for them, for C; whether a try was undone.
ghost use Rattle.std.specs.Prelude.{◌≡◌, ◌≢◌, ◌↔◌, ◌≤◌, true, false, IfSome, length, nat_eq};
ghost use Rattle.sgt_model.specs.declared.reply.Reply.{Reply};
ghost use Rattle.sgt_model.specs.Fates.{live_ones};
ghost use Rattle.sgt_model.specs.ShortReplies.{short_reply};
ghost use Rattle.sgt_desk.specs.Plans.{waits_for_others};
ghost use Rattle.sgt_desk.specs.Runs.{is_conflict};
ghost use Rattle.sgt_c.specs.Decisions.{admission, conflict_in, has_own, solo_in};
ghost use Rattle.sgt_c.specs.Handles.{Visits};
ghost use Rattle.sgt_c.specs.ReplyStructs.{HoldsReply};

use crate::handle::{Handle, take_held};
use crate::reply_struct::SgtReply;
use crate::shared::waiting::SgtNote;
use crate::status;
use sgt_desk::{Solo, is_next_alone};
use std::alloc::Global;

/// The tries that are made alone. All bytes are zero at first.
#[repr(C)]
#[derive(Drop)]
pub struct SgtSolo {
    /// The calls that wait to start one.
    pub waiting: u64,
    /// 1 if the live transaction is one.
    pub is_live: u32,
    pub spare: u32,
}

/// 1 if the reply, which ended a try, is of a conflict, so that the call is tried again. Else 0.
pub fn sgt_desk_is_undone(reply: &SgtReply) -> u32
    ensures undone { (r : Reply) → HoldsReply reply.now r → (result ≡ 1) ↔ (is_conflict (short_reply r) ≡ true) }
    ensures result { result ≤ 1 }
{
    u32::from(is_conflict_in(reply))
}

/// The same by the fields of the reply.
#[tactic(auto, using(crate::proofs::Decisions::conflict_said))]
fn is_conflict_in(reply: &SgtReply) -> bool
    ensures value { result ≡ conflict_in reply.now }
    ensures said { (r : Reply) → HoldsReply reply.now r → result ≡ is_conflict (short_reply r) }
{
    (reply.kind == 14 && reply.cause == 1) || (reply.kind == 7 && reply.cause == 4)
}

/// 1 if a call that has made this many tries makes the next one alone, since it has made `beside` tries beside others: unless its thread,
/// by the notes of the live transactions, has one of them. Else 0.
pub fn sgt_desk_is_next_alone(notes: &[SgtNote], thread: u64, tries: u64, beside: u64) -> u32
    ensures alone { (result ≡ 1) ↔ ((beside ≤ tries) × (has_own notes.now thread ≡ false)) }
    ensures result { result ≤ 1 }
{
    u32::from(is_next_alone(tries, beside, has_own(notes, thread)))
}

/// Whether a live transaction is of this thread.
fn has_own(notes: &[SgtNote], thread: u64) -> bool
    ensures { result ≡ has_own notes.now thread }
{
    notes.iter().any(|note| note.thread == thread)
}

/// Whether a transaction may be started, alone if `alone` is 1, or waits for others: `OK` it may; `REST` it waits; `SELF_WAIT` it would wait
/// without a deadline, since `for_ever` is 1, and its thread has a live transaction. The notes are of the live transactions.
///
/// `BUSY`; `CLOSED`.
pub fn sgt_desk_admits(
    alloc: Global,
    engine: &mut Handle,
    solo: &mut SgtSolo,
    notes: &[SgtNote],
    thread: u64,
    alone: u32,
    for_ever: u32,
) -> u32
    ensures admits { result ≢ 10 → result ≢ 2 → IfSome engine.old.slot.held (λ h. result ≡ admission
        (waits_for_others (solo_in solo.old) (nat_eq alone 1) (length (live_ones h.engine.past)) (has_own notes.now thread))
        (nat_eq for_ever 1) (has_own notes.now thread)) }
    ensures alone { result ≡ 0 → (solo_in solo.new).is_live ≡ nat_eq alone 1 }
    ensures waiting { solo.new.waiting ≡ solo.old.waiting }
    ensures unchanged { result ≢ 0 → solo.new ≡ solo.old }
    ensures visits { Visits result engine.old.state engine.old.slot.held engine.new.state }
    ensures same { engine.new.slot.held ≡ engine.old.slot.held }
{
    let held = take_held!(alloc, engine);
    let live = held.engine.sched().live_count();
    engine.put(held);
    let own = has_own(notes, thread);
    if read_solo(solo).holds_up(alone == 1, live, own) {
        return if for_ever == 1 && own {
            status::SELF_WAIT
        } else {
            status::REST
        };
    }
    solo.is_live = u32::from(alone == 1);
    status::OK
}

/// What a struct says.
fn read_solo(solo: &SgtSolo) -> Solo
    ensures { result ≡ solo_in solo.now }
{
    Solo {
        waiting: solo.waiting,
        is_live: solo.is_live == 1,
    }
}
