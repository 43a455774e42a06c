//! Whether a call that rests without a deadline waits for itself: for transactions that never end, since each waits for another of them.
ghost use Rattle.std.specs.Prelude.{◌≡◌, ◌⊎◌, ◌≤◌, ◌↔◌, true, nat_eq, IfSome, IsNone, IsTrue, List, Bool, length};
ghost use Rattle.sgt_c.specs.SelfWaits.{AreAll, Concerns, IsAmong, IsDeadlock, IsFree, IsHeldUp, IsWithin, WaitsForItself};

/// The most transactions that can be live.
const MOST: usize = 32;

/// What C notes of a live transaction.
#[repr(C)]
#[derive(Clone, Copy)]
pub struct SgtNote {
    pub tid: u32,
    pub procedure: u32,
    /// 1 if a thread waits in its commit.
    pub waits: u32,
    /// 1 if it is to be aborted as soon as the hook that abandoned it has returned.
    pub is_abandoned: u32,
    /// Why its thread rests without a deadline: the reason of an `SgtAsk`. 0: it does not.
    pub rests: u32,
    /// The transaction that its thread waits for, if that is 1.
    pub first: u32,
    /// The thread that made the last call for it.
    pub thread: u64,
    /// When it was started.
    pub since: i64,
}

/// 1 if a call of this thread, whose rest is noted already, waits for itself, maybe through others that rest so too. Else 0. `cuts` is 1 if a
/// cut waits, and `is_cut` is 1 if the call is one. The notes are of all live transactions but those that their call ends by itself.
pub fn sgt_desk_waits_for_itself(notes: &[SgtNote], thread: u64, cuts: u32, is_cut: u32) -> u32
    ensures waits { length notes.now ≤ 32
        → (result ≡ 1) ↔ WaitsForItself notes.now (nat_eq cuts 1) thread (nat_eq is_cut 1) }
    ensures result { result ≤ 1 }
{
    if notes.len() > MOST {
        return 0;
    }
    let mut all = [true; MOST];
    let set = &mut all[..notes.len()];
    keep_deadlock(notes, cuts == 1, set);
    u32::from(concerns(notes, set, thread, is_cut == 1))
}

/// Leaves the largest deadlock in a set of all: it takes out one after another that is not held up.
fn keep_deadlock(notes: &[SgtNote], cuts: bool, set: &mut [bool])
    requires length { length set.old ≡ length notes.now }
    requires all { AreAll set.old }
    ensures length { length set.new ≡ length notes.now }
    ensures deadlock { IsDeadlock notes.now cuts set.new }
    ensures largest { (d : List Bool) → length d ≡ length notes.now → IsDeadlock notes.now cuts d → IsWithin d set.new }
{
    while let Some(i) = first_free(notes, cuts, set) {
        set[i] = false;
    }
}

/// The first transaction of the set that it does not hold up.
fn first_free(notes: &[SgtNote], cuts: bool, set: &[bool]) -> Option<usize>
    requires { length set.now ≡ length notes.now }
    ensures some { IfSome result (IsFree notes.now cuts set.now) }
    ensures none { IsNone result → IsDeadlock notes.now cuts set.now }
{
    for (i, note) in notes.iter().enumerate() {
        if set[i] && !is_held_up(notes, cuts, set, note) {
            return Some(i);
        }
    }
    None
}

/// Whether the thread of a transaction rests until one of the set has ended.
fn is_held_up(notes: &[SgtNote], cuts: bool, set: &[bool], note: &SgtNote) -> bool
    requires { length set.now ≡ length notes.now }
    ensures { IsTrue result ↔ IsHeldUp notes.now cuts set.now note.now }
{
    match note.rests {
        1 => is_among(notes, set, note.first),
        2 | 3 => are_all(set),
        4 => true,
        5 => cuts,
        _ => false,
    }
}

/// Whether the transaction with this number is in the set.
fn is_among(notes: &[SgtNote], set: &[bool], t: u32) -> bool
    requires { length set.now ≡ length notes.now }
    ensures { IsTrue result ↔ IsAmong notes.now set.now t }
{
    for (i, note) in notes.iter().enumerate() {
        if set[i] && note.tid == t {
            return true;
        }
    }
    false
}

/// Whether all are in the set.
fn are_all(set: &[bool]) -> bool
    ensures { IsTrue result ↔ AreAll set.now }
{
    for in_set in set {
        if !*in_set {
            return false;
        }
    }
    true
}

/// Whether the set has a transaction of this thread, or any if the call is a cut.
fn concerns(notes: &[SgtNote], set: &[bool], thread: u64, is_cut: bool) -> bool
    requires { length set.now ≡ length notes.now }
    ensures { IsTrue result ↔ Concerns notes.now set.now thread is_cut }
{
    for (i, note) in notes.iter().enumerate() {
        if set[i] && counts(note, thread, is_cut) {
            return true;
        }
    }
    false
}

/// Whether a transaction is of this thread, or the call is a cut.
fn counts(note: &SgtNote, thread: u64, is_cut: bool) -> bool
    ensures { IsTrue result ↔ ((is_cut ≡ true) ⊎ (note.now.thread ≡ thread)) }
{
    is_cut || note.thread == thread
}
