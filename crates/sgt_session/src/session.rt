//! A session: one caller's way to the engine.
ghost use Rattle.std.specs.Prelude.{◌≡◌, ◌+◌, ◌<◌, ◌≤◌, ◌^◌, false, cond, List, [], ◌∷◌, ◌++◌, All, length, vec_len, vec_capacity, IfOk, MatchResult};
ghost use Rattle.std.specs.List.{sum_by};
ghost use Rattle.sgt_model.specs.declared.event.Event.TheVariants.{Commit, Step};
ghost use Rattle.sgt_log.specs.StepKinds.{IsOfKind};
ghost use Rattle.sgt_session.specs.declared.receipt.Receipt.{Receipt};
ghost use Rattle.sgt_model.specs.Questions.{is_wait, started_in};
ghost use Rattle.sgt_session.specs.Own.{with_one, open_by};
ghost use Rattle.sgt_session.specs.Receipts.{entry_of, HasCalled, HasMade, IsWaitOf};

use crate::end_signal::WaitCount;
use crate::named::Named;
use crate::own::{ensure_receipt_capacity, note};
use crate::receipt::Receipt;
use crate::receipts::Receipts;
use crate::shared::Shared;
use crate::waiters::Waiters;
use sgt_access::Accesses;
use sgt_graph::Graph;
use sgt_log::{EntryRef, StepKind};
use sgt_model::{Event, NoMemory, Tid};
use sgt_records::Records;
use std::alloc::Global;
use std::marker::Model;
use std::sync::Wait;
use std::sync::ledger::{Book, Share};

/// One caller's access to the engine. Contracts see it as its receipts, in the order of its calls.
///
/// It holds one part of the ledger of all calls, and has counted one call there for each of its receipts. It reserves
/// capacity for one end receipt of each transaction that it started. The reservation lasts until a call that names the
/// transaction returns its end.
#[derive(Drop)]
pub struct Session<N: Named> {
    share: Share<N>,
    receipts: Receipts,
    own: Vec<Tid>,
}

impl<N: Named> Model for Session<N> {
    ghost use Rattle.std.specs.Prelude.{◌≡◌, ◌≤◌, List, length, vec_len};
    ghost use Rattle.sgt_session.specs.declared.receipt.Receipt.{Receipt};
    ghost use Rattle.sgt_session.specs.Own.{open_of};

    ghost Value = { List Receipt };

    ghost view = { λ s. s.receipts.receipts };

    ghost invariant = { λ s.
        (s.share.parts ≡ 1)
        × (s.share.amount ≡ length s.receipts.receipts)
        × (s.own.items ≡ open_of s.receipts.receipts)
        × (vec_len s.own ≤ s.receipts.spare) };
}

impl<N: Named> Session<N> {
    /// A session that has made no call, with one part of the ledger. Allocates nothing.
    pub(crate) fn new(alloc: Global, share: Share<N>) -> Self
        requires { (share.parts ≡ 1) × (share.amount ≡ 0) }
        ensures { result ≡ [] }
    {
        Session {
            share,
            receipts: Receipts::new(alloc),
            own: Vec::new(alloc),
        }
    }

    /// Reserves capacity for the receipts of this many more calls, so that their list does not grow until then. Nothing
    /// else changes.
    ///
    /// `NoMemory` if an allocation failed.
    pub fn reserve(&mut self, calls: usize) -> Result<(), NoMemory>
        ensures { self.new ≡ self.old }
    {
        self.receipts.reserve(calls)
    }

    /// The receipts, in the order of the calls.
    pub fn receipts(&self) -> &Receipts
        ensures { result.now.receipts ≡ self.now }
    {
        &self.receipts
    }

    /// The receipt of the last call.
    pub fn last(&self) -> Receipt
        requires { 0 < length self.now }
        ensures { (rs : List Receipt) (r : Receipt) → self.now ≡ rs ++ r ∷ [] → result ≡ r }
    {
        self.receipts.last()
    }

    /// The number of the last call's entry.
    pub fn last_number(&self) -> u64
        requires { 0 < length self.now }
        ensures { (rs : List Receipt) (r : Receipt) → self.now ≡ rs ++ r ∷ [] → result ≡ r.number }
    {
        self.receipts.last_number()
    }

    /// The last call's entry, by reference.
    pub fn last_entry(&self) -> EntryRef<'_>
        requires { 0 < length self.now }
        ensures { (rs : List Receipt) (r : Receipt) → self.now ≡ rs ++ r ∷ [] → result ≡ entry_of r }
    {
        self.receipts.last_entry()
    }

    /// Makes one event of the engine while holding the lock once. Appends the receipt before it frees the lock, and
    /// returns it. A reply that ends a live transaction wakes the waiting commits.
    ///
    /// `NoMemory` if an allocation failed; then there is no receipt, and the engine has not changed. The session
    /// allocates before it takes the lock. To abort a transaction that this session started cannot fail, as long as the
    /// transaction is live and none of the session's calls that named it has returned its end. Neither session nor
    /// engine allocates then.
    ///
    /// A commit that has to wait returns `Waits` at once, as any other call.
    pub fn call<R: Records, A: Accesses, G: Graph, W: Wait>(
        &mut self,
        rt: &W,
        shared: &Shared<N, R, A, G>,
        event: Event,
    ) -> Result<Receipt, NoMemory>
        ensures event { IfOk result (λ r. r.event ≡ event) }
        ensures receipts { MatchResult result (λ r. self.new ≡ self.old ++ r ∷ []) (λ _. self.new ≡ self.old) }
    {
        self.make(rt, shared, &event)?;
        Ok(self.last())
    }

    /// Like `call`, but only appends the receipt: `last` returns it.
    pub fn make<R: Records, A: Accesses, G: Graph, W: Wait>(
        &mut self,
        rt: &W,
        shared: &Shared<N, R, A, G>,
        event: &Event,
    ) -> Result<(), NoMemory>
        ensures { MatchResult result (λ _. HasCalled event.now self.old self.new) (λ _. self.new ≡ self.old) }
    {
        // A start can wait, and a session that is alone delays no other.
        if shared.sessions > 1 && matches!(event, Event::Start { .. }) {
            self.receipts.prefault_receipts();
        }
        self.make_one(rt, shared, event)
    }

    /// Makes one event while holding the lock once, and appends the receipt.
    #[inline(always)]
    fn make_one<R: Records, A: Accesses, G: Graph, W: Wait>(
        &mut self,
        rt: &W,
        shared: &Shared<N, R, A, G>,
        event: &Event,
    ) -> Result<(), NoMemory>
        ensures { MatchResult result (λ _. HasCalled event.now self.old self.new) (λ _. self.new ≡ self.old) }
    {
        let spare = ensure_receipt_capacity(&mut self.receipts, &mut self.own, event)?;
        let (turn, mut round) = shared.lock_policy.lock(rt, &shared.round, event, spare);
        round.apply(event, &mut self.share, &mut self.receipts)?;
        drop(round);
        drop(turn);
        note_and_wake(&mut self.own, &shared.waiters, &self.receipts.last_entry());
        Ok(())
    }

    /// Like `make`, for a step, and returns what its entry is to a caller that makes one step after another.
    #[inline(always)]
    pub fn make_step<R: Records, A: Accesses, G: Graph, W: Wait>(
        &mut self,
        rt: &W,
        shared: &Shared<N, R, A, G>,
        t: Tid,
    ) -> Result<StepKind, NoMemory>
        ensures { MatchResult result (HasMade (Step t) self.old self.new) (λ _. self.new ≡ self.old) }
    {
        let spare = ensure_receipt_capacity(&mut self.receipts, &mut self.own, &Event::Step(t))?;
        let mut round = shared
            .lock_policy
            .lock_without_turn(rt, &shared.round, spare);
        let kind = round.step(t, &mut self.share, &mut self.receipts)?;
        drop(round);
        note_newest(&mut self.own, &self.receipts, kind, &shared.waiters);
        Ok(kind)
    }

    /// Commits, and waits if another transaction has to end first. It repeats the event after each wait, until the
    /// reply is not `Waits`. Each of these calls has its receipt; the last one is returned. A wait begins before the
    /// lock of the call that returned `Waits` is freed, so no end of a transaction is missed in between.
    ///
    /// `NoMemory` if an allocation failed; the receipts so far stay.
    ///
    /// This call may block for ever: the other transaction has to end, so its thread has to be scheduled. It does block
    /// for ever, unless a further thread ends the other transaction,
    /// - if the other transaction is of the same thread;
    /// - if the thread of the other one waits as well, itself or through more threads, for one of this thread.
    ///
    /// Neither happens if each thread has at most one live transaction. Then threads cannot all wait for each other: one
    /// that has a live transaction can go on with it. With two each, all threads may wait.
    pub fn commit<R: Records, A: Accesses, G: Graph, W: Wait>(
        &mut self,
        rt: &W,
        shared: &Shared<N, R, A, G>,
        t: Tid,
    ) -> Result<Receipt, NoMemory>
        ensures { (waits : List Receipt) × All (IsWaitOf t) waits × MatchResult result
            (λ r. (self.new ≡ (self.old ++ waits) ++ r ∷ []) × (r.event ≡ Commit t) × (is_wait r.reply ≡ false))
            (λ _. self.new ≡ self.old ++ waits) }
    {
        self.make_commit(rt, shared, t)?;
        Ok(self.last())
    }

    /// Like `commit`, but only appends the last receipt: `last` returns it.
    pub fn make_commit<R: Records, A: Accesses, G: Graph, W: Wait>(
        &mut self,
        rt: &W,
        shared: &Shared<N, R, A, G>,
        t: Tid,
    ) -> Result<(), NoMemory>
        ensures { (waits : List Receipt) × All (IsWaitOf t) waits × MatchResult result
            (λ _. (r : Receipt) × (self.new ≡ (self.old ++ waits) ++ r ∷ []) × (r.event ≡ Commit t) × (is_wait r.reply ≡ false))
            (λ _. self.new ≡ self.old ++ waits) }
    {
        self.repeat_commit(rt, shared, t, &mut WaitCount::new())
    }

    /// Commits as `make_commit` does, and counts its waits: one for each `Waits`.
    fn repeat_commit<R: Records, A: Accesses, G: Graph, W: Wait>(
        &mut self,
        rt: &W,
        shared: &Shared<N, R, A, G>,
        t: Tid,
        count: &mut WaitCount,
    ) -> Result<(), NoMemory>
        requires none { count.old ≡ 0 }
        ensures waits { (waits : List Receipt) × All (IsWaitOf t) waits × (count.new ≡ length waits) × MatchResult result
            (λ _. (r : Receipt) × (self.new ≡ (self.old ++ waits) ++ r ∷ []) × (r.event ≡ Commit t) × (is_wait r.reply ≡ false))
            (λ _. self.new ≡ self.old ++ waits) }
    {
        for _ in rt.forever() {
            if !self.commit_once(rt, shared, t, count)? {
                return Ok(());
            }
        }
        unreachable!()
    }

    /// Makes one commit and appends its receipt. If the reply is `Waits`, it waits once, and counts it. The wait begins
    /// before the lock is freed. Returns whether it waited.
    #[inline(always)]
    fn commit_once<R: Records, A: Accesses, G: Graph, W: Wait>(
        &mut self,
        rt: &W,
        shared: &Shared<N, R, A, G>,
        t: Tid,
        count: &mut WaitCount,
    ) -> Result<bool, NoMemory>
        requires fits { count.old + 1 < 2 ^ 64 }
        ensures receipt { MatchResult result
            (λ waited. (r : Receipt) × (r.event ≡ Commit t) × (self.new ≡ self.old ++ r ∷ [])
            × (waited ≡ is_wait r.reply))
            (λ _. self.new ≡ self.old) }
        ensures counted { MatchResult result
            (λ waited. count.new ≡ count.old + cond waited 1 0)
            (λ _. count.new ≡ count.old) }
    {
        let spare = ensure_receipt_capacity(&mut self.receipts, &mut self.own, &Event::Commit(t))?;
        let (turn, mut round) = shared
            .lock_policy
            .lock(rt, &shared.round, &Event::Commit(t), spare);
        round.apply(&Event::Commit(t), &mut self.share, &mut self.receipts)?;
        let entry = self.receipts.last_entry();
        let waited = shared.waiters.end_hold(rt, turn, round, &entry, count);
        note_and_wake(&mut self.own, &shared.waiters, &entry);
        Ok(waited)
    }

    /// A share of this session's ledger that holds no part.
    pub(crate) fn no_part(&mut self) -> Share<N>
        ensures same { self.new ≡ self.old }
        ensures none { (result.parts ≡ 0) × (result.amount ≡ 0) }
    {
        self.share.empty()
    }
}

/// Records what the newest receipt's entry says of the session's own transactions, and wakes all waiting commits if it
/// ends one. Most entries are steps that do neither.
#[inline(always)]
fn note_newest(own: &mut Vec<Tid>, receipts: &Receipts, kind: StepKind, waiters: &Waiters)
    requires some { 0 < length receipts.now.receipts }
    requires kind { (rs : List Receipt) (r : Receipt) → receipts.now.receipts ≡ rs ++ r ∷ [] → IsOfKind kind (entry_of r) }
    requires spare { (rs : List Receipt) (r : Receipt) → receipts.now.receipts ≡ rs ++ r ∷ []
        → length (with_one (started_in r.event r.reply) own.old.items) ≤ vec_capacity own.old }
    ensures own { (rs : List Receipt) (r : Receipt) → receipts.now.receipts ≡ rs ++ r ∷ []
        → own.new.items ≡ open_by own.old.items r.event r.reply }
    ensures count { (rs : List Receipt) (r : Receipt) → receipts.now.receipts ≡ rs ++ r ∷ []
        → vec_len own.new ≡ length (open_by own.old.items r.event r.reply) }
{
    if kind.is_step() {
        return;
    }
    note_rare(own, waiters, &receipts.last_entry());
}

/// What `note_and_wake` does, in a function of its own, so that the path of a step is short.
#[cold]
#[inline(never)]
fn note_rare(own: &mut Vec<Tid>, waiters: &Waiters, entry: &EntryRef<'_>)
    requires { length (with_one (started_in entry.now.event entry.now.reply) own.old.items) ≤ vec_capacity own.old }
    ensures own { own.new.items ≡ open_by own.old.items entry.now.event entry.now.reply }
    ensures count { vec_len own.new ≡ length (open_by own.old.items entry.now.event entry.now.reply) }
{
    note_and_wake(own, waiters, entry);
}

/// Records what an entry says of the session's own transactions, and wakes all waiting commits if it ends one.
#[inline(always)]
fn note_and_wake(own: &mut Vec<Tid>, waiters: &Waiters, entry: &EntryRef<'_>)
    requires { length (with_one (started_in entry.now.event entry.now.reply) own.old.items) ≤ vec_capacity own.old }
    ensures own { own.new.items ≡ open_by own.old.items entry.now.event entry.now.reply }
    ensures count { vec_len own.new ≡ length (open_by own.old.items entry.now.event entry.now.reply) }
{
    note(own, entry);
    waiters.wake_after(entry);
}

/// Lends each session's part and count to `seen` until all are together, then returns them.
pub(crate) fn lend<N: Named>(sessions: &mut [Session<N>], calls: &mut Book<N>, seen: &mut Share<N>)
    requires { (N.parts ≤ seen.old.parts + length sessions.old) × (seen.old.parts ≤ N.parts) }
    ensures sessions { sessions.new ≡ sessions.old }
    ensures calls { calls.new.total ≡ calls.old.total }
    ensures seen { (seen.new.parts ≡ seen.old.parts) × (seen.new.amount ≡ seen.old.amount) }
    ensures counted { calls.old.total ≡ seen.old.amount + sum_by length sessions.old }
    ensures all { seen.old.parts + length sessions.old ≡ N.parts }
{
    calls.audit(seen);
    if let Some((first, rest)) = sessions.split_first_mut() {
        let Session {
            share,
            receipts,
            own: _,
        } = first;
        let count = receipts.len() as u64;
        share.give(seen, 1, count);
        lend(rest, calls, seen);
        seen.give(share, 1, count);
    }
}
