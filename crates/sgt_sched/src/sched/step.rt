//! Steps.
ghost use Rattle.std.specs.Prelude.{◌≡◌, ◌≢◌, ◌<◌, ℕ, true, [], position, Some, IsTrue, OnErr, OnOk, ◌↔◌};
ghost use Rattle.std.specs.Result.{IsOk};
ghost use Rattle.std.specs.Vec.{vec_len, vec_capacity};
ghost use Rattle.sgt_model.specs.declared.event.Event.TheVariants.{Step};
ghost use Rattle.sgt_model.specs.declared.kind.Kind.TheVariants.{Look, Store};
ghost use Rattle.sgt_model.specs.Contents.{Key};
ghost use Rattle.sgt_model.specs.CallEffects.{StepEffect, StepOn};
ghost use Rattle.sgt_model.specs.Traces.{Raises};
ghost use Rattle.sgt_model.specs.Paths.{Member};
ghost use Rattle.sgt_cycle.specs.Path.{NoPath};
ghost use Rattle.sgt_sched.specs.Operations.{kind_of, next_of, of_kind, WritesValue};
ghost use Rattle.sgt_sched.specs.Replies.{WithLists, WithAnyLists, with_reply};
ghost use Rattle.sgt_sched.specs.Endings.{EndsOne, IsBlocked};
ghost use Rattle.sgt_sched.specs.LiveList.{has_number};
ghost use Rattle.sgt_sched.specs.Scheduler.{parts, state, asks_of, Turns, Tries, LinksOrAborts};
ghost use Rattle.sgt_sched.specs.Steps.{AreRivals};

use crate::follow::follow;
use crate::operation::Operation;
use crate::reads::note_read;
use crate::sched::Sched;
use sgt_access::Accesses;
use sgt_graph::{Graph, Link, Plan, Verdict};
use sgt_model::{Asks, Key, Kind, NoMemory, Reply, ReplyLists, ShortCause, ShortReply, Tid, Tids};
use sgt_proc::Ahead;
use sgt_records::Records;

impl<R: Records, A: Accesses, G: Graph> Sched<R, A, G> {
    /// Lets the procedure of a transaction make its next access (Bernstein, Hadzilacos and Goodman 1987, chapter 4).
    ///
    /// Replies:
    ///
    /// - `Unknown` if it was never started;
    /// - `Over` if it has ended;
    /// - `Ended` if its procedure is at its end; nothing is done;
    /// - `Aborted` if its procedure raises a code, or if the access would close a cycle, and only then;
    /// - else `Looked` with the last value that is not undone, or `Wrote`.
    ///
    /// If codes are reported at commit, a procedure that raises one is at its end. `NoMemory` if an allocation failed; then
    /// nothing has changed. A step that ends the transaction allocates nothing.
    ///
    /// Only tests call this. It is part of the specification; the engine calls [`Sched::answer`].
    pub fn step(&mut self, t: Tid) -> Result<Reply, NoMemory>
        ensures done { Tries (StepEffect (asks_of self.old) t) self.old result self.new }
        ensures no_memory { EndsOne (asks_of self.old) (Step t) (state self.old) → IsOk result }
    {
        let mut lists = ReplyLists::new();
        let mut late = ShortReply::Unknown;
        let reply = self.answer_step(t, &mut lists, &mut late)?;
        Ok(reply.with_lists(&lists))
    }

    /// The same, with the reply in short, compiled into its caller. It is returned, so that a caller that takes it apart at once
    /// never writes it to memory. `late` is where calls that most steps do not need write theirs.
    #[inline(always)]
    pub fn answer_step(
        &mut self,
        t: Tid,
        lists: &mut ReplyLists,
        late: &mut ShortReply,
    ) -> Result<ShortReply, NoMemory>
        ensures done { Tries (WithLists (StepEffect (asks_of self.old) t) lists.new) self.old result self.new }
        ensures lists { OnErr result (lists.new ≡ lists.old) }
        ensures no_memory { EndsOne (asks_of self.old) (Step t) (state self.old) → IsOk result }
    {
        let Some(index) = self.index(t) else {
            self.answer_not_live(t, lists, late);
            return Ok(*late);
        };
        let (key, operation) = match self.ahead_at(t, index) {
            Ahead::Look(key) => (key, Operation::Look),
            Ahead::Put(key, value) => (key, Operation::Store(value)),
            Ahead::Ends => return Ok(ShortReply::Ended),
            Ahead::Asks(code) => return Ok(self.step_raised(t, code, lists)),
        };
        self.access(t, index, key, operation, lists, late)
    }

    // The same, as a call that writes the reply to its place: for callers of which most events are no steps.
    #[inline(never)]
    pub(super) fn answer_step_called(
        &mut self,
        t: Tid,
        lists: &mut ReplyLists,
        reply: &mut ShortReply,
    ) -> Result<(), NoMemory>
        ensures done { Tries (WithLists (StepEffect (asks_of self.old) t) lists.new) self.old (with_reply result reply.new) self.new }
        ensures lists { OnErr result (lists.new ≡ lists.old) }
        ensures no_memory { EndsOne (asks_of self.old) (Step t) (state self.old) → IsOk result }
    {
        *reply = self.answer_step(t, lists, reply)?;
        Ok(())
    }

    // Makes an access of a live transaction, which has this index. If it would close a cycle, it aborts the transaction. Most
    // have no rival.
    #[inline(always)]
    pub(super) fn access(
        &mut self,
        t: Tid,
        index: usize,
        key: Key,
        operation: Operation,
        lists: &mut ReplyLists,
        late: &mut ShortReply,
    ) -> Result<ShortReply, NoMemory>
        requires live { (state self.old).nodes t ≡ true }
        requires at { position (has_number t) (parts self.old).live ≡ Some index }
        requires in_range { WritesValue operation }
        ensures done { Tries (WithLists (StepOn (asks_of self.old) t (next_of key operation)) lists.new) self.old result self.new }
        ensures lists { OnErr result (lists.new ≡ lists.old) }
        ensures no_memory { IsBlocked (state self.old) t key (kind_of operation) → IsOk result }
    {
        let (kind, value) = operation.parts();
        if self.accesses.has_rival(t, key, kind) {
            self.access_after(t, index, key, kind, value, lists, late)?;
            return Ok(*late);
        }
        self.make_access(t, index, key, operation, &Tids::new(), Link::default())
    }

    // The same, if there are rivals. It is called, so that `access` stays small: from a function that would grow very large the
    // compiler drops `inline(always)`, without a message. The operation comes in parts, so that its callers never write it to
    // memory.
    #[inline(never)]
    fn access_after(
        &mut self,
        t: Tid,
        index: usize,
        key: Key,
        kind: Kind,
        value: Option<i64>,
        lists: &mut ReplyLists,
        late: &mut ShortReply,
    ) -> Result<(), NoMemory>
        requires live { (state self.old).nodes t ≡ true }
        requires at { position (has_number t) (parts self.old).live ≡ Some index }
        requires in_range { WritesValue (of_kind kind value) }
        ensures done { Tries (WithLists (StepOn (asks_of self.old) t (next_of key (of_kind kind value))) lists.new) self.old (with_reply result late.new) self.new }
        ensures lists { OnErr result (lists.new ≡ lists.old) }
        ensures no_memory { IsBlocked (state self.old) t key (kind_of (of_kind kind value)) → IsOk result }
    {
        let operation = Operation::of(kind, value);
        let rivals = self.accesses.rivals(t, key, operation.kind());
        let Some(link) = self.plan_or_abort(t, &rivals, lists) else {
            *late = ShortReply::Aborted(ShortCause::Cycle);
            return Ok(());
        };
        *late = self.make_access(t, index, key, operation, &rivals, link)?;
        Ok(())
    }

    // Makes an access of a live transaction, which has this index, after these rivals.
    #[inline(always)]
    fn make_access(
        &mut self,
        t: Tid,
        index: usize,
        key: Key,
        operation: Operation,
        rivals: &Tids,
        link: Link,
    ) -> Result<ShortReply, NoMemory>
        requires live { (state self.old).nodes t ≡ true }
        requires at { position (has_number t) (parts self.old).live ≡ Some index }
        requires in_range { WritesValue operation }
        requires rivals { AreRivals (state self.old) t key (kind_of operation) rivals.now }
        requires free { NoPath (state self.old).pairs t rivals.now }
        requires planned { rivals.now ≢ [] → G.is_planned (parts self.old).graph t rivals.now link }
        ensures { Tries (WithAnyLists (StepOn (asks_of self.old) t (next_of key operation))) self.old result self.new }
    {
        let kind = operation.kind();
        reserve_access(
            &mut self.records,
            &mut self.accesses,
            &mut self.read_from,
            key,
            kind,
        )?;
        follow(&mut self.graph, t, rivals, link);
        self.accesses.note(t, key, kind);
        match operation {
            Operation::Look => {
                let top = self.records.top(key);
                let value = top.value();
                note_read(&mut self.read_from, &top, t);
                self.live.look(t, index, &self.procedures, value);
                Ok(ShortReply::Looked { key, value })
            }
            Operation::Store(value) => {
                self.records.write(t, key, value);
                self.live.store(t, index, &self.procedures);
                Ok(ShortReply::Wrote { key, value })
            }
        }
    }

    // Returns what links edges from these rivals to a live transaction. If they would close a cycle, it aborts the transaction;
    // the lists are then those of the reply.
    #[inline(never)]
    fn plan_or_abort(&mut self, t: Tid, rivals: &Tids, lists: &mut ReplyLists) -> Option<Link>
        requires live { (state self.old).nodes t ≡ true }
        requires others { (u : ℕ) → Member u rivals.now → ((state self.old).nodes u ≡ true) × (u ≢ t) }
        ensures { LinksOrAborts t rivals.now self.old lists.old result lists.new self.new }
    {
        match self.graph.plan(t, rivals) {
            Plan::Free(link) => Some(link),
            Plan::Closes(cycle) => {
                lists.cycle = cycle;
                self.abort(t, ShortCause::Cycle, lists);
                None
            }
        }
    }

    // Aborts a live transaction whose procedure raises this code, or leaves it to its commit.
    #[inline(always)]
    fn step_raised(&mut self, t: Tid, code: u16, lists: &mut ReplyLists) -> ShortReply
        requires live { (state self.old).nodes t ≡ true }
        ensures { Turns (WithLists (StepOn (asks_of self.old) t (Raises code)) lists.new) self.old result self.new }
    {
        match self.limits.asks {
            Asks::AtStep => {
                let cause = ShortCause::Asked(code);
                self.abort(t, cause, lists);
                ShortReply::Aborted(cause)
            }
            Asks::AtCommit => ShortReply::Ended,
        }
    }

    // Whether the next step would end the transaction.
    pub(super) fn step_ends(&self, t: Tid) -> bool
        ensures { IsTrue result ↔ EndsOne (asks_of self.now) (Step t) (state self.now) }
    {
        let Some(ahead) = self.ahead(t) else {
            return false;
        };
        match ahead {
            Ahead::Look(key) => self.is_blocked(t, key, Kind::Look),
            Ahead::Put(key, _) => self.is_blocked(t, key, Kind::Store),
            Ahead::Ends => false,
            Ahead::Asks(_) => match self.limits.asks {
                Asks::AtStep => true,
                Asks::AtCommit => false,
            },
        }
    }

    // Whether an access of a live transaction would close a cycle.
    pub(super) fn is_blocked(&self, t: Tid, key: Key, kind: Kind) -> bool
        requires live { (state self.now).nodes t ≡ true }
        ensures { IsTrue result ↔ IsBlocked (state self.now) t key kind }
    {
        let rivals = self.accesses.rivals(t, key, kind);
        match self.graph.test(t, &rivals) {
            Verdict::Accepted => false,
            Verdict::Closes(_) => true,
        }
    }
}

// Provides capacity for an access of this kind: in the access list, and in what the access changes besides.
#[inline(always)]
fn reserve_access<R: Records, A: Accesses>(
    records: &mut R,
    accesses: &mut A,
    read_from: &mut Vec<(Tid, Tid)>,
    key: Key,
    kind: Kind,
) -> Result<(), NoMemory>
    ensures chain { (k : Key) → R.chain records.new k ≡ R.chain records.old k }
    ensures settled { (k : Key) → R.settled records.new k ≡ R.settled records.old k }
    ensures accesses { A.list accesses.new ≡ A.list accesses.old }
    ensures reads { read_from.new.items ≡ read_from.old.items }
    ensures listing { OnOk result (A.is_ready accesses.new key) }
    ensures reading { OnOk result (kind ≡ Look → vec_len read_from.new < vec_capacity read_from.new) }
    ensures writing { OnOk result (kind ≡ Store → R.is_ready records.new key) }
    ensures looking { kind ≡ Look → records.new ≡ records.old }
{
    accesses.reserve(key)?;
    match kind {
        Kind::Look => read_from.reserve(1)?,
        Kind::Store => records.reserve(key)?,
    }
    Ok(())
}
