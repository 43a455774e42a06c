//! Commits, and refusals at a commit.
ghost use Rattle.std.specs.Prelude.{◌≡◌, ℕ, true, false, position, Some, IsTrue, ◌↔◌};
ghost use Rattle.sgt_model.specs.declared.event.Event.TheVariants.{Commit};
ghost use Rattle.sgt_model.specs.CallEffects.{CommitEffect, CommitOn, CommitsIn, RefusesIn};
ghost use Rattle.sgt_model.specs.Left.{next_left};
ghost use Rattle.sgt_model.specs.Traces.{Raises};
ghost use Rattle.sgt_model.specs.declared.short_reply.ShortReply.TheVariants.{Refused};
ghost use Rattle.sgt_proc.specs.declared.next.Ahead.TheVariants.{Ends};
ghost use Rattle.sgt_proc.specs.Nexts.{answers_at};
ghost use Rattle.sgt_sched.specs.Replies.{WithLists};
ghost use Rattle.sgt_sched.specs.Endings.{EndsOne};
ghost use Rattle.sgt_sched.specs.LiveList.{has_number};
ghost use Rattle.sgt_sched.specs.Operations.{next_by};
ghost use Rattle.sgt_sched.specs.Scheduler.{parts, state, asks_of, Turns};

use crate::leave::leave_at;
use crate::sched::Sched;
use sgt_access::Accesses;
use sgt_commit::{decide, finish};
use sgt_graph::Graph;
use sgt_model::{Asks, Reply, ReplyLists, ShortCause, ShortFate, ShortReply, Tid};
use sgt_proc::Ahead;
use sgt_records::Records;

impl<R: Records, A: Accesses, G: Graph> Sched<R, A, G> {
    /// Commits a transaction that has no live predecessor (Durner and Neumann, ICDE 2019). It allocates nothing.
    ///
    /// Replies:
    ///
    /// - `Unknown` if it was never started;
    /// - `Over` if it has ended;
    /// - `NotEnded` if its procedure is not at its end;
    /// - `Waits` with the least live predecessor, if there is one;
    /// - else `Committed` with the procedure's answers.
    ///
    /// If codes are reported at commit, a procedure that raises a code is at its end, and gets `Refused` in place of
    /// `Committed`.
    ///
    /// Only tests call this. It is part of the specification; the engine calls [`Sched::answer`].
    pub fn commit(&mut self, t: Tid) -> Reply
        ensures { Turns (CommitEffect (asks_of self.old) t) self.old result self.new }
    {
        let mut lists = ReplyLists::new();
        let mut reply = ShortReply::Unknown;
        self.answer_commit(t, &mut lists, &mut reply);
        reply.with_lists(&lists)
    }

    // The same, with the reply in short, which is written to its place.
    pub(super) fn answer_commit(&mut self, t: Tid, lists: &mut ReplyLists, reply: &mut ShortReply)
        ensures { Turns (WithLists (CommitEffect (asks_of self.old) t) lists.new) self.old reply.new self.new }
    {
        let Some(index) = self.index(t) else {
            self.answer_not_live(t, lists, reply);
            return;
        };
        match self.ahead_at(t, index) {
            Ahead::Ends => match decide(&self.graph, t) {
                Some(first) => *reply = ShortReply::Waits(first),
                None => *reply = self.finish_commit(t, index, lists),
            },
            Ahead::Asks(code) => *reply = self.commit_raised(t, code, lists),
            _ => *reply = ShortReply::NotEnded,
        }
    }

    // The same, for a live transaction whose procedure raises this code.
    #[inline(always)]
    fn commit_raised(&mut self, t: Tid, code: u16, lists: &mut ReplyLists) -> ShortReply
        requires live { (state self.old).nodes t ≡ true }
        ensures { Turns (WithLists (CommitOn (asks_of self.old) t (Raises code)) lists.new) self.old result self.new }
    {
        match self.limits.asks {
            Asks::AtStep => ShortReply::NotEnded,
            Asks::AtCommit => match decide(&self.graph, t) {
                Some(predecessor) => ShortReply::Waits(predecessor),
                None => {
                    self.refuse(t, code, lists);
                    ShortReply::Refused(code)
                }
            },
        }
    }

    // Refuses a live transaction that has no predecessor, and undoes it. The reply is the refusal with this code.
    #[inline(never)]
    fn refuse(&mut self, t: Tid, code: u16, lists: &mut ReplyLists)
        requires live { (state self.old).nodes t ≡ true }
        requires first { (u : ℕ) → (state self.old).pairs u t ≡ false }
        ensures { Turns (WithLists (RefusesIn t code) lists.new) self.old (Refused code) self.new }
    {
        lists.fell = self.undo(t, ShortCause::Asked(code), &lists.cycle);
    }

    // Commits a live transaction, which has this index, is at its end and has no predecessor.
    fn finish_commit(&mut self, t: Tid, index: usize, lists: &mut ReplyLists) -> ShortReply
        requires live { (state self.old).nodes t ≡ true }
        requires at { position (has_number t) (parts self.old).live ≡ Some index }
        requires ends { next_by (state self.old) t Ends ≡ next_left ((state self.old).left t) }
        requires first { (u : ℕ) → (state self.old).pairs u t ≡ false }
        ensures { Turns (WithLists (CommitsIn t (answers_at (next_left ((state self.old).left t)))) lists.new)
            self.old result self.new }
    {
        lists.answers = self.live.at(t, index).answers().copied();
        finish(&mut self.records, &mut self.accesses, &mut self.graph, t);
        leave_at(&mut self.live, &mut self.read_from, t, index);
        self.fates.end(t, ShortFate::Committed, &lists.cycle);
        ShortReply::Committed
    }

    // Whether a commit would end the transaction.
    pub(super) fn commit_ends(&self, t: Tid) -> bool
        ensures { IsTrue result ↔ EndsOne (asks_of self.now) (Commit t) (state self.now) }
    {
        match self.ahead(t) {
            Some(Ahead::Ends) => decide(&self.graph, t).is_none(),
            Some(Ahead::Asks(_)) => match self.limits.asks {
                Asks::AtStep => false,
                Asks::AtCommit => decide(&self.graph, t).is_none(),
            },
            _ => false,
        }
    }
}
