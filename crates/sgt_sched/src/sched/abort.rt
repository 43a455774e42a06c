//! Aborts by a step, by a commit or at the caller's request.
ghost use Rattle.std.specs.Prelude.{◌≡◌, true};
ghost use Rattle.sgt_model.specs.declared.short_reply.ShortReply.TheVariants.{Aborted};
ghost use Rattle.sgt_model.specs.ShortReplies.{full_cause, full_fate};
ghost use Rattle.sgt_model.specs.CallEffects.{AbortEffect, Undo};
ghost use Rattle.sgt_model.specs.FallsIn.{FallsIn};
ghost use Rattle.sgt_sched.specs.Replies.{WithLists};
ghost use Rattle.sgt_sched.specs.Endings.{EndsAborted};
ghost use Rattle.sgt_sched.specs.Scheduler.{state, Keeps, Turns};

use crate::leave::leave;
use crate::sched::Sched;
use sgt_access::Accesses;
use sgt_cascade::{fallers, is_read_from};
use sgt_commit::unwind;
use sgt_graph::Graph;
use sgt_model::{ReplyLists, ShortCause, ShortFate, Tid, Tids};
use sgt_records::Records;

impl<R: Records, A: Accesses, G: Graph> Sched<R, A, G> {
    // Aborts a live transaction, and in cascade those that have read from it. The path of a cycle is in the lists already.
    // The reply is that it was aborted for this cause.
    #[inline(never)]
    pub(super) fn abort(&mut self, t: Tid, cause: ShortCause, lists: &mut ReplyLists)
        requires live { (state self.old).nodes t ≡ true }
        ensures { Turns (WithLists (AbortEffect t (full_cause cause lists.old.cycle)) lists.new)
            self.old (Aborted cause) self.new }
    {
        lists.fell = self.undo(t, cause, &lists.cycle);
    }

    // Undoes a live transaction for this cause, with the path of a cycle, and in cascade those that have read from it. It
    // returns the latter.
    pub(super) fn undo(&mut self, t: Tid, cause: ShortCause, cycle: &Tids) -> Tids
        requires live { (state self.old).nodes t ≡ true }
        ensures undone { Undo t (full_cause cause cycle.now) result (state self.old) (state self.new) }
        ensures kept { Keeps self.old self.new }
    {
        let fell = self.falling_with(t);
        self.end_aborted(t, ShortFate::Aborted(cause), cycle);
        for reader in fell.as_slice() {
            self.end_aborted(*reader, ShortFate::Fell(t), cycle);
        }
        fell
    }

    // Those that are aborted in cascade with a live transaction: mostly none.
    #[inline(always)]
    fn falling_with(&self, t: Tid) -> Tids
        requires live { (state self.now).nodes t ≡ true }
        ensures { FallsIn (state self.now) t result }
    {
        if !is_read_from(self.read_from.as_slice(), t) {
            return Tids::new();
        }
        self.readers_of(t)
    }

    // The same, if a transaction has read from it.
    #[inline(never)]
    fn readers_of(&self, t: Tid) -> Tids
        requires live { (state self.now).nodes t ≡ true }
        ensures { FallsIn (state self.now) t result }
    {
        fallers(self.read_from.as_slice(), &self.live.numbers(), t)
    }

    // Removes a live transaction that is aborted, by itself or in cascade, from all layers. Its readers stay. The path is looked
    // at only if it closed a cycle.
    fn end_aborted(&mut self, t: Tid, fate: ShortFate, cycle: &Tids)
        requires live { (state self.old).nodes t ≡ true }
        ensures ends { EndsAborted t (full_fate fate cycle.now) (state self.old) (state self.new) }
        ensures kept { Keeps self.old self.new }
    {
        unwind(&mut self.records, &mut self.accesses, &mut self.graph, t);
        leave(&mut self.live, &mut self.read_from, t);
        self.fates.end(t, fate, cycle);
    }
}
