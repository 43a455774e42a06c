//! Aborts at the caller's request.
ghost use Rattle.sgt_model.specs.CallEffects.{QuitEffect};
ghost use Rattle.sgt_sched.specs.Replies.{WithLists};
ghost use Rattle.sgt_sched.specs.Scheduler.{Turns};

use crate::sched::Sched;
use sgt_access::Accesses;
use sgt_graph::Graph;
use sgt_model::{Reply, ReplyLists, ShortCause, ShortReply, Tid};
use sgt_records::Records;

impl<R: Records, A: Accesses, G: Graph> Sched<R, A, G> {
    /// Aborts a transaction at its caller's request. It allocates nothing.
    ///
    /// Replies: `Unknown` if it was never started; `Over` if it has ended; else `Aborted`.
    ///
    /// Only tests call this. It is part of the specification; the engine calls [`Sched::answer`].
    pub fn quit(&mut self, t: Tid) -> Reply
        ensures { Turns (QuitEffect t) self.old result self.new }
    {
        let mut lists = ReplyLists::new();
        let mut reply = ShortReply::Unknown;
        self.answer_quit(t, &mut lists, &mut reply);
        reply.with_lists(&lists)
    }

    // The same, with the reply in short, which is written to its place.
    pub(super) fn answer_quit(&mut self, t: Tid, lists: &mut ReplyLists, reply: &mut ShortReply)
        ensures { Turns (WithLists (QuitEffect t) lists.new) self.old reply.new self.new }
    {
        if self.is_live(t) {
            self.abort(t, ShortCause::Quit, lists);
            *reply = ShortReply::Aborted(ShortCause::Quit);
            return;
        }
        self.answer_not_live(t, lists, reply);
    }
}
