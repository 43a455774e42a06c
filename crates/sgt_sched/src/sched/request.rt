//! Accesses that the callers of transactions ask for.
ghost use Rattle.std.specs.Prelude.{◌≡◌, IsTrue, OnErr, ◌↔◌};
ghost use Rattle.std.specs.Result.{IsOk};
ghost use Rattle.sgt_model.specs.declared.event.Event.TheVariants.{Access};
ghost use Rattle.sgt_model.specs.CallEffects.{RequestEffect};
ghost use Rattle.sgt_sched.specs.Replies.{WithLists, with_reply};
ghost use Rattle.sgt_sched.specs.Endings.{EndsOne};
ghost use Rattle.sgt_sched.specs.Scheduler.{state, asks_of, Tries};

use crate::operation::operation_of;
use crate::sched::Sched;
use sgt_access::Accesses;
use sgt_graph::Graph;
use sgt_model::{NoMemory, ReplyLists, Request, ShortReply, Tid};
use sgt_proc::Ahead;
use sgt_records::Records;

impl<R: Records, A: Accesses, G: Graph> Sched<R, A, G> {
    // Makes an access that the caller of a transaction asks for. Its procedure must be at its end.
    #[inline(never)]
    pub(super) fn answer_request(
        &mut self,
        t: Tid,
        request: &Request,
        lists: &mut ReplyLists,
        reply: &mut ShortReply,
    ) -> Result<(), NoMemory>
        ensures done { Tries (WithLists (RequestEffect (asks_of self.old) t request.now) lists.new) self.old (with_reply result reply.new) self.new }
        ensures lists { OnErr result (lists.new ≡ lists.old) }
        ensures no_memory { EndsOne (asks_of self.old) (Access t request.now) (state self.old) → IsOk result }
    {
        let Some(index) = self.index(t) else {
            self.answer_not_live(t, lists, reply);
            return Ok(());
        };
        let Ahead::Ends = self.ahead_at(t, index) else {
            *reply = ShortReply::NotEnded;
            return Ok(());
        };
        let Some((key, operation)) = operation_of(*request) else {
            *reply = ShortReply::BadArgs;
            return Ok(());
        };
        *reply = self.access(t, index, key, operation, lists, reply)?;
        Ok(())
    }

    // Whether an access that the caller of a transaction asks for would end it.
    pub(super) fn request_ends(&self, t: Tid, request: Request) -> bool
        ensures { IsTrue result ↔ EndsOne (asks_of self.now) (Access t request) (state self.now) }
    {
        let Some(Ahead::Ends) = self.ahead(t) else {
            return false;
        };
        let Some((key, operation)) = operation_of(request) else {
            return false;
        };
        self.is_blocked(t, key, operation.kind())
    }
}
