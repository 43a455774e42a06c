//! Starts.
ghost use Rattle.sgt_model.specs.CallEffects.{StartEffect};
ghost use Rattle.sgt_sched.specs.Admission.{Admits};
ghost use Rattle.sgt_sched.specs.Replies.{WithAnyLists, with_reply};
ghost use Rattle.sgt_sched.specs.Scheduler.{state, rules_of, Tries};

use crate::arguments::args_fit;
use crate::sched::Sched;
use sgt_access::Accesses;
use sgt_graph::Graph;
use sgt_model::{Args, NoMemory, Reply, ReplyLists, ShortReply, Tid};
use sgt_records::Records;

impl<R: Records, A: Accesses, G: Graph> Sched<R, A, G> {
    /// Starts a transaction that runs the procedure of this number with these arguments.
    ///
    /// Replies, tested in this order:
    ///
    /// - `NoProcedure` if the number names none;
    /// - `BadArgs` if the number of arguments is not the procedure's, or one is no value;
    /// - `Spent` if the most starts are used up;
    /// - `Full` if as many transactions are live as the limits allow;
    /// - else `Started` with the next number.
    ///
    /// `NoMemory` if an allocation failed; then nothing has changed.
    ///
    /// Only tests call this. It is part of the specification; the engine calls [`Sched::answer`].
    pub fn start(&mut self, procedure: u16, args: &Args) -> Result<Reply, NoMemory>
        ensures { Tries (StartEffect (rules_of self.old) procedure args.now) self.old result self.new }
    {
        let mut reply = ShortReply::Unknown;
        self.answer_start(procedure, args, &mut reply)?;
        Ok(reply.with_lists(&ReplyLists::new()))
    }

    // The same, with the reply in short, which is written to its place. No reply to a start has lists.
    pub(super) fn answer_start(
        &mut self,
        procedure: u16,
        args: &Args,
        reply: &mut ShortReply,
    ) -> Result<(), NoMemory>
        ensures { Tries (WithAnyLists (StartEffect (rules_of self.old) procedure args.now)) self.old (with_reply result reply.new) self.new }
    {
        let t = match self.admit(procedure, args) {
            Ok(t) => t,
            Err(refusal) => {
                *reply = refusal;
                return Ok(());
            }
        };
        self.fates.reserve()?;
        let checked = self.procedures.at(procedure);
        self.live.start(t, procedure, checked, args)?;
        self.graph.add(t);
        self.fates.start();
        *reply = ShortReply::Started(t);
        Ok(())
    }

    // The number of a transaction that may start, or why it may not.
    fn admit(&self, procedure: u16, args: &Args) -> Result<Tid, ShortReply>
        ensures { Admits (rules_of self.now) (state self.now) procedure args.now result }
    {
        let count = match self.procedures.get(procedure) {
            Some(checked) => checked.args(),
            None => return Err(ShortReply::NoProcedure),
        };
        if !args_fit(count, args) {
            return Err(ShortReply::BadArgs);
        }
        if self.fates.len() == self.limits.begins as usize {
            return Err(ShortReply::Spent);
        }
        if self.live.len() == self.limits.live as usize {
            return Err(ShortReply::Full);
        }
        Ok(Tid(self.fates.len() as u32))
    }
}
