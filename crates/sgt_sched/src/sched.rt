//! The scheduler: its parts, and the calls that only read it. The other calls are in files of their own.
ghost use Rattle.std.specs.Prelude.{◌≡◌, true, length, position, Result, Ok, Err, Some, IfOk, OnErr, IfSome, IsSome, IsTrue, ◌↔◌};
ghost use Rattle.std.specs.Result.{IsOk};
ghost use Rattle.sgt_model.specs.declared.reply.Reply.{Reply};
ghost use Rattle.sgt_model.specs.AccessList.{is_listed};
ghost use Rattle.sgt_model.specs.Bounds.{AreInRange};
ghost use Rattle.sgt_model.specs.CallEffects.{CallEffect};
ghost use Rattle.sgt_model.specs.Databases.{contents_of};
ghost use Rattle.sgt_model.specs.Left.{next_left};
ghost use Rattle.sgt_model.specs.NewState.{IsNew};
ghost use Rattle.sgt_model.specs.State.{State};
ghost use Rattle.sgt_model.specs.Paths.{AtMost, Rising};
ghost use Rattle.sgt_proc.specs.Nexts.{PutsValue};
ghost use Rattle.sgt_model.specs.ShortReplies.{reply_with};
ghost use Rattle.sgt_sched.specs.Replies.{WithLists, with_reply};
ghost use Rattle.sgt_model.specs.Questions.{is_ending};
ghost use Rattle.sgt_sched.specs.Endings.{EndsOne};
ghost use Rattle.sgt_sched.specs.LiveList.{has_number};
ghost use Rattle.sgt_sched.specs.Operations.{next_by};
ghost use Rattle.sgt_sched.specs.SchedulerView.{IsKept, view};
ghost use Rattle.sgt_sched.specs.KeptProp.{IsKept-prop};
ghost use Rattle.sgt_sched.specs.Steps.{IsNotLive, IsUnended};

mod abort;
mod commit;
mod procedures;
mod quit;
mod renew;
mod request;
mod start;
mod step;

use crate::fates::Fates;
use crate::live::Live;
use crate::procedure_table::ProcedureTable;
use sgt_access::Accesses;
use sgt_graph::Graph;
use sgt_model::{Database, Event, Limits, MakeError, NoMemory, ReplyLists, ShortReply, Tid, Tids};
use sgt_proc::{Ahead, Checked};
use sgt_records::Records;
use std::alloc::Global;

/// A scheduler of transactions by serialization graph testing, over records, a list of accesses and a graph that it knows
/// by their contracts alone.
///
/// - A step reads one key or writes one. Each other live transaction with a conflicting access of the key must commit first:
///   an edge leads from it to the one that steps. If these edges would close a cycle, the step is rejected and its
///   transaction aborts (Bernstein, Hadzilacos and Goodman 1987, chapter 4).
/// - Once its procedure is at its end, a transaction's caller may ask for accesses. Each is made as a step would make it.
/// - A read returns the last value that is not undone, committed or not. An abort removes the transaction's own values, and
///   aborts in cascade those that have read from it (chapter 1).
/// - A commit waits for the transaction's live predecessors, so commit order agrees with the order of conflicts (Durner and
///   Neumann, ICDE 2019).
///
/// Of an ended transaction it stores how it ended, and nothing else. So the cost of a call grows with what the live
/// transactions have done and with the cost of the layers. It does not grow with the number of earlier transactions,
/// except when a list has to grow.
#[derive(Drop)]
pub struct Sched<R: Records, A: Accesses, G: Graph> {
    procedures: ProcedureTable,
    limits: Limits,
    records: R,
    accesses: A,
    graph: G,
    live: Live,
    read_from: Vec<(Tid, Tid)>,
    fates: Fates,
    ghost kept: { IsKept R.chain R.settled A.list G.nodes G.pairs (view procedures limits records accesses graph live read_from.items fates.fates) } by { IsKept-prop (view procedures limits records accesses graph live read_from.items fates.fates) },
}

impl<R: Records, A: Accesses, G: Graph> Sched<R, A, G> {
    ghost use Rattle.sgt_sched.specs.Scheduler.{parts, state, rules_of, asks_of, Tries};

    /// A scheduler over an initial database, with nothing started. It copies the initial database. The procedures are numbered
    /// from 0 in their order. Number 65535 (`EMPTY_PROCEDURE`) is the empty procedure, whatever they are.
    ///
    /// `BadLimits` if a limit is out of its range, tested first; `NoMemory` if an allocation failed.
    pub fn new(
        alloc: Global,
        opening: &Database,
        procedures: Vec<Checked>,
        limits: Limits,
    ) -> Result<Self, MakeError>
        ensures new { IfOk result (λ s. IsNew (contents_of opening.now) (state s)) }
        ensures procedures { IfOk result (λ s. (parts s).procedures ≡ procedures.items) }
        ensures limits { IfOk result (λ s. (parts s).limits ≡ limits) }
        ensures bad_limits { (result ≡ Err MakeError.BadLimits) ↔ (¬ AreInRange limits) }
    {
        if !limits.are_in_range() {
            return Err(MakeError::BadLimits);
        }
        Ok(Sched {
            procedures: ProcedureTable::new(alloc, procedures),
            limits,
            records: R::build(alloc, opening)?,
            accesses: A::empty(alloc),
            graph: G::empty(),
            live: Live::new(alloc),
            read_from: Vec::new(alloc),
            fates: Fates::new(alloc),
        })
    }

    /// Makes the call of an event: starts, steps, makes an access that the caller requests, commits or aborts. It
    /// writes the reply without its lists to `reply`, and those that the reply has to `lists`.
    ///
    /// `NoMemory` if an allocation failed; then nothing has changed. An event that ends a live transaction allocates nothing.
    #[inline(always)]
    pub fn answer(
        &mut self,
        event: &Event,
        lists: &mut ReplyLists,
        reply: &mut ShortReply,
    ) -> Result<(), NoMemory>
        ensures done { Tries (WithLists (CallEffect (rules_of self.old) event.now) lists.new) self.old (with_reply result reply.new) self.new }
        ensures lists { OnErr result (lists.new ≡ lists.old) }
        ensures no_memory { EndsOne (asks_of self.old) event.now (state self.old) → IsOk result }
    {
        match event {
            Event::Start { procedure, args } => self.answer_start(*procedure, args, reply),
            Event::Step(t) => self.answer_step_called(*t, lists, reply),
            Event::Access(t, request) => self.answer_request(*t, request, lists, reply),
            Event::Commit(t) => {
                self.answer_commit(*t, lists, reply);
                Ok(())
            }
            Event::Quit(t) => {
                self.answer_quit(*t, lists, reply);
                Ok(())
            }
        }
    }

    /// Whether the reply to this event would end a live transaction: `Committed`, `Refused` or `Aborted`. An event for which
    /// this is true allocates nothing.
    pub fn ends(&self, event: &Event) -> bool
        ensures exact { IsTrue result ↔ EndsOne (asks_of self.now) event.now (state self.now) }
        ensures replies { (r : Reply) (after : State)
            → CallEffect (rules_of self.now) event.now (state self.now) r after
            → is_ending r ≡ result }
    {
        match event {
            Event::Start { .. } => false,
            Event::Step(t) => self.step_ends(*t),
            Event::Access(t, request) => self.request_ends(*t, *request),
            Event::Commit(t) => self.commit_ends(*t),
            Event::Quit(t) => self.is_live(*t),
        }
    }

    /// The numbers of the live transactions, rising.
    pub fn live(&self) -> Tids
        ensures live { result ≡ (state self.now).live }
        ensures rising { Rising result }
    {
        self.live.numbers()
    }

    /// How many transactions are live.
    pub fn live_count(&self) -> usize
        ensures { result ≡ length (state self.now).live }
    {
        self.live.len()
    }

    /// How many transactions may be live, and be started, and when codes are reported.
    pub fn limits(&self) -> Limits
        ensures { result ≡ (parts self.now).limits }
    {
        self.limits
    }

    /// The records: the committed values, and above them what the live transactions have written.
    pub fn records(&self) -> &R
        ensures { result.now ≡ (parts self.now).records }
    {
        &self.records
    }

    /// The accesses of the live transactions. There are few enough for a search for rivals.
    pub fn accesses(&self) -> &A
        ensures same { result.now ≡ (parts self.now).accesses }
        ensures few { AtMost 32 (is_listed (A.list result.now)) }
    {
        &self.accesses
    }

    /// The graph of the live transactions.
    pub fn graph(&self) -> &G
        ensures { result.now ≡ (parts self.now).graph }
    {
        &self.graph
    }

    // Whether the transaction is live.
    fn is_live(&self, t: Tid) -> bool
        ensures live { IsTrue result → (state self.now).nodes t ≡ true }
        ensures unended { IsTrue result ↔ IsUnended (state self.now) t }
    {
        match self.index(t) {
            Some(_) => true,
            None => false,
        }
    }

    // The index of the transaction among the live ones, if it is live.
    #[inline(always)]
    fn index(&self, t: Tid) -> Option<usize>
        ensures live { IsSome result → (state self.now).nodes t ≡ true }
        ensures unended { IsSome result ↔ IsUnended (state self.now) t }
        ensures index { result ≡ position (has_number t) (parts self.now).live }
    {
        self.live.index(t)
    }

    // Writes the reply to an event of a transaction that is not live to its place.
    #[inline(never)]
    fn answer_not_live(&self, t: Tid, lists: &mut ReplyLists, reply: &mut ShortReply)
        requires not_live { IsUnended (state self.now) t → ⊥ }
        ensures { IsNotLive (state self.now) t (reply_with reply.new lists.new) }
    {
        *reply = match self.fates.get(t, &mut lists.cycle) {
            Some(fate) => ShortReply::Over(fate),
            None => ShortReply::Unknown,
        }
    }

    /// What the procedure of the transaction does next, if it is live.
    pub fn ahead(&self, t: Tid) -> Option<Ahead>
        ensures live { IsSome result → (state self.now).nodes t ≡ true }
        ensures unended { IsSome result ↔ IsUnended (state self.now) t }
        ensures next { IfSome result (λ ahead. next_by (state self.now) t ahead ≡ next_left ((state self.now).left t)) }
    {
        match self.index(t) {
            Some(index) => Some(self.ahead_at(t, index)),
            None => None,
        }
    }

    // The same, for a live transaction that has this index among the live ones.
    #[inline(always)]
    fn ahead_at(&self, t: Tid, index: usize) -> Ahead
        requires { position (has_number t) (parts self.now).live ≡ Some index }
        ensures next { next_by (state self.now) t result ≡ next_left ((state self.now).left t) }
        ensures in_range { PutsValue result }
    {
        self.live.at(t, index).ahead()
    }
}
