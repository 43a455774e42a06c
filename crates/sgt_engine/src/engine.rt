//! The engine: a scheduler with the history of its events and replies.
ghost use Rattle.std.specs.Prelude.{◌≡◌, ℕ, true, false, [], Result, Ok, Err, IfOk, OnOk, OnErr, IsTrue, ◌↔◌, reverse};
ghost use Rattle.std.specs.Result.{IsOk};
ghost use Rattle.sgt_model.specs.declared.event.Event.TheVariants.{Quit, Step};
ghost use Rattle.sgt_model.specs.declared.reply.Reply.{Reply};
ghost use Rattle.sgt_model.specs.Bounds.{AreInRange};
ghost use Rattle.sgt_model.specs.Contents.{Key};
ghost use Rattle.sgt_model.specs.Databases.{contents_of, IsByKey};
ghost use Rattle.sgt_model.specs.Fates.{live};
ghost use Rattle.sgt_model.specs.Legality.{LegalReply};
ghost use Rattle.sgt_model.specs.Replay.{folded};
ghost use Rattle.sgt_model.specs.ShortReplies.{short_reply};
ghost use Rattle.sgt_model.specs.StateAfter.{IsStateAfter};
ghost use Rattle.sgt_model.specs.Values.{settled};
ghost use Rattle.sgt_model.specs.Questions.{is_ending};
ghost use Rattle.sgt_progress.specs.Alone.{IsAlone, IsNoQuitOf, is_hindered};
ghost use Rattle.sgt_sched.specs.Scheduler.{parts, state};
ghost use Rattle.sgt_engine.specs.EngineView.{configuration_of, made_of, with_entry, newest_reply, Answers, HasLists};
ghost use Rattle.sgt_engine.specs.Guarantees.{Guarantees};

mod cut;
mod procedures;
mod put;
mod snapshot;

use crate::changes::{changed, note_removal};
use crate::past::Past;
use crate::spare::{ensure_capacity, ensure_step_capacity};
pub use cut::CutError;
pub use procedures::AddError;
pub use put::PutError;
use sgt_access::Accesses;
use sgt_graph::Graph;
use sgt_log::History;
use sgt_model::{
    Database, Event, Key, Limits, MakeError, NoMemory, Reply, ReplyLists, ShortReply, Tid,
    calls_simulate, headline_holds, nexts_agree, replay_is_serial, states_are_sound,
    verdicts_agree,
};
use sgt_proc::Checked;
use sgt_records::Records;
use sgt_sched::{Sched, endings_agree};
use snapshot::Snapshot;
use std::alloc::Global;
use std::marker::Model;

/// An in-memory transaction engine that schedules by serialization graph testing, with the history of all events and replies.
///
/// For every list of events, run the committed transactions serially, in commit order, on the initial database as a plain
/// map: of each its procedure, and then the accesses on which its caller decided. This gives each transaction the answers and
/// the values that were reported, and ends in the engine's committed database. If codes are reported at commit, the serial run
/// includes the refused transactions, in reply order; each gets its answers or its code.
///
/// A transaction is aborted only for one of these reasons:
///
/// - its access would close a conflict cycle;
/// - it read from an aborted transaction;
/// - its procedure raised a code;
/// - its caller aborted it.
///
/// At every moment the history is legal: each reply is the one that the definitions of histories allow after the entries
/// before it. Each answered event is one entry, refusals included. An event for which an allocation failed is no entry,
/// and changes nothing. The layers below may be any implementations of their contracts.
#[derive(Drop)]
pub struct Engine<R: Records, A: Accesses, G: Graph> {
    opening: Database,
    sched: Sched<R, A, G>,
    history: History,
    // The lists of the newest entry's reply, if there is one.
    lists: ReplyLists,
    // A place for replies of calls that most steps do not need.
    late: ShortReply,
    // Whether the history has a removal, committed or not. The records may keep memory for what was removed.
    has_removal: bool,
    // The committed database that was kept last, if any was. A newer entry makes it too old.
    snapshot: Option<Snapshot>,
}

impl<R: Records, A: Accesses, G: Graph> Model for Engine<R, A, G> {
    ghost use Rattle.std.specs.Coded.{codes};
    ghost use Rattle.std.specs.Prelude.{◌≤◌, length, reverse};
    ghost use Rattle.sgt_model.specs.Codes.{coded_procedure};
    ghost use Rattle.sgt_model.specs.Databases.{contents_of};
    ghost use Rattle.sgt_model.specs.Legality.{Legal};
    ghost use Rattle.sgt_model.specs.Configurations.{configuration};
    ghost use Rattle.sgt_model.specs.StateAfter.{IsStateAfter};
    ghost use Rattle.sgt_sched.specs.LiveList.{numbers};
    ghost use Rattle.sgt_sched.specs.Scheduler.{parts, state};
    ghost use Rattle.sgt_engine.specs.EngineView.{EngineView, HasLists};
    ghost use Rattle.sgt_engine.specs.Snapshots.{IsSnapshot};

    ghost Value = { EngineView };

    ghost coded = { Prim.hlevel (codes, coded_procedure) };

    ghost view = { λ e. record {
      opening = e.opening;
      procedures = (parts e.sched).procedures;
      limits = (parts e.sched).limits;
      past = reverse e.history.entries;
    } };

    ghost invariant = { λ e.
        Legal (configuration (contents_of e.opening) (parts e.sched).procedures (parts e.sched).limits)
        (reverse e.history.entries)
        × IsStateAfter (configuration (contents_of e.opening) (parts e.sched).procedures (parts e.sched).limits)
        (reverse e.history.entries)
        (state e.sched)
        × (length (numbers e.sched.live) ≤ e.history.spare)
        × HasLists (reverse e.history.entries) e.lists
        × IsSnapshot e.opening (reverse e.history.entries) e.snapshot };
}

impl<R: Records, A: Accesses, G: Graph> Engine<R, A, G> {
    /// A new engine over an initial database, with an empty history. The procedures are numbered from 0 in their order.
    ///
    /// `BadLimits` if a limit is out of its range, tested first; `NoMemory` if an allocation failed.
    pub fn new(
        alloc: Global,
        opening: Database,
        procedures: Vec<Checked>,
        limits: Limits,
    ) -> Result<Self, MakeError>
        ensures made { IfOk result (λ e. e ≡ made_of opening procedures.items limits) }
        ensures bad_limits { (result ≡ Err MakeError.BadLimits) ↔ (¬ AreInRange limits) }
    {
        let sched = Sched::new(alloc, &opening, procedures, limits)?;
        Ok(Engine {
            opening,
            sched,
            history: History::new(alloc),
            lists: ReplyLists::new(),
            late: ShortReply::Unknown,
            has_removal: false,
            snapshot: None,
        })
    }

    /// Allocates memory for this many more entries, and for one value in the lists of each. Until these are used up,
    /// the present ones need not be moved. Nothing else changes.
    ///
    /// `NoMemory` if the allocation failed.
    pub fn reserve(&mut self, entries: usize) -> Result<(), NoMemory>
        ensures { self.new ≡ self.old }
    {
        self.history.reserve_entries(entries)
    }

    /// Answers an event, and adds both to the history as one entry. A transaction is named by the number that its
    /// start returned. Any event may come at any time. See [`Event`] for what each event does, and [`Reply`] for the replies.
    ///
    /// Serialization graph testing is that of Bernstein, Hadzilacos and Goodman (1987), chapter 4, and the cascading abort of
    /// readers that of chapter 1. A commit waits for its live predecessors, so that commit order is a serial order: this is from
    /// Durner and Neumann (ICDE 2019).
    ///
    /// No transaction waits for itself, also through others. The only live transaction neither waits nor is aborted for a
    /// cycle, whatever its caller asks for. The serial order keeps real time.
    ///
    /// `NoMemory` if an allocation failed; then nothing has changed. Aborting a live transaction allocates nothing, nor
    /// does any event whose reply ends a live transaction: the capacity for that entry was allocated at the start. The
    /// cost of an event does not grow with the history, which is never read, except when a list has to grow.
    pub fn apply(&mut self, event: Event) -> Result<Reply, NoMemory>
        ensures adds { IfOk result (λ r. self.new ≡ with_entry event r self.old) }
        ensures reply { IfOk result (LegalReply (configuration_of self.old) self.old.past event) }
        ensures guarantees { Guarantees self.new }
        ensures alone { IfOk result (λ r. (t : ℕ) → IsAlone self.old.past t → IsNoQuitOf event t → is_hindered r ≡ false) }
        ensures unchanged { OnErr result (self.new ≡ self.old) }
        ensures no_memory { (r : Reply) → LegalReply (configuration_of self.old) self.old.past event r
            → is_ending r ≡ true
            → IsOk result }
        ensures quits { (t : ℕ) → event ≡ Quit t → live self.old.past t ≡ true → IsOk result }
    {
        let mut reply = ShortReply::Unknown;
        self.answer(&event, &mut reply)?;
        Ok(reply.with_lists(self.reply_lists()))
    }

    /// The same, with the reply in short, which is written to its place: [`Engine::reply_lists`] lends its lists until the next
    /// event. It is compiled into its caller, except for steps.
    #[inline(always)]
    pub fn answer(&mut self, event: &Event, reply: &mut ShortReply) -> Result<(), NoMemory>
        ensures adds { OnOk result (Answers event.now self.old reply.new self.new) }
        ensures guarantees { Guarantees self.new }
        ensures alone { OnOk result ((t : ℕ) → IsAlone self.old.past t → IsNoQuitOf event.now t → (r : Reply)
            → short_reply r ≡ reply.new → is_hindered r ≡ false) }
        ensures unchanged { OnErr result (self.new ≡ self.old) }
        ensures no_memory { (r : Reply) → LegalReply (configuration_of self.old) self.old.past event.now r
            → is_ending r ≡ true
            → IsOk result }
        ensures quits { (t : ℕ) → event.now ≡ Quit t → live self.old.past t ≡ true → IsOk result }
    {
        // The laws that the proof rests on, of calls and states, and of legal histories. They do nothing at run time.
        calls_simulate();
        states_are_sound();
        verdicts_agree();
        nexts_agree();
        endings_agree();
        headline_holds();

        ensure_capacity(&mut self.history, &self.sched, event)?;
        self.sched.answer(event, &mut self.lists, reply)?;
        self.history.push(event, reply, &self.lists);
        note_removal(&mut self.has_removal, reply);
        Ok(())
    }

    /// The same, with steps compiled into its caller too: for one with many steps, or with events of one kind, so that the kind is
    /// not tested at run time.
    #[inline(always)]
    pub fn answer_inline(&mut self, event: &Event, reply: &mut ShortReply) -> Result<(), NoMemory>
        ensures adds { OnOk result (Answers event.now self.old reply.new self.new) }
        ensures guarantees { Guarantees self.new }
        ensures alone { OnOk result ((t : ℕ) → IsAlone self.old.past t → IsNoQuitOf event.now t → (r : Reply)
            → short_reply r ≡ reply.new → is_hindered r ≡ false) }
        ensures unchanged { OnErr result (self.new ≡ self.old) }
        ensures no_memory { (r : Reply) → LegalReply (configuration_of self.old) self.old.past event.now r
            → is_ending r ≡ true
            → IsOk result }
        ensures quits { (t : ℕ) → event.now ≡ Quit t → live self.old.past t ≡ true → IsOk result }
    {
        match event {
            Event::Step(t) => {
                *reply = self.answer_step(*t)?;
                Ok(())
            }
            _ => self.answer(event, reply),
        }
    }

    /// Answers a step as [`Engine::answer`] does, compiled into its caller, and returns the reply in short: a caller that takes it
    /// apart at once never writes it to memory.
    #[inline(always)]
    pub fn answer_step(&mut self, t: Tid) -> Result<ShortReply, NoMemory>
        ensures adds { IfOk result (λ r. Answers (Step t) self.old r self.new) }
        ensures guarantees { Guarantees self.new }
        ensures alone { IfOk result (λ s. (u : ℕ) → IsAlone self.old.past u → IsNoQuitOf (Step t) u → (r : Reply)
            → short_reply r ≡ s → is_hindered r ≡ false) }
        ensures unchanged { OnErr result (self.new ≡ self.old) }
        ensures no_memory { (r : Reply) → LegalReply (configuration_of self.old) self.old.past (Step t) r
            → is_ending r ≡ true
            → IsOk result }
    {
        calls_simulate();
        states_are_sound();
        verdicts_agree();
        nexts_agree();
        endings_agree();
        headline_holds();

        ensure_step_capacity(&mut self.history, &self.sched, t)?;
        let reply = self.sched.answer_step(t, &mut self.lists, &mut self.late)?;
        self.history.push_step(t, &reply, &self.lists);
        note_removal(&mut self.has_removal, &reply);
        Ok(reply)
    }

    /// The lists of the reply to the newest event, if there was one. A list that the reply does not have may hold anything.
    pub fn reply_lists(&self) -> &ReplyLists
        ensures { HasLists self.now.past result.now }
    {
        &self.lists
    }

    /// The reply to the newest event, if there was one.
    pub fn last_reply(&self) -> Option<Reply>
        ensures { result ≡ newest_reply self.now.past }
    {
        self.history.last_reply()
    }

    /// The scheduler with its layers. It holds exactly what the history says of the live transactions, how the others ended, and
    /// the committed values.
    pub fn sched(&self) -> &Sched<R, A, G>
        ensures state { IsStateAfter (configuration_of self.now) self.now.past
            (state result.now) }
        ensures procedures { (parts result.now).procedures ≡ self.now.procedures }
        ensures limits { (parts result.now).limits ≡ self.now.limits }
    {
        &self.sched
    }

    /// The rows of the initial database, sorted by table and then by number.
    pub fn opening(&self) -> &[(Key, i64)]
        ensures rows { result.now ≡ self.now.opening }
        ensures by_key { IsByKey result.now }
    {
        self.opening.rows()
    }

    /// Whether the history is empty: no event was answered since the engine was made or cut.
    pub fn is_new(&self) -> bool
        ensures { IsTrue result ↔ (self.now.past ≡ []) }
    {
        self.history.is_empty()
    }

    /// Whether the transaction is live: it was started, and has neither committed nor aborted.
    pub fn is_live(&self, t: Tid) -> bool
        ensures { result ≡ live self.now.past t }
    {
        // The history is legal, and the state after a legal one lists exactly those that are live.
        let _ = self.history();
        states_are_sound();
        self.sched().live().as_slice().contains(&t)
    }

    /// The history, oldest entry first. No entry is ever removed from it.
    pub fn history(&self) -> &History
        ensures entries { reverse result.now.entries ≡ self.now.past }
        ensures guarantees { Guarantees self.now }
    {
        headline_holds();
        &self.history
    }

    /// The committed value of the key, or none: the last one that a committed transaction wrote, else the initial one. It is also
    /// what the committed transactions leave there, run one after another in commit order.
    pub fn committed(&self, key: Key) -> Option<i64>
        ensures value { result ≡ settled (contents_of self.now.opening) self.now.past key }
        ensures replayed { result ≡ (folded (configuration_of self.now) self.now.past).last key }
    {
        replay_is_serial();
        self.sched.records().committed(key)
    }

    /// The committed database: what `committed` returns, for all keys. If the history is shorter than the initial database, it goes
    /// through both once; otherwise it goes through all records once.
    ///
    /// `NoMemory` if an allocation failed.
    pub fn database(&self, alloc: Global) -> Result<Database, NoMemory>
        ensures values { IfOk result (λ d. (k : Key) →
            contents_of d k ≡ settled (contents_of self.now.opening) self.now.past k) }
        ensures replayed { IfOk result (λ d. (k : Key) →
            contents_of d k ≡ (folded (configuration_of self.now) self.now.past).last k) }
        ensures by_key { IfOk result IsByKey }
    {
        replay_is_serial();
        let is_short = self.history.len() < self.opening.rows().len();
        self.committed_rows(alloc, is_short)
    }

    // The same: where the history is short, by the opening and what has changed in it, else by the records. A record that was
    // removed has no row.
    fn committed_rows(&self, alloc: Global, is_short: bool) -> Result<Database, NoMemory>
        ensures values { IfOk result (λ d. (k : Key) →
            contents_of d k ≡ settled (contents_of self.now.opening) self.now.past k) }
        ensures by_key { IfOk result IsByKey }
    {
        if is_short {
            return self.changed_opening(alloc);
        }
        self.sched.records().all(alloc)
    }

    // The initial database with what the history has changed in it.
    fn changed_opening(&self, alloc: Global) -> Result<Database, NoMemory>
        ensures values { IfOk result (λ d. (k : Key) →
            contents_of d k ≡ settled (contents_of self.now.opening) self.now.past k) }
        ensures by_key { IfOk result IsByKey }
    {
        changed(alloc, &self.opening, &self.history, self.sched.records())
    }

    /// The initial database and the history, of an engine that takes no more events. It allocates nothing.
    pub fn into_past(self) -> Past
        ensures opening { result.opening ≡ self.opening }
        ensures entries { reverse result.history.entries ≡ self.past }
        ensures guarantees { Guarantees self }
    {
        headline_holds();
        let Engine {
            opening,
            sched: _,
            history,
            lists: _,
            late: _,
            has_removal: _,
            snapshot: _,
        } = self;
        Past { opening, history }
    }
}
