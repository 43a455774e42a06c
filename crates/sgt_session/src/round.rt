//! The state under the lock: the engine and the book of calls.
ghost use Rattle.std.specs.Prelude.{◌≡◌, ◌+◌, ◌<◌, ◌≤◌, ℕ, true, [], length, vec_len, IfOk, OnOk, OnErr, reverse};
ghost use Rattle.std.specs.List.{sum_by};
ghost use Rattle.std.specs.Result.{IsOk};
ghost use Rattle.sgt_model.specs.declared.event.Event.TheVariants.{Quit, Step};
ghost use Rattle.sgt_model.specs.Fates.{live};
ghost use Rattle.sgt_engine.specs.EngineView.{configuration_of};
ghost use Rattle.sgt_engine.specs.Guarantees.{Guarantees};
ghost use Rattle.sgt_session.specs.Receipts.{HasFiled};

use crate::named::Named;
use crate::receipts::Receipts;
use crate::session::{Session, lend};
use sgt_access::Accesses;
use sgt_engine::Engine;
use sgt_graph::Graph;
use sgt_log::{History, StepKind};
use sgt_model::{Event, NoMemory, ShortReply, Tid};
use sgt_records::Records;
use std::marker::Model;
use std::sync::ledger::{Book, Share};

/// The state under the lock: the engine, with a book of the sessions' calls. Contracts see it as its engine. An engine
/// takes 13 KB, so it is in a box: closing and opening move a pointer.
#[derive(Drop)]
pub struct Round<N: Named, R: Records, A: Accesses, G: Graph> {
    engine: Box<Engine<R, A, G>>,
    calls: Book<N>,
    // Where the engine writes the reply to an event of `apply`. Nothing reads what an earlier call left there.
    reply: ShortReply,
}

impl<N: Named, R: Records, A: Accesses, G: Graph> Model for Round<N, R, A, G> {
    ghost use Rattle.std.specs.Coded.{codes};
    ghost use Rattle.std.specs.Prelude.{◌≡◌, length};
    ghost use Rattle.sgt_model.specs.Codes.{coded_procedure};
    ghost use Rattle.sgt_engine.specs.EngineView.{EngineView, configuration_of};

    ghost Value = { EngineView };

    ghost coded = { Prim.hlevel (codes, coded_procedure) };

    ghost view = { λ r. r.engine.value };

    ghost invariant = { λ r. (configuration_of r.engine.value ≡ N.configuration) × (length r.engine.value.past ≡ r.calls.total) };
}

impl<N: Named, R: Records, A: Accesses, G: Graph> Round<N, R, A, G> {
    /// An engine with an empty history, and a book with no calls.
    pub fn new(engine: Box<Engine<R, A, G>>, calls: Book<N>) -> Self
        requires configuration { configuration_of engine.value ≡ N.configuration }
        requires empty { engine.value.past ≡ [] }
        requires calls { calls.total ≡ 0 }
        ensures { result ≡ engine.value }
    {
        Round {
            engine,
            calls,
            reply: ShortReply::Unknown,
        }
    }

    /// Makes one event of the engine, and appends its receipt. The result says what the entry is to a caller that makes one
    /// step after another. `NoMemory` if an allocation in the engine failed; then nothing has changed.
    #[inline(always)]
    pub fn apply(
        &mut self,
        event: &Event,
        mine: &mut Share<N>,
        receipts: &mut Receipts,
    ) -> Result<StepKind, NoMemory>
        requires part { 0 < mine.old.parts }
        requires spare { 0 < receipts.old.spare }
        ensures filed { IfOk result (HasFiled event.now self.old self.new receipts.old.receipts receipts.new.receipts) }
        ensures counted { OnOk result (mine.new.amount ≡ mine.old.amount + 1) }
        ensures parts { mine.new.parts ≡ mine.old.parts }
        ensures spare { OnOk result (receipts.new.spare + 1 ≡ receipts.old.spare) }
        ensures unchanged { OnErr result ((self.new ≡ self.old) × (mine.new ≡ mine.old) × (receipts.new ≡ receipts.old)) }
        ensures quits { (t : ℕ) → event.now ≡ Quit t → live self.old.past t ≡ true → IsOk result }
    {
        self.engine.answer(event, &mut self.reply)?;
        self.calls.add(mine, 1);
        Ok(receipts.file_newest(self.engine.history()))
    }

    /// The same for a step, compiled into its caller. Its reply is never stored: the receipt is the history's newest entry.
    #[inline(always)]
    pub fn step(
        &mut self,
        t: Tid,
        mine: &mut Share<N>,
        receipts: &mut Receipts,
    ) -> Result<StepKind, NoMemory>
        requires part { 0 < mine.old.parts }
        requires spare { 0 < receipts.old.spare }
        ensures filed { IfOk result (HasFiled (Step t) self.old self.new receipts.old.receipts receipts.new.receipts) }
        ensures counted { OnOk result (mine.new.amount ≡ mine.old.amount + 1) }
        ensures parts { mine.new.parts ≡ mine.old.parts }
        ensures spare { OnOk result (receipts.new.spare + 1 ≡ receipts.old.spare) }
        ensures unchanged { OnErr result ((self.new ≡ self.old) × (mine.new ≡ mine.old) × (receipts.new ≡ receipts.old)) }
    {
        self.engine.answer_step(t)?;
        self.calls.add(mine, 1);
        Ok(receipts.file_newest(self.engine.history()))
    }

    /// The history, oldest entry first.
    pub fn history(&self) -> &History
        ensures entries { reverse result.now.entries ≡ self.now.past }
    {
        self.engine.history()
    }

    /// Joins the shares of all sessions for a moment, which shows that they have counted one call for each entry.
    pub fn audit(&mut self, sessions: &mut Vec<Session<N>>)
        requires { (0 < vec_len sessions.old) × (N.parts ≤ vec_len sessions.old) }
        ensures same { self.new ≡ self.old }
        ensures sessions { sessions.new.items ≡ sessions.old.items }
        ensures counted { length self.old.past ≡ sum_by length sessions.old.items }
        ensures all { length sessions.old.items ≡ N.parts }
    {
        let sessions = sessions.as_mut_slice();
        let mut none = sessions[0].no_part();
        lend(sessions, &mut self.calls, &mut none);
    }

    /// The engine, taken out of the lock.
    pub fn into_engine(self) -> Box<Engine<R, A, G>>
        ensures same { result.value ≡ self }
        ensures configuration { configuration_of result.value ≡ N.configuration }
        ensures guarantees { Guarantees result.value }
    {
        let Round { engine, .. } = self;
        let _ = engine.history();
        engine
    }
}
