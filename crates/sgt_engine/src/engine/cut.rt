//! Cutting the history off, so that the engine continues with an empty one.
ghost use Rattle.std.specs.Prelude.{◌≡◌, [], Err, IfOk, OnOk, OnErr, ◌↔◌, reverse};
ghost use Rattle.sgt_model.specs.Contents.{Key};
ghost use Rattle.sgt_model.specs.Databases.{contents_of, IsByKey};
ghost use Rattle.sgt_model.specs.Headline.{Headline};
ghost use Rattle.sgt_model.specs.Legality.{Legal};
ghost use Rattle.sgt_model.specs.NewState.{IsNew};
ghost use Rattle.sgt_model.specs.Replay.{folded};
ghost use Rattle.sgt_sched.specs.Scheduler.{state, Keeps};
ghost use Rattle.sgt_engine.specs.Cuts.{GoesOn, NobodyLive};
ghost use Rattle.sgt_engine.specs.EngineView.{configuration_of};

use crate::changes::keys_without_value;
use crate::engine::Engine;
use crate::past::Past;
use sgt_access::Accesses;
use sgt_graph::Graph;
use sgt_log::History;
use sgt_model::{Database, NoMemory, headline_holds, new_is_empty};
use sgt_records::Records;
use sgt_sched::Sched;
use std::alloc::Global;
use std::mem;
use thiserror::Error;

/// Why a history was not cut off.
#[derive(Clone, Copy, Debug, PartialEq, Eq, Error)]
pub enum CutError {
    /// A transaction is live. This is tested first.
    #[error("a transaction is live")]
    StillLive,
    /// An allocation failed.
    #[error("no memory")]
    NoMemory,
}

impl From<NoMemory> for CutError {
    ghost use Rattle.sgt_engine.specs.declared.engine.cut.CutError.TheVariants.{NoMemory};

    ghost from_gives = { λ _ error. error ≡ NoMemory };

    fn from(_: NoMemory) -> Self {
        CutError::NoMemory
    }
}

impl<R: Records, A: Accesses, G: Graph> Engine<R, A, G> {
    /// Cuts the history off, if no transaction is live. The events and replies become a past of their own. The engine
    /// continues from the committed database as a new one would, with an empty history and numbers from 0. Procedures
    /// and limits stay, and starts are counted anew. An engine that is cut from time to time holds only its database
    /// and the events since the last cut, however long it runs.
    ///
    /// The headline holds of each part, and the parts chain: what the replay of one leaves is the initial database of the next. That
    /// is a copy of the old one with what the part has written, or of all records if they are fewer than the entries. If the part
    /// removed records, nothing is kept of those.
    ///
    /// `StillLive` if a transaction is live, tested first; `NoMemory` if an allocation failed. Then nothing has changed.
    pub fn cut(&mut self, alloc: Global) -> Result<Past, CutError>
        ensures past { IfOk result (λ p. p.opening ≡ self.old.opening) }
        ensures entries { IfOk result (λ p. reverse p.history.entries ≡ self.old.past) }
        ensures goes_on { OnOk result (GoesOn self.old self.new) }
        ensures replayed { OnOk result ((k : Key) →
            contents_of self.new.opening k ≡ (folded (configuration_of self.old) self.old.past).last k) }
        ensures by_key { OnOk result (IsByKey self.new.opening) }
        ensures legal { IfOk result (λ p. Legal (configuration_of self.old) (reverse p.history.entries)) }
        ensures headline { IfOk result (λ p. Headline (configuration_of self.old) (reverse p.history.entries)) }
        ensures still_live { (result ≡ Err CutError.StillLive) ↔ (¬ NobodyLive self.old.past) }
        ensures unchanged { OnErr result (self.new ≡ self.old) }
    {
        headline_holds();
        new_is_empty();
        if self.sched.live_count() > 0 {
            return Err(CutError::StillLive);
        }
        let database = self.database(alloc)?;
        restart(
            alloc,
            &mut self.sched,
            &self.history,
            self.has_removal,
            &database,
        )?;
        self.has_removal = false;
        self.snapshot = None;
        let opening = mem::replace(&mut self.opening, database);
        let history = mem::replace(&mut self.history, History::new(alloc));
        Ok(Past { opening, history })
    }

    /// Drops a past that was cut off. If no event came since, the memory of its entries is used for those to come, which saves
    /// the first use of each page. Nothing else changes.
    pub fn recycle(&mut self, past: Past)
        ensures { self.new ≡ self.old }
    {
        self.history.recycle(past.history);
    }
}

// Starts a scheduler anew over the committed database. If records were removed, it keeps no memory for them: they are dropped one
// by one, or if the history is longer than the database, all records are made anew.
fn restart<R: Records, A: Accesses, G: Graph>(
    alloc: Global,
    sched: &mut Sched<R, A, G>,
    history: &History,
    removes: bool,
    database: &Database,
) -> Result<(), NoMemory>
    requires none_live { (state sched.old).live ≡ [] }
    requires committed { (k : Key) → (state sched.old).settled k ≡ contents_of database.now k }
    ensures new { OnOk result (IsNew (contents_of database.now) (state sched.new)) }
    ensures unchanged { OnErr result (sched.new ≡ sched.old) }
    ensures kept { Keeps sched.old sched.new }
{
    if !removes {
        sched.renew();
        return Ok(());
    }
    if history.len() > database.rows().len() {
        return sched.reopen(alloc, database);
    }
    let keys = keys_without_value(alloc, history, sched.records())?;
    sched.renew_without(keys.as_slice());
    Ok(())
}
