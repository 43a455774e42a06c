//! Recoverability.
ghost use Rattle.std.specs.Prelude.{◌<◌, ◌+◌, ℕ, length, IfSome, IfOk, OnOk, IsNone};
ghost use Rattle.sgt_classes.specs.Classes.{BreaksRecoverability, IsFirstViolation};
ghost use Rattle.sgt_classes.specs.Seen.{KnowsSources, KnowsDirtyReads, KeepsDirtyReads};

use crate::avoiding::{Sources, put_on_top};
use crate::checker::{Checker, first_violation};
use crate::links::Links;
use crate::operation::{Action, Operation, Violation};
use crate::table::Table;
use sgt_model::NoMemory;
use std::alloc::Global;
use std::collections::BTreeMap;

/// The first commit of a transaction that has read from another that has not committed by then, with that read.
/// `None` if the history is recoverable.
///
/// Bernstein, Hadzilacos and Goodman (1987), chapter 2: recoverable.
///
/// It costs what `avoidance_violation` costs, and one lookup in a table for each commit. Each read from a transaction
/// that has not committed costs two lookups at the read and two at the commit of its reader.
pub fn recoverable_violation(
    alloc: Global,
    history: &[Operation],
) -> Result<Option<Violation>, NoMemory>
    ensures { IfOk result (IsFirstViolation (BreaksRecoverability history.now)) }
{
    let mut seen = DirtyReads {
        sources: Sources::new(alloc, history.len()),
        lasts: Table::new(alloc, history.len()),
        earlier: Links::new(alloc),
        writers: BTreeMap::new(alloc),
    };
    first_violation(&mut seen, history)
}

/// The dirty reads before a position: reads from another transaction that had not committed.
#[derive(Drop)]
struct DirtyReads {
    /// The write that the next operation reads from.
    sources: Sources,
    /// The position of a transaction's last dirty read.
    lasts: Table,
    /// For the position of a dirty read, that of its transaction's next earlier one.
    earlier: Links,
    /// For the position of a dirty read, the transaction that it reads from.
    writers: BTreeMap<usize, u32>,
}

impl DirtyReads {
    /// The read that makes the operation break recoverability.
    fn unrecoverable(&self, history: &[Operation], place: usize) -> Option<usize>
        requires within { place < length history.now }
        requires reads { KnowsDirtyReads history.now place self.now }
        ensures some { IfSome result (λ k. BreaksRecoverability history.now k place) }
        ensures none { IsNone result → (k : ℕ) → ¬ BreaksRecoverability history.now k place }
    {
        let operation = history[place];
        let Action::Commit = operation.action else {
            return None;
        };
        let mut read = self.lasts.find(operation.transaction);
        while let Some(dirty) = read {
            let Some(writer) = self.writers.get(&dirty) else {
                unreachable!()
            };
            if !self.sources.has_committed(*writer) {
                return read;
            }
            read = self.earlier.get(dirty);
        }
        None
    }

    /// Records the operation if it is a dirty read.
    fn note_read(&mut self, history: &[Operation], place: usize) -> Result<(), NoMemory>
        requires within { place < length history.now }
        requires reads { KnowsDirtyReads history.now place self.old }
        ensures sources { OnOk result (KnowsSources history.now place self.new.sources) }
        ensures reads { OnOk result (KeepsDirtyReads history.now (place + 1) self.new) }
    {
        let Some(write) = self.sources.uncommitted(history, place)? else {
            return Ok(());
        };
        let reader = history[place].transaction;
        self.writers.insert(place, history[write].transaction)?;
        put_on_top(&mut self.lasts, &mut self.earlier, reader, place)?;
        Ok(())
    }
}

impl Checker for DirtyReads {
    ghost breaks = { BreaksRecoverability };

    ghost knows = { KnowsDirtyReads };

    fn broken(&mut self, history: &[Operation], place: usize) -> Result<Option<usize>, NoMemory> {
        Ok(self.unrecoverable(history, place))
    }

    fn record(&mut self, history: &[Operation], place: usize) -> Result<(), NoMemory> {
        self.note_read(history, place)?;
        self.sources.record(history, place)
    }
}
