//! The explanations of a run on a second sink: why transactions are aborted, commits wait and events are refused, and
//! which transactions are live at the end.
ghost use Rattle.std.specs.Prelude.{◌+◌, ◌^◌, ◌<◌};

use crate::coded::append_coded;
use crate::live_text::append_live;
use crate::observer::Observer;
use crate::pending::pending_by;
use crate::refused::append_refused;
use sgt_assembly::SgtEngine;
use sgt_explain::{IndexedHistory, Pending, Words, append_explanation, append_live_causes};
use sgt_input::{Lines, Sink, write_all};
use sgt_log::EntryRef;
use sgt_model::{Event, NoMemory};
use std::alloc::Global;
use std::marker::Model;

/// The line at the end if memory ran out for an explanation.
const LEFT_OUT: &[u8] = b"explanations are left out: no memory\n";

/// Writes to a sink why transactions are aborted, commits wait and events are refused, and which are live at the end.
/// Explanations are gathered, and written after the answers that they belong to. After a failed write it writes no more.
#[derive(Drop)]
pub(crate) struct Explainer<'a, E: Sink> {
    alloc: Global,
    errors: &'a mut E,
    /// What codes mean.
    words: &'a Words,
    /// Whether a write has failed.
    has_failed: bool,
    /// Whether memory ran out for an explanation.
    has_lost: bool,
    /// The entries since the last cut. If memory ran out for one, they end before it.
    history: IndexedHistory,
    /// Whether entries were cut off before these.
    is_after_cut: bool,
    /// The line number of each entry. If memory ran out for one, the list ends before it.
    lines: Vec<u64>,
    /// The access that the transaction of the newest event was about to make.
    pending: Option<Pending>,
    /// The explanations that are not yet written.
    text: Vec<u8>,
}

impl<'a, E: Sink> Model for Explainer<'a, E> {
    ghost use Rattle.std.specs.Prelude.{◌≡◌, ◌+◌, ◌<◌, ◌^◌, ℕ, false};

    ghost Value = { ℕ };

    ghost view = { λ e. E.failures e.errors.now };

    ghost invariant = { λ e. e.has_failed ≡ false → E.failures e.errors.now + 1 < 2 ^ 64 };
}

impl<'a, E: Sink> Explainer<'a, E> {
    /// An explainer that writes to this sink, with these words for codes.
    pub(crate) fn new(alloc: Global, errors: &'a mut E, words: &'a Words) -> Self
        requires { E.failures errors.old + 1 < 2 ^ 64 }
    {
        Explainer {
            alloc,
            errors,
            words,
            has_failed: false,
            has_lost: false,
            history: IndexedHistory::new(alloc),
            is_after_cut: false,
            lines: Vec::new(alloc),
            pending: None,
            text: Vec::new(alloc),
        }
    }

    /// Writes the remaining explanations when the run is over.
    pub(crate) fn finish(mut self) {
        self.write_out();
        let Explainer {
            errors,
            has_failed,
            has_lost,
            ..
        } = self;
        if has_lost && !has_failed {
            let _ = write_all(errors, LEFT_OUT);
        }
    }

    // Writes the gathered explanations.
    fn write_out(&mut self) {
        if !self.has_failed && write_all(self.errors, self.text.as_slice()).is_err() {
            self.has_failed = true;
        }
        self.text.clear();
    }

    // Records the newest entry, at this position, and its line, if all entries before it are recorded. The first entry
    // begins a new history: lines that are recorded by then belong to one that was cut off.
    fn note(&mut self, entry: &EntryRef<'_>, place: usize, line: u64) {
        if place == 0 {
            self.is_after_cut = self.is_after_cut || !self.lines.is_empty();
            self.history = IndexedHistory::new(self.alloc);
        }
        self.lines.truncate(place);
        if self.lines.len() == place {
            let _ = self.lines.push(line);
        }
        if self.history.len() == place {
            let _ = self.history.push(entry);
        }
    }

    // Appends for which live transactions the commit at a position waits, or on which of their values its code may
    // rest, and why it aborts transactions. `NoMemory` if an allocation fails, or failed for an entry.
    fn append_causes(&mut self, engine: &SgtEngine, place: usize) -> Result<(), NoMemory> {
        if self.history.len() <= place {
            return Err(NoMemory);
        }
        let lines = self.lines.as_slice();
        let live = engine.sched().live();
        let caused = append_live_causes(
            &mut self.text,
            &self.history,
            place,
            live.as_slice(),
            lines,
        );
        append_explanation(&mut self.text, &self.history, place, self.pending, lines)?;
        caused
    }
}

impl<E: Sink> Observer for Explainer<'_, E> {
    fn before(&mut self, engine: &SgtEngine, event: &Event) {
        self.pending = pending_by(engine, event);
    }

    fn answered(&mut self, engine: &SgtEngine, lines: &Lines) {
        let history = engine.history();
        let Some(place) = history.len().checked_sub(1) else {
            return;
        };
        let entry = history.entry(place);
        let line = lines.number();
        self.note(&entry, place, line);
        let coded = append_coded(&mut self.text, &entry, &self.history, self.words, line);
        let caused = if entry.is_wait() || (entry.is_ending() && !entry.is_commit()) {
            self.append_causes(engine, place)
        } else {
            Ok(())
        };
        let refused = append_refused(&mut self.text, engine, line, self.is_after_cut);
        if coded.is_err() || caused.is_err() || refused.is_err() {
            self.has_lost = true;
        }
    }

    fn written(&mut self, _lines: &Lines) {
        self.write_out();
    }

    fn ended(&mut self, engine: &SgtEngine) {
        if append_live(self.alloc, &mut self.text, engine.sched().live().as_slice()).is_err() {
            self.has_lost = true;
        }
    }
}
