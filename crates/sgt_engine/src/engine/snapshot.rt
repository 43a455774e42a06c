//! The committed database, kept for callers that read it page by page.
ghost use Rattle.std.specs.Prelude.{◌≡◌, [], IfSome, IsSome};
ghost use Rattle.sgt_model.specs.Contents.{Key};
ghost use Rattle.sgt_model.specs.Databases.{contents_of, IsByKey};
ghost use Rattle.sgt_model.specs.Replay.{folded};
ghost use Rattle.sgt_model.specs.Values.{settled};
ghost use Rattle.sgt_engine.specs.EngineView.{configuration_of};

use crate::engine::Engine;
use sgt_access::Accesses;
use sgt_graph::Graph;
use sgt_model::{Database, Key, replay_is_serial};
use sgt_records::Records;

/// A committed database, with the number of entries that the history had then.
#[derive(Drop)]
pub struct Snapshot {
    pub database: Database,
    pub entries: usize,
}

impl<R: Records, A: Accesses, G: Graph> Engine<R, A, G> {
    /// The rows of the committed database, if it need not be made: the initial one while the history is empty, and else the
    /// one that was kept since the newest event.
    pub fn rows_at_hand(&self) -> Option<&[(Key, i64)]>
        ensures values { IfSome result (λ rows. (k : Key) →
            contents_of rows.now k ≡ settled (contents_of self.now.opening) self.now.past k) }
        ensures replayed { IfSome result (λ rows. (k : Key) →
            contents_of rows.now k ≡ (folded (configuration_of self.now) self.now.past).last k) }
        ensures by_key { IfSome result (λ rows. IsByKey rows.now) }
        ensures at_start { self.now.past ≡ [] → IsSome result }
    {
        replay_is_serial();
        if self.is_new() {
            return Some(self.opening());
        }
        match &self.snapshot {
            Some(kept) if kept.entries == self.history.len() => Some(kept.database.rows()),
            _ => None,
        }
    }

    /// Keeps the committed database for `rows_at_hand`, which lends it until the next event. Its memory is freed by the next
    /// `keep`, `cut` or `put`. Nothing else changes.
    pub fn keep(&mut self, database: Database)
        requires { (k : Key) → contents_of database k ≡ settled (contents_of self.old.opening) self.old.past k }
        ensures { self.new ≡ self.old }
    {
        let entries = self.history.len();
        self.snapshot = Some(Snapshot { database, entries });
    }
}
