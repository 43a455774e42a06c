//! Which job an entry belongs to.
ghost use Rattle.std.specs.Prelude.{◌≡◌, ◌↔◌, ℕ, IsTrue, Some, reverse};
ghost use Rattle.sgt_model.specs.Progress.{call_at};
ghost use Rattle.sgt_model.specs.Questions.{named_by};
ghost use Rattle.sgt_audit.specs.Lives.{AreLives};
ghost use Rattle.sgt_audit.specs.Outcomes.{call_for, IsOf};

use crate::attempts::is_of;
use crate::job::Job;
use crate::lives::Life;
use sgt_log::{EntryRef, History};

/// Whether the entry's event starts the job.
pub fn requests(entry: &EntryRef<'_>, job: &Job) -> bool
    ensures { IsTrue result ↔ (call_at entry.now.event ≡ Some (call_for job.now)) }
{
    entry.is_start_of(job.procedure, job.args.as_slice())
}

/// Whether the entry's event names a transaction of the job.
pub fn names_one_of(history: &History, entry: &EntryRef<'_>, lives: &[Life], job: &Job) -> bool
    ensures { AreLives (reverse history.now.entries) lives.now → (IsTrue result
        ↔ ((t : ℕ) × (named_by entry.now.event ≡ Some t) × IsOf (reverse history.now.entries) job.now t)) }
{
    match entry.named() {
        Some(t) => is_of(history, lives, job, t),
        None => false,
    }
}
