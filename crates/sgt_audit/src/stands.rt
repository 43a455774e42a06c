//! Whether each outcome is true of the history and its job.
ghost use Rattle.std.specs.Prelude.{◌≡◌, ◌↔◌, ℕ, IsTrue, Option, length, reverse};
ghost use Rattle.std.specs.List.{AllZip};
ghost use Rattle.sgt_audit.specs.Lives.{AreLives};
ghost use Rattle.sgt_model.specs.Questions.{is_commit, is_raised};
ghost use Rattle.sgt_audit.specs.Outcomes.{Ends, StartIsRefused, OutcomeStands};

use crate::attempts::gave_up;
use crate::events::{names_one_of, requests};
use crate::job::Job;
use crate::lives::Life;
use crate::outcome::Outcome;
use sgt_log::History;

/// Whether there is one outcome for each job, and each is true.
pub fn all_stand<N>(
    history: &History,
    lives: &[Life],
    jobs: &[Job],
    outcomes: &[Outcome<N>],
    tries: u32,
) -> bool
    requires { AreLives (reverse history.now.entries) lives.now }
    ensures { IsTrue result ↔ AllZip (OutcomeStands history.now.entries tries) jobs.now outcomes.now }
{
    if jobs.len() != outcomes.len() {
        return false;
    }
    for i in 0..jobs.len() {
        if !stands(history, lives, &jobs[i], &outcomes[i], tries) {
            return false;
        }
    }
    true
}

/// Whether an outcome is true.
fn stands<N>(history: &History, lives: &[Life], job: &Job, outcome: &Outcome<N>, tries: u32) -> bool
    requires { AreLives (reverse history.now.entries) lives.now }
    ensures { IsTrue result ↔ OutcomeStands history.now.entries tries job.now outcome.now }
{
    match outcome {
        Outcome::Done(n) => is_committed(history, lives, job, *n),
        Outcome::Asked(n) => is_asked(history, lives, job, *n),
        Outcome::Gave(attempts) => gave_up(history, lives, tries, job, attempts.as_slice()),
        Outcome::Refused(n) => is_refused(history, job, *n),
        Outcome::Left(_) | Outcome::Untaken | Outcome::NoMemory => true,
    }
}

/// Whether entry n committed a transaction of the job.
fn is_committed(history: &History, lives: &[Life], job: &Job, n: u64) -> bool
    requires { AreLives (reverse history.now.entries) lives.now }
    ensures { IsTrue result ↔ Ends is_commit history.now.entries job.now n }
{
    match history.get_entry(n as usize) {
        Some(entry) => entry.is_commit() && names_one_of(history, &entry, lives, job),
        None => false,
    }
}

/// Whether entry n aborted a transaction of the job with a code, at the step or at the commit.
fn is_asked(history: &History, lives: &[Life], job: &Job, n: u64) -> bool
    requires { AreLives (reverse history.now.entries) lives.now }
    ensures { IsTrue result ↔ Ends is_raised history.now.entries job.now n }
{
    match history.get_entry(n as usize) {
        Some(entry) => entry.is_raised() && names_one_of(history, &entry, lives, job),
        None => false,
    }
}

/// Whether entry n refused a start with the job's procedure and arguments.
fn is_refused(history: &History, job: &Job, n: u64) -> bool
    ensures { IsTrue result ↔ StartIsRefused history.now.entries job.now n }
{
    match history.get_entry(n as usize) {
        Some(entry) => entry.refuses_start() && requests(&entry, job),
        None => false,
    }
}
