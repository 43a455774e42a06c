//! Which transactions belong to a job, and how its failed attempts ended.
ghost use Rattle.std.specs.Prelude.{◌≡◌, ◌↔◌, ℕ, ◌+◌, ◌<◌, IsTrue, Some, List, length, reverse, slice_index};
ghost use Rattle.std.specs.List.{All};
ghost use Rattle.sgt_model.specs.declared.entry.Entry.{Entry};
ghost use Rattle.sgt_audit.specs.Lives.{AreLives, call_started};
ghost use Rattle.sgt_audit.specs.Spans.{EndsBefore};
ghost use Rattle.sgt_audit.specs.Outcomes.{call_for, IsOf, IsFailed, GaveUp};

use crate::events::requests;
use crate::job::Job;
use crate::lives::Life;
use sgt_log::History;
use sgt_model::Tid;

/// Whether the transaction belongs to the job.
pub fn is_of(history: &History, lives: &[Life], job: &Job, t: Tid) -> bool
    ensures { AreLives (reverse history.now.entries) lives.now
        → (IsTrue result ↔ IsOf (reverse history.now.entries) job.now t) }
{
    match lives.get(t.0 as usize) {
        Some(life) => is_started_for(history, life, job),
        None => false,
    }
}

/// Whether the entry that started a transaction has the job's procedure and arguments.
fn is_started_for(history: &History, life: &Life, job: &Job) -> bool
    ensures { IsTrue result ↔ (call_started history.now.entries life.now.started ≡ Some (call_for job.now)) }
{
    match history.get_entry(life.started) {
        Some(entry) => requests(&entry, job),
        None => false,
    }
}

/// Whether the attempts are as many as the job may have, each failed, one after another.
pub fn gave_up(history: &History, lives: &[Life], tries: u32, job: &Job, attempts: &[Tid]) -> bool
    ensures { AreLives (reverse history.now.entries) lives.now
        → (IsTrue result ↔ GaveUp (reverse history.now.entries) tries job.now attempts.now) }
{
    attempts.len() == tries as usize
        && all_failed(history, lives, job, attempts)
        && are_in_turn(lives, attempts)
}

/// Whether each is a transaction of the job that was aborted by a cycle or in cascade.
fn all_failed(history: &History, lives: &[Life], job: &Job, attempts: &[Tid]) -> bool
    ensures { AreLives (reverse history.now.entries) lives.now
        → (IsTrue result ↔ All (IsFailed (reverse history.now.entries) job.now) attempts.now) }
{
    for t in attempts {
        if !is_failed(history, lives, job, *t) {
            return false;
        }
    }
    true
}

/// Whether it is a transaction of the job that was aborted by a cycle or in cascade.
fn is_failed(history: &History, lives: &[Life], job: &Job, t: Tid) -> bool
    ensures { AreLives (reverse history.now.entries) lives.now
        → (IsTrue result ↔ IsFailed (reverse history.now.entries) job.now t) }
{
    match lives.get(t.0 as usize) {
        Some(life) => life.failed && is_started_for(history, life, job),
        None => false,
    }
}

/// Whether each but the first was started after the previous one had ended.
fn are_in_turn(lives: &[Life], attempts: &[Tid]) -> bool
    ensures { (past : List Entry) → AreLives past lives.now
        → (IsTrue result ↔ ((k : ℕ) → k + 1 < length attempts.now
        → EndsBefore past (slice_index attempts.now k) (slice_index attempts.now (k + 1)))) }
{
    for k in 1..attempts.len() {
        if !follows(lives, attempts[k - 1], attempts[k]) {
            return false;
        }
    }
    true
}

/// Whether the second was started after the first had ended.
fn follows(lives: &[Life], first: Tid, second: Tid) -> bool
    ensures { (past : List Entry) → AreLives past lives.now → (IsTrue result ↔ EndsBefore past first second) }
{
    let Some(first) = lives.get(first.0 as usize) else {
        return false;
    };
    let Some(second) = lives.get(second.0 as usize) else {
        return false;
    };
    match first.ended {
        Some(ended) => ended < second.started,
        None => false,
    }
}
