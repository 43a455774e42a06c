//! One pass over a history: a row for each transaction, how many entries end one, and how many are live.
ghost use Rattle.std.specs.Prelude.{◌≡◌, ◌↔◌, ℕ, ◌+◌, ◌<◌, ◌≤◌, ◌^◌, cond, IfOk, IfSome, IsSome, length, reverse};
ghost use Rattle.std.specs.List.{count_by};
ghost use Rattle.sgt_model.specs.declared.entry.Entry.{Entry};
ghost use Rattle.sgt_model.specs.Questions.{is_commit, is_quit};
ghost use Rattle.sgt_model.specs.Configurations.{Configuration};
ghost use Rattle.sgt_model.specs.Legality.{Legal};
ghost use Rattle.sgt_audit.specs.Lives.{AreLives};
ghost use Rattle.sgt_audit.specs.LiveCount.{count_started, count_ended};
ghost use Rattle.sgt_audit.specs.AllOutcomes.{FewLive, AllEnded};

use crate::lives::{Life, add_entry};
use sgt_log::{EntryRef, History};
use sgt_model::NoMemory;
use std::alloc::Global;

/// How many entries commit, and how many abort a transaction at the caller's request.
#[derive(Clone, Copy)]
pub struct Ends {
    pub commits: usize,
    pub quits: usize,
}

/// What one pass over a history finds.
#[derive(Drop)]
pub struct Survey {
    /// A row for each transaction, by its number.
    pub lives: Vec<Life>,
    /// How many entries end one.
    pub ends: Ends,
}

/// Makes one pass over the history. It returns none if after an entry more transactions are live than there are workers,
/// or some at the end. It reserves a row for each job.
///
/// `NoMemory` if an allocation failed.
pub fn make_survey(
    alloc: Global,
    history: &History,
    workers: u32,
    jobs: usize,
) -> Result<Option<Survey>, NoMemory>
    requires { (s : Configuration) × Legal s (reverse history.now.entries) }
    ensures few { IfOk result (λ found.
        IsSome found ↔ (FewLive history.now.entries workers × AllEnded history.now.entries)) }
    ensures lives { IfOk result (λ found. IfSome found (λ s. AreLives (reverse history.now.entries) s.lives.items)) }
    ensures commits { IfOk result (λ found. IfSome found (λ s.
        s.ends.commits ≡ count_by (λ (e : Entry). is_commit e.reply) history.now.entries)) }
    ensures quits { IfOk result (λ found. IfSome found (λ s.
        s.ends.quits ≡ count_by (λ (e : Entry). is_quit e.reply) history.now.entries)) }
{
    let mut lives = Vec::new(alloc);
    // Most jobs have one transaction. If this fails, the list grows as it needs.
    let _ = lives.reserve(jobs);
    let mut ends = Ends {
        commits: 0,
        quits: 0,
    };
    let mut live = 0;
    for place in 0..history.len() {
        // Most entries are steps that start and end nothing.
        if history.is_step(place) {
            continue;
        }
        let entry = history.entry(place);
        add_entry(&mut lives, place, &entry)?;
        live = live_after(live, &entry);
        if live > workers as usize {
            return Ok(None);
        }
        ends = ends.with(&entry);
    }
    if live > 0 {
        return Ok(None);
    }
    Ok(Some(Survey { lives, ends }))
}

impl Ends {
    /// The same with one entry more.
    fn with(self, entry: &EntryRef<'_>) -> Self
        requires { (self.commits + 1 < 2 ^ 64) × (self.quits + 1 < 2 ^ 64) }
        ensures commits { result.commits ≡ self.commits + cond (is_commit entry.now.reply) 1 0 }
        ensures quits { result.quits ≡ self.quits + cond (is_quit entry.now.reply) 1 0 }
    {
        if entry.is_ending() {
            return Ends {
                commits: self.commits + usize::from(entry.is_commit()),
                quits: self.quits + usize::from(entry.is_quit()),
            };
        }
        self
    }
}

/// How many are live after an entry.
fn live_after(live: usize, entry: &EntryRef<'_>) -> usize
    requires few { live < 2 ^ 32 }
    requires enough { count_ended entry.now.reply ≤ live }
    ensures { result + count_ended entry.now.reply ≡ live + count_started entry.now.reply }
{
    if entry.is_start() {
        return live + 1;
    }
    if entry.is_ending() {
        return live - 1 - entry.fell().len();
    }
    live
}
