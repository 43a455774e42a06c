//! The report of the jobs that were aborted, refused or tried more than once.
use crate::codes::{Coded, append_codes};
use crate::watch::{FailedTry, Seen};
use sgt_explain::{Words, append_code, append_refusal, refusal_of};
use sgt_format::append_numbered;
use sgt_log::{EntryRef, History};
use sgt_model::{Cause, EMPTY_PROCEDURE, Entry, Event, NoMemory, Reply, Tid};
use sgt_workers::{Outcome, Report};
use std::alloc::{AllocError, Global};
use std::convert::Infallible;

/// How a transaction ended.
#[derive(Clone, Copy)]
enum End {
    /// Neither by a cycle nor with another one.
    Own,
    /// The entry of this number aborted it, by a cycle.
    ByCycle(usize),
    /// It was aborted in cascade with this one.
    With(Tid),
}

/// What is known of a transaction: its procedure, how it ended, and the job that it was a try of.
#[derive(Clone, Copy)]
struct Known {
    procedure: u16,
    end: End,
    job: Option<usize>,
}

/// A run of jobs, and what is known of it.
#[derive(Clone, Copy)]
struct Run<'a> {
    history: &'a History,
    /// What is known of each transaction, by transaction number.
    known: &'a [Known],
    /// What codes mean.
    words: &'a Words,
    /// How many arguments each procedure of line 1 takes, as far as this is known.
    takes: &'a [u8],
}

/// How many jobs ended in each way, and how many tries were made.
#[derive(Clone, Copy, Default)]
struct Tally {
    committed: usize,
    requested: usize,
    gave: usize,
    refused: usize,
    failed: usize,
    tries: usize,
}

/// A line for each job that did not commit at its first try, by number, and a summary. An example is
/// `job 2: committed at try 3; try 1: cycle with job 3, 4; try 2: aborted in cascade with job 7`. Before the
/// summary comes a line for each code.
///
/// `NoMemory` if an allocation failed, or failed for a try during the run.
pub(crate) fn tries_text(
    alloc: Global,
    seen: Seen,
    report: &Report<Infallible>,
    words: &Words,
) -> Result<Vec<u8>, NoMemory> {
    let mut seen = seen;
    if seen.has_lost {
        return Err(NoMemory);
    }
    seen.failed.sort_by_key(|failed| failed.job)?;
    let known = known_of(alloc, report, seen.failed.as_slice())?;
    let run = Run {
        history: &report.history,
        known: known.as_slice(),
        words,
        takes: seen.takes.as_slice(),
    };
    let mut text = Vec::new(alloc);
    let mut tally = Tally::default();
    let mut codes = Vec::new(alloc);
    let mut rest = seen.failed.as_slice();
    for (job, outcome) in report.outcomes.iter().enumerate() {
        let (own, others) = split_job(rest, job);
        tally.count(outcome, own.len());
        let coded = run.coded_of(outcome);
        if let Some(coded) = coded {
            codes.push(coded)?;
        }
        run.append_job(&mut text, job, own, outcome, coded)?;
        rest = others;
    }
    append_codes(&mut text, words, &mut codes)?;
    tally.append(&mut text, report.outcomes.len())?;
    Ok(text)
}

impl Tally {
    // Counts a job, with its number of failed tries.
    fn count(&mut self, outcome: &Outcome<Infallible>, failed: usize) {
        match outcome {
            Outcome::Done(_) => self.committed = self.committed.saturating_add(1),
            Outcome::Asked(_) => self.requested = self.requested.saturating_add(1),
            Outcome::Gave(_) => self.gave = self.gave.saturating_add(1),
            Outcome::Refused(_) => self.refused = self.refused.saturating_add(1),
            _ => self.failed = self.failed.saturating_add(1),
        }
        let last = usize::from(matches!(outcome, Outcome::Done(_) | Outcome::Asked(_)));
        self.tries = self.tries.saturating_add(failed).saturating_add(last);
    }

    // Appends what was counted of the jobs, in one line.
    fn append(&self, text: &mut Vec<u8>, jobs: usize) -> Result<(), AllocError> {
        append_numbered(text, b"", jobs)?;
        text.extend_from_slice(if jobs == 1 { b" job" } else { b" jobs" })?;
        append_numbered(text, b": ", self.committed)?;
        append_numbered(text, b" committed, ", self.requested)?;
        append_numbered(text, b" aborted with a code, ", self.gave)?;
        append_numbered(text, b" given up, ", self.refused)?;
        append_numbered(text, b" refused, ", self.failed)?;
        append_numbered(text, b" without memory; ", self.tries)?;
        text.extend_from_slice(if self.tries == 1 {
            b" try\n"
        } else {
            b" tries\n"
        })
    }
}

// What is known of each transaction, by transaction number.
fn known_of(
    alloc: Global,
    report: &Report<Infallible>,
    failed: &[FailedTry],
) -> Result<Vec<Known>, NoMemory> {
    let mut known = Vec::new(alloc);
    for place in 0..report.history.len() {
        let entry = report.history.entry(place);
        if entry.started().is_some() {
            known.push(Known {
                procedure: procedure_of(&entry.event()),
                end: End::Own,
                job: None,
            })?;
        }
        note_ends(known.as_mut_slice(), place, &entry);
    }
    for failed in failed {
        put_job(known.as_mut_slice(), failed.tid, failed.job as usize);
    }
    for (job, outcome) in report.outcomes.iter().enumerate() {
        if let Some(t) = last_transaction(&report.history, outcome) {
            put_job(known.as_mut_slice(), t, job);
        }
    }
    Ok(known)
}

// The procedure that the event starts.
fn procedure_of(event: &Event) -> u16 {
    match event {
        Event::Start { procedure, .. } => *procedure,
        _ => u16::MAX,
    }
}

// Records which transactions the entry at a position aborts.
fn note_ends(known: &mut [Known], place: usize, entry: &EntryRef<'_>) {
    let Some(t) = entry.named() else {
        return;
    };
    if entry.is_by_cycle() {
        put_end(known, t, End::ByCycle(place));
    }
    for fallen in entry.fell() {
        put_end(known, *fallen, End::With(t));
    }
}

fn put_end(known: &mut [Known], t: Tid, end: End) {
    if let Some(kept) = known.get_mut(t.0 as usize) {
        kept.end = end;
    }
}

fn put_job(known: &mut [Known], t: Tid, job: usize) {
    if let Some(kept) = known.get_mut(t.0 as usize) {
        kept.job = Some(job);
    }
}

// The attempts at the job, which come first, and the others.
fn split_job(failed: &[FailedTry], job: usize) -> (&[FailedTry], &[FailedTry]) {
    for place in 0..failed.len() {
        if failed[place].job as usize != job {
            return failed.split_at(place);
        }
    }
    (failed, &[])
}

// The transaction of the attempt that did not fail, if the outcome names one.
fn last_transaction(history: &History, outcome: &Outcome<Infallible>) -> Option<Tid> {
    match outcome {
        Outcome::Done(number) | Outcome::Asked(number) => {
            history.get_entry(*number as usize)?.named()
        }
        _ => None,
    }
}

// The code with which a reply aborts its transaction, if it does.
fn code_in(reply: &Reply) -> Option<u16> {
    match reply {
        Reply::Aborted {
            cause: Cause::Asked(code),
            ..
        }
        | Reply::Refused { code, .. } => Some(*code),
        _ => None,
    }
}

impl Run<'_> {
    // The code with which a job's procedure aborted, if it did.
    fn coded_of(&self, outcome: &Outcome<Infallible>) -> Option<Coded> {
        let Outcome::Asked(number) = outcome else {
            return None;
        };
        let entry = self.history.get_entry(*number as usize)?;
        let known = self.known.get(entry.named()?.0 as usize)?;
        Some(Coded {
            procedure: known.procedure,
            code: code_in(&entry.reply())?,
        })
    }

    // Appends the line of a job, if it did not commit at its first try.
    fn append_job(
        &self,
        text: &mut Vec<u8>,
        job: usize,
        failed: &[FailedTry],
        outcome: &Outcome<Infallible>,
        coded: Option<Coded>,
    ) -> Result<(), NoMemory> {
        if failed.is_empty() && matches!(outcome, Outcome::Done(_)) {
            return Ok(());
        }
        append_numbered(text, b"job ", job)?;
        match coded {
            Some(coded) => {
                text.extend_from_slice(b": aborted with ")?;
                append_code(text, self.words, coded.procedure, coded.code)?;
                append_numbered(text, b" at try ", failed.len().saturating_add(1))?;
            }
            None => self.append_outcome(text, failed.len(), outcome)?,
        }
        for (index, failed) in failed.iter().enumerate() {
            append_numbered(text, b"; try ", index.saturating_add(1))?;
            self.append_end(text, failed.tid)?;
        }
        text.extend_from_slice(b"\n")?;
        Ok(())
    }

    // Appends how the job ended without a code, after its failed tries.
    fn append_outcome(
        &self,
        text: &mut Vec<u8>,
        failed: usize,
        outcome: &Outcome<Infallible>,
    ) -> Result<(), NoMemory> {
        match outcome {
            Outcome::Done(_) => append_numbered(
                text,
                b": committed at try ",
                failed.saturating_add(1),
            )?,
            Outcome::Gave(_) => append_numbered(text, b": given up at try ", failed)?,
            Outcome::Refused(number) => {
                text.extend_from_slice(b": refused: ")?;
                self.append_refused(text, *number)?;
            }
            _ => text.extend_from_slice(b": no memory")?,
        }
        Ok(())
    }

    // Appends why the entry at a position refuses a start.
    fn append_refused(&self, text: &mut Vec<u8>, number: u64) -> Result<(), NoMemory> {
        let Some(Entry { event, reply }) = self.history.get(number as usize) else {
            return Ok(());
        };
        match refusal_of(&event, &reply, taken_by(&event, self.takes)) {
            Some(refusal) => append_refusal(text, &refusal),
            None => Ok(()),
        }
    }

    // Appends which jobs aborted the transaction of a failed try.
    fn append_end(&self, text: &mut Vec<u8>, t: Tid) -> Result<(), AllocError> {
        let Some(known) = self.known.get(t.0 as usize) else {
            return Ok(());
        };
        match known.end {
            End::With(other) => {
                text.extend_from_slice(b": aborted in cascade with")?;
                self.append_owner(text, b" job ", other)
            }
            End::ByCycle(place) => self.append_cycle(text, t, place),
            End::Own => Ok(()),
        }
    }

    // Appends the others of the cycle by which the entry at a position aborts the transaction.
    fn append_cycle(&self, text: &mut Vec<u8>, t: Tid, place: usize) -> Result<(), AllocError> {
        let Some(entry) = self.history.get_entry(place) else {
            return Ok(());
        };
        text.extend_from_slice(b": cycle with")?;
        let mut words: &'static [u8] = b" job ";
        for other in entry.cycle() {
            if *other != t {
                self.append_owner(text, words, *other)?;
                words = b", ";
            }
        }
        Ok(())
    }

    // Appends these words and the job that the transaction was a try of.
    fn append_owner(
        &self,
        text: &mut Vec<u8>,
        words: &'static [u8],
        t: Tid,
    ) -> Result<(), AllocError> {
        match self.known.get(t.0 as usize) {
            Some(Known { job: Some(job), .. }) => append_numbered(text, words, *job),
            _ => text.extend_from_slice(b" another"),
        }
    }
}

/// How many arguments SmallBank's procedures take, by number.
const TAKES: [u8; 5] = [1, 2, 2, 2, 2];

// How many arguments the procedure takes that the event starts, if that is known. `takes` has those of line 1.
fn taken_by(event: &Event, takes: &[u8]) -> Option<u8> {
    match event {
        Event::Start { procedure, .. } if *procedure == EMPTY_PROCEDURE => Some(0),
        Event::Start { procedure, .. } => {
            let number = usize::from(*procedure);
            match number.checked_sub(TAKES.len()) {
                Some(own) => takes.get(own).copied(),
                None => TAKES.get(number).copied(),
            }
        }
        _ => None,
    }
}
