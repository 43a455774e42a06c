//! The results of runs of jobs, as text.
use crate::accounts::{ACCOUNTS, checking};
use crate::crowd::run_compared;
use sgt_format::reply_line;
use sgt_log::History;
use sgt_model::{Limits, Reply};
use sgt_workers::{Job, Outcome, Report};
use std::alloc::Global;
use std::io::{ErrorKind, Print, Write};
use std::sync::Wait;
use std::thread::Threads;
use std::{fmt, io};

/// The number of jobs of each outcome.
#[derive(Clone, Copy)]
struct Counts {
    done: u32,
    asked: u32,
    given_up: u32,
    /// The attempts at the jobs that gave up.
    attempts: usize,
    refused: u32,
    left: u32,
    untaken: u32,
}

impl Counts {
    /// The counts of the outcomes.
    fn of(outcomes: &[Outcome<u64>]) -> Self {
        let mut counts = Counts {
            done: 0,
            asked: 0,
            given_up: 0,
            attempts: 0,
            refused: 0,
            left: 0,
            untaken: 0,
        };
        for outcome in outcomes {
            counts.note(outcome);
        }
        counts
    }

    /// Counts an outcome.
    fn note(&mut self, outcome: &Outcome<u64>) {
        match outcome {
            Outcome::Done(_) => self.done = self.done.saturating_add(1),
            Outcome::Asked(_) => self.asked = self.asked.saturating_add(1),
            Outcome::Gave(attempts) => {
                self.given_up = self.given_up.saturating_add(1);
                self.attempts = self.attempts.saturating_add(attempts.len());
            }
            Outcome::Refused(_) => self.refused = self.refused.saturating_add(1),
            Outcome::Left(_) => self.left = self.left.saturating_add(1),
            Outcome::Untaken => self.untaken = self.untaken.saturating_add(1),
            Outcome::NoMemory => {}
        }
    }
}

impl fmt::Display for Counts {
    fn fmt<W: fmt::Write>(&self, f: &mut fmt::Formatter<W>) -> fmt::Result {
        write!(
            f,
            "done {}, asked {}, given up {} after {} attempts, refused {}, left {}, not taken {}",
            self.done,
            self.asked,
            self.given_up,
            self.attempts,
            self.refused,
            self.left,
            self.untaken
        )
    }
}

/// The printed part of a report.
#[derive(Clone, Copy)]
pub enum Printed<'a> {
    /// That there is one.
    Report,
    /// The number of jobs of each outcome.
    Counts,
    /// The same, after the transactions of the entries.
    Order,
    /// The outcomes and the last reply.
    Leaver,
    /// The number of jobs of each outcome, the size of the history, and its aborts.
    Aborts,
    /// Whether these jobs have the same result by one worker.
    Compared { limits: Limits, jobs: &'a [Job] },
}

/// Prints this part of a report.
pub fn print_report<W: Threads + Wait + Sync + Print>(
    rt: &W,
    alloc: Global,
    report: &Report<u64>,
    printed: Printed<'_>,
) -> io::Result<()> {
    match printed {
        Printed::Report => println!(rt; "a report"),
        Printed::Counts => print_counts(rt, report),
        Printed::Order => print_ordered(rt, report),
        Printed::Leaver => print_leaver(rt, alloc, report),
        Printed::Aborts => print_deposits(rt, alloc, report),
        Printed::Compared { limits, jobs } => run_compared(rt, alloc, limits, jobs, report),
    }
}

/// Prints the transactions of the entries, and the number of jobs of each outcome.
fn print_ordered<W: Print>(rt: &W, report: &Report<u64>) -> io::Result<()> {
    print_order(rt, &report.history)?;
    print_counts(rt, report)
}

/// Prints the result of a run of deposits, and the end of its history.
fn print_deposits<W: Print>(rt: &W, alloc: Global, report: &Report<u64>) -> io::Result<()> {
    print_counts(rt, report)?;
    print_size(rt, report)?;
    print_aborts(rt, alloc, &report.history)
}

/// Prints the outcomes, the size of the history, and its last reply.
fn print_leaver<W: Print>(rt: &W, alloc: Global, report: &Report<u64>) -> io::Result<()> {
    for outcome in &report.outcomes {
        print!(rt; "{outcome:?}, ")?;
    }
    print_size(rt, report)?;
    match report.history.last_reply() {
        Some(reply) => print_reply(rt, alloc, &reply),
        None => Ok(()),
    }
}

/// Prints the number of jobs of each outcome, and what all customers have on their checking accounts.
fn print_counts<W: Print>(rt: &W, report: &Report<u64>) -> io::Result<()> {
    let counts = Counts::of(report.outcomes.as_slice());
    print!(rt; "{counts}; checking")?;
    for name in 1..=ACCOUNTS {
        print!(rt; " {}", checking(&report.database, name))?;
    }
    println!(rt)
}

/// Prints the number of entries of the history, and whether the database is the initial one.
fn print_size<W: Print>(rt: &W, report: &Report<u64>) -> io::Result<()> {
    let is_as_opened = report.database.rows() == report.opening.rows();
    println!(rt;
        "{} entries, as opened: {is_as_opened}",
        report.history.len()
    )
}

/// Prints a reply, on a line of its own.
fn print_reply<W: Print>(rt: &W, alloc: Global, reply: &Reply) -> io::Result<()> {
    match reply_line(alloc, reply) {
        Ok(line) => io::writer(rt).write_all(line.as_slice()),
        Err(_) => Err(io::Error::from(ErrorKind::OutOfMemory)),
    }
}

/// Prints the aborts of a history, each on a line.
fn print_aborts<W: Print>(rt: &W, alloc: Global, history: &History) -> io::Result<()> {
    for place in 0..history.len() {
        let reply = history.reply_at(place);
        if matches!(reply, Reply::Aborted { .. }) {
            print_reply(rt, alloc, &reply)?;
        }
    }
    Ok(())
}

/// Prints the transactions of the entries.
fn print_order<W: Print>(rt: &W, history: &History) -> io::Result<()> {
    print!(rt; "entries of")?;
    for place in 0..history.len() {
        let entry = history.entry(place);
        match entry.started().or(entry.named()) {
            Some(t) => print!(rt; " {}", t.0)?,
            None => print!(rt; " none")?,
        }
    }
    println!(rt)
}
