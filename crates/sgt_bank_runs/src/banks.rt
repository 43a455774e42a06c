//! A bank, run as `sgt bank` does, and printed with its history. Each entry has the line that asks for it in a script
//! and the line of its reply. The report follows.
use crate::gates::Gates;
use sgt_access::{Accesses, PerKey};
use sgt_bank::{bank_of, read_input, report_text};
use sgt_format::{Opening, append_numbered, append_reply};
use sgt_graph::{BitGraph, Graph};
use sgt_input::{DEFAULT_BYTES, Reader};
use sgt_log::History;
use sgt_model::{Event, Key, Request, Tid};
use sgt_records::{Records, SlabRecords};
use sgt_workers::{Job, PoolError, Report, run};
use std::alloc::{AllocError, Global};
use std::io;
use std::io::{ErrorKind, Input, Print, Write};
use std::sync::Wait;
use std::thread::Threads;

/// The number of workers that run jobs, and how often each job is tried.
#[derive(Clone, Copy)]
pub struct Pool {
    pub workers: u32,
    pub tries: u32,
}

/// Runs the jobs on an engine with this initial database, over these implementations of the layers.
pub fn run_bank<R: Records, A: Accesses, G: Graph, W: Threads + Wait + Sync>(
    rt: &W,
    alloc: Global,
    opening: Opening,
    jobs: &[Job],
    pool: Pool,
    gates: &Gates,
) -> Result<Report<u64>, PoolError> {
    let Ok(bank) = bank_of(alloc, opening) else {
        return Err(PoolError::NoMemory);
    };
    run::<R, A, G, Gates, W>(rt, alloc, bank, jobs, pool.workers, pool.tries, gates)
}

/// Runs the bank of standard input, and prints it. If it has no report it prints why, in a line that starts with `no
/// report`.
pub fn run_input_bank<W: Print + Input + Threads + Wait + Sync>(
    rt: &W,
    alloc: Global,
    pool: Pool,
    gates: &Gates,
) -> io::Result<()> {
    let mut reader = Reader::new(rt.reader());
    match read_input(alloc, &mut reader, pool.workers, DEFAULT_BYTES, &mut None) {
        Ok((opening, jobs)) => print_bank(rt, alloc, opening, jobs.as_slice(), pool, gates),
        Err(_) => Err(io::Error::from(ErrorKind::InvalidInput)),
    }
}

fn print_bank<W: Print + Threads + Wait + Sync>(
    rt: &W,
    alloc: Global,
    opening: Opening,
    jobs: &[Job],
    pool: Pool,
    gates: &Gates,
) -> io::Result<()> {
    match run_bank::<SlabRecords, PerKey, BitGraph, W>(rt, alloc, opening, jobs, pool, gates) {
        Ok(report) => write(rt, alloc, &report),
        Err(error) => println!(rt; "no report: {error}"),
    }
}

/// Writes the history and the report.
fn write<W: Print>(rt: &W, alloc: Global, report: &Report<u64>) -> io::Result<()> {
    let text = text(alloc, report)?;
    io::writer(rt).write_all(text.as_slice())
}

/// The lines of the history, followed by the report.
fn text(alloc: Global, report: &Report<u64>) -> io::Result<Vec<u8>> {
    let outcomes = report.outcomes.as_slice();
    if outcomes.len() > 1_000_000 {
        return Err(io::Error::from(ErrorKind::InvalidData));
    }
    let mut text = lines(alloc, &report.history)?;
    let Ok(outcomes_text) = report_text(alloc, &report.history, outcomes, &report.database) else {
        return Err(io::Error::from(ErrorKind::OutOfMemory));
    };
    text.extend_from_slice(outcomes_text.as_slice())?;
    Ok(text)
}

/// The lines of all entries, each followed by that of its reply.
fn lines(alloc: Global, history: &History) -> io::Result<Vec<u8>> {
    let mut text = Vec::new(alloc);
    for place in 0..history.len() {
        let entry = history.at(place);
        append_event(&mut text, &entry.event)?;
        if append_reply(&mut text, &entry.reply).is_err() {
            return Err(io::Error::from(ErrorKind::OutOfMemory));
        }
    }
    Ok(text)
}

/// Adds the line that asks for an event.
fn append_event(text: &mut Vec<u8>, event: &Event) -> Result<(), AllocError> {
    match event {
        Event::Start { procedure, args } => append_start(text, *procedure, args.as_slice()),
        Event::Step(t) => append_call(text, "[\"step\",", *t),
        Event::Access(t, request) => append_access(text, *t, request),
        Event::Commit(t) => append_call(text, "[\"commit\",", *t),
        Event::Quit(t) => append_call(text, "[\"quit\",", *t),
    }
}

/// Adds the line of a call of this transaction, which starts with these words.
fn append_call(text: &mut Vec<u8>, words: &str, t: Tid) -> Result<(), AllocError> {
    append_numbered(text, words.as_bytes(), t.0)?;
    text.extend_from_slice(b"]\n")
}

/// Adds the line of an access on which a caller decides.
fn append_access(text: &mut Vec<u8>, t: Tid, request: &Request) -> Result<(), AllocError> {
    match request {
        Request::Read(key) => append_keyed(text, "[\"read\",", t, key)?,
        Request::Write(key, None) => append_keyed(text, "[\"remove\",", t, key)?,
        Request::Write(key, Some(value)) => {
            append_keyed(text, "[\"write\",", t, key)?;
            append_numbered(text, b",", *value)?;
        }
    }
    text.extend_from_slice(b"]\n")
}

/// Adds the beginning of such a line: these words, the transaction and the record.
fn append_keyed(text: &mut Vec<u8>, words: &str, t: Tid, key: &Key) -> Result<(), AllocError> {
    append_numbered(text, words.as_bytes(), t.0)?;
    append_numbered(text, b",", key.table())?;
    append_numbered(text, b",", key.id())
}

/// Adds the line of a start. Commas separate its numbers.
fn append_start(text: &mut Vec<u8>, procedure: u16, args: &[i64]) -> Result<(), AllocError> {
    append_numbered(text, b"[\"start\",", procedure)?;
    let mut before = ",[";
    for number in args {
        append_numbered(text, before.as_bytes(), *number)?;
        before = ",";
    }
    let end = if args.is_empty() { ",[]]\n" } else { "]]\n" };
    text.extend_from_slice(end.as_bytes())
}
