//! The calls that a worker makes for a job.
ghost use Rattle.std.specs.Prelude.{◌<◌, length, OnOk};

use crate::gate::{Gate, Pass};
use sgt_access::Accesses;
use sgt_audit::{Job, Outcome};
use sgt_graph::Graph;
use sgt_log::{EntryRef, StepKind};
use sgt_model::{Event, NoMemory, Tid};
use sgt_records::Records;
use sgt_session::{Named, Session, Shared};
use std::alloc::Global;
use std::sync::Wait;

/// The result of one attempt at a job.
#[derive(Drop)]
enum Attempt<X> {
    /// This transaction was aborted by a cycle or in cascade. The job may be tried again.
    Failed(Tid),
    /// The job has this outcome.
    Ended(Outcome<X>),
}

/// Why a worker stops during an attempt. Its transaction, if live, must be aborted.
#[derive(Drop)]
enum Halt<X> {
    /// The gate makes it leave.
    Leave(X),
    /// An allocation failed in a call.
    NoMemory,
    /// The reply is unexpected: no legal history has it there.
    Unexpected,
}

/// A worker got a reply that no legal history has there. The run fails.
#[derive(Drop)]
pub struct Unexpected;

impl<X> From<NoMemory> for Halt<X> {
    fn from(_: NoMemory) -> Self {
        Halt::NoMemory
    }
}

impl<X> Halt<X> {
    /// The result of the attempt, if it has one.
    fn into_attempt(self) -> Result<Attempt<X>, Unexpected> {
        match self {
            Halt::Leave(note) => Ok(Attempt::Ended(Outcome::Left(note))),
            Halt::NoMemory => Ok(Attempt::Ended(Outcome::NoMemory)),
            Halt::Unexpected => Err(Unexpected),
        }
    }
}

/// One worker's session, and the gate that is called before each call to it.
#[derive(Drop)]
pub struct Caller<'a, N: Named, R: Records, A: Accesses, G: Graph, T: Gate, W: Wait> {
    pub rt: &'a W,
    pub shared: &'a Shared<N, R, A, G>,
    pub gate: &'a T,
    pub number: u8,
    pub session: Session<N>,
}

impl<'a, N: Named, R: Records, A: Accesses, G: Graph, T: Gate, W: Wait> Caller<
    'a,
    N,
    R,
    A,
    G,
    T,
    W,
> {
    /// Tries the job until an attempt does not fail, at most this many times.
    pub fn run_job(
        &mut self,
        alloc: Global,
        job: &Job,
        tries: u32,
    ) -> Result<Outcome<T::Note>, Unexpected> {
        let mut attempts = Vec::new(alloc);
        for _ in 0..tries {
            match self.attempt(job)? {
                Attempt::Failed(t) => {
                    self.gate.failed(self.number, job.number, t);
                    if attempts.push(t).is_err() {
                        return Ok(Outcome::NoMemory);
                    }
                }
                Attempt::Ended(outcome) => return Ok(outcome),
            }
        }
        Ok(Outcome::Gave(attempts))
    }

    /// One attempt. Whatever its result, its transaction is no longer live.
    fn attempt(&mut self, job: &Job) -> Result<Attempt<T::Note>, Unexpected> {
        let start = Event::Start {
            procedure: job.procedure,
            args: job.args.copied(),
        };
        match self.call(&start) {
            Ok(()) => match self.session.last_entry().started() {
                Some(t) => self.attempt_with(t),
                None => {
                    let number = self.session.last_number();
                    Ok(Attempt::Ended(Outcome::Refused(number)))
                }
            },
            Err(halt) => halt.into_attempt(),
        }
    }

    /// The attempt with a transaction that was started for it.
    fn attempt_with(&mut self, t: Tid) -> Result<Attempt<T::Note>, Unexpected> {
        match self.run_transaction(t) {
            Ok(attempt) => Ok(attempt),
            Err(halt) => {
                // Its abort, so that no other waits for it. If it is live, this allocates nothing and succeeds. If it has
                // ended or was aborted in cascade, the reply says so, which is one entry more, or an allocation fails.
                let _ = self.session.make(self.rt, self.shared, &Event::Quit(t));
                halt.into_attempt()
            }
        }
    }

    /// Steps until the procedure ends, and commits. The gate allows each call. The last call's entry is the session's last.
    fn run_transaction(&mut self, t: Tid) -> Result<Attempt<T::Note>, Halt<T::Note>> {
        for _ in self.rt.forever() {
            self.pass()?;
            match self.session.make_step(self.rt, self.shared, t)? {
                StepKind::Access => {}
                StepKind::End => break,
                StepKind::Other => {
                    let entry = self.session.last_entry();
                    if !entry.is_access() {
                        return attempt_of(t, self.session.last_number(), &entry);
                    }
                }
            }
        }
        self.pass()?;
        self.session.make_commit(self.rt, self.shared, t)?;
        attempt_of(t, self.session.last_number(), &self.session.last_entry())
    }

    /// One call, if the gate allows it. Its entry is the session's last.
    fn call(&mut self, event: &Event) -> Result<(), Halt<T::Note>>
        ensures { OnOk result (0 < length self.new.session) }
    {
        self.pass()?;
        self.session.make(self.rt, self.shared, event)?;
        Ok(())
    }

    /// Calls the gate with the number of calls that the session has made, which is the number of its receipts.
    fn pass(&self) -> Result<(), Halt<T::Note>> {
        match self
            .gate
            .pass(self.number, self.session.receipts().len() as u64)
        {
            Pass::Go => Ok(()),
            Pass::Leave(note) => Err(Halt::Leave(note)),
        }
    }
}

/// The result of the attempt by the last entry of this transaction; the entry has this number.
fn attempt_of<X>(t: Tid, number: u64, entry: &EntryRef<'_>) -> Result<Attempt<X>, Halt<X>> {
    if entry.is_commit() {
        return Ok(Attempt::Ended(Outcome::Done(number)));
    }
    if entry.is_raised() {
        return Ok(Attempt::Ended(Outcome::Asked(number)));
    }
    if entry.is_by_cycle() || entry.reports_fall() {
        return Ok(Attempt::Failed(t));
    }
    Err(Halt::Unexpected)
}
