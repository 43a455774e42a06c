//! Gates that block workers or make them leave, by a plan.
use sgt_workers::{Gate, Outcome, Pass};
use std::sync::atomic::{AtomicU64, AtomicUsize, Ordering};
use std::thread;

/// How often a worker checks whether it may go on.
const TURNS: u32 = 10_000_000;

/// Which workers are blocked, and which leave.
#[derive(Clone, Copy)]
pub enum Plan {
    /// Every worker goes on.
    Open,
    /// Worker 1 waits before its first call until worker 0 has made 2. Worker 0 then waits until worker 1 has finished
    /// a job.
    SecondFirst,
    /// Both workers wait before their fifth call until both have made 4. Worker 1 then waits until worker 0 has made 5.
    BothRead,
    /// A worker that has made this many calls leaves.
    LeavesAt(u64),
    /// This many workers follow worker 0. Each starts once the previous one has made 4 calls. After 4 calls of its own
    /// it waits until the job of worker 0 is finished. Worker 0 leaves at 4 calls, once all of them have made 4.
    DeepFall(u64),
    /// Every worker goes on. One that is notified of a finished job waits in that call until this many are finished. So
    /// no lock may be held during the notification.
    FinishTogether(u64),
    /// Workers leave at random: before one call of `odds`, by the seed, the worker and its number of calls. Before each
    /// call a worker yields to others, so that many transactions are live at once. With odds of 0 every worker goes on.
    Random { seed: u32, odds: u32 },
}

/// The number of jobs, from 0 on, for which a gate records its notifications.
const NOTED: usize = 6;

/// The outcome of a job, as a gate was notified.
#[derive(Clone, Copy, Debug, PartialEq, Eq)]
pub enum Finish {
    Done,
    Asked,
    Gave,
    Refused,
    Left,
    Untaken,
    NoMemory,
}

const FINISHES: [Finish; 7] = [
    Finish::Done,
    Finish::Asked,
    Finish::Gave,
    Finish::Refused,
    Finish::Left,
    Finish::Untaken,
    Finish::NoMemory,
];

impl Finish {
    /// The recorded form of a job with this outcome.
    fn of<N>(outcome: &Outcome<N>) -> Self {
        match outcome {
            Outcome::Done(_) => Finish::Done,
            Outcome::Asked(_) => Finish::Asked,
            Outcome::Gave(_) => Finish::Gave,
            Outcome::Refused(_) => Finish::Refused,
            Outcome::Left(_) => Finish::Left,
            Outcome::Untaken => Finish::Untaken,
            Outcome::NoMemory => Finish::NoMemory,
        }
    }
}

/// A gate's notifications of one job: how many, and of the last the worker and the outcome.
#[derive(Drop)]
struct Note {
    count: AtomicU64,
    worker: AtomicU64,
    finish: AtomicUsize,
}

impl Note {
    /// No notification yet.
    fn none() -> Self {
        Note {
            count: AtomicU64::new(0),
            worker: AtomicU64::new(0),
            finish: AtomicUsize::new(0),
        }
    }
}

/// The gate of a plan, and its notifications.
#[derive(Drop)]
pub struct Gates {
    plan: Plan,
    calls_of_first: AtomicU64,
    calls_of_second: AtomicU64,
    /// How many workers have made 4 calls.
    arrived: AtomicU64,
    finished: AtomicU64,
    notes: [Note; NOTED],
    /// How many waited in vain in the notification of a finished job.
    vain: AtomicU64,
}

impl Gates {
    /// No call made and no job finished.
    pub fn new(plan: Plan) -> Self {
        Gates {
            plan,
            calls_of_first: AtomicU64::new(0),
            calls_of_second: AtomicU64::new(0),
            arrived: AtomicU64::new(0),
            finished: AtomicU64::new(0),
            notes: [
                Note::none(),
                Note::none(),
                Note::none(),
                Note::none(),
                Note::none(),
                Note::none(),
            ],
            vain: AtomicU64::new(0),
        }
    }

    /// How many jobs were reported finished.
    pub fn finished(&self) -> u64 {
        self.finished.load(Ordering::SeqCst)
    }

    /// How often the job of this number was reported finished, and of the last report the worker and the outcome. Jobs
    /// that are not recorded count as never reported.
    pub fn finish_of(&self, job: usize) -> Option<(u64, u64, Finish)> {
        let note = self.notes.get(job)?;
        let count = note.count.load(Ordering::SeqCst);
        if count == 0 {
            return None;
        }
        let finish = FINISHES.get(note.finish.load(Ordering::SeqCst))?;
        Some((count, note.worker.load(Ordering::SeqCst), *finish))
    }

    /// Whether no worker waited in vain in the notification of a finished job.
    pub fn all_in_time(&self) -> bool {
        self.vain.load(Ordering::SeqCst) == 0
    }

    /// Records the outcome of a job.
    fn note_finish(&self, worker: u8, job: u32, finish: Finish) {
        if let Some(note) = self.notes.get(job as usize) {
            note.count.fetch_add(1, Ordering::SeqCst);
            note.worker.store(u64::from(worker), Ordering::SeqCst);
            let index = FINISHES.iter().position(|one| *one == finish);
            note.finish.store(index.unwrap_or(0), Ordering::SeqCst);
        }
    }

    /// Records that a worker has made this many calls.
    fn note(&self, worker: u8, calls: u64) {
        match worker {
            0 => self.calls_of_first.store(calls, Ordering::SeqCst),
            1 => self.calls_of_second.store(calls, Ordering::SeqCst),
            _ => {}
        }
        if calls == 4 {
            self.arrived.fetch_add(1, Ordering::SeqCst);
        }
    }

    fn second_first(&self, worker: u8, calls: u64) -> Pass<u64> {
        match (worker, calls) {
            (1, 0) => go_at(&self.calls_of_first, 2, calls),
            (0, 2) => go_at(&self.finished, 1, calls),
            _ => Pass::Go,
        }
    }

    fn both_read(&self, worker: u8, calls: u64) -> Pass<u64> {
        match (worker, calls) {
            (0, 4) => go_at(&self.calls_of_second, 4, calls),
            (1, 4) => go_at(&self.calls_of_first, 5, calls),
            _ => Pass::Go,
        }
    }

    fn deep_fall(&self, workers: u64, worker: u8, calls: u64) -> Pass<u64> {
        match (worker, calls) {
            (0, 4) => {
                reaches(&self.arrived, workers);
                Pass::Leave(calls)
            }
            (_, 0) => go_at(&self.arrived, u64::from(worker), calls),
            (_, 4) => go_at(&self.finished, 1, calls),
            _ => Pass::Go,
        }
    }
}

impl Gate for Gates {
    type Note = u64;

    fn pass(&self, worker: u8, calls: u64) -> Pass<u64> {
        self.note(worker, calls);
        match self.plan {
            Plan::Open | Plan::FinishTogether(_) => Pass::Go,
            Plan::SecondFirst => self.second_first(worker, calls),
            Plan::BothRead => self.both_read(worker, calls),
            Plan::LeavesAt(most) => leave_if(calls == most, calls),
            Plan::DeepFall(workers) => self.deep_fall(workers, worker, calls),
            Plan::Random { seed, odds } => leave_if(leaves(seed, odds, worker, calls), calls),
        }
    }

    fn finished(&self, worker: u8, job: u32, outcome: &Outcome<u64>) {
        self.note_finish(worker, job, Finish::of(outcome));
        self.finished.fetch_add(1, Ordering::SeqCst);
        if let Plan::FinishTogether(all) = self.plan {
            if !reaches(&self.finished, all) {
                self.vain.fetch_add(1, Ordering::SeqCst);
            }
        }
    }
}

fn leave_if(leaves: bool, calls: u64) -> Pass<u64> {
    if leaves { Pass::Leave(calls) } else { Pass::Go }
}

/// Waits until the number is reached, and returns whether it was in time. Yields to other threads at each turn.
fn reaches(number: &AtomicU64, least: u64) -> bool {
    for _ in 0..TURNS {
        if number.load(Ordering::SeqCst) >= least {
            return true;
        }
        thread::yield_now();
    }
    false
}

/// Goes on once the number is reached, and leaves if it is not reached in time.
fn go_at(number: &AtomicU64, least: u64, calls: u64) -> Pass<u64> {
    leave_if(!reaches(number, least), calls)
}

/// Whether the draw makes a worker leave. Yields to others first.
fn leaves(seed: u32, odds: u32, worker: u8, calls: u64) -> bool {
    if odds == 0 {
        return false;
    }
    thread::yield_now();
    let own = drawn(u64::from(seed)).wrapping_add(u64::from(worker));
    drawn(drawn(own).wrapping_add(calls)) % u64::from(odds) == 0
}

/// A pseudorandom number made from another.
fn drawn(x: u64) -> u64 {
    let x = x.wrapping_mul(6_364_136_223_846_793_005);
    let x = x.wrapping_add(1_442_695_040_888_963_407);
    x >> 33
}
