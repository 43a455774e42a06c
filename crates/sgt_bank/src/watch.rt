//! A gate that watches a run.
use crate::gate::{Failures, MOST_AT_ONCE};
use sgt_model::{NoMemory, Tid};
use sgt_proc::Checked;
use sgt_workers::{Gate, Outcome, Pass};
use std::alloc::Global;
use std::convert::Infallible;
use std::io::Eprint;
use std::sync::{Mutex, Wait};
use std::time::{Clock, Duration, Instant};

/// The least time from one progress line to the next, in seconds.
const BETWEEN_LINES: u64 = 1;

/// An attempt at a job that failed.
#[derive(Clone, Copy)]
pub(crate) struct FailedTry {
    /// The job's number.
    pub job: u32,
    /// The transaction of the attempt. It was aborted by a cycle or in cascade.
    pub tid: Tid,
}

/// What the observer has seen.
#[derive(Drop)]
pub(crate) struct Seen {
    /// The failed attempts, those of each job in their order.
    pub failed: Vec<FailedTry>,
    /// Whether memory ran out for one of these.
    pub has_lost: bool,
    /// How many arguments each procedure of line 1 takes. It ends early if memory ran out.
    pub takes: Vec<u8>,
    // How many jobs have ended.
    ended: u32,
    // When progress was last reported, if it is to be reported.
    reported: Option<Instant>,
}

/// A gate that lets every worker continue and records the failed attempts. On request it reports on standard error
/// how many jobs have ended, at most one line each second. Its notes have a type without values, so no outcome is
/// `Left`.
#[derive(Drop)]
pub(crate) struct Watch<'a, W> {
    rt: &'a W,
    seen: Mutex<Seen>,
}

impl<'a, W: Clock> Watch<'a, W> {
    /// Starts observing a run. Without a clock no progress is reported.
    pub(crate) fn new(rt: &'a W, alloc: Global, reports_progress: bool) -> Self {
        let reported = if reports_progress {
            Instant::now(rt).ok()
        } else {
            None
        };
        Watch {
            rt,
            seen: Mutex::new(Seen {
                failed: Vec::new(alloc),
                has_lost: false,
                takes: Vec::new(alloc),
                ended: 0,
                reported,
            }),
        }
    }

    /// What it has seen.
    pub(crate) fn into_seen(self) -> Seen {
        self.seen.into_inner()
    }
}

impl<W: Wait + Clock + Eprint> Gate for Watch<'_, W> {
    type Note = Infallible;

    fn most_at_once(&self) -> usize {
        MOST_AT_ONCE
    }

    fn pass(&self, _worker: u8, _calls: u64) -> Pass<Infallible> {
        Pass::Go
    }

    fn failed(&self, _worker: u8, job: u32, t: Tid) {
        let mut seen = self.seen.lock(self.rt);
        if seen.failed.push(FailedTry { job, tid: t }).is_err() {
            seen.has_lost = true;
        }
    }

    fn finished(&self, _worker: u8, _job: u32, _outcome: &Outcome<Infallible>) {
        let mut seen = self.seen.lock(self.rt);
        seen.ended = seen.ended.saturating_add(1);
        let Some(reported) = seen.reported else {
            return;
        };
        if let Ok(now) = Instant::now(self.rt) {
            if now.saturating_duration_since(reported) >= Duration::from_secs(BETWEEN_LINES) {
                let _ = eprintln!(self.rt; "{} jobs have ended", seen.ended);
                seen.reported = Some(now);
            }
        }
    }
}

impl<W: Wait> Failures for Watch<'_, W> {
    fn opened(&self, procedures: &[Checked]) {
        let mut seen = self.seen.lock(self.rt);
        for procedure in procedures {
            if seen.takes.push(procedure.args()).is_err() {
                return;
            }
        }
    }

    fn failures(&self, alloc: Global, jobs: usize) -> Result<Vec<u32>, NoMemory> {
        let seen = self.seen.lock(self.rt);
        if seen.has_lost {
            return Err(NoMemory);
        }
        let mut counts: Vec<u32> = Vec::new(alloc);
        for _ in 0..jobs {
            counts.push(0)?;
        }
        for failed in seen.failed.iter() {
            if let Some(count) = counts.get_mut(failed.job as usize) {
                *count = count.saturating_add(1);
            }
        }
        Ok(counts)
    }
}
