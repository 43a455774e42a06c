//! How far a run is, on standard error.

use crate::observer::Observer;
use crate::options::Options;
use sgt_assembly::SgtEngine;
use sgt_input::Lines;
use std::io::Eprint;
use std::time::{Clock, Duration, Instant};

/// The least time from one progress line to the next, in seconds.
const BETWEEN_LINES: u64 = 1;

/// Counts the events that are answered, and reports on standard error how far the run is. It reports before a read,
/// at most one line each second.
#[derive(Drop)]
pub(crate) struct Progress<'a, W> {
    rt: &'a W,
    /// How many bytes the input may have.
    most: usize,
    /// How many bytes it has, if that is known.
    size: Option<u64>,
    /// How many events are answered.
    events: u64,
    /// When the run started, or when it last reported.
    reported: Instant,
}

impl<'a, W: Clock> Progress<'a, W> {
    /// The progress of a run that starts now, if its options say that it is reported. None without a clock.
    pub(crate) fn of(rt: &'a W, options: Options) -> Option<Self> {
        if !options.shows_progress {
            return None;
        }
        let Ok(reported) = Instant::now(rt) else {
            return None;
        };
        Some(Progress {
            rt,
            most: options.most,
            size: options.size,
            events: 0,
            reported,
        })
    }
}

impl<W: Clock + Eprint> Observer for Progress<'_, W> {
    fn answered(&mut self, _engine: &SgtEngine, _lines: &Lines) {
        self.events = self.events.saturating_add(1);
    }

    // Reports if the last report is long enough ago.
    fn written(&mut self, lines: &Lines) {
        let Ok(now) = Instant::now(self.rt) else {
            return;
        };
        if now.saturating_duration_since(self.reported) < Duration::from_secs(BETWEEN_LINES) {
            return;
        }
        self.reported = now;
        let bytes = self.most.saturating_sub(lines.left());
        let _ = match self.size {
            Some(size) => eprintln!(self.rt;
                "{} events are answered: {bytes} of {size} bytes",
                self.events
            ),
            None => eprintln!(self.rt; "{} events are answered: {bytes} bytes", self.events),
        };
    }
}
