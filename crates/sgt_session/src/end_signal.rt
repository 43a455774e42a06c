//! The signal that a transaction has ended, and the count of the waits for it.
//!
//! No contract says that a condition variable waits. So this file is trusted for it: `EndSignal::wait` waits once and
//! counts one, and nothing else counts. What other files prove of the count then holds of the waits.
ghost use Rattle.std.specs.Prelude.{◌≡◌, ◌+◌, ◌<◌, ◌^◌};
ghost use Rattle.std.specs.Sync.Mutex.{mutex_guard_value};
ghost use Rattle.sgt_session.specs.Receipts.{NewestWaits};

use crate::named::Named;
use crate::round::Round;
use sgt_access::Accesses;
use sgt_graph::Graph;
use sgt_records::Records;
use std::marker::Model;
use std::sync::{Condvar, MutexGuard, Wait};

/// How many waits have ended. Only `EndSignal::wait` raises it.
#[derive(Drop)]
pub struct WaitCount {
    waits: u64,
}

impl Model for WaitCount {
    ghost use Rattle.std.specs.Prelude.{ℕ};

    ghost Value = { ℕ };

    ghost view = { λ c. c.waits };
}

impl WaitCount {
    /// No wait.
    pub fn new() -> Self
        ensures { result ≡ 0 }
    {
        WaitCount { waits: 0 }
    }
}

/// The signal that a live transaction has ended, for the commits that wait.
#[derive(Drop)]
pub struct EndSignal {
    ended: Condvar,
}

impl EndSignal {
    /// Nobody waits.
    pub fn new() -> Self {
        EndSignal {
            ended: Condvar::new(),
        }
    }

    /// Waits once, and counts it. The newest reply under the lock is `Waits`. The wait begins before the lock is freed,
    /// so no later signal is missed. It ends at a signal, or seldom without one. The lock is free afterwards.
    pub fn wait<W: Wait, N: Named, R: Records, A: Accesses, G: Graph>(
        &self,
        rt: &W,
        round: MutexGuard<'_, Round<N, R, A, G>>,
        count: &mut WaitCount,
    )
        requires newest { NewestWaits (mutex_guard_value round).past }
        requires fits { count.old + 1 < 2 ^ 64 }
        ensures { count.new ≡ count.old + 1 }
    {
        drop(self.ended.wait(rt, round));
        count.waits += 1;
    }

    /// Wakes all that wait.
    pub fn wake_all(&self) {
        self.ended.notify_all();
    }
}
