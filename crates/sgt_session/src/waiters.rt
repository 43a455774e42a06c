//! Commits that wait for the end of another transaction, and the wakes that end their waits.
ghost use Rattle.std.specs.Prelude.{◌≡◌, ◌+◌, ◌<◌, ◌^◌, cond};
ghost use Rattle.std.specs.Sync.Mutex.{mutex_guard_value};
ghost use Rattle.sgt_model.specs.Questions.{is_ending, is_wait};
ghost use Rattle.sgt_session.specs.Receipts.{IsNewest};

use crate::end_signal::{EndSignal, WaitCount};
use crate::lock_policy::Turn;
use crate::named::Named;
use crate::round::Round;
use sgt_access::Accesses;
use sgt_graph::Graph;
use sgt_log::EntryRef;
use sgt_records::Records;
use std::sync::{MutexGuard, Wait};

/// The commits that wait until a live transaction ends.
#[derive(Drop)]
pub struct Waiters {
    ended: EndSignal,
}

impl Waiters {
    /// No commit waits.
    pub fn new() -> Self {
        Waiters {
            ended: EndSignal::new(),
        }
    }

    /// Ends the turn of a commit that got this entry: frees its lock, then its turn. If the reply is `Waits`, it waits
    /// once, and counts it. The wait begins while the lock is still held. Returns whether it waited.
    ///
    /// The entry is the newest under the lock. So nothing has ended since the reply, and no wake is missed.
    pub fn end_hold<'l, W: Wait, N: Named, R: Records, A: Accesses, G: Graph>(
        &self,
        rt: &W,
        turn: Turn<'l>,
        round: MutexGuard<'l, Round<N, R, A, G>>,
        entry: &EntryRef<'_>,
        count: &mut WaitCount,
    ) -> bool
        requires newest { IsNewest entry.now (mutex_guard_value round).past }
        requires fits { count.old + 1 < 2 ^ 64 }
        ensures waits { result ≡ is_wait entry.now.reply }
        ensures counted { count.new ≡ count.old + cond result 1 0 }
    {
        let waits = entry.is_wait();
        if waits {
            self.ended.wait(rt, round, count);
        } else {
            drop(round);
        }
        drop(turn);
        waits
    }

    /// Wakes all waiting commits if the entry ends a live transaction, and returns whether it does. No other entry can
    /// unblock a commit.
    pub fn wake_after(&self, entry: &EntryRef<'_>) -> bool
        ensures { result ≡ is_ending entry.now.reply }
    {
        let ends = entry.is_ending();
        if ends {
            self.ended.wake_all();
        }
        ends
    }
}
