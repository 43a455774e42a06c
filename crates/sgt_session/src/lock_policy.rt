//! How a call takes the engine's lock.
use crate::own::ReceiptCapacity;
use sgt_model::Event;
use std::sync::{Mutex, MutexGuard, Wait};
use std::thread;

/// How often a thread that found the lock taken tries again before it sleeps.
const LOOKS: u32 = 12;

/// How often it yields to others before it tries again, if its call starts a transaction. The count doubles before each
/// further try.
const START_PAUSE: u32 = 1_024;

/// The same, if its call starts none.
const PAUSE: u32 = 8;

/// The most that it yields before one try.
const LONGEST_PAUSE: u32 = 8_192;

/// The turn of a call that starts a transaction and found the engine's lock taken. The next such call may try for the
/// lock once this is dropped.
pub type Turn<'l> = Option<MutexGuard<'l, ()>>;

/// How the calls of all sessions take the engine's lock, by their kind. If several threads that start a transaction
/// found the lock taken, one of them tries for it; the others sleep until their turn.
#[derive(Drop)]
pub struct LockPolicy {
    turn: Mutex<()>,
}

impl LockPolicy {
    /// No thread waits.
    pub fn new() -> Self {
        LockPolicy {
            turn: Mutex::new(()),
        }
    }

    /// Takes the engine's lock for a call of this event. A thread that finds it taken tries again some times. Before
    /// each try it yields to others, longer each time. Waking a sleeping thread costs the one that frees the lock more
    /// than a call. Trying too often slows the one that holds it.
    ///
    /// A start can wait: no other transaction depends on one that has not started. The calls of a live one should
    /// finish soon, since others may have to wait for its end. So under load few transactions are live at once, and few
    /// conflict.
    ///
    /// Drop the turn after the lock, so that the next start is not woken while the lock is held. The capacity for the
    /// call's receipt is reserved before the lock is taken.
    #[inline(always)]
    pub fn lock<'l, W: Wait, T>(
        &'l self,
        rt: &W,
        lock: &'l Mutex<T>,
        event: &Event,
        _spare: ReceiptCapacity,
    ) -> (Turn<'l>, MutexGuard<'l, T>) {
        match lock.try_lock() {
            Some(guard) => (None, guard),
            None => self.try_again(rt, lock, matches!(event, Event::Start { .. })),
        }
    }

    /// Takes the engine's lock as `lock` does, for a call that starts no transaction: such a call has no turn to keep.
    #[inline(always)]
    pub fn lock_without_turn<'l, W: Wait, T>(
        &self,
        rt: &W,
        lock: &'l Mutex<T>,
        _spare: ReceiptCapacity,
    ) -> MutexGuard<'l, T> {
        match lock.try_lock() {
            Some(guard) => guard,
            None => look_for(rt, lock, PAUSE),
        }
    }

    /// Takes the engine's lock, which was found taken, for a call that starts a transaction or not.
    #[cold]
    #[inline(never)]
    fn try_again<'l, W: Wait, T>(
        &'l self,
        rt: &W,
        lock: &'l Mutex<T>,
        is_start: bool,
    ) -> (Turn<'l>, MutexGuard<'l, T>) {
        if !is_start {
            return (None, look_for(rt, lock, PAUSE));
        }
        let turn = self.turn.lock(rt);
        let guard = look_for(rt, lock, START_PAUSE);
        (Some(turn), guard)
    }
}

/// Tries for the lock, which was found taken, the first time after this many yields.
#[cold]
#[inline(never)]
fn look_for<'l, W: Wait, T>(rt: &W, lock: &'l Mutex<T>, pause: u32) -> MutexGuard<'l, T> {
    for look in 0..LOOKS {
        let_others_run((pause << look).min(LONGEST_PAUSE));
        if let Some(guard) = lock.try_lock() {
            return guard;
        }
    }
    lock.lock(rt)
}

/// Yields to other threads this many times.
fn let_others_run(times: u32) {
    for _ in 0..times {
        thread::yield_now();
    }
}
