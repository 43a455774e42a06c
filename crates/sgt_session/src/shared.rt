//! An engine under its lock.
ghost use Rattle.std.specs.Prelude.{◌≡◌, ◌≤◌};

use crate::lock_policy::LockPolicy;
use crate::named::Named;
use crate::round::Round;
use crate::waiters::Waiters;
use sgt_access::Accesses;
use sgt_graph::Graph;
use sgt_records::Records;
use std::sync::Mutex;

/// An engine under its lock, for the sessions that were made with it. Whenever the lock is free, the engine has the
/// configuration of N and a legal history. The history has one entry for each call of all sessions.
#[derive(Drop)]
pub struct Shared<N: Named, R: Records, A: Accesses, G: Graph> {
    pub(crate) round: Mutex<Round<N, R, A, G>>,
    pub(crate) lock_policy: LockPolicy,
    pub(crate) waiters: Waiters,
    pub(crate) sessions: u16,
    ghost all: { sessions ≡ N.sessions },
    ghost some: { (1 ≤ sessions) × (sessions ≤ 64) },
}
