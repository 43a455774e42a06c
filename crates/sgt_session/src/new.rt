//! Puts an engine under its lock, and makes its sessions.
ghost use Rattle.std.specs.Prelude.{◌≡◌, ◌≤◌, [], replicate, vec_capacity, MatchResult};
ghost use Rattle.sgt_engine.specs.EngineView.{configuration_of};

use crate::lock_policy::LockPolicy;
use crate::named::Named;
use crate::round::Round;
use crate::session::Session;
use crate::shared::Shared;
use crate::waiters::Waiters;
use sgt_access::Accesses;
use sgt_engine::Engine;
use sgt_graph::Graph;
use sgt_records::Records;
use std::alloc::Global;
use std::sync::Mutex;
use std::sync::ledger::{Blank, Share};

/// An allocation failed in `Shared::new`: its input, returned.
#[derive(Drop)]
pub struct NewError<R: Records, A: Accesses, G: Graph> {
    pub engine: Box<Engine<R, A, G>>,
    pub blank: Blank,
}

impl<N: Named, R: Records, A: Accesses, G: Graph> Shared<N, R, A, G> {
    /// Puts an engine with an empty history under a lock, and makes 1 to 64 sessions for it. Each has one part of the
    /// ledger and no receipt.
    ///
    /// `NewError` if an allocation failed.
    pub fn new(
        alloc: Global,
        engine: Box<Engine<R, A, G>>,
        blank: Blank,
        sessions: u16,
    ) -> Result<(Self, Vec<Session<N>>), NewError<R, A, G>>
        requires configuration { configuration_of engine.value ≡ N.configuration }
        requires empty { engine.value.past ≡ [] }
        requires blank { (blank.name ≡ N.name) × (blank.parts ≡ N.parts) × (blank.parts ≡ sessions) }
        requires sessions { (N.sessions ≡ sessions) × (1 ≤ sessions) × (sessions ≤ 64) }
        ensures { MatchResult result
            (λ r. r.1.items ≡ replicate sessions [])
            (λ e. (e.engine ≡ engine) × (e.blank ≡ blank)) }
    {
        let Ok(list) = Vec::with_capacity(alloc, usize::from(sessions)) else {
            return Err(NewError { engine, blank });
        };
        let (calls, all) = blank.open::<N>();
        let list = first_sessions(alloc, list, all, sessions);
        let round = Mutex::new(Round::new(engine, calls));
        Ok((
            Shared {
                round,
                lock_policy: LockPolicy::new(),
                waiters: Waiters::new(),
                sessions,
            },
            list,
        ))
    }
}

/// A session for each part of the share.
fn first_sessions<N: Named>(
    alloc: Global,
    list: Vec<Session<N>>,
    all: Share<N>,
    sessions: u16,
) -> Vec<Session<N>>
    requires list { (list.items ≡ []) × (sessions ≤ vec_capacity list) }
    requires all { (all.parts ≡ sessions) × (all.amount ≡ 0) }
    ensures { result.items ≡ replicate sessions [] }
{
    let mut list = list;
    let mut rest = all;
    for _i in 0..sessions {
        list.push_reserved(Session::new(alloc, rest.split_off(1, 0)));
    }
    list
}
