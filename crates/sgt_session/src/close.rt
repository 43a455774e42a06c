//! Closing: takes the engine out of its lock if the receipts are its history.
ghost use Rattle.std.specs.Prelude.{◌≡◌, IfOk, IfErr, length, reverse};
ghost use Rattle.sgt_model.specs.Legality.{Legal};
ghost use Rattle.sgt_progress.specs.Progress.{MakesProgress};
ghost use Rattle.sgt_progress.specs.RealTime.{KeepsRealTime};
ghost use Rattle.sgt_engine.specs.EngineView.{configuration_of};
ghost use Rattle.sgt_session.specs.Accounts.{AccountsForHistory};
ghost use Rattle.sgt_session.specs.Closing.{Held};

use crate::accounts::accounts;
use crate::named::Named;
use crate::session::Session;
use crate::shared::Shared;
use sgt_access::Accesses;
use sgt_engine::Engine;
use sgt_graph::Graph;
use sgt_records::Records;
use std::sync::Mutex;

/// An engine out of its lock, and the sessions whose receipts are its history.
#[derive(Drop)]
pub struct Closed<N: Named, R: Records, A: Accesses, G: Graph> {
    pub engine: Box<Engine<R, A, G>>,
    pub sessions: Vec<Session<N>>,
}

/// Why `close` failed. It returns its input.
#[derive(Drop)]
pub enum CloseError<N: Named, R: Records, A: Accesses, G: Graph> {
    /// Fewer sessions were given than were made. This is tested first.
    StillHeld(Shared<N, R, A, G>, Vec<Session<N>>),
    /// The receipts are not the entries, each once, or the numbers of one session's receipts do not rise.
    Mismatch(Shared<N, R, A, G>, Vec<Session<N>>),
}

impl<N: Named, R: Records, A: Accesses, G: Graph> Shared<N, R, A, G> {
    /// Takes the engine out of its lock, if all sessions are there and their receipts are the entries of its history,
    /// each once. The numbers of each session's receipts must rise, in the order of its calls. So each call's reply
    /// depends on all that its session had seen before. One pass compares the history with the next receipt of each
    /// session; it allocates nothing.
    ///
    /// A session of another `Shared` has another type, so it cannot be among them.
    ///
    /// `StillHeld` and `Mismatch` return the input.
    pub fn close(
        self,
        sessions: Vec<Session<N>>,
    ) -> Result<Closed<N, R, A, G>, CloseError<N, R, A, G>>
        requires { N.sessions ≡ N.parts }
        ensures configuration { IfOk result (λ c. configuration_of c.engine.value ≡ N.configuration) }
        ensures legal { IfOk result (λ c. Legal N.configuration c.engine.value.past) }
        ensures real_time { IfOk result (λ c. KeepsRealTime N.configuration c.engine.value.past) }
        ensures progress { IfOk result (λ c. MakesProgress N.configuration c.engine.value.past) }
        ensures sessions { IfOk result (λ c. c.sessions.items ≡ sessions.items) }
        ensures all { IfOk result (λ c. length c.sessions.items ≡ N.sessions) }
        ensures accounts { IfOk result (λ c. AccountsForHistory (reverse c.engine.value.past) c.sessions.items) }
        ensures held { IfErr result (λ e. Held e sessions.items N.sessions) }
    {
        let mut sessions = sessions;
        if sessions.len() < usize::from(self.sessions) {
            return Err(CloseError::StillHeld(self, sessions));
        }
        let Shared {
            round,
            lock_policy,
            waiters,
            sessions: count,
        } = self;
        let mut round = round.into_inner();
        round.audit(&mut sessions);
        if !accounts(round.history(), sessions.as_slice()) {
            let shared = Shared {
                round: Mutex::new(round),
                lock_policy,
                waiters,
                sessions: count,
            };
            return Err(CloseError::Mismatch(shared, sessions));
        }
        Ok(Closed {
            engine: round.into_engine(),
            sessions,
        })
    }
}
