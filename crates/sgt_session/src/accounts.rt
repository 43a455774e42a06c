//! Whether the receipts of all sessions are the entries of the history, each once.
ghost use Rattle.std.specs.Prelude.{◌≡◌, ℕ, ◌+◌, ◌^◌, ◌<◌, ◌≤◌, IsTrue, [], length, IfSome, slice_index, slice_index_or};
ghost use Rattle.std.specs.List.{sum_by};
ghost use Rattle.sgt_session.specs.Accounts.{AccountsForHistory};
ghost use Rattle.sgt_session.specs.Receipts.{IsReceiptAt};

use crate::named::Named;
use crate::session::Session;
use sgt_log::History;

/// Whether the receipts are the entries, each once, in the order of each session's calls.
pub fn accounts<N: Named>(history: &History, sessions: &[Session<N>]) -> bool
    requires { (length sessions.now ≤ 64) × (length history.now.entries ≡ sum_by length sessions.now) }
    ensures { IsTrue result → AccountsForHistory history.now.entries sessions.now }
{
    let mut at = [0usize; 64];
    let mut p = 0;
    while p < history.len() {
        let Some(run) = next_run(sessions, &at, history, p) else {
            return false;
        };
        at[run.session] += run.count;
        p += run.count;
    }
    true
}

/// Receipts of one session, one after another, that are those of as many entries, one after another.
#[derive(Clone, Copy)]
struct Run {
    session: usize,
    count: usize,
}

/// The session whose next receipts are those of the entries from this number on, and how many of them are.
fn next_run<N: Named>(
    sessions: &[Session<N>],
    at: &[usize; 64],
    history: &History,
    number: usize,
) -> Option<Run>
    requires few { length sessions.now ≤ 64 }
    requires there { number < length history.now.entries }
    ensures session { IfSome result (λ run. run.session < length sessions.now) }
    ensures some { IfSome result (λ run. 0 < run.count) }
    ensures within { IfSome result (λ run. number + run.count ≤ length history.now.entries) }
    ensures receipts { IfSome result (λ run. (k : ℕ) → k < run.count → IsReceiptAt
        (slice_index_or sessions.now run.session []) (slice_index at.now run.session + k) history.now.entries (number + k)) }
    ensures fits { IfSome result (λ run. slice_index at.now run.session + run.count < 2 ^ 64) }
{
    for session in 0..sessions.len() {
        let count = sessions[session]
            .receipts()
            .run_at(at[session], history, number);
        if count > 0 {
            return Some(Run { session, count });
        }
    }
    None
}
