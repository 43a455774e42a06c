//! Laws of every legal history beyond the headline: no transaction is stuck, commit order keeps real time, the
//! committed calls decide the rest, and each rejection is needed.
//!
//! - **Progress** (`specs/Moves.antt`, `Alone.antt`, `Drains.antt`, `Rounds.antt`, `Owners.antt`): there is no deadlock; a
//!   history in which nothing is started drains within a known number of events; the only live transaction neither
//!   waits nor is aborted for a cycle, by the accesses of its caller neither.
//! - **Real time** (`RealTime.antt`): a transaction that was reported to have ended before another was started comes
//!   before it in the serial order.
//! - **Reruns** (`Reruns.antt`): the committed calls alone, with their callers' accesses, decide what was reported and what
//!   is committed. Given again, one after another, they get the same (`GivenCalls.antt`: also of a new engine). So a log
//!   of commands is enough to recover.
//! - **Rejections** (`Needed.antt`): an access, of a procedure or one on which a caller decided, is rejected exactly if
//!   the graph would have a cycle with it.
//!   `sgt_textbook` says the same by the textbook's definition of serializable histories.
//!
//! All of them hold of histories with callers' accesses too. Two count these apart: a caller may go on for as long as it
//! likes, so they have no bound (`Drains.antt`); and each may bring a live predecessor (`Predecessors.antt`).
//!
//! These are laws of transactions, not of threads. They do not say that a thread is scheduled or woken, how long
//! anything takes, or that a retry succeeds while others go on. They do not say that the fewest transactions are
//! aborted: in place of the one whose access is rejected, another member of the cycle might abort.
//!
//! Nothing here runs. Each function is a law: its contract says it, and any caller may use it.
//!
//! ```
//! // The engine's history is legal. Call the law to know that no transaction waits for itself, also through others.
//! no_deadlock();
//! ```
#![tactic(auto)]

mod laws;

pub use laws::{
    alone_ends, alone_ends_by_itself, alone_is_not_aborted, closed_cycles_stay, histories_drain,
    histories_make_progress, moves_are_few, next_moves_or_waits, no_deadlock, no_new_predecessors,
    owners_go_on, replay_keeps_real_time, reruns_agree, rounds_drain, started_alone,
    waits_stay_ready,
};
