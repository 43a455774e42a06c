//! The decisions of an engine that threads share under a lock of theirs: who rests and for which reason, who is woken, what a ticket
//! names, when a cut may be made.
//!
//! A library for C may neither wait nor wake, but it may decide. So the threads' program keeps the lock, the condition and the clock,
//! and each call is a number of turns. A turn takes the time and returns at once what comes next ([`Turn`]):
//!
//! - `Done`: the call returns its reply.
//! - `Rest`: the thread sleeps, until all are woken or its deadline comes, and then makes the next turn of the same call.
//! - `Late`: the deadline has come.
//! - `Again`: the thread makes the next turn at once. Others may come between.
//! - `Stale`: the ticket names a transaction of a part of the history that was cut off.
//!
//! Each turn is made under the lock, and so is the beginning of a sleep. If a turn has set `wakes`, all that sleep are woken.
//!
//! A call rests only for a [`Reason`] that holds at the end of its turn, and is late only if it would have to rest. A turn in
//! which any reason to rest ceases sets `wakes`. So however many turns come between, no wake is lost
//! ([`no_wake_is_lost`]), but for what the program does with its condition. A run ends once whatever it waits for has ended
//! ([`runs_end`]).
//!
//! [`commit`], [`start`] and [`cut`] make the turns of these calls, [`run_procedure`] those of a procedure that is tried again after a
//! conflict, and [`make`] an event that never rests.
//!
//! Beside the turns, [`Plan`] says when a cut of the configuration is due, [`Solo`] and [`is_next_alone`] which tries are made alone, and
//! [`Feed`] which calls were handed on.
//!
//! The desk knows its engine by the contracts of [`Answering`] alone. It keeps no list of the live transactions: the engine has it.
//! It knows no threads, and does not promise that a thread is ever woken, which one comes next, or how long anything takes. It does not
//! see that a call waits for its own thread, and keeps no list of the calls that ended, which the history has.
//!
//! ```
//! /// A turn of a commit, under the lock. The thread that makes it sleeps if it is `Rest`.
//! fn turn<E: Answering>(
//!     desk: &mut Desk<E>,
//!     ask: &mut Ask,           // Ask::new(Deadline::At(limit)) before the first turn
//!     ticket: Ticket,          // of the start: desk.ticket(t)
//!     now: u64,
//!     all: &Sleepers,
//! ) -> Result<Turn, NoMemory> {
//!     let mut wakes = false;
//!     let turn = commit(desk, ask, ticket, now, &mut wakes);
//!     if wakes {
//!         all.wake();
//!     }
//!     turn                     // Done: ask.reply is Committed, Refused, Over, Unknown or NotEnded, never Waits
//! }
//! ```
#![tactic(auto)]

mod alone;
mod answering;
mod ask;
mod committing;
mod cutting;
mod desk;
mod handing_on;
mod laws;
mod making;
mod plan;
mod reason;
mod running;
mod starting;

pub use alone::{Solo, is_next_alone};
pub use answering::Answering;
pub use ask::{Ask, Deadline, Ticket, Turn};
pub use committing::{commit, commit_turn};
pub use cutting::{cut, cut_turn};
pub use desk::Desk;
pub use handing_on::Feed;
pub use laws::{no_wake_is_lost, runs_end};
pub use making::{Asked, make};
pub use plan::{Plan, Planned};
pub use reason::Reason;
pub use running::{Run, is_conflict, run_procedure};
pub use starting::start;
