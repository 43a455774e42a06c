//! Levels of isolation of what clients saw, in the list-append model. Like `sgt_appends`, this crate knows nothing of the
//! engine.
//!
//! Snapshot isolation (`specs/Snapshots.antt`) and read committed (`specs/Commits.antt`), beside the serial runs of
//! `sgt_appends`, each by its runs and by the edges between transactions; and read uncommitted, PL-1, by orders of writes
//! (`specs/WriteOrders.antt`).
//!
//! Proved, for snapshot isolation and for read committed:
//! - each edge goes forward in each run, so a cycle of the level's kind, or a fault of a read, leaves no run
//! - times that rise along the edges are a run, if no read has a fault; a linear number of edges suffices
//! - what is serializable is snapshot isolated, what is snapshot isolated is read committed, and what is read committed is
//!   read uncommitted
//! - write skew is snapshot isolated and not serializable; lost update is not snapshot isolated
//! - `levels_of` answers `Run` only with a run, and *no* only if there is none: an order that the tests of `replay.rt`
//!   accept is a run, and a cycle that those of `tie.rt` accept leaves none; the same of write orders in `writes.rt`
//! - `ruled_out` names the weakest level that a cycle rules out
//! - `unseen_appends` names two appends to one key that no read saw
//!
//! Tested, not proved: when `levels_of` leaves a level open (`survey.rt`, `search.rt` and `write_search.rt`), and the time:
//! n log n.
//!
//! Not decided by edges alone: in which order two transactions come that append to one key, if neither append was seen.
#![tactic(auto)]

mod columns;
mod laws;
mod levels;
mod ordered;
mod replay;
mod ruling;
mod search;
mod survey;
mod tie;
mod unseen;
mod write_search;
mod writes;

pub use laws::{
    commit_orders_are_enough, commit_raised_are_enough, commits_are_obeyed,
    committed_cycles_are_enough, committed_faults_are_enough, committed_is_uncommitted,
    decided_splits_are_enough, lost_update_is_no_snapshot, no_miss_cycles_are_enough,
    seen_are_decided, serial_is_snapshot, snapshot_cycles_are_enough, snapshot_faults_are_enough,
    snapshot_is_committed, spaced_cycles_are_enough, split_is_obeyed, split_raised_are_enough,
    splits_are_enough, tails_depend, write_cycles_are_enough, write_skew_is_between,
};
pub use levels::{Committed, Levels, Snapshot, Writes, levels_of};
pub use ordered::{Ordered, ordered_run};
pub use replay::{is_committed_run, is_snapshot_run};
pub use ruling::{Level, ruled_out};
pub use search::Snapshots;
pub use survey::Partial;
pub use tie::{Ground, Passage, Tie, rules_out_committed, rules_out_partial, rules_out_snapshot};
pub use unseen::{Unseen, unseen_appends};
pub use writes::{is_write_order, rules_out_uncommitted};
