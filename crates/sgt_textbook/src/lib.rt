//! Every legal history in the textbook's notation, and its classes by the textbook's own definitions. This crate
//! connects the histories of `sgt_model` with those of `sgt_classes`.
//!
//! A legal history is a list of entries, each an event with its reply. In the notation of Bernstein, Hadzilacos and
//! Goodman (1987), chapter 2, it is a list of reads, writes, commits and aborts, as `specs/Textbook.antt` defines.
//! Each transaction that is aborted in cascade has an abort of its own. An access on which a caller decided is a read or
//! a write as every other, and a removal is a write. Keys are numbers there; any numbering will do that gives no two keys
//! the same number.
//!
//! By the definitions of `sgt_classes` the list is:
//!
//! - well formed, commit ordered, serializable and recoverable;
//! - one whose committed projection is conflict equivalent to the serial history of its committed transactions in
//!   commit order;
//! - one whose serialization graph has exactly the conflicts of committed transactions as edges;
//! - one whose reads-from relation is `ReadFrom`.
//!
//! It is strictly serializable too: that serial history keeps real time. Each abort in it is needed, and an access is
//! rejected exactly if it has to be.
//!
//! It need not avoid cascading aborts, and so need not be strict, which is another thing.
//!
//! Nothing here runs or makes such a list. Each function is a law: its contract says it, and any caller may use it.
//! The crate knows no engine and no scheduler. It says in the textbook's words what
//! `sgt_model` and `sgt_progress` prove of legal histories.
//!
//! ```
//! // With a legal history of any engine, call the law to know that the textbook's history of it is serializable.
//! legal_are_serializable();
//! ```
#![tactic(auto)]

mod laws;

pub use laws::{
    aborts_are_needed, commit_orders_are_serial, commit_orders_read_alike, edges_are_pairs,
    keys_can_be_numbered, legal_are_commit_ordered, legal_are_recoverable, legal_are_serializable,
    legal_are_strictly_serializable, legal_are_well_formed, live_ones_may_commit, reads_agree,
    rejects_exactly, some_histories_cascade,
};
