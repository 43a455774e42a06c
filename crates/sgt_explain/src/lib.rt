//! Explains aborts from a history. For an abort by a cycle it finds the accesses that make each edge of the cycle.
//! For a cascading abort it finds the read from a transaction that was aborted. [`refusal_of`] says why an event was
//! refused, and [`append_refusal`] writes that. [`append_code_abort`] writes that a procedure aborted with a code, and what [`Words`] says of it.
//!
//! The reply of an abort names a cycle and the transactions that are aborted in cascade. This crate searches the
//! history for the accesses that caused it. It names each by its position: the number of entries before it.
//!
//! It searches an [`IndexedHistory`], to which the caller appends each entry. The engine's own history has no index, so
//! an abort without explanation costs nothing. What an explanation costs does not grow with the history:
//!
//! - an edge: one search of its second transaction's accesses, and for each of them two of the first one's;
//! - a cascading abort: one pass over the entries since the reader began, and for each of its reads one over those since
//!   the first that is aborted began.
//!
//! [`cycle_edge`] returns an edge, and [`fall_source`] the read of a cascading abort. [`append_explanation`] writes
//! both as lines of text.
//!
//! The crate runs nothing and knows no procedures. So the caller says which access the aborted transaction was about
//! to make. If the transaction's caller had decided on it, [`requested_by`] returns it. Else it is the next access of
//! its procedure, as the engine knows it before the event.
//!
//! ```
//! // "line 12: 1 would write 2/101, which 0 read at line 6 and wrote at line 10", and one such line for each other edge.
//! append_explanation(&mut text, history, place, Some(Pending { key, kind: Kind::Store, removes: false }), &lines)?;
//! ```
#![tactic(auto)]

mod bounds;
mod call;
mod code;
mod edge;
mod explanation;
mod indexed_history;
mod made;
mod refusal;
mod requested;
mod search;
mod source;
mod text;
mod wait;
mod words;
mod writers;

pub use call::call_before;
pub use code::{append_code, append_code_abort, append_code_of};
pub use edge::{CycleEdge, Earlier, cycle_edge};
pub use explanation::{Pending, append_explanation};
pub use indexed_history::IndexedHistory;
pub use refusal::{Refusal, append_refusal, refusal_of};
pub use requested::requested_by;
pub use source::{SourceRead, fall_source};
pub use wait::append_live_causes;
pub use words::Words;
