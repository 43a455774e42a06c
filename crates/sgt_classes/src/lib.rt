//! The classes of histories of Bernstein, Hadzilacos and Goodman (1987), chapter 2, by their own definitions.
//!
//! A history is any list of operations, from any source. The definitions are in `specs/`, and refer to positions in
//! the list. The crate knows no engine and no scheduler, and reads no text: items and transactions are numbers.
//!
//! The laws of the classes are functions, stated by their contracts. `serializability_theorem` is the theorem of that
//! chapter, by the book's own definition of serializable: the committed projection is conflict equivalent to a serial
//! history.
//!
//! ```
//! // w1[x] r2[x] c1: 2 reads what 1 has written, and 1 has not ended
//! let history = [
//!     Operation { transaction: 1, action: Action::Write(0) },
//!     Operation { transaction: 2, action: Action::Read(0) },
//!     Operation { transaction: 1, action: Action::Commit },
//! ];
//! let violation = strict_violation(alloc, &history)?;     // Some(Violation { earlier: 0, later: 1 })
//! let shown = serial_order_or_cycle(alloc, &history)?;    // Serial: 1 alone, since 2 does not commit
//! ```
#![tactic(auto)]

mod avoiding;
mod chains;
mod checker;
mod commit_order;
mod conflicts;
mod cycles;
mod first_accesses;
mod graph;
mod laws;
mod links;
mod operation;
mod recoverable;
mod rigorous;
mod serial;
mod strict;
mod table;
mod watched;

pub use avoiding::{avoidance_violation, read_source};
pub use commit_order::{commit_order_violation, serial_commit_order};
pub use conflicts::first_conflicts;
pub use graph::{Edge, serialization_edges};
pub use laws::{
    avoiding_are_recoverable, commit_ordered_are_serializable, cycles_are_enough, equivalence_laws,
    equivalent_are_view_equivalent, rigorous_are_strict, serial_orders_are_enough,
    serial_runs_are_complete, serial_runs_read_alike, serializability_theorem,
    strict_avoid_cascading_aborts,
};
pub use operation::{Action, Operation, Violation};
pub use recoverable::recoverable_violation;
pub use rigorous::rigorous_violation;
pub use serial::{Serializability, serial_order_or_cycle};
pub use strict::strict_violation;
pub use table::Table;
