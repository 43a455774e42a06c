//! Whether what the clients of a database saw is serializable, in the list-append model of Elle. This crate knows nothing
//! of the engine: its histories may come from any database.
//!
//! Clients append values to lists and read whole lists. A serial order runs the committed transactions one after
//! another, from empty lists, and every read returns exactly what its client saw. Transactions with an unknown end may
//! take part or not. `specs/Runs.antt` has the definitions.
//!
//! Kingsbury and Alvaro, Elle: Inferring Isolation Anomalies from Experimental Observations (VLDB 2020).
//!
//! Proved:
//! - `Serial`: the order is such an order.
//! - `Violated`: there is none. The edges of a cycle follow from what was observed, at the positions that they name, and
//!   every such order obeys them (`precedences_are_obeyed`). The fault of a witness is a fault of the read.
//! - `AppendedTwice` is returned exactly if a value is appended twice to a key.
//! - `UnknownReads`: a transaction with an unknown end has a read. Its reads must be left out.
//! - There is no other verdict: a history without these two is judged.
//!
//! Not proved:
//! - the names of the anomalies
//! - what `propose` finds, which is to be tested
//! - the time
//!
//! ```
//! // the first appends 1 and 2 to key 0, and the second saw 1 alone: it saw the first in part
//! let verdict = check_appends(alloc, &history)?;      // Violated: the second comes after the first, and before it
//! ```
#![tactic(auto)]

mod anomaly;
mod append_index;
mod chains;
mod check;
mod compatible;
mod contents;
mod edges;
mod fault;
mod graph;
mod laws;
mod lines;
mod merge;
mod order;
mod premises;
mod proposal;
mod reads;
mod search;
mod short;
mod solver;
mod sorting;
mod transaction;
mod witness;

pub use anomaly::{Anomaly, name_of};
pub use append_index::{AppendIndex, appends_once};
pub use check::{Verdict, Witness, check_appends};
pub use compatible::first_incompatible;
pub use contents::Contents;
pub use fault::{Fault, ends_with, starts_with};
pub use laws::{
    cycles_are_enough, faults_are_enough, few_edges_are_enough, guides_are_enough,
    orders_are_enough, precedences_are_obeyed, raised_are_enough,
};
pub use order::{is_serial_run, names_each};
pub use premises::unknown_read;
pub use proposal::{Before, Proposal, propose};
pub use reads::{Read, first_fault, read_of};
pub use sorting::{Link, Sorted, sort, sort_within};
pub use transaction::{Operation, Status, Transaction};
pub use witness::{
    Edge, ReadOfTwo, Reason, all_hold, append_at, has, is_shown, is_shown_cycle, read_at,
    read_of_two, stands_before,
};
