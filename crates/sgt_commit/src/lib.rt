//! How a transaction ends in the layers. A commit commits its values, an abort removes them; either way it leaves the
//! access list and the graph.
//!
//! It knows the three layers by their contracts alone, so any implementations will do. It stores nothing, and allocates
//! nothing. It does not decide which transactions are aborted in cascade: each of those is unwound in turn.
//!
//! ```
//! match decide(&graph, t) {
//!     Some(first) => ..,                                        // t waits until it has ended
//!     None => finish(&mut records, &mut accesses, &mut graph, t),
//! }
//! unwind(&mut records, &mut accesses, &mut graph, u);           // u is aborted
//! ```
#![tactic(auto)]

mod endings;

pub use endings::{decide, finish, unwind};
