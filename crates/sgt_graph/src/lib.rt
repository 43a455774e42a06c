//! The serialization graph. Its nodes are the live transactions. An edge leads from one to another that must commit after
//! it, because both accessed the same key and at least one of them wrote it.
//!
//! [`Graph`] is the contract that a scheduler uses. [`BitGraph`] implements it with rows of bits, from which a verdict is read.
//! [`PairGraph`] is the plain implementation, two lists. A graph never has a cycle: new edges
//! to a transaction are accepted if they close none, and else rejected with a path that shows the cycle. No call allocates
//! memory. The graph knows no history, key or access: its caller passes which transactions conflict.
//!
//! ```
//! let mut graph = PairGraph::empty();
//! graph.add(Tid(0));
//! graph.add(Tid(1));
//! let mut preds = Tids::new();
//! preds.push(Tid(0));
//! let verdict = graph.insert(Tid(1), &preds); // Accepted: now 0 comes before 1
//! let least = graph.least_pred(Tid(1)); // Some(Tid(0))
//! ```
#![tactic(auto)]

mod bit_graph;
mod graph;
mod guesses;
mod pair_graph;
mod relation;
mod rows;
mod tids;
mod verdict;

pub use bit_graph::BitGraph;
pub use graph::Graph;
pub use pair_graph::PairGraph;
pub use verdict::{Link, Plan, Verdict};
