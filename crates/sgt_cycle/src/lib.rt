//! The search for a path along links between transactions. Its input is a list of links, each from one number to another, a
//! source, and some targets.
//!
//! [`walk`] is exact: it returns a path from the source to a target that passes no number twice, and `None` only if there
//! is none. [`walk_rows`] does the same over rows of bits: the numbers are indices below 32, and [`indices`] has sets of
//! them. [`is_walk`] tests a path. None of them allocates, stores a link, or knows what the links mean.
//!
//! ```
//! let links = [(Tid(0), Tid(1)), (Tid(1), Tid(2))];
//! let mut targets = Tids::new();
//! targets.push(Tid(2));
//! let path = walk(&links, Tid(0), &targets); // 0, 1, 2
//! ```
#![tactic(auto)]

pub mod indices;
mod list;
mod paths;
mod rows;
mod search;

pub use paths::{is_walk, walk};
pub use rows::walk_rows;
