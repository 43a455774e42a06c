//! Cascading aborts: an abort also aborts those that have read from the transaction, directly or through others.
//!
//! [`fallers`] is exact. It knows numbers alone, stores nothing and allocates nothing.
//!
//! ```
//! let read_from = [(Tid(0), Tid(1)), (Tid(1), Tid(2))];   // 1 has read from 0, and 2 from 1
//! let fell = fallers(&read_from, &live, Tid(0));          // 1, 2
//! ```
#![tactic(auto)]

mod cascade;
mod standing;

pub use cascade::{fallers, is_read_from};
