//! Rows that come in any order, and the database of them.
//!
//! `Database::put` moves the rows after a new one. [`Rows`] takes any number of rows, sorted or not, and costs a search for
//! each. It is the way from the accounts of an opening, from record lines and from the rows of a caller to an initial
//! database.
//!
//! ```
//! let mut rows = Rows::of(alloc, Database::empty(alloc));
//! rows.put(last, 1)?;
//! rows.put(first, 2)?;
//! let database = rows.database(alloc)?;      // first, then last
//! ```
#![tactic(auto)]

mod rows;

pub use rows::Rows;
