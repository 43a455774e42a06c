//! The engine of the program: which layers it has, and which procedures stand in it. Scripts and banks both run on it.
//!
//! [`SgtEngine`] is the engine with the implementations of its layers named. [`open_engine`] makes one of an
//! `Opening`, the first line of an input. SmallBank's procedures have the numbers from 0, and those of the opening
//! follow. `specs/Openings.antt` defines the initial configuration. [`opened_is_bank`] says that SmallBank's
//! procedures did the bank's arithmetic in each history of it.
//!
//! The crate reads and writes no line, and starts no thread.
//!
//! ```
//! let opening = read_opening(alloc, 1, b"{\"limits\":[1,10],\"accounts\":[[1,101,500,1000]],\"procedures\":[]}")?;
//! let mut engine = open_engine(alloc, opening)?;
//! engine.apply(event)?;
//! ```
#![tactic(auto)]

mod engine;
mod laws;

pub use engine::{SgtAccesses, SgtEngine, SgtGraph, SgtRecords, all_procedures, open_engine};
pub use laws::{opened_hold_values, opened_is_bank};
