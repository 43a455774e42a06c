//! Explains in words what is wrong with a line of the input, for a person who has the fault of a run.
//!
//! A [`Fault`](sgt_input::Fault) names a line and a kind. After the run has ended, [`diagnose`] reads that line once
//! more. It says in one line where the error is and what was expected there. No run depends on this: its output and its
//! end stay the same. A [`Remembering`] source passes on the bytes of another source and stores the newest lines, so a
//! line can be read again.
//!
//! [`explain_opening`] and [`explain_procedure`] explain a text that is refused, without a run.
//!
//! Parts of the input are shortened when shown, and contain only printable ASCII.
//!
//! ```
//! eprintln!(rt; "{fault}")?; // "line 1: bad limits"
//! if let Some(text) = diagnose(alloc, &fault, Command::Script, line)? {
//!     eprintln!(rt; "{text}")?; // "column 12: \"limits\": the first number is 33, and has to be from 1 to 32"
//! }
//! ```
#![tactic(auto)]

mod brackets;
mod column;
mod command;
mod diagnosis;
mod excerpt;
mod flaw;
mod grammar;
mod json_text;
mod message;
mod newest;
mod opening;
mod part;
mod reason;
mod refusal;
mod remembering;
mod request;
mod shape_error;
mod token;
mod tree;
mod typed;

pub use command::Command;
pub use diagnosis::diagnose;
pub use refusal::{explain_opening, explain_procedure};
pub use remembering::Remembering;
