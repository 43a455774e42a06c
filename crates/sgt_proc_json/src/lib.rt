//! Procedures as trees of JSON: [`read`] reads a tree, and [`write`] writes one.
//!
//! A table says which tree spells which procedure, with a row for each kind of statement, condition and expression:
//! `specs/Spelling.antt`. A tree that spells none has a first shape error. [`Place`] is the position of that error:
//! `specs/Readings.antt`. The law [`reading_is_spelling`] says that the two agree.
//!
//! The crate reads no text: `serde_json` makes a tree of a line. It does not check whether a procedure may run;
//! `sgt_proc` does. For example it reads any register from 0 to 255, though only 0 to 15 exist.
//!
//! ```
//! // Answers the value of the record that argument 0 names, and aborts with code 5 if there is none.
//! let text = "[1,[[\"look\",0,2,[\"arg\",0],5],[\"answer\",[\"reg\",0]]]]";
//! let tree = Value::from_str(alloc, text)?;
//! let procedure = sgt_proc_json::read(alloc, &tree)?;
//! assert!(rt; sgt_proc_json::write(alloc, &procedure)? == tree);
//! ```
#![tactic(auto)]

mod errors;
mod laws;
mod place;
mod read_cond;
mod read_expr;
mod read_number;
mod read_statement;
mod reader;
mod write_cond;
mod write_expr;
mod write_number;
mod write_row;
mod write_statement;
mod writer;

pub use errors::ReadError;
pub use laws::reading_is_spelling;
pub use place::Place;
pub use reader::read;
pub use writer::write;
