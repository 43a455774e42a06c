//! The formats of `sgt`, both ways. A line of JSON becomes an opening, a procedure, a record line, an event or a job. A
//! reply or a database becomes its text.
//!
//! `specs/` defines what a line spells and which text a reply has: `ReplyText`, `DatabaseText`, `RecordText`,
//! `EventLines`, `AccessLines`, `JobLines`, `RecordLines`, `Openings` and `ProcedureLines`, over `Decimals`, `Trees` and `Procedures`.
//! The contracts promise exactly these, and each error exactly where it applies. [`written_records_are_read`] says that
//! the record lines written of a database are read as its records.
//!
//! This crate does not split a stream into lines, and does not run an engine. Lines come in without their newline, and
//! go out with it.
//!
//! ```
//! let opening = read_opening(alloc, 1, b"{\"limits\":[1,10],\"accounts\":[[1,101,500,1000]],\"procedures\":[]}")?;
//! let mut scratch = Scratch::new(alloc); // of the crate `json`, kept from line to line
//! let event = read_event(alloc, &mut scratch, b"[\"start\",0,[1]]")?;
//! append_reply(&mut lines, &Reply::Started(Tid(0)))?; // adds "started 0\n"
//! append_database(&mut lines, opening.database.rows())?; // adds "0/1 101\n1/101 500\n2/101 1000\n"
//! append_records(&mut lines, opening.database.rows())?; // adds "[\"record\",0,1,101]\n[\"record\",1,101,500]\n[\"record\",2,101,1000]\n"
//! ```
#![tactic(auto)]

mod access_line;
mod cut_text;
mod database_text;
mod decimal_text;
mod errors;
mod event_line;
mod job_line;
mod laws;
mod line_tokens;
mod opening;
mod plain_access;
mod plain_line;
mod procedure_line;
mod procedures;
mod record_line;
mod record_text;
mod reply_text;
mod script_line;
mod sheet;
mod template;
mod tree;

pub use cut_text::{append_cut, append_still_live};
pub use database_text::append_database;
pub use decimal_text::{append_answers, append_commit_line, append_number, append_numbered};
pub use errors::{LineError, OpeningError};
pub use event_line::read_event;
pub use job_line::read_job;
pub use laws::written_records_are_read;
pub use opening::{Opening, read_opening};
pub use plain_line::read_event_ahead;
pub use procedure_line::read_procedure_line;
pub use record_line::{Record, RecordLine, read_record_line};
pub use record_text::append_records;
pub use reply_text::{append_reply, append_short_reply, reply_line};
pub use script_line::{LineKind, ScriptLine, read_script_line};
pub use template::{Spelled, append_filled};
pub use tree::{items, read_tree};
