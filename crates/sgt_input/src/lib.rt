//! Input and output of a run: where bytes come from, how they are split into lines, where they go, and the faults that
//! can end a run.
//!
//! A reader is a [`Source`] and a writer a [`Sink`]: two small traits, with implementations over any `Read` and
//! `Write`. They count their failed calls; a source also counts the bytes that it gives. [`Lines`] splits the bytes of
//! a source into lines within the limits. Its buffer has a fixed size, however long the input is. `specs/Lines.antt`
//! defines the lines of a text.
//!
//! [`opening_of`] reads a line as the opening of a run. [`read_records`] adds the records of the lines after it to the
//! opening's database. `sgt_format` defines what a line spells. `specs/Spelled.antt` defines what lines spell one after
//! another, up to the first bad one, for any reader of lines.
//!
//! ```
//! let mut source = Reader::new(rt.reader());
//! let mut lines = Lines::new(alloc, DEFAULT_BYTES)?;
//! while lines.next_line(&mut source)? {
//!     write_all(&mut sink, lines.line())?;
//! }
//! ```
#![tactic(auto)]

mod buffer;
mod fault;
mod line_fault;
mod lines;
mod opening;
mod records;
mod shape_error;
mod sink;
mod source;

pub use fault::Fault;
pub use line_fault::at_line;
pub use lines::{DEFAULT_BYTES, Lines, MOST_BYTES};
pub use opening::opening_of;
pub use records::read_records;
pub use shape_error::ShapeError;
pub use sink::{Sink, Writer, write_all};
pub use source::{Failed, Reader, Source};
