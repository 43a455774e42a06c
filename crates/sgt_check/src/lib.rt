//! The check of a history that is given as text: is it serializable, recoverable, and of which other classes?
//!
//! - [`run_check`] checks what a source holds. It writes a report, the serialization graph or a picture: its
//!   [`Output`].
//! - [`check_history`] runs the checkers of `sgt_classes` and collects a [`Report`]. [`append_report`] writes it as
//!   seven lines.
//! - [`append_graph`] writes the serialization graph in DOT. `sgt_timeline` draws the picture.
//!
//! The classes are defined in `sgt_classes`, and the notation in `sgt_notation`. `specs/ReportText.antt` defines the
//! lines of a report, and `specs/GraphText.antt` those of a graph. `specs/Checks.antt` says what a check guarantees
//! for each output.
//!
//! ```
//! let history = read_history(alloc, b"w1[x] r2[x] c2 c1")?;
//! let report = check_history(alloc, history.operations.as_slice())?;
//! report.recoverable;     // 2 commits before 1, which it reads from
//! ```
#![tactic(auto)]

mod checked;
mod fault;
mod graph_text;
mod input;
mod mentioned;
mod report;
mod report_text;
mod run;
mod timeline;

pub use checked::{Output, Verdict};
pub use fault::CheckFault;
pub use graph_text::append_graph;
pub use input::read_input;
pub use report::{Counts, Report, check_history};
pub use report_text::append_report;
pub use run::run_check;
