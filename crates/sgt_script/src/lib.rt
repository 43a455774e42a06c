//! Runs a whole script from a source to a sink: bytes in, lines, events, replies, text out. `specs/Outcomes.antt`
//! says what a run guarantees, and `specs/Scripts.antt` what it writes.
//!
//! [`run_script`] writes the replies and then the database. [`run`] offers each output mode, can explain aborts on a
//! second sink, and can report how far the run is.
//!
//! This is not a program: it opens no file and knows no command line. The engine of `sgt_assembly` handles the
//! events.
//!
//! ```
//! let mut reader = Reader::new(rt.reader());
//! let mut writer = Writer::new(io::writer(&rt));
//! run_script(alloc, &mut reader, &mut writer)?;
//! ```
#![tactic(auto)]

mod coded;
mod explainer;
mod json_answer;
mod last_line;
mod laws;
mod live_text;
mod observer;
mod options;
mod output;
mod pending;
mod progress;
mod refused;
mod runs;
mod script;
mod watch;

pub use options::Options;
pub use output::Output;
pub use runs::{run, run_script};
