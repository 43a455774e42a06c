//! The check of what the clients of a database saw, in the list-append model of Elle: is it serializable? Like `sgt_appends`,
//! this crate knows nothing of the engine: the history may come from any database.
//!
//! - [`read_clients`] reads a history as Jepsen writes it in JSON: an object for each invocation and each completion of
//!   a transaction. The transactions become those of `sgt_appends`.
//! - [`check_clients`] checks it by `check_appends` of `sgt_appends`, which defines serializability. [`check_strictly`]
//!   also keeps real time. [`check_levels`] says which levels of isolation hold, by `levels_of` of `sgt_levels`.
//! - [`append_report`], [`append_json`], [`append_graph`] and [`append_timeline`] write what was found.
//! - [`run_clients`] does all this, from the bytes of a source to those of a sink.
//!
//! Proved, from the bytes of the input to those of the output (`specs/Checks.antt`):
//! - the objects of the input (`specs/Objects.antt`), the entry that each spells (`specs/Entries.antt`), and the
//!   transactions that these make (`specs/Histories.antt`, `specs/Inputs.antt`)
//! - the answer, strict or not (`specs/Findings.antt`), and that for each level (`specs/Levels.antt`)
//! - the texts of the report, the object of JSON and the graph (`specs/Reports.antt`, `LevelJson.antt`, `GraphText.antt`)
//!
//! Tested: the picture; that only a wrong input is refused, and why; that each line of a *no* holds; the names of
//! anomalies, and how often each is counted.
//!
//! ```
//! let clients = read_clients(alloc, text)?;
//! let finding = check_clients(alloc, &clients)?;      // Finding::Serial(order), or a witness that there is none
//! ```
#![tactic(auto)]

mod access;
mod anomalies;
mod anomaly_text;
mod barriers;
mod breaks;
mod clients;
mod counted_reads;
mod counts;
mod entry;
mod evidence;
mod explained;
mod fault;
mod finding;
mod found;
mod glued;
mod graph_text;
mod hint;
mod item;
mod json_text;
mod level;
mod level_findings;
mod level_json;
mod level_text;
mod lost_updates;
mod names;
mod notes;
mod operations;
mod order_text;
mod orders;
mod part;
mod picture;
mod piece;
mod pieces;
mod process;
mod report_text;
mod run;
mod scene;
mod strict;
mod stroke_text;
mod twice;
mod witness_text;

pub use anomalies::{Example, Seen};
pub use clients::{Alone, Clients, Event, Span, read_clients};
pub use fault::{ClientsFault, Flaw, Position};
pub use finding::{Finding, check_clients};
pub use graph_text::append_graph;
pub use hint::Hint;
pub use json_text::append_json;
pub use level::{Answer, Level, Question};
pub use level_findings::{LevelFindings, Weaker, check_levels};
pub use notes::Notes;
pub use orders::{Kept, KeptOrders};
pub use picture::append_timeline;
pub use report_text::append_report;
pub use run::{ClientsOutput, run_clients};
pub use strict::check_strictly;
