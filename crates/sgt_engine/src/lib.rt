//! The engine: a scheduler with the history of its events and replies.
//!
//! Its contracts are the purpose of the other crates. `Engine::apply` keeps the history legal. Whatever the events, running
//! the committed transactions one after another in commit order gives the answers that were reported and the committed
//! database. It is no database system: it holds everything in memory, writes no log, and has no lock, thread or waiting. If
//! a commit must wait, the reply says so, and the caller asks again.
//!
//! ```
//! let mut engine: Engine<ListRecords, OneList, PairGraph> = Engine::new(alloc, opening, procedures, limits)?;
//! engine.apply(Event::Start { procedure: 0, args })?; // Started(0)
//! engine.apply(Event::Step(Tid(0)))?;                 // Looked, Wrote or Aborted; Ended at the procedure's end
//! engine.apply(Event::Access(Tid(0), Request::Write(key, None)))?; // and then what its caller decides, as this removal
//! engine.apply(Event::Commit(Tid(0)))?;               // Committed with its answers
//! let database = engine.database(alloc)?;
//! ```
#![tactic(auto)]

mod changes;
mod engine;
mod past;
mod run;
mod spare;

pub use engine::{AddError, CutError, Engine, PutError};
pub use past::Past;
pub use run::{Ran, run_list};
