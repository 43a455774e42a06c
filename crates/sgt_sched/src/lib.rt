//! The scheduler. It starts transactions, lets each make its procedure's accesses and then its caller's one by one, and commits
//! or aborts them, by serialization graph testing over three layers: records, a list of accesses and a graph.
//!
//! It knows the layers by their contracts alone, so any implementations will do. It stores no history and reads none: it
//! decides by what it stores of the live transactions. Each contract says what a call replies and does in terms of this state
//! alone, before and after. `sgt_model` shows that this agrees with the definitions of histories, and `sgt_engine` puts it
//! together. The scheduler has no lock and no thread, and notifies no transaction that waits.
//!
//! ```
//! let mut sched: Sched<ListRecords, OneList, PairGraph> = Sched::new(alloc, &opening, procedures, limits)?;
//! sched.start(0, &args)?;             // Started(0)
//! sched.step(Tid(0))?;                // Looked, Wrote or Aborted; Ended once its procedure is at its end
//! sched.commit(Tid(0));               // Committed with its answers, or Waits
//! sched.records().committed(key);     // the value that it has written
//! ```
#![tactic(auto)]

mod arguments;
mod fates;
mod follow;
mod laws;
mod leave;
mod live;
mod marks;
mod operation;
mod procedure_table;
mod reads;
mod running;
mod sched;

pub use laws::endings_agree;
pub use sched::Sched;
