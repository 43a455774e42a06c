//! The records: the committed value of each key, and above it the values that live transactions have written, in the
//! order of these writes.
//!
//! A write of none removes the record. A read returns the last write that is not undone, committed or not. An abort removes
//! only the transaction's own writes: no before image is written back, so later writes stay. Nothing here decides which
//! transaction may read, write or commit. `Records` is the contract. `ListRecords` is the plain implementation, with all
//! pending writes in one list. In `SlabRecords`, each key that has been written has a list of its own, so that a call reads
//! only what concerns its key.
//!
//! ```
//! let mut records = ListRecords::build(alloc, &opening)?;
//! records.reserve(key)?;
//! records.write(Tid(0), key, Some(5));
//! let top = records.top(key);        // Top::Pending(Tid(0), Some(5))
//! records.undo(Tid(0));              // now the committed value, or nothing
//! ```
#![tactic(auto)]

mod chain;
mod committed;
mod hints;
mod index;
mod list_records;
mod live_write;
mod packed_value;
mod record;
mod records;
mod slab_records;
mod table;
mod top;
mod write;
mod written;

pub use list_records::ListRecords;
pub use records::Records;
pub use slab_records::SlabRecords;
pub use top::Top;
