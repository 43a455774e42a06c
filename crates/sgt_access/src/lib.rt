//! The access list: what the live transactions have read and written so far, and which of them an access conflicts with.
//!
//! It stores no value and no history, and it decides nothing. It names the rivals of an access, and the scheduler makes
//! edges of them. `Accesses` is the contract. `OneList`, one list for all keys, is the plain implementation that tests compare
//! with. `PerKey` has lists by transaction, and masks by key in front of them.
//!
//! ```
//! let mut accesses = OneList::empty(alloc);
//! accesses.reserve(key)?;
//! accesses.note(Tid(0), key, Kind::Look);
//! let rivals = accesses.rivals(Tid(1), key, Kind::Store);   // 0
//! ```
#![tactic(auto)]

mod access;
mod accesses;
mod conflicts;
mod known;
mod masks;
mod number_lists;
mod one_list;
mod per_key;
mod places;
mod rising;
mod spot;
mod taking;
mod whole_list;

pub use accesses::Accesses;
pub use one_list::OneList;
pub use per_key::PerKey;
