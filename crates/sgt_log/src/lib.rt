//! The history of an engine, in few bytes for each entry.
//!
//! An [`Entry`](sgt_model::Entry) reserves space for the longest lists of an event and its reply, which are nearly always
//! empty. A [`History`] stores each entry in few bytes. It stores the items of all lists, one after another, in
//! two lists of its own: one of transactions, one of values. It returns entries in full, or lets them be read in place as
//! an [`EntryRef`]. Contracts see it as the list of its entries.
//!
//! It does not check whether a history is legal: its caller answers for that. No entry is ever changed or removed.
//!
//! ```
//! let mut history = History::new(alloc);
//! history.reserve(1)?;
//! let lists = ReplyLists::new();
//! history.push(&Event::Step(Tid(0)), &ShortReply::Wrote { key, value: Some(50) }, &lists);   // allocates nothing
//! for place in 0..history.len() {
//!     let entry = history.entry(place);
//!     if entry.is_commit() {
//!         let Entry { event, reply } = entry.in_full();
//!     }
//! }
//! ```
#![tactic(auto)]

mod access_kind;
mod allocation;
mod bare;
mod entry_list;
mod entry_lists;
mod entry_ref;
mod history;
mod key_of;
mod packed_entry;
mod prefault;
mod span;
mod step_kind;
mod stored_entry;
mod stored_event;
mod stored_reply;

pub use entry_ref::EntryRef;
pub use history::History;
pub use prefault::prefault_ahead;
pub use step_kind::StepKind;
