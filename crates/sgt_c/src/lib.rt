//! The engine of the program, for C and for languages that call C. `bindings/build` makes the static library: for each
//! function of this crate it exports one, which calls it.
//!
//! C keeps an engine in a handle, [`Handle`]. It is all zero bytes before `sgt_open` and after `sgt_close`. Each call
//! returns a status. The reply to an event is written into an [`SgtReply`], the `sgt_reply` of `sgt.h`. A refusal such
//! as `full` or `waits` is a reply, not a status. The contracts say of the engine in the handle what `Engine` says of
//! itself. The library has no lock and no thread: a caller with threads puts one lock around each call.
//!
//! The only texts that it parses are an opening and a procedure. It hands out no memory. The header for C, and the
//! duties of a caller, are in `bindings/sgt.h`.
//!
//! ```
//! let mut engine = Handle::closed(alloc);
//! sgt_open(alloc, &mut engine, opening, &mut fault);        // 0
//! sgt_start(alloc, &mut engine, 1, &[1, 100], &mut reply);  // 0, and reply.kind is 1: started
//! sgt_step(alloc, &mut engine, reply.tid, &mut reply);      // 0, and reply.kind is 8: read
//! sgt_close(alloc, &mut engine);
//! ```
#![tactic(auto)]

// The structs of C, and how they are written and read.
mod access_struct;
mod call_struct;
mod event_struct;
mod fault_struct;
mod reply_struct;
mod row_struct;
mod status;

// The handle.
mod handle;
mod held;
mod slot;

// The calls.
mod access_list;
mod buffer_text;
mod cutting;
mod events;
mod explanations;
mod history;
mod limits;
mod live;
mod opening;
mod own_accesses;
mod procedure_text;
mod procedures;
mod putting;
mod reading;
mod replayed_calls;
mod requested;
mod rows;
mod run;
mod run_many;
mod writes;

// An engine that threads share.
mod shared;

pub use access_list::sgt_accesses;
pub use access_struct::SgtAccess;
pub use buffer_text::{sgt_fault_text, sgt_reply_text};
pub use call_struct::SgtCall;
pub use cutting::{sgt_cut, sgt_part};
pub use event_struct::SgtEvent;
pub use events::{sgt_commit, sgt_quit, sgt_start, sgt_step};
pub use explanations::{sgt_explain_opening, sgt_explain_procedure};
pub use fault_struct::SgtFault;
pub use handle::Handle;
pub use history::{sgt_entries, sgt_entry, sgt_reserve};
pub use limits::sgt_limits;
pub use live::sgt_live_tids;
pub use opening::{sgt_close, sgt_open, sgt_open_bare, sgt_open_with};
pub use own_accesses::{sgt_begin, sgt_read, sgt_remove, sgt_write};
pub use procedure_text::sgt_procedure_text;
pub use procedures::sgt_procedure;
pub use putting::sgt_put;
pub use reading::sgt_get;
pub use replayed_calls::sgt_calls;
pub use reply_struct::{SgtOutcome, SgtReply};
pub use row_struct::SgtRow;
pub use rows::{sgt_records, sgt_rows};
pub use run::sgt_run;
pub use run_many::sgt_run_many;
pub use sgt_desk::Feed;
pub use shared::alone::{SgtSolo, sgt_desk_admits, sgt_desk_is_next_alone, sgt_desk_is_undone};
pub use shared::ask_struct::SgtAsk;
pub use shared::calls::{sgt_desk_commit, sgt_desk_make, sgt_desk_run, sgt_desk_start};
pub use shared::cutting::{sgt_desk_cut, sgt_desk_cuts, sgt_desk_leave};
pub use shared::desk_struct::SgtDesk;
pub use shared::handing_on::sgt_desk_hand_on;
pub use shared::planning::{SgtPlan, sgt_desk_plan, sgt_desk_put_off};
pub use shared::run_struct::SgtRun;
pub use shared::waiting::{SgtNote, sgt_desk_waits_for_itself};
pub use writes::sgt_wrote;
