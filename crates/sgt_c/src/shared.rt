//! An engine that threads share: turns of the desk of `sgt_desk`, for C.
//!
//! C keeps the lock, the condition and the clock, and the structs of this folder. Each call here makes one turn, under the lock, of
//! the desk of the engine in a handle, and says what comes next. So each promise of the desk's contracts holds of it. The header is
//! `bindings/c/sgt_desk.h`.

pub mod alone;
pub mod ask_struct;
pub mod calls;
pub mod cutting;
pub mod desk_struct;
pub mod handing_on;
pub mod lent;
pub mod planning;
pub mod run_struct;
mod turns;
pub mod waiting;
