//! The status that a call returns. Those from 16 on are faults of an opening.

/// The call succeeded.
pub const OK: u32 = 0;

/// An allocation failed, and nothing has changed.
pub const NO_MEMORY: u32 = 1;

/// The handle is closed.
pub const CLOSED: u32 = 2;

/// The handle is already open.
pub const OPEN: u32 = 3;

/// There is no such record.
pub const NONE: u32 = 4;

/// A number that was passed is out of its range.
pub const BAD_CALL: u32 = 5;

/// A transaction is live.
pub const STILL_LIVE: u32 = 6;

/// There is already a history.
pub const BEGUN: u32 = 7;

/// The key of a row already has a value.
pub const TAKEN: u32 = 8;

/// No number is left for a procedure.
pub const TOO_MANY: u32 = 9;

/// Another call is in the engine.
pub const BUSY: u32 = 10;

/// The call would wait for its own thread, without a deadline.
pub const SELF_WAIT: u32 = 11;

/// The deadline has come.
pub const TIMED_OUT: u32 = 12;

/// The transaction belongs to a part of the history that was cut off.
pub const STALE: u32 = 13;

/// The opening is not JSON.
pub const NOT_JSON: u32 = 16;

/// The opening is JSON of another shape.
pub const BAD_LINE: u32 = 17;

/// A limit is out of its range.
pub const BAD_LIMITS: u32 = 18;

/// An account has a fault.
pub const BAD_OPENING: u32 = 19;

/// A procedure has a shape error.
pub const PROC_SHAPE: u32 = 20;

/// A procedure has a flaw.
pub const PROC_FLAW: u32 = 21;

/// The call rests: its next turn comes after a wake, or at its deadline.
pub const REST: u32 = 32;

/// The next turn of the call comes at once.
pub const AGAIN: u32 = 33;
