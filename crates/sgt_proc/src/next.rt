//! The next step of a procedure.
use sgt_model::{Answers, Key};

/// The next step of a procedure without its answers: a few bytes, which are copied. `Cursor::answers` returns the answers.
#[derive(Clone, Copy)]
pub enum Ahead {
    /// It reads the record.
    Look(Key),
    /// It writes the value to the record, or none: then it removes the record.
    Put(Key, Option<i64>),
    /// It ends.
    Ends,
    /// It aborts with the code: one of its own from 1 to 999, or 1000 from arithmetic.
    Asks(u16),
}

/// The next step of a procedure.
#[derive(Drop)]
pub enum Next {
    /// It reads the record.
    Look(Key),
    /// It writes the value to the record, or none: then it removes the record.
    Put(Key, Option<i64>),
    /// It ends, with these answers.
    Ends(Answers),
    /// It aborts with the code: one of its own from 1 to 999, or 1000 from arithmetic.
    Asks(u16),
}
