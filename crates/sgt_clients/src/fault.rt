//! The errors that can end a check of what clients saw.
ghost use Rattle.std.specs.Prelude.{◌≡◌};
ghost use Rattle.sgt_clients.specs.declared.fault.ClientsFault.TheVariants as fault;
ghost use Rattle.sgt_clients.specs.declared.fault.ReadError.TheVariants as error;
ghost use Rattle.sgt_check.specs.declared.fault.CheckFault.TheVariants as check_fault;

use crate::hint::Hint;
use sgt_check::CheckFault;
use sgt_notation::Shown;
use thiserror::Error;

/// What is wrong with an entry. Operations are counted from 1.
#[derive(Debug, Drop, Error)]
pub enum Flaw {
    /// The text is not JSON from this column on.
    #[error("no JSON from column {0} on")]
    NotJson(usize),
    /// The entry is not an object.
    #[error("no object")]
    NoObject,
    #[error("the type is not invoke, ok, fail or info")]
    Type,
    #[error("the process is not a whole number or a text")]
    Process,
    #[error("the value is not a list of operations")]
    Value,
    #[error("operation {0} is not [\"append\",key,value] or [\"r\",key,values]")]
    Operation(usize),
    #[error("the key of operation {0} is not a whole number, or a text of 1 to 64 letters, digits and _ . / : -")]
    Key(usize),
    #[error("operation {0} has a value that is not a whole number of at most 15 digits")]
    Number(usize),
    /// The other invocation is on this line, and has this number among the entries.
    #[error("process {0} has invoked another transaction, line {1}, entry {2}, and has not ended it")]
    Invoked(Shown, u64, usize),
    /// The invocation is on this line, and has this number among the entries.
    #[error("the operations are not those of the invocation, line {0}, entry {1}")]
    OtherOperations(u64, usize),
    #[error("no invocation: without it it is unknown when the transaction began, which --strict needs")]
    NoInvocation,
    #[error("more than 16777216 keys")]
    TooManyKeys,
    #[error("more than 16777216 processes")]
    TooManyProcesses,
}

/// The position of an entry in the input, from 1.
#[derive(Clone, Copy, Debug, Error)]
pub enum Position {
    /// By lines, if each entry stands on a line of its own.
    #[error("line {0}")]
    Line(usize),
    /// By entries.
    #[error("entry {0}")]
    Entry(usize),
}

/// Why an entry was not read.
#[derive(Drop)]
pub(crate) enum ReadError {
    /// The entry is wrong.
    Flaw(Flaw),
    /// The text is not JSON, from this line and column of it on, both from 1.
    NotJson(usize, usize),
    /// The process with this number has invoked this other transaction, and has not ended it.
    Invoked(u32, usize),
    /// The operations are not those of the transaction's invocation.
    OtherOperations(usize),
    /// An allocation failed.
    NoMemory,
}

impl From<sgt_model::NoMemory> for ReadError {
    ghost from_gives = { λ _ f. f ≡ error.NoMemory };

    fn from(_: sgt_model::NoMemory) -> Self {
        ReadError::NoMemory
    }
}

/// Why a check of what clients saw ended without a report. Lines and entries are counted from 1.
#[derive(Debug, Drop, Error)]
pub enum ClientsFault {
    /// The entry, which starts on the line, is wrong. If it is not JSON, that is the line from which on it is not.
    #[error("line {0}, entry {1}: {2}")]
    Entry(u64, usize, Flaw),
    /// The same, and what a second line says.
    #[error("line {0}, entry {1}: {2}")]
    Hinted(u64, usize, Flaw, Hint),
    /// The transaction that ended or began here appends the value to the key, after the one that ended or began there.
    #[error("{0} appends {1} to key {2} a second time, after {3}")]
    Twice(Position, i64, Shown, Position),
    /// The same, and the second one is an end of a process without an open invocation.
    #[error("{0} appends {1} to key {2} a second time, after {3}: it ends no invocation of its process")]
    Unasked(Position, i64, Shown, Position),
    /// The same, and the first one is an end without an invocation, and the second one the invoke of the same process.
    #[error("{0} appends {1} to key {2} a second time, after {3}")]
    Early(Position, i64, Shown, Position),
    /// There is no transaction to judge.
    #[error("no operations")]
    NoOperations,
    /// The same. This many entries are of no transaction.
    #[error("no operations; entries skipped, since they are of no transaction: {0}")]
    OnlySkipped(usize),
    /// Real time is to be kept, and no entry is an invocation.
    #[error("no invocations: without them it is unknown when transactions began, which --strict needs")]
    NoInvocations,
    /// Neither an order nor a violation was found.
    #[error("undecided")]
    Undecided,
    /// The input is too long, a read or a write failed, or an allocation.
    #[error("{0}")]
    Check(CheckFault),
}

impl From<sgt_model::NoMemory> for ClientsFault {
    ghost from_gives = { λ _ f. f ≡ fault.Check check_fault.NoMemory };

    fn from(_: sgt_model::NoMemory) -> Self {
        ClientsFault::Check(CheckFault::NoMemory)
    }
}

impl From<CheckFault> for ClientsFault {
    ghost from_gives = { λ f g. g ≡ fault.Check f };

    fn from(fault: CheckFault) -> Self {
        ClientsFault::Check(fault)
    }
}
