//! Transactions with an unknown end must have no reads: a test.
ghost use Rattle.std.specs.Prelude.{IfSome, IsNone};
ghost use Rattle.sgt_appends.specs.Orders.{UnknownOnlyAppend};
ghost use Rattle.sgt_appends.specs.Reads.{HasUnknownRead, HasNoUnknownRead};

use crate::transaction::{Operation, Status, Transaction};

/// The first read of a transaction with an unknown end: the transaction, and the position of the read.
pub fn unknown_read(history: &[Transaction]) -> Option<(usize, usize)>
    ensures some { IfSome result (λ x. HasUnknownRead history.now x.0 x.1) }
    ensures none { IsNone result → UnknownOnlyAppend history.now }
{
    for number in 0..history.len() {
        if let Some(read) = unknown_read_in(history, number) {
            return Some((number, read));
        }
    }
    None
}

/// The position of the first read of the transaction, if its end is unknown.
fn unknown_read_in(history: &[Transaction], number: usize) -> Option<usize>
    ensures some { IfSome result (HasUnknownRead history.now number) }
    ensures none { IsNone result → HasNoUnknownRead history.now number }
{
    let transaction = history.get(number)?;
    if transaction.status != Status::Unknown {
        return None;
    }
    for (position, operation) in transaction.operations.iter().enumerate() {
        match operation {
            Operation::Read { .. } => return Some(position),
            Operation::Append { .. } => (),
        }
    }
    None
}
