//! How many transactions there are.

ghost use Rattle.std.specs.Prelude.{◌≡◌, length, count_by};
ghost use Rattle.sgt_appends.specs.declared.transaction.Status.TheVariants.{Committed, Aborted, Unknown};
ghost use Rattle.sgt_clients.specs.ReportText.{has_status};

use sgt_appends::{Status, Transaction};

/// How many transactions there are, and how they ended.
#[derive(Clone, Copy)]
pub(crate) struct Counts {
    pub transactions: usize,
    pub committed: usize,
    pub aborted: usize,
    pub unknown: usize,
}

/// Counts the transactions.
pub(crate) fn count(history: &[Transaction]) -> Counts
    ensures transactions { result.transactions ≡ length history.now }
    ensures committed { result.committed ≡ count_by (has_status Committed) history.now }
    ensures aborted { result.aborted ≡ count_by (has_status Aborted) history.now }
    ensures unknown { result.unknown ≡ count_by (has_status Unknown) history.now }
{
    Counts {
        transactions: history.len(),
        committed: count_of(history, Status::Committed),
        aborted: count_of(history, Status::Aborted),
        unknown: count_of(history, Status::Unknown),
    }
}

/// How many transactions have the status.
fn count_of(history: &[Transaction], status: Status) -> usize
    ensures { result ≡ count_by (has_status status) history.now }
{
    let mut counted = 0;
    for transaction in history {
        if has_status(transaction, status) {
            counted += 1;
        }
    }
    counted
}

/// Whether the transaction has the status.
fn has_status(transaction: &Transaction, status: Status) -> bool
    ensures { result ≡ has_status status transaction.now }
{
    matches!(
        (status, transaction.status),
        (Status::Committed, Status::Committed)
            | (Status::Aborted, Status::Aborted)
            | (Status::Unknown, Status::Unknown)
    )
}
