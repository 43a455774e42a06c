//! Why a call rests.
use sgt_model::Tid;

/// Why a call rests. It holds as long as the call could do nothing else than rest again.
#[derive(Clone, Copy)]
pub enum Reason {
    /// The commit of the first transaction waits for the second, and both are live.
    Turn(Tid, Tid),
    /// This many transactions are live, which is as many as the limits allow.
    Full(usize),
    /// No transaction has ended since `Desk::ended` was this number, and some transaction is live.
    End(u64),
    /// The history is still in this part, and may not be cut: a transaction is live, or the end of one that rested in its commit
    /// was not returned yet.
    Busy(u64),
    /// A call waits for a cut, so that nothing is started before.
    Cut,
}
