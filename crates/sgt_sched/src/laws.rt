//! Laws of the scheduler's contracts. The function bodies are empty: each law is its function's contract.
ghost use Rattle.sgt_sched.specs.Endings.{CallsCount, RepliesEndWhere};

/// Take any call that does what `CallEffect` says. Its reply ends a live transaction exactly if its event does. At most one
/// more transaction is live afterwards, and fewer if the reply ends one.
pub fn endings_agree()
    ensures replies { RepliesEndWhere }
    ensures counts { CallsCount }
{}
