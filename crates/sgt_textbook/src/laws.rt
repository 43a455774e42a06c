//! Laws of the textbook's history of every legal history. Each body only calls the laws that it rests on: the law is
//! its contract.
ghost use Rattle.sgt_textbook.specs.Laws.{AreCommitOrdered, AreRecoverable, AreSerializable, AreStrictlySerializable, AreWellFormed, CommitOrdersAreSerial, CommitOrdersKeepRealTime, CommitOrdersReadAlike, EdgesArePairs, KeysCanBeNumbered, ReadsAgree, SomeCascade};
ghost use Rattle.sgt_textbook.specs.NeededAborts.{CascadesAreNeeded, CyclesAreLive, LiveOnesMayCommit, RejectionsAreNeeded, RejectsExactly};

use sgt_classes::{
    commit_ordered_are_serializable, serial_orders_are_enough, serial_runs_read_alike,
};
use sgt_model::{aborts_have_cause, commit_order_is_total, commits_in_order};

/// The textbook's history of a legal one is well formed: no transaction does anything after its commit or abort
/// (Bernstein, Hadzilacos and Goodman (1987), chapter 2).
pub fn legal_are_well_formed()
    ensures { AreWellFormed }
{
    aborts_have_cause();
}

/// The textbook's history of a legal one is commit ordered: if operations of two committed transactions conflict, the
/// transaction of the earlier one commits first (Durner and Neumann, ICDE 2019).
pub fn legal_are_commit_ordered()
    ensures { AreCommitOrdered }
{
    commit_order_is_total();
    commits_in_order();
}

/// The textbook's history of a legal one is serializable: its committed projection is conflict equivalent to a serial
/// history (Bernstein, Hadzilacos and Goodman (1987), chapter 2).
pub fn legal_are_serializable()
    ensures { AreSerializable }
{
    legal_are_commit_ordered();
    commit_ordered_are_serializable();
}

/// The textbook's history of a legal one is recoverable: no transaction commits before one that it has read from
/// (Bernstein, Hadzilacos and Goodman (1987), chapter 2).
pub fn legal_are_recoverable()
    ensures { AreRecoverable }
{
    commit_order_is_total();
    commits_in_order();
}

/// The serialization graph of the textbook's history of a legal one has exactly the conflicts as edges. An edge leads
/// from one transaction to another exactly if both are committed and conflict in this order.
pub fn edges_are_pairs()
    ensures { EdgesArePairs }
{}

/// One transaction reads from another in the textbook's history of a legal one exactly if it has read from it: a read
/// of it returned the other's write. That write was the newest one, not counting those of aborted transactions.
pub fn reads_agree()
    ensures { ReadsAgree }
{}

/// The committed transactions of a legal history, in commit order, are a serial order of its textbook's history. Each
/// occurs once, and each edge of the serialization graph leads forward. One after another in this order, they are a
/// serial history that is conflict equivalent to its committed projection (Bernstein, Hadzilacos and Goodman (1987),
/// chapter 2).
pub fn commit_orders_are_serial()
    ensures { CommitOrdersAreSerial }
{
    serial_orders_are_enough();
    commit_order_is_total();
    commits_in_order();
}

/// This serial history is view equivalent to the committed projection: each read reads from the same write, and the
/// final writes are the same (Bernstein, Hadzilacos and Goodman (1987), chapter 2).
pub fn commit_orders_read_alike()
    ensures { CommitOrdersReadAlike }
{
    legal_are_well_formed();
    commit_orders_are_serial();
    serial_runs_read_alike();
}

/// There is a numbering of all keys, so each legal history has one in the textbook's notation.
pub fn keys_can_be_numbered()
    ensures { KeysCanBeNumbered }
{}

/// A legal history need not avoid cascading aborts, and so need not be strict: a transaction may read a value whose
/// writer has not ended (Bernstein, Hadzilacos and Goodman (1987), chapter 2).
pub fn some_histories_cascade()
    ensures { SomeCascade }
{}

/// The textbook's history of a legal one is strictly serializable: the committed transactions, one after another in
/// commit order, are an equivalent serial history that keeps real time (Papadimitriou, 1979). If all operations of one
/// come before all operations of another, it comes first there too.
pub fn legal_are_strictly_serializable()
    ensures order { CommitOrdersKeepRealTime }
    ensures each { AreStrictlySerializable }
{
    commit_order_is_total();
    commits_in_order();
}

/// Each abort is needed. Had a rejected access been made, no continuation in which all members of its cycle commit
/// would be serializable. If one commits that was aborted in cascade, while the one that it read from aborts, the
/// history is not recoverable (Bernstein, Hadzilacos and Goodman (1987), chapters 1 and 2).
///
/// This does not say that the fewest transactions are aborted: another member of the cycle might abort instead.
pub fn aborts_are_needed()
    ensures rejections { RejectionsAreNeeded }
    ensures cascades { CascadesAreNeeded }
{}

/// If live transactions of a legal history committed now, in any order, its textbook's history would be serializable.
pub fn live_ones_may_commit()
    ensures { LiveOnesMayCommit }
{}

/// An access is rejected if and only if the history with it, all live transactions committing then, would not be
/// serializable. The cycle that the reply names has live members alone.
pub fn rejects_exactly()
    ensures exact { RejectsExactly }
    ensures live { CyclesAreLive }
{}
