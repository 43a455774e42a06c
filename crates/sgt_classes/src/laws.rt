//! Laws of the classes, for every history. A body does nothing: the law is its contract.
ghost use Rattle.sgt_classes.specs.Classes.{AvoidingAreRecoverable, RigorousAreStrict, StrictAvoidCascadingAborts};
ghost use Rattle.sgt_classes.specs.Equivalence.{CommitOrderedAreSerializable, CyclesAreEnough, EquivalenceLaws, SerialOrdersAreEnough, SerialRunsAreComplete, SerializabilityTheorem};
ghost use Rattle.sgt_classes.specs.ViewEquivalence.{EquivalentAreViewEquivalent, SerialRunsReadAlike};

/// A rigorous history is strict. Rigorous: strict, and no transaction overwrites what another has read that has not
/// ended (Breitbart and others (1991)).
pub fn rigorous_are_strict()
    ensures { RigorousAreStrict }
{}

/// A strict history avoids cascading aborts: no transaction reads from another that has not committed (Bernstein,
/// Hadzilacos and Goodman (1987), chapter 2).
pub fn strict_avoid_cascading_aborts()
    ensures { StrictAvoidCascadingAborts }
{}

/// A history that avoids cascading aborts is recoverable: no transaction commits before one that it has read from
/// (Bernstein, Hadzilacos and Goodman (1987), chapter 2).
pub fn avoiding_are_recoverable()
    ensures { AvoidingAreRecoverable }
{}

/// The serializability theorem: a well formed history is serializable exactly if its serialization graph has no
/// cycle. Serializable: its committed projection is conflict equivalent to a serial history (Bernstein, Hadzilacos
/// and Goodman (1987), chapter 2).
pub fn serializability_theorem()
    ensures { SerializabilityTheorem }
{}

/// A commit ordered history is serializable, and its serialization graph has no cycle. Commit ordered: conflicts of
/// committed transactions agree with the order of their commits (Bernstein, Hadzilacos and Goodman (1987), chapter 2).
pub fn commit_ordered_are_serializable()
    ensures { CommitOrderedAreSerializable }
{}

/// If there is a serial order of the committed transactions, the serialization graph has no cycle. The transactions
/// one after another in this order are a serial history that is conflict equivalent to the committed projection
/// (Bernstein, Hadzilacos and Goodman (1987), chapter 2).
pub fn serial_orders_are_enough()
    ensures { SerialOrdersAreEnough }
{}

/// If edges form a cycle, each made by two operations that conflict, the serialization graph has a cycle. If the
/// history is well formed, it is not serializable (Bernstein, Hadzilacos and Goodman (1987), chapter 2).
pub fn cycles_are_enough()
    ensures { CyclesAreEnough }
{}

/// Conflict equivalence is reflexive, symmetric and transitive (Bernstein, Hadzilacos and Goodman (1987), chapter 2).
pub fn equivalence_laws()
    ensures { EquivalenceLaws }
{}

/// If no transaction aborts, conflict equivalent histories are view equivalent: each read reads from the same write,
/// and the final writes are the same (Bernstein, Hadzilacos and Goodman (1987), chapter 2).
pub fn equivalent_are_view_equivalent()
    ensures { EquivalentAreViewEquivalent }
{}

/// If a history is well formed, each conflict equivalent serial history is view equivalent to its committed projection
/// (Bernstein, Hadzilacos and Goodman (1987), chapter 2).
pub fn serial_runs_read_alike()
    ensures { SerialRunsReadAlike }
{}

/// If a history is well formed, each conflict equivalent serial history is complete: it is well formed, and each of
/// its transactions commits (Bernstein, Hadzilacos and Goodman (1987), chapter 2).
pub fn serial_runs_are_complete()
    ensures { SerialRunsAreComplete }
{}
