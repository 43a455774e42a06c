//! The report of a check.
ghost use Rattle.std.specs.Prelude.{◌↔◌, ◌≡◌, ◌<◌, ◌+◌, ◌-◌, ◌^◌, ◌==◌, ◌||◌, not, if◌then◌else◌, ℕ, is_some, IfOk, OnOk, IfSome, IsNone, IsTrue};
ghost use Rattle.sgt_classes.specs.Tables.{entry_of};
ghost use Rattle.sgt_classes.specs.Histories.{Does, IsWellFormed};
ghost use Rattle.sgt_classes.specs.Classes.{BreaksRecoverability, BreaksAvoidance, BreaksStrictness, BreaksRigorousness, IsFirstViolation};
ghost use Rattle.sgt_classes.specs.Serializability.{BreaksCommitOrder, IsAcyclic};
ghost use Rattle.sgt_classes.specs.Equivalence.{IsSerializable};
ghost use Rattle.sgt_classes.specs.SerialOrders.{IsShown, IsSerial};
ghost use Rattle.sgt_check.specs.Reports.{IsReport, AreCounts, IsWriteOf, IsAbortOf, commits, aborts};

use sgt_classes::{
    Action, Operation, Serializability, Table, Violation, avoidance_violation,
    avoiding_are_recoverable, commit_order_violation, commit_ordered_are_serializable, read_source,
    recoverable_violation, rigorous_are_strict, rigorous_violation, serial_commit_order,
    serial_order_or_cycle, strict_avoid_cascading_aborts, strict_violation,
};
use sgt_model::NoMemory;
use std::alloc::Global;

/// How many transactions a history has, and how many of them have ended.
#[derive(Clone, Copy, Default)]
pub struct Counts {
    /// The number of transactions: operations that are the first of their transaction.
    pub transactions: usize,
    /// The number of commits.
    pub committed: usize,
    /// The number of aborts.
    pub aborted: usize,
}

impl Counts {
    /// The number of transactions that have not ended.
    pub fn active(&self) -> usize
        ensures { result ≡ self.now.transactions - self.now.committed - self.now.aborted }
    {
        self.transactions
            .saturating_sub(self.committed)
            .saturating_sub(self.aborted)
    }
}

/// What a check finds. For each class that does not hold, it has the first operation that breaks it, and the
/// operation that this one breaks it with.
#[derive(Drop)]
pub struct Report {
    pub counts: Counts,
    /// A serial order or a cycle.
    pub serializability: Serializability,
    /// The commit of a transaction that has read from one that has not committed; and that read.
    pub recoverable: Option<Violation>,
    /// The position of the write that this read reads from.
    pub dirty_write: Option<usize>,
    /// The position of the abort of the transaction that wrote it, if that aborts.
    pub dirty_abort: Option<usize>,
    pub avoiding: Option<Violation>,
    pub strict: Option<Violation>,
    pub rigorous: Option<Violation>,
    pub commit_ordered: Option<Violation>,
}

/// Checks a history for all classes.
///
/// It runs the checkers of `sgt_classes` one after another. Rigorousness, strictness, avoidance of cascading aborts
/// and recoverability each imply the next. If a history belongs to one of these classes, the later ones cost nothing.
/// If it is commit ordered, the commit order is the serial order, and no graph is made.
///
/// # Errors
///
/// `NoMemory` if an allocation failed.
pub fn check_history(alloc: Global, history: &[Operation]) -> Result<Report, NoMemory>
    ensures { IfOk result (IsReport history.now) }
{
    let counts = count(alloc, history)?;
    let commit_ordered = commit_order_violation(alloc, history)?;
    let rigorous = rigorous_violation(alloc, history)?;
    let strict = strict_unless_rigorous(alloc, history, &rigorous)?;
    let avoiding = avoiding_unless_strict(alloc, history, &strict)?;
    let recoverable = recoverable_unless_avoiding(alloc, history, &avoiding)?;
    let dirty_write = dirty_write(alloc, history, &recoverable)?;
    let dirty_abort = abort_of(history, dirty_write);
    let serializability = serial_unless_commit_ordered(alloc, history, &commit_ordered)?;
    Ok(Report {
        counts,
        serializability,
        recoverable,
        dirty_write,
        dirty_abort,
        avoiding,
        strict,
        rigorous,
        commit_ordered,
    })
}

/// A serial order or a cycle. For a commit ordered history it is the commit order, and no graph is made.
pub(crate) fn serial_unless_commit_ordered(
    alloc: Global,
    history: &[Operation],
    commit_ordered: &Option<Violation>,
) -> Result<Serializability, NoMemory>
    requires { IsFirstViolation (BreaksCommitOrder history.now) commit_ordered.now }
    ensures shown { IfOk result (IsShown history.now) }
    ensures acyclic { IfOk result (λ shown. IsSerial shown ↔ IsAcyclic history.now) }
    ensures serializable { IfOk result (λ shown. IsWellFormed history.now → IsSerial shown ↔ IsSerializable history.now) }
{
    commit_ordered_are_serializable();
    match commit_ordered {
        Some(_) => serial_order_or_cycle(alloc, history),
        None => Ok(Serializability::Serial(serial_commit_order(alloc, history)?)),
    }
}

/// The first violation of strictness. A rigorous history has none.
fn strict_unless_rigorous(
    alloc: Global,
    history: &[Operation],
    rigorous: &Option<Violation>,
) -> Result<Option<Violation>, NoMemory>
    requires { IsFirstViolation (BreaksRigorousness history.now) rigorous.now }
    ensures { IfOk result (IsFirstViolation (BreaksStrictness history.now)) }
{
    rigorous_are_strict();
    match rigorous {
        Some(_) => strict_violation(alloc, history),
        None => Ok(None),
    }
}

/// The first violation of the avoidance of cascading aborts. A strict history has none.
fn avoiding_unless_strict(
    alloc: Global,
    history: &[Operation],
    strict: &Option<Violation>,
) -> Result<Option<Violation>, NoMemory>
    requires { IsFirstViolation (BreaksStrictness history.now) strict.now }
    ensures { IfOk result (IsFirstViolation (BreaksAvoidance history.now)) }
{
    strict_avoid_cascading_aborts();
    match strict {
        Some(_) => avoidance_violation(alloc, history),
        None => Ok(None),
    }
}

/// The first violation of recoverability. A history that avoids cascading aborts has none.
fn recoverable_unless_avoiding(
    alloc: Global,
    history: &[Operation],
    avoiding: &Option<Violation>,
) -> Result<Option<Violation>, NoMemory>
    requires { IsFirstViolation (BreaksAvoidance history.now) avoiding.now }
    ensures { IfOk result (IsFirstViolation (BreaksRecoverability history.now)) }
{
    avoiding_are_recoverable();
    match avoiding {
        Some(_) => recoverable_violation(alloc, history),
        None => Ok(None),
    }
}

/// The position of the write that the read of a violation of recoverability reads from.
fn dirty_write(
    alloc: Global,
    history: &[Operation],
    violation: &Option<Violation>,
) -> Result<Option<usize>, NoMemory>
    requires { IsFirstViolation (BreaksRecoverability history.now) violation.now }
    ensures { IfOk result (IsWriteOf history.now violation.now) }
{
    match violation {
        Some(violation) => read_source(alloc, history, violation.earlier),
        None => Ok(None),
    }
}

/// The position of the abort of the transaction that acts at a position, if it aborts.
fn abort_of(history: &[Operation], place: Option<usize>) -> Option<usize>
    ensures { IsAbortOf history.now place result }
{
    let transaction = history.get(place?)?.transaction;
    first_abort(history, transaction)
}

/// The position of the transaction's abort, if it aborts.
fn first_abort(history: &[Operation], transaction: u32) -> Option<usize>
    ensures some { IfSome result (λ i. Does history.now i transaction Action.Abort) }
    ensures none { IsNone result → (i : ℕ) → ¬ Does history.now i transaction Action.Abort }
{
    for place in 0..history.len() {
        let operation = history[place];
        if operation.transaction == transaction && is_abort(&operation.action) {
            return Some(place);
        }
    }
    None
}

/// Whether it is an abort.
fn is_abort(action: &Action) -> bool
    ensures { IsTrue result ↔ (action.now ≡ Action.Abort) }
{
    matches!(action, Action::Abort)
}

/// Counts the transactions.
pub(crate) fn count(alloc: Global, history: &[Operation]) -> Result<Counts, NoMemory>
    ensures { IfOk result (AreCounts history.now) }
{
    let mut seen = Table::new(alloc, history.len());
    let mut counts = Counts::default();
    for place in 0..history.len() {
        let operation = history[place];
        let is_first = note(&mut seen, operation.transaction, place)?;
        add(&mut counts, is_first, &operation.action);
    }
    Ok(counts)
}

/// Records that the transaction acts, and returns whether this is its first operation.
fn note(seen: &mut Table, transaction: u32, place: usize) -> Result<bool, NoMemory>
    ensures first { IfOk result (λ first. first ≡ not (is_some (entry_of seen.old transaction))) }
    ensures seen { OnOk result ((t : ℕ) →
        is_some (entry_of seen.new t) ≡ (is_some (entry_of seen.old t) || transaction == t)) }
{
    if seen.contains_key(transaction) {
        return Ok(false);
    }
    seen.set_place(transaction, place)?;
    Ok(true)
}

/// Counts an operation.
fn add(counts: &mut Counts, is_first: bool, action: &Action)
    requires transactions { counts.old.transactions + 1 < 2 ^ 64 }
    requires committed { counts.old.committed + 1 < 2 ^ 64 }
    requires aborted { counts.old.aborted + 1 < 2 ^ 64 }
    ensures transactions { counts.new.transactions ≡ counts.old.transactions + (if is_first then 1 else 0) }
    ensures committed { counts.new.committed ≡ counts.old.committed + (if commits action.now then 1 else 0) }
    ensures aborted { counts.new.aborted ≡ counts.old.aborted + (if aborts action.now then 1 else 0) }
{
    counts.transactions += usize::from(is_first);
    match action {
        Action::Commit => counts.committed += 1,
        Action::Abort => counts.aborted += 1,
        Action::Read(_) | Action::Write(_) => (),
    }
}
