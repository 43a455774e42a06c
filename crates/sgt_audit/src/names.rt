//! The entries and transactions that outcomes name, and whether any is named twice.
ghost use Rattle.std.specs.Prelude.{◌≡◌, ◌↔◌, ◌++◌, ℕ, ◌<◌, IsTrue, IfOk, OnOk, List};
ghost use Rattle.std.specs.List.{All, flat_map};
ghost use Rattle.std.specs.Option.{option_to_list};
ghost use Rattle.sgt_model.specs.Paths.{Distinct};
ghost use Rattle.sgt_audit.specs.AllOutcomes.{entries_of, transaction_at, transactions_of};

use crate::outcome::Outcome;
use sgt_log::History;
use sgt_model::{NoMemory, Tid};
use std::alloc::Global;

/// The entries that the outcomes name, in their order.
///
/// `NoMemory` if an allocation failed.
pub fn entries_named<N>(alloc: Global, outcomes: &[Outcome<N>]) -> Result<Vec<u64>, NoMemory>
    ensures { IfOk result (λ named. named.items ≡ flat_map entries_of outcomes.now) }
{
    let mut named = Vec::with_capacity(alloc, outcomes.len())?;
    for outcome in outcomes {
        if let Some(n) = entry_of(outcome) {
            named.push(n)?;
        }
    }
    Ok(named)
}

/// The entry that an outcome names, if any.
fn entry_of<N>(outcome: &Outcome<N>) -> Option<u64>
    ensures { option_to_list result ≡ entries_of outcome.now }
{
    match outcome {
        Outcome::Done(n) | Outcome::Asked(n) | Outcome::Refused(n) => Some(*n),
        Outcome::Gave(_) | Outcome::Left(_) | Outcome::Untaken | Outcome::NoMemory => None,
    }
}

/// The transactions that the outcomes name, in their order.
///
/// `NoMemory` if an allocation failed.
pub fn transactions_named<N>(
    alloc: Global,
    history: &History,
    outcomes: &[Outcome<N>],
) -> Result<Vec<u64>, NoMemory>
    ensures { IfOk result (λ named. named.items ≡ flat_map (transactions_of history.now.entries) outcomes.now) }
{
    let mut named = Vec::with_capacity(alloc, outcomes.len())?;
    for outcome in outcomes {
        add_named_by(&mut named, history, outcome)?;
    }
    Ok(named)
}

/// Adds the transactions that an outcome names.
fn add_named_by<N>(
    named: &mut Vec<u64>,
    history: &History,
    outcome: &Outcome<N>,
) -> Result<(), NoMemory>
    ensures { OnOk result (named.new.items ≡ named.old.items ++ transactions_of history.now.entries outcome.now) }
{
    match outcome {
        Outcome::Done(n) | Outcome::Asked(n) => add_named_at(named, history, *n),
        Outcome::Gave(attempts) => add_all(named, attempts.as_slice()),
        Outcome::Refused(_) | Outcome::Left(_) | Outcome::Untaken | Outcome::NoMemory => Ok(()),
    }
}

/// Adds the transaction that entry n names, if any.
fn add_named_at(named: &mut Vec<u64>, history: &History, n: u64) -> Result<(), NoMemory>
    ensures { OnOk result (named.new.items ≡ named.old.items ++ transaction_at history.now.entries n) }
{
    if let Some(entry) = history.get_entry(n as usize) {
        if let Some(t) = entry.named() {
            named.push(u64::from(t.0))?;
        }
    }
    Ok(())
}

/// Adds these transactions.
fn add_all(named: &mut Vec<u64>, tids: &[Tid]) -> Result<(), NoMemory>
    ensures { OnOk result (named.new.items ≡ named.old.items ++ tids.now) }
{
    for t in tids {
        named.push(u64::from(t.0))?;
    }
    Ok(())
}

/// Whether no number occurs twice. Marks each in a table that has one item for each possible number.
///
/// `NoMemory` if that table could not be allocated.
pub fn none_twice(alloc: Global, numbers: &[u64], bound: usize) -> Result<bool, NoMemory>
    requires { All (λ n. n < bound) numbers.now }
    ensures { IfOk result (λ once. IsTrue once ↔ Distinct numbers.now) }
{
    let mut seen = Vec::from_elem(alloc, false, bound)?;
    for n in numbers {
        let at = *n as usize;
        if seen[at] {
            return Ok(false);
        }
        seen[at] = true;
    }
    Ok(true)
}
