//! Whether an order is a serial run.
ghost use Rattle.std.specs.Prelude.{◌≡◌, ◌<◌, ℕ, IsTrue, IfOk, length, false, true};
ghost use Rattle.std.proofs.Common.{get_or};
ghost use Rattle.sgt_appends.specs.Tables.{IsNamed};
ghost use Rattle.sgt_appends.specs.Runs.{Ended, MayRun, nothing, IsRun, IsSerialRun};
ghost use Rattle.sgt_appends.specs.Lists.{Has, IsOnce};
ghost use Rattle.sgt_appends.specs.declared.transaction.Status.TheVariants.{Committed};

use crate::contents::Contents;
use crate::transaction::{Status, Transaction};
use sgt_model::NoMemory;
use std::alloc::Global;

/// Whether the order is a serial run of the history.
pub fn is_serial_run(
    alloc: Global,
    history: &[Transaction],
    order: &[usize],
) -> Result<bool, NoMemory>
    ensures { IfOk result (λ yes. IsTrue yes → IsSerialRun history.now order.now) }
{
    Ok(names_each(alloc, history, order)? && runs(alloc, history, order)?)
}

/// Whether each transaction of the order sees what was observed.
fn runs(alloc: Global, history: &[Transaction], order: &[usize]) -> Result<bool, NoMemory>
    ensures { IfOk result (λ yes. IsTrue yes → IsRun history.now nothing order.now) }
{
    let mut contents = Contents::new(alloc);
    for number in order {
        let Some(transaction) = history.get(*number) else {
            return Ok(false);
        };
        if !contents.run(alloc, transaction.operations.as_slice())? {
            return Ok(false);
        }
    }
    Ok(true)
}

/// Whether the order names each committed transaction, no aborted one, and none twice.
pub fn names_each(alloc: Global, history: &[Transaction], order: &[usize]) -> Result<bool, NoMemory>
    ensures once { IfOk result (λ yes. IsTrue yes → IsOnce order.now) }
    ensures committed { IfOk result (λ yes. IsTrue yes → (t : ℕ) → Ended history.now t Committed → Has order.now t) }
    ensures may_run { IfOk result (λ yes. IsTrue yes → (t : ℕ) → Has order.now t → MayRun history.now t) }
{
    let mut named = none_named(alloc, history.len())?;
    Ok(names_right(history, order, named.as_mut_slice()) && all_named(history, named.as_slice()))
}

/// A mark for each transaction; none is set.
pub(crate) fn none_named(alloc: Global, len: usize) -> Result<Vec<bool>, NoMemory>
    ensures len { IfOk result (λ named. length named.items ≡ len) }
    ensures none { IfOk result (λ named. (t : ℕ) → get_or named.items t false ≡ false) }
{
    let mut named = Vec::with_capacity(alloc, len)?;
    for _ in 0..len {
        named.push_reserved(false);
    }
    Ok(named)
}

/// Whether the order names no aborted transaction, and none twice. It marks those that the order names.
fn names_right(history: &[Transaction], order: &[usize], named: &mut [bool]) -> bool
    requires len { length named.old ≡ length history.now }
    requires none { (t : ℕ) → get_or named.old t false ≡ false }
    ensures { IsTrue result → IsNamed history.now order.now named.new }
{
    for number in order {
        let Some(transaction) = history.get(*number) else {
            return false;
        };
        if named[*number] || transaction.status == Status::Aborted {
            return false;
        }
        named[*number] = true;
    }
    true
}

/// Whether each committed transaction is marked.
fn all_named(history: &[Transaction], named: &[bool]) -> bool
    requires { length named.now ≡ length history.now }
    ensures { IsTrue result → (t : ℕ) → Ended history.now t Committed → get_or named.now t false ≡ true }
{
    for (number, transaction) in history.iter().enumerate() {
        if transaction.status == Status::Committed && !named[number] {
            return false;
        }
    }
    true
}
