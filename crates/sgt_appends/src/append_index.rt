//! Where each value is appended.
ghost use Rattle.std.specs.Prelude.{◌≡◌, ◌+◌, ◌↔◌, ℕ, Some, None, if◌then◌else◌, IsTrue, IsSome, IfOk, IfSome, OnOk, slice_get};
ghost use Rattle.std.specs.Ordering.{is_eq};
ghost use Rattle.sgt_appends.specs.Runs.{operations_of};
ghost use Rattle.sgt_appends.specs.Precedences.{AppendsOnce};
ghost use Rattle.sgt_appends.specs.Indexes.{position_of, pair_cmp, IsNoted, IsTaken, IsFiled, IsIndex};

use crate::transaction::{Operation, Transaction};
use sgt_model::NoMemory;
use std::alloc::Global;
use std::collections::BTreeMap;

/// For each key and value: the transaction that appends it, and the position of the append in that transaction.
#[derive(Drop)]
pub struct AppendIndex {
    positions: BTreeMap<(u32, u64), (usize, usize)>,
}

impl AppendIndex {
    /// The positions of the transactions' appends, or `None` if a value is appended twice to a key.
    pub fn of_history(alloc: Global, history: &[Transaction]) -> Result<Option<Self>, NoMemory>
        ensures index { IfOk result (λ found. IfSome found (λ appends. IsIndex history.now (position_of appends))) }
        ensures once { IfOk result (λ found. IsSome found ↔ AppendsOnce history.now) }
    {
        let mut appends = AppendIndex {
            positions: BTreeMap::new(alloc),
        };
        for (number, transaction) in history.iter().enumerate() {
            if !appends.add_all(history, number, transaction.operations.as_slice())? {
                return Ok(None);
            }
        }
        Ok(Some(appends))
    }

    /// Adds the operations of the transaction, and returns whether all its values were new.
    fn add_all(
        &mut self,
        history: &[Transaction],
        transaction: usize,
        operations: &[Operation],
    ) -> Result<bool, NoMemory>
        requires are { operations_of history.now transaction ≡ operations.now }
        requires before { IsFiled history.now transaction 0 (position_of self.old) }
        ensures filed { IfOk result (λ fresh. IsTrue fresh → IsFiled history.now (transaction + 1) 0 (position_of self.new)) }
        ensures twice { IfOk result (λ fresh. (¬ IsTrue fresh) → ¬ AppendsOnce history.now) }
    {
        for (position, operation) in operations.iter().enumerate() {
            if !self.add(operation, transaction, position)? {
                return Ok(false);
            }
        }
        Ok(true)
    }

    /// Adds the operation, and returns whether its value was new.
    fn add(
        &mut self,
        operation: &Operation,
        transaction: usize,
        position: usize,
    ) -> Result<bool, NoMemory>
        ensures noted { IfOk result (λ fresh. IsTrue fresh
            → IsNoted operation.now transaction position (position_of self.old) (position_of self.new)) }
        ensures taken { IfOk result (λ fresh. (¬ IsTrue fresh) → IsTaken operation.now (position_of self.old)) }
    {
        match operation {
            Operation::Append { key, value } => self.put(*key, *value, transaction, position),
            Operation::Read { .. } => Ok(true),
        }
    }

    /// Adds the position of the value, and returns whether the value was new.
    fn put(
        &mut self,
        key: u32,
        value: u64,
        transaction: usize,
        position: usize,
    ) -> Result<bool, NoMemory>
        ensures fresh { IfOk result (λ fresh. IsTrue fresh ↔ (position_of self.old key value ≡ None)) }
        ensures added { OnOk result ((k v : ℕ) → position_of self.new k v
            ≡ (if is_eq (pair_cmp (key, value) (k, v)) then Some (transaction, position) else position_of self.old k v)) }
    {
        Ok(
            self.positions
                .insert((key, value), (transaction, position))?
                .is_none(),
        )
    }

    /// The transaction that appends the value to the key, and the position of the append in it.
    pub fn find(&self, key: u32, value: u64) -> Option<(usize, usize)>
        ensures { result ≡ position_of self.now key value }
    {
        self.positions.get(&(key, value)).copied()
    }
}

/// Whether no value is appended twice to a key.
pub fn appends_once(alloc: Global, history: &[Transaction]) -> Result<bool, NoMemory>
    ensures { IfOk result (λ once. IsTrue once ↔ AppendsOnce history.now) }
{
    Ok(AppendIndex::of_history(alloc, history)?.is_some())
}
