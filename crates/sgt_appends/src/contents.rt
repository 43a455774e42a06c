//! Running transactions one after another.
ghost use Rattle.std.specs.Prelude.{◌≡◌, ◌==◌, ◌++◌, ℕ, List, [], ◌∷◌, if◌then◌else◌, IsTrue, IfOk, OnOk, ◌↔◌, length};
ghost use Rattle.std.proofs.Common.{drop};
ghost use Rattle.sgt_appends.specs.Precedences.{appended};
ghost use Rattle.sgt_appends.specs.Runs.{after, after_all, Sees, SeesAll};
ghost use Rattle.sgt_appends.specs.Tables.{stands};

use crate::fault::ends_with;
use crate::transaction::Operation;
use sgt_model::NoMemory;
use std::alloc::Global;
use std::collections::BTreeMap;

/// The current list of each key.
#[derive(Drop)]
pub struct Contents {
    lists: BTreeMap<u32, Vec<u64>>,
}

impl Contents {
    /// All lists are empty.
    pub fn new(alloc: Global) -> Self
        ensures { (k : ℕ) → stands result k ≡ [] }
    {
        Contents {
            lists: BTreeMap::new(alloc),
        }
    }

    /// Appends the value to the key's list.
    fn append(&mut self, alloc: Global, key: u32, value: u64) -> Result<(), NoMemory>
        ensures { OnOk result ((k : ℕ) → stands self.new k ≡ (if k == key then stands self.old k ++ value ∷ [] else stands self.old k)) }
    {
        let mut list = match self.lists.remove(&key) {
            Some(list) => list,
            None => Vec::new(alloc),
        };
        list.push(value)?;
        self.lists.insert(key, list)?;
        Ok(())
    }

    /// Whether the key has exactly these values.
    fn shows(&self, key: u32, values: &[u64]) -> bool
        ensures { IsTrue result → values.now ≡ stands self.now key }
    {
        match self.lists.get(&key) {
            Some(list) => values == list.as_slice(),
            None => values.is_empty(),
        }
    }

    /// Runs the operation, and returns whether it sees what was observed.
    fn step(&mut self, alloc: Global, operation: &Operation) -> Result<bool, NoMemory>
        ensures sees { IfOk result (λ yes. IsTrue yes → Sees operation.now (stands self.old)) }
        ensures after { OnOk result ((k : ℕ) → stands self.new k ≡ after operation.now (stands self.old) k) }
    {
        match operation {
            Operation::Append { key, value } => {
                self.append(alloc, *key, *value)?;
                Ok(true)
            }
            Operation::Read { key, values } => Ok(self.shows(*key, values.as_slice())),
        }
    }

    /// Runs the operations, and returns whether each sees what was observed.
    pub fn run(&mut self, alloc: Global, operations: &[Operation]) -> Result<bool, NoMemory>
        ensures sees { IfOk result (λ yes. IsTrue yes → SeesAll operations.now (stands self.old)) }
        ensures after { IfOk result (λ yes. IsTrue yes → (k : ℕ) → stands self.new k ≡ after_all operations.now (stands self.old) k) }
    {
        for operation in operations {
            if !self.step(alloc, operation)? {
                return Ok(false);
            }
        }
        Ok(true)
    }
    /// What the operations append to each key.
    pub(crate) fn of(alloc: Global, operations: &[Operation]) -> Result<Self, NoMemory>
        ensures { IfOk result (λ all. (k : ℕ) → stands all k ≡ appended k operations.now) }
    {
        let mut all = Contents::new(alloc);
        for operation in operations {
            all.note(alloc, operation)?;
        }
        Ok(all)
    }

    /// Adds what the operation appends.
    pub(crate) fn note(&mut self, alloc: Global, operation: &Operation) -> Result<(), NoMemory>
        ensures { OnOk result ((k : ℕ) → stands self.new k ≡ stands self.old k ++ appended k (operation.now ∷ [])) }
    {
        match operation {
            Operation::Append { key, value } => self.append(alloc, *key, *value),
            Operation::Read { .. } => Ok(()),
        }
    }

    /// Whether the values end with the key's list.
    pub(crate) fn is_end_of(&self, key: u32, values: &[u64]) -> bool
        ensures { IsTrue result ↔ ((front : List ℕ) × (values.now ≡ front ++ stands self.now key)) }
    {
        match self.lists.get(&key) {
            Some(list) => ends_with(values, list.as_slice()),
            None => true,
        }
    }

    /// How many values the key's list has.
    fn count(&self, key: u32) -> usize
        ensures { result ≡ length (stands self.now key) }
    {
        match self.lists.get(&key) {
            Some(list) => list.len(),
            None => 0,
        }
    }

    /// The values of the key's list, without as many as the other's list has.
    pub(crate) fn beyond(&self, other: &Contents, key: u32) -> &[u64]
        ensures { result.now ≡ drop (length (stands other.now key)) (stands self.now key) }
    {
        match self.lists.get(&key) {
            Some(list) => values_from(list.as_slice(), other.count(key)),
            None => &[],
        }
    }
}

/// The values from the position on.
fn values_from(values: &[u64], at: usize) -> &[u64]
    ensures { result.now ≡ drop at values.now }
{
    if values.len() <= at {
        return &[];
    }
    &values[at..]
}
