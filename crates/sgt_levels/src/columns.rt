//! The lists of the keys during a replay, with where in the order each value was appended.
ghost use Rattle.std.specs.Prelude.{◌≡◌, ◌≤◌, ◌<◌, ◌-◌, ◌==◌, ◌⊎◌, ◌++◌, ℕ, [], ◌∷◌, map, length, get_or, if◌then◌else◌, IsTrue, OnOk, IfSome, IsNone};
ghost use Rattle.sgt_appends.specs.Precedences.{appended};
ghost use Rattle.sgt_levels.specs.Replays.{values_in, places_in, IsFront};

use sgt_appends::{Operation, starts_with};
use sgt_model::NoMemory;
use std::alloc::Global;
use std::collections::BTreeMap;

/// The list of a key.
#[derive(Drop)]
pub struct Column {
    /// Its values.
    pub values: Vec<u64>,
    /// For each value the position in the order of the transaction that appended it.
    pub places: Vec<usize>,
}

/// The lists of all keys.
#[derive(Drop)]
pub struct Columns {
    columns: BTreeMap<u32, Column>,
}

impl Columns {
    /// All lists are empty.
    pub fn new(alloc: Global) -> Self
        ensures values { (k : ℕ) → values_in result k ≡ [] }
        ensures places { (k : ℕ) → places_in result k ≡ [] }
    {
        Columns {
            columns: BTreeMap::new(alloc),
        }
    }

    /// The list of the key, if anything was appended to it.
    pub fn find(&self, key: u32) -> Option<&Column>
        ensures some { IfSome result (λ column. (values_in self.now key ≡ column.now.values.items) × (places_in self.now key ≡ column.now.places.items)) }
        ensures none { IsNone result → (values_in self.now key ≡ []) × (places_in self.now key ≡ []) }
    {
        self.columns.get(&key)
    }

    /// Appends the value to the list of the key, by the transaction at this place of the order.
    fn put(&mut self, alloc: Global, key: u32, value: u64, place: usize) -> Result<(), NoMemory>
        ensures values { OnOk result ((k : ℕ) → values_in self.new k
            ≡ (if k == key then values_in self.old k ++ value ∷ [] else values_in self.old k)) }
        ensures places { OnOk result ((k : ℕ) → places_in self.new k
            ≡ (if k == key then places_in self.old k ++ place ∷ [] else places_in self.old k)) }
    {
        let mut column = match self.columns.remove(&key) {
            Some(column) => column,
            None => Column {
                values: Vec::new(alloc),
                places: Vec::new(alloc),
            },
        };
        column.values.push(value)?;
        column.places.push(place)?;
        self.columns.insert(key, column)?;
        Ok(())
    }

    /// Appends what the operation appends.
    pub fn add(
        &mut self,
        alloc: Global,
        operation: &Operation,
        place: usize,
    ) -> Result<(), NoMemory>
        ensures values { OnOk result ((k : ℕ) → values_in self.new k ≡ values_in self.old k ++ appended k (operation.now ∷ [])) }
        ensures places { OnOk result ((k : ℕ) → places_in self.new k
            ≡ places_in self.old k ++ map (λ v. place) (appended k (operation.now ∷ []))) }
    {
        match operation {
            Operation::Append { key, value } => self.put(alloc, *key, *value, place),
            Operation::Read { .. } => Ok(()),
        }
    }

    /// Appends what the operations append.
    pub fn add_all(
        &mut self,
        alloc: Global,
        operations: &[Operation],
        place: usize,
    ) -> Result<(), NoMemory>
        ensures values { OnOk result ((k : ℕ) → values_in self.new k ≡ values_in self.old k ++ appended k operations.now) }
        ensures places { OnOk result ((k : ℕ) → places_in self.new k
            ≡ places_in self.old k ++ map (λ v. place) (appended k operations.now)) }
    {
        for operation in operations {
            self.add(alloc, operation, place)?;
        }
        Ok(())
    }

    /// Whether the list of the key was this one before the place of the order.
    pub fn stood(&self, key: u32, base: &[u64], start: usize) -> bool
        ensures { IsTrue result → IsFront (values_in self.now key) (places_in self.now key) base.now start }
    {
        match self.find(key) {
            Some(column) => {
                starts_with(column.values.as_slice(), base)
                    && ends_before(column.places.as_slice(), base.len(), start)
                    && goes_on_after(column.places.as_slice(), base.len(), start)
            }
            None => base.is_empty(),
        }
    }

    /// Whether the list of the key has not grown since that place of the order.
    pub fn stays(&self, key: u32, start: usize) -> bool
        ensures { IsTrue result → IsFront (values_in self.now key) (places_in self.now key) (values_in self.now key) start }
    {
        match self.find(key) {
            Some(column) => self.stood(key, column.values.as_slice(), start),
            None => true,
        }
    }
}

/// Whether the first values were appended before the place.
fn ends_before(places: &[usize], count: usize, start: usize) -> bool
    ensures { IsTrue result → (count ≡ 0) ⊎ (get_or places.now (count - 1) 0 < start) }
{
    if count == 0 {
        return true;
    }
    match places.get(count - 1) {
        Some(place) => *place < start,
        None => false,
    }
}

/// Whether the value after the first ones, if any, was appended at the place or later.
fn goes_on_after(places: &[usize], count: usize, start: usize) -> bool
    ensures { IsTrue result → (length places.now ≤ count) ⊎ (start ≤ get_or places.now count 0) }
{
    match places.get(count) {
        Some(place) => start <= *place,
        None => true,
    }
}
