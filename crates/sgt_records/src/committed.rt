//! The committed values by key.
ghost use Rattle.std.specs.Prelude.{◌≡◌, true, IfSome, IfOk, OnOk};
ghost use Rattle.sgt_model.specs.Numbers.{IsValue};
ghost use Rattle.sgt_model.specs.Contents.{Key, set_in};
ghost use Rattle.sgt_model.specs.Databases.{contents_of, IsByKey};
ghost use Rattle.sgt_model.specs.StoredValues.{HoldValues};
ghost use Rattle.std.proofs.Props.{props};
ghost use Rattle.sgt_records.specs.Settleds.{settled_in, has_record, KeepsRecords};
ghost use Rattle.sgt_records.specs.Pendings.{settled_with, ArePending};

use crate::write::Write;
use sgt_model::{Database, Key, NoMemory, Tid};
use std::alloc::Global;
use std::collections::BTreeMap;

/// The committed values by key. An empty record counts as none: it is there so that a value can be written without an
/// allocation, or it is left of a value that was removed.
#[derive(Drop)]
pub struct Committed {
    pub records: BTreeMap<Key, Option<i64>>,
    ghost in_range: { HoldValues (settled_in records) } by { Prim.hlevel props },
}

impl Committed {
    /// The values of a database.
    pub fn of(alloc: Global, opening: &Database) -> Result<Committed, NoMemory>
        ensures { IfOk result (λ c. (k : Key) → settled_in c.records k ≡ contents_of opening.now k) }
    {
        let mut records = BTreeMap::new(alloc);
        for (key, value) in opening.rows() {
            records.insert(*key, Some(*value))?;
        }
        Ok(Committed { records })
    }

    /// The value of the key, or none.
    pub fn get(&self, key: Key) -> Option<i64>
        ensures value { result ≡ settled_in self.now.records key }
        ensures in_range { IfSome result IsValue }
    {
        match self.records.get(&key) {
            Some(value) => *value,
            None => None,
        }
    }

    /// Ensures that the key has a record.
    pub fn reserve(&mut self, key: Key) -> Result<(), NoMemory>
        ensures same { (k : Key) → settled_in self.new.records k ≡ settled_in self.old.records k }
        ensures kept { KeepsRecords self.old.records self.new.records }
        ensures ready { OnOk result (has_record self.new.records key ≡ true) }
    {
        if !self.records.contains_key(&key) {
            self.records.insert(key, None)?;
        }
        Ok(())
    }

    /// Writes the value to the key's record, or empties it. It allocates nothing.
    pub fn put(&mut self, key: Key, value: Option<i64>)
        requires ready { has_record self.old.records key ≡ true }
        requires in_range { IfSome value IsValue }
        ensures put { (k : Key) → settled_in self.new.records k
            ≡ set_in (settled_in self.old.records) key value k }
        ensures kept { KeepsRecords self.old.records self.new.records }
    {
        if let Some(record) = self.records.get_mut(&key) {
            *record = value;
        }
    }

    /// `settle`: commits t's values among the pending writes to their records. It allocates nothing.
    pub fn settle(&mut self, writes: &[Write], t: Tid)
        requires pending { ArePending self.old.records writes.now }
        ensures settled { (k : Key) → settled_in self.new.records k
            ≡ settled_with t writes.now (settled_in self.old.records) k }
        ensures kept { KeepsRecords self.old.records self.new.records }
    {
        for write in writes {
            if write.by == t {
                self.put(write.key, write.value);
            }
        }
    }

    /// All values, by key.
    pub fn all(&self, alloc: Global) -> Result<Database, NoMemory>
        ensures values { IfOk result (λ d. (k : Key) → contents_of d k ≡ settled_in self.now.records k) }
        ensures by_key { IfOk result IsByKey }
    {
        let mut values = Database::empty(alloc);
        for (key, record) in &self.records {
            if let Some(value) = record {
                values.put(*key, *value)?;
            }
        }
        Ok(values)
    }
}
