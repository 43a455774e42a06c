//! Access to the records by key, or by an index that was found before.
ghost use Rattle.std.specs.Prelude.{◌≡◌, ℕ, None, Some, true, false, cond, ◌⊎◌, IfSome, IfOk, OnErr};
ghost use Rattle.std.specs.Option.{option_copied};
ghost use Rattle.sgt_model.specs.Contents.{Key, key_eq};
ghost use Rattle.sgt_records.specs.declared.written.Written.TheVariants.{Nothing};
ghost use Rattle.sgt_records.specs.Tables.{index_in, record_in};

use crate::record::Record;
use crate::table::Table;
use crate::written::Written;
use sgt_model::{Key, NoMemory};

impl Table {
    /// The index of the key's record, if it has one.
    #[inline(always)]
    pub fn index(&self, key: Key) -> Option<usize>
        ensures { result ≡ index_in self.now key }
    {
        let (newer, older) = self.hints.guesses(key);
        if self.is_at(key, newer) {
            return Some(newer);
        }
        if self.is_at(key, older) {
            return Some(older);
        }
        self.search(key)
    }

    /// The index of the key's record by its guesses. The map is searched only if both guesses are taken: then an earlier record
    /// may have the hash of the key.
    #[inline(always)]
    pub fn guess(&self, key: Key) -> Option<usize>
        ensures { IfSome result (λ index. index_in self.now key ≡ Some index) }
    {
        let (newer, older) = self.hints.guesses(key);
        if self.is_at(key, newer) {
            return Some(newer);
        }
        if self.is_at(key, older) {
            return Some(older);
        }
        if older < self.keys.len() {
            self.search(key)
        } else {
            None
        }
    }

    // Whether there is a record with this index, and it is the key's.
    #[inline(always)]
    fn is_at(&self, key: Key, index: usize) -> bool
        ensures { result ≡ true → index_in self.now key ≡ Some index }
    {
        index < self.keys.len() && self.keys[index] == key
    }

    // The index of the key's record by the map, if it has one.
    #[inline(never)]
    fn search(&self, key: Key) -> Option<usize>
        ensures { result ≡ index_in self.now key }
    {
        self.indices.get(&key).copied()
    }

    /// The record of the key, if it has one.
    #[inline(always)]
    pub fn get(&self, key: Key) -> Option<&Record>
        ensures { option_copied result ≡ record_in self.now key }
    {
        match self.index(key) {
            Some(index) => Some(self.at(key, index)),
            None => None,
        }
    }

    /// The record of a key that has this index.
    #[inline(always)]
    pub fn at(&self, _key: Key, index: usize) -> &Record
        requires { index_in self.now _key ≡ Some index }
        ensures { record_in self.now _key ≡ Some result.now }
    {
        &self.records[index]
    }

    /// Replaces the key's record, which has this index.
    #[inline(always)]
    pub fn put(&mut self, _key: Key, index: usize, given: Record)
        requires { index_in self.old _key ≡ Some index }
        ensures put { (k : Key) → record_in self.new k ≡ cond (key_eq _key k) (Some given) (record_in self.old k) }
        ensures indices { self.new.indices ≡ self.old.indices }
    {
        self.records[index] = given;
    }

    /// The index of the key's record. If it has none, one search of the map adds one, with no committed value and nothing
    /// written. `NoMemory` if an allocation failed.
    #[inline(never)]
    pub fn find_or_add(&mut self, key: Key) -> Result<usize, NoMemory>
        ensures records { (k : Key) → (record_in self.new k ≡ record_in self.old k)
            ⊎ ((record_in self.old k ≡ None) × (record_in self.new k ≡ Some (record { committed = None; written = Nothing }))) }
        ensures index { IfOk result (λ index. index_in self.new key ≡ Some index) }
        ensures stay { (k : Key) (p : ℕ) → index_in self.old k ≡ Some p → index_in self.new k ≡ Some p }
        ensures others { (k : Key) → key_eq key k ≡ false → index_in self.new k ≡ index_in self.old k }
        ensures unchanged { OnErr result ((k : Key) → record_in self.new k ≡ record_in self.old k) }
    {
        let index = self.records.len();
        self.records.reserve(1)?;
        self.keys.reserve(1)?;
        self.hints.reserve(self.keys.as_slice())?;
        if let Some(earlier) = self.indices.insert(key, index)? {
            // Its key is there, so this allocates nothing.
            if self.indices.insert(key, earlier).is_err() {
                unreachable!()
            }
            return Ok(earlier);
        }
        self.hints.note(key, index);
        self.records.push_reserved(Record {
            committed: None,
            written: Written::Nothing,
        });
        self.keys.push_reserved(key);
        Ok(index)
    }

    /// Drops the record of a key that has this index. The last record takes the index. It allocates nothing.
    pub fn remove(&mut self, key: Key, index: usize)
        requires { index_in self.old key ≡ Some index }
        ensures { (k : Key) → record_in self.new k ≡ cond (key_eq key k) None (record_in self.old k) }
    {
        let last = self.keys.len() - 1;
        let moved = self.keys[last];
        self.records.swap_remove(index);
        self.keys.swap_remove(index);
        // Its key is there, so this allocates nothing.
        if self.indices.insert(moved, index).is_err() {
            unreachable!()
        }
        self.indices.remove(&key);
        self.hints.drop_index(key, index);
        self.hints.replace(moved, last, index);
    }
}
