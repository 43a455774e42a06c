//! A database as a plain map from keys to values.
ghost use Rattle.std.specs.Prelude.{◌≡◌, ◌<◌, [], true, false, None, Some, IsSome, IfOk, OnOk, OnErr, length, slice_get};
ghost use Rattle.std.specs.Option.{option_or};
ghost use Rattle.sgt_model.specs.Numbers.{IsValue};
ghost use Rattle.sgt_model.specs.Contents.{Key, put_in};
ghost use Rattle.sgt_model.specs.Databases.{Row, contents_of, key_lt, IsByKey, IsFound, IsRowIndex, HasValues};

use crate::errors::NoMemory;
use crate::key::Key;
use std::alloc::Global;
use std::marker::Model;

/// A finite map from keys to values, stored as rows sorted by key. It finds a row by binary search.
///
/// Adding a row moves the rows after it; a row with the greatest key is appended at once.
/// It serves initial databases and snapshots. No engine uses it as its store.
#[derive(Debug, Drop)]
pub struct Database {
    rows: Vec<(Key, i64)>,
}

impl Model for Database {
    ghost use Rattle.std.specs.Prelude.{List};
    ghost use Rattle.sgt_model.specs.Databases.{Row, IsByKey, HasValues};

    ghost Value = { List Row };

    ghost view = { λ d. d.rows.items };

    ghost invariant = { λ d. IsByKey d.rows.items × HasValues d.rows.items };
}

impl Database {
    /// No rows. It allocates nothing.
    pub fn empty(alloc: Global) -> Self
        ensures { result ≡ [] }
    {
        Database {
            rows: Vec::new(alloc),
        }
    }

    /// The value of the key, or none.
    pub fn get(&self, key: Key) -> Option<i64>
        ensures { result ≡ contents_of self.now key }
    {
        match self.find(key) {
            Ok(at) => Some(self.rows[at].1),
            Err(_) => None,
        }
    }

    /// Replaces the key's value, or adds a row. The value is from `LEAST` to `MOST`.
    ///
    /// Only a new row allocates. If that fails, nothing changes.
    pub fn put(&mut self, key: Key, value: i64) -> Result<(), NoMemory>
        requires { IsValue value }
        ensures put { OnOk result ((k : Key) → contents_of self.new k ≡ put_in (contents_of self.old) key value k) }
        ensures err { OnErr result (self.new ≡ self.old) }
        ensures absent { OnErr result (contents_of self.old key ≡ None) }
        ensures by_key { IsByKey self.new }
    {
        match self.find(key) {
            Ok(at) => self.rows[at] = (key, value),
            Err(at) => self.rows.insert(at, (key, value))?,
        }
        Ok(())
    }

    /// Adds a row if the key has none, and returns whether it did. If the key has a value, nothing changes.
    ///
    /// The value is from `LEAST` to `MOST`. The call searches once. Only the new row allocates; if that fails, nothing changes.
    pub fn put_new(&mut self, key: Key, value: i64) -> Result<bool, NoMemory>
        requires { IsValue value }
        ensures put { IfOk result (λ new. new ≡ true → (k : Key) →
            contents_of self.new k ≡ put_in (contents_of self.old) key value k) }
        ensures new { IfOk result (λ new. new ≡ true → contents_of self.old key ≡ None) }
        ensures taken { IfOk result (λ new. new ≡ false → IsSome (contents_of self.old key)) }
        ensures kept { IfOk result (λ new. new ≡ false → self.new ≡ self.old) }
        ensures err { OnErr result (self.new ≡ self.old) }
        ensures by_key { IsByKey self.new }
    {
        match self.find(key) {
            Ok(_) => Ok(false),
            Err(at) => {
                self.rows.insert(at, (key, value))?;
                Ok(true)
            }
        }
    }

    // The index of the key's row, or else the index at which it would be inserted.
    fn find(&self, key: Key) -> Result<usize, usize>
        ensures { IsFound key self.now result }
    {
        let at = self.index(key);
        if at < self.rows.len() {
            if self.rows[at].0 == key {
                return Ok(at);
            }
        }
        Err(at)
    }

    // How many rows come before the key. If not all do, it is a binary search.
    fn index(&self, key: Key) -> usize
        ensures { IsRowIndex key self.now result }
    {
        if self.are_before(key) {
            return self.rows.len();
        }
        let mut low = 0;
        let mut high = self.rows.len();
        while low < high {
            let middle = low + (high - low) / 2;
            if self.rows[middle].0 < key {
                low = middle + 1;
            } else {
                high = middle;
            }
        }
        low
    }

    // Whether all rows come before the key.
    #[inline(always)]
    fn are_before(&self, key: Key) -> bool
        ensures { result ≡ true → IsRowIndex key self.now (length self.now) }
    {
        let count = self.rows.len();
        if count == 0 {
            return true;
        }
        self.rows[count - 1].0 < key
    }

    /// These rows merged with those of `newer`. If both have a key, the value of `newer` wins. It reads both once.
    ///
    /// `NoMemory` if an allocation failed.
    pub fn updated(&self, alloc: Global, newer: &Database) -> Result<Database, NoMemory>
        ensures values { IfOk result (λ d. (k : Key) →
            contents_of d k ≡ option_or (contents_of newer.now k) (contents_of self.now k)) }
        ensures by_key { IfOk result IsByKey }
    {
        let mut both = Database::empty(alloc);
        both.rows
            .reserve(self.rows.len().saturating_add(newer.rows.len()))?;
        let mut at = 0;
        let mut at_newer = 0;
        while at < self.rows.len() || at_newer < newer.rows.len() {
            if is_newer_next(self.rows(), at, newer.rows(), at_newer) {
                let (key, value) = newer.rows[at_newer];
                both.put(key, value)?;
                at_newer += 1;
            } else {
                let (key, value) = self.rows[at];
                both.put(key, value)?;
                at += 1;
            }
        }
        Ok(both)
    }

    /// The rows, sorted by table and then by number. Each key occurs once.
    pub fn rows(&self) -> &[(Key, i64)]
        ensures rows { result.now ≡ self.now }
        ensures by_key { IsByKey result.now }
        ensures values { HasValues result.now }
    {
        self.rows.as_slice()
    }
}

// Whether the newer row at its index exists and comes before the row at the other index, if that exists.
#[inline(always)]
fn is_newer_next(rows: &[(Key, i64)], at: usize, newer: &[(Key, i64)], at_newer: usize) -> bool
    ensures is_there { result ≡ true → at_newer < length newer.now }
    ensures is_before { result ≡ true → (q r : Row) → slice_get newer.now at_newer ≡ Some q → slice_get rows.now at ≡ Some r
        → key_lt q.0 r.0 ≡ true }
    ensures other { result ≡ false → at_newer < length newer.now → at < length rows.now }
{
    if at_newer >= newer.len() {
        return false;
    }
    at >= rows.len() || newer[at_newer].0 < rows[at].0
}
