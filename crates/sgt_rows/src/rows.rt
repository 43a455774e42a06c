//! Rows that come one after another, in any order.
ghost use Rattle.std.specs.Prelude.{◌≡◌, true, false, None, IsSome, IfOk, OnOk, OnErr};
ghost use Rattle.sgt_model.specs.Numbers.{IsValue};
ghost use Rattle.sgt_model.specs.Contents.{Key, put_in};
ghost use Rattle.sgt_model.specs.Databases.{contents_of};
ghost use Rattle.sgt_model.specs.StoredValues.{HoldValues};

use sgt_model::{Database, Key, NoMemory};
use std::alloc::Global;
use std::collections::BTreeMap;
use std::marker::Model;

/// Rows that come one after another, in any order. Each key has one value.
///
/// A row whose key is greater than those of all rows before it is appended. From the first other row on, all rows go into a
/// B-tree. So no row moves another.
#[derive(Drop)]
pub struct Rows {
    first: Database,
    // The rows since the first that came out of order. Their values replace those of `first`.
    later: BTreeMap<Key, i64>,
}

impl Model for Rows {
    ghost use Rattle.std.specs.Prelude.{List, ◌++◌};
    ghost use Rattle.sgt_model.specs.Databases.{Row, contents_of};
    ghost use Rattle.sgt_model.specs.StoredValues.{HoldValues};

    ghost Value = { List Row };

    ghost view = { λ r. r.later.entries ++ r.first };

    ghost invariant = { λ r. HoldValues (contents_of r.later.entries) };
}

impl Rows {
    /// The rows of a database. It allocates nothing.
    pub fn of(alloc: Global, database: Database) -> Self
        ensures { result ≡ database }
    {
        Rows {
            first: database,
            later: BTreeMap::new(alloc),
        }
    }

    /// The value of the key, or none.
    pub fn get(&self, key: Key) -> Option<i64>
        ensures { result ≡ contents_of self.now key }
    {
        match self.later.get(&key) {
            Some(value) => Some(*value),
            None => self.first.get(key),
        }
    }

    /// Replaces the key's value, or adds a row. The value is from `LEAST` to `MOST`.
    ///
    /// `NoMemory` if an allocation failed. Then nothing has changed.
    pub fn put(&mut self, key: Key, value: i64) -> Result<(), NoMemory>
        requires { IsValue value }
        ensures put { OnOk result ((k : Key) → contents_of self.new k ≡ put_in (contents_of self.old) key value k) }
        ensures err { OnErr result (self.new ≡ self.old) }
    {
        if self.later.is_empty() && is_last(&self.first, key) {
            self.first.put(key, value)?;
        } else {
            self.later.insert(key, value)?;
        }
        Ok(())
    }

    /// Replaces the key's value, or adds a row, and returns the value before, or none. The value is from `LEAST` to `MOST`.
    /// It searches the B-tree once.
    ///
    /// `NoMemory` if an allocation failed. Then nothing has changed.
    pub fn replace(&mut self, key: Key, value: i64) -> Result<Option<i64>, NoMemory>
        requires { IsValue value }
        ensures put { OnOk result ((k : Key) → contents_of self.new k ≡ put_in (contents_of self.old) key value k) }
        ensures before { IfOk result (λ v. v ≡ contents_of self.old key) }
        ensures err { OnErr result (self.new ≡ self.old) }
    {
        let first = self.first.get(key);
        if self.later.is_empty() && is_last(&self.first, key) {
            self.first.put(key, value)?;
            return Ok(first);
        }
        let later = self.later.insert(key, value)?;
        Ok(later.or(first))
    }

    /// Adds a row if the key has none, and returns whether it did. If the key has a value, nothing changes. The value is from
    /// `LEAST` to `MOST`.
    ///
    /// `NoMemory` if an allocation failed. Then nothing has changed.
    pub fn put_new(&mut self, key: Key, value: i64) -> Result<bool, NoMemory>
        requires { IsValue value }
        ensures put { IfOk result (λ new. new ≡ true → (k : Key) →
            contents_of self.new k ≡ put_in (contents_of self.old) key value k) }
        ensures new { IfOk result (λ new. new ≡ true → contents_of self.old key ≡ None) }
        ensures taken { IfOk result (λ new. new ≡ false → IsSome (contents_of self.old key)) }
        ensures kept { IfOk result (λ new. new ≡ false → self.new ≡ self.old) }
        ensures err { OnErr result (self.new ≡ self.old) }
    {
        if self.get(key).is_some() {
            return Ok(false);
        }
        self.put(key, value)?;
        Ok(true)
    }

    /// The database of the rows.
    ///
    /// `NoMemory` if an allocation failed; rows that came by key need none.
    pub fn database(self, alloc: Global) -> Result<Database, NoMemory>
        ensures { IfOk result (λ d. (k : Key) → contents_of d k ≡ contents_of self k) }
    {
        let Rows { first, later } = self;
        if later.is_empty() {
            return Ok(first);
        }
        let later = by_key(alloc, &later)?;
        first.updated(alloc, &later)
    }
}

// Whether all rows come before the key.
fn is_last(rows: &Database, key: Key) -> bool {
    match rows.rows().last() {
        Some(row) => row.0 < key,
        None => true,
    }
}

// The entries of a B-tree as a database.
fn by_key(alloc: Global, entries: &BTreeMap<Key, i64>) -> Result<Database, NoMemory>
    requires { HoldValues (contents_of entries.now.entries) }
    ensures { IfOk result (λ d. (k : Key) → contents_of d k ≡ contents_of entries.now.entries k) }
{
    let mut rows = Database::empty(alloc);
    for (key, value) in entries {
        rows.put(*key, *value)?;
    }
    Ok(rows)
}
