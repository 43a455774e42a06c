//! The calls of a store of records, and their contracts on its committed and pending values.
ghost use Rattle.std.specs.Prelude.{◌≡◌, ℕ, ℤ, ◌<◌, false, cond, length, List, [], Option, IfSome, IfOk, OnOk};
ghost use Rattle.std.specs.List.{last_or};
ghost use Rattle.std.specs.Option.{unwrap_or};
ghost use Rattle.sgt_model.specs.Numbers.{IsValue};
ghost use Rattle.sgt_model.specs.Contents.{Key, key_eq};
ghost use Rattle.sgt_model.specs.Databases.{contents_of, IsByKey};
ghost use Rattle.sgt_model.specs.Chains.{chain_without, write_last, value_in, writes_in};
ghost use Rattle.sgt_model.specs.ChainOrder.{IsFirstIn, IsLastIn};
ghost use Rattle.sgt_model.specs.StoredValues.{HoldValues};
ghost use Rattle.sgt_records.specs.Tops.{top_of, IsTop, value_of_top};
ghost use Rattle.sgt_records.specs.Validity.{IsChain};

use crate::top::Top;
use sgt_model::{Database, Key, NoMemory, Tid};
use std::alloc::Global;

/// The committed values, and above them the writes of the live transactions.
pub trait Records: Drop + Send {
    /// The values that live transactions have written to a key: the last one of each writer, in the order of these writes.
    ghost chain: { Self → Key → List (ℕ × Option ℤ) };

    /// `settled`: the committed value of a key, or none.
    ghost settled: { Self → Key → Option ℤ };

    /// A write of the key allocates nothing.
    ghost is_ready: { Self → Key → Type 0 };

    /// The records of a database, with no write pending. `NoMemory` if an allocation failed.
    fn build(alloc: Global, opening: &Database) -> Result<Self, NoMemory>
        ensures chain { IfOk result (λ r. (k : Key) → chain r k ≡ []) }
        ensures settled { IfOk result (λ r. (k : Key) → settled r k ≡ contents_of opening.now k) };

    /// What a read of the key returns: the last write that is not undone, committed or not.
    fn top(&self, key: Key) -> Top
        ensures top { result ≡ top_of (chain self.now key) (settled self.now key) }
        ensures cases { IsTop result (last_or None (chain self.now key)) (settled self.now key) }
        ensures in_range { IfSome (value_of_top result) IsValue };

    /// Provides the capacity that the next write of the key needs. `NoMemory` if an allocation failed.
    fn reserve(&mut self, key: Key) -> Result<(), NoMemory>
        ensures chain { (k : Key) → chain self.new k ≡ chain self.old k }
        ensures settled { (k : Key) → settled self.new k ≡ settled self.old k }
        ensures ready { OnOk result (is_ready self.new key) };

    /// Writes t's value, from `LEAST` to `MOST`, above all others of the key; none removes the record. It replaces t's earlier
    /// one, over which no other transaction may have written. It allocates nothing.
    fn write(&mut self, t: Tid, key: Key, value: Option<i64>)
        requires ready { is_ready self.old key }
        requires in_range { IfSome value IsValue }
        requires last { IsLastIn t (chain self.old key) }
        requires capacity { writes_in t (chain self.old key) ≡ false
            → length (chain self.old key) < 32 }
        ensures chain { (k : Key) → chain self.new k
            ≡ cond (key_eq key k) (write_last t value (chain self.old k)) (chain self.old k) }
        ensures settled { (k : Key) → settled self.new k ≡ settled self.old k };

    /// `settle`: commits the values of t, each the first of its chain; none leaves none. It allocates nothing.
    fn settle(&mut self, t: Tid)
        requires first { (k : Key) → IsFirstIn t (chain self.old k) }
        ensures chain { (k : Key) → chain self.new k ≡ chain_without t (chain self.old k) }
        ensures settled { (k : Key) → settled self.new k
            ≡ unwrap_or (value_in t (chain self.old k)) (settled self.old k) };

    /// Removes the values of t from every chain. Everything else stays, later writes included. It allocates nothing.
    fn undo(&mut self, t: Tid)
        ensures chain { (k : Key) → chain self.new k ≡ chain_without t (chain self.old k) }
        ensures settled { (k : Key) → settled self.new k ≡ settled self.old k };

    /// Nothing is needed of the key's record if it has no value, committed or pending: the memory that it takes may be freed. It
    /// allocates nothing.
    fn forget(&mut self, key: Key)
        ensures chain { (k : Key) → chain self.new k ≡ chain self.old k }
        ensures settled { (k : Key) → settled self.new k ≡ settled self.old k };

    /// The committed value of the key, or none.
    fn committed(&self, key: Key) -> Option<i64>
        ensures value { result ≡ settled self.now key }
        ensures in_range { IfSome result IsValue };

    /// The committed values, by key. `NoMemory` if an allocation failed.
    fn all(&self, alloc: Global) -> Result<Database, NoMemory>
        ensures values { IfOk result (λ d. (k : Key) → contents_of d k ≡ settled self.now k) }
        ensures by_key { IfOk result IsByKey };

    /// In a chain each writer occurs once, at most 32 do, and what each wrote is a value or none.
    ghost are_chains: { (r : Self) (k : Key) → IsChain (chain r k) };

    /// The committed values are values.
    ghost hold_values: { (r : Self) → HoldValues (settled r) };
}
