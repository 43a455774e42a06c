//! The records by key, with the chains of the keys that several live transactions have written.
ghost use Rattle.std.specs.Prelude.{◌≡◌, ℕ, ◌<◌, ◌≤◌, ◌-◌, Some, true, false, not, ◌&&◌, nat_eq, cond, length, [], IfSome, IfOk, OnOk};
ghost use Rattle.std.specs.List.{AllWithin};
ghost use Rattle.std.specs.Option.{unwrap_or};
ghost use Rattle.slab.specs.Slab.{HasRoomFor};
ghost use Rattle.std.proofs.Props.{props};
ghost use Rattle.sgt_model.specs.Numbers.{IsValue};
ghost use Rattle.sgt_model.specs.Contents.{Key, key_eq};
ghost use Rattle.sgt_model.specs.Databases.{contents_of, IsByKey};
ghost use Rattle.sgt_model.specs.Chains.{chain_without, write_last, value_in, writes_in};
ghost use Rattle.sgt_records.specs.Tops.{top_of, value_of_top};
ghost use Rattle.sgt_records.specs.declared.live_write.LiveWrite.{LiveWrite};
ghost use Rattle.sgt_records.specs.LiveWrites.{is_live, IndicesAgree};
ghost use Rattle.sgt_records.specs.Slots.{key_chain, committed_of, IsIndex};
ghost use Rattle.sgt_records.specs.Tables.{index_in, record_in};

use crate::chain::Chain;
use crate::live_write::LiveWrite;
use crate::packed_value::PackedValue;
use crate::record::Record;
use crate::table::Table;
use crate::top::Top;
use sgt_model::{Database, Key, NoMemory, Tid};
use slab::Slab;
use std::alloc::Global;

/// The records by key, and the chains of those that several live transactions have written. An empty chain is dropped,
/// and its slot in the slab is used again.
#[derive(Drop)]
pub struct Index {
    pub table: Table,
    pub chains: Slab<Chain>,
    ghost is_index: { IsIndex (record_in table) chains } by { Prim.hlevel props },
}

impl Index {
    /// The values of a database, with nothing written above them.
    pub fn of(alloc: Global, opening: &Database) -> Result<Index, NoMemory>
        ensures chain { IfOk result (λ i. (k : Key) → key_chain (record_in i.table) i.chains k ≡ []) }
        ensures settled { IfOk result (λ i. (k : Key) → committed_of (record_in i.table) k ≡ contents_of opening.now k) }
    {
        let table = Table::of(alloc, opening.rows())?;
        Ok(Index {
            table,
            chains: Slab::new(alloc),
        })
    }

    /// What a read of the key returns.
    #[inline(always)]
    pub fn top(&self, key: Key) -> Top
        ensures top { result ≡ top_of (key_chain (record_in self.now.table) self.now.chains key) (committed_of (record_in self.now.table) key) }
        ensures in_range { IfSome (value_of_top result) IsValue }
    {
        match self.table.get(key) {
            Some(record) => record.top(&self.chains),
            None => Top::Nothing,
        }
    }

    /// The committed value of the key, or none.
    pub fn committed(&self, key: Key) -> Option<i64>
        ensures value { result ≡ committed_of (record_in self.now.table) key }
        ensures in_range { IfSome result IsValue }
    {
        match self.table.get(key) {
            Some(record) => record.committed,
            None => None,
        }
    }

    /// Ensures that the key has a record, provides capacity for one more chain, and returns the record's index.
    pub fn reserve(&mut self, key: Key) -> Result<usize, NoMemory>
        ensures chain { (k : Key) → key_chain (record_in self.new.table) self.new.chains k
            ≡ key_chain (record_in self.old.table) self.old.chains k }
        ensures settled { (k : Key) → committed_of (record_in self.new.table) k ≡ committed_of (record_in self.old.table) k }
        ensures index { IfOk result (λ index. index_in self.new.table key ≡ Some index) }
        ensures stay { (k : Key) (p : ℕ) → index_in self.old.table k ≡ Some p → index_in self.new.table k ≡ Some p }
        ensures capacity { OnOk result (HasRoomFor self.new.chains 1) }
    {
        self.chains.reserve(1)?;
        match self.table.guess(key) {
            Some(index) => Ok(index),
            None => self.table.find_or_add(key),
        }
    }

    /// Adds t's value as the last in the chain of a key whose record has this index. It returns whether the value replaces an
    /// earlier one of t. It allocates nothing.
    #[inline(always)]
    pub fn write(&mut self, t: Tid, key: Key, index: usize, value: Option<i64>) -> bool
        requires index { index_in self.old.table key ≡ Some index }
        requires ready { HasRoomFor self.old.chains 1 }
        requires in_range { IfSome value IsValue }
        requires capacity { writes_in t (key_chain (record_in self.old.table) self.old.chains key) ≡ false
            → length (key_chain (record_in self.old.table) self.old.chains key) < 32 }
        ensures again { result ≡ writes_in t (key_chain (record_in self.old.table) self.old.chains key) }
        ensures chain { (k : Key) → key_chain (record_in self.new.table) self.new.chains k
            ≡ cond (key_eq key k) (write_last t value (key_chain (record_in self.old.table) self.old.chains k))
            (key_chain (record_in self.old.table) self.old.chains k) }
        ensures settled { (k : Key) → committed_of (record_in self.new.table) k ≡ committed_of (record_in self.old.table) k }
        ensures indices { self.new.table.indices ≡ self.old.table.indices }
    {
        let Record { committed, written } = *self.table.at(key, index);
        let (written, again) = written.write(&mut self.chains, t, PackedValue::of(value));
        self.table.put(key, index, Record { committed, written });
        again
    }

    /// Removes t's value from the chain of a key whose record has this index.
    #[inline(always)]
    pub fn undo(&mut self, t: Tid, key: Key, index: usize)
        requires index { index_in self.old.table key ≡ Some index }
        ensures chain { (k : Key) → key_chain (record_in self.new.table) self.new.chains k
            ≡ cond (key_eq key k) (chain_without t (key_chain (record_in self.old.table) self.old.chains k))
            (key_chain (record_in self.old.table) self.old.chains k) }
        ensures settled { (k : Key) → committed_of (record_in self.new.table) k ≡ committed_of (record_in self.old.table) k }
        ensures indices { self.new.table.indices ≡ self.old.table.indices }
    {
        let Record { committed, written } = *self.table.at(key, index);
        let (written, _) = written.take_out(&mut self.chains, t);
        self.table.put(key, index, Record { committed, written });
    }

    /// Removes t's value from the chain of a key whose record has this index, and makes it the committed one.
    #[inline(always)]
    pub fn settle(&mut self, t: Tid, key: Key, index: usize)
        requires index { index_in self.old.table key ≡ Some index }
        ensures chain { (k : Key) → key_chain (record_in self.new.table) self.new.chains k
            ≡ cond (key_eq key k) (chain_without t (key_chain (record_in self.old.table) self.old.chains k))
            (key_chain (record_in self.old.table) self.old.chains k) }
        ensures settled { (k : Key) → committed_of (record_in self.new.table) k
            ≡ cond (key_eq key k)
            (unwrap_or (value_in t (key_chain (record_in self.old.table) self.old.chains k)) (committed_of (record_in self.old.table) k))
            (committed_of (record_in self.old.table) k) }
        ensures indices { self.new.table.indices ≡ self.old.table.indices }
    {
        let Record { committed, written } = *self.table.at(key, index);
        let (written, value) = written.take_out(&mut self.chains, t);
        let committed = value.unwrap_or(committed);
        self.table.put(key, index, Record { committed, written });
    }

    /// Removes t's values from the chains of the keys that it has written.
    pub fn undo_all(&mut self, writes: &[LiveWrite], t: Tid)
        requires indices { IndicesAgree (index_in self.old.table) writes.now }
        ensures chain { (k : Key) → key_chain (record_in self.new.table) self.new.chains k
            ≡ cond (is_live t k writes.now) (chain_without t (key_chain (record_in self.old.table) self.old.chains k))
            (key_chain (record_in self.old.table) self.old.chains k) }
        ensures settled { (k : Key) → committed_of (record_in self.new.table) k ≡ committed_of (record_in self.old.table) k }
        ensures indices { self.new.table.indices ≡ self.old.table.indices }
    {
        for write in writes {
            if write.by == t {
                self.undo(t, write.key, write.index);
            }
        }
    }

    /// Removes t's writes from the live ones and from the chains of their keys, and makes their values the committed ones. The
    /// last live write takes the place of each that leaves.
    pub fn settle_all(&mut self, live: &mut Vec<LiveWrite>, t: Tid)
        requires indices { IndicesAgree (index_in self.old.table) live.old.items }
        ensures chain { (k : Key) → key_chain (record_in self.new.table) self.new.chains k
            ≡ cond (is_live t k live.old.items) (chain_without t (key_chain (record_in self.old.table) self.old.chains k))
            (key_chain (record_in self.old.table) self.old.chains k) }
        ensures settled { (k : Key) → committed_of (record_in self.new.table) k
            ≡ cond (is_live t k live.old.items)
            (unwrap_or (value_in t (key_chain (record_in self.old.table) self.old.chains k)) (committed_of (record_in self.old.table) k))
            (committed_of (record_in self.old.table) k) }
        ensures indices { self.new.table.indices ≡ self.old.table.indices }
        ensures left { (u : ℕ) (k : Key) → is_live u k live.new.items ≡ (not (nat_eq u t) && is_live u k live.old.items) }
        ensures returned { IndicesAgree (index_in self.old.table) live.new.items }
    {
        let mut at = end_of(live.as_slice(), live.len(), t);
        while 0 < at {
            at -= 1;
            let write = live.swap_remove(at);
            self.settle(t, write.key, write.index);
            at = end_of(live.as_slice(), at, t);
        }
    }

    /// Drops the record of a key that has no value, committed or pending. It allocates nothing.
    pub fn forget(&mut self, key: Key)
        ensures chain { (k : Key) → key_chain (record_in self.new.table) self.new.chains k
            ≡ key_chain (record_in self.old.table) self.old.chains k }
        ensures settled { (k : Key) → committed_of (record_in self.new.table) k ≡ committed_of (record_in self.old.table) k }
    {
        if let Some(index) = self.table.index(key) {
            if self.table.at(key, index).is_empty() {
                self.table.remove(key, index);
            }
        }
    }

    /// The committed values, by key.
    pub fn all(&self, alloc: Global) -> Result<Database, NoMemory>
        ensures values { IfOk result (λ d. (k : Key) → contents_of d k ≡ committed_of (record_in self.now.table) k) }
        ensures by_key { IfOk result IsByKey }
    {
        let mut values = Database::empty(alloc);
        for (key, index) in &self.table.indices {
            if let Some(value) = self.table.at(*key, *index).committed {
                values.put(*key, value)?;
            }
        }
        Ok(values)
    }
}

// The number of the writes up to the last of t among the first `count`; 0 if none of these is t's. Each turn looks at two.
#[inline(always)]
fn end_of(writes: &[LiveWrite], count: usize, t: Tid) -> usize
    requires { count ≤ length writes.now }
    ensures within { result ≤ count }
    ensures own { AllWithin (λ (w : LiveWrite). nat_eq w.by t ≡ true) writes.now (result - 1) result }
    ensures others { AllWithin (λ (w : LiveWrite). nat_eq w.by t ≡ false) writes.now result count }
{
    let mut at = count;
    while 1 < at {
        if writes[at - 1].by == t {
            return at;
        }
        if writes[at - 2].by == t {
            return at - 1;
        }
        at -= 2;
    }
    if at == 1 && writes[0].by == t { 1 } else { 0 }
}
