//! Records in a list, with chains in a slab: the store that the program uses.
ghost use Rattle.sgt_records.specs.LiveWrites.{AreLive, IndicesAgree};
ghost use Rattle.sgt_records.specs.Tables.{index_in, record_in};

use crate::index::Index;
use crate::live_write::LiveWrite;
use crate::records::Records;
use crate::top::Top;
use sgt_model::{Database, Key, NoMemory, Tid};
use std::alloc::Global;

/// Records with chains in a slab. There are four parts:
///
/// - the records in a list;
/// - the index of each by its key;
/// - a slab with the chains of the keys that several live transactions have written;
/// - one list of which transaction has written which key.
///
/// Costs:
///
/// - `top`, `reserve` and `committed` search the map of indices at most once; `reserve` twice if it adds a record whose guesses
///   were both taken. `write`, which comes after `reserve`, does not. All read only that key's chain.
/// - `settle` and `undo` go once through the list of live writes, which has the indices of the records.
/// - `forget` searches the map once, and twice more if the record is dropped. It drops none while a write is live, since live
///   writes have indices.
/// - `build` and `all` go once through the map.
///
/// A chain holds 32 writes, which takes 520 bytes. So a record has one only after a second live transaction has written it,
/// until none of its writers is left. Its slot in the slab then serves the next chain. So there are never more chains than
/// keys written by live transactions.
#[derive(Drop)]
pub struct SlabRecords {
    index: Index,
    live: Vec<LiveWrite>,
    // The index of the record for which capacity was provided last.
    reserved: usize,
    ghost are_live: { AreLive (record_in index.table) index.chains live.items },
    ghost indices_agree: { IndicesAgree (index_in index.table) live.items },
}

impl Records for SlabRecords {
    ghost use Rattle.std.specs.Prelude.{◌≡◌, Some, ◌<◌};
    ghost use Rattle.std.specs.Vec.{vec_len, vec_capacity};
    ghost use Rattle.slab.specs.Slab.{HasRoomFor};
    ghost use Rattle.sgt_records.specs.Slots.{key_chain, committed_of};

    ghost chain = { λ r k. key_chain (record_in r.index.table) r.index.chains k };

    ghost settled = { λ r k. committed_of (record_in r.index.table) k };

    ghost is_ready = { λ r k. (index_in r.index.table k ≡ Some r.reserved)
        × HasRoomFor r.index.chains 1
        × (vec_len r.live < vec_capacity r.live) };

    ghost are_chains = { λ r. r.index.is_index.are_chains };

    ghost hold_values = { λ r. r.index.is_index.in_range };

    fn build(alloc: Global, opening: &Database) -> Result<Self, NoMemory> {
        Ok(SlabRecords {
            index: Index::of(alloc, opening)?,
            live: Vec::new(alloc),
            reserved: 0,
        })
    }

    #[inline(always)]
    fn top(&self, key: Key) -> Top {
        self.index.top(key)
    }

    #[inline(always)]
    fn reserve(&mut self, key: Key) -> Result<(), NoMemory> {
        self.live.reserve(1)?;
        self.reserved = self.index.reserve(key)?;
        Ok(())
    }

    fn write(&mut self, t: Tid, key: Key, value: Option<i64>) {
        let index = self.reserved;
        let again = self.index.write(t, key, index, value);
        if !again {
            self.live.push_reserved(LiveWrite { by: t, key, index });
        }
    }

    fn settle(&mut self, t: Tid) {
        self.index.settle_all(&mut self.live, t);
    }

    fn undo(&mut self, t: Tid) {
        self.index.undo_all(self.live.as_slice(), t);
        self.live.retain(|write| write.by != t);
    }

    fn forget(&mut self, key: Key) {
        if self.live.is_empty() {
            self.index.forget(key);
        }
    }

    fn committed(&self, key: Key) -> Option<i64> {
        self.index.committed(key)
    }

    fn all(&self, alloc: Global) -> Result<Database, NoMemory> {
        self.index.all(alloc)
    }
}
