//! Records as an ordered map with one list of the pending writes.
ghost use Rattle.std.proofs.Props.{props};
ghost use Rattle.sgt_records.specs.Pendings.{ArePending};

use crate::committed::Committed;
use crate::records::Records;
use crate::top::Top;
use crate::write::Write;
use sgt_model::{Database, Key, NoMemory, Tid};
use std::alloc::Global;

/// The committed values in an ordered map, and the pending writes of all keys in one list, oldest first. A call goes at
/// most once through the list and searches the map once; `build` and `all` go once through the map.
#[derive(Drop)]
pub struct ListRecords {
    committed: Committed,
    pending: Vec<Write>,
    ghost are_pending: { ArePending committed.records pending.items } by { Prim.hlevel props },
}

impl ListRecords {
    ghost use Rattle.std.specs.Prelude.{◌≡◌, None, IfSome};
    ghost use Rattle.std.specs.List.{last_or};
    ghost use Rattle.sgt_model.specs.Numbers.{IsValue};
    ghost use Rattle.sgt_records.specs.Pendings.{chain_in};

    // The last write of the key: its writer and value.
    fn last_write(&self, key: Key) -> Option<(Tid, Option<i64>)>
        ensures last { result ≡ last_or None (chain_in self.now.pending.items key) }
        ensures in_range { IfSome result (λ w. IfSome w.1 IsValue) }
    {
        let write = self.pending.iter().rev().find(|write| write.key == key)?;
        Some((write.by, write.value))
    }
}

impl Records for ListRecords {
    ghost use Rattle.std.specs.Prelude.{◌≡◌, true, ◌<◌};
    ghost use Rattle.std.specs.Vec.{vec_len, vec_capacity};
    ghost use Rattle.sgt_records.specs.Pendings.{chain_in};
    ghost use Rattle.sgt_records.specs.Settleds.{settled_in, has_record};
    ghost use Rattle.sgt_records.specs.PendingChains.{pending_chains};

    ghost chain = { λ r k. chain_in r.pending.items k };

    ghost settled = { λ r k. settled_in r.committed.records k };

    ghost is_ready = { λ r k. (has_record r.committed.records k ≡ true)
        × (vec_len r.pending < vec_capacity r.pending) };

    ghost are_chains = { λ r. pending_chains r.committed.records r.pending.items r.are_pending };

    ghost hold_values = { λ r. r.committed.in_range };

    fn build(alloc: Global, opening: &Database) -> Result<Self, NoMemory> {
        Ok(ListRecords {
            committed: Committed::of(alloc, opening)?,
            pending: Vec::new(alloc),
        })
    }

    fn top(&self, key: Key) -> Top {
        match self.last_write(key) {
            Some((t, value)) => Top::Pending(t, value),
            None => match self.committed.get(key) {
                Some(value) => Top::Settled(value),
                None => Top::Nothing,
            },
        }
    }

    fn reserve(&mut self, key: Key) -> Result<(), NoMemory> {
        self.pending.reserve(1)?;
        self.committed.reserve(key)
    }

    fn write(&mut self, t: Tid, key: Key, value: Option<i64>) {
        self.pending
            .retain(|write| write.by != t || write.key != key);
        self.pending.push_reserved(Write { by: t, key, value });
    }

    fn settle(&mut self, t: Tid) {
        self.committed.settle(self.pending.as_slice(), t);
        self.undo(t);
    }

    fn undo(&mut self, t: Tid) {
        self.pending.retain(|write| write.by != t);
    }

    // An empty record stays.
    fn forget(&mut self, _key: Key) {}

    fn committed(&self, key: Key) -> Option<i64> {
        self.committed.get(key)
    }

    fn all(&self, alloc: Global) -> Result<Database, NoMemory> {
        self.committed.all(alloc)
    }
}
