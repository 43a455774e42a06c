//! Accesses with masks by key in front: the list that the program uses.
use crate::access::Access;
use crate::accesses::Accesses;
use crate::known::{Known, grow, remove_all, store};
use crate::masks::Rivals;
use crate::number_lists::{NumberLists, has_rival_in_both, rivals_in_both};
use crate::whole_list::WholeList;
use sgt_cycle::indices::least;
use sgt_model::{Key, Kind, NoMemory, Tid, Tids};
use std::alloc::Global;
use std::marker::Model;

/// The accesses in lists, and masks that know for each hash of a key which transactions have read and written.
///
/// - `has_rival` and `rivals` ask the masks. If several keys with accesses share a hash, all accesses are read; likewise for
///   the first access of a second transaction.
/// - `note` adds the access to the list of its transaction. While all accesses are of one transaction, or if that list is
///   full, it goes to another list.
/// - `forget` goes once through these two lists. The last access of a list takes the place of each that leaves.
///
/// The order in which accesses were recorded exists for proofs alone.
#[derive(Drop)]
pub struct PerKey {
    accesses: Vec<Access>,
    lists: NumberLists,
    known: Known,
    whole: WholeList,
}

impl Model for PerKey {
    ghost use Rattle.std.specs.Prelude.{ℕ, List, ◌-◌};
    ghost use Rattle.std.specs.Vec.{vec_len, vec_capacity};
    ghost use Rattle.sgt_model.specs.AccessList.{ListedAccess};
    ghost use Rattle.sgt_access.specs.Masks.{Holds};

    ghost Value = { List ListedAccess × ℕ };

    ghost view = { λ l. (l.whole, vec_capacity l.accesses - vec_len l.accesses) };

    ghost invariant = { λ l. Holds l.whole l.known.only l.known.masks l.accesses.items l.lists };
}

impl Accesses for PerKey {
    ghost use Rattle.std.specs.Prelude.{◌<◌};

    ghost list = { λ l. l.0 };

    ghost is_ready = { λ l k. 0 < l.1 };

    fn empty(alloc: Global) -> Self {
        PerKey {
            accesses: Vec::new(alloc),
            lists: NumberLists::new(alloc),
            known: Known::new(alloc),
            whole: WholeList::empty(),
        }
    }

    #[inline(always)]
    fn reserve(&mut self, _key: Key) -> Result<(), NoMemory> {
        if self.accesses.len() == self.accesses.capacity() {
            grow(&mut self.accesses, &mut self.lists, &mut self.known)?;
        }
        Ok(())
    }

    #[inline(always)]
    fn note(&mut self, t: Tid, key: Key, kind: Kind) {
        let access = Access { by: t, key, kind };
        let is_alone = self.known.add(access, self.accesses.as_slice());
        store(&mut self.accesses, &mut self.lists, is_alone, t, key, kind);
        self.whole.note(access);
    }

    #[inline(always)]
    fn has_rival(&self, t: Tid, key: Key, kind: Kind) -> bool {
        let accesses = self.accesses.as_slice();
        match self.known.rivals(t, key, kind, accesses) {
            Rivals::At(places) => least(places).is_some(),
            Rivals::Unknown => {
                has_rival_in_both(accesses, &self.lists, self.known.only, t, key, kind)
            }
        }
    }

    fn rivals(&self, t: Tid, key: Key, kind: Kind) -> Tids {
        let accesses = self.accesses.as_slice();
        match self.known.rivals(t, key, kind, accesses) {
            Rivals::At(places) => self.known.masks.places.tids_at(places),
            Rivals::Unknown => rivals_in_both(accesses, &self.lists, t, key, kind),
        }
    }

    fn forget(&mut self, t: Tid) {
        remove_all(&mut self.accesses, &mut self.lists, &mut self.known, t);
        self.whole.forget(t);
    }
}
