//! Masks in front of the access list: which transactions have read and written the keys of each hash.
ghost use Rattle.std.specs.Prelude.{◌≡◌, ◌≢◌, ℕ, ◌<◌, true, false, List, [], ◌∷◌, ◌++◌, ◌↔◌, ◌⊎◌, IfSome, IsNone, IsTrue, slice_index};
ghost use Rattle.sgt_model.specs.AccessList.{ListedAccess, is_listed};
ghost use Rattle.sgt_model.specs.Paths.{Member, Rising};
ghost use Rattle.sgt_cycle.specs.Indices.{is_set};
ghost use Rattle.sgt_access.specs.Places.{is_at};
ghost use Rattle.sgt_access.specs.Masks.{spot_at, Covers, IsLeaving, IsOneLess, IsSaid};

use crate::access::Access;
use crate::places::Places;
use crate::spot::Spot;
use sgt_cycle::indices::{minus, only};
use sgt_model::{Key, Kind, NoMemory, Tid};
use std::alloc::Global;

/// How many spots there are.
const SPOTS: usize = 1024;

/// The factor of the hash (Knuth 1973, section 6.4): the leading bits of a product with it depend on all bits of a number.
const FACTOR: u64 = 0xD6E8_FEB8_6659_FD93;

/// What masks say of the rivals of an access.
pub enum Rivals {
    /// They are the transactions at these places.
    At(u32),
    /// Nothing: the accesses must be read.
    Unknown,
}

/// A spot for each hash of a key, with the places of the transactions that have accesses of such keys. A spot whose accesses
/// are all of one key knows the rivals of an access exactly.
#[derive(Drop)]
pub struct Masks {
    pub places: Places,
    /// The spots, or none: then the masks say nothing.
    pub spots: Vec<Spot>,
}

impl Masks {
    /// Masks that say nothing. It allocates nothing.
    pub fn new(alloc: Global) -> Masks
        ensures { result.spots.items ≡ [] }
    {
        Masks {
            places: Places::new(),
            spots: Vec::new(alloc),
        }
    }

    /// Makes the spots, without an access. If an allocation failed, the masks say nothing.
    pub fn fill(&mut self) -> Result<(), NoMemory>
        ensures { Covers self.new [] }
    {
        let Some(key) = Key::new(0, 0) else {
            unreachable!();
        };
        let empty = Spot {
            key,
            is_mixed: false,
            readers: 0,
            writers: 0,
        };
        self.places = Places::new();
        self.spots.clear();
        self.spots.resize(SPOTS, empty)?;
        Ok(())
    }

    /// The rivals of an access of t: the other transactions with an access that conflicts with it.
    #[inline(always)]
    pub fn rivals(&self, t: Tid, key: Key, kind: Kind) -> Rivals
        ensures { (accesses : List ListedAccess) → Covers self.now accesses
            → IsSaid accesses self.now.places.tids t key kind result }
    {
        let index = spot_of(key);
        if self.spots.len() <= index {
            return Rivals::Unknown;
        }
        let spot = self.spots[index];
        let all = spot.conflicting(kind);
        if all == 0 {
            return Rivals::At(0);
        }
        let others = minus(all, self.places_of(t));
        if others == 0 {
            return Rivals::At(0);
        }
        if spot.is_mixed {
            return Rivals::Unknown;
        }
        Rivals::At(if spot.key == key { others } else { 0 })
    }

    /// Adds an access.
    #[inline(always)]
    pub fn add(&mut self, access: Access)
        ensures { (accesses : List ListedAccess) → Covers self.old accesses → Covers self.new (accesses ++ access ∷ []) }
    {
        let Some(place) = self.place_for(access.by) else {
            return self.spots.clear();
        };
        let index = spot_of(access.key);
        if index < self.spots.len() {
            self.spots[index].add(only(place), access.key, access.kind);
        }
    }

    // The place of a transaction, which it has from now on. None if 32 others have places.
    #[inline(always)]
    fn place_for(&mut self, t: Tid) -> Option<u8>
        ensures place { IfSome result (λ place. (place < 32)
            × (is_at self.new.places.taken self.new.places.tids t place ≡ true)) }
        ensures covers { (accesses : List ListedAccess) → Covers self.old accesses → Covers self.new accesses }
    {
        match self.places.place_of(t) {
            Some(place) => Some(place),
            None => self.places.take(t),
        }
    }

    /// The place of a transaction as a set; the empty set if it has none. From here its accesses may be removed.
    #[inline(always)]
    pub fn places_of(&self, t: Tid) -> u32
        ensures { (accesses : List ListedAccess) → Covers self.now accesses → IsLeaving self.now t result accesses }
    {
        match self.places.place_of(t) {
            Some(place) => only(place),
            None => 0,
        }
    }

    /// Removes an access of the transaction at these places. All its other accesses are to be removed too.
    #[inline(always)]
    pub fn remove(&mut self, places: u32, access: Access)
        ensures { (t : ℕ) (accesses rest : List ListedAccess) → access.by ≡ t → IsLeaving self.old t places accesses
            → IsOneLess access accesses rest → IsLeaving self.new t places rest }
    {
        let index = spot_of(access.key);
        if index < self.spots.len() {
            self.spots[index].remove(places);
        }
    }

    /// Frees the places of a transaction whose accesses have been removed.
    pub fn free(&mut self, places: u32)
        ensures { (t : ℕ) (accesses : List ListedAccess) → IsLeaving self.old t places accesses
            → is_listed accesses t ≡ false → Covers self.new accesses }
    {
        self.places.free(places);
    }

    /// Whether the masks say that there is no access.
    pub fn is_idle(&self) -> bool
        ensures { result ≡ true → (accesses : List ListedAccess) → Covers self.now accesses → accesses ≡ [] }
    {
        if self.spots.is_empty() {
            return false;
        }
        self.places.is_free()
    }
}

// The index of a key's spot.
#[inline(always)]
fn spot_of(key: Key) -> usize
    ensures index { result ≡ spot_at key }
    ensures within { result < 1024 }
{
    let number = key.id().unsigned_abs() * 8 + u64::from(key.table());
    (number.wrapping_mul(FACTOR) >> 54) as usize
}
