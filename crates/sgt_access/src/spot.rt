//! What is known of the accesses whose keys have one hash.
ghost use Rattle.std.specs.Prelude.{◌≡◌, ℕ, true, false, not, ◌&&◌, ◌||◌, ◌⊎◌, ◌↔◌, cond, nat_eq};
ghost use Rattle.sgt_model.specs.Contents.{key_eq};
ghost use Rattle.sgt_model.specs.Accesses.{is_store};
ghost use Rattle.sgt_cycle.specs.Indices.{is_set};

use sgt_cycle::indices::{joined, minus};
use sgt_model::{Key, Kind};

/// The accesses whose keys have one hash: whose they are, and whether all are of one key.
#[derive(Clone, Copy)]
pub struct Spot {
    /// The key of them all, unless the spot is mixed.
    pub key: Key,
    /// Whether another key may have an access.
    pub is_mixed: bool,
    /// The places of the transactions with a read, as bits.
    pub readers: u32,
    /// The places of those with a write.
    pub writers: u32,
}

impl Spot {
    /// Adds an access of the transaction at these places.
    #[inline(always)]
    pub fn add(&mut self, places: u32, key: Key, kind: Kind)
        ensures readers { (i : ℕ) → is_set self.new.readers i
            ≡ (is_set self.old.readers i || (not (is_store kind) && is_set places i)) }
        ensures writers { (i : ℕ) → is_set self.new.writers i
            ≡ (is_set self.old.writers i || (is_store kind && is_set places i)) }
        ensures one_key { self.new.is_mixed ≡ false → (self.new.key ≡ key)
            × (((self.old.readers ≡ 0) × (self.old.writers ≡ 0)) ⊎ ((self.old.is_mixed ≡ false) × (self.old.key ≡ key))) }
    {
        if self.readers == 0 && self.writers == 0 {
            self.key = key;
            self.is_mixed = false;
        } else if self.key != key {
            self.is_mixed = true;
        }
        match kind {
            Kind::Look => self.readers = joined(self.readers, places),
            Kind::Store => self.writers = joined(self.writers, places),
        }
    }

    /// Removes the accesses of the transactions at these places.
    #[inline(always)]
    pub fn remove(&mut self, places: u32)
        ensures readers { (i : ℕ) → is_set self.new.readers i ≡ (is_set self.old.readers i && not (is_set places i)) }
        ensures writers { (i : ℕ) → is_set self.new.writers i ≡ (is_set self.old.writers i && not (is_set places i)) }
        ensures key { self.new.key ≡ self.old.key }
        ensures mixed { self.new.is_mixed ≡ self.old.is_mixed }
    {
        self.readers = minus(self.readers, places);
        self.writers = minus(self.writers, places);
    }

    /// The places of the transactions with an access that conflicts with one of this kind, if both are of one key.
    #[inline(always)]
    pub fn conflicting(self, kind: Kind) -> u32
        ensures { (i : ℕ) → is_set result i ≡ (is_set self.writers i || (is_store kind && is_set self.readers i)) }
    {
        match kind {
            Kind::Look => self.writers,
            Kind::Store => joined(self.writers, self.readers),
        }
    }
}
