//! Positions by numbers.
ghost use Rattle.std.specs.Prelude.{◌≡◌, ◌≢◌, ◌<◌, ℕ, Some, None, is_some, IfSome, OnOk};
ghost use Rattle.sgt_classes.specs.Tables.{entry_of, table_len};

use crate::links::Links;
use sgt_model::NoMemory;
use std::alloc::Global;
use std::collections::BTreeMap;

/// A position for each of some numbers.
///
/// Positions of numbers below a bound are stored by index; those of the others are stored in a map (Cormen,
/// Leiserson, Rivest and Stein (2009), chapter 11: direct-address table). It takes sixteen bytes for each number
/// below the bound, up to the last that has a position.
#[derive(Drop)]
pub struct Table {
    /// The first number whose position is in the map.
    bound: usize,
    /// The positions of the numbers below the bound.
    low: Links,
    /// The positions of the others.
    high: BTreeMap<u32, usize>,
}

impl Table {
    /// No number has a position. Numbers below the bound are found by index.
    #[tactic(auto, unfolding(crate::specs::Tables::entry_of))]
    pub fn new(alloc: Global, bound: usize) -> Self
        ensures { (n : ℕ) → entry_of result n ≡ None }
    {
        Table {
            bound,
            low: Links::new(alloc),
            high: BTreeMap::new(alloc),
        }
    }

    /// The position of the number.
    #[tactic(auto, unfolding(crate::specs::Tables::entry_of))]
    pub fn find(&self, number: u32) -> Option<usize>
        ensures { result ≡ entry_of self.now number }
    {
        let at = number as usize;
        if at < self.bound {
            return self.low.get(at);
        }
        self.high.get(&number).copied()
    }

    /// Whether the number has a position.
    pub fn contains_key(&self, number: u32) -> bool
        ensures { result ≡ is_some (entry_of self.now number) }
    {
        self.find(number).is_some()
    }

    /// Sets the position of the number.
    #[tactic(auto, unfolding(crate::specs::Tables::entry_of))]
    pub fn set_place(&mut self, number: u32, place: usize) -> Result<(), NoMemory>
        ensures at { OnOk result (entry_of self.new number ≡ Some place) }
        ensures others { OnOk result ((n : ℕ) → n ≢ number → entry_of self.new n ≡ entry_of self.old n) }
    {
        let at = number as usize;
        if at < self.bound {
            return self.low.set(at, place);
        }
        self.high.insert(number, place)?;
        Ok(())
    }

    /// Removes the position of the number.
    #[tactic(auto, unfolding(crate::specs::Tables::entry_of, crate::specs::Tables::table_len))]
    pub fn remove(&mut self, number: u32) -> Option<usize>
        ensures place { result ≡ entry_of self.old number }
        ensures at { entry_of self.new number ≡ None }
        ensures others { (n : ℕ) → n ≢ number → entry_of self.new n ≡ entry_of self.old n }
        ensures fewer { IfSome result (λ _. table_len self.new < table_len self.old) }
    {
        let at = number as usize;
        if at < self.bound {
            return self.low.remove(at);
        }
        self.high.remove(&number)
    }
}
