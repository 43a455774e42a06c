//! Links from positions of a list to earlier ones.
ghost use Rattle.std.specs.Prelude.{◌≡◌, ◌≢◌, ◌<◌, ◌+◌, ◌^◌, ℕ, Some, None, length, IfSome, OnOk};
ghost use Rattle.sgt_classes.specs.Links.{link_of, links_len};

use sgt_model::NoMemory;
use std::alloc::Global;

/// An earlier position for each of some positions of a list.
///
/// It takes sixteen bytes for each position up to the last that has one.
#[derive(Drop)]
pub struct Links {
    /// The earlier position, by position. Later positions have none.
    earlier: Vec<Option<usize>>,
}

impl Links {
    /// No position has one.
    #[tactic(auto, unfolding(crate::specs::Links::link_of))]
    pub fn new(alloc: Global) -> Self
        ensures { (i : ℕ) → link_of result i ≡ None }
    {
        Links {
            earlier: Vec::new(alloc),
        }
    }

    /// The earlier position.
    #[tactic(auto, unfolding(crate::specs::Links::link_of))]
    pub fn get(&self, place: usize) -> Option<usize>
        ensures { result ≡ link_of self.now place }
    {
        match self.earlier.get(place) {
            Some(earlier) => *earlier,
            None => None,
        }
    }

    /// Sets the earlier position.
    #[tactic(auto, unfolding(crate::specs::Links::link_of))]
    pub fn set(&mut self, place: usize, earlier: usize) -> Result<(), NoMemory>
        ensures at { OnOk result (link_of self.new place ≡ Some earlier) }
        ensures others { OnOk result ((i : ℕ) → i ≢ place → link_of self.new i ≡ link_of self.old i) }
    {
        self.ensure_capacity(place)?;
        self.earlier[place] = Some(earlier);
        Ok(())
    }

    /// Removes the earlier position.
    #[tactic(auto, unfolding(crate::specs::Links::link_of, crate::specs::Links::links_len))]
    pub fn remove(&mut self, place: usize) -> Option<usize>
        ensures earlier { result ≡ link_of self.old place }
        ensures at { link_of self.new place ≡ None }
        ensures others { (i : ℕ) → i ≢ place → link_of self.new i ≡ link_of self.old i }
        ensures fewer { IfSome result (λ _. links_len self.new < links_len self.old) }
    {
        if place >= self.earlier.len() {
            return None;
        }
        let earlier = self.earlier[place];
        self.earlier[place] = None;
        earlier
    }

    /// Makes the list long enough for the position.
    #[tactic(auto, unfolding(crate::specs::Links::link_of))]
    fn ensure_capacity(&mut self, place: usize) -> Result<(), NoMemory>
        ensures capacity { OnOk result (place < length self.new.earlier.items) }
        ensures same { OnOk result ((i : ℕ) → link_of self.new i ≡ link_of self.old i) }
    {
        while self.earlier.len() <= place {
            self.earlier.push(None)?;
        }
        Ok(())
    }
}
