//! A history with an index: where the accesses of each transaction are.
ghost use Rattle.std.specs.Prelude.{◌≡◌, ◌≤◌, ◌<◌, ◌+◌, ℕ, List, [], ◌∷◌, ◌++◌, Some, length, take, slice_get, OnOk, OnErr};
ghost use Rattle.sgt_model.specs.ReadFrom.{IsBy};
ghost use Rattle.sgt_explain.specs.Places.{placed_access};
ghost use Rattle.sgt_explain.specs.Indexes.{IsUntouched};

use crate::bounds::{cover_entry, last_end, move_end};
use sgt_log::{EntryRef, History};
use sgt_model::{NoMemory, Tid};
use std::alloc::Global;
use std::marker::Model;

/// A copy of a history, and an index of it. So an explanation looks at the entries of the transactions that it names, and
/// not at the whole history.
///
/// Any history can be indexed, legal or not. The index takes 8 bytes for each entry, and 16 for each transaction.
#[derive(Drop)]
pub struct IndexedHistory {
    history: History,
    /// By transaction: no entry before this position is an access of it, or ends it.
    firsts: Vec<usize>,
    /// By transaction: each access of it is before this position.
    ends: Vec<usize>,
    /// By position: each access that the entry's transaction made before the entry is before this position.
    links: Vec<usize>,
}

impl Model for IndexedHistory {
    ghost use Rattle.std.specs.Prelude.{List};
    ghost use Rattle.sgt_model.specs.declared.entry.Entry.{Entry};
    ghost use Rattle.sgt_explain.specs.Indexes.{IsIndex};

    ghost Value = { List Entry };

    ghost view = { λ h. h.history.entries };

    ghost invariant = { λ h. IsIndex h.history.entries h.firsts.items h.ends.items h.links.items };
}

impl IndexedHistory {
    /// No entries. It allocates nothing.
    pub fn new(alloc: Global) -> Self
        ensures { result ≡ [] }
    {
        IndexedHistory {
            history: History::new(alloc),
            firsts: Vec::new(alloc),
            ends: Vec::new(alloc),
            links: Vec::new(alloc),
        }
    }

    /// Appends an entry.
    ///
    /// `NoMemory` if an allocation failed; then the history is unchanged.
    pub fn push(&mut self, entry: &EntryRef<'_>) -> Result<(), NoMemory>
        ensures entries { OnOk result (self.new ≡ self.old ++ entry.now ∷ []) }
        ensures unchanged { OnErr result (self.new ≡ self.old) }
    {
        self.history.reserve(1)?;
        self.links.reserve(1)?;
        cover_entry(&mut self.firsts, &mut self.ends, self.history.len(), entry)?;
        let link = last_end(self.ends.as_slice(), entry);
        self.links.push_reserved(link);
        move_end(&mut self.ends, entry, self.links.len());
        self.history.push_entry(entry);
        Ok(())
    }

    /// How many entries there are.
    pub fn len(&self) -> usize
        ensures { result ≡ length self.now }
    {
        self.history.len()
    }

    /// The entry at this position.
    pub fn entry(&self, place: usize) -> EntryRef<'_>
        requires { place < length self.now }
        ensures entry { slice_get self.now place ≡ Some result }
        ensures next { take (place + 1) self.now ≡ take place self.now ++ result ∷ [] }
    {
        self.history.entry(place)
    }

    /// The entry at this position, if any.
    pub fn get_entry(&self, place: usize) -> Option<EntryRef<'_>>
        ensures { result ≡ slice_get self.now place }
    {
        self.history.get_entry(place)
    }

    /// A position before which no entry is an access of the transaction or ends it. In a history of an engine it is at
    /// most some entries before the first that does.
    pub(crate) fn first(&self, t: Tid) -> usize
        ensures within { result ≤ length self.now }
        ensures none { (n : ℕ) → n < result → IsUntouched self.now t n }
    {
        match self.firsts.get(t.0 as usize) {
            Some(first) => *first,
            None => self.history.len(),
        }
    }

    /// The position after the transaction's last access, or 0.
    pub(crate) fn accesses_end(&self, t: Tid) -> usize
        ensures within { result ≤ length self.now }
        ensures none { (n : ℕ) → result ≤ n → IsBy (placed_access self.now n) t → ⊥ }
    {
        match self.ends.get(t.0 as usize) {
            Some(end) => *end,
            None => 0,
        }
    }

    /// The position after the access that an access's transaction made before it, or 0.
    pub(crate) fn link(&self, place: usize) -> usize
        requires { place < length self.now }
        ensures earlier { result ≤ place }
        ensures none { (t n : ℕ) → IsBy (placed_access self.now place) t → result ≤ n → n < place
            → IsBy (placed_access self.now n) t → ⊥ }
    {
        self.links[place]
    }
}
