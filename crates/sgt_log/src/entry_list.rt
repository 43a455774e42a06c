//! The entries of a history, packed.
ghost use Rattle.std.specs.Prelude.{◌≡◌, ◌+◌, ◌≤◌, ◌<◌, [], ◌∷◌, ◌++◌, length, min, IsTrue, IfSome, OnOk, slice_index_or};
ghost use Rattle.sgt_log.specs.declared.packed_entry.PackedEntry.{PackedEntry};
ghost use Rattle.sgt_log.specs.declared.stored_entry.StoredEntry.{StoredEntry};
ghost use Rattle.sgt_log.specs.StoredEntries.{HasNoArgs, HasNoLists};
ghost use Rattle.sgt_log.specs.PackedEntries.{unpacked, IsWhole, IsStep};

use crate::allocation::reserve_items;
use crate::packed_entry::PackedEntry;
use crate::prefault::prefault_ahead;
use crate::stored_entry::StoredEntry;
use crate::stored_event::StoredEvent;
use crate::stored_reply::StoredReply;
use sgt_model::{NoMemory, Tid};
use std::alloc::Global;
use std::marker::Model;

/// A list of entries. One of a frequent kind takes 24 bytes, one of another kind 64. Contracts see it as the list of stored
/// entries, with its capacity.
#[derive(Drop)]
pub struct EntryList {
    packed: Vec<PackedEntry>,
    // The entries of other kinds.
    others: Vec<StoredEntry>,
    // How many entries there is memory for, of whatever kind the next ones are.
    capacity: usize,
}

impl Model for EntryList {
    ghost use Rattle.std.specs.Prelude.{◌+◌, ◌≤◌, length, map};
    ghost use Rattle.std.specs.Vec.{vec_len, vec_capacity};
    ghost use Rattle.sgt_log.specs.PackedEntries.{EntryListView, unpacked, AreAmong};

    ghost Value = { EntryListView };

    ghost view = { λ l. record {
      items = map (unpacked l.others.items) l.packed.items;
      capacity = l.capacity;
      memory = vec_capacity l.packed;
    } };

    ghost invariant = { λ l.
        AreAmong (length l.others.items) l.packed.items
        × (vec_len l.packed ≤ l.capacity)
        × (l.capacity ≤ vec_capacity l.packed)
        × (vec_len l.others + l.capacity ≤ vec_capacity l.others + vec_len l.packed) };
}

impl EntryList {
    /// No entries, and no capacity. It allocates nothing.
    pub fn new(alloc: Global) -> Self
        ensures items { result.items ≡ [] }
        ensures capacity { result.capacity ≡ 0 }
    {
        EntryList {
            packed: Vec::new(alloc),
            others: Vec::new(alloc),
            capacity: 0,
        }
    }

    /// How many entries there are.
    #[inline(always)]
    pub fn len(&self) -> usize
        ensures { result ≡ length self.now.items }
    {
        self.packed.len()
    }

    /// `memory`: for how many entries of the frequent kinds it holds memory.
    #[inline(always)]
    pub fn memory(&self) -> usize
        ensures { result ≡ self.now.memory }
    {
        self.packed.capacity()
    }

    /// The entry at this index.
    #[inline(always)]
    pub fn at(&self, place: usize) -> StoredEntry
        requires { place < length self.now.items }
        ensures { result ≡ slice_index_or self.now.items place result }
    {
        self.packed[place].unpacked(self.others.as_slice())
    }

    /// Adds an entry of a frequent kind, for which there is capacity. It allocates nothing.
    #[inline(always)]
    pub fn push_whole(&mut self, entry: PackedEntry)
        requires whole { IsWhole entry }
        requires spare { length self.old.items < self.old.capacity }
        ensures items { self.new.items ≡ self.old.items ++ unpacked [] entry ∷ [] }
        ensures len { length self.new.items ≡ length self.old.items + 1 }
        ensures capacity { self.new.capacity ≡ self.old.capacity }
        ensures memory { self.new.memory ≡ self.old.memory }
    {
        self.packed.push_reserved(entry);
    }

    /// Adds an entry of any kind, for which there is capacity. It allocates nothing.
    #[inline(never)]
    pub fn push(&mut self, event: StoredEvent, reply: StoredReply)
        requires { length self.old.items < self.old.capacity }
        ensures items { self.new.items ≡ self.old.items ++ record { event = event; reply = reply } ∷ [] }
        ensures len { length self.new.items ≡ length self.old.items + 1 }
        ensures capacity { self.new.capacity ≡ self.old.capacity }
        ensures memory { self.new.memory ≡ self.old.memory }
    {
        let at = self.others.len();
        self.others.push_reserved(StoredEntry { event, reply });
        self.packed.push_reserved(PackedEntry::Other(at));
    }

    /// The entry at this index, if it is a step that read, wrote or came to the procedure's end: packed.
    #[inline(always)]
    pub fn step_at(&self, place: usize) -> Option<PackedEntry>
        requires { place < length self.now.items }
        ensures step { IfSome result (λ p. IsStep p) }
        ensures here { IfSome result (λ p. unpacked [] p ≡ slice_index_or self.now.items place (unpacked [] p)) }
    {
        let packed = self.packed[place];
        if packed.is_step() { Some(packed) } else { None }
    }

    /// The entry at this index, packed. One of a frequent kind is whole, and the same in every list.
    #[inline(always)]
    pub fn packed_at(&self, place: usize) -> PackedEntry
        requires { place < length self.now.items }
        ensures { IsWhole result → unpacked [] result ≡ slice_index_or self.now.items place (unpacked [] result) }
    {
        self.packed[place]
    }

    /// Whether the entry at this index is such a step.
    #[inline(always)]
    pub fn is_step_at(&self, place: usize) -> bool
        requires { place < length self.now.items }
        ensures { IsTrue result → (p : PackedEntry) × IsStep p × (unpacked [] p ≡ slice_index_or self.now.items place (unpacked [] p)) }
    {
        self.packed[place].is_step()
    }

    /// Whether the entry at this index started a transaction.
    #[inline(always)]
    pub fn is_start_at(&self, place: usize) -> bool
        requires { place < length self.now.items }
    {
        matches!(self.packed[place], PackedEntry::Started { .. })
    }

    /// Whether the entry at this index committed a transaction.
    #[inline(always)]
    pub fn is_commit_at(&self, place: usize) -> bool
        requires { place < length self.now.items }
    {
        matches!(self.packed[place], PackedEntry::Committed { .. })
    }

    /// Whether the entries at these indices are the same such step.
    #[inline(always)]
    pub fn is_same_step(&self, place: usize, other: &EntryList, index: usize) -> bool
        requires here { place < length self.now.items }
        requires there { index < length other.now.items }
        ensures { IsTrue result → (e : StoredEntry) × HasNoArgs e.event × HasNoLists e.reply
            × (e ≡ slice_index_or self.now.items place e) × (e ≡ slice_index_or other.now.items index e) }
    {
        self.packed[place].is_same_step(&other.packed[index])
    }

    /// Provides capacity for this many more entries. The entries stay.
    ///
    /// `NoMemory` if an allocation failed; the capacity stays then.
    pub fn reserve(&mut self, count: usize) -> Result<(), NoMemory>
        ensures items { self.new.items ≡ self.old.items }
        ensures no_less { self.old.capacity ≤ self.new.capacity }
        ensures enough { OnOk result (length self.new.items + count ≤ self.new.capacity) }
    {
        reserve_items(&mut self.packed, count)?;
        reserve_items(&mut self.others, count)?;
        self.capacity = self.capacity.max(self.packed.len() + count);
        Ok(())
    }

    /// Allocates memory for this many more entries of the frequent kinds. Nothing else changes.
    ///
    /// `NoMemory` if the allocation failed.
    pub fn reserve_memory(&mut self, count: usize) -> Result<(), NoMemory>
        ensures items { self.new.items ≡ self.old.items }
        ensures capacity { self.new.capacity ≡ self.old.capacity }
    {
        self.packed.reserve(count)?;
        Ok(())
    }

    /// Removes all entries. The capacity for more entries stays.
    pub fn clear(&mut self)
        ensures items { self.new.items ≡ [] }
        ensures capacity { self.new.capacity + length self.old.items ≡ self.old.capacity }
    {
        self.capacity -= self.packed.len();
        self.packed.clear();
        self.others.clear();
    }

    /// Prefaults the memory of at most this many next entries of the frequent kinds. It returns the index up to which
    /// it did.
    pub fn prefault(&mut self, most: usize) -> usize
        ensures same { self.new ≡ self.old }
        ensures prefaulted { result ≡ min self.old.memory (length self.old.items + most) }
    {
        prefault_ahead(&mut self.packed, most, PackedEntry::Ended(Tid(0)))
    }
}
