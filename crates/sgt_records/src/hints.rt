//! Guesses of the index of a key's record.
use sgt_model::{Key, LEAST, NoMemory};
use std::alloc::Global;

/// The fewest pairs of guesses, if there are any.
const FEWEST: usize = 64;

/// Fewer pairs than these become four times as many, not twice: a short run stores its guesses anew less often.
const MANY: usize = 16_384;

/// No guess: it is above all indices that are guessed.
const NONE: u32 = u32::MAX;

/// Guesses of the indices of records by their keys: two for each hash of a key, the newer first.
///
/// Nothing is promised of a guess: it may be another key's, or of no record. The caller must check whether the record there
/// is the key's, and else search the map of indices. So a wrong guess costs time, and never changes an answer.
#[derive(Drop)]
pub struct Hints {
    // Their number is a power of two, or zero.
    pairs: Vec<(u32, u32)>,
}

impl Hints {
    /// No guesses. It allocates nothing.
    pub fn new(alloc: Global) -> Hints {
        Hints {
            pairs: Vec::new(alloc),
        }
    }

    /// The guesses of records that have these keys, in the order of their indices.
    ///
    /// `NoMemory` if the allocation failed.
    pub fn of(alloc: Global, keys: &[Key]) -> Result<Hints, NoMemory> {
        let mut hints = Hints::new(alloc);
        if keys.is_empty() {
            return Ok(hints);
        }
        let Some(count) = keys.len().saturating_mul(2).checked_next_power_of_two() else {
            return Err(NoMemory);
        };
        hints.store(keys, count.max(FEWEST))?;
        Ok(hints)
    }

    /// Two indices that the record of the key may have.
    #[inline(always)]
    pub fn guesses(&self, key: Key) -> (usize, usize) {
        let spot = spot_of(key, self.pairs.len());
        if spot < self.pairs.len() {
            let (newer, older) = self.pairs[spot];
            return (newer as usize, older as usize);
        }
        (0, 0)
    }

    /// Stores the index of the record of a key.
    #[inline(always)]
    pub fn note(&mut self, key: Key, index: usize) {
        let spot = spot_of(key, self.pairs.len());
        if spot < self.pairs.len() {
            let (newer, _) = self.pairs[spot];
            self.pairs[spot] = (guess_of(index), newer);
        }
    }

    /// Drops the index of the record of a key.
    #[inline(always)]
    pub fn drop_index(&mut self, key: Key, index: usize) {
        let spot = spot_of(key, self.pairs.len());
        if spot < self.pairs.len() {
            let (newer, older) = self.pairs[spot];
            if newer == guess_of(index) {
                self.pairs[spot] = (older, NONE);
            } else if older == guess_of(index) {
                self.pairs[spot] = (newer, NONE);
            }
        }
    }

    /// Replaces the index of the record of a key by another.
    #[inline(always)]
    pub fn replace(&mut self, key: Key, from: usize, to: usize) {
        let spot = spot_of(key, self.pairs.len());
        if spot < self.pairs.len() {
            let (newer, older) = self.pairs[spot];
            if newer == guess_of(from) {
                self.pairs[spot] = (guess_of(to), older);
            } else if older == guess_of(from) {
                self.pairs[spot] = (newer, guess_of(to));
            }
        }
    }

    /// Provides capacity for the guess of one more record. The keys of the records are these, in the order of their indices.
    ///
    /// `NoMemory` if the allocation failed.
    #[inline(always)]
    pub fn reserve(&mut self, keys: &[Key]) -> Result<(), NoMemory> {
        if keys.len() < self.pairs.len() / 2 {
            return Ok(());
        }
        self.grow(keys)
    }

    // Takes more capacity, and stores the guesses of the records anew.
    #[inline(never)]
    fn grow(&mut self, keys: &[Key]) -> Result<(), NoMemory> {
        let times = if self.pairs.len() < MANY { 4 } else { 2 };
        let count = (self.pairs.len() * times).max(FEWEST);
        self.store(keys, count)
    }

    // Makes this many pairs, and stores the guesses of the records anew.
    fn store(&mut self, keys: &[Key], count: usize) -> Result<(), NoMemory> {
        self.pairs.reserve(count.saturating_sub(self.pairs.len()))?;
        self.pairs.clear();
        self.pairs.resize(count, (NONE, NONE))?;
        for (index, key) in keys.iter().enumerate() {
            self.note(*key, index);
        }
        Ok(())
    }
}

// An index as a guess.
#[inline(always)]
fn guess_of(index: usize) -> u32 {
    index.min(NONE as usize) as u32
}

// The index of a key's pair among this number of pairs. Keys of one number in several tables have neighbouring pairs: a
// transaction that writes them all then waits for few lines of memory.
#[inline(always)]
fn spot_of(key: Key, count: usize) -> usize {
    let number = (key.id() - LEAST) as u64;
    let mixed = (number ^ (number >> 32)).wrapping_mul(0xD6E8_FEB8_6659_FD93) >> 32;
    (mixed as usize ^ key.table() as usize) & count.wrapping_sub(1)
}
