//! The numbers of the entries of a session's receipts.
ghost use Rattle.std.specs.Prelude.{◌≡◌, ℕ, ◌+◌, ◌≤◌, ◌<◌, ◌^◌, [], ◌∷◌, ◌++◌, length, vec_len, vec_capacity, OnOk, Some, slice_get};
ghost use Rattle.sgt_session.specs.Numbers.{counted};

use sgt_log::prefault_ahead;
use sgt_model::NoMemory;
use std::alloc::Global;
use std::marker::Model;

/// Numbers of entries, in the order of a session's calls. As long as each is one more than the one before it, as those of
/// a session that is alone are, only the first one is stored. Contracts see them as a list, with the capacity for all
/// numbers.
#[derive(Drop)]
pub struct Numbers {
    first: usize,
    count: usize,
    // Whether all of them are in the list. Otherwise it is empty, and they count up from the first one.
    is_listed: bool,
    listed: Vec<u64>,
}

impl Model for Numbers {
    ghost use Rattle.std.specs.Prelude.{◌≡◌, ◌+◌, ◌≤◌, ◌<◌, ◌^◌, cond};
    ghost use Rattle.std.specs.Vec.{vec_len, vec_capacity};
    ghost use Rattle.sgt_session.specs.Numbers.{NumbersView, numbers_of};

    ghost Value = { NumbersView };

    ghost view = { λ n. record {
      items = numbers_of n.is_listed n.listed.items n.first n.count;
      capacity = vec_capacity n.listed;
    } };

    ghost invariant = { λ n.
        (n.count ≤ vec_capacity n.listed)
        × (n.first + n.count < 2 ^ 64)
        × (vec_len n.listed ≡ cond n.is_listed n.count 0) };
}

impl Numbers {
    /// No numbers, and no capacity. It allocates nothing.
    pub fn new(alloc: Global) -> Self
        ensures items { result.items ≡ [] }
        ensures capacity { result.capacity ≡ 0 }
    {
        Numbers {
            first: 0,
            count: 0,
            is_listed: false,
            listed: Vec::new(alloc),
        }
    }

    /// How many there are.
    #[inline(always)]
    pub fn len(&self) -> usize
        ensures { result ≡ length self.now.items }
    {
        self.count
    }

    /// The number at an index.
    #[inline(always)]
    pub fn at(&self, place: usize) -> u64
        requires { place < length self.now.items }
        ensures { slice_get self.now.items place ≡ Some result }
    {
        if self.is_listed {
            return self.listed[place];
        }
        (self.first + place) as u64
    }

    /// Adds a number, for which there is capacity. It allocates nothing.
    #[inline(always)]
    pub fn push(&mut self, number: usize)
        requires spare { length self.old.items < self.old.capacity }
        requires fits { number + 1 < 2 ^ 64 }
        ensures items { self.new.items ≡ self.old.items ++ number ∷ [] }
        ensures capacity { self.new.capacity ≡ self.old.capacity }
    {
        if !self.is_listed && number == self.first + self.count {
            self.count += 1;
            return;
        }
        self.push_listed(number);
    }

    // Adds any number, which is listed if it does not follow the others.
    #[inline(never)]
    fn push_listed(&mut self, number: usize)
        requires spare { length self.old.items < self.old.capacity }
        requires fits { number + 1 < 2 ^ 64 }
        ensures items { self.new.items ≡ self.old.items ++ number ∷ [] }
        ensures capacity { self.new.capacity ≡ self.old.capacity }
    {
        if self.count == 0 {
            self.first = number;
            self.count = 1;
            self.is_listed = false;
            return;
        }
        if !self.is_listed {
            list_all(&mut self.listed, self.first, self.count);
            self.is_listed = true;
        }
        self.listed.push_reserved(number as u64);
        self.first = 0;
        self.count += 1;
    }

    /// How many numbers from an index on, at most `most`, are this one and those after it.
    #[inline(always)]
    pub fn following(&self, place: usize, number: usize, most: usize) -> usize
        requires there { place + most ≤ length self.now.items }
        requires fits { number + most < 2 ^ 64 }
        ensures most { result ≤ most }
        ensures numbers { (k : ℕ) → k < result → slice_get self.now.items (place + k) ≡ Some (number + k) }
    {
        if self.is_listed {
            return self.following_listed(place, number, most);
        }
        if self.first + place == number {
            most
        } else {
            0
        }
    }

    // The same of listed numbers.
    fn following_listed(&self, place: usize, number: usize, most: usize) -> usize
        requires there { place + most ≤ length self.now.items }
        requires fits { (place + most < 2 ^ 64) × (number + most < 2 ^ 64) }
        ensures most { result ≤ most }
        ensures numbers { (k : ℕ) → k < result → slice_get self.now.items (place + k) ≡ Some (number + k) }
    {
        for k in 0..most {
            if self.at(place + k) != (number + k) as u64 {
                return k;
            }
        }
        most
    }

    /// Provides capacity for this many more numbers. The numbers stay.
    ///
    /// `NoMemory` if an allocation failed.
    pub fn reserve(&mut self, count: usize) -> Result<(), NoMemory>
        ensures items { self.new.items ≡ self.old.items }
        ensures no_less { self.old.capacity ≤ self.new.capacity }
        ensures enough { OnOk result (length self.new.items + count ≤ self.new.capacity) }
    {
        let unlisted = self.count - self.listed.len();
        let Some(more) = unlisted.checked_add(count) else {
            return Err(NoMemory);
        };
        self.listed.reserve(more)?;
        Ok(())
    }

    /// Prefaults the memory of at most this many next numbers, and returns the index up to which it did.
    pub fn prefault(&mut self, most: usize) -> usize
        ensures { self.new ≡ self.old }
    {
        prefault_ahead(&mut self.listed, most, 0)
    }
}

/// Lists `count` numbers, counting up from the first one, in an empty list with capacity for them.
fn list_all(listed: &mut Vec<u64>, first: usize, count: usize)
    requires empty { listed.old.items ≡ [] }
    requires spare { count ≤ vec_capacity listed.old }
    requires fits { first + count < 2 ^ 64 }
    ensures items { listed.new.items ≡ counted first count }
    ensures len { vec_len listed.new ≡ count }
    ensures capacity { vec_capacity listed.new ≡ vec_capacity listed.old }
{
    for k in 0..count {
        listed.push_reserved((first + k) as u64);
    }
}
