//! The places of transactions: each transaction with an access has one of 32, so that a set of transactions is a number's bits.
ghost use Rattle.std.specs.Prelude.{◌≡◌, ℕ, ◌<◌, ◌%◌, true, false, not, ◌&&◌, ◌↔◌, nat_eq, IfSome, IsNone, length, slice_index};
ghost use Rattle.sgt_model.specs.Paths.{Member, Rising};
ghost use Rattle.sgt_cycle.specs.Indices.{is_set};
ghost use Rattle.sgt_access.specs.Places.{is_at, IsTaken};

use crate::rising::add_rising;
use arrayvec::ArrayVec;
use sgt_cycle::indices::{common, complement, has, joined, least, minus, only};
use sgt_model::{Tid, Tids};
use std::marker::Model;

/// How many guesses there are.
const GUESSES: usize = 128;

/// The transactions at the places that are taken.
///
/// The place of a transaction is guessed by the low bits of its number. A place is hidden if its guess was given to a later
/// transaction with the same bits. Where no guess is right, only the hidden places are searched: mostly there are none.
#[derive(Drop)]
pub struct Places {
    // The places with a transaction, as bits.
    taken: u32,
    // The transaction at each place that is taken.
    tids: [Tid; 32],
    guesses: [u8; GUESSES],
    hidden: u32,
}

impl Model for Places {
    ghost use Rattle.sgt_access.specs.Places.{Taken, AreGuesses};

    ghost Value = { Taken };

    ghost view = { λ p. record { taken = p.taken; tids = p.tids } };

    ghost invariant = { λ p. AreGuesses p.taken p.tids p.hidden p.guesses };
}

impl Places {
    /// All places are free.
    pub fn new() -> Places
        ensures free { result.taken ≡ 0 }
        ensures size { length result.tids ≡ 32 }
    {
        Places {
            taken: 0,
            tids: [Tid(0); 32],
            guesses: [0; GUESSES],
            hidden: 0,
        }
    }

    /// The place of a transaction, if it has one.
    #[inline(always)]
    pub fn place_of(&self, t: Tid) -> Option<u8>
        ensures some { IfSome result (λ i. (i < 32) × (is_at self.now.taken self.now.tids t i ≡ true)) }
        ensures none { IsNone result → (i : ℕ) → is_at self.now.taken self.now.tids t i ≡ false }
    {
        let guess = self.guesses[t.0 as usize % GUESSES] % 32;
        if has(self.taken, guess) && self.tids[usize::from(guess)] == t {
            return Some(guess);
        }
        search(common(self.taken, self.hidden), &self.tids, t)
    }

    /// Gives a transaction a free place. If none is free, nothing changes.
    #[inline(never)]
    pub fn take(&mut self, t: Tid) -> Option<u8>
        ensures some { IfSome result (λ place.
            IsTaken self.old.taken self.old.tids t place self.new.taken self.new.tids) }
        ensures there { IfSome result (λ place. is_at self.new.taken self.new.tids t place ≡ true) }
        ensures none { IsNone result → (self.new.taken ≡ self.old.taken) × (self.new.tids ≡ self.old.tids) }
    {
        let place = least(complement(self.taken))?;
        let at = t.0 as usize % GUESSES;
        let guess = self.guesses[at] % 32;
        self.hidden = joined(self.hidden, guessed(self.taken, &self.tids, guess, at));
        self.taken = joined(self.taken, only(place));
        self.tids[usize::from(place)] = t;
        self.guesses[at] = place;
        Some(place)
    }

    /// Whether no place is taken.
    #[inline(always)]
    pub fn is_free(&self) -> bool
        ensures { result ≡ true → (i : ℕ) → is_set self.now.taken i ≡ false }
    {
        least(self.taken).is_none()
    }

    /// Frees places.
    pub fn free(&mut self, places: u32)
        ensures taken { (i : ℕ) → is_set self.new.taken i ≡ (is_set self.old.taken i && not (is_set places i)) }
        ensures tids { self.new.tids ≡ self.old.tids }
    {
        self.taken = minus(self.taken, places);
        self.hidden = minus(self.hidden, places);
    }

    /// The transactions at these places. They rise.
    pub fn tids_at(&self, places: u32) -> Tids
        ensures members { (u : ℕ) → Member u result
            ↔ ((i : ℕ) × (is_set places i ≡ true) × (slice_index self.now.tids i ≡ u)) }
        ensures rising { Rising result }
    {
        let mut tids = ArrayVec::<Tid, 32>::new();
        let mut left = places;
        while let Some(place) = least(left) {
            left = minus(left, only(place));
            add_rising(&mut tids, self.tids[usize::from(place)]);
        }
        match Tids::from_slice(tids.as_slice()) {
            Some(tids) => tids,
            None => unreachable!(),
        }
    }
}

// The place of this guess as a set, if a transaction is there whose guess has this index; else the empty set.
#[inline(always)]
fn guessed(taken: u32, tids: &[Tid; 32], guess: u8, index: usize) -> u32
    requires { guess < 32 }
    ensures { (i : ℕ) → is_set result i
        ≡ (is_set taken i && nat_eq i guess && nat_eq (slice_index tids.now guess % 128) index) }
{
    let there = tids[usize::from(guess)];
    if there.0 as usize % GUESSES == index {
        return common(taken, only(guess));
    }
    0
}

// The place of a transaction among these, without a guess.
#[inline(never)]
fn search(places: u32, tids: &[Tid; 32], t: Tid) -> Option<u8>
    ensures some { IfSome result (λ i. (i < 32) × (is_at places tids.now t i ≡ true)) }
    ensures none { IsNone result → (i : ℕ) → is_at places tids.now t i ≡ false }
{
    if places == 0 {
        return None;
    }
    for place in 0..32u8 {
        if tids[usize::from(place)] == t && has(places, place) {
            return Some(place);
        }
    }
    None
}
