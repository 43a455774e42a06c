//! Transactions at 32 indices, some of which are taken.
ghost use Rattle.std.specs.Prelude.{◌≡◌, ℕ, ◌<◌, ◌≤◌, true, false, ◌↔◌, IfSome, IsNone, map, length, slice_index};
ghost use Rattle.sgt_model.specs.Paths.{Member};
ghost use Rattle.sgt_cycle.specs.Indices.{is_set};
ghost use Rattle.sgt_graph.specs.BitGraphs.{is_at, IsLeastAt};

use crate::guesses::Guesses;
use crate::pair_graph::smaller;
use sgt_cycle::indices::{has, joined, least, minus, only};
use sgt_model::{Tid, Tids};

/// The index of a transaction, if it has one.
#[inline(always)]
pub fn index_of(taken: u32, tids: &[Tid; 32], guesses: &Guesses, t: Tid) -> Option<u8>
    ensures some { IfSome result (λ i. (i < 32) × (is_at taken tids.now t i ≡ true)) }
    ensures none { IsNone result → (i : ℕ) → is_at taken tids.now t i ≡ false }
{
    let guess = guesses.guess(t);
    if tids[usize::from(guess)] == t && has(taken, guess) {
        return Some(guess);
    }
    search(taken, tids, t)
}

// The same, without a guess.
#[inline(never)]
fn search(taken: u32, tids: &[Tid; 32], t: Tid) -> Option<u8>
    ensures some { IfSome result (λ i. (i < 32) × (is_at taken tids.now t i ≡ true)) }
    ensures none { IsNone result → (i : ℕ) → is_at taken tids.now t i ≡ false }
{
    for index in 0..32u8 {
        if tids[usize::from(index)] == t && has(taken, index) {
            return Some(index);
        }
    }
    None
}

/// The indices of those of these transactions that have one. No transaction has two.
pub fn indices_of(taken: u32, tids: &[Tid; 32], guesses: &Guesses, among: &Tids) -> u32
    requires apart { (i j t : ℕ) → is_at taken tids.now t i ≡ true → is_at taken tids.now t j ≡ true → i ≡ j }
    ensures { (i : ℕ) → (is_set result i ≡ true) ↔ ((is_set taken i ≡ true) × Member (slice_index tids.now i) among.now) }
{
    let mut found = 0;
    for t in among.as_slice() {
        if let Some(index) = index_of(taken, tids, guesses, *t) {
            found = joined(found, only(index));
        }
    }
    found
}

/// The transactions at these indices.
pub fn tids_at(tids: &[Tid; 32], cycle: &[u8]) -> Tids
    requires few { length cycle.now ≤ 32 }
    requires low { (i : ℕ) → Member i cycle.now → i < 32 }
    ensures { result ≡ map (λ i. slice_index tids.now i) cycle.now }
{
    let mut named = Tids::new();
    for index in cycle {
        named.push(tids[usize::from(*index)]);
    }
    named
}

/// The least transaction at one of these indices.
pub fn least_at(tids: &[Tid; 32], set: u32) -> Option<Tid>
    ensures some { IfSome result (IsLeastAt tids.now set) }
    ensures none { IsNone result → (i : ℕ) → is_set set i ≡ false }
{
    let mut found: Option<Tid> = None;
    let mut left = set;
    while let Some(index) = least(left) {
        found = Some(smaller(found, tids[usize::from(index)]));
        left = minus(left, only(index));
    }
    found
}
