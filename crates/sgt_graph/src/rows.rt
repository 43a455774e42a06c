//! Rows of indices: row `i` is a set of the indices that index `i` is related to.
ghost use Rattle.std.specs.Prelude.{◌≡◌, ℕ, ◌<◌, true, not, ◌||◌, ◌&&◌, ◌↔◌, nat_eq};
ghost use Rattle.sgt_cycle.specs.Indices.{is_set, is_bit};

use sgt_cycle::indices::{joined, least, minus, only};

/// A row for each of 32 indices.
pub type Rows = [u32; 32];

/// The union of the rows of these indices.
#[inline(always)]
pub fn union(rows: &Rows, of: u32) -> u32
    ensures { (j : ℕ) → (is_set result j ≡ true) ↔ ((i : ℕ) × (is_bit rows.now i j ≡ true) × (is_set of i ≡ true)) }
{
    let mut found = 0;
    let mut left = of;
    while let Some(index) = least(left) {
        found = joined(found, rows[usize::from(index)]);
        left = minus(left, only(index));
    }
    found
}

/// Adds the indices of `more` to the rows of the indices of `to`.
pub fn add(rows: &mut Rows, to: u32, more: u32)
    ensures { (i j : ℕ) → is_bit rows.new i j ≡ (is_bit rows.old i j || (is_set to i && is_set more j)) }
{
    let mut left = to;
    while let Some(index) = least(left) {
        let i = usize::from(index);
        rows[i] = joined(rows[i], more);
        left = minus(left, only(index));
    }
}

/// Removes an index from the rows of these, which are all that have it, and empties its own.
pub fn take_out_of(rows: &mut Rows, of: u32, index: u8)
    requires low { index < 32 }
    requires all { (i : ℕ) → is_bit rows.old i index ≡ true → is_set of i ≡ true }
    ensures { (i j : ℕ) → is_bit rows.new i j ≡ (is_bit rows.old i j && (not (nat_eq i index) && not (nat_eq j index))) }
{
    let out = only(index);
    let mut left = of;
    while let Some(row) = least(left) {
        let i = usize::from(row);
        rows[i] = minus(rows[i], out);
        left = minus(left, only(row));
    }
    rows[usize::from(index)] = 0;
}
