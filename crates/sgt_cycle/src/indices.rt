//! A set of indices from 0 to 31, as the bits of a number: index `i` is in the set if bit `i` is 1.
ghost use Rattle.std.specs.Prelude.{◌≡◌, ℕ, ◌<◌, ◌≤◌, true, false, not, ◌||◌, ◌&&◌, ◌↔◌, nat_eq, IsTrue, IfSome, IsNone};
ghost use Rattle.sgt_cycle.specs.Indices.{is_set};

/// The set of this index alone.
pub fn only(index: u8) -> u32
    requires { index < 32 }
    ensures { (i : ℕ) → is_set result i ≡ nat_eq i index }
{
    1 << index
}

/// Whether an index is in the set.
pub fn has(set: u32, index: u8) -> bool
    requires { index < 32 }
    ensures { result ≡ is_set set index }
{
    set & (1 << index) != 0
}

/// The indices that are not in the set.
pub fn complement(set: u32) -> u32
    ensures { (i : ℕ) → i < 32 → is_set result i ≡ not (is_set set i) }
{
    !set
}

/// The union of both sets.
pub fn joined(set: u32, other: u32) -> u32
    ensures { (i : ℕ) → is_set result i ≡ (is_set set i || is_set other i) }
{
    set | other
}

/// The indices that are in both sets.
pub fn common(set: u32, other: u32) -> u32
    ensures { (i : ℕ) → is_set result i ≡ (is_set set i && is_set other i) }
{
    set & other
}

/// The indices of the first set that are not in the second.
pub fn minus(set: u32, other: u32) -> u32
    ensures indices { (i : ℕ) → is_set result i ≡ (is_set set i && not (is_set other i)) }
    ensures at_most { result ≤ set }
{
    set & !other
}

/// The least index of the set.
pub fn least(set: u32) -> Option<u8>
    ensures some { IfSome result (λ i. (i < 32) × (is_set set i ≡ true)) }
    ensures least { IfSome result (λ i. (j : ℕ) → is_set set j ≡ true → i ≤ j) }
    ensures none { IsNone result → (i : ℕ) → is_set set i ≡ false }
{
    if set == 0 {
        return None;
    }
    Some(set.trailing_zeros() as u8)
}

/// Whether some index is in both sets.
pub fn meets(set: u32, other: u32) -> bool
    ensures { IsTrue result ↔ ((i : ℕ) × (is_set set i ≡ true) × (is_set other i ≡ true)) }
{
    least(common(set, other)).is_some()
}
