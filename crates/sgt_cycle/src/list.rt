//! The position of a number in a list.
ghost use Rattle.std.specs.Prelude.{◌≡◌, ◌<◌, ◌↔◌, IsTrue, IsNone, IfSome, length, slice_index};
ghost use Rattle.sgt_model.specs.Paths.{Member};

use sgt_model::Tid;

/// The first index of a number in a list.
pub fn index(list: &[Tid], t: Tid) -> Option<usize>
    ensures some { IfSome result (λ i. (i < length list.now) × (slice_index list.now i ≡ t)) }
    ensures none { IsNone result → Member t list.now → ⊥ }
{
    for i in 0..list.len() {
        if list[i] == t {
            return Some(i);
        }
    }
    None
}

/// Whether a number is in a list.
pub fn has(list: &[Tid], t: Tid) -> bool
    ensures { IsTrue result ↔ Member t list.now }
{
    index(list, t).is_some()
}
