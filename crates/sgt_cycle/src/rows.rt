//! A path in a graph given as rows of bits.
ghost use Rattle.std.specs.Prelude.{◌≡◌, ◌<◌, IfSome, IsNone};
ghost use Rattle.sgt_cycle.specs.Indices.{is_bit, indices};
ghost use Rattle.sgt_cycle.specs.Path.{IsPath, NoPath};

use crate::indices::{common, complement, has, least, minus, only};
use arrayvec::ArrayVec;
use sgt_model::Bounded;

/// A path along the rows from the source to one of the targets, through no index twice; None if there is none. Row `i` has
/// the indices to which a step leads from index `i`. It allocates nothing, and visits each index at most once.
///
/// Depth first (Tarjan, "Depth-first search and linear graph algorithms", 1972).
pub fn walk_rows(rows: &[u32; 32], source: u8, targets: u32) -> Option<Bounded<u8, 32>>
    requires index { source < 32 }
    ensures some { IfSome result (IsPath (is_bit rows.now) source (indices targets)) }
    ensures none { IsNone result → NoPath (is_bit rows.now) source (indices targets) }
{
    let mut path: ArrayVec<u8, 32> = ArrayVec::new();
    path.push(source);
    let mut fresh = complement(only(source));
    while let Some(here) = path.pop() {
        if has(targets, here) {
            path.push(here);
            return Bounded::from_slice(path.as_slice());
        }
        if let Some(next) = least(common(rows[usize::from(here)], fresh)) {
            path.push(here);
            path.push(next);
            fresh = minus(fresh, only(next));
        }
    }
    None
}
