//! Adding to a rising list of transactions.
ghost use Rattle.std.specs.Prelude.{◌≡◌, ℕ, ◌<◌, true, length, ◌⊎◌, ◌↔◌};
ghost use Rattle.sgt_model.specs.Paths.{Member, Rising};

use arrayvec::ArrayVec;
use sgt_model::Tid;

/// Adds t at its position in the order, unless it is there.
pub fn add_rising(tids: &mut ArrayVec<Tid, 32>, t: Tid)
    requires rising { Rising tids.old.items }
    requires capacity { ¬ Member t tids.old.items → length tids.old.items < 32 }
    ensures members { (u : ℕ) → Member u tids.new.items ↔ ((u ≡ t) ⊎ Member u tids.old.items) }
    ensures rising { Rising tids.new.items }
{
    if is_above(tids.as_slice(), t) {
        tids.push(t);
        return;
    }
    if let Err(index) = tids.binary_search(&t) {
        tids.insert(index, t);
    }
}

// Whether t is above all of these, so that no search is needed.
#[inline(always)]
fn is_above(tids: &[Tid], t: Tid) -> bool
    requires { Rising tids.now }
    ensures { result ≡ true → (u : ℕ) → Member u tids.now → u < t }
{
    match tids.last() {
        Some(last) => *last < t,
        None => true,
    }
}
