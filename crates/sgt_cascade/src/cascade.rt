//! Cascading aborts: which transactions abort with one that they have read from.
ghost use Rattle.std.specs.Prelude.{◌≡◌, ◌≢◌, ◌↔◌, ℕ, false};
ghost use Rattle.sgt_model.specs.State.{Has};
ghost use Rattle.sgt_model.specs.Paths.{Member, Reaches, Rising};

use crate::standing::{fallen, has_reader, next_fall, without};
use sgt_model::{Tid, Tids};

/// Whether a transaction has read from t. If none has, none is aborted in cascade with t.
pub fn is_read_from(read_from: &[(Tid, Tid)], t: Tid) -> bool
    ensures { result ≡ false → (u : ℕ) → u ≢ t → Reaches (Has read_from.now) t u → ⊥ }
{
    has_reader(read_from, t)
}

/// Those aborted in cascade with t: the live ones other than t that have read from it, directly or through others.
/// The result rises, whatever the order of the live ones.
///
/// Each pair in `read_from` is of two live ones: the source, and its reader. The call allocates nothing. If none has read from
/// t, it goes once through the pairs. Else it goes through them once more than transactions are aborted in cascade, and for each
/// pair through the live ones.
///
/// Bernstein, Hadzilacos and Goodman (1987), chapter 1: cascading abort.
pub fn fallers(read_from: &[(Tid, Tid)], live: &Tids, t: Tid) -> Tids
    requires live { Member t live.now }
    requires live_pairs { (u v : ℕ) → Has read_from.now u v
        → Member u live.now × Member v live.now }
    ensures exact { (u : ℕ) → Member u result
        ↔ (Member u live.now × (u ≢ t) × Reaches (Has read_from.now) t u) }
    ensures rising { Rising result }
{
    if !has_reader(read_from, t) {
        return Tids::new();
    }
    let others = without(live, t);
    let mut standing = others.copied();
    while let Some(pair) = next_fall(read_from, standing.as_slice()) {
        standing = without(&standing, pair.1);
    }
    fallen(&others, standing.as_slice())
}
