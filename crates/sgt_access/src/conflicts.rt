//! The conflicts of an access with a list of others.
ghost use Rattle.std.specs.Prelude.{◌≡◌, ◌≢◌, ℕ, true, ◌⊎◌, ◌↔◌, IsTrue};
ghost use Rattle.sgt_model.specs.AccessList.{lists_conflicting, is_listed};
ghost use Rattle.sgt_model.specs.Paths.{Member, Rising, AtMost};
ghost use Rattle.sgt_access.specs.NumberLists.{FitIn};

use crate::access::Access;
use crate::rising::add_rising;
use arrayvec::ArrayVec;
use sgt_model::{Key, Kind, Tid, Tids};

/// Whether one of these accesses conflicts with this one and is not t's.
#[inline(always)]
pub fn has_rival_among(accesses: &[Access], t: Tid, key: Key, kind: Kind) -> bool
    ensures exact { IsTrue result
        ↔ ((u : ℕ) × (u ≢ t) × (lists_conflicting accesses.now u key kind ≡ true)) }
{
    for access in accesses {
        if access.is_rival_of(t, key, kind) {
            return true;
        }
    }
    false
}

/// Adds to a rising list the transactions other than t with one of these accesses that conflicts with this one.
pub fn add_rivals(rivals: &mut ArrayVec<Tid, 32>, accesses: &[Access], t: Tid, key: Key, kind: Kind)
    requires few { FitIn rivals.old.items accesses.now }
    requires rising { Rising rivals.old.items }
    ensures exact { (u : ℕ) → Member u rivals.new.items
        ↔ (Member u rivals.old.items ⊎ ((u ≢ t) × (lists_conflicting accesses.now u key kind ≡ true))) }
    ensures rising { Rising rivals.new.items }
{
    for access in accesses {
        if access.is_rival_of(t, key, kind) {
            add_rising(rivals, access.by);
        }
    }
}

/// A rising list as one of at most 32 transactions.
pub fn tids_of(rivals: &ArrayVec<Tid, 32>) -> Tids
    requires { Rising rivals.now.items }
    ensures { result ≡ rivals.now.items }
{
    match Tids::from_slice(rivals.as_slice()) {
        Some(tids) => tids,
        None => unreachable!(),
    }
}

/// The transactions other than t with one of these accesses that conflicts with this one. They rise.
pub fn rivals_among(accesses: &[Access], t: Tid, key: Key, kind: Kind) -> Tids
    requires few { AtMost 32 (is_listed accesses.now) }
    ensures exact { (u : ℕ) → Member u result
        ↔ ((u ≢ t) × (lists_conflicting accesses.now u key kind ≡ true)) }
    ensures rising { Rising result }
{
    let mut rivals = ArrayVec::new();
    add_rivals(&mut rivals, accesses, t, key, kind);
    tids_of(&rivals)
}
