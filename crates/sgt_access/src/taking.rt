//! Taking the accesses of one transaction out of a list, and out of the masks.
ghost use Rattle.std.specs.Prelude.{◌≡◌, Bool, false, not, ◌&&◌, nat_eq, count_by, List, ◌++◌};
ghost use Rattle.sgt_model.specs.AccessList.{ListedAccess, is_listed};
ghost use Rattle.sgt_access.specs.Masks.{IsLeaving};

use crate::access::Access;
use crate::masks::Masks;
use sgt_model::Tid;

/// Removes the accesses of t, which is at these places, from a list and from the masks. The last access takes the place of each
/// that leaves.
pub fn take_out(accesses: &mut Vec<Access>, masks: &mut Masks, t: Tid, places: u32)
    ensures others { (p : ListedAccess → Bool) → count_by (λ a. p a && not (nat_eq a.by t)) accesses.new.items
        ≡ count_by (λ a. p a && not (nat_eq a.by t)) accesses.old.items }
    ensures none { is_listed accesses.new.items t ≡ false }
    ensures leaving { (rest : List ListedAccess) → IsLeaving masks.old t places (accesses.old.items ++ rest)
        → IsLeaving masks.new t places (accesses.new.items ++ rest) }
{
    let mut index = accesses.len();
    while 0 < index {
        index -= 1;
        if accesses[index].by == t {
            let access = accesses.swap_remove(index);
            masks.remove(places, access);
        }
    }
}
