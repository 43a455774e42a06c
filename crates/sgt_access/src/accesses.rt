//! The calls of a list of accesses, and their contracts.
ghost use Rattle.std.specs.Prelude.{◌≡◌, ◌≢◌, ℕ, true, List, [], ◌∷◌, ◌++◌, ◌↔◌, IsTrue, OnOk};
ghost use Rattle.sgt_model.specs.Contents.{Key};
ghost use Rattle.sgt_model.specs.AccessList.{ListedAccess, lists_conflicting, is_listed, forgotten};
ghost use Rattle.sgt_model.specs.Paths.{Member, Rising, AtMost};

use sgt_model::{Key, Kind, NoMemory, Tid, Tids};
use std::alloc::Global;

/// A list of the accesses of the live transactions.
pub trait Accesses: Drop + Send {
    /// The accesses, oldest first.
    ghost list: { Self → List ListedAccess };

    /// An access of the key can be recorded without an allocation.
    ghost is_ready: { Self → Key → Type 0 };

    /// No accesses. It allocates nothing.
    fn empty(alloc: Global) -> Self
        ensures { list result ≡ [] };

    /// Provides the capacity that the next access of the key needs. `NoMemory` if an allocation failed.
    fn reserve(&mut self, key: Key) -> Result<(), NoMemory>
        ensures same { list self.new ≡ list self.old }
        ensures ready { OnOk result (is_ready self.new key) };

    /// Adds an access at the end. It allocates nothing.
    fn note(&mut self, t: Tid, key: Key, kind: Kind)
        requires ready { is_ready self.old key }
        ensures noted { list self.new
            ≡ list self.old ++ record { by = t; key = key; kind = kind } ∷ [] };

    /// Whether a transaction other than t has an access that conflicts with this one, so whether there are `rivals`. Most
    /// accesses have none.
    fn has_rival(&self, t: Tid, key: Key, kind: Kind) -> bool
        ensures exact { IsTrue result
            ↔ ((u : ℕ) × (u ≢ t) × (lists_conflicting (list self.now) u key kind ≡ true)) };

    /// The transactions other than t with an access that conflicts with this one: of the same key, and at least one of the two
    /// is a write. They rise. The call allocates nothing.
    ///
    /// Bernstein, Hadzilacos and Goodman (1987), chapter 4: the edges to t that serialization graph testing adds.
    fn rivals(&self, t: Tid, key: Key, kind: Kind) -> Tids
        requires few { AtMost 32 (is_listed (list self.now)) }
        ensures exact { (u : ℕ) → Member u result
            ↔ ((u ≢ t) × (lists_conflicting (list self.now) u key kind ≡ true)) }
        ensures rising { Rising result };

    /// Removes the accesses of a transaction. The rest keep their order. It allocates nothing.
    fn forget(&mut self, t: Tid)
        ensures forgotten { list self.new ≡ forgotten t (list self.old) };
}
