//! A list of accesses that stores every call it has had. It is for proofs.
ghost use Rattle.std.specs.Prelude.{◌≡◌, [], ◌∷◌, ◌++◌};
ghost use Rattle.sgt_model.specs.AccessList.{forgotten};

use crate::access::Access;
use sgt_model::Tid;
use std::marker::Model;
use std::mem;
use std::snapshot::Snapshot;

/// The calls on a list, from the newest to the one that made it. A snapshot has no bytes, so the calls before the
/// newest exist for proofs alone.
#[derive(Drop)]
pub enum Calls {
    Empty,
    Note {
        before: Snapshot<Calls>,
        access: Access,
    },
    Forget {
        before: Snapshot<Calls>,
        t: Tid,
    },
}

/// The whole access list, as contracts see it. It has no bytes, and its calls do nothing at run time.
#[derive(Drop)]
pub struct WholeList {
    calls: Snapshot<Calls>,
}

impl Model for WholeList {
    ghost use Rattle.std.specs.Prelude.{List};
    ghost use Rattle.sgt_model.specs.AccessList.{ListedAccess};

    ghost Value = { List ListedAccess };

    ghost use Rattle.sgt_access.specs.WholeLists.{left_by};

    ghost view = { λ l. left_by l.calls.value };
}

impl WholeList {
    /// No accesses.
    pub fn empty() -> Self
        ensures { result ≡ [] }
    {
        WholeList {
            calls: Snapshot::of(&Calls::Empty),
        }
    }

    /// Adds an access at the end.
    pub fn note(&mut self, access: Access)
        ensures { self.new ≡ self.old ++ access ∷ [] }
    {
        let before = mem::replace(&mut self.calls, Snapshot::of(&Calls::Empty));
        self.calls = Snapshot::of(&Calls::Note { before, access });
    }

    /// Removes the accesses of a transaction.
    pub fn forget(&mut self, t: Tid)
        ensures { self.new ≡ forgotten t self.old }
    {
        let before = mem::replace(&mut self.calls, Snapshot::of(&Calls::Empty));
        self.calls = Snapshot::of(&Calls::Forget { before, t });
    }
}
