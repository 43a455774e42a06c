//! One access, and which others it conflicts with.
ghost use Rattle.std.specs.Prelude.{◌≡◌, ◌≢◌, true, ◌↔◌, IsTrue};
ghost use Rattle.sgt_model.specs.AccessList.{is_conflicting};

use sgt_model::{Key, Kind, Tid};
use std::marker::Model;

/// One access of a live transaction.
#[derive(Clone, Copy)]
pub struct Access {
    pub key: Key,
    pub by: Tid,
    pub kind: Kind,
}

impl Model for Access {
    ghost use Rattle.sgt_model.specs.AccessList.{ListedAccess};

    ghost Value = { ListedAccess };

    ghost view = { λ a. record { by = a.by; key = a.key; kind = a.kind } };

    ghost inverse = { λ v. record { by = v.by; key = v.key; kind = v.kind } };
}

impl Access {
    /// Whether its transaction is not t and it conflicts with an access of this kind of the key.
    pub fn is_rival_of(&self, t: Tid, key: Key, kind: Kind) -> bool
        ensures { IsTrue result
            ↔ ((self.now.by ≢ t) × (is_conflicting self.now.by key kind self.now ≡ true)) }
    {
        self.by != t && self.key == key && (self.kind == Kind::Store || kind == Kind::Store)
    }
}
