//! Accesses in one plain list.
use crate::access::Access;
use crate::accesses::Accesses;
use crate::conflicts::{has_rival_among, rivals_among};
use sgt_model::{Key, Kind, NoMemory, Tid, Tids};
use std::alloc::Global;

/// All accesses in one list. `rivals` and `forget` go once through it.
#[derive(Drop)]
pub struct OneList {
    accesses: Vec<Access>,
}

impl Accesses for OneList {
    ghost use Rattle.std.specs.Prelude.{◌<◌};
    ghost use Rattle.std.specs.Vec.{vec_len, vec_capacity};

    ghost list = { λ l. l.accesses.items };

    ghost is_ready = { λ l k. vec_len l.accesses < vec_capacity l.accesses };

    fn empty(alloc: Global) -> Self {
        OneList {
            accesses: Vec::new(alloc),
        }
    }

    fn reserve(&mut self, _key: Key) -> Result<(), NoMemory> {
        self.accesses.reserve(1)?;
        Ok(())
    }

    fn note(&mut self, t: Tid, key: Key, kind: Kind) {
        self.accesses.push_reserved(Access { by: t, key, kind });
    }

    fn has_rival(&self, t: Tid, key: Key, kind: Kind) -> bool {
        has_rival_among(self.accesses.as_slice(), t, key, kind)
    }

    fn rivals(&self, t: Tid, key: Key, kind: Kind) -> Tids {
        rivals_among(self.accesses.as_slice(), t, key, kind)
    }

    fn forget(&mut self, t: Tid) {
        self.accesses.retain(|access| access.by != t);
    }
}
