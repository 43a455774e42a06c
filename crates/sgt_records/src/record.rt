//! The record of one key.
ghost use Rattle.std.specs.Prelude.{◌≡◌, true, None};
ghost use Rattle.sgt_records.specs.declared.written.Written.TheVariants.{Nothing};
ghost use Rattle.sgt_records.specs.Slots.{chain_at};
ghost use Rattle.sgt_records.specs.Tops.{top_of};

use crate::chain::Chain;
use crate::top::Top;
use crate::written::Written;
use slab::Slab;

/// The record of a key: its committed value, or none, and what live transactions have written to it.
#[derive(Clone, Copy)]
pub struct Record {
    pub committed: Option<i64>,
    pub written: Written,
}

// Sixteen bytes each, so a removal takes no more than a value.
const _: () = prove!(size_of::<Record>() == 32);

impl Record {
    /// What a read returns.
    #[inline(always)]
    pub fn top(&self, chains: &Slab<Chain>) -> Top
        ensures { result ≡ top_of (chain_at chains.now self.now.written) self.now.committed }
    {
        match self.written.last(chains) {
            Some((t, value)) => Top::Pending(t, value),
            None => match self.committed {
                Some(value) => Top::Settled(value),
                None => Top::Nothing,
            },
        }
    }

    /// Whether it has no value, committed or pending.
    #[inline(always)]
    pub fn is_empty(&self) -> bool
        ensures committed { result ≡ true → self.now.committed ≡ None }
        ensures written { result ≡ true → self.now.written ≡ Nothing }
    {
        self.committed.is_none() && matches!(self.written, Written::Nothing)
    }
}
