//! The pending values of one key, by several writers.
ghost use Rattle.std.specs.Prelude.{◌≡◌, ◌<◌, None, false, length, nat_eq, [], ◌∷◌};
ghost use Rattle.std.specs.List.{last_or, position_from};
ghost use Rattle.sgt_model.specs.Chains.{chain_without, write_last, value_in, writes_in};
ghost use Rattle.sgt_records.specs.Validity.{IsChain};

use crate::packed_value::PackedValue;
use arrayvec::ArrayVec;
use sgt_model::Tid;

/// The values that live transactions have written to one key: the last one of each writer, in the order of these writes.
#[derive(Drop)]
pub struct Chain {
    pub writes: ArrayVec<(Tid, PackedValue), 32>,
}

// A removal takes no more bytes than a value.
const _: () = prove!(size_of::<Chain>() == 520);

impl Chain {
    /// A chain of two writes.
    pub fn of(first: (Tid, PackedValue), second: (Tid, PackedValue)) -> Chain
        ensures { result.writes.items ≡ first ∷ second ∷ [] }
    {
        let mut writes = ArrayVec::new();
        writes.push(first);
        writes.push(second);
        Chain { writes }
    }

    /// The last write.
    pub fn last(&self) -> Option<(Tid, Option<i64>)>
        ensures { result ≡ last_or None self.now.writes.items }
    {
        match self.writes.last() {
            Some(write) => Some((write.0, write.1.get())),
            None => None,
        }
    }

    /// Adds t's value as the last, and returns whether it replaces an earlier one of t.
    pub fn write(&mut self, t: Tid, value: PackedValue) -> bool
        requires chain { IsChain self.old.writes.items }
        requires capacity { writes_in t self.old.writes.items ≡ false → length self.old.writes.items < 32 }
        ensures again { result ≡ writes_in t self.old.writes.items }
        ensures last { self.new.writes.items ≡ write_last t value self.old.writes.items }
    {
        let earlier = self.take_out(t);
        self.writes.push((t, value));
        earlier.is_some()
    }

    /// Removes t's value and returns it, if there is one.
    pub fn take_out(&mut self, t: Tid) -> Option<Option<i64>>
        requires chain { IsChain self.old.writes.items }
        ensures value { result ≡ value_in t self.old.writes.items }
        ensures left { self.new.writes.items ≡ chain_without t self.old.writes.items }
    {
        let at = self.index_of(t)?;
        let (_, value) = self.writes.remove(at);
        Some(value.get())
    }

    // The index of t's value.
    fn index_of(&self, t: Tid) -> Option<usize>
        ensures { result ≡ position_from (λ w. nat_eq w.0 t) 0 self.now.writes.items }
    {
        self.writes.iter().position(|write| write.0 == t)
    }
}
