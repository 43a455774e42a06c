//! The writes of each transaction to one key.
ghost use Rattle.std.specs.Prelude.{◌≡◌, ◌<◌, Some, None, [], ◌∷◌, false, length};
ghost use Rattle.std.specs.List.{last_or};
ghost use Rattle.slab.specs.Slab.{HasRoomFor};
ghost use Rattle.sgt_model.specs.Chains.{chain_without, write_last, value_in, writes_in};
ghost use Rattle.sgt_records.specs.declared.written.Written.TheVariants.{InSlot};
ghost use Rattle.sgt_records.specs.Slots.{chain_at, slot_in, IsHeld, Moves};
ghost use Rattle.sgt_records.specs.Validity.{IsChain};

use crate::chain::Chain;
use crate::packed_value::PackedValue;
use crate::written::Written;
use sgt_model::Tid;
use slab::Slab;

impl Written {
    /// The last write: its writer and value.
    #[inline(always)]
    pub fn last(self, chains: &Slab<Chain>) -> Option<(Tid, Option<i64>)>
        ensures { result ≡ last_or None (chain_at chains.now self) }
    {
        match self {
            Written::Nothing => None,
            Written::Once(t, value) => Some((t, value.get())),
            Written::InSlot(slot) => chains.get(slot)?.last(),
        }
    }

    /// The same with t's value last, and whether it replaces an earlier one of t. A second writer gets a chain. It allocates
    /// nothing.
    #[inline(always)]
    pub fn write(self, chains: &mut Slab<Chain>, t: Tid, value: PackedValue) -> (Written, bool)
        requires ready { HasRoomFor chains.old 1 }
        requires held { IsHeld chains.old (slot_in self) }
        requires chain { IsChain (chain_at chains.old self) }
        requires capacity { writes_in t (chain_at chains.old self) ≡ false → length (chain_at chains.old self) < 32 }
        ensures last { chain_at chains.new result.0 ≡ write_last t value (chain_at chains.old self) }
        ensures again { result.1 ≡ writes_in t (chain_at chains.old self) }
        ensures moves { Moves chains.old chains.new (slot_in self) (slot_in result.0) }
    {
        match self {
            Written::Nothing => (Written::Once(t, value), false),
            Written::Once(by, earlier) => {
                if by == t {
                    return (Written::Once(t, value), true);
                }
                (chain_of(chains, (by, earlier), (t, value)), false)
            }
            Written::InSlot(slot) => match chains.get_mut(slot) {
                Some(chain) => (self, chain.write(t, value)),
                None => unreachable!(),
            },
        }
    }

    /// The same without t's value, and that value. If a chain becomes empty, its slot is freed.
    #[inline(always)]
    pub fn take_out(self, chains: &mut Slab<Chain>, t: Tid) -> (Written, Option<Option<i64>>)
        requires held { IsHeld chains.old (slot_in self) }
        requires chain { IsChain (chain_at chains.old self) }
        ensures left { chain_at chains.new result.0 ≡ chain_without t (chain_at chains.old self) }
        ensures value { result.1 ≡ value_in t (chain_at chains.old self) }
        ensures moves { Moves chains.old chains.new (slot_in self) (slot_in result.0) }
    {
        match self {
            Written::Nothing => (self, None),
            Written::Once(by, value) => {
                if by != t {
                    return (self, None);
                }
                (Written::Nothing, Some(value.get()))
            }
            Written::InSlot(slot) => take_out_of(chains, slot, t),
        }
    }
}

// Makes a chain of two writes. It allocates nothing.
#[inline(never)]
fn chain_of(
    chains: &mut Slab<Chain>,
    first: (Tid, PackedValue),
    second: (Tid, PackedValue),
) -> Written
    requires ready { HasRoomFor chains.old 1 }
    ensures chain { chain_at chains.new result ≡ first ∷ second ∷ [] }
    ensures moves { Moves chains.old chains.new None (slot_in result) }
{
    Written::InSlot(chains.insert_reserved(Chain::of(first, second)))
}

// Removes t's value from the chain in a slot. If the chain becomes empty, its slot is freed.
#[inline(never)]
fn take_out_of(chains: &mut Slab<Chain>, slot: usize, t: Tid) -> (Written, Option<Option<i64>>)
    requires held { IsHeld chains.old (Some slot) }
    requires chain { IsChain (chain_at chains.old (InSlot slot)) }
    ensures left { chain_at chains.new result.0 ≡ chain_without t (chain_at chains.old (InSlot slot)) }
    ensures value { result.1 ≡ value_in t (chain_at chains.old (InSlot slot)) }
    ensures moves { Moves chains.old chains.new (Some slot) (slot_in result.0) }
{
    let Some(chain) = chains.get_mut(slot) else {
        unreachable!();
    };
    let value = chain.take_out(t);
    if chain.writes.is_empty() {
        chains.remove(slot);
        return (Written::Nothing, value);
    }
    (Written::InSlot(slot), value)
}
