//! What live transactions have written to one key.
use crate::packed_value::PackedValue;
use sgt_model::Tid;

mod by_writer;

/// What live transactions have written to a key. Mostly there is at most one writer, whose write is stored inline.
#[derive(Clone, Copy)]
pub enum Written {
    Nothing,
    /// One transaction wrote this value, or none.
    Once(Tid, PackedValue),
    /// The chain in this slot.
    InSlot(usize),
}
