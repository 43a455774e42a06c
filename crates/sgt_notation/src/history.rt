//! A history that was read: its operations, and the texts of its items.
use sgt_classes::Operation;

/// The history that a text spells.
#[derive(Drop)]
pub struct History {
    /// The operations, in their order. Each item has a number of its own.
    pub operations: Vec<Operation>,
    /// The texts of the items, by number.
    pub items: Vec<Vec<u8>>,
}
