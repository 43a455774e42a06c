//! The records with the index of each by its key.
ghost use Rattle.std.proofs.Props.{props};
ghost use Rattle.std.specs.Prelude.{length};
ghost use Rattle.sgt_records.specs.Indices.{AreIndices, AreKeys};

mod by_key;
mod of_rows;

use crate::hints::Hints;
use crate::record::Record;
use sgt_model::Key;
use std::collections::BTreeMap;

/// The records, and the index of each by its key. A record keeps its index, so a caller that has it need not search again.
///
/// Most searches end at a guess of `hints`, which is used only if the key there is the one searched for.
#[derive(Drop)]
pub struct Table {
    pub indices: BTreeMap<Key, usize>,
    pub records: Vec<Record>,
    /// The key of each record.
    pub keys: Vec<Key>,
    pub hints: Hints,
    ghost are_indices: { AreIndices indices records.items } by { Prim.hlevel props },
    ghost are_keys: { AreKeys indices keys.items (length records.items) } by { Prim.hlevel props },
}
