//! A write of a live transaction.
use sgt_model::{Key, Tid};

/// A live transaction's write: a value, or none, which removes the record.
#[derive(Clone, Copy)]
pub struct Write {
    pub by: Tid,
    pub key: Key,
    pub value: Option<i64>,
}
