//! Which live transaction has written which record.
use sgt_model::{Key, Tid};

/// Which live transaction has written which key, and the index of the key's record.
#[derive(Clone, Copy)]
pub struct LiveWrite {
    pub by: Tid,
    pub key: Key,
    pub index: usize,
}
