//! What each end of a queue knows of the items sent and received. Exists in proofs only.
use crate::item::Item;
use std::collections::LinkedList;

/// What one end of a queue knows. Exists in proofs only: no value of it is ever made.
pub struct Log {
    /// Its share of the right to know the whole. The logs of a queue have 17 shares together: each consumer has one,
    /// the producer the rest.
    pub parts: u64,
    /// Whether it is the producer's log.
    pub is_producer: bool,
    /// What it has sent, in order.
    pub put: LinkedList<Item>,
    /// What it has received, in order.
    pub taken: LinkedList<Item>,
    /// What each consumer joined to it had received.
    pub joined: LinkedList<LinkedList<Item>>,
}
