//! The struct of what threads know of each other, for C.

/// What the threads that share an engine know of each other. All bytes are zero at first.
#[repr(C)]
#[derive(Drop)]
pub struct SgtDesk {
    /// How often a transaction has ended.
    pub ended: u64,
    /// How many calls were committed or refused.
    pub reported: u64,
    /// The calls that rest in a commit.
    pub committing: u64,
    /// The calls that wait for a cut.
    pub cutters: u64,
}
