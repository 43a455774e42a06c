//! The items of a queue.

/// An item of a queue.
#[derive(Drop)]
pub enum Item {
    /// The number of a job, for the consumer that receives it.
    Job(u32),
    /// A stop: no job is left for the consumer that receives it.
    Stop,
}
