//! The command whose run ended with a fault.

/// The command whose run a fault has ended.
#[derive(Clone, Copy)]
pub enum Command {
    /// `sgt script`: after its opening, an input has events.
    Script,
    /// `sgt bank`: after its opening, an input has jobs.
    Bank {
        /// The number of workers that run them.
        workers: u32,
    },
}
