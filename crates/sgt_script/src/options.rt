//! The options of a run.

use crate::output::Output;

/// The options of a run.
#[derive(Clone, Copy)]
pub struct Options {
    /// How many bytes the input may have, at most `MOST_BYTES` of `sgt_input`.
    pub most: usize,
    /// What is written.
    pub output: Output,
    /// Whether standard error says during the run how far it is, at most once a second.
    pub shows_progress: bool,
    /// How many bytes the input has, if that is known. Only progress lines say it.
    pub size: Option<u64>,
}
