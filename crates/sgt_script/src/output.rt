//! What a run writes: the output mode.

/// What a run writes.
#[derive(Clone, Copy)]
pub enum Output {
    /// The reply to each line, and at the end the committed database.
    Replies,
    /// The operations of the run as a history, and nothing at the end.
    History,
    /// The committed database at the end, as JSON records, and nothing before it.
    Records,
    /// The reply to each line as an object of JSON, and at the end the committed database as JSON records.
    Json,
}
