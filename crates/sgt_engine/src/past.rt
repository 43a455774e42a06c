//! The past of an engine that takes no more events.
use sgt_log::History;
use sgt_model::Database;

/// The past of an engine: its initial database, and all events and replies since.
#[derive(Drop)]
pub struct Past {
    pub opening: Database,
    pub history: History,
}
