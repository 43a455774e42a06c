//! Observers of a run. They see each line, and change nothing.

use sgt_assembly::SgtEngine;
use sgt_input::Lines;
use sgt_model::Event;

/// Follows a run. It changes nothing of the run and causes no fault. By default it does nothing.
pub(crate) trait Observer: Drop {
    /// The engine is about to answer this event.
    fn before(&mut self, _engine: &SgtEngine, _event: &Event) {}

    /// The engine has answered the event of the line returned last: that event is the newest entry.
    fn answered(&mut self, _engine: &SgtEngine, _lines: &Lines) {}

    /// The next line has not been read, and each answer that must be written before that is written.
    fn written(&mut self, _lines: &Lines) {}

    /// All lines are answered.
    fn ended(&mut self, _engine: &SgtEngine) {}
}

/// Does nothing.
#[derive(Drop)]
pub(crate) struct Unobserved;

impl Observer for Unobserved {}
