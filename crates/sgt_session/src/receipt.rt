//! The receipt of one call.
ghost use Rattle.std.specs.Prelude.{◌≡◌};

use sgt_model::{Event, Reply};

/// What one call returned to a session: the call's entry in the history, and its number there, counted from 0.
#[derive(Debug, Drop, PartialEq, Eq)]
pub struct Receipt {
    pub number: u64,
    pub event: Event,
    pub reply: Reply,
}

impl Receipt {
    /// A copy. Allocates nothing.
    pub fn copied(&self) -> Self
        ensures { result ≡ self.now }
    {
        Receipt {
            number: self.number,
            event: self.event.copied(),
            reply: self.reply.copied(),
        }
    }
}
