//! One entry of a history.
use crate::event::Event;
use crate::reply::Reply;

/// One entry of a history: an event and its reply. Each answered event is one entry, refused ones too.
#[derive(Debug, Drop, PartialEq, Eq)]
pub struct Entry {
    pub event: Event,
    pub reply: Reply,
}
