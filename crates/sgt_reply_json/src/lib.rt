//! Replies as lines with one object of JSON each, for programs that read them: `{"transaction":0,"reply":"started"}`.
//!
//! - [`append_reply_object`] writes a reply, [`append_cut_object`] and [`append_still_live_object`] the answer to a cut.
//! - [`append_pieces`] writes a text from pieces: words, numbers and lists of numbers. What else is written as JSON is made
//!   of them.
//!
//! `specs/ReplyObjects.antt` says what each object holds. The lines for a person are in `sgt_format`.
//!
//! ```
//! append_reply_object(&mut text, &Event::Step(Tid(0)), &Reply::Ended)?; // {"transaction":0,"reply":"ended"}
//! ```
#![tactic(auto)]

mod list;
mod number;
mod piece;
mod reply_object;

pub use piece::{Piece, append_pieces};
pub use reply_object::{append_cut_object, append_reply_object, append_still_live_object};
