//! EDN, as Jepsen stores histories, to JSON.
//!
//! [`json_of_edn`] writes the data of a text in EDN as JSON. A map that stands in nothing becomes an object, with its keys
//! in their order. In it become
//!
//! - vectors and lists: arrays
//! - maps and sets: an object whose one member, of the empty name, is an object whose one member, of the same name, has the
//!   items in an array. So they are not taken for lists, and what a wrong bracket closes is not JSON
//! - keywords, without their colon, symbols, characters and numbers that are not whole: strings
//! - whole numbers, strings, `nil`, `true`, `false`: what they are in JSON
//! - tags: nothing, and their values stay
//!
//! Brackets that stand in nothing become spaces, and comments vanish. Each newline outside of strings stays, so lines keep
//! their numbers. What is not EDN becomes what is not JSON: nothing is promised of it.
//!
//! [`is_edn`] decides by its first bytes whether a text is EDN or JSON. [`edn_index`] says which byte of a text in EDN made a
//! byte of its text in JSON.
//!
//! `specs/Scans.antt` defines the text byte by byte. Tested, not proved: that it is the same data.
//!
//! ```
//! let json = json_of_edn(alloc, b"{:type :ok, :f :txn}")?;       // {"type":"ok" ,"f":"txn"}
//! ```
#![tactic(auto)]

mod bytes;
mod format;
mod place;
mod scan;
mod token;

pub use format::is_edn;
pub use place::edn_index;
pub use scan::json_of_edn;
