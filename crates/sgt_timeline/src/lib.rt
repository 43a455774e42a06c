//! The picture of a history, as textbooks draw it: a row for each transaction, the operations from left to right, arrows of reads from
//! writes, and the conflicts of a cycle in red.
//!
//! - [`draw`] and [`draw_up_to`] lay a picture out: which operations are drawn, and where each mark, row and line stands.
//! - [`append_picture`] writes it as SVG 1.1: one file by itself, for light and dark.
//!
//! `specs/Drawn.antt` says which operations have a mark, and `specs/PictureText.antt` what the text of a picture is. Positions are
//! pixels, from the left and from the top. They saturate, so that a picture of any history can be laid out.
//!
//! The crate judges no history: what is to stand out, and the words below the picture, are given to it.
//!
//! ```
//! let history = read_history(alloc, b"w1[x] r2[x] c2 c1")?;
//! let breach = Highlight::Violation(Violation { earlier: 1, later: 2 });    // 2 commits before 1, which it has read from
//! let picture = draw(alloc, &history, breach, b"recoverable no")?;
//! append_picture(&mut text, &history, &picture)?;
//! ```
#![tactic(auto)]

mod drawn;
mod escape;
mod layout;
mod legend;
mod lines;
mod notes;
mod picture;
mod style;
mod svg;

pub use layout::{draw, draw_up_to};
pub use picture::{Highlight, Line, LineKind, Mark, Note, Part, Picture, Row};
pub use svg::append_picture;
