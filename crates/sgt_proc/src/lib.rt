//! The procedure language: `check` finds flaws in a procedure, [`Flawed::place`] says where one is, and a procedure
//! without flaws reports its next step.
//!
//! The crate makes no access itself. A `Cursor` stands before a procedure's next access, reports it, and continues
//! after it once it was made. `Checked::next` returns the same from the start, given what the reads returned so far.
//! Both return the next access, the answers or the code that is raised. `sgt_model` defines the meaning of a
//! procedure.
//!
//! ```
//! let checked = check(procedure)?;
//! let mut cursor = checked.begin(&args);
//! while let Next::Look(key) = cursor.next(&checked) {
//!     cursor.looked(&checked, values.get(key));
//! }
//! ```
#![tactic(auto)]

mod answers;
mod checked;
mod cursor;
mod depths;
mod flaw;
mod flaw_place;
mod laws;
mod next;
mod numbers;
mod place;
mod registers;
mod sizes;
mod value;

pub use answers::MOST_ANSWERS;
pub use checked::{Checked, check};
pub use cursor::Cursor;
pub use depths::DEEPEST;
pub use flaw::{Flaw, Flawed, MOST_ARGUMENTS};
pub use flaw_place::FlawPlace;
pub use laws::flawless_is_sound;
pub use next::{Ahead, Next};
pub use numbers::{LAST_CODE, LAST_REGISTER};
pub use sizes::MOST_STATEMENTS;
