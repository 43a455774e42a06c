//! The lists of an entry, read in place.
use sgt_model::Tid;

/// The items of an entry's lists. A list that its event or its reply does not have is not looked at.
#[derive(Clone, Copy)]
pub struct EntryLists<'a> {
    /// The arguments of a start.
    pub args: &'a [i64],
    /// The answers of a commit.
    pub answers: &'a [i64],
    /// The path of a cycle.
    pub cycle: &'a [Tid],
    /// Those aborted in cascade.
    pub fell: &'a [Tid],
}
