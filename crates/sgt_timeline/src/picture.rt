//! A picture that is laid out: what is drawn, and where. All positions are pixels, from the left and from the top.
use sgt_classes::{Edge, Violation};

/// What stands out in a picture.
#[derive(Clone, Copy)]
pub enum Highlight<'a> {
    /// Nothing does.
    Nothing,
    /// The edges of a cycle, each with its two operations. An edge from an operation to itself marks it, and has no line.
    Cycle(&'a [Edge]),
    /// The two operations of a violation.
    Violation(Violation),
    /// The edges of a cycle, if there is one, and the violations of other classes.
    All(&'a [Edge], &'a [Violation]),
}

/// A picture of a history.
#[derive(Drop)]
pub struct Picture {
    /// How many operations the history has.
    pub operations: usize,
    pub width: usize,
    pub height: usize,
    /// The rows, from the top.
    pub rows: Vec<Row>,
    /// The lines, from the lowest layer.
    pub lines: Vec<Line>,
    /// The marks of the operations, from the left.
    pub marks: Vec<Mark>,
    /// Where the legend stands.
    pub legend: usize,
    /// What the legend explains.
    pub parts: Vec<Part>,
    /// The words below the picture.
    pub notes: Vec<Note>,
}

/// The row of a transaction.
#[derive(Clone, Copy)]
pub struct Row {
    pub transaction: u32,
    /// The middle of the row.
    pub y: usize,
    /// The base of its text.
    pub base: usize,
    /// The middle of the first mark.
    pub first: usize,
    /// The middle of the last mark.
    pub last: usize,
}

/// The mark of an operation.
#[derive(Clone, Copy)]
pub struct Mark {
    /// The place of the operation in the history, from 0.
    pub place: usize,
    /// As part of which line it stands out, if it does.
    pub ends: Option<LineKind>,
    pub left: usize,
    pub middle: usize,
    pub width: usize,
    pub top: usize,
    /// The base of its text.
    pub base: usize,
}

/// A part of the legend: the marks or the lines of a kind that the picture has.
#[derive(Clone, Copy)]
pub enum Part {
    Reads,
    Writes,
    Commits,
    Aborts,
    ReadsFrom,
    ReadsFromAborted,
    Cycle,
    Violation,
}

/// What a line says of the two operations at its ends.
#[derive(Clone, Copy)]
pub enum LineKind {
    /// The later one reads from the earlier one.
    ReadsFrom,
    /// The same, and the transaction of the earlier one aborts later.
    ReadsFromAborted,
    /// They are the conflict of an edge of the cycle.
    Cycle,
    /// They are the violation.
    Violation,
}

/// A line from an earlier operation to a later one: from its start to its lane, along the lane, and to its end.
#[derive(Clone, Copy)]
pub struct Line {
    pub kind: LineKind,
    pub from_x: usize,
    pub from_y: usize,
    pub lane: usize,
    pub to_x: usize,
    pub to_y: usize,
}

/// A line of words below the picture.
#[derive(Drop)]
pub struct Note {
    pub words: Vec<u8>,
    /// The base of the text.
    pub base: usize,
}
