//! Which parts the legend of a picture has.
use crate::picture::{Line, LineKind, Mark, Part};
use sgt_classes::{Action, Operation};
use sgt_model::NoMemory;
use std::alloc::Global;

/// The parts of the legend: one for each kind of marks and of lines that the picture has.
pub(crate) fn legend_parts(
    alloc: Global,
    history: &[Operation],
    marks: &[Mark],
    lines: &[Line],
) -> Result<Vec<Part>, NoMemory> {
    let mut parts = Vec::new(alloc);
    for part in [
        Part::Reads,
        Part::Writes,
        Part::Commits,
        Part::Aborts,
        Part::ReadsFrom,
        Part::ReadsFromAborted,
        Part::Cycle,
        Part::Violation,
    ] {
        let has_line = lines.iter().any(|line| part_of_kind(line.kind) == part);
        if has_line || has_mark(history, marks, part) {
            parts.push(part)?;
        }
    }
    Ok(parts)
}

/// Whether one of the marks is explained by the part.
fn has_mark(history: &[Operation], marks: &[Mark], part: Part) -> bool {
    marks.iter().any(|mark| match history.get(mark.place) {
        Some(operation) => part_of_action(operation.action) == part,
        None => false,
    })
}

/// The part that explains the marks of an action.
fn part_of_action(action: Action) -> Part {
    match action {
        Action::Read(_) => Part::Reads,
        Action::Write(_) => Part::Writes,
        Action::Commit => Part::Commits,
        Action::Abort => Part::Aborts,
    }
}

/// The part that explains the lines of a kind.
fn part_of_kind(kind: LineKind) -> Part {
    match kind {
        LineKind::ReadsFrom => Part::ReadsFrom,
        LineKind::ReadsFromAborted => Part::ReadsFromAborted,
        LineKind::Cycle => Part::Cycle,
        LineKind::Violation => Part::Violation,
    }
}
