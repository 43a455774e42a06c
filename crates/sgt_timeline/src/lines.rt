//! The lines of a picture: reads from writes, and what stands out.
ghost use Rattle.std.specs.Prelude.{◌<◌, length};

use crate::drawn::Pairs;
use crate::picture::{Line, LineKind, Mark};
use sgt_classes::{Action, Operation, read_source};
use sgt_model::NoMemory;
use std::alloc::Global;
use std::collections::BTreeSet;

/// How far the lane of what stands out is from the box at its end.
const NEAREST: usize = 13;

/// How far the lanes of a row are from each other.
const APART: usize = 6;

/// How far from the middle of a box the lines of a cycle leave and arrive.
const NEAR: usize = 6;

/// The same of a violation's line.
const BETWEEN: usize = 10;

/// The same of a read's line.
const FAR: usize = 14;

/// How many lanes the reads of a row take in turn.
const LANES: usize = 3;

/// The lines between the marks, from the lowest layer: who reads from whom, and above them what stands out.
pub(crate) fn lines_between(
    alloc: Global,
    history: &[Operation],
    marks: &[Mark],
    pairs: &Pairs,
) -> Result<Vec<Line>, NoMemory> {
    let mut lines = Vec::new(alloc);
    add_reads(alloc, &mut lines, history, marks)?;
    add_pairs(&mut lines, marks, pairs)?;
    Ok(lines)
}

/// Adds the lines of who reads from whom.
fn add_reads(
    alloc: Global,
    lines: &mut Vec<Line>,
    history: &[Operation],
    marks: &[Mark],
) -> Result<(), NoMemory> {
    let aborted = aborted_of(alloc, history)?;
    for mark in marks {
        let lane = NEAREST + APART + APART * (lines.len() % LANES);
        if let Some(line) = read_line(alloc, history, marks, &aborted, mark, lane)? {
            lines.push(line)?;
        }
    }
    Ok(())
}

/// The line to a read from the write of another transaction that it reads from. A mark costs a pass over the operations before it.
fn read_line(
    alloc: Global,
    history: &[Operation],
    marks: &[Mark],
    aborted: &BTreeSet<u32>,
    mark: &Mark,
    lane: usize,
) -> Result<Option<Line>, NoMemory> {
    let Some(read) = history.get(mark.place) else {
        return Ok(None);
    };
    let Some(source) = read_source(alloc, history, mark.place)? else {
        return Ok(None);
    };
    let (Some(write), Some(from)) = (history.get(source), mark_at(marks, source)) else {
        return Ok(None);
    };
    let kind = if aborted.contains(&write.transaction) {
        LineKind::ReadsFromAborted
    } else {
        LineKind::ReadsFrom
    };
    Ok((write.transaction != read.transaction).then_some(route(kind, &from, mark, lane)))
}

/// The transactions that abort.
fn aborted_of(alloc: Global, history: &[Operation]) -> Result<BTreeSet<u32>, NoMemory> {
    let mut aborted = BTreeSet::new(alloc);
    for operation in history {
        if operation.action == Action::Abort {
            aborted.insert(operation.transaction)?;
        }
    }
    Ok(aborted)
}

/// Adds the lines of what stands out, between operations that have a mark. One that stands out alone has none.
fn add_pairs(lines: &mut Vec<Line>, marks: &[Mark], pairs: &Pairs) -> Result<(), NoMemory> {
    for pair in &pairs.places {
        let ends = (mark_at(marks, pair.earlier), mark_at(marks, pair.later));
        if let (Some(from), Some(to)) = ends {
            if pair.earlier != pair.later {
                lines.push(route(pair.kind, &from, &to, NEAREST))?;
            }
        }
    }
    Ok(())
}

/// The mark of the operation at the place.
fn mark_at(marks: &[Mark], place: usize) -> Option<Mark> {
    marks.iter().find(|mark| mark.place == place).copied()
}

/// The way from one mark to another: along the column of the first, in which no other mark stands, to a lane beside the row of the
/// second, in which none stands either. No two of the six ways to leave a box and to arrive at it have one place.
fn route(kind: LineKind, from: &Mark, to: &Mark, lane: usize) -> Line {
    let (leaves, arrives) = match kind {
        LineKind::Cycle => (
            from.middle.saturating_sub(NEAR),
            to.middle.saturating_add(NEAR),
        ),
        LineKind::Violation => (
            from.middle.saturating_sub(BETWEEN),
            to.middle.saturating_add(BETWEEN),
        ),
        LineKind::ReadsFrom | LineKind::ReadsFromAborted => (
            from.middle.saturating_add(FAR),
            to.middle.saturating_sub(FAR),
        ),
    };
    let comes_from_below = from.top > to.top;
    Line {
        kind,
        from_x: leaves,
        from_y: if from.top < to.top {
            from.top.saturating_add(27)
        } else {
            from.top.saturating_sub(1)
        },
        lane: beside(to.top, lane, comes_from_below),
        to_x: arrives,
        to_y: beside(to.top, 2, comes_from_below),
    }
}

/// A height this far above the box, or as far below it.
fn beside(top: usize, distance: usize, is_below: bool) -> usize {
    if is_below {
        top.saturating_add(26).saturating_add(distance)
    } else {
        top.saturating_sub(distance)
    }
}
