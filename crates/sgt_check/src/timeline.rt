//! The picture of a history with its report.
ghost use Rattle.std.specs.Prelude.{IfOk, min};
ghost use Rattle.sgt_timeline.specs.Drawn.{IsDrawnUpTo};

use crate::report::Report;
use crate::report_text::append_report;
use sgt_classes::{Edge, Serializability, Violation};
use sgt_model::NoMemory;
use sgt_notation::History;
use sgt_timeline::{Highlight, Picture, draw_up_to};
use std::alloc::Global;

/// Draws the history with the report below it: whole, if it has at most `whole` operations. The cycle of the report stands out, and
/// the first violation of each other class.
pub(crate) fn draw_report(
    alloc: Global,
    history: &History,
    report: &Report,
    whole: usize,
) -> Result<Picture, NoMemory>
    ensures { IfOk result (IsDrawnUpTo (min whole 400) history.now.operations.items) }
{
    let mut caption = Vec::new(alloc);
    append_report(&mut caption, history, report)?;
    let violations = violations_of(alloc, report)?;
    let edges: &[Edge] = match &report.serializability {
        Serializability::Cycle(edges) => edges.as_slice(),
        Serializability::Serial(_) => &[],
    };
    let highlight = Highlight::All(edges, violations.as_slice());
    draw_up_to(alloc, history, highlight, caption.as_slice(), whole)
}

/// The violations in the report, of the classes that the history does not belong to.
fn violations_of(alloc: Global, report: &Report) -> Result<Vec<Violation>, NoMemory> {
    let mut violations = Vec::new(alloc);
    for violation in [
        report.recoverable,
        report.avoiding,
        report.strict,
        report.rigorous,
        report.commit_ordered,
    ] {
        if let Some(violation) = violation {
            violations.push(violation)?;
        }
    }
    Ok(violations)
}
