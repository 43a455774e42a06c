//! The check of a history that was read: the text of its output, and its verdict.
ghost use Rattle.std.specs.Prelude.{◌↔◌, List, IfOk, min};
ghost use Rattle.sgt_classes.specs.declared.operation.Operation.{Operation};
ghost use Rattle.sgt_classes.specs.Classes.{BreaksRecoverability, IsFirstViolation};
ghost use Rattle.sgt_classes.specs.Histories.{IsWellFormed};
ghost use Rattle.sgt_classes.specs.Equivalence.{IsSerializable};
ghost use Rattle.sgt_classes.specs.SerialOrders.{IsSerial};
ghost use Rattle.sgt_check.specs.Checks.{IsReported, IsOutput, IsVerdict};
ghost use Rattle.sgt_check.specs.Graphs.{IsDrawn};
ghost use Rattle.sgt_check.specs.Reports.{AreCounts};
ghost use Rattle.sgt_check.specs.Timelines.{IsPictured};

use crate::graph_text::append_graph;
use crate::report::{Counts, check_history, count, serial_unless_commit_ordered};
use crate::report_text::append_report;
use crate::timeline::draw_report;
use sgt_classes::{
    Serializability, Violation, commit_order_violation, first_conflicts, recoverable_violation,
};
use sgt_model::NoMemory;
use sgt_notation::History;
use sgt_timeline::append_picture;
use std::alloc::Global;

/// The most operations of a picture that a screen has room for.
const SCREEN: usize = 60;

/// The most operations of a picture.
const MOST: usize = 400;

/// What a check writes.
#[derive(Clone, Copy)]
pub enum Output {
    /// The report.
    Report,
    /// The serialization graph in DOT, with the cycle of the report.
    Graph,
    /// The picture of the history in SVG, with the report below it. The cycle of the report stands out, and the first
    /// violation of each other class. Of a history of over 400 operations, only the transactions involved are drawn.
    Timeline,
    /// The same, for a screen: of a history of over 60 operations, only the transactions involved are drawn.
    Screen,
}

/// What a check finds of a history.
#[derive(Drop)]
pub(crate) struct CheckedHistory {
    /// The lines of the output.
    pub lines: Vec<u8>,
    pub verdict: Verdict,
}

/// What a check says of a history, whatever it writes.
#[derive(Clone, Copy)]
pub struct Verdict {
    /// Whether the history is serializable and recoverable.
    pub sound: bool,
    /// How many transactions it has. Those that are active are not judged.
    pub counts: Counts,
}

/// Checks the history, for this output.
pub(crate) fn check_for(
    alloc: Global,
    history: &History,
    output: Output,
) -> Result<CheckedHistory, NoMemory>
    ensures written { IfOk result (λ c. IsOutput output history.now c.lines.items) }
    ensures verdict { IfOk result (λ c. IsWellFormed history.now.operations.items → IsVerdict history.now.operations.items c.verdict.sound) }
    ensures counts { IfOk result (λ c. AreCounts history.now.operations.items c.verdict.counts) }
{
    match output {
        Output::Report => check_for_report(alloc, history),
        Output::Graph => check_for_graph(alloc, history),
        Output::Timeline => check_for_timeline(alloc, history, MOST),
        Output::Screen => check_for_timeline(alloc, history, SCREEN),
    }
}

/// Checks the history for all classes, with the report as its output.
fn check_for_report(alloc: Global, history: &History) -> Result<CheckedHistory, NoMemory>
    ensures written { IfOk result (λ c. IsReported history.now c.lines.items) }
    ensures verdict { IfOk result (λ c. IsWellFormed history.now.operations.items → IsVerdict history.now.operations.items c.verdict.sound) }
    ensures counts { IfOk result (λ c. AreCounts history.now.operations.items c.verdict.counts) }
{
    let report = check_history(alloc, history.operations.as_slice())?;
    let mut lines = Vec::new(alloc);
    append_report(&mut lines, history, &report)?;
    Ok(CheckedHistory {
        lines,
        verdict: Verdict {
            sound: is_sound(&report.serializability, &report.recoverable),
            counts: report.counts,
        },
    })
}

/// Checks the history for the verdict alone, with the graph as its output. It makes no report, but finds the cycle
/// that a report would.
fn check_for_graph(alloc: Global, history: &History) -> Result<CheckedHistory, NoMemory>
    ensures written { IfOk result (λ c. IsDrawn history.now c.lines.items) }
    ensures verdict { IfOk result (λ c. IsWellFormed history.now.operations.items → IsVerdict history.now.operations.items c.verdict.sound) }
    ensures counts { IfOk result (λ c. AreCounts history.now.operations.items c.verdict.counts) }
{
    let operations = history.operations.as_slice();
    let commit_ordered = commit_order_violation(alloc, operations)?;
    let shown = serial_unless_commit_ordered(alloc, operations, &commit_ordered)?;
    let recoverable = recoverable_violation(alloc, operations)?;
    let conflicts = first_conflicts(alloc, operations)?;
    let counts = count(alloc, operations)?;
    let mut lines = Vec::new(alloc);
    append_graph(alloc, &mut lines, history, conflicts.as_slice(), &shown)?;
    Ok(CheckedHistory {
        lines,
        verdict: Verdict {
            sound: is_sound(&shown, &recoverable),
            counts,
        },
    })
}

/// Checks the history for all classes, with its picture as the output.
fn check_for_timeline(
    alloc: Global,
    history: &History,
    whole: usize,
) -> Result<CheckedHistory, NoMemory>
    ensures written { IfOk result (λ c. IsPictured (min whole 400) history.now c.lines.items) }
    ensures verdict { IfOk result (λ c. IsWellFormed history.now.operations.items → IsVerdict history.now.operations.items c.verdict.sound) }
    ensures counts { IfOk result (λ c. AreCounts history.now.operations.items c.verdict.counts) }
{
    let report = check_history(alloc, history.operations.as_slice())?;
    let picture = draw_report(alloc, history, &report, whole)?;
    let mut lines = Vec::new(alloc);
    append_picture(&mut lines, history, &picture)?;
    let sound = is_sound(&report.serializability, &report.recoverable);
    Ok(CheckedHistory {
        lines,
        verdict: Verdict {
            sound,
            counts: report.counts,
        },
    })
}

/// Whether a history is serializable and recoverable. It needs the serial order or cycle, and the first violation of
/// recoverability.
fn is_sound(shown: &Serializability, recoverable: &Option<Violation>) -> bool
    ensures { (h : List Operation) → (IsSerial shown.now ↔ IsSerializable h)
        → IsFirstViolation (BreaksRecoverability h) recoverable.now → IsVerdict h result }
{
    matches!(shown, Serializability::Serial(_)) && recoverable.is_none()
}
