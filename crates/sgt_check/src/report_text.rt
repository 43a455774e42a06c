//! The lines of a report.
ghost use Rattle.std.specs.Prelude.{◌≡◌, ◌++◌, OnOk, Some, None, codes, flat_map, map};
ghost use Rattle.sgt_check.specs.ReportText.{counts_text, order_text, next_text, edge_text, later_edge_text, cycle_text, shown_text, serial_text, class_text, recoverable_why, avoiding_why, follows_why, order_why, report_text};
ghost use Rattle.sgt_format.specs.Templates.{filled};
ghost use Rattle.sgt_check.specs.Mentions.{mentioned_text};

use crate::mentioned::Mentioned;
use crate::report::{Counts, Report};
use sgt_classes::{Edge, Serializability, Violation};
use sgt_format::{append_filled, append_numbered};
use sgt_model::NoMemory;
use sgt_notation::History;

/// Appends the seven lines of a report.
///
/// # Errors
///
/// `NoMemory` if an allocation failed. A part of the lines may have been appended then.
pub fn append_report(text: &mut Vec<u8>, history: &History, report: &Report) -> Result<(), NoMemory>
    ensures { OnOk result (text.new.items ≡ text.old.items ++ report_text history.now report.now) }
{
    append_counts(text, &report.counts)?;
    append_serial(text, history, &report.serializability)?;
    append_recoverable(text, history, report)?;
    append_avoiding(text, history, &report.avoiding)?;
    append_follows(text, b"strict", history, &report.strict)?;
    append_follows(text, b"rigorous", history, &report.rigorous)?;
    append_order_kept(text, history, &report.commit_ordered)?;
    Ok(())
}

/// Appends the line of the counts.
fn append_counts(text: &mut Vec<u8>, counts: &Counts) -> Result<(), NoMemory>
    ensures { OnOk result (text.new.items ≡ text.old.items ++ counts_text counts.now) }
{
    append_filled(
        text,
        b"transactions #: # committed, # aborted, # active\n",
        &[
            counts.transactions,
            counts.committed,
            counts.aborted,
            counts.active(),
        ],
    )
}

/// Appends the line of serializability.
fn append_serial(
    text: &mut Vec<u8>,
    history: &History,
    shown: &Serializability,
) -> Result<(), NoMemory>
    ensures { OnOk result (text.new.items ≡ text.old.items ++ serial_text history.now shown.now) }
{
    append_shown(text, history, shown)?;
    text.extend_from_slice(b"\n")?;
    Ok(())
}

/// Appends a serial order or a cycle.
fn append_shown(
    text: &mut Vec<u8>,
    history: &History,
    shown: &Serializability,
) -> Result<(), NoMemory>
    ensures { OnOk result (text.new.items ≡ text.old.items ++ shown_text history.now shown.now) }
{
    match shown {
        Serializability::Serial(order) => {
            text.extend_from_slice(b"serializable yes:")?;
            append_order(text, order.as_slice())
        }
        Serializability::Cycle(edges) => {
            text.extend_from_slice(b"serializable no:")?;
            append_cycle(text, history, edges.as_slice())
        }
    }
}

/// Appends a serial order.
fn append_order(text: &mut Vec<u8>, order: &[u32]) -> Result<(), NoMemory>
    ensures { OnOk result (text.new.items ≡ text.old.items ++ order_text order.now) }
{
    if order.is_empty() {
        text.extend_from_slice(b" none")?;
        return Ok(());
    }
    append_each(text, order)
}

/// Appends each transaction after a space.
fn append_each(text: &mut Vec<u8>, order: &[u32]) -> Result<(), NoMemory>
    ensures { OnOk result (text.new.items ≡ text.old.items ++ flat_map next_text order.now) }
{
    for transaction in order {
        append_numbered(text, b" ", *transaction)?;
    }
    Ok(())
}

/// Appends the edges of a cycle.
fn append_cycle(text: &mut Vec<u8>, history: &History, edges: &[Edge]) -> Result<(), NoMemory>
    ensures { OnOk result (text.new.items ≡ text.old.items ++ cycle_text history.now edges.now) }
{
    if edges.is_empty() {
        return Ok(());
    }
    append_edge(text, history, &edges[0])?;
    append_later_edges(text, history, &edges[1..])
}

/// Appends each edge after a comma.
fn append_later_edges(text: &mut Vec<u8>, history: &History, edges: &[Edge]) -> Result<(), NoMemory>
    ensures { OnOk result (text.new.items ≡ text.old.items ++ flat_map (later_edge_text history.now) edges.now) }
{
    for edge in edges {
        append_later_edge(text, history, edge)?;
    }
    Ok(())
}

/// Appends an edge after a comma.
fn append_later_edge(text: &mut Vec<u8>, history: &History, edge: &Edge) -> Result<(), NoMemory>
    ensures { OnOk result (text.new.items ≡ text.old.items ++ later_edge_text history.now edge.now) }
{
    text.extend_from_slice(b",")?;
    append_edge(text, history, edge)
}

/// Appends an edge and its two operations.
fn append_edge(text: &mut Vec<u8>, history: &History, edge: &Edge) -> Result<(), NoMemory>
    ensures { OnOk result (text.new.items ≡ text.old.items ++ edge_text history.now edge.now) }
{
    append_filled(
        text,
        b" # # by # #",
        &[
            Mentioned::Transaction(edge.from),
            Mentioned::Transaction(edge.to),
            Mentioned::Placed(history, edge.earlier),
            Mentioned::Placed(history, edge.later),
        ],
    )
}

/// Appends the line of recoverability.
fn append_recoverable(
    text: &mut Vec<u8>,
    history: &History,
    report: &Report,
) -> Result<(), NoMemory>
    ensures { OnOk result (text.new.items ≡ text.old.items ++ class_text (codes "recoverable") (recoverable_why history.now report.now.dirty_write report.now.dirty_abort) report.now.recoverable) }
{
    match (&report.recoverable, report.dirty_abort) {
        (Some(violation), Some(abort)) => {
            append_aborted(text, history, report.dirty_write, abort, violation)
        }
        (Some(violation), None) => append_early(text, history, report.dirty_write, violation),
        (None, _) => append_kept(text, b"recoverable"),
    }
}

/// Appends the line of a commit after a read from a transaction that aborts.
fn append_aborted(
    text: &mut Vec<u8>,
    history: &History,
    write: Option<usize>,
    abort: usize,
    violation: &Violation,
) -> Result<(), NoMemory>
    ensures { OnOk result (text.new.items ≡ text.old.items
        ++ (codes "recoverable" ++ codes " no: " ++ recoverable_why history.now write (Some abort) violation.now)) }
{
    append_broken(
        text,
        b"recoverable",
        b"#, which reads from # by #, and # aborted: #\n",
        &[
            Mentioned::Placed(history, violation.later),
            Mentioned::TransactionOf(history, write),
            Mentioned::Placed(history, violation.earlier),
            Mentioned::TransactionOf(history, write),
            Mentioned::Placed(history, abort),
        ],
    )
}

/// Appends the line of a commit after a read from a transaction that has not committed and does not abort.
fn append_early(
    text: &mut Vec<u8>,
    history: &History,
    write: Option<usize>,
    violation: &Violation,
) -> Result<(), NoMemory>
    ensures { OnOk result (text.new.items ≡ text.old.items
        ++ (codes "recoverable" ++ codes " no: " ++ recoverable_why history.now write None violation.now)) }
{
    append_broken(
        text,
        b"recoverable",
        b"#, which reads from # by #, and # has not committed\n",
        &[
            Mentioned::Placed(history, violation.later),
            Mentioned::TransactionOf(history, write),
            Mentioned::Placed(history, violation.earlier),
            Mentioned::TransactionOf(history, write),
        ],
    )
}

/// Appends the line of the avoidance of cascading aborts.
fn append_avoiding(
    text: &mut Vec<u8>,
    history: &History,
    violation: &Option<Violation>,
) -> Result<(), NoMemory>
    ensures { OnOk result (text.new.items ≡ text.old.items ++ class_text (codes "avoids cascading aborts") (avoiding_why history.now) violation.now) }
{
    let Some(violation) = violation else {
        return append_kept(text, b"avoids cascading aborts");
    };
    append_broken(
        text,
        b"avoids cascading aborts",
        b"# reads from #, which has not committed\n",
        &[
            Mentioned::Placed(history, violation.later),
            Mentioned::TransactionOf(history, Some(violation.earlier)),
        ],
    )
}

/// Appends the line of a class that is broken by an operation before the end of an earlier one's transaction.
fn append_follows(
    text: &mut Vec<u8>,
    name: &[u8],
    history: &History,
    violation: &Option<Violation>,
) -> Result<(), NoMemory>
    ensures { OnOk result (text.new.items ≡ text.old.items ++ class_text name.now (follows_why history.now) violation.now) }
{
    let Some(violation) = violation else {
        return append_kept(text, name);
    };
    append_broken(
        text,
        name,
        b"# follows #, and # has not ended\n",
        &[
            Mentioned::Placed(history, violation.later),
            Mentioned::Placed(history, violation.earlier),
            Mentioned::TransactionOf(history, Some(violation.earlier)),
        ],
    )
}

/// Appends the line of the commit order.
fn append_order_kept(
    text: &mut Vec<u8>,
    history: &History,
    violation: &Option<Violation>,
) -> Result<(), NoMemory>
    ensures { OnOk result (text.new.items ≡ text.old.items ++ class_text (codes "commit ordered") (order_why history.now) violation.now) }
{
    let Some(violation) = violation else {
        return append_kept(text, b"commit ordered");
    };
    append_broken(
        text,
        b"commit ordered",
        b"# before # by # #, and # committed first\n",
        &[
            Mentioned::TransactionOf(history, Some(violation.earlier)),
            Mentioned::TransactionOf(history, Some(violation.later)),
            Mentioned::Placed(history, violation.earlier),
            Mentioned::Placed(history, violation.later),
            Mentioned::TransactionOf(history, Some(violation.later)),
        ],
    )
}

/// Appends the line of a class that the history belongs to.
fn append_kept(text: &mut Vec<u8>, name: &[u8]) -> Result<(), NoMemory>
    ensures { OnOk result (text.new.items ≡ text.old.items ++ (name.now ++ codes " yes\n")) }
{
    text.extend_from_slice(name)?;
    text.extend_from_slice(b" yes\n")?;
    Ok(())
}

/// Appends the line of a class that the history does not belong to, and why: the template with these parts.
fn append_broken(
    text: &mut Vec<u8>,
    name: &[u8],
    why: &[u8],
    parts: &[Mentioned<'_>],
) -> Result<(), NoMemory>
    ensures { OnOk result (text.new.items ≡ text.old.items ++ (name.now ++ codes " no: " ++ filled why.now (map mentioned_text parts.now))) }
{
    text.extend_from_slice(name)?;
    text.extend_from_slice(b" no: ")?;
    append_filled(text, why, parts)
}
