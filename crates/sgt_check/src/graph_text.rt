//! The text of a serialization graph, in DOT.
ghost use Rattle.std.specs.Prelude.{◌≡◌, ◌==◌, ◌&&◌, ◌||◌, ◌++◌, ℕ, List, IfOk, OnOk};
ghost use Rattle.std.specs.List.{flat_map};
ghost use Rattle.std.specs.BTreeSet.{contains};
ghost use Rattle.sgt_classes.specs.declared.graph.Edge.{Edge};
ghost use Rattle.sgt_classes.specs.FirstAccesses.{pair_cmp};
ghost use Rattle.sgt_check.specs.GraphText.{node_text, leads, cycle_of, colour_text, arrow_text, graph_text};

use crate::mentioned::Mentioned;
use sgt_classes::{Action, Edge, Operation, Serializability};
use sgt_format::{append_filled, append_numbered};
use sgt_model::NoMemory;
use sgt_notation::History;
use std::alloc::Global;
use std::collections::BTreeSet;

/// Appends a serialization graph: a line for each committed transaction, in commit order, and then a line for each
/// edge with its two operations. An edge is red if the cycle that is shown has an edge between the same two
/// transactions.
///
/// Each edge costs one lookup among those of the cycle.
///
/// # Errors
///
/// `NoMemory` if an allocation failed. A part of the lines may have been appended then.
pub fn append_graph(
    alloc: Global,
    text: &mut Vec<u8>,
    history: &History,
    conflicts: &[Edge],
    shown: &Serializability,
) -> Result<(), NoMemory>
    ensures { OnOk result (text.new.items ≡ text.old.items ++ graph_text history.now conflicts.now shown.now) }
{
    let red = cycle_ends(alloc, shown)?;
    text.extend_from_slice(b"digraph serialization {\n")?;
    append_nodes(text, history.operations.as_slice())?;
    append_arrows(text, history, conflicts, &red)?;
    text.extend_from_slice(b"}\n")?;
    Ok(())
}

/// The ends of the edges of the cycle that is shown.
fn cycle_ends(alloc: Global, shown: &Serializability) -> Result<BTreeSet<(u32, u32)>, NoMemory>
    ensures { IfOk result (λ red. (t u : ℕ) → contains pair_cmp red (t, u) ≡ leads (cycle_of shown.now) t u) }
{
    match shown {
        Serializability::Cycle(edges) => ends(alloc, edges.as_slice()),
        Serializability::Serial(_) => Ok(BTreeSet::new(alloc)),
    }
}

/// The ends of edges.
fn ends(alloc: Global, edges: &[Edge]) -> Result<BTreeSet<(u32, u32)>, NoMemory>
    ensures { IfOk result (λ red. (t u : ℕ) → contains pair_cmp red (t, u) ≡ leads edges.now t u) }
{
    let mut red = BTreeSet::new(alloc);
    for edge in edges {
        note_ends(&mut red, edge)?;
    }
    Ok(red)
}

/// Records the ends of an edge.
fn note_ends(red: &mut BTreeSet<(u32, u32)>, edge: &Edge) -> Result<(), NoMemory>
    ensures { OnOk result ((t u : ℕ) →
        contains pair_cmp red.new (t, u) ≡ (contains pair_cmp red.old (t, u) || (edge.now.from == t && edge.now.to == u))) }
{
    red.insert((edge.from, edge.to))?;
    Ok(())
}

/// Appends the transactions that commit.
fn append_nodes(text: &mut Vec<u8>, operations: &[Operation]) -> Result<(), NoMemory>
    ensures { OnOk result (text.new.items ≡ text.old.items ++ flat_map node_text operations.now) }
{
    for operation in operations {
        append_node(text, operation)?;
    }
    Ok(())
}

/// Appends the transaction of the operation, if that is a commit.
fn append_node(text: &mut Vec<u8>, operation: &Operation) -> Result<(), NoMemory>
    ensures { OnOk result (text.new.items ≡ text.old.items ++ node_text operation.now) }
{
    match operation.action {
        Action::Commit => {
            append_numbered(text, b"  ", operation.transaction)?;
            text.extend_from_slice(b";\n")?;
            Ok(())
        }
        Action::Read(_) | Action::Write(_) | Action::Abort => Ok(()),
    }
}

/// Appends edges. Those with these ends are red.
fn append_arrows(
    text: &mut Vec<u8>,
    history: &History,
    edges: &[Edge],
    red: &BTreeSet<(u32, u32)>,
) -> Result<(), NoMemory>
    ensures { OnOk result ((cycle : List Edge) → ((t u : ℕ) → contains pair_cmp red.now (t, u) ≡ leads cycle t u) →
        text.new.items ≡ text.old.items ++ flat_map (arrow_text history.now cycle) edges.now) }
{
    for edge in edges {
        append_arrow(text, history, edge, red.contains(&(edge.from, edge.to)))?;
    }
    Ok(())
}

/// Appends an edge, red or not.
fn append_arrow(
    text: &mut Vec<u8>,
    history: &History,
    edge: &Edge,
    is_red: bool,
) -> Result<(), NoMemory>
    ensures { OnOk result ((cycle : List Edge) → is_red ≡ leads cycle edge.now.from edge.now.to →
        text.new.items ≡ text.old.items ++ arrow_text history.now cycle edge.now) }
{
    append_filled(
        text,
        b"  # -> # [label=\"# #",
        &[
            Mentioned::Transaction(edge.from),
            Mentioned::Transaction(edge.to),
            Mentioned::Placed(history, edge.earlier),
            Mentioned::Placed(history, edge.later),
        ],
    )?;
    text.extend_from_slice(colour(is_red))?;
    Ok(())
}

/// The end of an edge's line.
fn colour(is_red: bool) -> &'static [u8]
    ensures { result.now ≡ colour_text is_red }
{
    if is_red {
        b"\", color=red];\n"
    } else {
        b"\"];\n"
    }
}
