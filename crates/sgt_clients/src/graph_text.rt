//! The text of a witness as a graph, in DOT.

ghost use Rattle.std.specs.Prelude.{◌≡◌, ◌++◌, flat_map, OnOk};
ghost use Rattle.sgt_clients.specs.GraphText.{node_text, source_text, arrow_text, graph_lines, graph_text};

use crate::clients::Clients;
use crate::finding::Finding;
use crate::part::Part;
use sgt_format::append_filled;
use sgt_levels::Passage;
use sgt_model::NoMemory;

/// Appends the graph: the transactions of the serial order, or the cycle, or the transaction whose read is wrong.
///
/// # Errors
///
/// `NoMemory` if an allocation failed. A part of the lines may have been appended then.
pub fn append_graph(
    text: &mut Vec<u8>,
    clients: &Clients,
    finding: &Finding,
) -> Result<(), NoMemory>
    ensures { OnOk result (text.new.items ≡ text.old.items ++ graph_text clients.now finding.now) }
{
    text.extend_from_slice(b"digraph serialization {\n")?;
    append_lines(text, clients, finding)?;
    text.extend_from_slice(b"}\n")?;
    Ok(())
}

/// Appends the lines of the finding.
fn append_lines<'a>(
    text: &mut Vec<u8>,
    clients: &'a Clients,
    finding: &'a Finding,
) -> Result<(), NoMemory>
    ensures { OnOk result (text.new.items ≡ text.old.items ++ graph_lines clients.now finding.now) }
{
    match finding {
        Finding::Serial(order) => append_nodes(text, order.as_slice()),
        Finding::Cycle(steps, _) => {
            append_sources(text, clients, steps.as_slice())?;
            append_arrows(text, clients, steps.as_slice())
        }
        Finding::Fault {
            reader,
            read,
            fault,
            ..
        } => append_filled(
            text,
            b"  # [color=red, label=\"#\"];\n",
            &[
                Part::Transaction(*reader),
                Part::Fault(clients, *reader, *read, fault),
            ],
        ),
    }
}

/// Appends the transactions.
fn append_nodes(text: &mut Vec<u8>, order: &[usize]) -> Result<(), NoMemory>
    ensures { OnOk result (text.new.items ≡ text.old.items ++ flat_map node_text order.now) }
{
    for transaction in order {
        append_filled(text, b"  #;\n", &[Part::Transaction(*transaction)])?;
    }
    Ok(())
}

/// Appends the transactions from which the steps lead.
fn append_sources(text: &mut Vec<u8>, clients: &Clients, steps: &[Passage]) -> Result<(), NoMemory>
    ensures { OnOk result (text.new.items ≡ text.old.items ++ flat_map (source_text clients.now) steps.now) }
{
    for step in steps {
        append_source(text, clients, step)?;
    }
    Ok(())
}

/// Appends the transaction from which the step leads.
fn append_source(text: &mut Vec<u8>, clients: &Clients, step: &Passage) -> Result<(), NoMemory>
    ensures { OnOk result (text.new.items ≡ text.old.items ++ source_text clients.now step.now) }
{
    append_filled(
        text,
        b"  # [label=\"#\"];\n",
        &[
            Part::Transaction(step.from),
            Part::Placed(clients, step.from),
        ],
    )
}

/// Appends the steps.
fn append_arrows(text: &mut Vec<u8>, clients: &Clients, steps: &[Passage]) -> Result<(), NoMemory>
    ensures { OnOk result (text.new.items ≡ text.old.items ++ flat_map (arrow_text clients.now) steps.now) }
{
    for step in steps {
        append_arrow(text, clients, step)?;
    }
    Ok(())
}

/// Appends a step.
fn append_arrow(text: &mut Vec<u8>, clients: &Clients, step: &Passage) -> Result<(), NoMemory>
    ensures { OnOk result (text.new.items ≡ text.old.items ++ arrow_text clients.now step.now) }
{
    append_filled(
        text,
        b"  # -> # [color=red, label=\"#\"];\n",
        &[
            Part::Transaction(step.from),
            Part::Transaction(step.to),
            Part::Why(clients, *step),
        ],
    )
}
