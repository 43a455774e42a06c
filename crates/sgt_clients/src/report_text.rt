//! The lines of a report.

ghost use Rattle.std.specs.Prelude.{◌≡◌, ◌++◌, [], ◌∷◌, codes, flat_map, if◌then◌else◌, OnOk};
ghost use Rattle.sgt_format.specs.Templates.{filled};
ghost use Rattle.sgt_clients.specs.ReportText.{verdict_text, finding_text, counts_text, skipped_text, order_text, shown_order, rest_text, next_text, witness_text, fault_line, step_text};
ghost use Rattle.sgt_clients.specs.Reports.{report_text};

use crate::anomaly_text::append_anomalies;
use crate::clients::Clients;
use crate::counts::count;
use crate::finding::Finding;
use crate::level_findings::LevelFindings;
use crate::level_text::append_levels;
use crate::order_text::append_orders;
use crate::part::Part;
use sgt_appends::{Fault, Transaction};
use sgt_format::{append_filled, append_numbered};
use sgt_levels::Passage;
use sgt_model::NoMemory;

/// Appends the lines of a report.
///
/// # Errors
///
/// `NoMemory` if an allocation failed. A part of the lines may have been appended then.
pub fn append_report(
    text: &mut Vec<u8>,
    clients: &Clients,
    found: &LevelFindings,
    strict: bool,
) -> Result<(), NoMemory>
    ensures { OnOk result (text.new.items ≡ text.old.items ++ report_text strict clients.now found.now) }
{
    append_verdict(text, clients, &found.finding, strict)?;
    append_levels(text, clients, found, strict)?;
    append_orders(text, clients, &found.orders)?;
    append_anomalies(text, clients, found.anomalies.as_slice())
}

/// Appends the lines of the verdict.
fn append_verdict(
    text: &mut Vec<u8>,
    clients: &Clients,
    finding: &Finding,
    strict: bool,
) -> Result<(), NoMemory>
    ensures { OnOk result (text.new.items ≡ text.old.items ++ verdict_text strict clients.now finding.now) }
{
    append_counts(text, clients.transactions.as_slice())?;
    append_skipped(text, clients.skipped)?;
    append_strictly(text, strict)?;
    append_finding(text, clients, finding)
}

/// Appends the word of a check that keeps real time.
fn append_strictly(text: &mut Vec<u8>, strict: bool) -> Result<(), NoMemory>
    ensures { OnOk result (text.new.items ≡ text.old.items ++ (if strict then codes "strictly " else [])) }
{
    if strict {
        text.extend_from_slice(b"strictly ")?;
    }
    Ok(())
}

/// Appends the lines of a finding.
fn append_finding(text: &mut Vec<u8>, clients: &Clients, finding: &Finding) -> Result<(), NoMemory>
    ensures { OnOk result (text.new.items ≡ text.old.items ++ finding_text clients.now finding.now) }
{
    match finding {
        Finding::Serial(order) => append_order(text, order.as_slice()),
        Finding::Cycle(..) => append_witness(text, clients, b"serializable no: #\n", finding),
        Finding::Fault { .. } => append_witness(text, clients, b"serializable no: #\n", finding),
    }
}

/// Appends the line that names the anomaly, by the template, and the lines of the cycle or the read. Nothing of an order.
pub(crate) fn append_witness(
    text: &mut Vec<u8>,
    clients: &Clients,
    template: &[u8],
    finding: &Finding,
) -> Result<(), NoMemory>
    ensures { OnOk result (text.new.items ≡ text.old.items ++ witness_text template.now clients.now finding.now) }
{
    match finding {
        Finding::Serial(_) => Ok(()),
        Finding::Cycle(steps, name) => {
            append_named(text, template, name)?;
            append_steps(text, clients, steps.as_slice())
        }
        Finding::Fault {
            reader,
            read,
            fault,
            name,
        } => {
            append_named(text, template, name)?;
            append_fault_line(text, clients, *reader, *read, fault)
        }
    }
}

/// Appends the line of the counts.
fn append_counts(text: &mut Vec<u8>, history: &[Transaction]) -> Result<(), NoMemory>
    ensures { OnOk result (text.new.items ≡ text.old.items ++ counts_text history.now) }
{
    let counts = count(history);
    append_filled(
        text,
        b"transactions #: # committed, # aborted, # unknown\n",
        &[
            counts.transactions,
            counts.committed,
            counts.aborted,
            counts.unknown,
        ],
    )
}

/// Appends the line on the entries that were skipped, if there are any.
fn append_skipped(text: &mut Vec<u8>, skipped: usize) -> Result<(), NoMemory>
    ensures { OnOk result (text.new.items ≡ text.old.items ++ skipped_text skipped) }
{
    match skipped {
        0 => Ok(()),
        1 => Ok(text.extend_from_slice(b"1 entry skipped: no transaction\n")?),
        _ => append_filled(text, b"# entries skipped: no transactions\n", &[skipped]),
    }
}

/// Appends the line of a serial order.
fn append_order(text: &mut Vec<u8>, order: &[usize]) -> Result<(), NoMemory>
    ensures { OnOk result (text.new.items ≡ text.old.items ++ (codes "serializable yes:" ++ order_text order.now ++ codes "\n")) }
{
    text.extend_from_slice(b"serializable yes:")?;
    append_all(text, order)?;
    text.extend_from_slice(b"\n")?;
    Ok(())
}

/// Appends the transactions, or that there is none.
fn append_all(text: &mut Vec<u8>, order: &[usize]) -> Result<(), NoMemory>
    ensures { OnOk result (text.new.items ≡ text.old.items ++ order_text order.now) }
{
    if order.is_empty() {
        text.extend_from_slice(b" none")?;
        return Ok(());
    }
    append_shown(text, order)
}

/// Appends the transactions. Of more than 100 it appends the first ones.
fn append_shown(text: &mut Vec<u8>, order: &[usize]) -> Result<(), NoMemory>
    ensures { OnOk result (text.new.items ≡ text.old.items ++ shown_order order.now) }
{
    if order.len() > 100 {
        append_each(text, &order[..100])?;
        return append_rest(text, order.len());
    }
    append_each(text, order)
}

/// Appends how many transactions an order has, of which the first ones stand before.
fn append_rest(text: &mut Vec<u8>, count: usize) -> Result<(), NoMemory>
    ensures { OnOk result (text.new.items ≡ text.old.items ++ rest_text count) }
{
    append_filled(text, b" .. of # (--json has the order)", &[count])
}

/// Appends each transaction after a space.
fn append_each(text: &mut Vec<u8>, order: &[usize]) -> Result<(), NoMemory>
    ensures { OnOk result (text.new.items ≡ text.old.items ++ flat_map next_text order.now) }
{
    for transaction in order {
        append_numbered(text, b" t", transaction.saturating_add(1))?;
    }
    Ok(())
}

/// Appends the template with the name in place of its mark.
fn append_named(text: &mut Vec<u8>, template: &[u8], name: &str) -> Result<(), NoMemory>
    ensures { OnOk result (text.new.items ≡ text.old.items ++ filled template.now (name.now ∷ [])) }
{
    append_filled(text, template, &[Part::Words(name.as_bytes())])
}

/// Appends the line of a read, and what is wrong with it.
pub(crate) fn append_fault_line(
    text: &mut Vec<u8>,
    clients: &Clients,
    reader: usize,
    read: usize,
    fault: &Fault,
) -> Result<(), NoMemory>
    ensures { OnOk result (text.new.items ≡ text.old.items ++ fault_line clients.now reader read fault.now) }
{
    append_filled(text, b"  #\n", &[Part::Fault(clients, reader, read, fault)])
}

/// Appends a line for each step.
pub(crate) fn append_steps(
    text: &mut Vec<u8>,
    clients: &Clients,
    steps: &[Passage],
) -> Result<(), NoMemory>
    ensures { OnOk result (text.new.items ≡ text.old.items ++ flat_map (step_text clients.now) steps.now) }
{
    for step in steps {
        append_step(text, clients, step)?;
    }
    Ok(())
}

/// Appends the line of a step: that the one transaction comes before the other, and why.
pub(crate) fn append_step(
    text: &mut Vec<u8>,
    clients: &Clients,
    step: &Passage,
) -> Result<(), NoMemory>
    ensures { OnOk result (text.new.items ≡ text.old.items ++ step_text clients.now step.now) }
{
    append_filled(
        text,
        b"  # before #: #\n",
        &[
            Part::Placed(clients, step.from),
            Part::Placed(clients, step.to),
            Part::Why(clients, *step),
        ],
    )
}
