//! The report as one object of JSON.

ghost use Rattle.std.specs.Prelude.{◌≡◌, ◌++◌, OnOk};
ghost use Rattle.sgt_clients.specs.JsonText.{truth_text, skipped_member, ground_word, step_object, tie_object, anomaly_member, order_member, cycle_member, reader_members, finding_members, counts_head, head_text};
ghost use Rattle.sgt_clients.specs.Pieces.{part_text};
ghost use Rattle.sgt_clients.specs.Reports.{json_text};

use crate::anomaly_text::append_anomalies_member;
use crate::clients::Clients;
use crate::counts::count;
use crate::finding::{Finding, is_serial};
use crate::item::{Item, append_list};
use crate::level_findings::LevelFindings;
use crate::level_json::append_levels;
use crate::order_text::append_orders_members;
use crate::part::Part;
use crate::piece::entry_of;
use crate::witness_text::passage_of;
use sgt_appends::{Reason, Transaction};
use sgt_format::append_filled;
use sgt_levels::{Ground, Passage, Tie};
use sgt_model::NoMemory;

/// Appends the report as a line with one object of JSON. Transactions and entries are counted from 1.
///
/// # Errors
///
/// `NoMemory` if an allocation failed. A part of the line may have been appended then.
pub fn append_json(
    text: &mut Vec<u8>,
    clients: &Clients,
    found: &LevelFindings,
    strict: bool,
) -> Result<(), NoMemory>
    ensures { OnOk result (text.new.items ≡ text.old.items ++ json_text strict clients.now found.now) }
{
    append_head(text, clients, &found.finding, strict)?;
    append_levels(text, clients, found, strict)?;
    append_orders_members(text, clients, &found.orders)?;
    append_anomalies_member(text, clients, found.anomalies.as_slice())?;
    text.extend_from_slice(b"}\n")?;
    Ok(())
}

/// Appends the beginning of the object, up to the members of the finding.
fn append_head(
    text: &mut Vec<u8>,
    clients: &Clients,
    finding: &Finding,
    strict: bool,
) -> Result<(), NoMemory>
    ensures { OnOk result (text.new.items ≡ text.old.items ++ head_text strict clients.now finding.now) }
{
    append_counts(text, clients.transactions.as_slice(), strict)?;
    append_skipped(text, clients.skipped)?;
    append_filled(
        text,
        b",\"serializable\":#",
        &[Part::Words(truth_text(is_serial(finding)))],
    )?;
    append_finding(text, clients, finding)
}

/// `true` or `false`.
pub(crate) fn truth_text(truth: bool) -> &'static [u8]
    ensures { result.now ≡ truth_text truth }
{
    if truth { b"true" } else { b"false" }
}

/// Appends the beginning of the object, with the counts.
fn append_counts(text: &mut Vec<u8>, history: &[Transaction], strict: bool) -> Result<(), NoMemory>
    ensures { OnOk result (text.new.items ≡ text.old.items ++ counts_head strict history.now) }
{
    let counts = count(history);
    append_filled(
        text,
        b"{\"model\":\"list-append\",\"strict\":#,\"transactions\":#,\"committed\":#,\"aborted\":#,\"unknown\":#",
        &[
            Part::Words(truth_text(strict)),
            Part::Number(counts.transactions),
            Part::Number(counts.committed),
            Part::Number(counts.aborted),
            Part::Number(counts.unknown),
        ],
    )
}

/// Appends the member on the entries that were skipped, if there are any.
fn append_skipped(text: &mut Vec<u8>, skipped: usize) -> Result<(), NoMemory>
    ensures { OnOk result (text.new.items ≡ text.old.items ++ skipped_member skipped) }
{
    if skipped == 0 {
        return Ok(());
    }
    append_filled(text, b",\"skipped\":#", &[skipped])
}

/// Appends the members of the finding.
pub(crate) fn append_finding(
    text: &mut Vec<u8>,
    clients: &Clients,
    finding: &Finding,
) -> Result<(), NoMemory>
    ensures { OnOk result (text.new.items ≡ text.old.items ++ finding_members clients.now finding.now) }
{
    match finding {
        Finding::Serial(order) => append_order(text, clients, order.as_slice()),
        Finding::Cycle(steps, name) => {
            append_name(text, name)?;
            append_cycle(text, clients, steps.as_slice())
        }
        Finding::Fault {
            reader,
            read,
            fault,
            name,
        } => {
            append_name(text, name)?;
            let why = Part::Fault(clients, *reader, *read, fault);
            append_reader(text, clients, *reader, why)
        }
    }
}

/// Appends the name of the anomaly.
pub(crate) fn append_name(text: &mut Vec<u8>, name: &str) -> Result<(), NoMemory>
    ensures { OnOk result (text.new.items ≡ text.old.items ++ anomaly_member name.now) }
{
    append_filled(text, b",\"anomaly\":\"#\"", &[Part::Words(name.as_bytes())])
}

/// Appends the serial order.
pub(crate) fn append_order(
    text: &mut Vec<u8>,
    clients: &Clients,
    order: &[usize],
) -> Result<(), NoMemory>
    ensures { OnOk result (text.new.items ≡ text.old.items ++ order_member order.now) }
{
    append_list(text, clients, b",\"order\":[", order)
}

/// Appends the cycle.
pub(crate) fn append_cycle<I: Item>(
    text: &mut Vec<u8>,
    clients: &Clients,
    links: &[I],
) -> Result<(), NoMemory>
    ensures { OnOk result (text.new.items ≡ text.old.items ++ cycle_member (I.object clients.now) links.now) }
{
    append_list(text, clients, b",\"cycle\":[", links)
}

/// The step: both transactions, their entries, the kind of the reason, and the reason.
impl Item for Passage {
    ghost object = { step_object };

    fn append_object(&self, text: &mut Vec<u8>, clients: &Clients) -> Result<(), NoMemory> {
        append_filled(
            text,
            b"{\"from\":#,\"to\":#,\"from_entry\":#,\"to_entry\":#,\"because\":\"#\",\"why\":\"#\"}",
            &[
                Part::Number(self.from.saturating_add(1)),
                Part::Number(self.to.saturating_add(1)),
                Part::Number(entry_of(clients, self.from)),
                Part::Number(entry_of(clients, self.to)),
                Part::Words(ground_word(self.why)),
                Part::Why(clients, *self),
            ],
        )
    }
}

/// The kind of the reason of a step, in a word or two.
fn ground_word(ground: Option<Ground>) -> &'static [u8]
    ensures { result.now ≡ ground_word ground }
{
    match ground {
        Some(Ground::Observed(Reason::Seen { .. })) => b"seen",
        Some(Ground::Observed(Reason::Missed { .. })) => b"missed",
        Some(Ground::Observed(Reason::InOrder { .. })) => b"in order",
        Some(Ground::Late { .. }) => b"late",
        Some(Ground::Wait { .. }) => b"wait",
        None => b"real time",
    }
}

impl Item for Tie {
    ghost object = { tie_object };

    fn append_object(&self, text: &mut Vec<u8>, clients: &Clients) -> Result<(), NoMemory> {
        passage_of(self).append_object(text, clients)
    }
}

/// Appends the reader, and what is wrong with its read.
pub(crate) fn append_reader(
    text: &mut Vec<u8>,
    clients: &Clients,
    reader: usize,
    why: Part<'_>,
) -> Result<(), NoMemory>
    ensures { OnOk result (text.new.items ≡ text.old.items ++ reader_members clients.now reader (part_text why.entry)) }
{
    append_filled(
        text,
        b",\"reader\":#,\"entry\":#,\"why\":\"#\"",
        &[
            Part::Number(reader.saturating_add(1)),
            Part::Number(entry_of(clients, reader)),
            why,
        ],
    )
}
