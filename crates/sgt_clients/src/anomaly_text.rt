//! The lines and the member of JSON on the anomalies that were counted.
ghost use Rattle.std.specs.Prelude.{◌≡◌, ◌++◌, OnOk};
ghost use Rattle.sgt_clients.specs.AnomalyText.{example_text, seen_text, anomalies_text, example_members, seen_object, anomalies_member};

use crate::anomalies::{Example, Seen};
use crate::clients::Clients;
use crate::item::{Item, append_list};
use crate::json_text::{append_cycle, append_reader};
use crate::level_text::{append_partial_line, append_ties};
use crate::part::Part;
use crate::report_text::append_fault_line;
use sgt_format::append_filled;
use sgt_model::NoMemory;

/// Appends the lines on the anomalies.
pub(crate) fn append_anomalies(
    text: &mut Vec<u8>,
    clients: &Clients,
    all: &[Seen],
) -> Result<(), NoMemory>
    ensures { OnOk result (text.new.items ≡ text.old.items ++ anomalies_text clients.now all.now) }
{
    for seen in all {
        append_seen(text, clients, seen)?;
    }
    Ok(())
}

/// Appends the line that names an anomaly, and how often it was seen, and those of its example.
fn append_seen(text: &mut Vec<u8>, clients: &Clients, seen: &Seen) -> Result<(), NoMemory>
    ensures { OnOk result (text.new.items ≡ text.old.items ++ seen_text clients.now seen.now) }
{
    append_filled(
        text,
        b"anomaly #: #, the first:\n",
        &[Part::Words(seen.name.as_bytes()), Part::Number(seen.count)],
    )?;
    append_example(text, clients, &seen.first)
}

/// Appends the lines of an example.
fn append_example(text: &mut Vec<u8>, clients: &Clients, example: &Example) -> Result<(), NoMemory>
    ensures { OnOk result (text.new.items ≡ text.old.items ++ example_text clients.now example.now) }
{
    match example {
        Example::Read {
            reader,
            read,
            fault,
        } => append_fault_line(text, clients, *reader, *read, fault),
        Example::Partial(partial) => append_partial_line(text, clients, partial),
        Example::Update { one, other } => append_ties(text, clients, &[*one, *other]),
    }
}

/// Appends the member with the anomalies.
pub(crate) fn append_anomalies_member(
    text: &mut Vec<u8>,
    clients: &Clients,
    all: &[Seen],
) -> Result<(), NoMemory>
    ensures { OnOk result (text.new.items ≡ text.old.items ++ anomalies_member clients.now all.now) }
{
    append_list(text, clients, b",\"anomalies\":[", all)
}

impl Item for Seen {
    ghost object = { seen_object };

    fn append_object(&self, text: &mut Vec<u8>, clients: &Clients) -> Result<(), NoMemory> {
        append_filled(
            text,
            b"{\"anomaly\":\"#\",\"count\":#",
            &[Part::Words(self.name.as_bytes()), Part::Number(self.count)],
        )?;
        append_members(text, clients, &self.first)?;
        text.extend_from_slice(b"}")?;
        Ok(())
    }
}

/// Appends the members of an example.
fn append_members(text: &mut Vec<u8>, clients: &Clients, example: &Example) -> Result<(), NoMemory>
    ensures { OnOk result (text.new.items ≡ text.old.items ++ example_members clients.now example.now) }
{
    match example {
        Example::Read {
            reader,
            read,
            fault,
        } => {
            let why = Part::Fault(clients, *reader, *read, fault);
            append_reader(text, clients, *reader, why)
        }
        Example::Partial(partial) => append_reader(
            text,
            clients,
            partial.reader,
            Part::Partial(clients, partial),
        ),
        Example::Update { one, other } => append_cycle(text, clients, &[*one, *other]),
    }
}
