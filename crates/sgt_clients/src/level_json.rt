//! The members on the levels of isolation, in the object of JSON.

ghost use Rattle.std.specs.Prelude.{◌≡◌, ◌++◌, codes, flat_map, OnOk};
ghost use Rattle.std.specs.Fmt.{decimal};
ghost use Rattle.sgt_clients.specs.JsonText.{next_item, items_text, list_text};
ghost use Rattle.sgt_clients.specs.LevelJson.{level_code, strongest_code, answer_text, holds_text, ties_members, ordered_members, evidence_members, run_members, split_members, strict_object, level_objects, strongest_member, levels_members, next_object, level_object, level_members};

use crate::clients::Clients;
use crate::json_text::{
    append_cycle, append_finding, append_name, append_order, append_reader, truth_text,
};
use crate::level::{Answer, Level};
use crate::level_findings::LevelFindings;
use crate::part::Part;
use crate::witness_text::append_unseen_in;
use sgt_format::{append_filled, append_number, append_numbered};
use sgt_levels::{Committed, Snapshot, Snapshots, Tie, Unseen, Writes};
use sgt_model::NoMemory;

/// Appends the members on the strongest level, and on each level.
pub(crate) fn append_levels(
    text: &mut Vec<u8>,
    clients: &Clients,
    found: &LevelFindings,
    strict: bool,
) -> Result<(), NoMemory>
    ensures { OnOk result (text.new.items ≡ text.old.items ++ levels_members strict clients.now found.now) }
{
    let strongest = found.strongest(strict);
    append_strongest(text, found.is_at_least(strongest), strongest)?;
    append_objects(text, clients, found, strict)?;
    text.extend_from_slice(b"}")?;
    Ok(())
}

/// Appends the members on the strongest level, and the beginning of the one on all.
fn append_strongest(
    text: &mut Vec<u8>,
    at_least: bool,
    strongest: Option<Level>,
) -> Result<(), NoMemory>
    ensures { OnOk result (text.new.items ≡ text.old.items ++ strongest_member at_least strongest) }
{
    append_filled(
        text,
        b",\"strongest\":#,\"at_least\":#,\"levels\":{",
        &[
            Part::Words(strongest_code(strongest)),
            Part::Words(truth_text(at_least)),
        ],
    )
}

/// The name of the strongest level, or `null`.
fn strongest_code(strongest: Option<Level>) -> &'static [u8]
    ensures { result.now ≡ strongest_code strongest }
{
    match strongest {
        Some(level) => level_code(level),
        None => b"null",
    }
}

/// The name of a level, as the option spells it, in quotes.
fn level_code(level: Level) -> &'static [u8]
    ensures { result.now ≡ level_code level }
{
    match level {
        Level::ReadUncommitted => b"\"read-uncommitted\"",
        Level::ReadCommitted => b"\"read-committed\"",
        Level::SnapshotIsolation => b"\"snapshot-isolation\"",
        Level::Serializable => b"\"serializable\"",
        Level::StrictSerializable => b"\"strict-serializable\"",
    }
}

/// Appends the objects of the levels.
fn append_objects(
    text: &mut Vec<u8>,
    clients: &Clients,
    found: &LevelFindings,
    strict: bool,
) -> Result<(), NoMemory>
    ensures { OnOk result (text.new.items ≡ text.old.items ++ level_objects strict clients.now found.now) }
{
    append_object(text, clients, found, Level::ReadUncommitted)?;
    append_next_object(text, clients, found, Level::ReadCommitted)?;
    append_next_object(text, clients, found, Level::SnapshotIsolation)?;
    append_next_object(text, clients, found, Level::Serializable)?;
    append_strict_object(text, clients, found, strict)
}

/// Appends the object of strict serializability, if real time is kept.
fn append_strict_object(
    text: &mut Vec<u8>,
    clients: &Clients,
    found: &LevelFindings,
    strict: bool,
) -> Result<(), NoMemory>
    ensures { OnOk result (text.new.items ≡ text.old.items ++ strict_object strict clients.now found.now) }
{
    if strict {
        append_next_object(text, clients, found, Level::StrictSerializable)?;
    }
    Ok(())
}

/// Appends the object of a level after a comma.
fn append_next_object(
    text: &mut Vec<u8>,
    clients: &Clients,
    found: &LevelFindings,
    level: Level,
) -> Result<(), NoMemory>
    ensures { OnOk result (text.new.items ≡ text.old.items ++ next_object clients.now found.now level) }
{
    text.extend_from_slice(b",")?;
    append_object(text, clients, found, level)
}

/// Appends the object of a level.
fn append_object(
    text: &mut Vec<u8>,
    clients: &Clients,
    found: &LevelFindings,
    level: Level,
) -> Result<(), NoMemory>
    ensures { OnOk result (text.new.items ≡ text.old.items ++ level_object clients.now found.now level) }
{
    append_holds(text, level, found.answer(level))?;
    append_members(text, clients, found, level)?;
    text.extend_from_slice(b"}")?;
    Ok(())
}

/// Appends the beginning of the object of a level: whether it holds.
fn append_holds(text: &mut Vec<u8>, level: Level, answer: Answer) -> Result<(), NoMemory>
    ensures { OnOk result (text.new.items ≡ text.old.items ++ holds_text level answer) }
{
    append_filled(
        text,
        b"#:{\"holds\":\"#\"",
        &[
            Part::Words(level_code(level)),
            Part::Words(answer_text(answer)),
        ],
    )
}

/// Appends the evidence of a level, unless it stands before or follows from that of another one.
fn append_members(
    text: &mut Vec<u8>,
    clients: &Clients,
    found: &LevelFindings,
    level: Level,
) -> Result<(), NoMemory>
    ensures { OnOk result (text.new.items ≡ text.old.items ++ level_members clients.now found.now level) }
{
    match level {
        Level::ReadUncommitted => match &found.weaker {
            Some(weaker) => {
                append_ordered(text, clients, weaker.writes_name, &weaker.levels.writes)
            }
            None => Ok(()),
        },
        Level::ReadCommitted => match &found.weaker {
            Some(weaker) => {
                append_evidence(
                    text,
                    clients,
                    weaker.committed_name,
                    &weaker.levels.committed,
                )
            }
            None => Ok(()),
        },
        Level::SnapshotIsolation => match &found.weaker {
            Some(weaker) => append_split(
                text,
                clients,
                weaker.snapshot_name,
                &weaker.unseen,
                &weaker.levels.snapshot,
            ),
            None => Ok(()),
        },
        Level::Serializable => match &found.untimed {
            Some(finding) => append_finding(text, clients, finding),
            None => Ok(()),
        },
        Level::StrictSerializable => Ok(()),
    }
}

/// The word of an answer.
pub(crate) fn answer_text(answer: Answer) -> &'static [u8]
    ensures { result.now ≡ answer_text answer }
{
    match answer {
        Answer::Yes => b"yes",
        Answer::No => b"no",
        Answer::Undecided => b"undecided",
    }
}

/// Appends the evidence of an answer for read uncommitted.
fn append_ordered(
    text: &mut Vec<u8>,
    clients: &Clients,
    name: &str,
    writes: &Writes,
) -> Result<(), NoMemory>
    ensures { OnOk result (text.new.items ≡ text.old.items ++ ordered_members clients.now name.now writes.now) }
{
    match writes {
        Writes::Implied => Ok(()),
        Writes::Order(order) => append_order(text, clients, order.as_slice()),
        Writes::Cycle(ties) => append_ties(text, clients, name, ties.as_slice()),
        Writes::Open => Ok(()),
    }
}

/// Appends the anomaly, and its cycle of ties.
fn append_ties(
    text: &mut Vec<u8>,
    clients: &Clients,
    name: &str,
    ties: &[Tie],
) -> Result<(), NoMemory>
    ensures { OnOk result (text.new.items ≡ text.old.items ++ ties_members clients.now name.now ties.now) }
{
    append_name(text, name)?;
    append_cycle(text, clients, ties)
}

/// Appends the evidence of an answer for read committed.
fn append_evidence(
    text: &mut Vec<u8>,
    clients: &Clients,
    name: &str,
    committed: &Committed,
) -> Result<(), NoMemory>
    ensures { OnOk result (text.new.items ≡ text.old.items ++ evidence_members clients.now name.now committed.now) }
{
    match committed {
        Committed::Run(order) => append_order(text, clients, order.as_slice()),
        Committed::Fault {
            reader,
            read,
            fault,
        } => {
            append_name(text, name)?;
            let why = Part::Fault(clients, *reader, *read, fault);
            append_reader(text, clients, *reader, why)
        }
        Committed::Partial(partial) => {
            append_name(text, name)?;
            append_reader(
                text,
                clients,
                partial.reader,
                Part::Partial(clients, partial),
            )
        }
        Committed::Cycle(ties) => append_ties(text, clients, name, ties.as_slice()),
        Committed::Open => Ok(()),
    }
}

/// Appends the evidence of an answer for snapshot isolation.
fn append_split(
    text: &mut Vec<u8>,
    clients: &Clients,
    name: &str,
    unseen: &Option<Unseen>,
    snapshot: &Snapshot,
) -> Result<(), NoMemory>
    ensures { OnOk result (text.new.items ≡ text.old.items ++ split_members clients.now name.now unseen.now snapshot.now) }
{
    match snapshot {
        Snapshot::Run(run) => append_run(text, clients, run),
        Snapshot::NotCommitted => Ok(()),
        Snapshot::Cycle(ties) => append_ties(text, clients, name, ties.as_slice()),
        Snapshot::Open => append_unseen_in(text, clients, b",\"why\":\"#\"", unseen),
    }
}

/// Appends the order of commits, and the starts.
pub(crate) fn append_run(
    text: &mut Vec<u8>,
    clients: &Clients,
    run: &Snapshots,
) -> Result<(), NoMemory>
    ensures { OnOk result (text.new.items ≡ text.old.items ++ run_members run.now) }
{
    append_order(text, clients, run.order.as_slice())?;
    append_starts(text, run.starts.as_slice())
}

/// Appends how many of the order had committed when each began.
fn append_starts(text: &mut Vec<u8>, starts: &[usize]) -> Result<(), NoMemory>
    ensures { OnOk result (text.new.items ≡ text.old.items ++ list_text (codes ",\"starts\":[") decimal starts.now) }
{
    text.extend_from_slice(b",\"starts\":[")?;
    append_counts(text, starts)?;
    text.extend_from_slice(b"]")?;
    Ok(())
}

/// Appends the numbers, separated by commas.
fn append_counts(text: &mut Vec<u8>, counts: &[usize]) -> Result<(), NoMemory>
    ensures { OnOk result (text.new.items ≡ text.old.items ++ items_text decimal counts.now) }
{
    if counts.is_empty() {
        return Ok(());
    }
    append_number(text, counts[0])?;
    append_each_count(text, &counts[1..])
}

/// Appends each number after a comma.
fn append_each_count(text: &mut Vec<u8>, counts: &[usize]) -> Result<(), NoMemory>
    ensures { OnOk result (text.new.items ≡ text.old.items ++ flat_map (next_item decimal) counts.now) }
{
    for count in counts {
        append_numbered(text, b",", *count)?;
    }
    Ok(())
}
