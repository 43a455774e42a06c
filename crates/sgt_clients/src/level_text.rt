//! The lines on the levels of isolation: the strongest that holds, and what breaks the next one.

ghost use Rattle.std.specs.Prelude.{◌≡◌, ◌++◌, flat_map, OnOk};
ghost use Rattle.sgt_clients.specs.LevelText.{level_words, bound_words, strongest_words, strongest_text, not_text, above_text, undecided_text, ties_text, unordered_text, broken_text, committed_text, open_text, split_text, snapshot_text, untimed_text, next_text, levels_text};
ghost use Rattle.sgt_clients.specs.ReportText.{tie_text, partial_line};

use crate::clients::Clients;
use crate::level::Level;
use crate::level_findings::{LevelFindings, Weaker};
use crate::part::Part;
use crate::report_text::{append_fault_line, append_step, append_witness};
use crate::witness_text::{append_unseen_in, passage_of};
use sgt_format::append_filled;
use sgt_levels::{Committed, Partial, Snapshot, Tie, Unseen, Writes};
use sgt_model::NoMemory;

/// Appends the lines on the levels.
pub(crate) fn append_levels(
    text: &mut Vec<u8>,
    clients: &Clients,
    found: &LevelFindings,
    strict: bool,
) -> Result<(), NoMemory>
    ensures { OnOk result (text.new.items ≡ text.old.items ++ levels_text strict clients.now found.now) }
{
    let strongest = found.strongest(strict);
    append_strongest(text, found.is_at_least(strongest), strongest)?;
    append_next(text, clients, found, strongest)
}

/// Appends the line of the strongest level, or of the strongest that is shown.
fn append_strongest(
    text: &mut Vec<u8>,
    at_least: bool,
    strongest: Option<Level>,
) -> Result<(), NoMemory>
    ensures { OnOk result (text.new.items ≡ text.old.items ++ strongest_text at_least strongest) }
{
    append_filled(
        text,
        b"strongest level: ##\n",
        &[
            Part::Words(bound_words(at_least)),
            Part::Words(strongest_words(strongest)),
        ],
    )
}

/// The words before the strongest level, if it is only the strongest that is shown.
fn bound_words(at_least: bool) -> &'static [u8]
    ensures { result.now ≡ bound_words at_least }
{
    if at_least { b"at least " } else { b"" }
}

/// The name of the strongest level, or `none`.
fn strongest_words(strongest: Option<Level>) -> &'static [u8]
    ensures { result.now ≡ strongest_words strongest }
{
    match strongest {
        Some(level) => level_words(level),
        None => b"none",
    }
}

/// The name of a level.
fn level_words(level: Level) -> &'static [u8]
    ensures { result.now ≡ level_words level }
{
    match level {
        Level::ReadUncommitted => b"read uncommitted",
        Level::ReadCommitted => b"read committed",
        Level::SnapshotIsolation => b"snapshot isolation",
        Level::Serializable => b"serializable",
        Level::StrictSerializable => b"strict serializable",
    }
}

/// Appends what breaks the level after the strongest one, unless the lines before say it.
fn append_next(
    text: &mut Vec<u8>,
    clients: &Clients,
    found: &LevelFindings,
    strongest: Option<Level>,
) -> Result<(), NoMemory>
    ensures { OnOk result (text.new.items ≡ text.old.items ++ next_text clients.now found.now strongest) }
{
    match strongest {
        None => match &found.weaker {
            Some(weaker) => {
                append_unordered(text, clients, weaker.writes_name, &weaker.levels.writes)
            }
            None => Ok(()),
        },
        Some(Level::ReadUncommitted) => match &found.weaker {
            Some(weaker) => append_committed(text, clients, weaker),
            None => Ok(()),
        },
        Some(Level::ReadCommitted) => match &found.weaker {
            Some(weaker) => append_snapshot(text, clients, weaker),
            None => Ok(()),
        },
        Some(Level::SnapshotIsolation) => append_untimed(text, clients, found),
        Some(Level::Serializable | Level::StrictSerializable) => Ok(()),
    }
}

/// Appends the line that a level does not hold, with the name of the anomaly.
fn append_not(text: &mut Vec<u8>, level: Level, name: &str) -> Result<(), NoMemory>
    ensures { OnOk result (text.new.items ≡ text.old.items ++ not_text level name.now) }
{
    append_filled(
        text,
        b"not #: #\n",
        &[
            Part::Words(level_words(level)),
            Part::Words(name.as_bytes()),
        ],
    )
}

/// Appends that what stands above breaks a level as well.
fn append_above(text: &mut Vec<u8>, level: Level) -> Result<(), NoMemory>
    ensures { OnOk result (text.new.items ≡ text.old.items ++ above_text level) }
{
    append_not(text, level, "by the lines above")
}

/// Appends that there is no answer for a level.
fn append_undecided(text: &mut Vec<u8>, level: Level) -> Result<(), NoMemory>
    ensures { OnOk result (text.new.items ≡ text.old.items ++ undecided_text level) }
{
    append_filled(text, b"# undecided\n", &[Part::Words(level_words(level))])
}

/// Appends that a level does not hold, and a cycle of ties.
fn append_not_ties(
    text: &mut Vec<u8>,
    clients: &Clients,
    level: Level,
    name: &str,
    ties: &[Tie],
) -> Result<(), NoMemory>
    ensures { OnOk result (text.new.items ≡ text.old.items ++ ties_text clients.now level name.now ties.now) }
{
    append_not(text, level, name)?;
    append_ties(text, clients, ties)
}

/// Appends a line for each tie.
pub(crate) fn append_ties(
    text: &mut Vec<u8>,
    clients: &Clients,
    ties: &[Tie],
) -> Result<(), NoMemory>
    ensures { OnOk result (text.new.items ≡ text.old.items ++ flat_map (tie_text clients.now) ties.now) }
{
    for tie in ties {
        append_step(text, clients, &passage_of(tie))?;
    }
    Ok(())
}

/// Appends the line of a partial read.
pub(crate) fn append_partial_line(
    text: &mut Vec<u8>,
    clients: &Clients,
    partial: &Partial,
) -> Result<(), NoMemory>
    ensures { OnOk result (text.new.items ≡ text.old.items ++ partial_line clients.now partial.now) }
{
    append_filled(text, b"  #\n", &[Part::Partial(clients, partial)])
}

/// Appends the lines of an answer for read uncommitted that is no yes.
fn append_unordered(
    text: &mut Vec<u8>,
    clients: &Clients,
    name: &str,
    writes: &Writes,
) -> Result<(), NoMemory>
    ensures { OnOk result (text.new.items ≡ text.old.items ++ unordered_text clients.now name.now writes.now) }
{
    match writes {
        Writes::Implied | Writes::Order(_) => Ok(()),
        Writes::Cycle(ties) => append_not_ties(
            text,
            clients,
            Level::ReadUncommitted,
            name,
            ties.as_slice(),
        ),
        Writes::Open => append_undecided(text, Level::ReadUncommitted),
    }
}

/// Appends what breaks read committed.
fn append_committed(text: &mut Vec<u8>, clients: &Clients, weaker: &Weaker) -> Result<(), NoMemory>
    ensures { OnOk result (text.new.items ≡ text.old.items ++ committed_text clients.now weaker.now) }
{
    if weaker.committed_above {
        return append_above(text, Level::ReadCommitted);
    }
    append_broken(
        text,
        clients,
        weaker.committed_name,
        &weaker.levels.committed,
    )
}

/// Appends the lines of an answer for read committed that is no yes.
fn append_broken(
    text: &mut Vec<u8>,
    clients: &Clients,
    name: &str,
    committed: &Committed,
) -> Result<(), NoMemory>
    ensures { OnOk result (text.new.items ≡ text.old.items ++ broken_text clients.now name.now committed.now) }
{
    match committed {
        Committed::Run(_) => Ok(()),
        Committed::Fault {
            reader,
            read,
            fault,
        } => {
            append_not(text, Level::ReadCommitted, name)?;
            append_fault_line(text, clients, *reader, *read, fault)
        }
        Committed::Partial(partial) => {
            append_not(text, Level::ReadCommitted, name)?;
            append_partial_line(text, clients, partial)
        }
        Committed::Cycle(ties) => append_not_ties(
            text,
            clients,
            Level::ReadCommitted,
            name,
            ties.as_slice(),
        ),
        Committed::Open => append_undecided(text, Level::ReadCommitted),
    }
}

/// Appends what breaks snapshot isolation.
fn append_snapshot(text: &mut Vec<u8>, clients: &Clients, weaker: &Weaker) -> Result<(), NoMemory>
    ensures { OnOk result (text.new.items ≡ text.old.items ++ snapshot_text clients.now weaker.now) }
{
    if weaker.snapshot_above {
        return append_above(text, Level::SnapshotIsolation);
    }
    append_split(
        text,
        clients,
        weaker.snapshot_name,
        &weaker.unseen,
        &weaker.levels.snapshot,
    )
}

/// Appends the lines of an answer for snapshot isolation that is no yes, where read committed holds.
fn append_split(
    text: &mut Vec<u8>,
    clients: &Clients,
    name: &str,
    unseen: &Option<Unseen>,
    snapshot: &Snapshot,
) -> Result<(), NoMemory>
    ensures { OnOk result (text.new.items ≡ text.old.items ++ split_text clients.now name.now unseen.now snapshot.now) }
{
    match snapshot {
        Snapshot::Run(_) | Snapshot::NotCommitted => Ok(()),
        Snapshot::Cycle(ties) => append_not_ties(
            text,
            clients,
            Level::SnapshotIsolation,
            name,
            ties.as_slice(),
        ),
        Snapshot::Open => append_open(text, clients, unseen),
    }
}

/// Appends that there is no answer for snapshot isolation, and which read would give one.
fn append_open(
    text: &mut Vec<u8>,
    clients: &Clients,
    unseen: &Option<Unseen>,
) -> Result<(), NoMemory>
    ensures { OnOk result (text.new.items ≡ text.old.items ++ open_text clients.now unseen.now) }
{
    text.extend_from_slice(
        b"snapshot isolation undecided: no read saw which of two appends to a key came first\n",
    )?;
    append_unseen_in(text, clients, b"  #\n", unseen)
}

/// Appends what breaks serializability, if the lines before are on real time.
fn append_untimed(
    text: &mut Vec<u8>,
    clients: &Clients,
    found: &LevelFindings,
) -> Result<(), NoMemory>
    ensures { OnOk result (text.new.items ≡ text.old.items ++ untimed_text clients.now found.now) }
{
    if found.serial_above {
        return append_above(text, Level::Serializable);
    }
    match &found.untimed {
        Some(finding) => append_witness(text, clients, b"not serializable: #\n", finding),
        None => Ok(()),
    }
}
