//! The lines that say why a commit waits, and on which uncommitted values a code may rest.
ghost use Rattle.std.specs.Prelude.{◌≡◌, ◌<◌, ◌≤◌, take, length, IsSome, OnErr, vec_len};

use crate::edge::pair_edge;
use crate::indexed_history::IndexedHistory;
use crate::source::read_from;
use crate::text::Explained;
use sgt_model::{Cause, NoMemory, Reply, Tid};

/// Appends the lines that explain the entry at this position by transactions that are live after it:
///
/// - if its commit waits, a line for each live transaction that comes before its own, with the accesses that make the
///   edge between them;
/// - if a procedure aborted with a code at its step, a line for each live transaction of which it had read a value. If
///   one of them aborts, the serial run may have another code, or none.
///
/// For any other entry it appends nothing. The list of lines is as for `append_explanation`.
///
/// `NoMemory` if an allocation failed; then the text is unchanged.
pub fn append_live_causes(
    text: &mut Vec<u8>,
    history: &IndexedHistory,
    place: usize,
    live: &[Tid],
    lines: &[u64],
) -> Result<(), NoMemory>
    ensures kept { take (vec_len text.old) text.new.items ≡ text.old.items }
    ensures err { OnErr result (text.new.items ≡ text.old.items) }
{
    let mut explained = Explained {
        text: Vec::new(*text.allocator()),
        place,
        lines,
    };
    if let Some(waiting) = waiting_at(history, place) {
        append_waits(&mut explained, history, place, live, waiting)?;
    }
    if let Some(reader) = coded_at(history, place) {
        append_reads(&mut explained, history, place, live, reader)?;
    }
    text.extend_from_slice(explained.text.as_slice())?;
    Ok(())
}

// Appends a line for each live transaction that comes before the one whose commit waits at this position.
fn append_waits(
    explained: &mut Explained<'_>,
    history: &IndexedHistory,
    place: usize,
    live: &[Tid],
    waiting: Tid,
) -> Result<(), NoMemory>
    requires { place ≤ length history.now }
{
    for t in live {
        if *t == waiting {
            continue;
        }
        if let Some(edge) = pair_edge(history, place, *t, waiting) {
            explained.append_wait(&edge)?;
        }
    }
    Ok(())
}

// Appends a line for each live transaction of which the reader had read a value before this position.
fn append_reads(
    explained: &mut Explained<'_>,
    history: &IndexedHistory,
    place: usize,
    live: &[Tid],
    reader: Tid,
) -> Result<(), NoMemory>
    requires { place ≤ length history.now }
{
    for t in live {
        if let Some(read) = read_from(history, place, reader, *t) {
            explained.append_unsettled(&read)?;
        }
    }
    Ok(())
}

// The transaction whose commit waits at a position, if one does.
fn waiting_at(history: &IndexedHistory, place: usize) -> Option<Tid>
    ensures { IsSome result → place < length history.now }
{
    let entry = history.get_entry(place)?;
    if entry.is_wait() { entry.named() } else { None }
}

// The transaction that its procedure aborts with a code at its step, at a position, if one does.
fn coded_at(history: &IndexedHistory, place: usize) -> Option<Tid>
    ensures { IsSome result → place < length history.now }
{
    let entry = history.get_entry(place)?;
    if !entry.is_ending() || entry.is_commit() {
        return None;
    }
    match entry.reply() {
        Reply::Aborted {
            cause: Cause::Asked(_),
            ..
        } => entry.named(),
        _ => None,
    }
}
