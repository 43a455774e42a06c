//! All lines that explain one abort.
ghost use Rattle.std.specs.Prelude.{◌≡◌, take, OnErr, vec_len};

use crate::edge::cycle_edge;
use crate::indexed_history::IndexedHistory;
use crate::source::fall_source;
use crate::text::Explained;
use sgt_model::{Key, Kind, NoMemory};

/// The most transactions of a cycle, and the most cascading aborts of one abort.
const MOST: usize = 32;

/// The access that a transaction was about to make.
#[derive(Clone, Copy)]
pub struct Pending {
    /// The key.
    pub key: Key,
    /// Whether it would read or write it.
    pub kind: Kind,
    /// Whether it would remove it: that is a write of no value.
    pub removes: bool,
}

/// Appends the lines that explain why the entry at this position aborts transactions:
///
/// - a line for each edge of its cycle, if it aborts by one and the access that was about to be made is given;
/// - a line for each transaction that it aborts in cascade.
///
/// For any other entry it appends nothing. The list maps the position of each entry to the number of its line. An entry
/// past the end of the list is named `entry 7`, by its position from 0.
///
/// `NoMemory` if an allocation failed; then the text is unchanged.
pub fn append_explanation(
    text: &mut Vec<u8>,
    history: &IndexedHistory,
    place: usize,
    pending: Option<Pending>,
    lines: &[u64],
) -> Result<(), NoMemory>
    ensures kept { take (vec_len text.old) text.new.items ≡ text.old.items }
    ensures err { OnErr result (text.new.items ≡ text.old.items) }
{
    let mut explained = Explained {
        text: Vec::new(*text.allocator()),
        place,
        lines,
    };
    if let Some(pending) = pending {
        append_edges(&mut explained, history, &pending)?;
    }
    append_sources(&mut explained, history)?;
    text.extend_from_slice(explained.text.as_slice())?;
    Ok(())
}

// Appends a line for each edge of the cycle by which the entry aborts a transaction.
fn append_edges(
    explained: &mut Explained<'_>,
    history: &IndexedHistory,
    pending: &Pending,
) -> Result<(), NoMemory> {
    for number in 0..MOST {
        if let Some(edge) = cycle_edge(history, explained.place, number, pending) {
            explained.append_edge(&edge)?;
        }
    }
    Ok(())
}

// Appends a line for each transaction that the entry aborts in cascade.
fn append_sources(explained: &mut Explained<'_>, history: &IndexedHistory) -> Result<(), NoMemory> {
    for number in 0..MOST {
        if let Some(source) = fall_source(history, explained.place, number) {
            explained.append_source(&source)?;
        }
    }
    Ok(())
}
