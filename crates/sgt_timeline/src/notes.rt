//! The words below a picture.
ghost use Rattle.std.specs.Prelude.{◌≡◌, ◌≤◌, length};

use crate::drawn::{Drawn, Extent};
use crate::picture::Note;
use sgt_format::append_numbered;
use sgt_model::NoMemory;
use std::alloc::Global;

/// The most bytes of a line.
const WIDTH: usize = 92;

/// The most lines of a caption.
const MOST_LINES: usize = 40;

/// The height of a line.
const LINE: usize = 19;

/// The lines below a picture, from the base of the first: the caption, and what was left out of the picture.
pub(crate) fn notes_below(
    alloc: Global,
    caption: &[u8],
    drawn: &Drawn,
    operations: usize,
    base: usize,
) -> Result<Vec<Note>, NoMemory> {
    let mut notes = Vec::new(alloc);
    add_words(alloc, &mut notes, caption, base)?;
    let left_out = left_out(alloc, drawn, operations)?;
    if !left_out.is_empty() {
        add_line(alloc, &mut notes, left_out.as_slice(), base)?;
    }
    Ok(notes)
}

/// Adds the words, in lines. Of more lines than may be the rest is left out.
fn add_words(
    alloc: Global,
    notes: &mut Vec<Note>,
    words: &[u8],
    base: usize,
) -> Result<(), NoMemory> {
    let mut start = 0;
    while start < words.len() {
        let end = line_end(words, start);
        if notes.len() < MOST_LINES {
            add_line(alloc, notes, &words[start..end], base)?;
        } else if notes.len() == MOST_LINES {
            add_line(alloc, notes, b"..", base)?;
        }
        start = next_start(words, end).max(start + 1);
    }
    Ok(())
}

/// Adds a line.
fn add_line(
    alloc: Global,
    notes: &mut Vec<Note>,
    line: &[u8],
    base: usize,
) -> Result<(), NoMemory> {
    let mut words = Vec::new(alloc);
    words.extend_from_slice(line)?;
    let base = base.saturating_add(notes.len().saturating_mul(LINE));
    notes.push(Note { words, base })?;
    Ok(())
}

/// Where the line from the start ends: before the end of a line, or before the last space that leaves it short enough.
fn line_end(words: &[u8], start: usize) -> usize
    requires { start ≤ length words.now }
    ensures from { start ≤ result }
    ensures to { result ≤ length words.now }
{
    let most = words.len().min(start.saturating_add(WIDTH));
    let mut space = most;
    for place in start..most {
        if words[place] == b'\n' {
            return place;
        }
        if words[place] == b' ' {
            space = place;
        }
    }
    if most == words.len() || words[most] == b' ' || words[most] == b'\n' {
        most
    } else {
        space
    }
}

/// Where the next line starts after one that ends here.
fn next_start(words: &[u8], end: usize) -> usize {
    match words.get(end) {
        Some(b' ' | b'\n') => end.saturating_add(1),
        _ => end,
    }
}

/// What was left out of a picture, in words.
fn left_out(alloc: Global, drawn: &Drawn, operations: usize) -> Result<Vec<u8>, NoMemory> {
    let mut words = Vec::new(alloc);
    let what: &[u8] = match drawn.extent {
        Extent::Whole => return Ok(words),
        Extent::First => b" operations: the first ones",
        Extent::Transactions => b" operations: those of the transactions that stand out",
        Extent::Pairs => b" operations: those that stand out",
    };
    append_numbered(&mut words, b"drawn: ", drawn.places.len())?;
    append_numbered(&mut words, b" of ", operations)?;
    words.extend_from_slice(what)?;
    Ok(words)
}
