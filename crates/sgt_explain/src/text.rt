//! The lines of text of edges and of cascading aborts.

use crate::edge::{CycleEdge, Earlier};
use crate::source::SourceRead;
use itoa::{Buffer, Integer};
use sgt_model::{Key, Kind};
use std::alloc::AllocError;

/// The lines that explain the entry at a position.
#[derive(Drop)]
pub(crate) struct Explained<'a> {
    /// Their text.
    pub text: Vec<u8>,
    /// The position of the entry.
    pub place: usize,
    /// The numbers of the lines of entries, as for `append_explanation`.
    pub lines: &'a [u64],
}

impl Explained<'_> {
    /// Appends the line of an edge of the cycle by which the entry aborts a transaction. If its later access was about
    /// to be made, the line reads `line 12: 1 would write 2/101, which 0 read at line 8 and wrote at line 10`. Else it
    /// reads `line 12: 0 wrote 2/102 at line 10, which 1 read at line 7`. The line of the abort comes first. Of a removal
    /// it says `would remove` and `removed`.
    pub fn append_edge(&mut self, edge: &CycleEdge) -> Result<(), AllocError> {
        self.append_place(b"", self.place)?;
        self.append_accesses(edge)
    }

    /// Appends the line of an edge because of which the entry's commit waits, as
    /// `line 12: 1 waits for 0: 1 read 2/101 at line 9, which 0 wrote at line 7`.
    pub fn append_wait(&mut self, edge: &CycleEdge) -> Result<(), AllocError> {
        self.append_place(b"", self.place)?;
        append_number(&mut self.text, b": ", edge.to.0)?;
        append_number(&mut self.text, b" waits for ", edge.from.0)?;
        self.append_accesses(edge)
    }

    /// Appends the line of a read of an uncommitted value on which the entry's code may rest, as
    /// `line 12: the code may rest on an uncommitted value: 1 read 2/101 of 0 at line 9`.
    pub fn append_unsettled(&mut self, read: &SourceRead) -> Result<(), AllocError> {
        self.append_place(b"", self.place)?;
        self.text
            .extend_from_slice(b": the code may rest on an uncommitted value")?;
        self.append_read(read)
    }

    /// Appends the line of a transaction that the entry aborts in cascade: its read from one that is aborted there, as
    /// `line 12: 3 read 2/101 of 1 at line 9`. The line of the abort comes first.
    pub fn append_source(&mut self, source: &SourceRead) -> Result<(), AllocError> {
        self.append_place(b"", self.place)?;
        self.append_read(source)
    }

    // Appends both accesses of an edge, and ends the line.
    fn append_accesses(&mut self, edge: &CycleEdge) -> Result<(), AllocError> {
        append_number(&mut self.text, b": ", edge.to.0)?;
        self.append_later(edge)?;
        append_number(&mut self.text, b", which ", edge.from.0)?;
        self.append_earlier(&edge.earlier)?;
        self.text.extend_from_slice(b"\n")
    }

    // Appends a read of another transaction's value, and ends the line.
    fn append_read(&mut self, read: &SourceRead) -> Result<(), AllocError> {
        append_number(&mut self.text, b": ", read.reader.0)?;
        append_key(&mut self.text, b" read ", read.key)?;
        append_number(&mut self.text, b" of ", read.source.0)?;
        self.append_place(b" at ", read.place)?;
        self.text.extend_from_slice(b"\n")
    }

    // Appends what the later access of an edge does, or would have done.
    fn append_later(&mut self, edge: &CycleEdge) -> Result<(), AllocError> {
        let Some(place) = edge.place else {
            return append_key(&mut self.text, planned_words(edge), edge.key);
        };
        append_key(&mut self.text, made_words(edge), edge.key)?;
        self.append_place(b" at ", place)
    }

    // Appends the earlier accesses of an edge.
    fn append_earlier(&mut self, earlier: &Earlier) -> Result<(), AllocError> {
        if let Some(looked) = earlier.looked {
            self.append_place(b" read at ", looked)?;
        }
        let Some(stored) = earlier.stored else {
            return Ok(());
        };
        if earlier.looked.is_some() {
            self.text.extend_from_slice(b" and")?;
        }
        self.append_place(stored_words(earlier), stored)
    }

    // Appends words and the line of the entry at a position.
    fn append_place(&mut self, words: &[u8], place: usize) -> Result<(), AllocError> {
        self.text.extend_from_slice(words)?;
        match self.lines.get(place) {
            Some(line) => append_number(&mut self.text, b"line ", *line),
            None => append_number(&mut self.text, b"entry ", place as u64),
        }
    }
}

// What the later access of an edge did.
fn made_words(edge: &CycleEdge) -> &'static [u8] {
    match (edge.kind, edge.removes) {
        (Kind::Look, _) => b" read ",
        (Kind::Store, true) => b" removed ",
        (Kind::Store, false) => b" wrote ",
    }
}

// What the later access of an edge would have done.
fn planned_words(edge: &CycleEdge) -> &'static [u8] {
    match (edge.kind, edge.removes) {
        (Kind::Look, _) => b" would read ",
        (Kind::Store, true) => b" would remove ",
        (Kind::Store, false) => b" would write ",
    }
}

// What the earlier write of an edge did.
fn stored_words(earlier: &Earlier) -> &'static [u8] {
    if earlier.removed {
        b" removed at "
    } else {
        b" wrote at "
    }
}

// Appends words and a key.
fn append_key(text: &mut Vec<u8>, words: &[u8], key: Key) -> Result<(), AllocError> {
    append_number(text, words, key.table())?;
    append_number(text, b"/", key.id())
}

// Appends words and a number.
pub(crate) fn append_number<I: Integer>(
    text: &mut Vec<u8>,
    words: &[u8],
    number: I,
) -> Result<(), AllocError> {
    text.extend_from_slice(words)?;
    text.extend_from_slice(Buffer::new().format(number).as_bytes())
}
