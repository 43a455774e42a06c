//! What a second line says about a wrong entry.
use sgt_notation::Shown;
use thiserror::Error;

/// What a second line says about a wrong entry. Lines, entries and columns are counted from 1.
#[derive(Debug, Drop, Error)]
pub enum Hint {
    /// The first entry is not JSON from its first byte on, and may be text.
    #[error("text like r1[x] is read without --model list-append")]
    History,
    /// The input begins in the middle of an entry.
    #[error("the input begins inside an entry: was its head cut off? Leave out the part before the first whole entry")]
    Head,
    #[error("this is a script: sgt script --history writes its history, for sgt check")]
    Script,
    /// The line ends inside this entry, and another one begins in the next line that is not empty.
    #[error("the line ends inside entry {0}, and line {1} begins another one: was it cut off?")]
    Line(usize, u64),
    /// The input ends inside this entry, which begins in this line.
    #[error("the input ends inside entry {0}, which begins in line {1}: if its recorder died, leave this entry out")]
    Input(usize, u64),
    /// Another entry begins in this column of the line, inside the entry of this number.
    #[error("another entry begins in column {1}, inside entry {0}: was the line cut off before it?")]
    Glued(usize, usize),
    /// The line ends inside a text, which begins in this column.
    #[error("the line ends inside the text that begins in column {0}: was it cut off?")]
    Text(usize),
    /// This bracket closes another one than that of this line and column.
    #[error("{0} stands here, and {1} of line {2}, column {3} is not closed")]
    Mismatch(&'static str, &'static str, u64, usize),
    #[error("{0} stands here, and nothing is open that it closes")]
    Stray(&'static str),
    #[error("a byte order mark: save the input without it")]
    Mark,
    #[error("a character that is not ASCII")]
    Foreign,
    #[error("#_ is not read: leave out what it discards")]
    Discard,
    #[error("{0} is missing")]
    Missing(&'static str),
    /// The part that is wrong.
    #[error("found {0}")]
    Found(Shown),
    /// The part of an entry in JSON that is not what stands there.
    #[error("found {0}: an entry is an object, and its value a list of operations, as {{\"type\":\"ok\",\"process\":0,\"value\":[[\"append\",1,2],[\"r\",1,[2]]]}}")]
    FoundInEntry(Shown),
    #[error("an entry is a map, and its value a vector of operations, as {{:type :ok, :process 0, :value [[:append 1 2] [:r 1 [2]]]}}")]
    EdnEntry,
    #[error("EDN has nil, not null or None: a read whose list is not known yet, or is empty, may have it")]
    Nil,
    #[error("a map ends here after a key without a value")]
    Pair,
    #[error("this entry is JSON, and the first one is EDN: an input has one of them")]
    JsonEntry,
    #[error("a recorder that starts again takes new processes, or first writes an info for each that it left")]
    Restart,
}
