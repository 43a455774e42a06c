//! What is said about the error that ends a run.

use crate::ended_error::late_operation;
use crate::input::is_folder;
use crate::operation_error::{WordError, first_word, index_of, word_error};
use sgt_check::CheckFault;
use sgt_clients::{ClientsFault, Flaw, Hint};
use sgt_input::{Fault, MOST_BYTES, Source};
use sgt_line_errors::{Command, Remembering, diagnose};
use sgt_notation::{NotationFault, Shown};
use std::alloc::Global;
use std::rt::Files;
use thiserror::Error;

/// What is said about an error.
#[derive(Debug, Drop, Error)]
pub(crate) enum Detail {
    /// Nobody reads standard output any more. Nothing is said, and the error is not reported either.
    #[error("")]
    Unread,
    /// Nothing.
    #[error("")]
    Nothing,
    /// A hint, on the line of the error. All else is a second line.
    #[error("{0}")]
    Hint(&'static str),
    /// These words.
    #[error("{0}")]
    Words(&'static str),
    /// The input has more bytes than this, and how it can have more.
    #[error("an input has at most {0} bytes: {1}split it, and begin the next part with the record lines of the one before (--records, --json)")]
    TooLong(usize, &'static str),
    /// These words, about what stands at this column, in bytes from 1.
    #[error("column {0}: {1}")]
    At(usize, &'static str),
    /// At this column stands the character of this number, which is not ASCII.
    #[error("column {0}: U+{1:04X} is not ASCII")]
    Foreign(usize, u32),
    /// The operation at this column comes after the end of its transaction: its letter, its number, and its position.
    #[error("column {0}: {1} comes after {2}{3} ({4}); {ends}", ends = ENDS_ARE_LAST)]
    Late(usize, Shown, &'static str, u32, usize),
    /// This text.
    #[error("{0}")]
    Text(String),
}

impl From<Option<String>> for Detail {
    fn from(text: Option<String>) -> Self {
        text.map_or(Detail::Nothing, Detail::Text)
    }
}

/// What holds of the end of a transaction.
const ENDS_ARE_LAST: &str = "the commit or abort of a transaction is its last operation";

/// The hint for what clients saw that is read as text.
const IS_JSON: &str = "; JSON and EDN are read with --model list-append";

/// The hint for a script or a bank that is read as a history.
const IS_SCRIPT: &str =
    "; sgt script --history or sgt bank --history writes the history of such an input";

/// The hint for text that is read as what clients saw.
const IS_TEXT: &str = "; text like r1[x] is read without --model list-append";

/// The hint for what is no JSON and starts with a comment.
const IS_COMMENTED: &str =
    "; JSON has no comments, and text like r1[x] is read without --model list-append";

/// What line 1 of a script or a bank has.
const LIMITS: &[u8] = b"\"limits\"";

/// What is said about an input with more bytes than this.
pub(crate) fn too_long(most: usize) -> Detail {
    let more = if most < MOST_BYTES {
        "take more with --most, or "
    } else {
        ""
    };
    Detail::TooLong(most, more)
}

/// What is said about a failed read of a file, or of standard input.
pub(crate) fn unread_detail<R: Files>(rt: &R, file: Option<&str>) -> Detail {
    if file.is_none() && is_folder(rt) {
        Detail::Words("standard input is a directory")
    } else {
        Detail::Nothing
    }
}

/// What is said about a fault of a script or a bank, which is about this line, if it is about one.
pub(crate) fn fault_detail(
    alloc: Global,
    command: Command,
    line: Option<&[u8]>,
    fault: &Fault,
) -> Detail {
    match fault {
        Fault::TooManyJobs => Detail::Words(
            "a bank has at most 1000000 jobs: split it, and begin the next part with the record lines of the one before (--records, --json)",
        ),
        Fault::Spawn => Detail::Words(
            "each worker is a thread, and the system did not start so many: take fewer with --workers",
        ),
        _ => Detail::from(explained(alloc, command, line, fault)),
    }
}

/// What is wrong with the line that a fault is about. None if the fault's own line says all, or if memory ran out.
pub(crate) fn explained(
    alloc: Global,
    command: Command,
    line: Option<&[u8]>,
    fault: &Fault,
) -> Option<String> {
    diagnose(alloc, fault, command, line?).ok()?
}

/// What is said about the fault of a check that read from this source.
pub(crate) fn check_detail<S: Source>(
    alloc: Global,
    source: &Remembering<S>,
    fault: &CheckFault,
) -> Detail {
    match fault {
        CheckFault::NoOperations => Detail::Words(
            "a history has operations: r1[x], w1[x], c1 or a1",
        ),
        CheckFault::TooLong => Detail::Words(LONG_HISTORY),
        CheckFault::Notation(NotationFault::NoOperation(line, word)) => {
            operation_detail(source, *line, word)
        }
        CheckFault::Notation(NotationFault::Ended(line, transaction)) => {
            late_detail(alloc, source, *line, *transaction)
        }
        _ => Detail::Nothing,
    }
}

/// What is said about the fault of a check of what clients saw, which read from this source.
pub(crate) fn clients_detail<S: Source>(
    alloc: Global,
    source: &Remembering<S>,
    fault: &ClientsFault,
) -> Detail {
    match fault {
        ClientsFault::Hinted(_, _, _, Hint::History) => Detail::Hint(IS_TEXT),
        ClientsFault::Hinted(_, _, _, hint) => Detail::from(format!(in alloc; "{hint}").ok()),
        ClientsFault::Entry(_, 1, Flaw::NoObject) if matches!(source.line(1), Some([b'#', ..])) => {
            Detail::Hint(IS_COMMENTED)
        }
        ClientsFault::Entry(line, _, Flaw::NotJson(column)) => match source.line(*line) {
            Some(line) => not_json_detail(alloc, line, *column),
            None => Detail::Nothing,
        },
        _ => words_about(fault),
    }
}

/// What is said about a line of what clients saw that is not JSON from this column on.
fn not_json_detail(alloc: Global, line: &[u8], column: usize) -> Detail {
    if let Some(words) = json_hint(line, column) {
        return Detail::Words(words);
    }
    Detail::from(bracket_hint(alloc, line, column))
}

/// What is wrong with the brackets of a line that is an object, and not JSON from this column on.
fn bracket_hint(alloc: Global, line: &[u8], column: usize) -> Option<String> {
    let text = explained(alloc, Command::Script, Some(line), &Fault::NotJson(2))?;
    let place = format!(in alloc; "column {column}").ok()?;
    let (before, words) = text.as_str().split_once(": not JSON from here: ")?;
    if !line.trim_ascii_start().starts_with(b"{") || before != place.as_str() {
        return None;
    }
    String::from_str(alloc, words).ok()
}

/// What is said about an error of what clients saw, whatever its input is.
fn words_about(fault: &ClientsFault) -> Detail {
    Detail::Words(match fault {
        ClientsFault::Check(CheckFault::TooLong) => LONG_HISTORY,
        ClientsFault::OnlySkipped(_) => "an entry of a transaction has \"f\":\"txn\", or no f",
        ClientsFault::Twice(..) => APPENDED_ONCE,
        ClientsFault::Early(..) => INVOKED_FIRST,
        ClientsFault::Entry(_, _, Flaw::OtherOperations(..)) => SAME_OPERATIONS,
        ClientsFault::NoOperations
        | ClientsFault::Entry(_, _, Flaw::NoObject | Flaw::Value | Flaw::Operation(_)) => AN_ENTRY,
        _ => return Detail::Nothing,
    })
}

/// How long a history may be.
const LONG_HISTORY: &str = "a history has at most 268435456 bytes";

/// What holds of the values that clients append.
const APPENDED_ONCE: &str =
    "each append to a key has a value of its own, as from a counter: else a read does not say which one it saw";

/// What holds of the order of the entries of a process.
const INVOKED_FIRST: &str =
    "the first of them is an end without an invocation, and the second one the invoke of its process: an invoke stands before its end";

/// What holds of the end of a transaction of a client.
const SAME_OPERATIONS: &str =
    "an end has the operations of its invoke, in their order, and in place of null what the reads saw";

/// How an entry of what clients saw is written.
const AN_ENTRY: &str =
    "an entry is an object, and its value a list of operations, as {\"type\":\"ok\",\"process\":0,\"value\":[[\"append\",1,2],[\"r\",1,[2]]]}";

/// What is said about the byte at this column, from which on a line is not JSON, if it is plain what was meant.
fn json_hint(line: &[u8], column: usize) -> Option<&'static str> {
    let index = column.saturating_sub(1);
    let before = line.get(..index)?.trim_ascii_end();
    let rest = line.get(index..)?;
    if is_no_number(rest) {
        return Some("JSON has no NaN and no Infinity");
    }
    match line.get(index)? {
        b'\'' => Some("a text stands in double quotes in JSON"),
        b'N' | b'T' | b'F' => Some("JSON has null, true and false, in small letters"),
        b'a'..=b'z' if is_torn(rest) => Some(
            "the line ends inside null, true or false, or goes on with another entry: was it cut off?",
        ),
        b'a'..=b'z' => Some("a word stands in double quotes in JSON, but for null, true and false"),
        b'(' => Some("a list stands in square brackets in JSON"),
        b'/' | b'#' => Some("JSON has no comments"),
        b'.' | b'+' | b'-' | b'0' if is_odd_number(rest) => Some(
            "a number is written as 10 or -5 in JSON, without a plus, a leading zero or other signs",
        ),
        b':' if before.ends_with(b"{") => Some(
            "this entry is EDN, and the first one is JSON: an input has one of them",
        ),
        b']' | b'}' if before.ends_with(b",") => Some(
            "an item is missing after the comma, or the comma is too many: JSON has none before a bracket that closes",
        ),
        _ => None,
    }
}

/// Whether these bytes start with what some programs write for a number that is none.
fn is_no_number(bytes: &[u8]) -> bool {
    bytes.starts_with(b"NaN") || bytes.starts_with(b"Infinity") || bytes.starts_with(b"-Infinity")
}

/// Whether these bytes, which start with a dot, a sign or a zero, start with a number that JSON writes otherwise.
fn is_odd_number(bytes: &[u8]) -> bool {
    match bytes {
        [b'.' | b'+', ..] => true,
        [b'0', next, ..] => next.is_ascii_alphanumeric(),
        [b'-', b'0', next, ..] => next.is_ascii_digit(),
        [b'-', next, ..] => next.is_ascii_alphabetic() || *next == b'.',
        _ => false,
    }
}

/// Whether these bytes start with a part of a word of JSON.
fn is_torn(bytes: &[u8]) -> bool {
    let word = letters_of(bytes);
    b"null".starts_with(word) || b"true".starts_with(word) || b"false".starts_with(word)
}

/// The small letters with which these bytes start.
fn letters_of(bytes: &[u8]) -> &[u8] {
    match bytes.iter().position(|byte| !byte.is_ascii_lowercase()) {
        Some(at) => &bytes[..at],
        None => bytes,
    }
}

/// What is said about a word of this line that spells no operation.
fn operation_detail<S: Source>(source: &Remembering<S>, line: u64, word: &Shown) -> Detail {
    let bytes = source.line(line).unwrap_or(b"");
    if line == 1 && matches!(word.text.as_slice(), [b'{' | b'[', ..]) {
        let is_script = bytes.windows(8).any(|part| part == LIMITS);
        return Detail::Hint(if is_script { IS_SCRIPT } else { IS_JSON });
    }
    match index_of(bytes, word) {
        Some(index) => match word_error(first_word(bytes.get(index..).unwrap_or(b""))) {
            WordError::Words(at, words) => Detail::At(column_of(index, at), words),
            WordError::Foreign(at, code) => Detail::Foreign(column_of(index, at), code),
        },
        None => match word_error(word.text.as_slice()) {
            WordError::Words(_, words) => Detail::Words(words),
            WordError::Foreign(_, _) => Detail::Nothing,
        },
    }
}

/// The column of the byte at this index of a word, which stands at that index of its line.
fn column_of(index: usize, at: usize) -> usize {
    index.saturating_add(at).saturating_add(1)
}

/// What is said about an operation on this line after the end of this transaction.
fn late_detail<S: Source>(
    alloc: Global,
    source: &Remembering<S>,
    line: u64,
    transaction: u32,
) -> Detail {
    let Some(late) = late_operation(source, line, transaction) else {
        return Detail::Words(ENDS_ARE_LAST);
    };
    match Shown::of(alloc, late.word) {
        Ok(word) => Detail::Late(
            late.column,
            word,
            late.end.letter,
            transaction,
            late.end.place,
        ),
        Err(_) => Detail::Words(ENDS_ARE_LAST),
    }
}
