//! Where an operation stands that comes after the end of its transaction.

use crate::operation_error::{separates_words, transaction_of};
use sgt_input::Source;
use sgt_line_errors::Remembering;

/// The most lines that are searched.
const MOST_LINES: u64 = 2000;

/// An operation after the end of its transaction.
#[derive(Clone, Copy)]
pub(crate) struct LateOperation<'a> {
    /// The column of its word, in bytes from 1.
    pub column: usize,
    pub word: &'a [u8],
    pub end: End,
}

/// The end of a transaction: its letter, and its position among the operations from 1.
#[derive(Clone, Copy)]
pub(crate) struct End {
    pub letter: &'static str,
    pub place: usize,
}

/// What a search has passed.
#[derive(Clone, Copy)]
struct Search {
    transaction: u32,
    /// How many operations.
    count: usize,
    end: Option<End>,
}

/// The operation on this line that comes after the end of this transaction, if all lines up to it are stored.
pub(crate) fn late_operation<S: Source>(
    source: &Remembering<S>,
    line: u64,
    transaction: u32,
) -> Option<LateOperation<'_>> {
    if line > MOST_LINES {
        return None;
    }
    let mut search = Search {
        transaction,
        count: 0,
        end: None,
    };
    for number in 1..line {
        if search.late_in(source.line(number)?).is_some() {
            return None;
        }
    }
    search.late_in(source.line(line)?)
}

impl Search {
    /// Passes a line, up to an operation after the end of the transaction.
    fn late_in<'a>(&mut self, line: &'a [u8]) -> Option<LateOperation<'a>> {
        let text = line.split(|byte| *byte == b'#').next()?;
        let mut column = 1usize;
        for word in text.split(|byte| separates_words(*byte)) {
            if !word.is_empty() {
                if let Some(end) = self.pass(word) {
                    return Some(LateOperation { column, word, end });
                }
            }
            column = column.saturating_add(word.len()).saturating_add(1);
        }
        None
    }

    /// Passes an operation. If it comes after the end of its transaction, that is returned.
    fn pass(&mut self, word: &[u8]) -> Option<End> {
        self.count = self.count.saturating_add(1);
        if transaction_of(word) != u64::from(self.transaction) {
            return None;
        }
        if self.end.is_some() {
            return self.end;
        }
        let letter = match word.first()? {
            b'c' => "c",
            b'a' => "a",
            _ => return None,
        };
        self.end = Some(End {
            letter,
            place: self.count,
        });
        None
    }
}
