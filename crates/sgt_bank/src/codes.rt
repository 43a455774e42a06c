//! How many jobs aborted with each code.

use sgt_explain::{Words, append_code_of};
use sgt_format::append_numbered;
use sgt_model::NoMemory;

/// A code with which a procedure aborted.
#[derive(Clone, Copy, PartialEq, Eq)]
pub(crate) struct Coded {
    pub procedure: u16,
    pub code: u16,
}

impl Coded {
    // Its place in an order by procedure and code.
    fn place(self) -> u64 {
        u64::from(self.procedure)
            .saturating_mul(65_536)
            .saturating_add(u64::from(self.code))
    }
}

/// Appends a line for each code, by procedure and code: how many jobs aborted with it. An example is
/// `code 3 (the saving would be negative) of TransactSaving: 2 jobs`. The list has an item for each job, and is sorted.
///
/// `NoMemory` if an allocation failed.
pub(crate) fn append_codes(
    text: &mut Vec<u8>,
    words: &Words,
    codes: &mut Vec<Coded>,
) -> Result<(), NoMemory> {
    codes.sort_by_key(|coded| coded.place())?;
    let mut jobs = 0usize;
    for index in 0..codes.len() {
        jobs = jobs.saturating_add(1);
        let coded = codes[index];
        if codes.get(index.saturating_add(1)).copied() != Some(coded) {
            append_code_of(text, words, coded.procedure, coded.code)?;
            append_numbered(text, b": ", jobs)?;
            text.extend_from_slice(if jobs == 1 { b" job\n" } else { b" jobs\n" })?;
            jobs = 0;
        }
    }
    Ok(())
}
