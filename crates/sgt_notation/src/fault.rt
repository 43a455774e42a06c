//! The errors that the text of a history can have.
ghost use Rattle.std.specs.Prelude.{◌≡◌, map, take, IfOk};
ghost use Rattle.sgt_notation.specs.declared.fault.NotationFault.TheVariants as fault;
ghost use Rattle.sgt_notation.specs.Readings.{shown_byte};

use sgt_model::NoMemory;
use std::alloc::Global;
use std::fmt::{self, Display, Formatter};
use std::str;
use thiserror::Error;

/// An error of a text. Lines are numbered from 1.
#[derive(Debug, Drop, Error)]
pub enum NotationFault {
    /// A word of the line spells no operation.
    #[error("line {0}: no operation: {1}")]
    NoOperation(u64, Shown),
    /// The line has an operation of this transaction, which has ended.
    #[error("line {0}: transaction {1} has ended")]
    Ended(u64, u32),
    /// An allocation failed.
    #[error("no memory")]
    NoMemory,
}

impl From<NoMemory> for NotationFault {
    ghost from_gives = { λ _ f. f ≡ fault.NoMemory };

    fn from(_: NoMemory) -> Self {
        NotationFault::NoMemory
    }
}

/// How many bytes of a word are shown.
const LONGEST_SHOWN: usize = 32;

/// The start of a word that spells no operation, for a message: its first 32 bytes. Each byte that is not printable
/// ASCII is shown as `?`.
#[derive(Debug, Drop, PartialEq, Eq)]
pub struct Shown {
    pub text: Vec<u8>,
}

impl Shown {
    /// The start of the word.
    ///
    /// # Errors
    ///
    /// `NoMemory` if an allocation failed.
    pub fn of(alloc: Global, word: &[u8]) -> Result<Self, NoMemory>
        ensures { IfOk result (λ s. s.text.items ≡ map shown_byte (take 32 word.now)) }
    {
        let mut text = Vec::new(alloc);
        for byte in &word[..LONGEST_SHOWN.min(word.len())] {
            let printable = (32..=126).contains(byte);
            text.push(if printable { *byte } else { b'?' })?;
        }
        Ok(Shown { text })
    }
}

impl Display for Shown {
    fn fmt<W: fmt::Write>(&self, f: &mut Formatter<W>) -> fmt::Result {
        match str::from_utf8(self.text.as_slice()) {
            Ok(text) => f.write_str(text),
            Err(_) => Ok(()),
        }
    }
}
