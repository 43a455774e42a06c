//! What codes mean, in words.

use crate::refusal::NAMES;
use sgt_model::NoMemory;
use std::alloc::Global;

/// What a code of a procedure means.
#[derive(Drop)]
struct Meaning {
    procedure: u16,
    code: u16,
    words: String,
}

/// What the codes of procedures mean, for a person: the codes of the program's five procedures, code 1000, and codes
/// that a person gave words.
#[derive(Drop)]
pub struct Words {
    added: Vec<Meaning>,
}

impl Words {
    /// The words of the program alone.
    pub fn new(alloc: Global) -> Self {
        Words {
            added: Vec::new(alloc),
        }
    }

    /// Gives words to a code of a procedure. They come before those of the program, and after those given before.
    ///
    /// # Errors
    ///
    /// `NoMemory` if an allocation failed.
    pub fn add(&mut self, procedure: u16, code: u16, words: String) -> Result<(), NoMemory> {
        self.added.push(Meaning {
            procedure,
            code,
            words,
        })?;
        Ok(())
    }

    /// The words that a person gave this code of this procedure, if one did.
    pub fn given(&self, procedure: u16, code: u16) -> Option<&str> {
        for meaning in self.added.iter() {
            if meaning.procedure == procedure && meaning.code == code {
                return Some(meaning.words.as_str());
            }
        }
        None
    }

    /// What the code of the procedure means, if that is known.
    pub(crate) fn of(&self, procedure: u16, code: u16) -> Option<&str> {
        match self.given(procedure, code) {
            Some(words) => Some(words),
            None => own_words(procedure, code),
        }
    }
}

/// What the program says of this code.
fn own_words(procedure: u16, code: u16) -> Option<&'static str> {
    if code == 1000 {
        return Some("a result is not a value, or a divisor is 0");
    }
    if usize::from(procedure) >= NAMES.len() {
        return None;
    }
    match code {
        1 => Some("the name is unknown"),
        2 => Some("the amount is negative"),
        3 => Some("the saving would be negative"),
        4 => Some("both names are the same"),
        5 => Some("there is no saving or no checking"),
        _ => None,
    }
}
