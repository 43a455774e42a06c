//! The parts of the lines of a report, and of its objects.

ghost use Rattle.sgt_clients.specs.Pieces.{part_text};

use crate::clients::Clients;
use crate::piece::{append_placed, append_transaction};
use crate::witness_text::{append_fault, append_ground, append_partial, append_unseen};
use sgt_appends::Fault;
use sgt_format::{Spelled, append_number};
use sgt_levels::{Partial, Passage, Unseen};
use sgt_model::NoMemory;

/// A part of a line, or of an object of JSON.
#[derive(Clone, Copy)]
pub(crate) enum Part<'a> {
    /// These words.
    Words(&'a [u8]),
    /// The number.
    Number(usize),
    /// The transaction: `t3`.
    Transaction(usize),
    /// The transaction and its entry: `t3 (line 7)`.
    Placed(&'a Clients, usize),
    /// The read at the position of the reader, and what is wrong with it.
    Fault(&'a Clients, usize, usize, &'a Fault),
    /// The words of a partial read.
    Partial(&'a Clients, &'a Partial),
    /// Which read would show the order of two appends.
    Unseen(&'a Clients, &'a Unseen),
    /// Why the first transaction of the step comes before the second.
    Why(&'a Clients, Passage),
}

impl Spelled for Part<'_> {
    ghost spelled = { part_text };

    fn append_to(&self, text: &mut Vec<u8>) -> Result<(), NoMemory> {
        match self {
            Part::Words(words) => Ok(text.extend_from_slice(words)?),
            Part::Number(number) => Ok(append_number(text, *number)?),
            Part::Transaction(number) => append_transaction(text, *number),
            Part::Placed(clients, number) => append_placed(text, clients, *number),
            Part::Fault(clients, reader, read, fault) => append_fault(
                text, clients, *reader, *read, fault,
            ),
            Part::Partial(clients, partial) => append_partial(text, clients, partial),
            Part::Unseen(clients, it) => append_unseen(text, clients, it),
            Part::Why(clients, step) => append_ground(text, clients, step.from, step.to, step.why),
        }
    }
}
