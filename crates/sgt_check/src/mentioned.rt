//! What a text on a history mentions: transactions and operations.
ghost use Rattle.std.specs.Prelude.{◌≡◌, ◌++◌, OnOk};
ghost use Rattle.sgt_check.specs.ReportText.{placed, transaction_of};
ghost use Rattle.sgt_check.specs.Mentions.{mentioned_text};

use sgt_format::{Spelled, append_number, append_numbered};
use sgt_model::NoMemory;
use sgt_notation::{History, append_operation};

/// What a text on a history mentions.
#[derive(Clone, Copy)]
pub(crate) enum Mentioned<'a> {
    /// The transaction.
    Transaction(u32),
    /// The operation at the position, and the position counted from 1.
    Placed(&'a History, usize),
    /// The transaction of the operation at the position, if there is a position.
    TransactionOf(&'a History, Option<usize>),
}

impl Spelled for Mentioned<'_> {
    ghost spelled = { mentioned_text };

    fn append_to(&self, text: &mut Vec<u8>) -> Result<(), NoMemory> {
        match self {
            Mentioned::Transaction(transaction) => Ok(append_number(text, *transaction)?),
            Mentioned::Placed(history, place) => append_placed(text, history, *place),
            Mentioned::TransactionOf(history, place) => append_transaction_of(
                text, history, *place,
            ),
        }
    }
}

/// Appends the operation at a position, and the position counted from 1.
fn append_placed(text: &mut Vec<u8>, history: &History, place: usize) -> Result<(), NoMemory>
    ensures { OnOk result (text.new.items ≡ text.old.items ++ placed history.now place) }
{
    let Some(operation) = history.operations.get(place) else {
        return Ok(());
    };
    append_operation(text, history, operation)?;
    append_numbered(text, b" (", place + 1)?;
    text.extend_from_slice(b")")?;
    Ok(())
}

/// Appends the transaction of the operation at a position, if there is a position.
fn append_transaction_of(
    text: &mut Vec<u8>,
    history: &History,
    place: Option<usize>,
) -> Result<(), NoMemory>
    ensures { OnOk result (text.new.items ≡ text.old.items ++ transaction_of history.now place) }
{
    let Some(place) = place else {
        return Ok(());
    };
    if let Some(operation) = history.operations.get(place) {
        append_number(text, operation.transaction)?;
    }
    Ok(())
}
