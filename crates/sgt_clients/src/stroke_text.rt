//! The operations of a picture, in the form of a textbook's history.

use crate::clients::Clients;
use crate::evidence::{Spoken, operation_at};
use crate::piece::Piece;
use crate::scene::Stroke;
use sgt_appends::Status;
use sgt_classes::Action;
use sgt_format::append_filled;
use sgt_model::NoMemory;
use sgt_notation::History;
use std::alloc::Global;

/// The history of these operations, in order. An item is a key with the values that were read or appended.
pub(crate) fn history_of(
    alloc: Global,
    clients: &Clients,
    strokes: &[Stroke],
) -> Result<History, NoMemory> {
    let mut history = History {
        operations: Vec::new(alloc),
        items: Vec::new(alloc),
    };
    for stroke in strokes {
        add_stroke(alloc, &mut history, clients, stroke)?;
    }
    Ok(history)
}

/// Adds the operation. A transaction with an unknown end is drawn without an end.
fn add_stroke(
    alloc: Global,
    history: &mut History,
    clients: &Clients,
    stroke: &Stroke,
) -> Result<(), NoMemory> {
    let item = u32::try_from(history.items.len()).unwrap_or(u32::MAX);
    let Some(action) = action_of(clients, stroke, item) else {
        return Ok(());
    };
    if matches!(&action, Action::Read(_) | Action::Write(_)) {
        history.items.push(label_of(alloc, clients, stroke)?)?;
    }
    let transaction = u32::try_from(stroke.transaction.saturating_add(1)).unwrap_or(u32::MAX);
    history.operations.push(sgt_classes::Operation {
        transaction,
        action,
    })?;
    Ok(())
}

/// What is drawn of the operation, on the item.
fn action_of(clients: &Clients, stroke: &Stroke, item: u32) -> Option<Action> {
    let one = clients.transactions.get(stroke.transaction)?;
    match one.operations.get(stroke.position) {
        Some(sgt_appends::Operation::Read { .. }) => Some(Action::Read(item)),
        Some(sgt_appends::Operation::Append { .. }) => Some(Action::Write(item)),
        None => match one.status {
            Status::Committed => Some(Action::Commit),
            Status::Aborted => Some(Action::Abort),
            Status::Unknown => None,
        },
    }
}

/// The key, and the values that were read or appended.
fn label_of(alloc: Global, clients: &Clients, stroke: &Stroke) -> Result<Vec<u8>, NoMemory> {
    let mut label = Vec::new(alloc);
    match operation_at(clients, stroke.transaction, stroke.position) {
        Some(sgt_appends::Operation::Append { key, value }) => append_filled(
            &mut label,
            b"#: +#",
            &[Piece::Key(clients, *key), Piece::Value(*value)],
        )?,
        Some(sgt_appends::Operation::Read { key, values }) => append_filled(
            &mut label,
            b"#: #",
            &[
                Piece::Key(clients, *key),
                Piece::Values(values.as_slice(), Spoken::of_one(None)),
            ],
        )?,
        None => (),
    }
    Ok(label)
}
