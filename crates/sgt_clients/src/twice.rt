//! Values that are appended twice to a key.

use crate::barriers::process_of;
use crate::clients::Clients;
use crate::fault::{ClientsFault, Position};
use crate::piece::entry_of;
use sgt_appends::Operation;
use sgt_model::NoMemory;
use sgt_notation::Shown;
use std::alloc::Global;
use std::collections::BTreeMap;

/// The fault of the first append of a value that its key has already.
pub(crate) fn twice_fault(alloc: Global, clients: &Clients) -> Result<ClientsFault, NoMemory> {
    let mut met = BTreeMap::new(alloc);
    for (number, transaction) in clients.transactions.iter().enumerate() {
        for operation in &transaction.operations {
            if let Operation::Append { key, value } = *operation {
                if let Some(first) = met.insert((key, value), number)? {
                    let key = shown_name(alloc, clients.keys.as_slice(), key)?;
                    return Ok(again_fault(clients, value.cast_signed(), key, first, number));
                }
            }
        }
    }
    Ok(ClientsFault::Undecided)
}

/// The fault of the second transaction, which appends the value to the key again after the first.
fn again_fault(
    clients: &Clients,
    value: i64,
    key: Shown,
    first: usize,
    second: usize,
) -> ClientsFault {
    let is_other = first != second;
    let from = position_of(clients, first);
    let to = position_of(clients, second);
    if is_other && is_unasked(clients, second) {
        ClientsFault::Unasked(to, value, key, from)
    } else if is_other && is_early(clients, first, second) {
        ClientsFault::Early(to, value, key, from)
    } else {
        ClientsFault::Twice(to, value, key, from)
    }
}

/// Whether the first is an end without an invocation, and the second one an invocation of its process.
fn is_early(clients: &Clients, first: usize, second: usize) -> bool {
    is_unasked(clients, first)
        && !is_unasked(clients, second)
        && process_of(clients, first) == process_of(clients, second)
}

/// Whether others have an invocation, and the transaction has none.
fn is_unasked(clients: &Clients, number: usize) -> bool {
    clients.invoked
        && clients
            .alone
            .iter()
            .any(|alone| alone.transaction == number)
}

/// The position of the entry at which the transaction ended, or else of the one at which it began.
fn position_of(clients: &Clients, number: usize) -> Position {
    let entry = entry_of(clients, number);
    if clients.by_line {
        Position::Line(entry)
    } else {
        Position::Entry(entry)
    }
}

/// The text of the key or process with this number, among these.
pub(crate) fn shown_name(alloc: Global, names: &[Vec<u8>], number: u32) -> Result<Shown, NoMemory> {
    Shown::of(
        alloc,
        names
            .get(number as usize)
            .map_or(b"", |name| name.as_slice()),
    )
}
