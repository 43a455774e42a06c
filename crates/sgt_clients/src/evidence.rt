//! The operations that a witness names.

ghost use Rattle.std.specs.Prelude.{◌≡◌, ◌==◌, option_map, false};
ghost use Rattle.std.specs.Option.{option_map_or};
ghost use Rattle.sgt_clients.specs.ReportText.{operation_at, value_of, of_one, of_two, is_spoken, parting, values_of};
ghost use Rattle.sgt_clients.specs.Evidence.{put_of, seen_of};

use crate::clients::Clients;
use sgt_appends::Operation;

/// An append: its key and its value.
#[derive(Clone, Copy)]
pub(crate) struct Put {
    pub key: u32,
    pub value: u64,
}

/// A read: its key, and the values that it saw.
#[derive(Clone, Copy)]
pub(crate) struct Seen<'a> {
    pub key: u32,
    pub values: &'a [u64],
}

/// Up to two values that a text speaks of.
#[derive(Clone, Copy)]
pub(crate) struct Spoken {
    pub one: Option<u64>,
    pub other: Option<u64>,
}

impl Spoken {
    /// This value, or none.
    pub fn of_one(value: Option<u64>) -> Self
        ensures { result ≡ of_one value }
    {
        Spoken {
            one: value,
            other: None,
        }
    }

    /// These values.
    pub fn of_two(value: Option<u64>, next: Option<u64>) -> Self
        ensures { result ≡ of_two value next }
    {
        Spoken {
            one: value,
            other: next,
        }
    }

    /// Whether the value is one of them.
    pub fn has(self, value: u64) -> bool
        ensures { result ≡ is_spoken self value }
    {
        is_value(self.one, value) || is_value(self.other, value)
    }
}

/// Whether it is this value.
fn is_value(one: Option<u64>, value: u64) -> bool
    ensures { result ≡ option_map_or (λ w. w == value) one false }
{
    match one {
        Some(other) => other == value,
        None => false,
    }
}

/// The values at the first position at which the lists differ, if there is one.
pub(crate) fn parting(values: &[u64], other: &[u64]) -> Spoken
    ensures { result ≡ parting values.now other.now }
{
    for at in 0..values.len() {
        if at >= other.len() {
            return Spoken::of_one(None);
        }
        if values[at] != other[at] {
            return Spoken::of_two(Some(values[at]), Some(other[at]));
        }
    }
    Spoken::of_one(None)
}

/// The operation at the position of the transaction.
pub(crate) fn operation_at(
    clients: &Clients,
    transaction: usize,
    place: usize,
) -> Option<&Operation>
    ensures { option_map (λ o. o.now) result ≡ operation_at clients.now transaction place }
{
    clients.transactions.get(transaction)?.operations.get(place)
}

/// The append at the position of the transaction.
pub(crate) fn put_at(clients: &Clients, transaction: usize, place: usize) -> Option<Put>
    ensures { result ≡ put_of (operation_at clients.now transaction place) }
{
    match operation_at(clients, transaction, place)? {
        Operation::Append { key, value } => Some(Put {
            key: *key,
            value: *value,
        }),
        Operation::Read { .. } => None,
    }
}

/// The value of the append at the position of the transaction.
pub(crate) fn value_at(clients: &Clients, transaction: usize, place: usize) -> Option<u64>
    ensures { result ≡ value_of (operation_at clients.now transaction place) }
{
    match operation_at(clients, transaction, place)? {
        Operation::Append { value, .. } => Some(*value),
        Operation::Read { .. } => None,
    }
}

/// The read at the position of the transaction.
pub(crate) fn seen_at(clients: &Clients, transaction: usize, place: usize) -> Option<Seen<'_>>
    ensures { option_map (λ s. (s.key, s.values.now)) result ≡ seen_of (operation_at clients.now transaction place) }
{
    match operation_at(clients, transaction, place)? {
        Operation::Read { key, values } => Some(Seen {
            key: *key,
            values: values.as_slice(),
        }),
        Operation::Append { .. } => None,
    }
}

/// What the read at the position of the transaction saw, or nothing if there is none.
pub(crate) fn values_at(clients: &Clients, transaction: usize, place: usize) -> &[u64]
    ensures { result.now ≡ values_of (operation_at clients.now transaction place) }
{
    match operation_at(clients, transaction, place) {
        Some(Operation::Read { values, .. }) => values.as_slice(),
        Some(Operation::Append { .. }) | None => &[],
    }
}
