//! What an operation does to a key.
ghost use Rattle.std.specs.Prelude.{◌≡◌, IsTrue};
ghost use Rattle.sgt_clients.specs.Entries.{access_of};

use sgt_appends::Operation;

/// What an operation does to a key, without what it sees.
#[derive(Clone, Copy)]
pub(crate) enum Access {
    /// It appends the value to the key.
    Appends { key: u32, value: u64 },
    /// It reads the key.
    Reads { key: u32 },
}

/// The access of the operation.
pub(crate) fn access_of(operation: &Operation) -> Access
    ensures { result ≡ access_of operation.now }
{
    match operation {
        Operation::Append { key, value } => Access::Appends {
            key: *key,
            value: *value,
        },
        Operation::Read { key, .. } => Access::Reads { key: *key },
    }
}

/// Whether the accesses are the same ones.
pub(crate) fn are_same(accesses: &[Access], others: &[Access]) -> bool
    ensures { IsTrue result → accesses.now ≡ others.now }
{
    if accesses.len() != others.len() {
        return false;
    }
    for (place, access) in accesses.iter().enumerate() {
        if !is_same(access, &others[place]) {
            return false;
        }
    }
    true
}

/// Whether the two are the same access.
fn is_same(access: &Access, other: &Access) -> bool
    ensures { IsTrue result → access.now ≡ other.now }
{
    match (access, other) {
        (Access::Appends { key, value }, Access::Appends { key: k, value: v }) => {
            *key == *k && *value == *v
        }
        (Access::Reads { key }, Access::Reads { key: k }) => *key == *k,
        _ => false,
    }
}
