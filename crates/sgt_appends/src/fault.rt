//! Faults of a single read, with the helpers that test them.
ghost use Rattle.std.specs.Prelude.{◌≡◌, ◌↔◌, ◌++◌, ℕ, List, IsTrue};
ghost use Rattle.sgt_appends.specs.Lists.{IsPrefix};

/// A fault of a single read. Operations are named by their positions in their transactions.
#[derive(Clone, Copy)]
pub enum Fault {
    /// It saw a value that no transaction appends.
    Unwritten(u64),
    /// It saw a value that only this transaction appends, which aborted.
    Aborted {
        by: usize,
        append: usize,
    },
    /// It saw a value twice.
    Twice(u64),
    /// It saw two values of one transaction in the opposite order.
    Swapped {
        by: usize,
        first: usize,
        second: usize,
    },
    /// The list does not end with what its own transaction appended before.
    EndsOtherwise,
    /// It saw a value that its own transaction appends only later.
    Ahead {
        append: usize,
    },
    /// Another read of the key saw a list, and neither list is a prefix of the other.
    Incompatible {
        other: usize,
        read: usize,
    },
}

/// Whether the list ends with the other.
pub fn ends_with(values: &[u64], end: &[u64]) -> bool
    ensures { IsTrue result ↔ ((front : List ℕ) × (values.now ≡ front ++ end.now)) }
{
    end.len() <= values.len() && &values[values.len() - end.len()..] == end
}

/// Whether the other is a prefix of the list.
pub fn starts_with(values: &[u64], start: &[u64]) -> bool
    ensures { IsTrue result ↔ IsPrefix start.now values.now }
{
    start.len() <= values.len() && &values[..start.len()] == start
}
