//! The operations of a history, and the two operations that exclude a history from a class.
ghost use Rattle.std.specs.Prelude.{◌≡◌};
ghost use Rattle.sgt_classes.specs.Histories.{item_of};

/// What an operation does. Items and transactions are numbers here.
///
/// Two operations of different transactions conflict if both are on one item and one of them writes it (Bernstein,
/// Hadzilacos and Goodman (1987), chapter 2).
#[derive(Clone, Copy, Debug, PartialEq, Eq)]
pub enum Action {
    /// It reads the item.
    Read(u32),
    /// It writes the item.
    Write(u32),
    /// It commits its transaction.
    Commit,
    /// It aborts its transaction.
    Abort,
}

impl Action {
    /// The item that it reads or writes.
    pub fn item(&self) -> Option<u32>
        ensures { result ≡ item_of self.now }
    {
        match self {
            Action::Read(item) | Action::Write(item) => Some(*item),
            Action::Commit | Action::Abort => None,
        }
    }
}

/// An operation of a history. A history is a slice of them, from position 0 (Bernstein, Hadzilacos and Goodman
/// (1987), chapter 2, with all operations in one order).
#[derive(Clone, Copy)]
pub struct Operation {
    /// The transaction that the operation belongs to.
    pub transaction: u32,
    /// What it does.
    pub action: Action,
}

/// Two operations that exclude a history from a class.
#[derive(Clone, Copy)]
pub struct Violation {
    /// The position of the earlier one.
    pub earlier: usize,
    /// The position of the later one, which came too early.
    pub later: usize,
}
