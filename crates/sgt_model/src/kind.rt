//! The kinds of an access.

/// What an access does with its record. Two accesses of one record conflict if at least one of them is a write
/// (Bernstein, Hadzilacos and Goodman (1987), chapter 2).
#[derive(Clone, Copy, Debug, PartialEq, Eq)]
pub enum Kind {
    /// `Look`: a read of the value.
    Look,
    /// `Store`: a write of a value, or of none, which removes.
    Store,
}
