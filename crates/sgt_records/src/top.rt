//! The newest value of a key, as a read returns it.
ghost use Rattle.std.specs.Prelude.{◌≡◌};
ghost use Rattle.sgt_records.specs.Tops.{value_of_top};

use sgt_model::Tid;

/// What a read of a key returns.
#[derive(Clone, Copy, PartialEq)]
pub enum Top {
    /// The last value that a live transaction has written, or none: it has removed the record.
    Pending(Tid, Option<i64>),
    /// `Settled`: the committed value, if no live transaction has written one.
    Settled(i64),
    /// Neither.
    Nothing,
}

impl Top {
    /// The value that the read returns, if there is one.
    pub fn value(self) -> Option<i64>
        ensures { result ≡ value_of_top self }
    {
        match self {
            Top::Pending(_, value) => value,
            Top::Settled(value) => Some(value),
            Top::Nothing => None,
        }
    }
}
