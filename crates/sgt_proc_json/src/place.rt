//! The position of an item in a tree.
ghost use Rattle.std.specs.Prelude.{◌≡◌, ◌≤◌, [], ◌∷◌, length, take};

use sgt_model::Bounded;
use std::fmt;
use std::marker::Model;

/// The position of an item in a tree: the indexes that lead to it from the top, counted from 0. The empty list is the
/// top. At most the first 128 indexes are stored. It is shown as its indexes, separated by spaces, or as `top`.
#[derive(Debug, Drop, PartialEq, Eq)]
pub struct Place {
    positions: Bounded<u64, 128>,
}

impl Model for Place {
    ghost use Rattle.std.specs.Prelude.{ℕ, List};

    ghost Value = { List ℕ };

    ghost view = { λ p. p.positions };

    ghost inverse = { λ v. record { positions = v } };
}

impl Place {
    /// The top.
    pub(crate) fn top() -> Self
        ensures { result ≡ [] }
    {
        Place {
            positions: Bounded::new(),
        }
    }

    /// The same position, seen from the list that has the item at this index.
    pub(crate) fn under(&self, position: u64) -> Self
        ensures { result ≡ take 128 (position ∷ self.now) }
    {
        let kept = self.positions.len().min(127);
        let mut positions = Bounded::new();
        positions.push(position);
        for next in &self.as_slice()[..kept] {
            positions.push(*next);
        }
        Place { positions }
    }

    /// The indexes, from the top.
    pub fn as_slice(&self) -> &[u64]
        ensures { result.now ≡ self.now }
    {
        self.positions.as_slice()
    }
}

impl fmt::Display for Place {
    fn fmt<W: fmt::Write>(&self, f: &mut fmt::Formatter<W>) -> fmt::Result {
        if self.as_slice().is_empty() {
            return f.write_str("top");
        }
        let mut separator = "";
        for position in self.as_slice() {
            write!(f, "{separator}{position}")?;
            separator = " ";
        }
        Ok(())
    }
}
