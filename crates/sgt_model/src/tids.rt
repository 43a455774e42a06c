//! A short list of transactions.
ghost use Rattle.std.specs.Prelude.{◌≡◌, ◌<◌, ◌≤◌, ◌↔◌, [], ◌∷◌, ◌++◌, length, nat_eq, IsSome, IfSome, IsTrue};
ghost use Rattle.std.specs.Cmp.{partial_equiv_from_equiv};
ghost use Rattle.std.specs.Cmp.Lexicographic.{pointwise, nat_list_eq_equiv};

use crate::tid::Tid;
use std::fmt;
use std::marker::Model;

/// At most 32 transactions, stored inline: the list never allocates. It is a `Bounded` in fewer bytes, because a history
/// stores two for each reply. `copied` copies it.
#[derive(Drop)]
pub struct Tids {
    items: [Tid; 32],
    count: u32,
}

impl Model for Tids {
    ghost use Rattle.std.specs.Prelude.{◌≡◌, ◌≤◌, ℕ, List, length, take};

    ghost Value = { List ℕ };

    ghost view = { λ t. take t.count t.items };

    ghost invariant = { λ t. (t.count ≤ 32) × (length t.items ≡ 32) };
}

impl Tids {
    /// No transactions.
    pub fn new() -> Self
        ensures { result ≡ [] }
    {
        Tids {
            items: [Tid(0); 32],
            count: 0,
        }
    }

    /// How many transactions there are.
    pub fn len(&self) -> usize
        ensures count { result ≡ length self.now }
        ensures few { length self.now ≤ 32 }
    {
        self.count as usize
    }

    /// Whether there are no transactions.
    pub fn is_empty(&self) -> bool
        ensures { IsTrue result ↔ (self.now ≡ []) }
    {
        self.count == 0
    }

    /// Whether no further transaction fits.
    pub fn is_full(&self) -> bool
        ensures full { IsTrue result ↔ (length self.now ≡ 32) }
        ensures few { length self.now ≤ 32 }
    {
        self.count == 32
    }

    /// Adds a transaction at the end.
    pub fn push(&mut self, item: Tid)
        requires { length self.old < 32 }
        ensures { self.new ≡ self.old ++ item ∷ [] }
    {
        let count = self.count;
        self.items[count as usize] = item;
        self.count = count + 1;
    }

    /// The transactions, in order.
    pub fn as_slice(&self) -> &[Tid]
        ensures { result.now ≡ self.now }
    {
        &self.items[..self.count as usize]
    }

    /// A list of these transactions, or `None` if there are more than 32.
    pub fn from_slice(items: &[Tid]) -> Option<Self>
        ensures some { IsSome result ↔ (length items.now ≤ 32) }
        ensures items { IfSome result (λ list. list ≡ items.now) }
    {
        if items.len() > 32 {
            return None;
        }
        let mut list = [Tid(0); 32];
        list[..items.len()].copy_from_slice(items);
        Some(Tids {
            items: list,
            count: items.len() as u32,
        })
    }

    /// A copy. It allocates nothing.
    pub fn copied(&self) -> Self
        ensures { result ≡ self.now }
    {
        Tids {
            items: self.items,
            count: self.count,
        }
    }
}

impl PartialEq for Tids {
    ghost eq = { pointwise nat_eq };

    ghost laws = { partial_equiv_from_equiv nat_list_eq_equiv };

    fn eq(&self, other: &Self) -> bool {
        self.as_slice() == other.as_slice()
    }
}

impl Eq for Tids {
    ghost laws = { nat_list_eq_equiv };
}

impl fmt::Debug for Tids {
    fn fmt<W: fmt::Write>(&self, f: &mut fmt::Formatter<W>) -> fmt::Result {
        f.debug_list().entries(self.as_slice()).finish()
    }
}
