//! A short list of any items.
ghost use Rattle.std.specs.Prelude.{◌≡◌, ◌<◌, ◌≤◌, ◌↔◌, [], ◌∷◌, ◌++◌, length, IsSome, IfSome, IsTrue};
ghost use Rattle.std.specs.Cmp.Lexicographic.{pointwise, lists_per, lists_equiv};

use std::fmt;
use std::marker::Model;

/// A list of at most N items, stored inline: it never allocates. `copied` copies it as one block of memory.
#[derive(Drop)]
pub struct Bounded<T: Copy + Default, const N: usize> {
    items: [T; N],
    count: usize,
}

impl<T: Copy + Default, const N: usize> Model for Bounded<T, N> {
    ghost use Rattle.std.specs.Prelude.{◌≡◌, ◌≤◌, List, length, take};

    ghost Value = { List T };

    ghost view = { λ b. take b.count b.items };

    ghost invariant = { λ b. (b.count ≤ N) × (length b.items ≡ N) };
}

impl<T: Copy + Default, const N: usize> Bounded<T, N> {
    /// No items.
    pub fn new() -> Self
        ensures { result ≡ [] }
    {
        Bounded {
            items: [T::default(); N],
            count: 0,
        }
    }

    /// How many items there are.
    pub fn len(&self) -> usize
        ensures count { result ≡ length self.now }
        ensures few { length self.now ≤ N }
    {
        self.count
    }

    /// Whether there are no items.
    pub fn is_empty(&self) -> bool
        ensures { IsTrue result ↔ (self.now ≡ []) }
    {
        self.count == 0
    }

    /// Whether no further item fits.
    pub fn is_full(&self) -> bool
        ensures full { IsTrue result ↔ (length self.now ≡ N) }
        ensures few { length self.now ≤ N }
    {
        self.count == N
    }

    /// Adds an item at the end.
    pub fn push(&mut self, item: T)
        requires { length self.old < N }
        ensures { self.new ≡ self.old ++ item ∷ [] }
    {
        self.items[self.count] = item;
        self.count += 1;
    }

    /// Removes all items.
    pub fn clear(&mut self)
        ensures { self.new ≡ [] }
    {
        self.count = 0;
    }

    /// The items, in order.
    pub fn as_slice(&self) -> &[T]
        ensures { result.now ≡ self.now }
    {
        &self.items[..self.count]
    }

    /// A list of these items, or `None` if there are more than N.
    pub fn from_slice(items: &[T]) -> Option<Self>
        ensures some { IsSome result ↔ (length items.now ≤ N) }
        ensures items { IfSome result (λ list. list ≡ items.now) }
    {
        if items.len() > N {
            return None;
        }
        let mut list = [T::default(); N];
        list[..items.len()].copy_from_slice(items);
        Some(Bounded {
            items: list,
            count: items.len(),
        })
    }

    /// A copy. It allocates nothing.
    pub fn copied(&self) -> Self
        ensures { result ≡ self.now }
    {
        Bounded {
            items: self.items,
            count: self.count,
        }
    }
}

impl<T: Copy + Default + PartialEq, const N: usize> PartialEq for Bounded<T, N> {
    ghost eq = { pointwise T.eq };

    ghost laws = { lists_per T.laws };

    fn eq(&self, other: &Self) -> bool {
        self.as_slice() == other.as_slice()
    }
}

impl<T: Copy + Default + Eq, const N: usize> Eq for Bounded<T, N> {
    ghost laws = { lists_equiv T.Eq.laws };
}

impl<T: Copy + Default + fmt::Debug, const N: usize> fmt::Debug for Bounded<T, N> {
    fn fmt<W: fmt::Write>(&self, f: &mut fmt::Formatter<W>) -> fmt::Result {
        f.debug_list().entries(self.as_slice()).finish()
    }
}
