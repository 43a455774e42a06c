//! A part of a list.
ghost use Rattle.std.specs.Prelude.{◌≡◌, ◌+◌, ◌≤◌, ◌++◌, length, vec_len, vec_capacity};
ghost use Rattle.sgt_log.specs.Spans.{part_of, IsWithin};

use sgt_model::Bounded;

/// A part of a list: its first index, and its number of items.
#[derive(Clone, Copy)]
pub struct Span {
    pub from: usize,
    pub count: u8,
}

impl Span {
    /// The part of `count` items from the index `from`.
    #[inline]
    pub fn new(from: usize, count: u8) -> Self
        ensures { result ≡ record { from = from; count = count } }
    {
        Span { from, count }
    }

    /// Adds the items at the end of a list that has capacity for them, and returns their span. It allocates nothing.
    #[inline(always)]
    pub fn append<T: Copy>(list: &mut Vec<T>, items: &[T]) -> Self
        requires spare { vec_len list.old + length items.now ≤ vec_capacity list.old }
        requires few { length items.now ≤ 32 }
        ensures items { list.new.items ≡ list.old.items ++ items.now }
        ensures part { part_of list.new.items result ≡ items.now }
        ensures within { IsWithin (length list.new.items) result }
        ensures count { result.count ≡ length items.now }
        ensures len { vec_len list.new ≡ vec_len list.old + length items.now }
        ensures capacity { vec_capacity list.new ≡ vec_capacity list.old }
    {
        let from = list.len();
        for item in items {
            list.push_reserved(*item);
        }
        Span {
            from,
            count: items.len() as u8,
        }
    }

    /// The items of the span.
    pub fn items<T>(self, list: &[T]) -> &[T]
        requires { IsWithin (length list.now) self }
        ensures items { result.now ≡ part_of list.now self }
        ensures count { length result.now ≡ self.count }
        ensures few { length result.now ≤ 32 }
    {
        &list[self.from..self.from + self.count as usize]
    }

    /// The values of the span.
    pub fn values<const N: usize>(self, list: &[i64]) -> Bounded<i64, N>
        requires within { IsWithin (length list.now) self }
        requires few { self.count ≤ N }
        ensures { result ≡ part_of list.now self }
    {
        match Bounded::from_slice(self.items(list)) {
            Some(values) => values,
            None => unreachable!(),
        }
    }
}
