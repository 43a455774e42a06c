//! Guesses of where a transaction is in a list.

use sgt_model::Tid;
use std::simd::prelude::*;

/// For how many transactions there are guesses.
const MOST: usize = 32;

/// Their indices.
const INDICES: [u8; MOST] = [
    0, 1, 2, 3, 4, 5, 6, 7, 8, 9, 10, 11, 12, 13, 14, 15, 16, 17, 18, 19, 20, 21, 22, 23, 24, 25,
    26, 27, 28, 29, 30, 31,
];

/// The low byte of each number in a list, for its first 32. They are compared at once.
///
/// Nothing is promised of a guess: the caller compares the number itself.
#[derive(Drop)]
pub struct Marks {
    bytes: [u8; MOST],
}

impl Marks {
    /// Those of an empty list.
    pub fn new() -> Self {
        Marks { bytes: [0; MOST] }
    }

    /// The index that the transaction mostly has, if it is in the list.
    #[inline(always)]
    pub fn guess(&self, t: Tid) -> usize {
        u8x32::from_array(self.bytes)
            .simd_eq(u8x32::splat(mark_of(t)))
            .to_bitmask()
            .trailing_zeros() as usize
    }

    /// The transaction has this index now.
    #[inline(always)]
    pub fn set(&mut self, index: usize, t: Tid) {
        if index < MOST {
            self.bytes[index] = mark_of(t);
        }
    }

    /// The one at this index leaves the list: each later one has the index before its own now.
    #[inline(always)]
    pub fn remove(&mut self, index: usize) {
        let marks = u8x32::from_array(self.bytes);
        let stay = u8x32::from_array(INDICES).simd_lt(u8x32::splat(index.min(MOST) as u8));
        self.bytes = stay
            .select(marks, marks.rotate_elements_left::<1>())
            .to_array();
    }
}

// The low byte of a number.
#[inline(always)]
fn mark_of(t: Tid) -> u8 {
    (t.0 % 256) as u8
}
