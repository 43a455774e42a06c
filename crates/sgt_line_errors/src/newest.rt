//! The newest lines of an input.
ghost use Rattle.std.specs.Prelude.{IfSome, false, ◌≡◌};
ghost use Rattle.sgt_input.specs.Lines.{has_break};

use memchr::memchr;
use std::alloc::{AllocError, Global};
use std::simd::prelude::*;

/// How many bytes are stored before the oldest lines are dropped.
const MOST_STORED: usize = 1_048_576;

/// How many of the newest bytes stay, but for the line in which they start: more than a run reads ahead of the line that
/// it tests.
const LEAST_STORED: usize = 262_144;

/// How many bytes are tested for newlines at once.
const AT_ONCE: usize = 64;

/// The newest lines of an input, as many as fit about a mebibyte.
#[derive(Drop)]
pub(crate) struct NewestLines {
    /// The newest bytes, from the start of a line on.
    bytes: Vec<u8>,
    /// How many lines came before these bytes.
    dropped: u64,
    /// Line 1, once that is dropped.
    first: Vec<u8>,
}

impl NewestLines {
    /// No bytes yet. It allocates nothing.
    pub(crate) fn new(alloc: Global) -> Self {
        NewestLines {
            bytes: Vec::new(alloc),
            dropped: 0,
            first: Vec::new(alloc),
        }
    }

    /// Stores the next bytes of the input. If there are too many, the oldest lines are dropped.
    ///
    /// # Errors
    ///
    /// `AllocError` if an allocation failed.
    pub(crate) fn store(&mut self, bytes: &[u8]) -> Result<(), AllocError> {
        if self.bytes.len() >= MOST_STORED {
            self.drop_oldest()?;
        }
        self.bytes.extend_from_slice(bytes)
    }

    /// The line of this number, from 1, without its newline, if its bytes are stored. Line 1 always is.
    pub(crate) fn line(&self, number: u64) -> Option<&[u8]>
        ensures unbroken { IfSome result (λ l. has_break l.now ≡ false) }
    {
        if number == 1 && self.dropped > 0 {
            return line_in(self.first.as_slice(), 1);
        }
        if number <= self.dropped {
            return None;
        }
        line_in(self.bytes.as_slice(), number - self.dropped)
    }

    // Drops the lines that start before the bytes that stay. Line 1 is stored apart, once it is dropped.
    fn drop_oldest(&mut self) -> Result<(), AllocError> {
        let oldest = self.bytes.len().saturating_sub(LEAST_STORED);
        let Some(rest) = after_break(&self.bytes[oldest..]) else {
            return Ok(());
        };
        let end = self.bytes.len();
        let len = rest.len().min(end);
        let start = end - len;
        let count = count_breaks(&self.bytes[..start]) as u64;
        if self.dropped == 0 {
            self.first
                .extend_from_slice(until_break(self.bytes.as_slice()))?;
        }
        self.dropped = self.dropped.saturating_add(count);
        self.bytes.copy_within(start..end, 0);
        self.bytes.truncate(len);
        Ok(())
    }
}

// The line of this number, from 1, if the text has that many lines.
fn line_in(text: &[u8], number: u64) -> Option<&[u8]>
    ensures { IfSome result (λ l. has_break l.now ≡ false) }
{
    let mut rest = text;
    for _ in 1..number {
        rest = after_break(rest)?;
    }
    Some(until_break(rest))
}

// The bytes after the first newline, if there is one.
fn after_break(bytes: &[u8]) -> Option<&[u8]> {
    let place = memchr(b'\n', bytes)?;
    Some(&bytes[place + 1..])
}

// The bytes before the first newline, or all.
fn until_break(bytes: &[u8]) -> &[u8]
    ensures { has_break result.now ≡ false }
{
    match memchr(b'\n', bytes) {
        Some(place) => &bytes[..place],
        None => bytes,
    }
}

// The number of newlines.
fn count_breaks(bytes: &[u8]) -> usize {
    let (blocks, rest) = bytes.as_chunks::<AT_ONCE>();
    let mut count = rest.iter().filter(|byte| **byte == b'\n').count();
    for block in blocks {
        let marks = u8x64::from_array(*block)
            .simd_eq(u8x64::splat(b'\n'))
            .to_bitmask();
        count = count.saturating_add(marks.count_ones() as usize);
    }
    count
}
