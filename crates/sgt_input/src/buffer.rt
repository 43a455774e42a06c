//! A buffer of fixed size: the last line, and the bytes that came after it.
ghost use Rattle.std.specs.Prelude.{◌≡◌, ℕ, [], ◌++◌, IfOk, OnOk, OnErr, ◌+◌, ◌-◌, ◌^◌, ◌<◌, ◌≤◌, length, take, drop};
ghost use Rattle.std.specs.Io.KnownBytes.{Consumes, Keeps, IsAtEnd};

use crate::source::{Failed, Source};
use std::alloc::{AllocError, Global};
use std::marker::Model;

/// The capacity of a buffer in bytes: a line of the greatest length, and a large piece after it.
const CAPACITY: usize = 131_072;

/// Bytes from a source, in a buffer of fixed size: the last line that was taken, and the bytes after it.
#[derive(Drop)]
pub(crate) struct Buffer {
    bytes: Vec<u8>,
    line_start: usize,
    line_end: usize,
    start: usize,
    end: usize,
}

impl Model for Buffer {
    ghost use Rattle.std.specs.Prelude.{◌≡◌, ◌≤◌, ◌-◌, take, drop, vec_len};
    ghost use Rattle.sgt_input.specs.Buffers.{Buffered};

    ghost Value = { Buffered };

    ghost view = { λ b. record {
      line = take (b.line_end - b.line_start) (drop b.line_start b.bytes.items);
      held = take (b.end - b.start) (drop b.start b.bytes.items);
    } };

    ghost invariant = { λ b. (vec_len b.bytes ≡ 131072)
        × (b.line_start ≤ b.line_end) × (b.line_end ≤ 131072)
        × (b.start ≤ b.end) × (b.end ≤ 131072) };
}

impl Buffer {
    /// An empty buffer.
    pub fn new(alloc: Global) -> Result<Self, AllocError>
        ensures line { IfOk result (λ b. b.line ≡ []) }
        ensures held { IfOk result (λ b. b.held ≡ []) }
    {
        Ok(Buffer {
            bytes: vec![in alloc; 0; CAPACITY]?,
            line_start: 0,
            line_end: 0,
            start: 0,
            end: 0,
        })
    }

    /// The last line that was taken.
    pub fn line(&self) -> &[u8]
        ensures { result.now ≡ self.now.line }
    {
        &self.bytes[self.line_start..self.line_end]
    }

    /// The bytes after that line.
    pub fn held(&self) -> &[u8]
        ensures held { result.now ≡ self.now.held }
        ensures capacity { length result.now ≤ 131072 }
    {
        &self.bytes[self.start..self.end]
    }

    /// Takes a line of `len` bytes, and drops `dropped` bytes after it.
    pub fn take(&mut self, len: usize, dropped: usize)
        requires { len + dropped ≤ length self.old.held }
        ensures line { self.new.line ≡ take len self.old.held }
        ensures held { self.new.held ≡ drop (len + dropped) self.old.held }
    {
        self.line_start = self.start;
        self.line_end = self.start + len;
        self.start = self.line_end + dropped;
    }

    /// Reads once, at most `most` bytes, and appends them to those held. Returns how many were read. The line is
    /// dropped.
    ///
    /// # Errors
    ///
    /// `Failed` if the read failed.
    pub fn read<S: Source>(&mut self, source: &mut S, most: usize) -> Result<usize, Failed>
        requires countable { S.failures source.old + 1 < 2 ^ 64 }
        requires capacity { length self.old.held ≤ 65536 }
        requires some { 0 < most }
        ensures line { self.new.line ≡ [] }
        ensures within { IfOk result (λ n. n ≤ most) }
        ensures count { IfOk result (λ n. length self.new.held ≡ length self.old.held + n) }
        ensures kept { take (length self.old.held) self.new.held ≡ self.old.held }
        ensures err { OnErr result (self.new.held ≡ self.old.held) }
        ensures bytes { OnOk result (Consumes (S.rest source.old) (S.rest source.new)
            (drop (length self.old.held) self.new.held)) }
        ensures end { IfOk result (λ n. n ≡ 0 → IsAtEnd (S.rest source.new)) }
        ensures rest { OnErr result (Keeps (S.rest source.old) (S.rest source.new)) }
        ensures given { S.given source.new + length self.old.held
            ≤ S.given source.old + length self.new.held }
        ensures well { OnOk result (S.failures source.new ≡ S.failures source.old) }
        ensures failed { OnErr result (S.failures source.new ≡ S.failures source.old + 1) }
    {
        self.bytes.copy_within(self.start..self.end, 0);
        self.line_start = 0;
        self.line_end = 0;
        self.end -= self.start;
        self.start = 0;
        let stop = self.end + most.min(CAPACITY - self.end);
        let n = read_between(source, &mut self.bytes, self.end, stop)?;
        self.end += n;
        Ok(n)
    }
}

/// Reads once, into the bytes between two indexes.
fn read_between<S: Source>(
    source: &mut S,
    bytes: &mut [u8],
    from: usize,
    to: usize,
) -> Result<usize, Failed>
    requires countable { S.failures source.old + 1 < 2 ^ 64 }
    requires some { from < to }
    requires bounds { to ≤ length bytes.old }
    ensures within { IfOk result (λ n. from + n ≤ to) }
    ensures kept { take from bytes.new ≡ take from bytes.old }
    ensures bytes { IfOk result (λ n.
        Consumes (S.rest source.old) (S.rest source.new) (take n (drop from bytes.new))) }
    ensures end { IfOk result (λ n. n ≡ 0 → IsAtEnd (S.rest source.new)) }
    ensures rest { OnErr result (Keeps (S.rest source.old) (S.rest source.new)) }
    ensures given { IfOk result (λ n. S.given source.new ≤ S.given source.old + n) }
    ensures none_given { OnErr result (S.given source.new ≡ S.given source.old) }
    ensures well { OnOk result (S.failures source.new ≡ S.failures source.old) }
    ensures failed { OnErr result (S.failures source.new ≡ S.failures source.old + 1) }
{
    source.read(&mut bytes[from..to])
}
