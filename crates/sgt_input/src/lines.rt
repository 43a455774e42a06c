//! The lines of what a source gives, within the limits.
ghost use Rattle.std.specs.Prelude.{◌≡◌, ◌≢◌, ℕ, if◌then◌else◌, IsTrue, IsFalse, true, false, IfOk, IfErr, OnOk, OnErr, OnSome, None, Some, min, [], ◌++◌, ◌+◌, ◌-◌, ◌^◌, ◌<◌, ◌≤◌, ◌↔◌, ◌⊎◌, IfSome, IsNone, length, take, drop};
ghost use Rattle.std.specs.Io.KnownBytes.{Consumes, Keeps};
ghost use Rattle.memchr.specs.Find.{IsFirst, Passes, is_byte};
ghost use Rattle.sgt_input.specs.Lines.{has_break, whole_lines, AreWhole, IsBreak, AtEnd};
ghost use Rattle.sgt_input.specs.Intake.{Intake, before_input, has_whole_line, bytes_left, work, IsReady, IsGiven, IsLong, cut_left, Gives, EndsAs, Explains, taken, come};

use crate::buffer::Buffer;
use crate::fault::Fault;
use crate::source::{Failed, Source};
use memchr::{memchr, memrchr};
use sgt_model::NoMemory;
use std::alloc::Global;
use std::marker::Model;
use std::simd::prelude::*;

/// The most bytes that a line may have, without its newline.
const LONGEST_LINE: usize = 65_536;

/// The most bytes that any limit lets an input have.
pub const MOST_BYTES: usize = 4_294_967_296;

/// The most bytes that an input may have where no other limit is given.
pub const DEFAULT_BYTES: usize = 16_777_216;

/// How many bytes [`Lines::window`] returns.
const WINDOW: usize = 64;

/// The position of the first newline among the first `within` bytes.
#[inline(always)]
fn find_break(bytes: &[u8], within: usize) -> Option<usize>
    ensures { IsBreak (take within bytes.now) result }
{
    let stop = within.min(bytes.len());
    if 32 <= stop {
        if let Some(near) = near_break(bytes) {
            return Some(near);
        }
    }
    memchr(b'\n', &bytes[..stop])
}

/// The position of the first newline among the first 32 bytes. Most lines are shorter.
#[inline(always)]
fn near_break(bytes: &[u8]) -> Option<usize>
    requires { 32 ≤ length bytes.now }
    ensures { IsFirst (Passes (is_byte 10) bytes.now) 0 32 result }
{
    let marks = u8x32::from_slice(bytes)
        .simd_eq(u8x32::splat(b'\n'))
        .to_bitmask();
    if marks == 0 {
        return None;
    }
    Some(marks.trailing_zeros() as usize)
}

/// How many bytes the whole lines among the first `within` bytes have, if no newline is among the first `from`.
fn whole_length(bytes: &[u8], from: usize, within: usize) -> usize
    requires known { has_break (take from bytes.now) ≡ false }
    requires within { from ≤ within }
    requires bounds { from ≤ length bytes.now }
    ensures { AreWhole (take within bytes.now) result }
{
    let stop = within.min(bytes.len());
    match memrchr(b'\n', &bytes[from..stop]) {
        Some(n) => from + n + 1,
        None => 0,
    }
}

/// Splits the bytes of a source into lines, within the limits. Its buffer has a fixed size, however long the input is.
#[derive(Drop)]
pub struct Lines {
    /// How many lines were returned. It stands apart from the other counts: beside one of them it would be changed in vectors.
    number: u64,
    buffer: Buffer,
    /// How many of the bytes held are whole lines within the limit, with their newlines.
    whole: usize,
    /// Whether the source has ended.
    ended: bool,
    /// How many of the bytes not returned are within the limit.
    within: usize,
}

impl Model for Lines {
    ghost use Rattle.sgt_input.specs.Intake.{Intake, AtRest};

    ghost Value = { Intake };

    ghost view = { λ l. record {
      line = l.buffer.line;
      number = l.number;
      held = l.buffer.held;
      within = l.within;
      ended = l.ended;
    } };

    ghost invariant = { λ l. AtRest l.number l.within l.ended l.buffer.held l.whole };
}

impl Lines {
    /// The state before the first byte of an input of at most `most` bytes. `most` is at most `MOST_BYTES`.
    ///
    /// # Errors
    ///
    /// `NoMemory` if the buffer cannot be allocated.
    pub fn new(alloc: Global, most: usize) -> Result<Self, NoMemory>
        requires { most ≤ 4294967296 }
        ensures { IfOk result (λ l. l ≡ before_input most) }
    {
        Ok(Lines {
            buffer: Buffer::new(alloc)?,
            whole: 0,
            within: most,
            number: 0,
            ended: false,
        })
    }

    /// The last line returned, without its newline.
    pub fn line(&self) -> &[u8]
        ensures { result.now ≡ self.now.line }
    {
        self.buffer.line()
    }

    /// How many lines were returned: the number of the last one, from 1.
    pub fn number(&self) -> u64
        ensures { result ≡ self.now.number }
    {
        self.number
    }

    /// How many bytes the lines that are not returned yet may have: the limit, less the bytes of those returned.
    pub fn left(&self) -> usize
        ensures { result ≡ self.now.within }
    {
        self.within
    }

    /// Whether the whole next line has already been read, so that `next_line` does not read.
    pub fn has_line(&self) -> bool
        ensures { result ≡ has_whole_line self.now }
    {
        self.whole > 0
    }

    /// Moves to the next line, which `line` then returns. Returns whether there is one. It reads only if that line has
    /// not been read yet.
    ///
    /// # Errors
    ///
    /// - `LongLine`: the next line is too long.
    /// - `TooLong`: the input is too long, and no whole line is left within its limit.
    /// - `Reading`: a read failed.
    #[inline(always)]
    pub fn next_line<S: Source>(&mut self, source: &mut S) -> Result<bool, Fault>
        requires { S.failures source.old + 1 < 2 ^ 64 }
        ensures line { IfOk result (λ more. IsTrue more → Gives
            (cut_left self.old (S.rest source.old)) self.new.line
            (cut_left self.new (S.rest source.new))) }
        ensures end { IfOk result (λ more. IsFalse more →
            EndsAs AtEnd (cut_left self.old (S.rest source.old))) }
        ensures fault { IfErr result (λ f.
            Explains f self.old.number (cut_left self.old (S.rest source.old))) }
        ensures number { IfOk result (λ more.
            self.new.number ≡ (if more then self.old.number + 1 else self.old.number)) }
        ensures taken { IfOk result (λ more. IsTrue more → Consumes
            (bytes_left self.old (S.rest source.old)) (bytes_left self.new (S.rest source.new))
            (taken self.new)) }
        ensures nearer { IfOk result (λ more. IsTrue more → self.new.within < self.old.within) }
        ensures unbroken { IfOk result (λ more. IsTrue more → has_break self.new.line ≡ false) }
        ensures short { IfOk result (λ more. IsTrue more → length self.new.line ≤ 65536) }
        ensures kept { result ≡ Err Fault.Reading →
            Keeps (bytes_left self.old (S.rest source.old)) (bytes_left self.new (S.rest source.new)) }
        ensures no_line { result ≡ Err Fault.Reading → whole_lines self.new.held ≡ [] }
        ensures going { result ≡ Err Fault.Reading → self.new.ended ≡ false }
        ensures ended { self.new.ended ≡ false → self.old.ended ≡ false }
        ensures come { S.given source.new + come self.old ≤ S.given source.old + come self.new }
        ensures few { come self.new ≤ 4294967297 }
        ensures untouched { IsReady self.old → source.new ≡ source.old }
        ensures well { result ≢ Err Fault.Reading →
            S.failures source.new ≡ S.failures source.old }
        ensures failed { result ≡ Err Fault.Reading →
            S.failures source.new ≡ S.failures source.old + 1 }
    {
        if !self.has_line() {
            self.fill(source)?;
        }
        self.give()
    }

    /// Reads once, if the next line has not been read.
    fn read<S: Source>(&mut self, source: &mut S) -> Result<(), Failed>
        requires countable { S.failures source.old + 1 < 2 ^ 64 }
        requires no_line { has_whole_line self.old ≡ false }
        requires going { self.old.ended ≡ false }
        requires short { length self.old.held ≤ 65536 }
        requires within { length self.old.held ≤ self.old.within }
        ensures number { self.new.number ≡ self.old.number }
        ensures same { self.new.within ≡ self.old.within }
        ensures bytes { Keeps
            (bytes_left self.old (S.rest source.old)) (bytes_left self.new (S.rest source.new)) }
        ensures come { S.given source.new + come self.old ≤ S.given source.old + come self.new }
        ensures few { come self.new ≤ 4294967297 }
        ensures nearer { OnOk result (work self.new < work self.old) }
        ensures no_line { OnErr result (whole_lines self.new.held ≡ []) }
        ensures going { OnErr result (self.new.ended ≡ false) }
        ensures well { OnOk result (S.failures source.new ≡ S.failures source.old) }
        ensures failed { OnErr result (S.failures source.new ≡ S.failures source.old + 1) }
    {
        let held = self.buffer.held().len();
        let n = self.buffer.read(source, self.within + 1 - held)?;
        if n == 0 {
            self.ended = true;
        } else {
            self.whole = whole_length(self.buffer.held(), held, self.within);
        }
        Ok(())
    }

    /// Reads until the whole next line has been read, or the source has ended. It does not move to that line.
    ///
    /// # Errors
    ///
    /// `LongLine`, `TooLong` and `Reading`, as of `next_line`.
    #[inline(never)]
    pub fn fill<S: Source>(&mut self, source: &mut S) -> Result<(), Fault>
        requires { S.failures source.old + 1 < 2 ^ 64 }
        ensures number { self.new.number ≡ self.old.number }
        ensures within { self.new.within ≡ self.old.within }
        ensures bytes { Keeps
            (bytes_left self.old (S.rest source.old)) (bytes_left self.new (S.rest source.new)) }
        ensures come { S.given source.new + come self.old ≤ S.given source.old + come self.new }
        ensures ready { OnOk result (IsReady self.new) }
        ensures fault { IfErr result (λ f.
            Explains f self.old.number (cut_left self.old (S.rest source.old))) }
        ensures no_line { result ≡ Err Fault.Reading → whole_lines self.new.held ≡ [] }
        ensures going { result ≡ Err Fault.Reading → self.new.ended ≡ false }
        ensures ended { self.new.ended ≡ false → self.old.ended ≡ false }
        ensures few { come self.new ≤ 4294967297 }
        ensures untouched { IsReady self.old → source.new ≡ source.old }
        ensures well { result ≢ Err Fault.Reading →
            S.failures source.new ≡ S.failures source.old }
        ensures failed { result ≡ Err Fault.Reading →
            S.failures source.new ≡ S.failures source.old + 1 }
    {
        while !self.has_line() && !self.ended {
            let held = self.buffer.held().len();
            if held.min(self.within) > LONGEST_LINE {
                return Err(Fault::LongLine(self.number + 1));
            }
            if held > self.within {
                return Err(Fault::TooLong);
            }
            if self.read(source).is_err() {
                return Err(Fault::Reading);
            }
        }
        Ok(())
    }

    /// The next line, if it has been read, without its newline: the line that `next_line` moves to. `None` if it is too
    /// long, or if there is none.
    pub fn ahead(&self) -> Option<&[u8]>
        requires { IsReady self.now }
        ensures line { IfSome result (λ line.
            (k : Intake) × IsGiven self.now k × (k.line ≡ line.now)) }
        ensures none { IsNone result → IsLong self.now
            ⊎ ((self.now.held ≡ []) × (self.now.ended ≡ true)) }
    {
        let held = self.buffer.held();
        match self.first_break() {
            Some(len) => {
                if len > LONGEST_LINE {
                    return None;
                }
                Some(&held[..len])
            }
            None => {
                if held.is_empty() {
                    return None;
                }
                Some(held)
            }
        }
    }

    /// Moves to the next line, which has been read, if there is one.
    #[inline(always)]
    fn give(&mut self) -> Result<bool, Fault>
        requires { IsReady self.old }
        ensures given { IfOk result (λ more. IsTrue more → IsGiven self.old self.new) }
        ensures end { IfOk result (λ more. IsFalse more →
            (self.new ≡ self.old) × (self.old.held ≡ []) × (self.old.ended ≡ true)) }
        ensures fault { IfErr result (λ f.
            (f ≡ Fault.LongLine (self.old.number + 1)) × IsLong self.old) }
        ensures err { OnErr result (self.new ≡ self.old) }
        ensures nearer { IfOk result (λ more. IsTrue more → self.new.within < self.old.within) }
        ensures ended { self.new.ended ≡ self.old.ended }
        ensures limit { self.old.within ≤ 4294967296 }
        ensures few { length self.new.held ≤ self.new.within + 1 }
    {
        match self.first_break() {
            Some(len) => {
                if len > LONGEST_LINE {
                    return Err(Fault::LongLine(self.number + 1));
                }
                self.pass(len);
                Ok(true)
            }
            None => Ok(self.give_last()),
        }
    }

    /// The position of the first newline among the bytes held that are within the limit.
    #[inline(always)]
    fn first_break(&self) -> Option<usize>
        ensures { IsBreak (take self.now.within self.now.held) result }
    {
        if !self.has_line() {
            return None;
        }
        find_break(self.buffer.held(), self.within)
    }

    /// Moves to the last line, which has no newline, if there is one.
    #[inline(never)]
    fn give_last(&mut self) -> bool
        requires ready { IsReady self.old }
        requires none { has_whole_line self.old ≡ false }
        ensures given { IsTrue result → IsGiven self.old self.new }
        ensures end { IsFalse result →
            (self.new ≡ self.old) × (self.old.held ≡ []) × (self.old.ended ≡ true) }
        ensures nearer { IsTrue result → self.new.within < self.old.within }
        ensures ended { self.new.ended ≡ self.old.ended }
        ensures limit { self.old.within ≤ 4294967296 }
        ensures few { length self.new.held ≤ self.new.within + 1 }
    {
        let len = self.buffer.held().len();
        if len == 0 {
            return false;
        }
        self.buffer.take(len, 0);
        self.within -= len;
        self.number += 1;
        true
    }

    /// The next 64 bytes of whole lines, if that many are held.
    #[inline(always)]
    pub fn window(&self) -> Option<&[u8]>
        ensures size { IfSome result (λ bytes. length bytes.now ≡ 64) }
        ensures bytes { IfSome result (λ bytes. bytes.now ≡ take 64 (take self.now.within self.now.held)) }
    {
        if self.whole < WINDOW {
            return None;
        }
        Some(&self.buffer.held()[..WINDOW])
    }

    /// Moves to the next line, which is held and has this length without its newline. It does not read.
    #[inline(always)]
    pub fn pass(&mut self, len: usize)
        requires line { IsBreak (take self.old.within self.old.held) (Some len) }
        requires short { len ≤ 65536 }
        ensures given { IsGiven self.old self.new }
        ensures line { self.new.line ≡ take len self.old.held }
        ensures nearer { self.new.within < self.old.within }
        ensures limit { self.old.within ≤ 4294967296 }
        ensures few { length self.new.held ≤ self.new.within + 1 }
    {
        self.buffer.take(len, 1);
        self.within -= len + 1;
        self.number += 1;
        self.whole -= len + 1;
    }
}
