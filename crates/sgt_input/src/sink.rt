//! Where bytes go: a trait, and its implementation over any `Write`.
ghost use Rattle.std.specs.Prelude.{◌≡◌, ℕ, List, [], Option, IfOk, OnOk, OnErr, ◌+◌, ◌^◌, ◌<◌, ◌≤◌, length, take};
ghost use Rattle.std.specs.Io.KnownBytes.{WriteAppends, Appends};

use crate::source::Failed;
use std::io::Write;

/// Takes bytes, and counts its failed calls.
pub trait Sink: Drop {
    /// The bytes that it holds, if they are known. Nothing is claimed of other sinks.
    ghost held: { Self → Option (List ℕ) };

    /// How many calls have failed.
    ghost failures: { Self → ℕ };

    /// Takes bytes from the front of `bytes`, and returns how many: at least one if there is one.
    ///
    /// # Errors
    ///
    /// `Failed` if the call failed. It took no bytes.
    fn write(&mut self, bytes: &[u8]) -> Result<usize, Failed>
        requires countable { failures self.old + 1 < 2 ^ 64 }
        ensures within { IfOk result (λ n. n ≤ length bytes.now) }
        ensures some { IfOk result (λ n. n ≡ 0 → bytes.now ≡ []) }
        ensures bytes { WriteAppends (held self.old) (held self.new) result bytes.now }
        ensures well { OnOk result (failures self.new ≡ failures self.old) }
        ensures failed { OnErr result (failures self.new ≡ failures self.old + 1) };
}

/// A sink over any `Write`. A write that takes nothing of a non-empty slice counts as failed.
#[derive(Drop)]
pub struct Writer<W: Write + Drop> {
    pub inner: W,
    /// How many writes have failed.
    pub failures: u64,
}

impl<W: Write + Drop> Writer<W> {
    /// A sink with no failures yet.
    pub fn new(inner: W) -> Self
        ensures inner { result.inner ≡ inner }
        ensures failures { result.failures ≡ 0 }
    {
        Writer { inner, failures: 0 }
    }
}

impl<W: Write + Drop> Sink for Writer<W> {
    ghost held = { λ s. W.contents s.inner };

    ghost failures = { λ s. s.failures };

    fn write(&mut self, bytes: &[u8]) -> Result<usize, Failed> {
        match self.inner.write(bytes) {
            Ok(n) if n > 0 || bytes.is_empty() => Ok(n),
            _ => {
                self.failures += 1;
                Err(Failed)
            }
        }
    }
}

/// Writes all the bytes, in as many calls as it takes.
///
/// # Errors
///
/// `Failed` if one of the calls failed. A part from the front was written by then.
pub fn write_all<S: Sink>(sink: &mut S, bytes: &[u8]) -> Result<(), Failed>
    requires countable { S.failures sink.old + 1 < 2 ^ 64 }
    ensures bytes { OnOk result (Appends (S.held sink.old) (S.held sink.new) bytes.now) }
    ensures part { OnErr result ((k : ℕ) ×
        Appends (S.held sink.old) (S.held sink.new) (take k bytes.now)) }
    ensures well { OnOk result (S.failures sink.new ≡ S.failures sink.old) }
    ensures failed { OnErr result (S.failures sink.new ≡ S.failures sink.old + 1) }
{
    let mut at = 0;
    while at < bytes.len() {
        at += sink.write(&bytes[at..])?;
    }
    Ok(())
}
