//! Where bytes come from: a trait, and its implementation over any `Read`.
ghost use Rattle.std.specs.Prelude.{◌≡◌, ℕ, List, Option, IfOk, OnOk, OnErr, min, ◌+◌, ◌-◌, ◌^◌, ◌<◌, ◌≤◌, length};
ghost use Rattle.std.specs.Io.KnownBytes.{ReadConsumes};

use std::io::Read;

/// A call of a source or a sink failed.
#[derive(Clone, Copy)]
pub struct Failed;

/// Gives bytes, and counts them and its failed calls.
pub trait Source: Drop {
    /// The bytes that are left, if they are known. Nothing is claimed of other sources.
    ghost rest: { Self → Option (List ℕ) };

    /// How many bytes it has given. The count stops at 2^64 - 1.
    ghost given: { Self → ℕ };

    /// How many calls have failed.
    ghost failures: { Self → ℕ };

    /// Reads the next bytes into the front of `buffer`, and returns how many: none only at the end, or if `buffer` is
    /// empty.
    ///
    /// # Errors
    ///
    /// `Failed` if the call failed. It gave no bytes.
    fn read(&mut self, buffer: &mut [u8]) -> Result<usize, Failed>
        requires countable { failures self.old + 1 < 2 ^ 64 }
        ensures within { IfOk result (λ n. n ≤ length buffer.new) }
        ensures bytes { ReadConsumes (rest self.old) (rest self.new) result buffer.new }
        ensures given { IfOk result (λ n. given self.new ≡ min (given self.old + n) (2 ^ 64 - 1)) }
        ensures none_given { OnErr result (given self.new ≡ given self.old) }
        ensures well { OnOk result (failures self.new ≡ failures self.old) }
        ensures failed { OnErr result (failures self.new ≡ failures self.old + 1) };
}

/// A source over any `Read`.
#[derive(Drop)]
pub struct Reader<R: Read + Drop> {
    pub inner: R,
    /// How many bytes were given. The count stops at the greatest value of its type.
    pub given: u64,
    /// How many reads have failed.
    pub failures: u64,
}

impl<R: Read + Drop> Reader<R> {
    /// A source that has given nothing yet, and has no failures.
    pub fn new(inner: R) -> Self
        ensures inner { result.inner ≡ inner }
        ensures given { result.given ≡ 0 }
        ensures failures { result.failures ≡ 0 }
    {
        Reader {
            inner,
            given: 0,
            failures: 0,
        }
    }
}

impl<R: Read + Drop> Source for Reader<R> {
    ghost rest = { λ s. R.remaining s.inner };

    ghost given = { λ s. s.given };

    ghost failures = { λ s. s.failures };

    fn read(&mut self, buffer: &mut [u8]) -> Result<usize, Failed> {
        match self.inner.read(buffer) {
            Ok(n) => {
                self.given = self.given.saturating_add(n as u64);
                Ok(n)
            }
            Err(_) => {
                self.failures += 1;
                Err(Failed)
            }
        }
    }
}
