//! A source that stores the newest lines of the bytes that it passes on.
ghost use Rattle.std.specs.Prelude.{◌≡◌, IfOk, OnOk, OnErr, IfSome, false, min, ◌+◌, ◌-◌, ◌^◌, ◌<◌, ◌≤◌, length};
ghost use Rattle.std.specs.Io.KnownBytes.{ReadConsumes};
ghost use Rattle.sgt_input.specs.Lines.{has_break};

use crate::newest::NewestLines;
use sgt_input::{Failed, Source};
use std::alloc::Global;

/// A source that passes on what another one returns, and stores the newest lines of it, about a mebibyte. A run ends
/// at its first faulty line, so that line is among them. If memory runs out, it stores nothing more, and still passes
/// on the same.
#[derive(Drop)]
pub struct Remembering<S: Source> {
    source: S,
    /// The newest lines that were passed on. None if memory ran out.
    kept: Option<NewestLines>,
}

impl<S: Source> Remembering<S> {
    /// Passes on what this source returns from now on. It allocates nothing.
    pub fn new(alloc: Global, source: S) -> Self
        ensures rest { ⟦<Self as Source>⟧.rest result ≡ S.rest source }
        ensures given { ⟦<Self as Source>⟧.given result ≡ S.given source }
        ensures failures { ⟦<Self as Source>⟧.failures result ≡ S.failures source }
    {
        Remembering {
            source,
            kept: Some(NewestLines::new(alloc)),
        }
    }

    /// The line of this number, from 1, without its newline, if its bytes are stored.
    pub fn line(&self, number: u64) -> Option<&[u8]>
        ensures unbroken { IfSome result (λ l. has_break l.now ≡ false) }
    {
        match &self.kept {
            Some(kept) => kept.line(number),
            None => None,
        }
    }

    // Stores these bytes. If memory runs out, it stores nothing from now on.
    fn keep(&mut self, bytes: &[u8])
        ensures same { self.new.source ≡ self.old.source }
    {
        let is_kept = match &mut self.kept {
            Some(kept) => kept.store(bytes).is_ok(),
            None => true,
        };
        if !is_kept {
            self.kept = None;
        }
    }
}

impl<S: Source> Source for Remembering<S> {
    ghost rest = { λ s. S.rest s.source };

    ghost given = { λ s. S.given s.source };

    ghost failures = { λ s. S.failures s.source };

    fn read(&mut self, buffer: &mut [u8]) -> Result<usize, Failed> {
        let n = self.source.read(buffer)?;
        self.keep(&buffer[..n]);
        Ok(n)
    }
}
