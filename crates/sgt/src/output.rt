//! Standard output, which may be a pipe that nobody reads any more.

use crate::failure::Detail;
use std::io::{self, ErrorKind, Write};

/// Writes to another writer, and notes why the last write failed.
#[derive(Drop)]
pub(crate) struct OutputBytes<W: Write + Drop> {
    inner: W,
    /// Why the last write failed, if it did.
    failed: Option<ErrorKind>,
}

impl<W: Write + Drop> OutputBytes<W> {
    /// A writer to this one.
    pub(crate) fn new(inner: W) -> Self {
        OutputBytes {
            inner,
            failed: None,
        }
    }

    /// What is said about a run that ended because a write failed.
    pub(crate) fn detail(&self) -> Detail {
        write_detail(self.failed)
    }
}

/// What is said about a run that ended because a write failed for this reason.
pub(crate) fn write_detail(kind: Option<ErrorKind>) -> Detail {
    match kind {
        Some(ErrorKind::BrokenPipe) => Detail::Unread,
        Some(ErrorKind::StorageFull) => Detail::Words(
            "no space is left where standard output goes",
        ),
        _ => Detail::Nothing,
    }
}

impl<W: Write + Drop> Write for OutputBytes<W> {
    ghost contents = { λ s. W.contents s.inner };

    fn write(&mut self, bytes: &[u8]) -> io::Result<usize> {
        let wrote = self.inner.write(bytes);
        self.failed = match &wrote {
            Ok(_) => None,
            Err(error) => Some(error.kind()),
        };
        wrote
    }

    fn flush(&mut self) -> io::Result<()> {
        self.inner.flush()
    }
}
