//! The input of a run: standard input, or a file that an argument names.

use clap::ArgMatches;
use std::fs::{File, OpenFile};
use std::io::{self, ErrorKind, Input, Read};
use std::rt::Files;
use thiserror::Error;

/// The name of the argument that names a file.
pub(crate) const FILE: &str = "file";

/// The name that stands for standard input.
const STANDARD_INPUT: &str = "-";

/// The file that the options name. None is standard input.
pub(crate) fn named_file<'a>(options: &'a ArgMatches<'_>) -> Option<&'a str> {
    match options.get_str(FILE) {
        Some(name) if name == STANDARD_INPUT => None,
        name => name,
    }
}

/// The bytes of standard input, or of a file.
#[derive(Drop)]
pub(crate) enum InputBytes<I: Read + Drop, F: Read + Drop> {
    Standard(I),
    File(F),
}

impl<I: Read + Drop, F: Read + Drop> Read for InputBytes<I, F> {
    fn read(&mut self, buffer: &mut [u8]) -> io::Result<usize> {
        match self {
            InputBytes::Standard(standard) => standard.read(buffer),
            InputBytes::File(file) => file.read(buffer),
        }
    }
}

impl<I: Read + Drop, F: Read + OpenFile + Drop> InputBytes<I, F> {
    /// How many bytes the file has. Of standard input, and of a device, this is not known.
    pub(crate) fn size(&self) -> Option<u64> {
        match self {
            InputBytes::Standard(_) => None,
            InputBytes::File(file) => match file.metadata() {
                Ok(about) if about.is_file() => Some(about.len()),
                _ => None,
            },
        }
    }
}

/// Why a file is not read. Lines are counted from 1.
#[derive(Clone, Copy, Debug, Error)]
pub(crate) enum FileFlaw {
    #[error("no such file")]
    Missing,
    #[error("it is a directory")]
    Directory,
    #[error("no permission")]
    Forbidden,
    #[error("it cannot be opened")]
    Closed,
    #[error("reading failed")]
    Reading,
    #[error("it has more than 65536 bytes")]
    TooLong,
    /// The line gives no code words.
    #[error("line {0}: expected [procedure,code,\"words\"], as [5,10,\"too little money\"]; the words have 1 to 200 bytes")]
    BadLine(usize),
    /// The line gives words to this procedure's code, which has some.
    #[error("line {0}: code {2} of procedure {1} has words already")]
    Twice(usize, u16, u16),
    #[error("no memory")]
    NoMemory,
}

/// A file that is not read.
#[derive(Clone, Copy, Debug, Error)]
#[error("cannot read {name}: {flaw}")]
pub(crate) struct FileFault<'a> {
    pub name: &'a str,
    pub flaw: FileFlaw,
}

/// The file with this name, or standard input if there is none.
///
/// # Errors
///
/// A `FileFault` if there is no such file, it is a directory, or it cannot be opened.
pub(crate) fn open_input<'a, R: Input + Files>(
    rt: &R,
    name: Option<&'a str>,
) -> Result<InputBytes<R::Reader, R::File>, FileFault<'a>> {
    let Some(name) = name else {
        return Ok(InputBytes::Standard(rt.reader()));
    };
    match open_file(rt, name) {
        Ok(file) => Ok(InputBytes::File(file)),
        Err(flaw) => Err(FileFault { name, flaw }),
    }
}

/// The file with this name, which is no directory.
pub(crate) fn open_file<R: Files>(rt: &R, name: &str) -> Result<R::File, FileFlaw> {
    let file = match File::open(rt, name) {
        Ok(file) => file,
        Err(error) => return Err(flaw_of(error.kind())),
    };
    match file.metadata() {
        Ok(about) if about.is_dir() => Err(FileFlaw::Directory),
        _ => Ok(file),
    }
}

/// Where the system has standard input as a file.
const STANDARD: &str = "/dev/stdin";

/// Whether standard input is a directory.
pub(crate) fn is_folder<R: Files>(rt: &R) -> bool {
    matches!(open_file(rt, STANDARD), Err(FileFlaw::Directory))
}

/// The flaw of a file that gives this error when it is opened.
fn flaw_of(kind: ErrorKind) -> FileFlaw {
    match kind {
        ErrorKind::NotFound => FileFlaw::Missing,
        ErrorKind::PermissionDenied => FileFlaw::Forbidden,
        ErrorKind::IsADirectory => FileFlaw::Directory,
        _ => FileFlaw::Closed,
    }
}
