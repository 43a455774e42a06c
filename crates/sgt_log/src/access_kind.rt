//! What an access that a caller decided on does to its record.
ghost use Rattle.std.specs.Prelude.{◌≡◌};
ghost use Rattle.sgt_log.specs.EntryParts.{kind_in, key_in, request_args, request_with, arg_count, AreArgs};

use crate::key_of::key_of;
use sgt_model::{Args, Key, Request};

/// Whether an access reads its record, writes a value to it, or removes it.
#[derive(Clone, Copy, PartialEq, Eq)]
pub enum AccessKind {
    Read,
    Write,
    Remove,
}

impl AccessKind {
    /// The kind of a request.
    pub fn of(request: &Request) -> Self
        ensures { result ≡ kind_in request.now }
    {
        match request {
            Request::Read(_) => AccessKind::Read,
            Request::Write(_, Some(_)) => AccessKind::Write,
            Request::Write(_, None) => AccessKind::Remove,
        }
    }

    /// How many arguments a request of this kind has: the number of its record, and the value that it writes.
    pub fn arg_count(self) -> u8
        ensures { result ≡ arg_count self }
    {
        match self {
            AccessKind::Read | AccessKind::Remove => 1,
            AccessKind::Write => 2,
        }
    }

    /// The request of this kind for a record of this table, with these arguments.
    pub fn request(self, table: u8, args: &[i64]) -> Request
        requires { AreArgs self table args.now }
        ensures { result ≡ request_with self table args.now }
    {
        let key = key_of(table, args[0]);
        match self {
            AccessKind::Read => Request::Read(key),
            AccessKind::Write => Request::Write(key, Some(args[1])),
            AccessKind::Remove => Request::Write(key, None),
        }
    }
}

/// The key of a request.
pub fn key_in(request: &Request) -> Key
    ensures { result ≡ key_in request.now }
{
    match request {
        Request::Read(key) | Request::Write(key, _) => *key,
    }
}

/// The arguments of a request: the number of its record, and the value that it writes.
pub fn request_args(request: &Request) -> Args
    ensures args { result ≡ request_args request.now }
    ensures own { AreArgs (kind_in request.now) (key_in request.now).0 result }
{
    let key = key_in(request);
    // Its table, which says to the proof that it is a key's.
    let _table = key.table();
    let mut args = Args::new();
    args.push(key.id());
    if let Request::Write(_, Some(value)) = request {
        args.push(*value);
    }
    args
}
