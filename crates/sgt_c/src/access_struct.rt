//! The struct of an access for C, as a journal keeps it.
ghost use Rattle.std.specs.Prelude.{◌≡◌};
ghost use Rattle.sgt_model.specs.Runs.{reported, wrote};
ghost use Rattle.sgt_c.specs.AccessStructs.{kinded, said, value_in};

use sgt_model::Key;

/// An access that a transaction's caller decided on, for C.
#[repr(C)]
#[derive(Clone, Copy)]
pub struct SgtAccess {
    /// As of the event: 5 a read, 6 a write, 7 a removal.
    pub kind: u32,
    pub table: u32,
    pub number: i64,
    /// The value that was read or written, or 0.
    pub value: i64,
    /// Whether there is a value: 1 or 0.
    pub found: u32,
    pub spare: u32,
}

impl SgtAccess {
    /// A read, with what it found.
    pub fn read(key: Key, value: Option<i64>) -> SgtAccess
        ensures { said result ≡ kinded (reported key value) }
    {
        SgtAccess::new(5, key, value)
    }

    /// A write of a value, or a removal.
    pub fn written(key: Key, value: Option<i64>) -> SgtAccess
        ensures { said result ≡ kinded (wrote key value) }
    {
        let kind = if value.is_some() { 6 } else { 7 };
        SgtAccess::new(kind, key, value)
    }

    fn new(kind: u32, key: Key, value: Option<i64>) -> SgtAccess
        ensures kind { result.kind ≡ kind }
        ensures key { (result.table, result.number) ≡ key }
        ensures value { value_in result ≡ value }
    {
        let (found, value) = match value {
            Some(value) => (1, value),
            None => (0, 0),
        };
        SgtAccess {
            kind,
            table: key.table() as u32,
            number: key.id(),
            value,
            found,
            spare: 0,
        }
    }
}
