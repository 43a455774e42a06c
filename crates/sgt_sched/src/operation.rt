//! What an access does with a record.
ghost use Rattle.std.specs.Prelude.{◌≡◌, true, false, IfSome, IsNone};
ghost use Rattle.sgt_model.specs.Progress.{requested, is_fit};
ghost use Rattle.sgt_sched.specs.Operations.{kind_of, next_of, of_kind, WritesValue};

use sgt_model::{Key, Kind, Request, is_value};

/// What an access does with a record.
#[derive(Clone, Copy)]
pub enum Operation {
    /// It reads the value.
    Look,
    /// It writes this value, or removes it.
    Store(Option<i64>),
}

impl Operation {
    /// Its kind.
    #[inline(always)]
    pub fn kind(self) -> Kind
        ensures { result ≡ kind_of self }
    {
        match self {
            Operation::Look => Kind::Look,
            Operation::Store(_) => Kind::Store,
        }
    }

    /// Its kind, and what it writes if it writes.
    #[inline(always)]
    pub fn parts(self) -> (Kind, Option<i64>)
        ensures kind { result.0 ≡ kind_of self }
        ensures same { of_kind result.0 result.1 ≡ self }
    {
        match self {
            Operation::Look => (Kind::Look, None),
            Operation::Store(value) => (Kind::Store, value),
        }
    }

    /// The operation of this kind. If it writes, it writes this.
    #[inline(always)]
    pub fn of(kind: Kind, value: Option<i64>) -> Operation
        ensures { result ≡ of_kind kind value }
    {
        match kind {
            Kind::Look => Operation::Look,
            Kind::Store => Operation::Store(value),
        }
    }
}

/// What an access that a caller asks for does with which record; none if it writes a number that is no value.
pub fn operation_of(request: Request) -> Option<(Key, Operation)>
    ensures same { IfSome result (λ a. next_of a.0 a.1 ≡ requested request) }
    ensures fit { IfSome result (λ a. is_fit request ≡ true) }
    ensures in_range { IfSome result (λ a. WritesValue a.1) }
    ensures unfit { IsNone result → is_fit request ≡ false }
{
    match request {
        Request::Read(key) => Some((key, Operation::Look)),
        Request::Write(key, value) => {
            let fits = match value {
                Some(number) => is_value(number),
                None => true,
            };
            if fits {
                Some((key, Operation::Store(value)))
            } else {
                None
            }
        }
    }
}
