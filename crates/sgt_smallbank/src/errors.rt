//! Why no database could be made from accounts.
ghost use Rattle.std.specs.Prelude.{◌≡◌};
ghost use Rattle.sgt_smallbank.specs.declared.errors.BadOpening.TheVariants as bad_opening;

use sgt_model::NoMemory;

/// Why no database could be made from accounts.
#[derive(Clone, Copy)]
pub enum BadOpening {
    /// An account has this fault, and no account before it has one.
    Fault(OpeningFault),
    /// An allocation failed. There are accounts, and none has a fault.
    NoMemory,
}

impl From<NoMemory> for BadOpening {
    ghost from_gives = { λ _ error. error ≡ bad_opening.NoMemory };

    fn from(_: NoMemory) -> Self {
        BadOpening::NoMemory
    }
}

/// The fault of an account. A number out of range is reported first, then the name, then the customer.
#[derive(Clone, Copy, Debug)]
pub enum OpeningFault {
    /// An earlier account has the same name.
    SameName,
    /// An earlier account has the same customer.
    SameCustomer,
    /// One of its four numbers does not lie within fifteen digits.
    Range,
}

impl OpeningFault {
    ghost use Rattle.sgt_smallbank.specs.Accounts.{number_of};

    /// The number that is reported to a user, from 1 to 3.
    pub fn number(self) -> u8
        ensures { result ≡ number_of self }
    {
        match self {
            OpeningFault::SameName => 1,
            OpeningFault::SameCustomer => 2,
            OpeningFault::Range => 3,
        }
    }
}
