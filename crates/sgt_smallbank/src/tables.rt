//! The tables of SmallBank, and the codes that its procedures raise.

/// The table of the customers by name.
pub(crate) const ACCOUNT: u8 = 0;

/// The table of the savings by customer.
pub(crate) const SAVING: u8 = 1;

/// The table of the checking balances by customer.
pub(crate) const CHECKING: u8 = 2;

/// Raised if no account has the name.
pub(crate) const UNKNOWN_NAME: u16 = 1;

/// Raised if an amount is negative that may not be.
pub(crate) const NEGATIVE_AMOUNT: u16 = 2;

/// Raised if the saving would be negative.
pub(crate) const NEGATIVE_SAVING: u16 = 3;

/// Raised if the money would go from a name to the same name.
pub(crate) const SAME_NAME: u16 = 4;

/// Raised if a customer has no saving or no checking.
pub(crate) const NO_BALANCE: u16 = 5;

/// The penalty of a check that saving and checking together do not cover, in cents.
pub(crate) const PENALTY: i64 = 100;
