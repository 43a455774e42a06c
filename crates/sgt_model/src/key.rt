//! Keys, and the ranges of tables and values.
ghost use Rattle.std.specs.Prelude.{◌≡◌, ◌≤◌, ◌↔◌, IsSome, IfSome, IsTrue};
ghost use Rattle.sgt_model.specs.Numbers.{IsValue, is_value};

use std::marker::Model;

/// The greatest number of a table. The least is 0.
pub const LAST_TABLE: u8 = 7;

/// The least value: minus fifteen nines.
pub const LEAST: i64 = -999_999_999_999_999;

/// The greatest value: fifteen nines. A sum of two values always fits an `i64`.
pub const MOST: i64 = 999_999_999_999_999;

/// Whether a number is a value, from `LEAST` to `MOST`. Record numbers, balances, arguments and literals are values.
pub fn is_value(number: i64) -> bool
    ensures fact { IsTrue result ↔ IsValue number }
    ensures test { result ≡ is_value number }
{
    LEAST <= number && number <= MOST
}

/// The name of a record: its table, from 0 to 7, and its number there, a value. Keys are ordered by table, then by number.
#[derive(Clone, Copy, Debug, PartialEq, Eq, PartialOrd, Ord)]
pub struct Key {
    table: u8,
    id: i64,
}

impl Model for Key {
    ghost use Rattle.std.specs.Prelude.{ℕ, ℤ, ◌≤◌};
    ghost use Rattle.sgt_model.specs.Numbers.{IsValue};

    ghost Value = { ℕ × ℤ };

    ghost view = { λ k. (k.table, k.id) };

    ghost invariant = { λ k. (k.table ≤ 7) × IsValue k.id };

    ghost inverse = { λ k. record { table = k.0; id = k.1 } };
}

impl Key {
    /// The key, or none if the table is over 7 or the number is no value.
    pub fn new(table: u8, id: i64) -> Option<Key>
        ensures made { IfSome result (λ key. key ≡ (table, id)) }
        ensures some { IsSome result ↔ ((table ≤ 7) × IsValue id) }
    {
        if table <= LAST_TABLE && is_value(id) {
            Some(Key { table, id })
        } else {
            None
        }
    }

    /// The table, from 0 to 7.
    pub fn table(&self) -> u8
        ensures value { result ≡ self.now.0 }
        ensures few { result ≤ 7 }
    {
        self.table
    }

    /// The number in the table, a value.
    pub fn id(&self) -> i64
        ensures value { result ≡ self.now.1 }
        ensures in_range { IsValue result }
    {
        self.id
    }
}
