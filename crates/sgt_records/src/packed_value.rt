//! A written value, or none, in 8 bytes.
ghost use Rattle.std.specs.Prelude.{◌≡◌, IfSome};
ghost use Rattle.sgt_model.specs.Numbers.{IsValue};

use sgt_model::LEAST;
use std::marker::Model;

/// What was written: a value, or none, which removes the record. It takes 8 bytes: the number below `LEAST` stands for none.
#[derive(Clone, Copy, Default)]
pub struct PackedValue {
    number: i64,
}

impl Model for PackedValue {
    ghost use Rattle.std.specs.Prelude.{ℤ, ◌≤ℤ◌, Option};
    ghost use Rattle.std.specs.Option.{unwrap_or};
    ghost use Rattle.sgt_records.specs.PackedValues.{none_number, value_of_number};

    ghost Value = { Option ℤ };

    ghost view = { λ p. value_of_number p.number };

    ghost invariant = { λ p. none_number ≤ℤ p.number };

    ghost inverse = { λ v. record { number = unwrap_or v none_number } };
}

impl PackedValue {
    /// The packed form of a value, or of none.
    #[inline(always)]
    pub fn of(value: Option<i64>) -> PackedValue
        requires { IfSome value IsValue }
        ensures { result ≡ value }
    {
        PackedValue {
            number: match value {
                Some(number) => number,
                None => LEAST - 1,
            },
        }
    }

    /// The value, or none.
    #[inline(always)]
    pub fn get(self) -> Option<i64>
        ensures { result ≡ self }
    {
        if self.number < LEAST {
            None
        } else {
            Some(self.number)
        }
    }
}
