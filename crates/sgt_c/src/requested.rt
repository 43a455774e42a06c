//! What C asks for, as numbers that may be out of range.
ghost use Rattle.std.specs.Prelude.{◌≡◌, ◌≤◌, ◌↔◌, IsNone, IsTrue, IfSome, length};
ghost use Rattle.sgt_model.specs.Numbers.{IsValue};
ghost use Rattle.sgt_c.specs.Asked.{IsCall};

use sgt_model::{Args, Key};

/// Whether the procedure number is at most 65535 and there are at most 4 arguments.
pub fn is_call(procedure: u64, args: &[i64]) -> bool
    ensures { IsTrue result ↔ IsCall procedure args.now }
{
    procedure <= 65_535 && args.len() <= 4
}

/// The arguments of a call.
#[inline(always)]
pub fn arguments(args: &[i64]) -> Args
    requires { length args.now ≤ 4 }
    ensures { result ≡ args.now }
{
    let mut list = Args::new();
    for arg in args {
        list.push(*arg);
    }
    list
}

/// The key of a table and a number, unless the table is over 7 or the number is no value.
pub fn keyed(table: u64, number: i64) -> Option<Key>
    ensures key { IfSome result (λ key. key ≡ (table, number)) }
    ensures none { IsNone result ↔ (¬ ((table ≤ 7) × IsValue number)) }
{
    if table > 7 {
        return None;
    }
    Key::new(table as u8, number)
}
