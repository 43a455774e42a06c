//! The key of stored parts.
ghost use Rattle.std.specs.Prelude.{◌≡◌, ◌≤◌};
ghost use Rattle.sgt_model.specs.Numbers.{IsValue};

use sgt_model::Key;

/// The key of a table and a number that are a key's.
pub fn key_of(table: u8, id: i64) -> Key
    requires { (table ≤ 7) × IsValue id }
    ensures { result ≡ (table, id) }
{
    match Key::new(table, id) {
        Some(key) => key,
        None => unreachable!(),
    }
}
