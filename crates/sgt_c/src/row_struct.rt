//! A record and its value, for C, and whether they are in their ranges.
ghost use Rattle.std.specs.Prelude.{◌≡◌, ◌↔◌, IsNone, IfSome, IsTrue};
ghost use Rattle.std.specs.List.{All};
ghost use Rattle.sgt_c.specs.Puts.{IsFirstBad};
ghost use Rattle.sgt_c.specs.Rows.{IsRow, row_of};

use sgt_model::{Key, is_value};

/// A record and its value, for C.
#[repr(C)]
#[derive(Clone, Copy)]
pub struct SgtRow {
    pub table: u32,
    pub spare: u32,
    pub number: i64,
    pub value: i64,
}

/// The index of the first row that is out of its range.
pub fn first_bad(rows: &[SgtRow]) -> Option<usize>
    ensures all { IsNone result ↔ All IsRow rows.now }
    ensures first { IfSome result (IsFirstBad rows.now) }
{
    for (index, row) in rows.iter().enumerate() {
        if !is_row(row) {
            return Some(index);
        }
    }
    None
}

fn is_row(row: &SgtRow) -> bool
    ensures { IsTrue result ↔ IsRow row.now }
{
    row.table <= 7 && is_value(row.number) && is_value(row.value)
}

/// The key and the value of a row.
pub fn keyed_row(row: &SgtRow) -> (Key, i64)
    requires { IsRow row.now }
    ensures { result ≡ row_of row.now }
{
    let Some(key) = Key::new(row.table as u8, row.number) else {
        unreachable!();
    };
    (key, row.value)
}
