//! Adding the caller's rows to the initial database.
ghost use Rattle.std.specs.Prelude.{◌≡◌, ◌≢◌, ◌≤◌, ◌↔◌, [], Err, IfErr, IfOk, OnOk, OnErr, map};
ghost use Rattle.std.specs.List.{All};
ghost use Rattle.sgt_model.specs.Databases.{HasValues};
ghost use Rattle.sgt_engine.specs.Puts.{AreRefused, PutsRows};
ghost use Rattle.sgt_c.specs.Puts.{HasBegun, IsFirstBad, IsTakenIn, Put};
ghost use Rattle.sgt_c.specs.Rows.{IsRow, row_of};
ghost use Rattle.sgt_c.specs.Handles.{VisitsIf};

use crate::handle::{Handle, take_held};
use crate::held::Held;
use crate::row_struct::{SgtRow, first_bad, keyed_row};
use crate::status;
use sgt_engine::PutError;
use sgt_model::{Key, NoMemory};
use std::alloc::Global;

/// Adds rows to the initial database: values at keys that have none. The history must be empty. Use it to open an
/// engine on your own store, in one call or in several. The call scans all records, and allocates memory for them and
/// for the rows meanwhile.
///
/// - `BAD_CALL`, tested first: a row is out of its range; the index of the first such row is written to `at`.
/// - `BUSY`; `CLOSED`.
/// - `BEGUN`: there is a history.
/// - `TAKEN`: the key of a row has a value, or is the key of an earlier row; the index of the first such row is written
/// to `at`.
/// - `NO_MEMORY`: an allocation failed.
pub fn sgt_put(alloc: Global, engine: &mut Handle, rows: &[SgtRow], at: &mut u64) -> u32
    ensures put { result ≡ 0 → Put engine.old.slot.held rows.now engine.new.slot.held }
    ensures unchanged { result ≢ 0 → engine.new.slot.held ≡ engine.old.slot.held }
    ensures bad_row { result ≡ 5 → IsFirstBad rows.now at.new }
    ensures visits { VisitsIf (All IsRow rows.now) result engine.old.state engine.old.slot.held engine.new.state }
    ensures begun { (result ≡ 7) ↔ (All IsRow rows.now × HasBegun engine.old.slot.held) }
    ensures taken { result ≡ 8 → IsTakenIn engine.old.slot.held rows.now at.new }
    ensures kept { result ≢ 5 → result ≢ 8 → at.new ≡ at.old }
    ensures statuses { result ≢ 10 → result ≢ 5 → result ≢ 7 → result ≢ 8 → result ≤ 2 }
{
    if let Some(bad) = first_bad(rows) {
        *at = bad as u64;
        return status::BAD_CALL;
    }
    let mut held = take_held!(alloc, engine);
    let put = put(alloc, &mut held, rows);
    engine.put(held);
    match put {
        Ok(()) => status::OK,
        Err(PutError::Begun) => status::BEGUN,
        Err(PutError::Taken(index)) => {
            *at = index as u64;
            status::TAKEN
        }
        Err(PutError::NoMemory) => status::NO_MEMORY,
    }
}

/// Adds rows to the initial database of an engine.
fn put(alloc: Global, held: &mut Held, rows: &[SgtRow]) -> Result<(), PutError>
    requires { All IsRow rows.now }
    ensures put { OnOk result (PutsRows held.old.engine (map row_of rows.now) held.new.engine) }
    ensures part { OnOk result (held.new.part ≡ held.old.part) }
    ensures begun { (result ≡ Err PutError.Begun) ↔ (held.old.engine.past ≢ []) }
    ensures refused { IfErr result (AreRefused held.old.engine (map row_of rows.now)) }
    ensures unchanged { OnErr result (held.new ≡ held.old) }
{
    if !held.engine.is_new() {
        return Err(PutError::Begun);
    }
    let rows = keyed(alloc, rows)?;
    held.engine.put_at_start(alloc, rows.as_slice())
}

/// The rows as keys with their values.
fn keyed(alloc: Global, rows: &[SgtRow]) -> Result<Vec<(Key, i64)>, NoMemory>
    requires { All IsRow rows.now }
    ensures rows { IfOk result (λ keyed. keyed.items ≡ map row_of rows.now) }
    ensures values { IfOk result (λ keyed. HasValues keyed.items) }
{
    let mut keyed = Vec::with_capacity(alloc, rows.len())?;
    for row in rows {
        keyed.push_reserved(keyed_row(row));
    }
    Ok(keyed)
}
