//! The committed database, row by row.
ghost use Rattle.std.specs.Prelude.{◌≡◌, ◌≢◌, ◌≤◌, IfOk, OnErr, length, drop};
ghost use Rattle.sgt_model.specs.Databases.{IsByKey};
ghost use Rattle.sgt_c.specs.Asked.{IsRecord};
ghost use Rattle.sgt_c.specs.Rows.{AreCounted, AreWritten, CountsRows, HoldRows, ReturnsRows, row_of, rows_from};
ghost use Rattle.sgt_c.specs.Handles.{Visits, VisitsIf};

use crate::handle::{Handle, take_held};
use crate::requested::keyed;
use crate::row_struct::SgtRow;
use crate::status;
use sgt_assembly::SgtEngine;
use sgt_model::{Key, NoMemory};
use std::alloc::Global;

/// The committed database from a key on, by table and then by number. The first rows are written to `rows`, as many as
/// fit. `count` is the number of all rows from there.
///
/// The first call after an event scans all records, and allocates memory for the rows. The engine keeps them, so until the
/// next event each further page costs a search and the rows that it writes. While the history is empty, so does the first
/// one.
///
/// - `BAD_CALL`, tested first: the table is over 7, or the number is no value.
/// - `BUSY`; `CLOSED`; `NO_MEMORY`.
pub fn sgt_rows(
    alloc: Global,
    engine: &mut Handle,
    table: u64,
    number: i64,
    rows: &mut [SgtRow],
    count: &mut u64,
) -> u32
    ensures returned { result ≡ 0 → ReturnsRows engine.old.slot.held (table, number) rows.new count.new }
    ensures rest { drop count.new rows.new ≡ drop count.new rows.old }
    ensures capacity { length rows.new ≡ length rows.old }
    ensures visits { VisitsIf (IsRecord table number) result engine.old.state engine.old.slot.held engine.new.state }
    ensures statuses { result ≢ 10 → result ≢ 5 → result ≤ 2 }
    ensures unwritten { result ≢ 0 → (rows.new ≡ rows.old) × (count.new ≡ count.old) }
    ensures same { engine.new.slot.held ≡ engine.old.slot.held }
{
    let Some(key) = keyed(table, number) else {
        return status::BAD_CALL;
    };
    let mut held = take_held!(alloc, engine);
    let written = write_committed(alloc, &mut held.engine, key, rows);
    engine.put(held);
    match written {
        Ok(all) => {
            *count = all as u64;
            status::OK
        }
        Err(NoMemory) => status::NO_MEMORY,
    }
}

/// How many records the committed database has. The call costs as much as one of `sgt_rows` that writes no row.
///
/// `BUSY`; `CLOSED`; `NO_MEMORY`.
pub fn sgt_records(alloc: Global, engine: &mut Handle, count: &mut u64) -> u32
    ensures counted { result ≡ 0 → CountsRows engine.old.slot.held count.new }
    ensures visits { Visits result engine.old.state engine.old.slot.held engine.new.state }
    ensures statuses { result ≢ 10 → result ≤ 2 }
    ensures kept { result ≢ 0 → count.new ≡ count.old }
    ensures same { engine.new.slot.held ≡ engine.old.slot.held }
{
    let mut held = take_held!(alloc, engine);
    let counted = count_committed(alloc, &mut held.engine);
    engine.put(held);
    match counted {
        Ok(all) => {
            *count = all as u64;
            status::OK
        }
        Err(NoMemory) => status::NO_MEMORY,
    }
}

/// Writes the committed rows from a key on, as many as fit, and returns the number of all from there. The engine keeps the
/// database for the next call.
fn write_committed(
    alloc: Global,
    engine: &mut SgtEngine,
    key: Key,
    to: &mut [SgtRow],
) -> Result<usize, NoMemory>
    ensures returned { IfOk result (λ count. AreWritten engine.old key to.new count) }
    ensures rest { IfOk result (λ count. drop count to.new ≡ drop count to.old) }
    ensures capacity { length to.new ≡ length to.old }
    ensures unwritten { OnErr result (to.new ≡ to.old) }
    ensures same { engine.new ≡ engine.old }
{
    if let Some(rows) = engine.rows_at_hand() {
        return Ok(write_from(rows, key, to));
    }
    let database = engine.database(alloc)?;
    let count = write_from(database.rows(), key, to);
    engine.keep(database);
    Ok(count)
}

/// How many rows are committed. The engine keeps the database for the next call.
fn count_committed(alloc: Global, engine: &mut SgtEngine) -> Result<usize, NoMemory>
    ensures count { IfOk result (AreCounted engine.old) }
    ensures same { engine.new ≡ engine.old }
{
    if let Some(rows) = engine.rows_at_hand() {
        return Ok(rows.len());
    }
    let database = engine.database(alloc)?;
    let count = database.rows().len();
    engine.keep(database);
    Ok(count)
}

/// Writes the rows from a key on, as many as fit, and returns the number of all from there.
fn write_from(rows: &[(Key, i64)], key: Key, to: &mut [SgtRow]) -> usize
    requires { IsByKey rows.now }
    ensures written { HoldRows to.new (rows_from key rows.now) }
    ensures count { result ≡ length (rows_from key rows.now) }
    ensures rest { drop result to.new ≡ drop result to.old }
    ensures capacity { length to.new ≡ length to.old }
{
    let from_key = rows_from(rows, key);
    write_rows(to, from_key);
    from_key.len()
}

/// The rows from the first key that is not less than this one, by binary search.
fn rows_from(rows: &[(Key, i64)], key: Key) -> &[(Key, i64)]
    requires { IsByKey rows.now }
    ensures { result.now ≡ rows_from key rows.now }
{
    let mut low = 0;
    let mut high = rows.len();
    while low < high {
        let middle = low + (high - low) / 2;
        if rows[middle].0 < key {
            low = middle + 1;
        } else {
            high = middle;
        }
    }
    &rows[low..]
}

/// Writes rows for C, as many as fit, and leaves the rest.
fn write_rows(to: &mut [SgtRow], rows: &[(Key, i64)])
    ensures returned { HoldRows to.new rows.now }
    ensures rest { drop (length rows.now) to.new ≡ drop (length rows.now) to.old }
    ensures capacity { length to.new ≡ length to.old }
{
    let count = to.len().min(rows.len());
    for i in 0..count {
        to[i] = reported_row(&rows[i]);
    }
}

fn reported_row(row: &(Key, i64)) -> SgtRow
    ensures { row_of result ≡ row.now }
{
    let (key, value) = *row;
    SgtRow {
        table: key.table() as u32,
        spare: 0,
        number: key.id(),
        value,
    }
}
