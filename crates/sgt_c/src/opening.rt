//! Opening and closing a handle: with an opening, with rows of the caller as well, or with limits only.
ghost use Rattle.std.specs.Prelude.{◌≡◌, ◌≢◌, ◌<◌, ◌≤◌, ◌↔◌, [], None, IsNone, IsSome, IfSome, IfOk, IfErr, OnOk};
ghost use Rattle.std.specs.List.{All};
ghost use Rattle.sgt_model.specs.Bounds.{AreInRange};
ghost use Rattle.sgt_model.specs.Contents.{Key, put_in};
ghost use Rattle.sgt_model.specs.Databases.{contents_of};
ghost use Rattle.sgt_engine.specs.EngineView.{made_of};
ghost use Rattle.sgt_format.specs.Openings.{Refuses};
ghost use Rattle.sgt_c.specs.BareOpenings.{AreLimits, limits_by};
ghost use Rattle.sgt_c.specs.KeptFields.{KeepsOtherFaultFields};
ghost use Rattle.sgt_c.specs.Openings.{OpenedAs, OpenedWith, RefusedAs};
ghost use Rattle.sgt_c.specs.Rows.{IsRow, row_of, with_rows};
ghost use Rattle.sgt_c.specs.Handles.{IsBusy, LeavesFree, VisitsToOpen};

use crate::fault_struct::{SgtFault, write_fault};
use crate::handle::Handle;
use crate::held::Held;
use crate::row_struct::{SgtRow, first_bad, keyed_row};
use crate::status;
use sgt_assembly::{SgtEngine, open_engine};
use sgt_format::{Opening, OpeningError, read_opening};
use sgt_model::{Asks, Database, Limits, MOST_BEGINS, MOST_LIVE, MakeError, NoMemory};
use sgt_rows::Rows;
use std::alloc::Global;

/// Ends the function with a status if a call is in the handle, or the handle is open.
macro_rules! must_be_closed {
    ($engine:expr) => {{
        if $engine.is_busy() {
            return status::BUSY;
        }
        if $engine.is_open() {
            return status::OPEN;
        }
    }};
}

/// Opens an engine in a closed handle. The bytes are an opening: the first line of a script, without its end.
///
/// - `BUSY`, tested first.
/// - `OPEN`: the handle is open.
/// - `NO_MEMORY`: an allocation failed.
/// - From 16 on: a fault of the opening, which is written to `fault`.
pub fn sgt_open(alloc: Global, engine: &mut Handle, opening: &[u8], fault: &mut SgtFault) -> u32
    ensures opened { result ≡ 0 → IfSome engine.new.slot.held (λ h. OpenedAs opening.now h.engine) }
    ensures first_part { result ≡ 0 → IfSome engine.new.slot.held (λ h. h.part ≡ 0) }
    ensures is_open { result ≡ 0 → IsSome engine.new.slot.held }
    ensures visits { VisitsToOpen result engine.old.state engine.new.state }
    ensures open { (result ≡ 3) ↔ IsSome engine.old.slot.held }
    ensures refused { 16 ≤ result → (result ≡ fault.new.kind) × RefusedAs opening.now fault.new }
    ensures unwritten { result ≢ 1 → result < 16 → fault.new ≡ fault.old }
    ensures fault_kept { KeepsOtherFaultFields fault.old fault.new }
    ensures unchanged { result ≢ 0 → engine.new.slot.held ≡ engine.old.slot.held }
{
    must_be_closed!(engine);
    match make(alloc, opening) {
        Ok(held) => {
            engine.put(held);
            status::OK
        }
        Err(error) => write_fault(fault, &error),
    }
}

/// The engine of the opening that these bytes spell.
fn make(alloc: Global, opening: &[u8]) -> Result<Box<Held>, OpeningError>
    ensures opened { IfOk result (λ h. OpenedAs opening.now h.value.engine) }
    ensures first_part { IfOk result (λ h. h.value.part ≡ 0) }
    ensures refused { IfErr result (Refuses 1 opening.now) }
{
    let opening = read_opening(alloc, 1, opening)?;
    let engine = open_engine(alloc, opening)?;
    Ok(Held::boxed(alloc, engine)?)
}

/// Opens an engine as `sgt_open` does, and then writes these rows into the database of the opening's accounts, one
/// after another. Each row replaces the value of its key, or is a new record. Use it to continue from a database that
/// is stored elsewhere.
///
/// - `BUSY`, tested first.
/// - `OPEN`: the handle is open.
/// - `BAD_CALL`, tested next: a row is out of its range.
/// - `NO_MEMORY`: an allocation failed.
/// - From 16 on: a fault of the opening, which is written to `fault`.
pub fn sgt_open_with(
    alloc: Global,
    engine: &mut Handle,
    opening: &[u8],
    rows: &[SgtRow],
    fault: &mut SgtFault,
) -> u32
    ensures opened { result ≡ 0 → IfSome engine.new.slot.held (λ h. OpenedWith opening.now rows.now h.engine) }
    ensures first_part { result ≡ 0 → IfSome engine.new.slot.held (λ h. h.part ≡ 0) }
    ensures is_open { result ≡ 0 → IsSome engine.new.slot.held }
    ensures visits { VisitsToOpen result engine.old.state engine.new.state }
    ensures open { (result ≡ 3) ↔ IsSome engine.old.slot.held }
    ensures bad_call { (result ≡ 5) ↔ ((¬ IsBusy engine.old.state) × (engine.old.slot.held ≡ None) × (¬ All IsRow rows.now)) }
    ensures refused { 16 ≤ result → (result ≡ fault.new.kind) × RefusedAs opening.now fault.new }
    ensures unwritten { result ≢ 1 → result < 16 → fault.new ≡ fault.old }
    ensures fault_kept { KeepsOtherFaultFields fault.old fault.new }
    ensures unchanged { result ≢ 0 → engine.new.slot.held ≡ engine.old.slot.held }
{
    must_be_closed!(engine);
    if first_bad(rows).is_some() {
        return status::BAD_CALL;
    }
    match make_with(alloc, opening, rows) {
        Ok(held) => {
            engine.put(held);
            status::OK
        }
        Err(error) => write_fault(fault, &error),
    }
}

/// The engine of the opening that these bytes spell, with these rows written into its database.
fn make_with(alloc: Global, opening: &[u8], rows: &[SgtRow]) -> Result<Box<Held>, OpeningError>
    requires { All IsRow rows.now }
    ensures opened { IfOk result (λ h. OpenedWith opening.now rows.now h.value.engine) }
    ensures first_part { IfOk result (λ h. h.value.part ≡ 0) }
    ensures refused { IfErr result (Refuses 1 opening.now) }
{
    let opening = read_opening(alloc, 1, opening)?;
    let database = with_rows(alloc, opening.database, rows)?;
    let engine = open_engine(
        alloc,
        Opening {
            database,
            ..opening
        },
    )?;
    Ok(Held::boxed(alloc, engine)?)
}

/// The database after rows are written into it, one after another.
fn with_rows(alloc: Global, database: Database, rows: &[SgtRow]) -> Result<Database, NoMemory>
    requires { All IsRow rows.now }
    ensures { IfOk result (λ d. (k : Key) → contents_of d k ≡ with_rows (contents_of database) rows.now k) }
{
    let mut all = Rows::of(alloc, database);
    for row in rows {
        put_row(&mut all, row)?;
    }
    all.database(alloc)
}

/// Writes a row: it replaces the value of its key, or is a new record.
fn put_row(rows: &mut Rows, row: &SgtRow) -> Result<(), NoMemory>
    requires { IsRow row.now }
    ensures { OnOk result ((k : Key) →
        contents_of rows.new k ≡ put_in (contents_of rows.old) (row_of row.now).0 row.now.value k) }
{
    let (key, value) = keyed_row(row);
    rows.put(key, value)
}

/// Opens an engine in a closed handle with these three limits. It has no records and no procedures, not even those of
/// SmallBank. Add rows with `sgt_put` and procedures with `sgt_procedure`, which numbers them from 0.
///
/// - `BUSY`, tested first.
/// - `OPEN`: the handle is open.
/// - `BAD_LIMITS`, tested next: a limit is out of its range.
/// - `NO_MEMORY`: an allocation failed.
pub fn sgt_open_bare(alloc: Global, engine: &mut Handle, live: u64, begins: u64, asks: u64) -> u32
    ensures opened { result ≡ 0 → IfSome engine.new.slot.held (λ h.
        h.engine ≡ made_of [] [] (limits_by live begins asks)) }
    ensures first_part { result ≡ 0 → IfSome engine.new.slot.held (λ h. h.part ≡ 0) }
    ensures is_open { result ≡ 0 → IsSome engine.new.slot.held }
    ensures visits { VisitsToOpen result engine.old.state engine.new.state }
    ensures open { (result ≡ 3) ↔ IsSome engine.old.slot.held }
    ensures bad_limits { (result ≡ 18) ↔ ((¬ IsBusy engine.old.state) × (engine.old.slot.held ≡ None) × (¬ AreLimits live begins asks)) }
    ensures statuses { result ≢ 10 → result ≢ 3 → result ≢ 18 → result ≤ 1 }
    ensures unchanged { result ≢ 0 → engine.new.slot.held ≡ engine.old.slot.held }
{
    must_be_closed!(engine);
    let Some(limits) = limits(live, begins, asks) else {
        return status::BAD_LIMITS;
    };
    match make_bare(alloc, limits) {
        Ok(held) => {
            engine.put(held);
            status::OK
        }
        Err(NoMemory) => status::NO_MEMORY,
    }
}

/// The limits of these numbers, unless one is out of its range.
fn limits(live: u64, begins: u64, asks: u64) -> Option<Limits>
    ensures limits { IfSome result (λ limits. limits ≡ limits_by live begins asks) }
    ensures in_range { IfSome result AreInRange }
    ensures none { IsNone result ↔ (¬ AreLimits live begins asks) }
{
    let live_fits = 1 <= live && live <= u64::from(MOST_LIVE);
    let begins_fits = 1 <= begins && begins <= u64::from(MOST_BEGINS);
    if !live_fits || !begins_fits || asks > 1 {
        return None;
    }
    Some(Limits {
        live: live as u32,
        begins: begins as u32,
        asks: if asks == 1 {
            Asks::AtCommit
        } else {
            Asks::AtStep
        },
    })
}

/// An engine with these limits, without records and procedures.
fn make_bare(alloc: Global, limits: Limits) -> Result<Box<Held>, NoMemory>
    requires { AreInRange limits }
    ensures opened { IfOk result (λ h. h.value.engine ≡ made_of [] [] limits) }
    ensures first_part { IfOk result (λ h. h.value.part ≡ 0) }
{
    match SgtEngine::new(alloc, Database::empty(alloc), Vec::new(alloc), limits) {
        Ok(engine) => Held::boxed(alloc, engine),
        Err(MakeError::NoMemory) => Err(NoMemory),
        Err(MakeError::BadLimits) => unreachable!(),
    }
}

/// Closes the handle, and frees all memory of the engine. A closed handle stays closed, and a busy one is left as it
/// is.
pub fn sgt_close(alloc: Global, engine: &mut Handle)
    ensures closed { engine.new.slot.held ≡ None }
    ensures leaves { LeavesFree engine.old.state engine.new.state }
{
    if let Some(held) = engine.take(alloc) {
        drop(held);
        *engine = Handle::closed(alloc);
    }
}
