//! Cutting the history.
ghost use Rattle.std.specs.Prelude.{◌≡◌, ◌+◌, ◌≢◌, ◌≤◌, ◌↔◌, IfErr, IfSome, OnOk, OnErr};
ghost use Rattle.sgt_engine.specs.Cuts.{NobodyLive};
ghost use Rattle.sgt_c.specs.Cuts.{Cut, HasNoPart, IsCut, IsLastPart, IsSomeoneLive, IsTooEarly, ReportsLive};
ghost use Rattle.sgt_c.specs.Handles.{Visits};

use crate::handle::{Handle, take_held};
use crate::held::Held;
use crate::status;
use sgt_assembly::SgtEngine;
use sgt_model::NoMemory;
use std::alloc::Global;

/// Forgets the history up to now, if no transaction is live. The engine continues from the committed database, as one
/// that was just opened on it: it has no entries, and numbers transactions from 0. Procedures and limits stay, and the
/// limits count anew. The call scans all records, and allocates memory for them, unless the history is empty.
///
/// - `BUSY`; `CLOSED`.
/// - `STILL_LIVE`, tested next: transactions are live; their number is written to `live`.
/// - `TOO_MANY`: no number is left for another part, after 2^64 - 1 cuts.
/// - `NO_MEMORY`: an allocation failed.
pub fn sgt_cut(alloc: Global, engine: &mut Handle, live: &mut u64) -> u32
    ensures cut { result ≡ 0 → Cut engine.old.slot.held engine.new.slot.held }
    ensures unchanged { result ≢ 0 → engine.new.slot.held ≡ engine.old.slot.held }
    ensures still_live { (result ≡ 6) ↔ IsSomeoneLive engine.old.slot.held }
    ensures live { result ≡ 6 → ReportsLive engine.old.slot.held live.new }
    ensures kept { result ≢ 6 → live.new ≡ live.old }
    ensures visits { Visits result engine.old.state engine.old.slot.held engine.new.state }
    ensures too_many { (result ≡ 9) ↔ IsLastPart engine.old.slot.held }
    ensures statuses { result ≢ 10 → result ≢ 6 → result ≢ 9 → result ≤ 2 }
{
    let mut held = take_held!(alloc, engine);
    let cut = cut(alloc, &mut held);
    engine.put(held);
    match cut {
        Ok(()) => status::OK,
        Err(Uncut::StillLive(count)) => {
            *live = count;
            status::STILL_LIVE
        }
        Err(Uncut::LastPart) => status::TOO_MANY,
        Err(Uncut::NoMemory) => status::NO_MEMORY,
    }
}

/// The number of the current part of the history: how many cuts there were since the engine was opened. Part and
/// transaction number together name one transaction across all parts.
///
/// `BUSY`; `CLOSED`.
pub fn sgt_part(alloc: Global, engine: &mut Handle, part: &mut u64) -> u32
    ensures part { result ≡ 0 → IfSome engine.old.slot.held (λ h. part.new ≡ h.part) }
    ensures visits { Visits result engine.old.state engine.old.slot.held engine.new.state }
    ensures statuses { result ≢ 10 → result ≢ 0 → result ≡ 2 }
    ensures kept { result ≢ 0 → part.new ≡ part.old }
    ensures same { engine.new.slot.held ≡ engine.old.slot.held }
{
    let held = take_held!(alloc, engine);
    *part = held.part;
    engine.put(held);
    status::OK
}

/// Why nothing was cut.
#[derive(Clone, Copy)]
pub enum Uncut {
    /// This many transactions are live.
    StillLive(u64),
    /// No number is left for another part.
    LastPart,
    /// An allocation failed.
    NoMemory,
}

/// Cuts the history if no transaction is live.
#[tactic(auto, using(crate::proofs::CutValues::none_of_none, crate::proofs::CutValues::some_of_some))]
fn cut(alloc: Global, held: &mut Held) -> Result<(), Uncut>
    ensures cut { OnOk result (IsCut held.old.engine held.new.engine) }
    ensures part { OnOk result (held.new.part ≡ held.old.part + 1) }
    ensures not_last { OnOk result (HasNoPart held.old → ⊥) }
    ensures unchanged { OnErr result (held.new ≡ held.old) }
    ensures nobody { OnOk result (NobodyLive held.old.engine.past) }
    ensures refused { IfErr result (IsTooEarly held.old) }
{
    let count = held.engine.sched().live_count() as u64;
    if count > 0 {
        return Err(Uncut::StillLive(count));
    }
    let Some(next) = held.part.checked_add(1) else {
        return Err(Uncut::LastPart);
    };
    match cut_engine(alloc, &mut held.engine) {
        Ok(()) => {
            held.part = next;
            Ok(())
        }
        Err(NoMemory) => Err(Uncut::NoMemory),
    }
}

/// Cuts the history off where no transaction is live. An empty history is left as it is, and so are the records.
#[tactic(auto, using(crate::proofs::CutValues::commits_kept, crate::proofs::CutValues::nothing_cut))]
pub fn cut_engine(alloc: Global, engine: &mut SgtEngine) -> Result<(), NoMemory>
    requires { NobodyLive engine.old.past }
    ensures cut { OnOk result (IsCut engine.old engine.new) }
    ensures unchanged { OnErr result (engine.new ≡ engine.old) }
{
    // The headline holds of the history that this call borrows, and the rows that the next one borrows are by key.
    let _ = engine.history();
    let _ = engine.opening();
    if engine.is_new() {
        return Ok(());
    }
    match engine.cut(alloc) {
        Ok(past) => {
            engine.recycle(past);
            Ok(())
        }
        Err(_) => Err(NoMemory),
    }
}
