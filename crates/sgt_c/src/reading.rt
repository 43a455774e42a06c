//! Committed values.
ghost use Rattle.std.specs.Prelude.{◌≡◌, ◌≢◌, Some, None, IsSome, IfSome};
ghost use Rattle.sgt_model.specs.Databases.{contents_of};
ghost use Rattle.sgt_model.specs.Replay.{folded};
ghost use Rattle.sgt_model.specs.Values.{settled};
ghost use Rattle.sgt_engine.specs.EngineView.{configuration_of};
ghost use Rattle.sgt_c.specs.Asked.{IsRecord};
ghost use Rattle.sgt_c.specs.Handles.{VisitsIf};

use crate::handle::{Handle, take_held};
use crate::requested::keyed;
use crate::status;
use std::alloc::Global;

/// The committed value of a record: that of the last committed transaction that wrote it, else the initial one.
///
/// - `BAD_CALL`, tested first: the table is over 7, or the number is no value.
/// - `BUSY`; `CLOSED`.
/// - `NONE`: there is no such record.
pub fn sgt_get(alloc: Global, engine: &mut Handle, table: u64, number: i64, value: &mut i64) -> u32
    ensures found { result ≡ 0 → IfSome engine.old.slot.held (λ h.
        settled (contents_of h.engine.opening) h.engine.past (table, number) ≡ Some value.new) }
    ensures replayed { result ≡ 0 → IfSome engine.old.slot.held (λ h.
        (folded (configuration_of h.engine) h.engine.past).last (table, number) ≡ Some value.new) }
    ensures none { result ≡ 4 → IfSome engine.old.slot.held (λ h.
        settled (contents_of h.engine.opening) h.engine.past (table, number) ≡ None) }
    ensures open { result ≢ 2 → result ≢ 5 → result ≢ 10 → IsSome engine.old.slot.held }
    ensures visits { VisitsIf (IsRecord table number) result engine.old.state engine.old.slot.held engine.new.state }
    ensures statuses { result ≢ 10 → result ≢ 5 → result ≢ 0 → result ≢ 2 → result ≡ 4 }
    ensures kept { result ≢ 0 → value.new ≡ value.old }
    ensures same { engine.new.slot.held ≡ engine.old.slot.held }
{
    let Some(key) = keyed(table, number) else {
        return status::BAD_CALL;
    };
    let held = take_held!(alloc, engine);
    let found = held.engine.committed(key);
    engine.put(held);
    match found {
        Some(found) => {
            *value = found;
            status::OK
        }
        None => status::NONE,
    }
}
