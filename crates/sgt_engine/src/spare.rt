//! Capacity in the history for an event and for the ends of the live transactions.
ghost use Rattle.std.specs.Prelude.{◌≡◌, ◌+◌, ◌≤◌, length, OnOk};
ghost use Rattle.std.specs.Result.{IsOk};
ghost use Rattle.sgt_model.specs.declared.event.Event.TheVariants.{Step};
ghost use Rattle.sgt_sched.specs.Endings.{EndsOne};
ghost use Rattle.sgt_sched.specs.Scheduler.{state, asks_of};

use sgt_access::Accesses;
use sgt_graph::Graph;
use sgt_log::History;
use sgt_model::{Event, NoMemory, Tid};
use sgt_records::Records;
use sgt_sched::Sched;

/// Ensures that the history has the capacity that an event needs.
///
/// - An event that ends a live transaction has it: the history keeps capacity for one end of each, and does not grow.
/// - Any other event needs capacity for itself, for those ends, and for the end of the transaction that it may start.
///
/// `NoMemory` if an allocation failed; then the capacity is unchanged.
#[inline(always)]
pub fn ensure_capacity<R: Records, A: Accesses, G: Graph>(
    history: &mut History,
    sched: &Sched<R, A, G>,
    event: &Event,
) -> Result<(), NoMemory>
    requires { length (state sched.now).live ≤ history.old.spare }
    ensures entries { history.new.entries ≡ history.old.entries }
    ensures ends { length (state sched.now).live ≤ history.new.spare }
    ensures spare { OnOk result ((EndsOne (asks_of sched.now) event.now (state sched.now) → ⊥)
        → length (state sched.now).live + 2 ≤ history.new.spare) }
    ensures no_allocation { EndsOne (asks_of sched.now) event.now (state sched.now) → history.new ≡ history.old }
    ensures no_memory { EndsOne (asks_of sched.now) event.now (state sched.now) → IsOk result }
{
    let needed = sched.live_count() + 2;
    if history.spare() < needed {
        // Only a copy is passed to the call, so that an event that its caller has just made is never written to memory.
        return add_spare(history, sched, &event.copied(), needed);
    }
    Ok(())
}

/// The same, for a step.
#[inline(always)]
pub fn ensure_step_capacity<R: Records, A: Accesses, G: Graph>(
    history: &mut History,
    sched: &Sched<R, A, G>,
    t: Tid,
) -> Result<(), NoMemory>
    requires { length (state sched.now).live ≤ history.old.spare }
    ensures entries { history.new.entries ≡ history.old.entries }
    ensures ends { length (state sched.now).live ≤ history.new.spare }
    ensures spare { OnOk result ((EndsOne (asks_of sched.now) (Step t) (state sched.now) → ⊥)
        → length (state sched.now).live + 2 ≤ history.new.spare) }
    ensures no_allocation { EndsOne (asks_of sched.now) (Step t) (state sched.now) → history.new ≡ history.old }
    ensures no_memory { EndsOne (asks_of sched.now) (Step t) (state sched.now) → IsOk result }
{
    let entries = sched.live_count() + 2;
    if entries <= history.spare() {
        return Ok(());
    }
    add_step_spare(history, sched, t, entries)
}

// Provides capacity for this many entries, unless the step ends its transaction. It makes the event, so that its callers need none.
#[inline(never)]
fn add_step_spare<R: Records, A: Accesses, G: Graph>(
    history: &mut History,
    sched: &Sched<R, A, G>,
    t: Tid,
    needed: usize,
) -> Result<(), NoMemory>
    ensures entries { history.new.entries ≡ history.old.entries }
    ensures no_less { history.old.spare ≤ history.new.spare }
    ensures spare { OnOk result ((EndsOne (asks_of sched.now) (Step t) (state sched.now) → ⊥) → needed ≤ history.new.spare) }
    ensures no_allocation { EndsOne (asks_of sched.now) (Step t) (state sched.now) → history.new ≡ history.old }
    ensures no_memory { EndsOne (asks_of sched.now) (Step t) (state sched.now) → IsOk result }
{
    add_spare(history, sched, &Event::Step(t), needed)
}

// Provides capacity for this many entries, unless the event ends a live transaction.
#[inline(never)]
fn add_spare<R: Records, A: Accesses, G: Graph>(
    history: &mut History,
    sched: &Sched<R, A, G>,
    event: &Event,
    needed: usize,
) -> Result<(), NoMemory>
    ensures entries { history.new.entries ≡ history.old.entries }
    ensures no_less { history.old.spare ≤ history.new.spare }
    ensures spare { OnOk result ((EndsOne (asks_of sched.now) event.now (state sched.now) → ⊥) → needed ≤ history.new.spare) }
    ensures no_allocation { EndsOne (asks_of sched.now) event.now (state sched.now) → history.new ≡ history.old }
    ensures no_memory { EndsOne (asks_of sched.now) event.now (state sched.now) → IsOk result }
{
    if !sched.ends(event) {
        history.reserve(needed)?;
    }
    Ok(())
}
