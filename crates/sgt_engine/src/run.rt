//! A list of events, run on a new engine.
ghost use Rattle.std.specs.Prelude.{◌≡◌, ◌≤◌, Result, Ok, Err, IfOk, ◌↔◌, length, take};
ghost use Rattle.sgt_model.specs.Bounds.{AreInRange};
ghost use Rattle.sgt_model.specs.Databases.{contents_of};
ghost use Rattle.sgt_model.specs.Configurations.{configuration};
ghost use Rattle.sgt_engine.specs.EngineView.{configuration_of};
ghost use Rattle.sgt_engine.specs.Guarantees.{Guarantees};
ghost use Rattle.sgt_engine.specs.Stops.{StopsAtNoEnd};
ghost use Rattle.sgt_model.specs.Histories.{events_of};

use crate::engine::Engine;
use sgt_access::Accesses;
use sgt_graph::Graph;
use sgt_model::{Database, Event, Limits, MakeError, headline_holds};
use sgt_proc::Checked;
use sgt_records::Records;
use std::alloc::Global;

/// The result of running a list of events. The replies are in the engine's history.
#[derive(Drop)]
pub struct Ran<R: Records, A: Accesses, G: Graph> {
    /// The engine, with the events that were applied as its history.
    pub engine: Engine<R, A, G>,
    /// How many were applied: all, or as many as came before an allocation failed. So fewer than all means `NoMemory`.
    pub done: usize,
}

/// Makes an engine, and applies the events in order: all of them, unless an allocation fails.
///
/// `BadLimits` if a limit is out of its range, tested first; `NoMemory` if an allocation failed before the first event.
///
/// Only tests call this. It is part of the specification: it says for a whole list what [`Engine::apply`] says for one event.
pub fn run_list<R: Records, A: Accesses, G: Graph>(
    alloc: Global,
    opening: Database,
    procedures: Vec<Checked>,
    limits: Limits,
    events: &[Event],
) -> Result<Ran<R, A, G>, MakeError>
    ensures configuration { IfOk result (λ ran.
        configuration_of ran.engine ≡ configuration (contents_of opening) procedures.items limits) }
    ensures events { IfOk result (λ ran. events_of ran.engine.past ≡ take ran.done events.now) }
    ensures done { IfOk result (λ ran. ran.done ≤ length events.now) }
    ensures stops { IfOk result (λ ran. StopsAtNoEnd ran.engine ran.done events.now) }
    ensures guarantees { IfOk result (λ ran. Guarantees ran.engine) }
    ensures bad_limits { (result ≡ Err MakeError.BadLimits) ↔ (¬ AreInRange limits) }
{
    let mut engine = Engine::new(alloc, opening, procedures, limits)?;
    let mut done = 0;
    for event in events {
        match engine.apply(event.copied()) {
            Ok(_) => done += 1,
            Err(_) => break,
        }
    }
    headline_holds();
    Ok(Ran { engine, done })
}
