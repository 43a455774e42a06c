//! The report of a run, and the test that its outcomes are true.
ghost use Rattle.std.specs.Prelude.{◌≡◌, IfOk, IfErr, reverse};
ghost use Rattle.sgt_engine.specs.EngineView.{configuration_of};
ghost use Rattle.sgt_workers.specs.Crews.{IsRunError};
ghost use Rattle.sgt_workers.specs.Reports.{IsReportOf};

use crate::errors::PoolError;
use sgt_access::Accesses;
use sgt_audit::{Job, Outcome, audit};
use sgt_engine::{Engine, Past};
use sgt_graph::Graph;
use sgt_log::History;
use sgt_model::Database;
use sgt_records::Records;
use std::alloc::Global;

/// The report of a run: what became of the jobs.
#[derive(Drop)]
pub struct Report<N> {
    /// The database before the first job.
    pub opening: Database,
    /// Every call of the workers with its reply, oldest entry first.
    pub history: History,
    /// The outcomes, by job number.
    pub outcomes: Vec<Outcome<N>>,
    /// The database after the last job.
    pub database: Database,
}

/// The report of a run, if its outcomes are true of the engine's history.
///
/// `Mismatch` if one is not; `NoMemory` if an allocation failed.
pub fn report_of<R: Records, A: Accesses, G: Graph, X: Drop>(
    alloc: Global,
    engine: Engine<R, A, G>,
    outcomes: Vec<Outcome<X>>,
    jobs: &[Job],
    workers: u32,
    tries: u32,
) -> Result<Report<X>, PoolError>
    ensures report { IfOk result (λ r. IsReportOf (configuration_of engine) jobs.now workers tries r) }
    ensures history { IfOk result (λ r. reverse r.history.entries ≡ engine.past) }
    ensures error { IfErr result IsRunError }
{
    let Ok(database) = engine.database(alloc) else {
        return Err(PoolError::NoMemory);
    };
    let Ok(stands) = audit(
        alloc,
        engine.history(),
        jobs,
        outcomes.as_slice(),
        workers,
        tries,
    ) else {
        return Err(PoolError::NoMemory);
    };
    if !stands {
        return Err(PoolError::Mismatch);
    }
    let Past { opening, history } = engine.into_past();
    Ok(Report {
        opening,
        history,
        outcomes,
        database,
    })
}
