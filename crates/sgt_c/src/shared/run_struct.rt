//! The struct of a run under way, for C.
ghost use Rattle.std.specs.Prelude.{◌≡◌};
ghost use Rattle.sgt_c.specs.DeskStructs.{IsRun, run_in};

use crate::shared::ask_struct::{SgtAsk, ask_struct, read_ask};
use sgt_desk::{Run, Ticket};
use sgt_model::Tid;

/// A run under way, as its thread keeps it from turn to turn. All bytes but those of `most` are zero before its first turn, if it has no
/// deadline.
#[repr(C)]
#[derive(Drop)]
pub struct SgtRun {
    pub ask: SgtAsk,
    /// How many attempts were begun, and how many may be.
    pub tries: u64,
    pub most: u64,
    /// The newest attempt, if `has_ticket` is 1.
    pub part: u64,
    pub tid: u32,
    pub has_ticket: u32,
    /// The attempt that rests in its commit, if `has_attempt` is 1.
    pub attempt: u32,
    pub has_attempt: u32,
}

/// The run that a struct says. It has no reply.
#[inline(always)]
pub fn read_run(run: &SgtRun) -> Run
    ensures { result ≡ run_in run.now }
{
    Run {
        ask: read_ask(&run.ask),
        attempt: if run.has_attempt == 1 {
            Some(Tid(run.attempt))
        } else {
            None
        },
        ticket: if run.has_ticket == 1 {
            Some(Ticket {
                part: run.part,
                tid: Tid(run.tid),
            })
        } else {
            None
        },
        tries: run.tries,
        most: run.most,
    }
}

/// The struct of a run. It has no place for the reply.
#[inline(always)]
pub fn run_struct(run: &Run) -> SgtRun
    ensures { IsRun result run.now }
{
    let newest = run.ticket.unwrap_or(Ticket {
        part: 0,
        tid: Tid(0),
    });
    SgtRun {
        ask: ask_struct(&run.ask),
        tries: run.tries,
        most: run.most,
        part: newest.part,
        tid: newest.tid.0,
        has_ticket: u32::from(run.ticket.is_some()),
        attempt: run.attempt.unwrap_or(Tid(0)).0,
        has_attempt: u32::from(run.attempt.is_some()),
    }
}
