//! The gate of a run without an observer.
use sgt_model::NoMemory;
use sgt_proc::Checked;
use sgt_workers::{Gate, Outcome, Pass};
use std::alloc::Global;
use std::convert::Infallible;

/// The most jobs that a worker takes at once.
pub(crate) const MOST_AT_ONCE: usize = 16;

/// What a gate learns of the procedures of a run, and what it has seen of failed tries. By default that is nothing.
pub(crate) trait Failures {
    /// These procedures of line 1 come after those of SmallBank. Called once, before the run.
    fn opened(&self, _procedures: &[Checked]) {}

    /// How often each job was tried in vain. A list that ends early says that it was not seen.
    ///
    /// `NoMemory` if an allocation failed, for this list or for a try during the run.
    fn failures(&self, alloc: Global, _jobs: usize) -> Result<Vec<u32>, NoMemory> {
        Ok(Vec::new(alloc))
    }
}

/// A gate that lets every worker continue. Its notes have a type without values, so no outcome is `Left`.
#[derive(Drop)]
pub(crate) struct OpenGate;

impl Gate for OpenGate {
    type Note = Infallible;

    fn most_at_once(&self) -> usize {
        MOST_AT_ONCE
    }

    fn pass(&self, _worker: u8, _calls: u64) -> Pass<Infallible> {
        Pass::Go
    }

    fn finished(&self, _worker: u8, _job: u32, _outcome: &Outcome<Infallible>) {}
}

impl Failures for OpenGate {}
