//! Adding procedures to an engine with an empty history.
ghost use Rattle.std.specs.Prelude.{◌≡◌, ◌≢◌, ◌<◌, ◌≤◌, ◌↔◌, [], length, Err, IfOk, OnOk, OnErr};
ghost use Rattle.sgt_engine.specs.Puts.{with_procedure};

use crate::engine::Engine;
use sgt_access::Accesses;
use sgt_graph::Graph;
use sgt_model::{EMPTY_PROCEDURE, NoMemory};
use sgt_proc::Checked;
use sgt_records::Records;
use thiserror::Error;

/// Why a procedure was not added.
#[derive(Clone, Copy, Debug, PartialEq, Eq, Error)]
pub enum AddError {
    /// There is a history. This is tested first.
    #[error("there is a history")]
    Begun,
    /// There are 65535 procedures, and so no number for another: the last one is that of the empty procedure. This is tested
    /// next.
    #[error("all numbers of procedures are taken")]
    TooMany,
    /// An allocation failed.
    #[error("no memory")]
    NoMemory,
}

impl From<NoMemory> for AddError {
    ghost use Rattle.sgt_engine.specs.declared.engine.procedures.AddError.TheVariants.{NoMemory};

    ghost from_gives = { λ _ error. error ≡ NoMemory };

    fn from(_: NoMemory) -> Self {
        AddError::NoMemory
    }
}

impl<R: Records, A: Accesses, G: Graph> Engine<R, A, G> {
    /// Adds a procedure after the others, if the history is empty, and returns its number, by which it is started.
    ///
    /// `Begun` if there is a history, tested first; `TooMany` if there are 65535 procedures; `NoMemory` if an allocation
    /// failed. Then nothing has changed.
    pub fn add_procedure(&mut self, procedure: Checked) -> Result<u16, AddError>
        ensures added { OnOk result (self.new ≡ with_procedure procedure self.old) }
        ensures number { IfOk result (λ n. n ≡ length self.old.procedures) }
        ensures begun { (result ≡ Err AddError.Begun) ↔ (self.old.past ≢ []) }
        ensures too_many { (result ≡ Err AddError.TooMany)
            ↔ ((self.old.past ≡ []) × (65535 ≤ length self.old.procedures)) }
        ensures unchanged { OnErr result (self.new ≡ self.old) }
    {
        let number = self.next_number()?;
        self.add_at_start(procedure)?;
        Ok(number)
    }

    /// The same, for a caller that already has the number.
    pub fn add_at_start(&mut self, procedure: Checked) -> Result<(), NoMemory>
        requires begins { self.old.past ≡ [] }
        requires has_number { length self.old.procedures < 65535 }
        ensures added { OnOk result (self.new ≡ with_procedure procedure self.old) }
        ensures unchanged { OnErr result (self.new ≡ self.old) }
    {
        self.sched.add_procedure(procedure)
    }

    /// The number that a procedure gets if it is added now. `Begun` and `TooMany` as for adding one.
    pub fn next_number(&self) -> Result<u16, AddError>
        ensures number { IfOk result (λ n. (self.now.past ≡ []) × (n ≡ length self.now.procedures)) }
        ensures free { IfOk result (λ n. n < 65535) }
        ensures begun { result ≡ Err AddError.Begun → self.now.past ≢ [] }
        ensures too_many { result ≡ Err AddError.TooMany → (self.now.past ≡ []) × (65535 ≤ length self.now.procedures) }
        ensures no_allocation { result ≢ Err AddError.NoMemory }
    {
        if !self.is_new() {
            return Err(AddError::Begun);
        }
        let number = self.sched.procedure_count();
        if number >= usize::from(EMPTY_PROCEDURE) {
            return Err(AddError::TooMany);
        }
        Ok(number as u16)
    }
}
