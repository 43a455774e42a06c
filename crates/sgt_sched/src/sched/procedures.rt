//! The procedures.
ghost use Rattle.std.specs.Prelude.{◌≡◌, [], ◌∷◌, ◌++◌, length, OnOk, OnErr};
ghost use Rattle.sgt_sched.specs.Scheduler.{parts, state};

use crate::sched::Sched;
use sgt_access::Accesses;
use sgt_graph::Graph;
use sgt_model::NoMemory;
use sgt_proc::Checked;
use sgt_records::Records;

impl<R: Records, A: Accesses, G: Graph> Sched<R, A, G> {
    /// The procedures by their numbers.
    pub fn procedures(&self) -> &[Checked]
        ensures { result.now ≡ (parts self.now).procedures }
    {
        self.procedures.list()
    }

    /// How many procedures there are.
    pub fn procedure_count(&self) -> usize
        ensures { result ≡ length (parts self.now).procedures }
    {
        self.procedures.list().len()
    }

    /// Adds a procedure after the others. Live transactions continue with the ones that they were started with.
    ///
    /// `NoMemory` if an allocation failed; then nothing has changed.
    pub fn add_procedure(&mut self, procedure: Checked) -> Result<(), NoMemory>
        ensures added { OnOk result ((parts self.new).procedures ≡ (parts self.old).procedures ++ procedure ∷ []) }
        ensures unchanged { OnErr result (parts self.new ≡ parts self.old) }
        ensures state { state self.new ≡ state self.old }
        ensures limits { (parts self.new).limits ≡ (parts self.old).limits }
    {
        self.procedures.push(procedure)
    }
}
