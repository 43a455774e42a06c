//! Restarting the numbers of transactions, over the same or another database.
ghost use Rattle.std.specs.Prelude.{◌≡◌, [], OnOk, OnErr};
ghost use Rattle.sgt_model.specs.Contents.{Key};
ghost use Rattle.sgt_model.specs.Databases.{contents_of};
ghost use Rattle.sgt_model.specs.NewState.{IsNew};
ghost use Rattle.sgt_sched.specs.Scheduler.{state, Keeps};

use crate::sched::Sched;
use sgt_access::Accesses;
use sgt_graph::Graph;
use sgt_model::{Database, Key, NoMemory};
use sgt_records::Records;
use std::alloc::Global;

impl<R: Records, A: Accesses, G: Graph> Sched<R, A, G> {
    /// Removes the fates of all transactions, so that the next one has number 0 again and starts are counted anew. No
    /// transaction may be live. The committed values stay, as do the procedures and the limits. It allocates nothing.
    pub fn renew(&mut self)
        requires none_live { (state self.old).live ≡ [] }
        ensures new { IsNew (state self.old).settled (state self.new) }
        ensures kept { Keeps self.old self.new }
    {
        self.fates.clear();
    }

    /// The same. The memory is freed that the records take for these keys, if they have no value.
    pub fn renew_without(&mut self, keys: &[Key])
        requires none_live { (state self.old).live ≡ [] }
        ensures new { IsNew (state self.old).settled (state self.new) }
        ensures kept { Keeps self.old self.new }
    {
        forget_all(&mut self.records, keys);
        self.fates.clear();
    }

    /// The same over another initial database; a copy of it replaces the committed values.
    ///
    /// `NoMemory` if an allocation failed; then nothing has changed.
    pub fn reopen(&mut self, alloc: Global, opening: &Database) -> Result<(), NoMemory>
        requires none_live { (state self.old).live ≡ [] }
        ensures new { OnOk result (IsNew (contents_of opening.now) (state self.new)) }
        ensures unchanged { OnErr result (self.new ≡ self.old) }
        ensures kept { Keeps self.old self.new }
    {
        self.records = R::build(alloc, opening)?;
        self.fates.clear();
        Ok(())
    }
}

// Frees the memory that the records take for these keys, if they have no value.
fn forget_all<R: Records>(records: &mut R, keys: &[Key])
    ensures chain { (k : Key) → R.chain records.new k ≡ R.chain records.old k }
    ensures settled { (k : Key) → R.settled records.new k ≡ R.settled records.old k }
{
    for key in keys {
        records.forget(*key);
    }
}
