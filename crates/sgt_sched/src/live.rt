//! The list of the live transactions.
ghost use Rattle.std.specs.Prelude.{◌≡◌, ◌≤◌, [], ◌∷◌, ◌++◌, length, IsTrue, Some, OnOk, OnErr, position};
ghost use Rattle.sgt_model.specs.Paths.{Rising};
ghost use Rattle.sgt_sched.specs.LiveList.{numbers, has_number, progress_at, started, with_look, with_store, changed, others_live};
ghost use Rattle.sgt_sched.specs.SchedulerView.{IsAlong};

use crate::marks::Marks;
use crate::procedure_table::ProcedureTable;
use crate::running::Running;
use sgt_model::{Args, NoMemory, Tid, Tids};
use sgt_proc::Checked;
use std::alloc::Global;
use std::marker::Model;

/// The live transactions with the progress of each, in the order of their starts. A call searches the list at most once:
/// the result is an index.
///
/// The place of an ended transaction is kept, and used again by the next one that starts.
#[derive(Drop)]
pub struct Live {
    // The live ones, then places to use again.
    running: Vec<Running>,
    count: usize,
    // Where a live one mostly is.
    marks: Marks,
    alloc: Global,
}

impl Model for Live {
    ghost use Rattle.std.specs.Coded.{codes};
    ghost use Rattle.std.specs.Prelude.{◌≤◌, ℕ, List, length, take};
    ghost use Rattle.sgt_model.specs.Codes.{coded_procedure};
    ghost use Rattle.sgt_proc.specs.Codes.{coded_left};
    ghost use Rattle.sgt_sched.specs.LiveProgress.{Progress};

    ghost Value = { List (ℕ × Progress) };

    ghost coded = { Prim.hlevel (codes, coded_procedure, coded_left) };

    ghost view = { λ l. take l.count l.running.items };

    ghost invariant = { λ l. l.count ≤ length l.running.items };
}

impl Live {
    /// No transactions. It allocates nothing.
    pub fn new(alloc: Global) -> Self
        ensures { result ≡ [] }
    {
        Live {
            running: Vec::new(alloc),
            count: 0,
            marks: Marks::new(),
            alloc,
        }
    }

    /// How many there are.
    pub fn len(&self) -> usize
        ensures { result ≡ length self.now }
    {
        self.count
    }

    // Those that are live.
    #[inline(always)]
    fn live(&self) -> &[Running]
        ensures { result.now ≡ self.now }
    {
        &self.running[..self.count]
    }

    /// Their numbers.
    pub fn numbers(&self) -> Tids
        requires few { length self.now ≤ 32 }
        ensures { result ≡ numbers self.now }
    {
        let mut tids = Tids::new();
        for running in self.live() {
            tids.push(running.tid);
        }
        tids
    }

    /// The index of the transaction, if it is live.
    #[inline(always)]
    pub fn index(&self, t: Tid) -> Option<usize>
        requires rising { Rising (numbers self.now) }
        ensures { result ≡ position (has_number t) self.now }
    {
        if self.has_at(0, t) {
            return Some(0);
        }
        self.index_by_marks(t)
    }

    // The same. The index is guessed first.
    #[inline(always)]
    fn index_by_marks(&self, t: Tid) -> Option<usize>
        requires rising { Rising (numbers self.now) }
        ensures { result ≡ position (has_number t) self.now }
    {
        let guess = self.marks.guess(t);
        if self.has_at(guess, t) {
            return Some(guess);
        }
        self.search(t)
    }

    // Whether the transaction is live and has this index.
    #[inline(always)]
    fn has_at(&self, index: usize, t: Tid) -> bool
        requires rising { Rising (numbers self.now) }
        ensures { IsTrue result → position (has_number t) self.now ≡ Some index }
    {
        let live = self.live();
        if index >= live.len() {
            return false;
        }
        let running = &live[index];
        running.tid == t
    }

    // The index of the transaction, if it is live. The list is searched by halves.
    #[inline(never)]
    fn search(&self, t: Tid) -> Option<usize>
        requires rising { Rising (numbers self.now) }
        ensures { result ≡ position (has_number t) self.now }
    {
        self.live()
            .binary_search_by_key(&t, |running| running.tid)
            .ok()
    }

    /// The transaction t, which is live and has this index.
    pub fn at(&self, _t: Tid, index: usize) -> &Running
        requires at { position (has_number _t) self.now ≡ Some index }
        ensures { result.now ≡ (_t, progress_at self.now _t) }
    {
        &self.running[index]
    }

    /// Adds one that was just started, as the last. It runs this procedure, which has this number, with these arguments.
    /// `NoMemory` if an allocation failed; then nothing has changed.
    #[inline(always)]
    pub fn start(
        &mut self,
        t: Tid,
        procedure: u16,
        checked: &Checked,
        args: &Args,
    ) -> Result<(), NoMemory>
        ensures ok { OnOk result (self.new ≡ self.old ++ (t, started procedure checked.now args.now) ∷ []) }
        ensures err { OnErr result (self.new ≡ self.old) }
    {
        if self.count < self.running.len() {
            self.running[self.count].restart(t, procedure, checked, args);
            self.marks.set(self.count, t);
            self.count += 1;
            return Ok(());
        }
        add(&mut self.running, self.alloc, t, procedure, checked, args)?;
        self.marks.set(self.count, t);
        self.count += 1;
        Ok(())
    }

    /// Continues t, which is live and has this index, after a read that returned this. It allocates nothing.
    #[inline(always)]
    pub fn look(&mut self, _t: Tid, index: usize, procedures: &ProcedureTable, value: Option<i64>)
        requires at { position (has_number _t) self.old ≡ Some index }
        requires along { IsAlong procedures.now (progress_at self.old _t) }
        ensures { self.new ≡ changed _t (with_look value) self.old }
    {
        self.running[index].look(procedures, value);
    }

    /// Continues t, which is live and has this index, after a write. It allocates nothing.
    #[inline(always)]
    pub fn store(&mut self, _t: Tid, index: usize, procedures: &ProcedureTable)
        requires at { position (has_number _t) self.old ≡ Some index }
        requires along { IsAlong procedures.now (progress_at self.old _t) }
        ensures { self.new ≡ changed _t with_store self.old }
    {
        self.running[index].store(procedures);
    }

    /// Removes the transaction, which has ended. It allocates nothing.
    pub fn remove(&mut self, t: Tid)
        requires rising { Rising (numbers self.old) }
        ensures { self.new ≡ others_live t self.old }
    {
        let Some(index) = self.index(t) else {
            return;
        };
        self.remove_at(t, index);
    }

    /// The same, if it was live and had this index. Its place is kept after the others, which are moved in one block.
    pub fn remove_at(&mut self, _t: Tid, index: usize)
        requires rising { Rising (numbers self.old) }
        requires at { position (has_number _t) self.old ≡ Some index }
        ensures { self.new ≡ others_live _t self.old }
    {
        let count = self.count;
        if index + 1 < count {
            let ended = self.running.remove(index);
            self.running.push_reserved(ended);
            self.marks.remove(index);
        }
        self.count -= 1;
    }
}

// Adds a place with a transaction that was just started, as the last.
#[inline(never)]
fn add(
    running: &mut Vec<Running>,
    alloc: Global,
    t: Tid,
    procedure: u16,
    checked: &Checked,
    args: &Args,
) -> Result<(), NoMemory>
    ensures ok { OnOk result (running.new.items ≡ running.old.items ++ (t, started procedure checked.now args.now) ∷ []) }
    ensures err { OnErr result (running.new.items ≡ running.old.items) }
{
    running.reserve(1)?;
    let added = Running::start(alloc, t, procedure, checked, args)?;
    running.push_reserved(added);
    Ok(())
}
