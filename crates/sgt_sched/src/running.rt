//! One live transaction, and the progress of its procedure.
ghost use Rattle.std.specs.Prelude.{◌≡◌, ℤ, List, IfOk};
ghost use Rattle.sgt_model.specs.Left.{next_left};
ghost use Rattle.sgt_model.specs.Traces.{Ends};
ghost use Rattle.sgt_proc.specs.Nexts.{answers_at, seen_with, PutsValue};
ghost use Rattle.sgt_sched.specs.LiveList.{started, with_look, with_store};
ghost use Rattle.sgt_sched.specs.LiveProgress.{left_kept};
ghost use Rattle.sgt_sched.specs.SchedulerView.{IsAlong};

use crate::procedure_table::ProcedureTable;
use sgt_model::{Answers, Args, NoMemory, Tid};
use sgt_proc::{Ahead, Checked, Cursor};
use std::alloc::Global;
use std::marker::Model;

/// A live transaction: its number, that of its procedure, and the procedure's progress. It holds no procedure: its calls take
/// the procedures that the number refers to.
#[derive(Drop)]
pub struct Running {
    pub tid: Tid,
    pub procedure: u16,
    // In a place of its own, so that a list of these moves few bytes.
    pub cursor: Box<Cursor>,
}

impl Model for Running {
    ghost use Rattle.std.specs.Coded.{codes};
    ghost use Rattle.std.specs.Prelude.{ℕ};
    ghost use Rattle.sgt_model.specs.Codes.{coded_procedure};
    ghost use Rattle.sgt_proc.specs.Codes.{coded_left};
    ghost use Rattle.sgt_sched.specs.LiveProgress.{Progress};

    ghost Value = { ℕ × Progress };

    ghost coded = { Prim.hlevel (codes, coded_procedure, coded_left) };

    ghost view = { λ r. (
      r.tid,
      record {
        procedure = r.procedure;
        cursor = r.cursor.value;
      },
    ) };
}

impl Running {
    /// Starts a transaction that runs this procedure with these arguments. `NoMemory` if an allocation failed.
    pub fn start(
        alloc: Global,
        tid: Tid,
        procedure: u16,
        checked: &Checked,
        args: &Args,
    ) -> Result<Self, NoMemory>
        ensures { IfOk result (λ running. running ≡ (tid, started procedure checked.now args.now)) }
    {
        let cursor = Box::new(alloc, checked.begin(args))?;
        Ok(Running {
            tid,
            procedure,
            cursor,
        })
    }

    /// The same, in place of a transaction that has ended. It allocates nothing.
    pub fn restart(&mut self, tid: Tid, procedure: u16, checked: &Checked, args: &Args)
        ensures { self.new ≡ (tid, started procedure checked.now args.now) }
    {
        self.tid = tid;
        self.procedure = procedure;
        checked.restart(&mut self.cursor, args);
    }

    /// What the procedure does next, without its answers.
    #[inline(always)]
    pub fn ahead(&self) -> Ahead
        ensures next { seen_with (answers_at (next_left (left_kept self.now.1))) result ≡ next_left (left_kept self.now.1) }
        ensures in_range { PutsValue result }
    {
        self.cursor.ahead()
    }

    /// The answers of a procedure that is at its end.
    #[inline(always)]
    pub fn answers(&self) -> &Answers
        ensures { (answers : List ℤ) → next_left (left_kept self.now.1) ≡ Ends answers → result.now ≡ answers }
    {
        self.cursor.answers()
    }

    /// Continues after a read, which returned this.
    #[inline(always)]
    pub fn look(&mut self, procedures: &ProcedureTable, value: Option<i64>)
        requires along { IsAlong procedures.now self.old.1 }
        ensures { self.new ≡ (self.old.0, with_look value self.old.1) }
    {
        let checked = self.checked(procedures);
        self.cursor.looked(checked, value);
    }

    /// Continues after a write.
    #[inline(always)]
    pub fn store(&mut self, procedures: &ProcedureTable)
        requires along { IsAlong procedures.now self.old.1 }
        ensures { self.new ≡ (self.old.0, with_store self.old.1) }
    {
        let checked = self.checked(procedures);
        self.cursor.stored(checked);
    }

    // The procedure that it runs.
    fn checked<'a>(&self, procedures: &'a ProcedureTable) -> &'a Checked
        requires along { IsAlong procedures.now self.now.1 }
        ensures { result.now ≡ self.now.1.cursor.0 }
    {
        procedures.at(self.procedure)
    }
}
