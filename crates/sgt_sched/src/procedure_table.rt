//! The procedures by their numbers.
ghost use Rattle.std.specs.Prelude.{◌≡◌, ◌↔◌, [], ◌∷◌, ◌++◌, Some, None, IfSome, IsSome, IsNone, OnOk, OnErr};
ghost use Rattle.sgt_model.specs.Configurations.{procedure_at};

use sgt_model::{EMPTY_PROCEDURE, NoMemory};
use sgt_proc::Checked;
use std::alloc::Global;
use std::marker::Model;

/// The procedures of a list, numbered from 0, and the empty one, which has the number `EMPTY_PROCEDURE` whatever the list.
#[derive(Drop)]
pub struct ProcedureTable {
    list: Vec<Checked>,
    empty: Checked,
}

impl Model for ProcedureTable {
    ghost use Rattle.std.specs.Coded.{codes};
    ghost use Rattle.std.specs.Prelude.{◌≡◌, List};
    ghost use Rattle.sgt_model.specs.Codes.{coded_procedure};
    ghost use Rattle.sgt_model.specs.Configurations.{empty_procedure};
    ghost use Rattle.sgt_model.specs.Syntax.{ProcedureText};

    ghost Value = { List ProcedureText };

    ghost coded = { Prim.hlevel (codes, coded_procedure) };

    ghost view = { λ p. p.list.items };

    ghost invariant = { λ p. p.empty ≡ empty_procedure };
}

impl ProcedureTable {
    /// The procedures of this list, and the empty one. It allocates nothing.
    pub fn new(alloc: Global, list: Vec<Checked>) -> Self
        ensures { result ≡ list.items }
    {
        ProcedureTable {
            list,
            empty: Checked::empty(alloc),
        }
    }

    /// The list, without the empty one.
    pub fn list(&self) -> &[Checked]
        ensures { result.now ≡ self.now }
    {
        self.list.as_slice()
    }

    /// The procedure that has this number, if there is one.
    #[inline(always)]
    pub fn get(&self, number: u16) -> Option<&Checked>
        ensures found { IfSome result (λ checked. procedure_at self.now number ≡ Some checked.now) }
        ensures none { IsNone result → procedure_at self.now number ≡ None }
    {
        if number == EMPTY_PROCEDURE {
            return Some(&self.empty);
        }
        self.list.get(usize::from(number))
    }

    /// The procedure that has this number, which is that of one.
    #[inline(always)]
    pub fn at(&self, number: u16) -> &Checked
        requires { IsSome (procedure_at self.now number) }
        ensures { procedure_at self.now number ≡ Some result.now }
    {
        if number == EMPTY_PROCEDURE {
            return &self.empty;
        }
        &self.list[usize::from(number)]
    }

    /// Adds a procedure to the list, as the last. `NoMemory` if an allocation failed; then nothing has changed.
    pub fn push(&mut self, procedure: Checked) -> Result<(), NoMemory>
        ensures ok { OnOk result (self.new ≡ self.old ++ procedure ∷ []) }
        ensures err { OnErr result (self.new ≡ self.old) }
    {
        self.list.reserve(1)?;
        self.list.push_reserved(procedure);
        Ok(())
    }
}
