//! A procedure without a flaw, and its next step.
ghost use Rattle.std.specs.Prelude.{◌≡◌, ◌≤◌, ◌<◌, IfOk, OnOk, IfErr};
ghost use Rattle.sgt_model.specs.ProcedureTexts.{procedure_text};
ghost use Rattle.sgt_model.specs.Meaning.{run_with};
ghost use Rattle.sgt_model.specs.Configurations.{empty_procedure};
ghost use Rattle.sgt_model.specs.Traces.{next_at, trace, Used};
ghost use Rattle.sgt_proc.specs.Nexts.{seen, IsAccess, StoresValue};
ghost use Rattle.sgt_proc.specs.Flaws.{IsFlawless, IsLeastFlaw};
ghost use Rattle.sgt_proc.specs.Places.{IsIn, Stops, StopsAtValue};

use crate::flaw::{Flaw, Flawed};
use crate::next::Next;
use crate::place::{Place, Stop};
use sgt_model::{Args, Procedure};
use std::alloc::Global;
use std::marker::Model;

/// A procedure without a flaw.
#[derive(Drop)]
pub struct Checked {
    procedure: Procedure,
}

impl Model for Checked {
    ghost use Rattle.sgt_model.specs.Codes.{coded_procedure};
    ghost use Rattle.sgt_model.specs.ProcedureTexts.{procedure_text};
    ghost use Rattle.sgt_model.specs.Syntax.{ProcedureText};
    ghost use Rattle.sgt_proc.specs.Flaws.{IsFlawless};

    ghost Value = { ProcedureText };

    ghost coded = { coded_procedure };

    ghost view = { λ c. procedure_text c.procedure };

    ghost invariant = { λ c. IsFlawless (procedure_text c.procedure) };
}

/// Returns the procedure as one that may run, if it has no flaw. Else it returns the procedure with its flaw of the
/// least number. It allocates nothing.
pub fn check(procedure: Procedure) -> Result<Checked, Flawed>
    ensures same { IfOk result (λ checked. checked ≡ procedure_text procedure) }
    ensures flawless { OnOk result (IsFlawless (procedure_text procedure)) }
    ensures least { IfErr result (λ flawed. IsLeastFlaw flawed.flaw (procedure_text procedure)) }
    ensures back { IfErr result (λ flawed. flawed.procedure ≡ procedure) }
{
    for flaw in Flaw::ALL {
        if flaw.is_in(&procedure) {
            return Err(Flawed { flaw, procedure });
        }
    }
    Ok(Checked { procedure })
}

impl Checked {
    /// The empty procedure: no arguments, no statements, no answers. It allocates nothing.
    pub fn empty(alloc: Global) -> Checked
        ensures { result ≡ empty_procedure }
    {
        Checked {
            procedure: Procedure {
                args: 0,
                body: Vec::new(alloc),
            },
        }
    }

    /// The procedure as it was written.
    pub fn procedure(&self) -> &Procedure
        ensures { procedure_text result.now ≡ self.now }
    {
        &self.procedure
    }

    /// The number of its arguments, at most 4.
    pub fn args(&self) -> u8
        ensures value { result ≡ self.now.args }
        ensures few { result ≤ 4 }
        ensures flawless { IsFlawless self.now }
    {
        self.procedure.args
    }

    /// Returns access number `made`, from 0, of the procedure's trace with these arguments. Its reads return the
    /// values of `read` in order. If the trace ends before that access, the result is its end. If a read has no value
    /// left, the result is that read.
    pub fn next(&self, args: &Args, read: &[Option<i64>], made: usize) -> Next
        ensures next { seen result ≡ next_at (trace (run_with self.now args.now) read.now) made }
        ensures in_range { StoresValue result }
        ensures few { IsAccess result → Used (run_with self.now args.now) read.now made → made < 64 }
    {
        // Using a field makes known that the procedure has no flaw.
        let _ = &self.procedure;
        let mut cursor = self.begin(args);
        let mut used = 0;
        for _ in 0..made {
            match cursor.next(self) {
                Next::Look(key) => {
                    if used == read.len() {
                        return Next::Look(key);
                    }
                    cursor.looked(self, read[used]);
                    used += 1;
                }
                Next::Put(..) => cursor.stored(self),
                Next::Ends(answers) => return Next::Ends(answers),
                Next::Asks(code) => return Next::Asks(code),
            }
        }
        cursor.next(self)
    }

    /// Continues from a position to the next access, or to the end or a code, and writes to `stop` which.
    pub(crate) fn advance(&self, place: &mut Place, stop: &mut Stop)
        requires inside { IsIn self.now.body place.old }
        ensures stops { Stops self.now.body place.old stop.new place.new }
        ensures in_range { StopsAtValue stop.new }
    {
        place.advance(&self.procedure.body, stop);
    }
}
