//! The line of one procedure.
ghost use Rattle.std.specs.Prelude.{◌≡◌, IfOk, IfErr};
ghost use Rattle.sgt_format.specs.ProcedureLines.{RefusesProcedure, SpellsProcedure};

use crate::errors::OpeningError;
use crate::procedures::read_procedure;
use crate::tree::read_tree;
use sgt_proc::Checked;
use std::alloc::Global;

/// The procedure that a line spells, as one item of the list `procedures` of an opening. Its errors name it by
/// `number`.
///
/// # Errors
///
/// The first of these that applies:
///
/// - `NotJson`: the line is not JSON.
/// - `ProcShape`: the position of the first shape error.
/// - `ProcFlaw`: the least flaw.
///
/// `NoMemory` if an allocation failed.
pub fn read_procedure_line(alloc: Global, number: u64, line: &[u8]) -> Result<Checked, OpeningError>
    ensures procedure { IfOk result (SpellsProcedure line.now) }
    ensures refused { IfErr result (RefusesProcedure number line.now) }
{
    let Some(tree) = read_tree(alloc, line)? else {
        return Err(OpeningError::NotJson);
    };
    read_procedure(alloc, number, &tree)
}
