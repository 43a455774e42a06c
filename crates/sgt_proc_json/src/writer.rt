//! Procedures as trees.
ghost use Rattle.std.specs.Prelude.{◌≡◌, Ok, IfOk};
ghost use Rattle.serde_json.specs.View.{view};
ghost use Rattle.sgt_model.specs.ProcedureTexts.{procedure_text};
ghost use Rattle.sgt_proc_json.specs.Spelling.{Spells};
ghost use Rattle.sgt_proc_json.specs.Readings.{reading};

use crate::write_number::write_byte;
use crate::write_statement::write_block;
use serde_json::Value;
use sgt_model::{NoMemory, Procedure};
use std::alloc::Global;

/// The tree of the procedure. `read` returns the procedure from it.
///
/// # Errors
///
/// `NoMemory` if an allocation failed.
pub fn write(alloc: Global, procedure: &Procedure) -> Result<Value, NoMemory>
    ensures spells { IfOk result (λ v. Spells (procedure_text procedure.now) (view v)) }
    ensures reads_back { IfOk result (λ v. reading (view v) ≡ Ok (procedure_text procedure.now)) }
{
    let tree = write_items(alloc, procedure)?;
    Ok(tree)
}

/// The tree of the number of arguments and the statements.
fn write_items(alloc: Global, procedure: &Procedure) -> Result<Value, NoMemory>
    ensures { IfOk result (λ v. Spells (procedure_text procedure.now) (view v)) }
{
    let body = write_block(alloc, &procedure.body)?;
    Ok(Value::Array(vec![in alloc; write_byte(procedure.args), body]?))
}
