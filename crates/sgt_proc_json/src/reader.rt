//! The procedure that a tree spells.
ghost use Rattle.std.specs.Prelude.{◌≡◌, ◌≢◌, Ok, IfOk, IfErr};
ghost use Rattle.serde_json.specs.Data.{array};
ghost use Rattle.serde_json.specs.View.{view, items_view};
ghost use Rattle.sgt_model.specs.ProcedureTexts.{procedure_text};
ghost use Rattle.sgt_proc_json.specs.Spelling.{Spells, SpellsNone};
ghost use Rattle.sgt_proc_json.specs.Readings.{reading};
ghost use Rattle.sgt_proc_json.specs.Refusals.{Says, HasBody};
ghost use Rattle.sgt_proc_json.specs.declared.errors.ReadError.TheVariants.{NoMemory};

use crate::errors::ReadError;
use crate::read_number::byte_at;
use crate::read_statement::block_at;
use serde_json::Value;
use sgt_model::Procedure;
use std::alloc::Global;

/// The procedure that a tree spells: a list of the number of its arguments, from 0 to 255, and the list of its
/// statements.
///
/// Recursion is as deep as the tree, and no deeper: a tree that `serde_json` read is at most 127 deep.
///
/// # Errors
///
/// `Shape` with the position of the first shape error, if the tree spells no procedure. `NoMemory`, but only if the
/// tree is a list of a number of arguments and a list.
pub fn read(alloc: Global, tree: &Value) -> Result<Procedure, ReadError>
    ensures spells { IfOk result (λ p. Spells (procedure_text p) (view tree.now)) }
    ensures procedure { IfOk result (λ p. reading (view tree.now) ≡ Ok (procedure_text p)) }
    ensures shape { IfErr result (Says (reading (view tree.now))) }
    ensures none { IfErr result (λ error. error ≢ NoMemory → SpellsNone (view tree.now)) }
    ensures memory { IfErr result (λ error. error ≡ NoMemory → HasBody (view tree.now)) }
{
    read_tree(alloc, tree)
}

/// The procedure that a tree spells.
fn read_tree(alloc: Global, tree: &Value) -> Result<Procedure, ReadError>
    ensures procedure { IfOk result (λ p. reading (view tree.now) ≡ Ok (procedure_text p)) }
    ensures shape { IfErr result (Says (reading (view tree.now))) }
    ensures memory { IfErr result (λ error. error ≡ NoMemory → HasBody (view tree.now)) }
{
    match tree {
        Value::Array(items) => read_items(alloc, items.as_slice()),
        _ => Err(ReadError::here()),
    }
}

/// The procedure that a list of these items spells.
fn read_items(alloc: Global, items: &[Value]) -> Result<Procedure, ReadError>
    ensures procedure { IfOk result
        (λ p. reading (array (items_view items.now)) ≡ Ok (procedure_text p)) }
    ensures shape { IfErr result (Says (reading (array (items_view items.now)))) }
    ensures memory { IfErr result (λ error. error ≡ NoMemory → HasBody (array (items_view items.now))) }
{
    match items {
        [args, body] => Ok(Procedure {
            args: byte_at(0, args)?,
            body: block_at(alloc, 1, body)?,
        }),
        _ => Err(ReadError::here()),
    }
}
