//! The condition that a tree spells.
ghost use Rattle.std.specs.Prelude.{◌≡◌, Ok, IfOk, IfErr, length};
ghost use Rattle.serde_json.specs.Data.{array};
ghost use Rattle.serde_json.specs.Find.{as_str};
ghost use Rattle.serde_json.specs.View.{view, items_view};
ghost use Rattle.sgt_model.specs.ProcedureTexts.{cond_text};
ghost use Rattle.sgt_proc_json.specs.Readings.{at, expression, comparison, condition};
ghost use Rattle.sgt_proc_json.specs.Refusals.{Says};
ghost use Rattle.sgt_proc_json.specs.declared.errors.ReadError.TheVariants.{NoMemory};

use crate::errors::ReadError;
use crate::read_expr::expr_at;
use serde_json::Value;
use sgt_model::Cond;
use std::alloc::Global;

/// The condition that the item at this position of a list spells.
pub(crate) fn cond_at(alloc: Global, position: u64, tree: &Value) -> Result<Cond, ReadError>
    ensures ok { IfOk result (λ c. at position (condition (view tree.now)) ≡ Ok (cond_text c)) }
    ensures err { IfErr result (Says (at position (condition (view tree.now)))) }
{
    let cond = match tree {
        Value::Array(items) => read_row(alloc, items.as_slice()),
        _ => Err(ReadError::here()),
    };
    match cond {
        Ok(cond) => Ok(cond),
        Err(error) => Err(error.under(position)),
    }
}

/// The condition that a list of these items spells.
fn read_row(alloc: Global, items: &[Value]) -> Result<Cond, ReadError>
    ensures ok { IfOk result (λ c. condition (array (items_view items.now)) ≡ Ok (cond_text c)) }
    ensures err { IfErr result (Says (condition (array (items_view items.now)))) }
    ensures memory { IfErr result (λ error. error ≡ NoMemory → length items.now ≡ 3) }
{
    match items {
        [word, a, b] => comparison(alloc, word, a, b),
        _ => Err(ReadError::here()),
    }
}

/// The condition that a word and two items spell.
fn comparison(alloc: Global, word: &Value, a: &Value, b: &Value) -> Result<Cond, ReadError>
    ensures ok { IfOk result (λ c.
        comparison (as_str (view word.now)) (at 1 (expression (view a.now))) (at 2 (expression (view b.now)))
        ≡ Ok (cond_text c)) }
    ensures err { IfErr result (Says
        (comparison (as_str (view word.now)) (at 1 (expression (view a.now))) (at 2 (expression (view b.now))))) }
{
    match word.as_str() {
        Some("less") => Ok(Cond::Less(expr_at(alloc, 1, a)?, expr_at(alloc, 2, b)?)),
        Some("most") => Ok(Cond::AtMost(expr_at(alloc, 1, a)?, expr_at(alloc, 2, b)?)),
        Some("same") => Ok(Cond::Equal(expr_at(alloc, 1, a)?, expr_at(alloc, 2, b)?)),
        _ => Err(ReadError::here()),
    }
}
