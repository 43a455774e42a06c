//! Explains in one line, for a person, why the text of an opening or of a procedure is refused.
ghost use Rattle.std.specs.Prelude.{◌≢◌, IfOk, OnOk, IsSome};
ghost use Rattle.sgt_format.specs.declared.errors.OpeningError.{OpeningError};
ghost use Rattle.sgt_line_errors.specs.Refusals.{SpellsNoOpening, SpellsNoProcedure};

use crate::flaw::flaw_fault;
use crate::json_text::json_fault;
use crate::message::{Message, copied};
use crate::opening::{account_fault, limit_fault, opening_fault};
use crate::shape_error::shape_error;
use crate::typed::Typed;
use serde_json::Value;
use sgt_format::{OpeningError, items, read_opening, read_procedure_line, read_tree};
use sgt_model::NoMemory;
use sgt_smallbank::PROCEDURES;
use std::alloc::Global;

/// Explains why a text is no opening that allows at least this many live transactions, in one line without newline:
/// where its first error is, and what was expected there. None if it is one.
///
/// # Errors
///
/// `NoMemory` if an allocation failed.
pub fn explain_opening(
    alloc: Global,
    least: u32,
    opening: &[u8],
) -> Result<Option<String>, NoMemory>
    ensures refused { IfOk result (λ text. IsSome text → SpellsNoOpening least opening.now) }
{
    let typed = Typed {
        alloc,
        text: opening,
        shows_columns: false,
    };
    opening_refusal(typed, least)
}

/// The same of the text from which messages show parts.
pub(crate) fn opening_refusal(typed: Typed<'_>, least: u32) -> Message
    ensures refused { IfOk result (λ text. IsSome text → SpellsNoOpening least typed.entry.text.now) }
{
    let Err(error) = read_opening(typed.alloc, least, typed.text) else {
        return Ok(None);
    };
    explained(typed, &error, Some(least))
}

/// Explains in the same way why a text is no procedure, as one item of an opening's list. The explanation names the
/// procedure by this number.
///
/// # Errors
///
/// `NoMemory` if an allocation failed.
pub fn explain_procedure(
    alloc: Global,
    number: u64,
    procedure: &[u8],
) -> Result<Option<String>, NoMemory>
    ensures refused { IfOk result (λ text. IsSome text → SpellsNoProcedure number procedure.now) }
{
    let Err(error) = read_procedure_line(alloc, number, procedure) else {
        return Ok(None);
    };
    let typed = Typed {
        alloc,
        text: procedure,
        shows_columns: false,
    };
    explained(typed, &error, None)
}

// The error of a text, which is that of an opening if it must allow this many live transactions, else of a procedure.
fn explained(typed: Typed<'_>, error: &OpeningError, least: Option<u32>) -> Message
    ensures { OnOk result (error.now ≢ OpeningError.NoMemory) }
{
    match error {
        OpeningError::NoMemory => Err(NoMemory),
        OpeningError::NotJson => json_fault(typed, u64::from(least.is_some())),
        _ => match read_tree(typed.alloc, typed.text)? {
            Some(tree) => tree_fault(typed, error, least, &tree),
            None => Ok(None),
        },
    }
}

// The same from the text's tree.
fn tree_fault(typed: Typed<'_>, error: &OpeningError, least: Option<u32>, tree: &Value) -> Message {
    match error {
        OpeningError::BadLine => opening_fault(typed, tree),
        OpeningError::BadLimits => limit_fault(typed, least.unwrap_or(1), member(tree, "limits")),
        OpeningError::BadOpening(_) => account_fault(typed, member(tree, "accounts")),
        OpeningError::ProcShape(number, _) | OpeningError::ProcFlaw(number, _) => {
            let index = number.saturating_sub(u64::from(PROCEDURES));
            let procedure = match least {
                Some(_) => member(tree, "procedures").get(index as usize),
                None => Some(tree),
            };
            match procedure {
                Some(procedure) => procedure_fault(typed, error, *number, procedure),
                None => Ok(None),
            }
        }
        OpeningError::NotJson | OpeningError::NoMemory => Ok(None),
    }
}

// The error of the procedure of this number, from its tree. Its position is shown as in the fault's own line.
fn procedure_fault(
    typed: Typed<'_>,
    error: &OpeningError,
    number: u64,
    procedure: &Value,
) -> Message {
    let mut place = Vec::new(typed.alloc);
    let what = match error {
        OpeningError::ProcShape(_, shape) => {
            place.extend_from_slice(shape.as_slice())?;
            shape_error(typed, procedure, shape.as_slice())?
        }
        _ => flaw_fault(typed, procedure, &mut place)?,
    };
    let Some(what) = what else {
        return Ok(None);
    };
    let mut shown = copied(typed, if place.is_empty() { " top" } else { "" })?;
    for position in place.as_slice() {
        shown = format!(in typed.alloc; "{shown} {position}")?;
    }
    let text = format!(in typed.alloc; "procedure {number}, at{shown}: {what}")?;
    place.insert(0, number.saturating_sub(u64::from(PROCEDURES)))?;
    typed.placed(Some("procedures"), place.as_slice(), text)
}

// The items of a member of an object, or none.
fn member<'a>(tree: &'a Value, name: &str) -> &'a [Value] {
    match tree.get(name) {
        Some(member) => items(member).unwrap_or(&[]),
        None => &[],
    }
}
