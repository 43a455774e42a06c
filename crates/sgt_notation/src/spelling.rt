//! Writes an operation of a history as it was spelled when read.
ghost use Rattle.std.specs.Prelude.{◌≡◌, ◌++◌, [], OnOk, slice_get};
ghost use Rattle.std.specs.Option.{option_map_or};
ghost use Rattle.sgt_notation.specs.Spellings.{spelling, bracketed, text_at};
ghost use Rattle.sgt_notation.specs.Readings.{texts};

use crate::history::History;
use sgt_classes::{Action, Operation};
use sgt_format::append_numbered;
use sgt_model::NoMemory;

/// Appends the operation as it is spelled.
///
/// # Errors
///
/// `NoMemory` if an allocation failed.
pub fn append_operation(
    text: &mut Vec<u8>,
    history: &History,
    operation: &Operation,
) -> Result<(), NoMemory>
    ensures { OnOk result (text.new.items ≡ text.old.items ++ spelling (texts history.now) operation.now) }
{
    match operation.action {
        Action::Read(item) => {
            append_numbered(text, b"r", operation.transaction)?;
            append_item(text, history, item)
        }
        Action::Write(item) => {
            append_numbered(text, b"w", operation.transaction)?;
            append_item(text, history, item)
        }
        Action::Commit => Ok(append_numbered(text, b"c", operation.transaction)?),
        Action::Abort => Ok(append_numbered(text, b"a", operation.transaction)?),
    }
}

/// Appends the item in its brackets.
fn append_item(text: &mut Vec<u8>, history: &History, item: u32) -> Result<(), NoMemory>
    ensures { OnOk result (text.new.items ≡ text.old.items ++ bracketed (text_at (texts history.now) item)) }
{
    text.extend_from_slice(b"[")?;
    append_name(text, history, item)?;
    text.extend_from_slice(b"]")?;
    Ok(())
}

/// Appends the text of the item.
fn append_name(text: &mut Vec<u8>, history: &History, item: u32) -> Result<(), NoMemory>
    ensures { OnOk result (text.new.items
        ≡ text.old.items ++ option_map_or (λ name. name.items) (slice_get history.now.items.items item) []) }
{
    if let Some(name) = history.items.get(item as usize) {
        text.extend_from_slice(name.as_slice())?;
    }
    Ok(())
}
