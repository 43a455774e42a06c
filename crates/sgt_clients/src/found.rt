//! The part of an entry that is wrong, as a second line shows it.

use crate::fault::Flaw;
use crate::hint::Hint;
use serde_json::Value;
use sgt_format::items;
use sgt_model::{NoMemory, is_value};
use sgt_notation::Shown;
use std::alloc::Global;

/// How many bytes of a part are shown.
const MOST_SHOWN: usize = 30;

/// The hint of the part of this entry that has the flaw, in JSON or in EDN. None if a part is missing, or if memory ran
/// out.
pub(crate) fn found_hint(alloc: Global, tree: &Value, flaw: &Flaw, is_edn: bool) -> Option<Hint> {
    let part = part_of(tree, flaw)?;
    if is_edn && is_null_read(part, flaw) {
        return Some(Hint::Nil);
    }
    let is_of_entry = matches!(flaw, Flaw::Value | Flaw::Operation(_));
    if is_edn && is_of_entry {
        return Some(Hint::EdnEntry);
    }
    let shown = shown(alloc, part, is_edn).ok()?;
    if is_of_entry {
        Some(Hint::FoundInEntry(shown))
    } else {
        Some(Hint::Found(shown))
    }
}

/// The part of an entry that has the flaw.
fn part_of<'a>(tree: &'a Value, flaw: &Flaw) -> Option<&'a Value> {
    match flaw {
        Flaw::Type => tree.get("type"),
        Flaw::Process => tree.get("process"),
        Flaw::Value => tree.get("value"),
        Flaw::Operation(number) => operation_of(tree, *number),
        Flaw::Key(number) => items(operation_of(tree, *number)?)?.get(1),
        Flaw::Number(number) => {
            let argument = items(operation_of(tree, *number)?)?.get(2)?;
            match items(argument) {
                Some(values) => values.iter().find(|value| !value
                    .as_i64()
                    .is_some_and(|number| is_value(number))),
                None => Some(argument),
            }
        }
        _ => None,
    }
}

/// The operation of this number, from 1.
fn operation_of(tree: &Value, number: usize) -> Option<&Value> {
    items(tree.get("value")?)?.get(number.checked_sub(1)?)
}

/// Whether an operation of EDN is a read of `null`, which is a symbol there.
fn is_null_read(part: &Value, flaw: &Flaw) -> bool {
    match (flaw, items(part)) {
        (Flaw::Operation(_), Some([word, _, seen])) => {
            matches!(
                (word.as_str(), seen.as_str()),
                (Some("r"), Some("null" | "None" | "NULL" | "Null"))
            )
        }
        _ => false,
    }
}

/// The start of a part: of JSON as it is written, and of EDN a text without quotes.
fn shown(alloc: Global, part: &Value, is_edn: bool) -> Result<Shown, NoMemory> {
    if let (Some(text), true) = (part.as_str(), is_edn) {
        return shortened(alloc, text.as_bytes());
    }
    shortened(alloc, part.to_string(alloc)?.as_str().as_bytes())
}

/// The start of a text, with two dots if there is more.
fn shortened(alloc: Global, text: &[u8]) -> Result<Shown, NoMemory> {
    let Some(start) = text.get(..MOST_SHOWN) else {
        return Shown::of(alloc, text);
    };
    let mut shown = Shown::of(alloc, start)?;
    if text.len() > MOST_SHOWN {
        shown.text.extend_from_slice(b"..")?;
    }
    Ok(shown)
}
