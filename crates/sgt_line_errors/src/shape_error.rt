//! What is wrong at the position of a procedure's first shape error.
use crate::excerpt::word_excerpt;
use crate::message::{Message, expected, unexpected, unknown};
use crate::part::{Part, row};
use crate::tree::word_in;
use crate::typed::Typed;
use serde_json::Value;
use sgt_format::items;

/// The message for the first shape error of a procedure.
pub(crate) fn shape_error(typed: Typed<'_>, procedure: &Value, place: &[u64]) -> Message {
    let mut part = Part::Procedure;
    let mut tree = procedure;
    for position in place {
        let Some((next, item)) = item_at(part, tree, *position as usize) else {
            return Ok(None);
        };
        part = next;
        tree = item;
    }
    shape_error_of(typed, part, tree)
}

// What may be at a position of a list, and what is there.
fn item_at(part: Part, tree: &Value, position: usize) -> Option<(Part, &Value)> {
    let item = items(tree)?.get(position)?;
    Some((part.at(word_in(tree), position)?, item))
}

// Why a tree does not fit where this is required.
fn shape_error_of(typed: Typed<'_>, part: Part, tree: &Value) -> Message {
    match (part, word_in(tree)) {
        (Part::Statement | Part::Expression | Part::Condition, Some(word)) => word_shape_error(
            typed, part, word, tree,
        ),
        _ => no_word_shape_error(typed, part, tree),
    }
}

// Why a tree that is no list with a word does not fit where this is required.
fn no_word_shape_error(typed: Typed<'_>, part: Part, tree: &Value) -> Message {
    let text = expected(typed, part.words(), tree)?;
    let rule = match part.rule() {
        Some(rule) if part != Part::Procedure || !tree.is_array() => rule,
        _ => return Ok(Some(text)),
    };
    let word = tree.as_str().unwrap_or("");
    if let Some((Part::Statement, parts)) = row(word) {
        let form = Part::form(typed.alloc, word, parts)?;
        return Ok(Some(format!(in typed.alloc;
            "{text}: a statement is a list in the list of statements, as [{form}]"
        )?));
    }
    Ok(Some(format!(in typed.alloc; "{text}: {rule}")?))
}

// Why a list that starts with this word does not fit where this is required.
fn word_shape_error(typed: Typed<'_>, part: Part, word: &str, tree: &Value) -> Message {
    if let Some(parts) = part.following(word) {
        return unexpected(typed, Part::form(typed.alloc, word, parts)?.as_str(), tree);
    }
    if row(word).is_none() {
        return unknown(typed, word, part.starts());
    }
    let (word, wanted, starts) = (word_excerpt(typed, word)?, part.words(), part.starts());
    Ok(Some(format!(in typed.alloc; "{word} does not begin {wanted}: {starts}")?))
}
