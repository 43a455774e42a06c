//! The start of a JSON tree, shortened for a message.
use crate::typed::{Follower, Typed};
use serde_json::Value;
use sgt_model::NoMemory;
use std::alloc::Global;

/// The maximum number of characters of a text that are shown.
const LONGEST: usize = 40;

/// A tree as it was typed, without spaces between its parts: its first 40 characters, and two dots if there are more.
/// Each character that is not printable ASCII is shown as `?`.
pub(crate) fn excerpt(typed: Typed<'_>, tree: &Value) -> Result<String, NoMemory> {
    if tree.is_array() || tree.is_object() || tree.is_number() {
        if let Some(text) = typed.spelling(tree)? {
            return shortened(typed.alloc, text);
        }
    }
    shortened(typed.alloc, tree.to_string(typed.alloc)?.as_str())
}

/// A word of the input as JSON, shortened in the same way.
pub(crate) fn word_excerpt(typed: Typed<'_>, word: &str) -> Result<String, NoMemory> {
    excerpt(typed, &Value::try_from_str(typed.alloc, word)?)
}

/// A text without spaces between its parts, as far as it is shown.
pub(crate) fn shortened(alloc: Global, text: &str) -> Result<String, NoMemory> {
    let mut start = String::new(alloc);
    let mut follower = Follower::new();
    for character in text.chars() {
        let is_space = !follower.is_in_string && character.is_ascii_whitespace();
        follower.follow(u8::try_from(character).unwrap_or(b'x'));
        if is_space {
            continue;
        }
        if start.len() >= LONGEST {
            start.push_str("..")?;
            return Ok(start);
        }
        let is_printable = (' '..='~').contains(&character);
        start.push(if is_printable { character } else { '?' })?;
    }
    Ok(start)
}
