//! Messages that several errors have.
use crate::excerpt::{excerpt, word_excerpt};
use crate::typed::Typed;
use serde_json::Value;
use sgt_format::items;
use sgt_model::NoMemory;

/// What is wrong, in one line without newline. None if there is nothing to say.
pub(crate) type Message = Result<Option<String>, NoMemory>;

/// The message that something else was expected than this tree.
pub(crate) fn unexpected(typed: Typed<'_>, wanted: &str, tree: &Value) -> Message {
    Ok(Some(expected(typed, wanted, tree)?))
}

/// What is said of a tree that was found in place of what is wanted: its start. If that does not show the end of a list
/// and the words begin with the form of a list of another length, it also says how many parts the list has.
pub(crate) fn expected(typed: Typed<'_>, wanted: &str, tree: &Value) -> Result<String, NoMemory> {
    let found = excerpt(typed, tree)?;
    let count = items(tree).map_or(0, |items| items.len());
    let parts = parts_of(wanted);
    if count == 0 || parts == 0 || parts == count || !found.as_str().ends_with("..") {
        return Ok(format!(in typed.alloc; "expected {wanted}, found {found}")?);
    }
    Ok(format!(in typed.alloc;
        "expected {wanted}, found {found} with {count} parts, not {parts}: a bracket may end too early or too late"
    )?)
}

// How many parts the list has whose form these words begin with, or 0. Two dots go with the part before them.
fn parts_of(words: &str) -> usize {
    let parts = words.split(',').filter(|part| !part.starts_with(".."));
    if words.starts_with('[') {
        parts.count()
    } else {
        0
    }
}

/// The message that nothing starts with this word, and what it has to start with.
pub(crate) fn unknown(typed: Typed<'_>, word: &str, known: &str) -> Message {
    let word = word_excerpt(typed, word)?;
    Ok(Some(format!(in typed.alloc; "unknown word {word}: {known}")?))
}

/// A message that needs no part of the input.
pub(crate) fn words(typed: Typed<'_>, words: &str) -> Message {
    Ok(Some(copied(typed, words)?))
}

/// A copy of the words.
pub(crate) fn copied(typed: Typed<'_>, words: &str) -> Result<String, NoMemory> {
    Ok(format!(in typed.alloc; "{words}")?)
}
