//! A wrong entry as it is reported: at its place in the input as it was typed, and with what a second line says.
ghost use Rattle.sgt_clients.specs.Faults.{IsOwn};

use crate::breaks::{NoJson, first_break};
use crate::fault::{ClientsFault, Flaw};
use crate::found::found_hint;
use crate::glued::glued_at;
use crate::hint::Hint;
use crate::pieces::{Place, next_object, object_end};
use serde_json::Value;
use sgt_edn::{edn_index, is_edn, json_of_edn};
use sgt_model::NoMemory;
use std::alloc::Global;

/// The byte order mark that some programs put before a text in UTF-8.
const BYTE_ORDER_MARK: &[u8] = b"\xef\xbb\xbf";

/// The error of the input. If an entry is wrong, it has its place in the input, and a hint. If an allocation failed, it
/// stays as it is.
pub(crate) fn explained(alloc: Global, input: &[u8], fault: ClientsFault) -> ClientsFault
    ensures { IsOwn fault → IsOwn result }
{
    let ClientsFault::Entry(line, entry, flaw) = fault else {
        return fault;
    };
    let (line, entry, flaw, hint) = match explained_entry(alloc, input, entry, &flaw) {
        Ok(Some(found)) => (
            found.line,
            found.entry,
            Flaw::NotJson(found.column),
            found.hint,
        ),
        _ => {
            let hint = flaw_hint(alloc, input, entry, &flaw);
            (line, entry, flaw, hint)
        }
    };
    match hint {
        Some(hint) => ClientsFault::Hinted(line, entry, flaw, hint),
        None => ClientsFault::Entry(line, entry, flaw),
    }
}

/// Where the input stops being JSON or EDN, if it does so in this entry or before, which has this flaw.
fn explained_entry(
    alloc: Global,
    input: &[u8],
    entry: usize,
    flaw: &Flaw,
) -> Result<Option<NoJson>, NoMemory> {
    let is_json = !is_edn(input);
    let is_broken = matches!(flaw, Flaw::NotJson(_));
    if is_json && !is_broken {
        return Ok(None);
    }
    let json = json_of(alloc, input)?;
    let Some(object) = object_of(json.as_slice(), entry) else {
        return Ok(None);
    };
    let in_json = if is_broken {
        broken_at(alloc, json.as_slice(), object)?
    } else {
        object.end
    };
    let at = if is_json {
        in_json
    } else {
        edn_index(alloc, input, in_json)?
    };
    let mut found = match first_break(alloc, input, !is_json, last_at(input, at))? {
        Some(found) => found,
        None if is_broken => of_place(input, entry, at, at == object.start),
        None => return Ok(None),
    };
    if is_mixed(alloc, input, object)? {
        found.hint = Some(Hint::JsonEntry);
    } else if let Some(column) = glued_in(input, &found) {
        found.hint = Some(Hint::Glued(found.entry, column));
    }
    Ok(Some(found))
}

/// Whether the object of a text in JSON is an entry in JSON of an input in EDN.
fn is_mixed(alloc: Global, input: &[u8], object: Object) -> Result<bool, NoMemory> {
    if !is_edn(input) {
        return Ok(false);
    }
    let start = edn_index(alloc, input, object.start)?;
    Ok(starts_json(input.get(start..).unwrap_or(b"")))
}

/// Whether an object in JSON starts here: a brace, a text, and a colon.
fn starts_json(text: &[u8]) -> bool {
    let [b'{', rest @ ..] = text else {
        return false;
    };
    let [b'"', name @ ..] = rest.trim_ascii_start() else {
        return false;
    };
    let mut parts = name.split(|byte| *byte == b'"');
    parts
        .nth(1)
        .is_some_and(|after| after.trim_ascii_start().starts_with(b":"))
}

/// The column at which another entry begins in the line of this place, if one does before it.
fn glued_in(input: &[u8], found: &NoJson) -> Option<usize> {
    let before = (found.line as usize).saturating_sub(1);
    glued_at(
        input.split(|byte| *byte == b'\n').nth(before)?,
        found.column,
    )
}

/// The last index at which a break can be the reason of an error at this one: if a text is wrong, the end of its line.
fn last_at(input: &[u8], at: usize) -> usize {
    if input.get(at) != Some(&b'"') {
        return at;
    }
    at.saturating_add(first_line(input.get(at..).unwrap_or(b"")).len())
}

/// The bytes up to the first newline.
fn first_line(text: &[u8]) -> &[u8] {
    text.split(|byte| *byte == b'\n').next().unwrap_or(b"")
}

/// The text of the input in JSON.
fn json_of(alloc: Global, input: &[u8]) -> Result<Vec<u8>, NoMemory> {
    if is_edn(input) {
        return json_of_edn(alloc, input);
    }
    Ok(input.to_vec(alloc)?)
}

/// An object of a text in JSON: the indices of its first byte and of the one after it.
#[derive(Clone, Copy)]
struct Object {
    start: usize,
    end: usize,
}

/// The object of this number from 1.
fn object_of(json: &[u8], number: usize) -> Option<Object> {
    let mut start = Place { at: 0, line: 1 };
    let mut end = start;
    for _ in 0..number {
        start = next_object(json, end);
        if start.at >= json.len() {
            return None;
        }
        end = object_end(json, start);
    }
    Some(Object {
        start: start.at,
        end: end.at,
    })
}

/// The index at which the object stops being JSON.
fn broken_at(alloc: Global, json: &[u8], object: Object) -> Result<usize, NoMemory> {
    let text = json.get(object.start..object.end).unwrap_or(b"");
    match Value::from_slice(alloc, text) {
        Ok(_) => Ok(object.end),
        Err(error) if error.is_memory() => Err(NoMemory),
        Err(error) if error.is_eof() && object.end == json.len() => Ok(json.len()),
        Err(error) => {
            let mut at = object
                .start
                .saturating_add(error.column().saturating_sub(1));
            let before = error.line().saturating_sub(1);
            for line in text.split(|byte| *byte == b'\n').take(before) {
                at = at.saturating_add(line.len()).saturating_add(1);
            }
            Ok(at)
        }
    }
}

/// The place of this index, with the hint of the bytes that stand there.
fn of_place(input: &[u8], entry: usize, at: usize, is_first: bool) -> NoJson {
    let (before, after) = input.split_at(at.min(input.len()));
    let newlines = before.iter().filter(|byte| **byte == b'\n').count();
    let line = before.rsplit(|byte| *byte == b'\n').next().unwrap_or(b"");
    NoJson {
        line: (newlines as u64).saturating_add(1),
        column: line.len().saturating_add(1),
        entry,
        hint: bytes_hint(before, after, is_first && entry == 1, is_edn(input)),
    }
}

/// The hint of the bytes before and after the place at which the input stops being JSON or EDN.
fn bytes_hint(before: &[u8], after: &[u8], is_first: bool, is_edn: bool) -> Option<Hint> {
    if after.starts_with(BYTE_ORDER_MARK) {
        return Some(Hint::Mark);
    }
    match after.first() {
        Some(byte) if *byte >= 128 => Some(Hint::Foreign),
        Some(b'_') if before.ends_with(b"#") => Some(Hint::Discard),
        Some(b'}') if is_edn && !is_outside(before) => Some(Hint::Pair),
        Some(b'{' | b'}' | b'#' | b':' | b'"') => None,
        Some(_) if is_first && is_outside(before) => Some(if has_end(after) {
            Hint::Head
        } else {
            Hint::History
        }),
        _ => None,
    }
}

/// Whether the first line of these bytes ends as the one of an entry does.
fn has_end(text: &[u8]) -> bool {
    first_line(text).trim_ascii_end().ends_with(b"}")
}

/// Whether no bracket stands before: text that begins with one is not read as a history either.
fn is_outside(before: &[u8]) -> bool {
    !matches!(before.trim_ascii_start().first(), Some(b'[' | b'{'))
}

/// The hint of the entry with this flaw.
fn flaw_hint(alloc: Global, input: &[u8], entry: usize, flaw: &Flaw) -> Option<Hint> {
    match flaw {
        Flaw::Invoked(..) => Some(Hint::Restart),
        Flaw::Process
        | Flaw::Type
        | Flaw::Value
        | Flaw::Operation(_)
        | Flaw::Key(_)
        | Flaw::Number(_) => tree_hint(alloc, input, entry, flaw),
        _ => None,
    }
}

/// The hint of an entry that is JSON, and has this flaw.
fn tree_hint(alloc: Global, input: &[u8], entry: usize, flaw: &Flaw) -> Option<Hint> {
    let json = json_of(alloc, input).ok()?;
    let object = object_of(json.as_slice(), entry)?;
    if is_mixed(alloc, input, object).unwrap_or(false) {
        return Some(Hint::JsonEntry);
    }
    let tree = Value::from_slice(alloc, json.get(object.start..object.end)?).ok()?;
    match flaw {
        Flaw::Process if tree.get("process").is_none() => Some(if tree.get("limits").is_some() {
            Hint::Script
        } else {
            Hint::Missing("process")
        }),
        Flaw::Type if tree.get("type").is_none() => Some(Hint::Missing("type")),
        Flaw::Value if tree.get("value").is_none() => Some(Hint::Missing("value")),
        _ => found_hint(alloc, &tree, flaw, is_edn(input)),
    }
}
