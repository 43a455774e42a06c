//! Where a line stops being JSON.
use crate::brackets::departure;
use crate::grammar::{Next, Wrong, first_wrong};
use crate::message::Message;
use crate::reason::reason;
use crate::token::{Token, TokenKind};
use crate::typed::Typed;
use serde_json::Value;
use sgt_model::NoMemory;

/// The position at which the line of this number stops being JSON, and why. Columns are bytes, counted from 1.
pub(crate) fn json_fault(typed: Typed<'_>, number: u64) -> Message {
    if let Some(words) = other_text(typed.text, number == 1) {
        return at_index(typed, 0, words);
    }
    let text = match str::from_utf8(typed.text) {
        Ok(text) => text,
        Err(error) => return at_index(typed, error.valid_up_to(), "not UTF-8 from here"),
    };
    if let Some(wrong) = first_wrong(typed.alloc, text)? {
        return wrong_fault(typed, &wrong);
    }
    match Value::from_str(typed.alloc, text) {
        Ok(_) => Ok(None),
        Err(error) => if error.is_memory() {
            Err(NoMemory)
        } else {
            let index = error.column().saturating_sub(1);
            at_index(typed, index, "the number before it is too large")
        },
    }
}

// What is said of a line, or of the first one, that starts as no JSON does: as other programs save a text, or as a
// comment or a history in text or in EDN.
fn other_text(line: &[u8], is_first: bool) -> Option<&'static str> {
    match line {
        [0xef, 0xbb, 0xbf, ..] => Some("a byte order mark: save the input without it"),
        _ if line.trim_ascii().is_empty() => Some("the line is empty: leave it out"),
        [b'#', ..] if is_first => Some(
            "not JSON from here: there are no comments; a history, which may have some, is read by sgt check",
        ),
        [b'#', ..] | [b'/', b'/' | b'*', ..] | [b'-', b'-', ..] => Some(
            "not JSON from here: there are no comments",
        ),
        [
            b'r' | b'w' | b'c' | b'a' | b'b' | b'R' | b'W' | b'C' | b'A' | b'B',
            b'0'..=b'9',
            ..
        ] => Some("not JSON from here: a history like r1[x] is read by sgt check"),
        [b'{', b':', ..] => Some(
            "not JSON from here: what clients saw is read by sgt check --model list-append",
        ),
        _ => None,
    }
}

// The error of the first token that may not stand where it does.
fn wrong_fault(typed: Typed<'_>, wrong: &Wrong) -> Message {
    if let Some(text) = before_bracket(typed, wrong) {
        let departure = departure(typed, text)?;
        if departure.is_some() {
            return Ok(departure);
        }
    }
    let words = match wrong.token.kind {
        TokenKind::End =>
            "the line ends where its JSON has to go on: each line is a JSON text of its own",
        TokenKind::Unclosed => "the text that begins here has no closing quote",
        _ if wrong.is_too_deep() => "lists and objects are more than 127 deep",
        _ => {
            let reason = reason(typed, wrong)?;
            let words = format!(in typed.alloc; "not JSON from here: {reason}")?;
            return at_index(typed, wrong.token.at, words.as_str());
        }
    };
    at_index(typed, wrong.token.at, words)
}

// The text up to the token, if a bracket may be missing or too many before it. A bracket is part of it.
fn before_bracket<'a>(typed: Typed<'a>, wrong: &Wrong) -> Option<&'a [u8]> {
    let Token { kind, at, end } = wrong.token;
    let end = match (wrong.grammar.next, kind) {
        (Next::End, TokenKind::Closes(_)) | (Next::Name, TokenKind::Opens(_)) => end,
        (Next::End, TokenKind::Colon) | (_, TokenKind::End) => at,
        _ => return None,
    };
    Some(typed.part(0, end))
}

// What is said of the byte at this index, after its column.
fn at_index(typed: Typed<'_>, index: usize, words: &str) -> Message {
    let column = index.saturating_add(1);
    Ok(Some(format!(in typed.alloc; "column {column}: {words}")?))
}
