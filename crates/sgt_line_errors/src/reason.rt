//! Why a token may not stand where it does in a line, in words.
use crate::brackets::wrong_end;
use crate::excerpt::shortened;
use crate::grammar::{Next, Open, Wrong};
use crate::message::copied;
use crate::opening::MEMBERS;
use crate::token::{Kind, Token, TokenKind};
use crate::typed::Typed;
use sgt_model::NoMemory;

const LIST_ENDS: &str = "a list ends in ]";

const A_LIST: &str = "a list stands in square brackets";

const A_NAME: &str = "the name of a member stands here in double quotes";

const A_COLON: &str = "a colon stands after the name of a member";

const A_REQUEST: &str = "an event, a job or a record is a list, in square brackets";

const LINE_ENDS: &str = "the JSON of this line ends before it";

/// Why the first wrong token of a line may not stand there, or what may.
pub(crate) fn reason(typed: Typed<'_>, wrong: &Wrong) -> Result<String, NoMemory> {
    let rest = typed.part(wrong.token.at, typed.text.len());
    if let Some(words) = key_words(typed, wrong, rest) {
        return copied(typed, words);
    }
    if let Some(text) = wrong.text_before() {
        if begins_number(rest) {
            return copied(typed, "a comma is missing before it");
        }
        let column = text.at.saturating_add(1);
        return Ok(format!(in typed.alloc;
            "the text at column {column} is followed by a word: a quote may be missing in it"
        )?);
    }
    match (
        wrong.grammar.next,
        wrong.grammar.open.last(),
        wrong.token.kind,
    ) {
        (Next::Name, Some(object), TokenKind::Opens(_) | TokenKind::Plain | TokenKind::BadNumber) =>
            { name_reason(typed, wrong, object) }
        (Next::Colon, Some(object), TokenKind::Comma) if is_request(typed, wrong, object) => {
            Ok(format!(in typed.alloc; "{A_COLON}; {A_REQUEST}")?)
        }
        (Next::End, Some(list), TokenKind::Colon) if lacks_end(wrong, list) => {
            let column = list.begin.saturating_add(1);
            Ok(format!(in typed.alloc;
                "no colon stands in a list: the list that begins at column {column} may lack its ]"
            )?)
        }
        (Next::End, None, _) => line_reason(typed, wrong, rest),
        (next, top, kind) => copied(typed, words_at(next, top, kind, rest)),
    }
}

// What is said of a slash between the digits of a key, as replies and databases have it, if these bytes begin with it.
fn key_words(typed: Typed<'_>, wrong: &Wrong, rest: &[u8]) -> Option<&'static str> {
    let [b'/', rest @ ..] = rest else {
        return None;
    };
    let before = typed.part(0, wrong.token.at).last()?;
    if !begins_number(rest) || !before.is_ascii_digit() {
        return None;
    }
    Some(if wrong.grammar.open.is_empty() {
        "a record is written as [\"record\",table,number,value], as --records does"
    } else {
        "a key is written as two numbers, its table and its number: 2,101 for 2/101"
    })
}

// Whether these bytes begin with a digit or a minus sign.
fn begins_number(text: &[u8]) -> bool {
    matches!(text.first(), Some(b'0'..=b'9' | b'-'))
}

// What is said of a value that stands where the name of a member of this object has to.
fn name_reason(typed: Typed<'_>, wrong: &Wrong, object: &Open) -> Result<String, NoMemory> {
    let (Some(name), Some(value)) = (object.name, object.value) else {
        return copied(typed, A_NAME);
    };
    let column = value.end;
    let name = part_of(typed, name);
    let shown = shortened(typed.alloc, name)?;
    match (value.kind, wrong.token.kind) {
        (TokenKind::Opens(Kind::List), TokenKind::Opens(Kind::List)) => {
            let hint = if has_end_too_many(typed, wrong, value)? {
                "a ] is too many"
            } else {
                "its own brackets are missing, as in [[1,2],[3,4]]"
            };
            Ok(format!(in typed.alloc;
                "{A_NAME}: the list of {shown} ended at column {column}: {hint}"
            )?)
        }
        (TokenKind::Opens(_), _) => copied(typed, A_NAME),
        _ if is_request(typed, wrong, object) => Ok(format!(in typed.alloc;
            "{A_NAME}; {A_REQUEST}"
        )?),
        _ => Ok(format!(in typed.alloc;
            "{A_NAME}: the value of {shown} ended at column {column}, and {A_LIST}"
        )?),
    }
}

// Whether a list has ended too early: it has lists, or more ends come than begin.
fn has_end_too_many(typed: Typed<'_>, wrong: &Wrong, list: Token) -> Result<bool, NoMemory> {
    let items = typed.part(list.at.saturating_add(1), typed.text.len());
    let rest = typed.part(wrong.token.at, typed.text.len());
    let end = wrong_end(typed.alloc, rest)?;
    Ok(items.trim_ascii_start().starts_with(b"[") || end == Some(b']'))
}

// Whether an object is a whole line, and begins as an event, a job or a record would.
fn is_request(typed: Typed<'_>, wrong: &Wrong, object: &Open) -> bool {
    let Some(name) = object.name else {
        return false;
    };
    let name = part_of(typed, name).trim_matches('"');
    wrong.grammar.open.len() == 1 && !MEMBERS.contains(&name)
}

// Whether this list has the name of a member, and so may have ended before it.
fn lacks_end(wrong: &Wrong, list: &Open) -> bool {
    let outermost = wrong.grammar.open.first();
    outermost.is_some_and(|outermost| outermost.kind == Kind::Object)
        && list.kind == Kind::List
        && list
            .value
            .is_some_and(|value| matches!(value.kind, TokenKind::Text))
}

// What the token is in the line, if that is UTF-8.
fn part_of<'a>(typed: Typed<'a>, token: Token) -> &'a str {
    str::from_utf8(typed.part(token.at, token.end)).unwrap_or("")
}

// What is said of a token after the value that a line is, which begins these bytes.
fn line_reason(typed: Typed<'_>, wrong: &Wrong, rest: &[u8]) -> Result<String, NoMemory> {
    let has_ended_early = wrong_end(typed.alloc, rest)?.is_some();
    let words = match (wrong.token.kind, typed.text.trim_ascii_start()) {
        (TokenKind::Closes(_), _) => Some("this bracket closes nothing, and may be too many"),
        (TokenKind::Other, _) => other_words(rest),
        (TokenKind::Colon, [b'"', ..]) => Some("an object stands in { }"),
        (_, [b'[', ..]) if has_ended_early => Some("a ] before it is too many"),
        (_, [b'{', ..]) if has_ended_early => Some("a } before it is too many"),
        (_, [b'[' | b'{', ..]) => Some("each event, job or record stands on a line of its own"),
        _ => Some(A_LIST),
    };
    match words {
        Some(words) => Ok(format!(in typed.alloc; "{LINE_ENDS}: {words}")?),
        None => copied(typed, LINE_ENDS),
    }
}

// What is said of a token like this, which begins these bytes, where this has to come next in what is open.
fn words_at(next: Next, top: Option<&Open>, kind: TokenKind, rest: &[u8]) -> &'static str {
    match (next, kind) {
        (_, TokenKind::Control) =>
            "a tab or another control character stands in a text as \\t, or as \\u and four hexadecimal digits",
        (_, TokenKind::BadEscape) =>
            "in a text a backslash stands before \", \\, /, b, f, n, r, t, or u and four hexadecimal digits",
        (_, TokenKind::HalfCharacter) => "an escape in this text is half a character",
        (Next::End, kind) => separator_words(top, kind, rest),
        (Next::Line, TokenKind::Closes(_)) => "nothing is open that this could close",
        (Next::FirstItem, TokenKind::Closes(_)) => LIST_ENDS,
        (Next::FirstName, TokenKind::Closes(_)) => "an object ends in }",
        (Next::Value, TokenKind::Closes(_) | TokenKind::Comma) =>
            "a value is missing after the colon",
        (Next::Item | Next::Name, TokenKind::Closes(_)) =>
            "nothing stands between the comma and this bracket: an item is missing, or the comma is too many",
        (Next::Colon, kind) => if begins_value(kind) {
            "a colon is missing before it"
        } else {
            A_COLON
        },
        (_, TokenKind::Comma) => "nothing stands before the comma",
        (_, TokenKind::Word) => word_words(rest),
        (Next::FirstName, TokenKind::Opens(_) | TokenKind::Plain | TokenKind::BadNumber) =>
            "the name of a member stands here in double quotes; a list stands in square brackets",
        (Next::Name | Next::FirstName, TokenKind::Other) => other_words(rest).unwrap_or(A_NAME),
        (Next::Name | Next::FirstName, _) => A_NAME,
        (_, TokenKind::BadNumber) =>
            "a number is written as 10 or -5, without a plus, a leading zero or other signs",
        _ => other_words(rest).unwrap_or(
            "a value stands here: a number, a text in double quotes, or a list in square brackets",
        ),
    }
}

// What is said of a word that stands for a value.
fn word_words(rest: &[u8]) -> &'static str {
    match rest {
        [b'N', b'a', b'N', ..] | [b'I', b'n', b'f', ..] => "JSON has no NaN and no Infinity",
        [b'N', b'o', b'n', b'e', ..]
        | [b'T', b'r', b'u', b'e', ..]
        | [b'F', b'a', b'l', b's', ..] => "JSON has null, true and false, in small letters",
        _ => "a word stands in double quotes",
    }
}

// What is said of a token where a comma or the end of what is open has to come.
fn separator_words(top: Option<&Open>, kind: TokenKind, rest: &[u8]) -> &'static str {
    let is_list = top.is_some_and(|top| top.kind == Kind::List);
    match kind {
        TokenKind::Closes(_) if is_list => LIST_ENDS,
        TokenKind::Closes(_) =>
            "an object ends in }, and no list is open: this ] or one before it is too many",
        _ if begins_value(kind) => "a comma is missing before it",
        _ => match other_words(rest) {
            Some(words) => words,
            None if is_list => "a comma separates the items of a list",
            None => "a comma separates the members of an object",
        },
    }
}

// Whether a value begins with a token like this, right or wrong.
fn begins_value(kind: TokenKind) -> bool {
    matches!(
        kind,
        TokenKind::Opens(_)
            | TokenKind::Text
            | TokenKind::Plain
            | TokenKind::Word
            | TokenKind::BadNumber
    )
}

// What is said of bytes that begin no token, if they are known.
fn other_words(rest: &[u8]) -> Option<&'static str> {
    match rest {
        [b'\'' | b'`', ..] => Some("a text stands in double quotes"),
        [b'(', ..] => Some(A_LIST),
        [b'#' | b'/', ..] => Some("there are no comments"),
        [0xe2, 0x80, 0x98..=0x9f, ..] | [0xc2, 0xab | 0xbb, ..] => Some(
            "a text stands in plain double quotes, as \"step\"",
        ),
        [0x80..=0xff, ..] => Some("this is not ASCII"),
        _ => None,
    }
}
