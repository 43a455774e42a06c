//! The tokens of a text in JSON, right or wrong.
use json::{Scratch, is_valid};
use sgt_model::NoMemory;
use std::alloc::Global;

/// What brackets or braces are around.
#[derive(Clone, Copy, PartialEq)]
pub(crate) enum Kind {
    List,
    Object,
}

/// What a token is.
#[derive(Clone, Copy)]
pub(crate) enum TokenKind {
    Opens(Kind),
    Closes(Kind),
    Comma,
    Colon,
    Text,
    /// A number, `true`, `false` or `null`.
    Plain,
    /// A word that is none of these.
    Word,
    /// A number that is not written as JSON does.
    BadNumber,
    /// A text without its closing quote.
    Unclosed,
    /// A control character in a text.
    Control,
    /// A backslash in a text, before what it does not stand before.
    BadEscape,
    /// A text with escapes that are half a character.
    HalfCharacter,
    /// Another byte.
    Other,
    /// The end of the line.
    End,
}

/// A token, and where it stands in its text.
#[derive(Clone, Copy)]
pub(crate) struct Token {
    pub kind: TokenKind,
    /// The index at which it begins, or of what is wrong in it.
    pub at: usize,
    /// The index after it.
    pub end: usize,
}

/// The token at this index of a text.
pub(crate) fn token_at(alloc: Global, text: &str, at: usize) -> Result<Token, NoMemory> {
    let bytes = text.as_bytes();
    let rest = bytes.get(at..).unwrap_or(b"");
    let mut token = match rest {
        [b'"', ..] => text_at(bytes, at),
        _ => sign_at(rest, at),
    };
    if matches!(token.kind, TokenKind::Text | TokenKind::Plain) {
        let part = text.get(at..token.end).unwrap_or("");
        if !is_valid(part, &mut Scratch::new(alloc))? {
            token.kind = match rest {
                [b'"', ..] => TokenKind::HalfCharacter,
                [b'0'..=b'9' | b'-' | b'+' | b'.', ..] => TokenKind::BadNumber,
                _ => TokenKind::Word,
            };
        }
    }
    Ok(token)
}

// The bracket, the sign, the word or the number with which this text starts, at this index.
fn sign_at(text: &[u8], at: usize) -> Token {
    let (kind, length) = match text {
        [b'[', ..] => (TokenKind::Opens(Kind::List), 1),
        [b'{', ..] => (TokenKind::Opens(Kind::Object), 1),
        [b']', ..] => (TokenKind::Closes(Kind::List), 1),
        [b'}', ..] => (TokenKind::Closes(Kind::Object), 1),
        [b',', ..] => (TokenKind::Comma, 1),
        [b':', ..] => (TokenKind::Colon, 1),
        _ => match text.iter().take_while(|byte| is_in_word(**byte)).count() {
            0 => (TokenKind::Other, 1),
            length => (TokenKind::Plain, length),
        },
    };
    let end = at.saturating_add(length);
    Token { kind, at, end }
}

// The text that begins with the quote at this index, or what is wrong in it.
fn text_at(text: &[u8], begin: usize) -> Token {
    let mut is_escaped = false;
    for at in begin.saturating_add(1)..text.len() {
        let end = at.saturating_add(1);
        let (kind, at) = match text[at] {
            _ if is_escaped => {
                is_escaped = false;
                continue;
            }
            b'"' => (TokenKind::Text, begin),
            b'\x00'..=b'\x1f' => (TokenKind::Control, at),
            b'\\' if is_escape(text.get(end..).unwrap_or(b"")) => {
                is_escaped = true;
                continue;
            }
            b'\\' => (TokenKind::BadEscape, at),
            _ => continue,
        };
        return Token { kind, at, end };
    }
    let (kind, end) = (TokenKind::Unclosed, text.len());
    Token {
        kind,
        at: begin,
        end,
    }
}

// Whether a backslash may stand before these bytes of a text. At the end of the line the text is not closed.
fn is_escape(after: &[u8]) -> bool {
    match after {
        [b'"' | b'\\' | b'/' | b'b' | b'f' | b'n' | b'r' | b't', ..] | [] => true,
        [b'u', a, b, c, d, ..] => [*a, *b, *c, *d]
            .iter()
            .all(|digit| digit.is_ascii_hexdigit()),
        _ => false,
    }
}

// Whether this byte may be in a word or a number.
fn is_in_word(byte: u8) -> bool {
    byte.is_ascii_alphanumeric() || matches!(byte, b'_' | b'-' | b'+' | b'.')
}
