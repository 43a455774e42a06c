//! What is wrong with a word that spells no operation of a history, and where it stands.

ghost use Rattle.std.specs.Prelude.{◌<◌, length};

use sgt_notation::Shown;
use std::str;

/// The most bytes of a word that are shown.
const MOST_SHOWN: usize = 32;

/// The most bytes of an item.
const LONGEST_ITEM: usize = 64;

/// The byte order mark that some programs put before a text in UTF-8.
const BYTE_ORDER_MARK: &[u8] = b"\xef\xbb\xbf";

const FORM: &str = "an operation is r1[x], w1[x], c1 or a1";

const NO_COMMAS: &str = "operations are separated by spaces or newlines, without commas";

const ITEM: &str = "an item is 1 to 64 letters, digits and _ . / : -";

const NO_VALUE: &str = "a history has no values: an item is 1 to 64 letters, digits and _ . / : -";

/// What is wrong with a word.
#[derive(Clone, Copy)]
pub(crate) enum WordError {
    /// These words say it, of the bytes of the word from this index on.
    Words(usize, &'static str),
    /// At this index it has the character of this number, which is not ASCII.
    Foreign(usize, u32),
}

/// What is wrong with this word, which spells no operation.
pub(crate) fn word_error(word: &[u8]) -> WordError {
    if word.starts_with(BYTE_ORDER_MARK) {
        return WordError::Words(0, "a byte order mark: save the input without it");
    }
    if let Some(at) = word.iter().position(|byte| *byte >= 128) {
        return match code_point(&word[at..]) {
            Some(code) => WordError::Foreign(at, code),
            None => WordError::Words(at, "a byte that is not ASCII"),
        };
    }
    match word.first() {
        Some(b'r' | b'w') => access_error(word),
        Some(b'c' | b'a') => end_error(word),
        _ if word.starts_with(b"//") || word.starts_with(b"--") => WordError::Words(
            0,
            "a comment starts with #",
        ),
        Some(b'R' | b'W' | b'C' | b'A') => WordError::Words(
            0,
            "an operation starts with a small letter: r1[x], w1[x], c1 or a1",
        ),
        Some(b'b' | b'B' | b's' | b'S') => WordError::Words(
            0,
            "an operation is r1[x], w1[x], c1 or a1; a transaction begins with its first one, without a word",
        ),
        _ => WordError::Words(0, FORM),
    }
}

/// The number of the character with which these bytes start, if they are UTF-8.
fn code_point(bytes: &[u8]) -> Option<u32> {
    for len in 2..5usize {
        if len <= bytes.len() {
            if let Ok(text) = str::from_utf8(&bytes[..len]) {
                return text.chars().next().map(|character| character as u32);
            }
        }
    }
    None
}

/// What is wrong with a word that starts like a read or a write.
fn access_error(word: &[u8]) -> WordError {
    let open = digits_end(word);
    if let Some(error) = number_error(word, open) {
        return error;
    }
    match word.get(open) {
        Some(b'[') => item_error(word, open.saturating_add(1)),
        _ if word.contains(&b'(') => WordError::Words(
            0,
            "an item stands in square brackets, as in r1[x]",
        ),
        _ if !word.contains(&b'[') => WordError::Words(
            0,
            "a read and a write name an item in square brackets, without a space, as in r1[x]",
        ),
        _ => WordError::Words(0, FORM),
    }
}

/// What is wrong with a word that starts like a commit or an abort.
fn end_error(word: &[u8]) -> WordError {
    let end = digits_end(word);
    match number_error(word, end) {
        Some(error) => error,
        None if end <= 1 => WordError::Words(0, FORM),
        None => rest_error(word, end),
    }
}

/// The index after the digits that follow the first byte.
fn digits_end(word: &[u8]) -> usize {
    let digits = word.iter().skip(1).position(|byte| !byte.is_ascii_digit());
    digits.map_or(word.len(), |digits| digits.saturating_add(1))
}

/// What is wrong with the number of the transaction, whose digits end before this index.
fn number_error(word: &[u8], end: usize) -> Option<WordError> {
    if end > 2 && word.get(1) == Some(&b'0') {
        return Some(WordError::Words(1, "the number of a transaction has no leading zeros"));
    }
    if transaction_of(word) > u64::from(u32::MAX) {
        return Some(WordError::Words(1, "a transaction is a number from 0 to 4294967295"));
    }
    None
}

/// The transaction of an operation. Its number saturates.
pub(crate) fn transaction_of(word: &[u8]) -> u64 {
    let mut number = 0u64;
    for byte in word.iter().skip(1) {
        if !byte.is_ascii_digit() {
            return number;
        }
        let digit = u64::from(byte.saturating_sub(b'0'));
        number = number.saturating_mul(10).saturating_add(digit);
    }
    number
}

/// What is wrong with the item that starts at this index, or with what follows it.
fn item_error(word: &[u8], start: usize) -> WordError {
    for at in start..word.len() {
        if word[at] == b']' {
            let len = at.saturating_sub(start);
            if len == 0 || len > LONGEST_ITEM {
                return WordError::Words(start, ITEM);
            }
            return rest_error(word, at.saturating_add(1));
        }
        if matches!(word[at], b'=' | b',') {
            return WordError::Words(at, NO_VALUE);
        }
        if !is_item_byte(word[at]) {
            return WordError::Words(at, ITEM);
        }
    }
    WordError::Words(
        word.len(),
        "a ] is missing here; an item is 1 to 64 letters, digits and _ . / : -",
    )
}

/// Whether an item may contain the byte.
fn is_item_byte(byte: u8) -> bool {
    byte.is_ascii_alphanumeric() || matches!(byte, b'_' | b'.' | b'/' | b':' | b'-')
}

/// What is wrong with the rest of a word after an operation.
fn rest_error(word: &[u8], start: usize) -> WordError {
    match word.get(start) {
        Some(b',' | b';') => WordError::Words(start, NO_COMMAS),
        Some(_) => WordError::Words(start, "a space or a newline has to follow an operation"),
        None => WordError::Words(0, FORM),
    }
}

/// The index of the word in its line, if it is there.
pub(crate) fn index_of(line: &[u8], word: &Shown) -> Option<usize> {
    for at in 0..line.len() {
        if is_start(line, at) && is_shown(&line[at..], word.text.as_slice()) {
            return Some(at);
        }
    }
    None
}

/// The bytes of the word with which these bytes start.
pub(crate) fn first_word(bytes: &[u8]) -> &[u8] {
    bytes
        .split(|byte| separates_words(*byte))
        .next()
        .unwrap_or(b"")
}

/// Whether a word can start at this index: no word goes on there.
fn is_start(line: &[u8], at: usize) -> bool
    requires { at < length line.now }
{
    at == 0 || separates_words(line[at - 1])
}

/// Whether these bytes start with a word that is shown so.
fn is_shown(bytes: &[u8], shown: &[u8]) -> bool {
    let mut pairs = bytes.iter().zip(shown);
    let is_same = pairs.all(|(byte, shown)| shown_byte(*byte) == *shown);
    match bytes.get(shown.len()) {
        Some(next) => is_same && (shown.len() == MOST_SHOWN || separates_words(*next)),
        None => is_same && bytes.len() == shown.len(),
    }
}

/// Whether the byte separates words.
pub(crate) fn separates_words(byte: u8) -> bool {
    matches!(byte, b' ' | b'\t' | b'\r' | b'#')
}

/// The byte as it is shown.
fn shown_byte(byte: u8) -> u8 {
    if (32..=126).contains(&byte) {
        byte
    } else {
        b'?'
    }
}
