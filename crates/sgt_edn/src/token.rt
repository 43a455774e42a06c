//! Tokens in JSON: keywords, symbols, numbers and characters.
ghost use Rattle.std.specs.Prelude.{◌≡◌, ◌++◌, OnOk};
ghost use Rattle.std.specs.List.{flat_map};
ghost use Rattle.sgt_edn.specs.Tokens.{are_digits, is_natural, starts_with, is_whole, is_nil, is_truth, escaped_byte, quoted, token_text};

use crate::bytes::is_digit;
use sgt_model::NoMemory;

/// Appends the token in JSON.
pub(crate) fn append_token(text: &mut Vec<u8>, token: &[u8]) -> Result<(), NoMemory>
    ensures { OnOk result (text.new.items ≡ text.old.items ++ token_text token.now) }
{
    if is_nil(token) {
        text.extend_from_slice(b"null")?;
    } else if is_truth(token) || is_whole(token) {
        text.extend_from_slice(token)?;
    } else if starts_with(token, b':') {
        append_quoted(text, &token[1..])?;
    } else {
        append_quoted(text, token)?;
    }
    Ok(())
}

/// Appends the bytes as a string.
fn append_quoted(text: &mut Vec<u8>, bytes: &[u8]) -> Result<(), NoMemory>
    ensures { OnOk result (text.new.items ≡ text.old.items ++ quoted bytes.now) }
{
    text.extend_from_slice(b"\"")?;
    append_bytes(text, bytes)?;
    text.extend_from_slice(b"\"")?;
    Ok(())
}

/// Appends the bytes of a string.
fn append_bytes(text: &mut Vec<u8>, bytes: &[u8]) -> Result<(), NoMemory>
    ensures { OnOk result (text.new.items ≡ text.old.items ++ flat_map escaped_byte bytes.now) }
{
    for byte in bytes {
        append_byte(text, *byte)?;
    }
    Ok(())
}

/// Appends a byte of a string.
fn append_byte(text: &mut Vec<u8>, byte: u8) -> Result<(), NoMemory>
    ensures { OnOk result (text.new.items ≡ text.old.items ++ escaped_byte byte) }
{
    if byte == b'"' || byte == b'\\' {
        text.push(b'\\')?;
    }
    text.push(byte)?;
    Ok(())
}

/// Whether the token starts with the byte.
fn starts_with(token: &[u8], byte: u8) -> bool
    ensures { result ≡ starts_with byte token.now }
{
    !token.is_empty() && token[0] == byte
}

/// Whether the token is `nil`.
fn is_nil(token: &[u8]) -> bool
    ensures { result ≡ is_nil token.now }
{
    matches!(token, b"nil")
}

/// Whether the token is `true` or `false`.
fn is_truth(token: &[u8]) -> bool
    ensures { result ≡ is_truth token.now }
{
    matches!(token, b"true" | b"false")
}

/// Whether the token is a whole number.
fn is_whole(token: &[u8]) -> bool
    ensures { result ≡ is_whole token.now }
{
    if starts_with(token, b'-') {
        is_natural(&token[1..])
    } else {
        is_natural(token)
    }
}

/// Whether the bytes are a whole number without a sign.
fn is_natural(bytes: &[u8]) -> bool
    ensures { result ≡ is_natural bytes.now }
{
    !bytes.is_empty() && (bytes.len() == 1 || bytes[0] != b'0') && are_digits(bytes)
}

/// Whether all bytes are digits.
fn are_digits(bytes: &[u8]) -> bool
    ensures { result ≡ are_digits bytes.now }
{
    for byte in bytes {
        if !is_digit(*byte) {
            return false;
        }
    }
    true
}
