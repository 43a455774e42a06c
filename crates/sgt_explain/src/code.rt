//! The words for an abort with a code.
ghost use Rattle.std.specs.Prelude.{◌≡◌, take, OnErr, vec_len};

use crate::refusal::append_name;
use crate::text::append_number;
use crate::words::Words;
use sgt_model::{NoMemory, Tid};

/// Appends that a procedure aborted a transaction with a code, as
/// `DepositChecking aborted 3 with code 2 (the amount is negative)`.
///
/// `NoMemory` if an allocation failed; then the text is unchanged.
pub fn append_code_abort(
    text: &mut Vec<u8>,
    words: &Words,
    procedure: u16,
    t: Tid,
    code: u16,
) -> Result<(), NoMemory>
    ensures kept { take (vec_len text.old) text.new.items ≡ text.old.items }
    ensures err { OnErr result (text.new.items ≡ text.old.items) }
{
    let mut line = Vec::new(*text.allocator());
    append_name(&mut line, procedure)?;
    append_number(&mut line, b" aborted ", t.0)?;
    line.extend_from_slice(b" with ")?;
    append_code(&mut line, words, procedure, code)?;
    text.extend_from_slice(line.as_slice())?;
    Ok(())
}

/// Appends a code with which a procedure aborted, as `code 2 (the amount is negative)`. A code without words is alone.
///
/// `NoMemory` if an allocation failed; then the text is unchanged.
pub fn append_code(
    text: &mut Vec<u8>,
    words: &Words,
    procedure: u16,
    code: u16,
) -> Result<(), NoMemory>
    ensures kept { take (vec_len text.old) text.new.items ≡ text.old.items }
    ensures err { OnErr result (text.new.items ≡ text.old.items) }
{
    let mut line = Vec::new(*text.allocator());
    append_number(&mut line, b"code ", code)?;
    if let Some(meaning) = words.of(procedure, code) {
        line.extend_from_slice(b" (")?;
        line.extend_from_slice(meaning.as_bytes())?;
        line.extend_from_slice(b")")?;
    }
    text.extend_from_slice(line.as_slice())?;
    Ok(())
}

/// Appends a code and its procedure, as `code 2 (the amount is negative) of DepositChecking`.
///
/// `NoMemory` if an allocation failed; then the text is unchanged.
pub fn append_code_of(
    text: &mut Vec<u8>,
    words: &Words,
    procedure: u16,
    code: u16,
) -> Result<(), NoMemory>
    ensures kept { take (vec_len text.old) text.new.items ≡ text.old.items }
    ensures err { OnErr result (text.new.items ≡ text.old.items) }
{
    let mut line = Vec::new(*text.allocator());
    append_code(&mut line, words, procedure, code)?;
    line.extend_from_slice(b" of ")?;
    append_name(&mut line, procedure)?;
    text.extend_from_slice(line.as_slice())?;
    Ok(())
}
