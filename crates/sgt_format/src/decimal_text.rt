//! Numbers and keys in decimal.
ghost use Rattle.std.specs.Prelude.{◌≡◌, ◌<◌, ◌≤◌, ◌+◌, ◌-◌, ◌∷◌, ◌++◌, length, take, drop, OnOk, OnErr, vec_len, codes};
ghost use Rattle.std.specs.Fmt.{decimal, signed_decimal};
ghost use Rattle.sgt_format.specs.Decimals.{key_text, record_text, each_item, items_or_none};

use itoa::{Buffer, Integer, write_digits};
use sgt_model::{Answers, Key, Tids};
use std::alloc::AllocError;

/// An upper bound in bytes of a line of words, a key and a value, with its end.
pub(crate) const LONGEST_LINE: usize = 64;

/// How many bytes are copied at once.
const CHUNK: usize = 32;

/// The bytes of a line, and as many after it as are copied at once.
pub(crate) const LINE_AND_CHUNK: usize = LONGEST_LINE + CHUNK;

/// Appends a number in decimal.
pub fn append_number<I: Integer>(line: &mut Vec<u8>, number: I) -> Result<(), AllocError>
    ensures ok { OnOk result (line.new.items ≡ line.old.items ++ I.text number) }
    ensures err { OnErr result (line.new.items ≡ line.old.items) }
{
    line.extend_from_slice(Buffer::new().format(number).as_bytes())
}

/// Appends words and then a number. On an error the line still begins with what it held.
pub fn append_numbered<I: Integer>(
    line: &mut Vec<u8>,
    words: &[u8],
    number: I,
) -> Result<(), AllocError>
    ensures ok { OnOk result (line.new.items ≡ line.old.items ++ words.now ++ I.text number) }
    ensures err { OnErr result (take (vec_len line.old) line.new.items ≡ line.old.items) }
{
    line.extend_from_slice(words)?;
    append_number(line, number)
}

/// Appends a line of words and then a number, with its end.
#[inline(always)]
pub(crate) fn append_number_line(
    lines: &mut Vec<u8>,
    words: &[u8],
    number: u64,
) -> Result<(), AllocError>
    requires { length words.now ≤ 20 }
    ensures ok { OnOk result
        (lines.new.items ≡ lines.old.items ++ words.now ++ decimal number ++ codes "\n") }
    ensures err { OnErr result (lines.new.items ≡ lines.old.items) }
{
    let mut line = [0; LINE_AND_CHUNK];
    let start = write_byte(b'\n', &mut line, LONGEST_LINE);
    let start = write_digits(number, &mut line, start);
    let start = write_words(words, &mut line, start);
    append_written(lines, &line, start)
}

/// Appends the line of a job that committed with one answer.
#[inline(always)]
pub fn append_commit_line(lines: &mut Vec<u8>, number: u64, answer: i64) -> Result<(), AllocError>
    ensures ok { OnOk result (lines.new.items
        ≡ lines.old.items ++ decimal number ++ codes " committed " ++ signed_decimal answer ++ codes "\n") }
    ensures err { OnErr result (lines.new.items ≡ lines.old.items) }
{
    let mut line = [0; LINE_AND_CHUNK];
    let start = write_byte(b'\n', &mut line, LONGEST_LINE);
    let start = write_signed(answer, &mut line, start);
    let start = write_words(b" committed ", &mut line, start);
    let start = write_digits(number, &mut line, start);
    append_written(lines, &line, start)
}

/// Appends what a line holds from `start` to its end at [`LONGEST_LINE`]. If there is capacity, a line of at most 32 bytes is
/// appended with what is after it, which is cut off: 32 bytes are copied at once.
#[inline(always)]
pub(crate) fn append_written(
    lines: &mut Vec<u8>,
    line: &[u8],
    start: usize,
) -> Result<(), AllocError>
    requires { (start ≤ 64) × (length line.now ≡ 96) }
    ensures ok { OnOk result (lines.new.items ≡ lines.old.items ++ take (64 - start) (drop start line.now)) }
    ensures err { OnErr result (lines.new.items ≡ lines.old.items) }
{
    if start < LONGEST_LINE - CHUNK || lines.capacity() - lines.len() < CHUNK {
        return append_exactly(lines, line, start);
    }
    let before = lines.len();
    lines.extend_from_slice(&line[start..start + CHUNK])?;
    lines.truncate(before + (LONGEST_LINE - start));
    Ok(())
}

/// The same, of any line. It stands apart, so that the calls that it makes are not in the way of most lines.
#[inline(never)]
fn append_exactly(lines: &mut Vec<u8>, line: &[u8], start: usize) -> Result<(), AllocError>
    requires { (start ≤ 64) × (length line.now ≡ 96) }
    ensures ok { OnOk result (lines.new.items ≡ lines.old.items ++ take (64 - start) (drop start line.now)) }
    ensures err { OnErr result (lines.new.items ≡ lines.old.items) }
{
    lines.extend_from_slice(&line[start..LONGEST_LINE])
}

/// Writes a key and a value so that they end at `end`, and returns where they start.
#[inline(always)]
pub(crate) fn write_record(key: &Key, value: i64, text: &mut [u8], end: usize) -> usize
    requires { (43 ≤ end) × (end ≤ length text.old) }
    ensures start { (result ≤ end) × (end ≤ result + 43) }
    ensures written { drop result text.new ≡ record_text key.now value ++ drop end text.old }
{
    let start = write_signed(value, text, end);
    let start = write_byte(b' ', text, start);
    write_key(key, text, start)
}

/// Writes a key so that it ends at `end`, and returns where it starts.
#[inline(always)]
pub(crate) fn write_key(key: &Key, text: &mut [u8], end: usize) -> usize
    requires { (22 ≤ end) × (end ≤ length text.old) }
    ensures start { (result ≤ end) × (end ≤ result + 22) }
    ensures written { drop result text.new ≡ key_text key.now ++ drop end text.old }
{
    let start = write_signed(key.id(), text, end);
    let start = write_byte(b'/', text, start);
    write_byte(b'0' + key.table(), text, start)
}

/// Writes a number in decimal so that it ends at `end`, and returns where it starts.
#[inline(always)]
pub(crate) fn write_signed(number: i64, text: &mut [u8], end: usize) -> usize
    requires { (20 ≤ end) × (end ≤ length text.old) }
    ensures start { (result ≤ end) × (end ≤ result + 20) }
    ensures written { drop result text.new ≡ signed_decimal number ++ drop end text.old }
{
    let start = write_digits(number.unsigned_abs(), text, end);
    if number < 0 {
        return write_byte(b'-', text, start);
    }
    start
}

/// Writes words so that they end at `end`, and returns where they start.
#[inline(always)]
pub(crate) fn write_words(words: &[u8], text: &mut [u8], end: usize) -> usize
    requires { (length words.now ≤ end) × (end ≤ length text.old) }
    ensures start { result + length words.now ≡ end }
    ensures written { drop result text.new ≡ words.now ++ drop end text.old }
{
    let start = end - words.len();
    text[start..end].copy_from_slice(words);
    start
}

/// Writes a byte before `end`, and returns its index.
#[inline(always)]
pub(crate) fn write_byte(byte: u8, text: &mut [u8], end: usize) -> usize
    requires { (0 < end) × (end ≤ length text.old) }
    ensures start { result + 1 ≡ end }
    ensures written { drop result text.new ≡ byte ∷ drop end text.old }
{
    text[end - 1] = byte;
    end - 1
}

/// Appends each number after a space. On an error the line still begins with what it held.
pub(crate) fn append_tids(line: &mut Vec<u8>, tids: &Tids) -> Result<(), AllocError>
    ensures ok { OnOk result (line.new.items ≡ line.old.items ++ each_item decimal tids.now) }
    ensures err { OnErr result (take (vec_len line.old) line.new.items ≡ line.old.items) }
{
    for tid in tids.as_slice() {
        line.extend_from_slice(b" ")?;
        append_number(line, tid.0)?;
    }
    Ok(())
}

/// Appends each number after a space, or `none`. On an error the line still begins with what it held.
pub(crate) fn append_tids_or_none(line: &mut Vec<u8>, tids: &Tids) -> Result<(), AllocError>
    ensures ok { OnOk result (line.new.items ≡ line.old.items ++ items_or_none decimal tids.now) }
    ensures err { OnErr result (take (vec_len line.old) line.new.items ≡ line.old.items) }
{
    if tids.is_empty() {
        return line.extend_from_slice(b" none");
    }
    append_tids(line, tids)
}

/// Appends each answer after a space, or `none`. On an error the line still begins with what it held.
pub fn append_answers(line: &mut Vec<u8>, answers: &Answers) -> Result<(), AllocError>
    ensures ok { OnOk result
        (line.new.items ≡ line.old.items ++ items_or_none signed_decimal answers.now) }
    ensures err { OnErr result (take (vec_len line.old) line.new.items ≡ line.old.items) }
{
    if answers.is_empty() {
        return line.extend_from_slice(b" none");
    }
    append_each_answer(line, answers)
}

/// Appends each answer after a space. On an error the line still begins with what it held.
fn append_each_answer(line: &mut Vec<u8>, answers: &Answers) -> Result<(), AllocError>
    ensures ok { OnOk result
        (line.new.items ≡ line.old.items ++ each_item signed_decimal answers.now) }
    ensures err { OnErr result (take (vec_len line.old) line.new.items ≡ line.old.items) }
{
    for answer in answers.as_slice() {
        append_answer(line, *answer)?;
    }
    Ok(())
}

/// Appends a number after a space.
#[inline(always)]
fn append_answer(lines: &mut Vec<u8>, answer: i64) -> Result<(), AllocError>
    ensures ok { OnOk result (lines.new.items ≡ lines.old.items ++ codes " " ++ signed_decimal answer) }
    ensures err { OnErr result (lines.new.items ≡ lines.old.items) }
{
    let mut line = [0; LINE_AND_CHUNK];
    let start = write_signed(answer, &mut line, LONGEST_LINE);
    let start = write_byte(b' ', &mut line, start);
    append_written(lines, &line, start)
}
