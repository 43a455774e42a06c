//! The lines of a database as records.
ghost use Rattle.std.specs.Prelude.{◌≡◌, ◌≤◌, ◌+◌, ◌++◌, length, take, drop, OnOk, OnErr, vec_len};
ghost use Rattle.sgt_format.specs.RecordText.{key_numbers, row_numbers, record_line, record_lines};

use crate::decimal_text::{LONGEST_LINE, write_byte, write_signed, write_words};
use itoa::write_digits;
use sgt_model::{Key, NoMemory};
use std::alloc::AllocError;

/// Appends the records of a database to a text as lines of JSON: `["record",table,number,value]` for each of its rows, in
/// their order. Only the growth of the text allocates memory.
pub fn append_records(text: &mut Vec<u8>, rows: &[(Key, i64)]) -> Result<(), NoMemory>
    ensures ok { OnOk result (text.new.items ≡ text.old.items ++ record_lines rows.now) }
    ensures err { OnErr result (text.new.items ≡ text.old.items) }
{
    let before = text.len();
    if append_record_lines(text, rows).is_err() {
        text.truncate(before);
        return Err(NoMemory);
    }
    Ok(())
}

/// On an error the text still begins with what it held.
fn append_record_lines(text: &mut Vec<u8>, rows: &[(Key, i64)]) -> Result<(), AllocError>
    ensures ok { OnOk result (text.new.items ≡ text.old.items ++ record_lines rows.now) }
    ensures err { OnErr result (take (vec_len text.old) text.new.items ≡ text.old.items) }
{
    for (key, value) in rows {
        append_record_line(text, key, *value)?;
    }
    Ok(())
}

fn append_record_line(text: &mut Vec<u8>, key: &Key, value: i64) -> Result<(), AllocError>
    ensures ok { OnOk result (text.new.items ≡ text.old.items ++ record_line (key.now, value)) }
    ensures err { OnErr result (text.new.items ≡ text.old.items) }
{
    let mut line = [0; LONGEST_LINE];
    let start = write_words(b"]\n", &mut line, LONGEST_LINE);
    let start = write_row_numbers(key, value, &mut line, start);
    let start = write_words(b"[\"record\",", &mut line, start);
    text.extend_from_slice(&line[start..])
}

/// Writes the numbers of a row so that they end at `end`, and returns where they start.
fn write_row_numbers(key: &Key, value: i64, text: &mut [u8], end: usize) -> usize
    requires { (43 ≤ end) × (end ≤ length text.old) }
    ensures start { (result ≤ end) × (end ≤ result + 43) }
    ensures written { drop result text.new ≡ row_numbers (key.now, value) ++ drop end text.old }
{
    let start = write_signed(value, text, end);
    let start = write_byte(b',', text, start);
    write_key_numbers(key, text, start)
}

/// Writes the numbers of a key so that they end at `end`, and returns where they start.
fn write_key_numbers(key: &Key, text: &mut [u8], end: usize) -> usize
    requires { (22 ≤ end) × (end ≤ length text.old) }
    ensures start { (result ≤ end) × (end ≤ result + 22) }
    ensures written { drop result text.new ≡ key_numbers key.now ++ drop end text.old }
{
    let start = write_signed(key.id(), text, end);
    let start = write_byte(b',', text, start);
    write_digits(u64::from(key.table()), text, start)
}
