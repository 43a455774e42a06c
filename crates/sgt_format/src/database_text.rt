//! The lines of a database.
ghost use Rattle.std.specs.Prelude.{◌≡◌, ◌++◌, take, OnOk, OnErr, vec_len};
ghost use Rattle.sgt_format.specs.DatabaseText.{row_text, database_text};

use crate::decimal_text::{LONGEST_LINE, write_byte, write_record};
use sgt_model::{Key, NoMemory};
use std::alloc::AllocError;

/// Appends the lines of a database to a text: one for each of its rows, in their order. Only the growth of the text
/// allocates memory.
pub fn append_database(text: &mut Vec<u8>, rows: &[(Key, i64)]) -> Result<(), NoMemory>
    ensures ok { OnOk result (text.new.items ≡ text.old.items ++ database_text rows.now) }
    ensures err { OnErr result (text.new.items ≡ text.old.items) }
{
    let before = text.len();
    if append_rows(text, rows).is_err() {
        text.truncate(before);
        return Err(NoMemory);
    }
    Ok(())
}

/// On an error the text still begins with what it held.
fn append_rows(text: &mut Vec<u8>, rows: &[(Key, i64)]) -> Result<(), AllocError>
    ensures ok { OnOk result (text.new.items ≡ text.old.items ++ database_text rows.now) }
    ensures err { OnErr result (take (vec_len text.old) text.new.items ≡ text.old.items) }
{
    for (key, value) in rows {
        append_row(text, key, *value)?;
    }
    Ok(())
}

fn append_row(text: &mut Vec<u8>, key: &Key, value: i64) -> Result<(), AllocError>
    ensures ok { OnOk result (text.new.items ≡ text.old.items ++ row_text (key.now, value)) }
    ensures err { OnErr result (text.new.items ≡ text.old.items) }
{
    let mut line = [0; LONGEST_LINE];
    let start = write_byte(b'\n', &mut line, LONGEST_LINE);
    let start = write_record(key, value, &mut line, start);
    text.extend_from_slice(&line[start..])
}
