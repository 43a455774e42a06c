//! The line of a record.
ghost use Rattle.std.specs.Prelude.{◌≡◌, IfOk, IfSome, map};
ghost use Rattle.serde_json.specs.View.{view};
ghost use Rattle.sgt_model.specs.Numbers.{IsValue};
ghost use Rattle.sgt_format.specs.RecordLines.{key_of, of_numbers, record_line_from, record_line_in, record_line_of, record_of};

use crate::plain_line::plain_record;
use crate::tree::{items, read_tree};
use serde_json::Value;
use sgt_model::{Key, NoMemory, is_value};
use std::alloc::Global;

/// A line that adds a record to an opening: its numbers, in range or not.
#[derive(Clone, Copy)]
pub struct RecordLine {
    /// The table of the record.
    pub table: i64,
    /// Its number in the table.
    pub number: i64,
    /// Its value.
    pub value: i64,
}

/// A record: its key and its value.
#[derive(Clone, Copy)]
pub struct Record {
    /// Its key.
    pub key: Key,
    /// Its value, from `LEAST` to `MOST` if a line adds it.
    pub value: i64,
}

impl RecordLine {
    /// The record that the line adds, or none if a number is out of range: the table is from 0 to 7, and the others are
    /// values.
    pub fn record(&self) -> Option<Record>
        ensures record { result ≡ record_of self.now }
        ensures in_range { IfSome result (λ put. IsValue put.value) }
    {
        let key = key_of(self.table, self.number)?;
        if !is_value(self.value) {
            return None;
        }
        Some(Record {
            key,
            value: self.value,
        })
    }
}

/// The record line that a line spells, without its end: `["record", table, number, value]`, of any whole numbers of 64
/// bits. None if it is not JSON, or JSON of any other form.
///
/// `NoMemory` if an allocation failed.
pub fn read_record_line(alloc: Global, line: &[u8]) -> Result<Option<RecordLine>, NoMemory>
    ensures { IfOk result (λ found. found ≡ record_line_of line.now) }
{
    if let Some(said) = plain_record(line) {
        return Ok(Some(said));
    }
    match read_tree(alloc, line)? {
        Some(tree) => Ok(record_line_in(&tree)),
        None => Ok(None),
    }
}

fn record_line_in(tree: &Value) -> Option<RecordLine>
    ensures { result ≡ record_line_in (view tree.now) }
{
    record_line_from(items(tree)?)
}

fn record_line_from(trees: &[Value]) -> Option<RecordLine>
    ensures { result ≡ record_line_from (map view trees.now) }
{
    match trees {
        [word, table, number, value] => of_numbers(
            word.as_str()?,
            table.as_i64()?,
            number.as_i64()?,
            value.as_i64()?,
        ),
        _ => None,
    }
}

fn of_numbers(word: &str, table: i64, number: i64, value: i64) -> Option<RecordLine>
    ensures { result ≡ of_numbers word.now table number value }
{
    match word {
        "record" => Some(RecordLine {
            table,
            number,
            value,
        }),
        _ => None,
    }
}

/// The key of a table and a number, if both are in their ranges.
pub(crate) fn key_of(table: i64, number: i64) -> Option<Key>
    ensures { result ≡ key_of table number }
{
    Key::new(u8::try_from(table).ok()?, number)
}
