//! The pieces of which the texts on what clients saw are made.

ghost use Rattle.std.specs.Prelude.{◌≡◌, ◌++◌, flat_map, OnOk};
ghost use Rattle.sgt_clients.specs.ReportText.{entry_of, transaction_text, placed, key_text, operation_at, seen_text, read_text, spaced, next_value, left_out_text, shown_text, values_text};
ghost use Rattle.sgt_clients.specs.Pieces.{piece_text};

use crate::clients::Clients;
use crate::evidence::{Seen, Spoken, put_at, seen_at, value_at};
use sgt_format::{Spelled, append_number, append_numbered};
use sgt_model::NoMemory;

/// How many values of a long list are shown: the last ones.
const MOST_SHOWN: usize = 16;

/// A piece of a text on what clients saw.
#[derive(Clone, Copy)]
pub(crate) enum Piece<'a> {
    /// The value, which is stored by its bits.
    Value(u64),
    /// The value of the append at the position of the transaction.
    ValueAt(&'a Clients, usize, usize),
    /// The text of the key.
    Key(&'a Clients, u32),
    /// The text of the key of the append at the position of the transaction.
    KeyAt(&'a Clients, usize, usize),
    /// The values in brackets, separated by spaces: `[1 2]`. Of a long list only the last ones are shown, and those that
    /// are spoken of.
    Values(&'a [u64], Spoken),
    /// The transaction: `t3`.
    Transaction(usize),
    /// The transaction and its entry: `t3 (line 7)`.
    Placed(&'a Clients, usize),
    /// The transaction and the read at the position of it: `t3 read key x as [1 2]`.
    Read(&'a Clients, usize, usize, Spoken),
    /// The same with the entry of the transaction.
    PlacedRead(&'a Clients, usize, usize, Spoken),
}

impl Spelled for Piece<'_> {
    ghost spelled = { piece_text };

    fn append_to(&self, text: &mut Vec<u8>) -> Result<(), NoMemory> {
        match self {
            Piece::Value(value) => Ok(append_number(text, value.cast_signed())?),
            Piece::ValueAt(clients, number, place) => match value_at(clients, *number, *place) {
                Some(value) => Ok(append_number(text, value.cast_signed())?),
                None => Ok(()),
            },
            Piece::Key(clients, key) => append_key(text, clients, *key),
            Piece::KeyAt(clients, number, place) => match put_at(clients, *number, *place) {
                Some(put) => append_key(text, clients, put.key),
                None => Ok(()),
            },
            Piece::Values(values, spoken) => append_values(text, values, *spoken),
            Piece::Transaction(number) => append_transaction(text, *number),
            Piece::Placed(clients, number) => append_placed(text, clients, *number),
            Piece::Read(clients, reader, read, spoken) => {
                append_transaction(text, *reader)?;
                append_read(text, clients, *reader, *read, *spoken)
            }
            Piece::PlacedRead(clients, reader, read, spoken) => {
                append_placed(text, clients, *reader)?;
                append_read(text, clients, *reader, *read, *spoken)
            }
        }
    }
}

/// Appends the transaction.
pub(crate) fn append_transaction(text: &mut Vec<u8>, number: usize) -> Result<(), NoMemory>
    ensures { OnOk result (text.new.items ≡ text.old.items ++ transaction_text number) }
{
    Ok(append_numbered(text, b"t", number.saturating_add(1))?)
}

/// Appends the transaction and its entry.
pub(crate) fn append_placed(
    text: &mut Vec<u8>,
    clients: &Clients,
    number: usize,
) -> Result<(), NoMemory>
    ensures { OnOk result (text.new.items ≡ text.old.items ++ placed clients.now number) }
{
    append_numbered(text, b"t", number.saturating_add(1))?;
    let words: &[u8] = if clients.by_line {
        b" (line "
    } else {
        b" (entry "
    };
    append_numbered(text, words, entry_of(clients, number))?;
    text.extend_from_slice(b")")?;
    Ok(())
}

/// The entry at which the transaction ended, or else the one at which it began.
pub(crate) fn entry_of(clients: &Clients, number: usize) -> usize
    ensures { result ≡ entry_of clients.now number }
{
    match clients.spans.get(number) {
        Some(span) => span.ended.unwrap_or(span.began),
        None => 0,
    }
}

/// Appends the text of the key.
fn append_key(text: &mut Vec<u8>, clients: &Clients, key: u32) -> Result<(), NoMemory>
    ensures { OnOk result (text.new.items ≡ text.old.items ++ key_text clients.now key) }
{
    if let Some(name) = clients.keys.get(key as usize) {
        text.extend_from_slice(name.as_slice())?;
    }
    Ok(())
}

/// Appends the key and the values of the read at the position, if there is one.
fn append_read(
    text: &mut Vec<u8>,
    clients: &Clients,
    reader: usize,
    read: usize,
    spoken: Spoken,
) -> Result<(), NoMemory>
    ensures { OnOk result (text.new.items ≡ text.old.items ++ read_text clients.now spoken (operation_at clients.now reader read)) }
{
    match seen_at(clients, reader, read) {
        Some(seen) => append_seen(text, clients, seen, spoken),
        None => Ok(()),
    }
}

/// Appends the key and the values that were read.
fn append_seen(
    text: &mut Vec<u8>,
    clients: &Clients,
    seen: Seen<'_>,
    spoken: Spoken,
) -> Result<(), NoMemory>
    ensures { OnOk result (text.new.items ≡ text.old.items ++ seen_text clients.now spoken (seen.entry.key, seen.entry.values.now)) }
{
    text.extend_from_slice(b" read key ")?;
    append_key(text, clients, seen.key)?;
    text.extend_from_slice(b" as ")?;
    append_values(text, seen.values, spoken)
}

/// Appends the values in brackets.
fn append_values(text: &mut Vec<u8>, values: &[u64], spoken: Spoken) -> Result<(), NoMemory>
    ensures { OnOk result (text.new.items ≡ text.old.items ++ values_text spoken values.now) }
{
    text.extend_from_slice(b"[")?;
    append_shown(text, values, spoken)?;
    text.extend_from_slice(b"]")?;
    Ok(())
}

/// Appends the values that are shown.
fn append_shown(text: &mut Vec<u8>, values: &[u64], spoken: Spoken) -> Result<(), NoMemory>
    ensures { OnOk result (text.new.items ≡ text.old.items ++ shown_text spoken values.now) }
{
    if values.len() <= MOST_SHOWN {
        return append_spaced(text, values);
    }
    text.extend_from_slice(b"..")?;
    append_left_out(text, &values[..values.len() - MOST_SHOWN], spoken)?;
    append_each(text, &values[values.len() - MOST_SHOWN..])
}

/// Appends each value that is spoken of, of those that are left out.
fn append_left_out(text: &mut Vec<u8>, values: &[u64], spoken: Spoken) -> Result<(), NoMemory>
    ensures { OnOk result (text.new.items ≡ text.old.items ++ flat_map (left_out_text spoken) values.now) }
{
    for value in values {
        append_if_spoken(text, *value, spoken)?;
    }
    Ok(())
}

/// Appends the value, with two points after it, if it is spoken of.
fn append_if_spoken(text: &mut Vec<u8>, value: u64, spoken: Spoken) -> Result<(), NoMemory>
    ensures { OnOk result (text.new.items ≡ text.old.items ++ left_out_text spoken value) }
{
    if spoken.has(value) {
        append_numbered(text, b" ", value.cast_signed())?;
        text.extend_from_slice(b" ..")?;
    }
    Ok(())
}

/// Appends the values, separated by spaces.
fn append_spaced(text: &mut Vec<u8>, values: &[u64]) -> Result<(), NoMemory>
    ensures { OnOk result (text.new.items ≡ text.old.items ++ spaced values.now) }
{
    if values.is_empty() {
        return Ok(());
    }
    append_number(text, values[0].cast_signed())?;
    append_each(text, &values[1..])
}

/// Appends each value after a space.
fn append_each(text: &mut Vec<u8>, values: &[u64]) -> Result<(), NoMemory>
    ensures { OnOk result (text.new.items ≡ text.old.items ++ flat_map next_value values.now) }
{
    for value in values {
        append_numbered(text, b" ", value.cast_signed())?;
    }
    Ok(())
}
