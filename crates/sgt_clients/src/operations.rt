//! The operations of an entry.
ghost use Rattle.std.specs.Prelude.{◌≡◌, ◌<◌, ◌+◌, ◌^◌, ◌++◌, ℕ, List, Some, map, length, option_map, slice_get, IfOk, IfSome, OnOk, [], ◌∷◌};
ghost use Rattle.serde_json.specs.View.{view};
ghost use Rattle.sgt_notation.specs.Numbering.{KnowsItems, texts_of};
ghost use Rattle.sgt_clients.specs.Entries.{name_text, Names, whole_in, some_whole, SpellEachValue, SpellsValues, SpellsOperation, counted, SpellAll};

use crate::access::{Access, access_of};
use crate::fault::{Flaw, ReadError};
use serde_json::Value;
use sgt_appends::Operation;
use sgt_format::{append_number, items};
use sgt_model::{NoMemory, is_value};
use sgt_notation::Items;
use std::alloc::Global;

/// How many keys a history may have.
const MOST_KEYS: usize = 16_777_216;

/// How many bytes the text of a key may have.
const LONGEST_KEY: usize = 64;

/// The operations of an entry.
#[derive(Drop)]
pub(crate) struct Operations {
    /// Their accesses.
    pub accesses: Vec<Access>,
    /// Those that count: reads only if the transaction committed.
    pub counted: Vec<Operation>,
}

/// Reads the operations of an entry. Only those of a transaction that committed count all.
pub(crate) fn read_operations(
    alloc: Global,
    keys: &mut Items,
    items: &[Value],
    committed: bool,
) -> Result<Operations, ReadError>
    requires { KnowsItems keys.old }
    ensures known { OnOk result (KnowsItems keys.new) }
    ensures more { OnOk result ((more : List (List ℕ)) × (texts_of keys.new ≡ texts_of keys.old ++ more)) }
    ensures spelled { IfOk result (λ os. SpellAll committed (texts_of keys.new) (map view items.now) os.accesses.items os.counted.items) }
{
    let mut accesses = Vec::new(alloc);
    let mut counted = Vec::new(alloc);
    for (place, item) in items.iter().enumerate() {
        let operation = read_operation(alloc, keys, place, item)?;
        add_access(&mut accesses, access_of(&operation))?;
        add_operation(&mut counted, operation, committed)?;
    }
    Ok(Operations { accesses, counted })
}

/// Adds the access.
fn add_access(accesses: &mut Vec<Access>, access: Access) -> Result<(), NoMemory>
    ensures { OnOk result (accesses.new.items ≡ accesses.old.items ++ access ∷ []) }
{
    Ok(accesses.push(access)?)
}

/// Adds the operation. A read counts only if its transaction committed.
fn add_operation(
    operations: &mut Vec<Operation>,
    operation: Operation,
    committed: bool,
) -> Result<(), NoMemory>
    ensures { OnOk result (operations.new.items ≡ operations.old.items ++ counted committed operation) }
{
    match operation {
        Operation::Append { key, value } => operations.push(Operation::Append { key, value })?,
        Operation::Read { key, values } if committed => {
            operations.push(Operation::Read { key, values })?;
        }
        Operation::Read { .. } => (),
    }
    Ok(())
}

/// Reads an operation, at the place from 0.
fn read_operation(
    alloc: Global,
    keys: &mut Items,
    place: usize,
    item: &Value,
) -> Result<Operation, ReadError>
    requires { KnowsItems keys.old }
    ensures known { OnOk result (KnowsItems keys.new) }
    ensures more { OnOk result ((more : List (List ℕ)) × (texts_of keys.new ≡ texts_of keys.old ++ more)) }
    ensures spelled { IfOk result (SpellsOperation (texts_of keys.new) (view item.now)) }
{
    match items(item) {
        Some([word, key, argument]) => match word.as_str() {
            Some("append") => {
                let key = read_key(alloc, keys, place, key)?;
                let value = read_number(place, argument)?;
                Ok(Operation::Append { key, value })
            }
            Some("r") => {
                let key = read_key(alloc, keys, place, key)?;
                let values = read_seen(alloc, place, argument)?;
                Ok(Operation::Read { key, values })
            }
            _ => Err(ReadError::Flaw(Flaw::Operation(place.saturating_add(1)))),
        },
        _ => Err(ReadError::Flaw(Flaw::Operation(place.saturating_add(1)))),
    }
}

/// Reads what a read saw: a list of values, or `null` for the empty list.
fn read_seen(alloc: Global, place: usize, argument: &Value) -> Result<Vec<u64>, ReadError>
    ensures { IfOk result (λ values. SpellsValues (view argument.now) values.items) }
{
    if let Value::Null = argument {
        return Ok(Vec::new(alloc));
    }
    match items(argument) {
        Some(items) => read_values(alloc, place, items),
        None => Err(ReadError::Flaw(Flaw::Operation(place.saturating_add(1)))),
    }
}

/// Reads the values of a list.
fn read_values(alloc: Global, place: usize, items: &[Value]) -> Result<Vec<u64>, ReadError>
    ensures { IfOk result (λ values. SpellEachValue (map view items.now) values.items) }
{
    let mut values = reserved(alloc, items.len())?;
    for item in items {
        push(&mut values, read_number(place, item)?)?;
    }
    Ok(values)
}

/// An empty list with this capacity.
fn reserved(alloc: Global, len: usize) -> Result<Vec<u64>, NoMemory>
    ensures { IfOk result (λ values. values.items ≡ []) }
{
    Ok(Vec::with_capacity(alloc, len)?)
}

/// Appends the value.
fn push(values: &mut Vec<u64>, value: u64) -> Result<(), NoMemory>
    ensures { OnOk result (values.new.items ≡ values.old.items ++ value ∷ []) }
{
    Ok(values.push(value)?)
}

/// The value that the tree spells, a whole number of at most 15 digits, as it is stored: by its bits.
fn read_number(place: usize, tree: &Value) -> Result<u64, ReadError>
    ensures { IfOk result (λ value. whole_in (view tree.now) ≡ some_whole value) }
{
    match tree.as_i64() {
        Some(number) if is_value(number) => Ok(number.cast_unsigned()),
        _ => Err(ReadError::Flaw(Flaw::Number(place.saturating_add(1)))),
    }
}

/// The number of the key with this text.
fn read_key(alloc: Global, keys: &mut Items, place: usize, tree: &Value) -> Result<u32, ReadError>
    requires { KnowsItems keys.old }
    ensures known { OnOk result (KnowsItems keys.new) }
    ensures more { OnOk result ((more : List (List ℕ)) × (texts_of keys.new ≡ texts_of keys.old ++ more)) }
    ensures named { IfOk result (Names (texts_of keys.new) (view tree.now)) }
{
    if keys.texts.len() >= MOST_KEYS {
        return Err(ReadError::Flaw(Flaw::TooManyKeys));
    }
    match tree {
        Value::String(text) if is_key(text.as_bytes()) => Ok(keys.number(alloc, text.as_bytes())?),
        Value::String(_) => Err(ReadError::Flaw(Flaw::Key(place.saturating_add(1)))),
        _ => match whole_name(alloc, keys, tree)? {
            Some(key) => Ok(key),
            None => Err(ReadError::Flaw(Flaw::Key(place.saturating_add(1)))),
        },
    }
}

/// The number of the key or process whose text is the whole number that the tree is, if it is one.
pub(crate) fn whole_name(
    alloc: Global,
    names: &mut Items,
    tree: &Value,
) -> Result<Option<u32>, NoMemory>
    requires known { KnowsItems names.old }
    requires few { length (texts_of names.old) + 1 < 2 ^ 32 }
    ensures known { OnOk result (KnowsItems names.new) }
    ensures more { OnOk result ((more : List (List ℕ)) × (texts_of names.new ≡ texts_of names.old ++ more)) }
    ensures named { IfOk result (λ found. IfSome found (Names (texts_of names.new) (view tree.now))) }
{
    match whole_text(alloc, tree)? {
        Some(text) => Ok(Some(names.number(alloc, text.as_slice())?)),
        None => Ok(None),
    }
}

/// The text of the whole number that the tree is, if it is one.
fn whole_text(alloc: Global, tree: &Value) -> Result<Option<Vec<u8>>, NoMemory>
    ensures { IfOk result (λ found. IfSome found (λ text. name_text (view tree.now) ≡ Some text.items)) }
{
    let mut text = Vec::new(alloc);
    if let Some(number) = tree.as_u64() {
        append_number(&mut text, number)?;
    } else if let Some(number) = tree.as_i64() {
        append_number(&mut text, number)?;
    } else {
        return Ok(None);
    }
    Ok(Some(text))
}

/// Whether the text may be that of a key.
fn is_key(text: &[u8]) -> bool {
    !text.is_empty() && text.len() <= LONGEST_KEY && text.iter().all(|byte| is_key_byte(*byte))
}

/// Whether a key may contain the byte.
fn is_key_byte(byte: u8) -> bool {
    matches!(byte, b'A'..=b'Z' | b'a'..=b'z' | b'0'..=b'9' | b'_' | b'.' | b'/' | b':' | b'-')
}
