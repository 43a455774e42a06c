//! What a history has changed in the database that it began with.
ghost use Rattle.std.specs.Prelude.{◌≡◌, ◌≢◌, ◌||◌, false, Some, None, cond, IfOk, IfSome};
ghost use Rattle.std.specs.BTreeMap.{get};
ghost use Rattle.std.specs.Option.{is_some, option_flatten};
ghost use Rattle.sgt_model.specs.Contents.{Key};
ghost use Rattle.sgt_model.specs.Databases.{contents_of, key_cmp, IsByKey};
ghost use Rattle.sgt_model.specs.Numbers.{IsValue};
ghost use Rattle.sgt_engine.specs.Writes.{is_removal, is_written};

use sgt_log::History;
use sgt_model::{Database, Key, NoMemory, Reply, ShortReply};
use sgt_records::Records;
use std::alloc::Global;
use std::collections::BTreeMap;

/// The database with what the history has changed in it: a key that the history has writes of has its committed value, and a
/// record that was removed is dropped. If no record was removed, it goes through the database once.
pub fn changed<R: Records>(
    alloc: Global,
    opening: &Database,
    history: &History,
    records: &R,
) -> Result<Database, NoMemory>
    ensures values { IfOk result (λ d. (k : Key) → contents_of d k
        ≡ cond (is_written k history.now.entries) (R.settled records.now k) (contents_of opening.now k)) }
    ensures by_key { IfOk result IsByKey }
{
    let written = written_values(alloc, history, records)?;
    let newer = rows_of(alloc, &written.values)?;
    if written.removes {
        let others = unwritten_rows(alloc, opening, &written.values)?;
        return others.updated(alloc, &newer);
    }
    opening.updated(alloc, &newer)
}

/// Notes whether a removal has been found: before, or by this reply.
#[inline(always)]
pub fn note_removal(found: &mut bool, reply: &ShortReply)
    ensures { found.new ≡ found.old || is_removal reply.now }
{
    if let ShortReply::Wrote { value: None, .. } = reply {
        *found = true;
    }
}

/// The keys that the history has writes of and that have no committed value.
///
/// Nothing is promised of the list: a missing key keeps memory that is not needed, and an extra one does no harm.
pub fn keys_without_value<R: Records>(
    alloc: Global,
    history: &History,
    records: &R,
) -> Result<Vec<Key>, NoMemory> {
    let mut keys = Vec::new(alloc);
    for place in 0..history.len() {
        let reply = history.reply_at(place);
        if let Reply::Wrote { key, .. } = reply {
            if records.committed(key).is_none() {
                keys.push(key)?;
            }
        }
    }
    Ok(keys)
}

// What a history has written.
#[derive(Drop)]
struct Written {
    // The committed value of each key that it has writes of, or none where there is none.
    values: BTreeMap<Key, Option<i64>>,
    // Whether there is none at one of these keys.
    removes: bool,
}

// What the history has written.
fn written_values<R: Records>(
    alloc: Global,
    history: &History,
    records: &R,
) -> Result<Written, NoMemory>
    ensures values { IfOk result (λ w. (k : Key) → get key_cmp w.values k
        ≡ cond (is_written k history.now.entries) (Some (R.settled records.now k)) None) }
    ensures in_range { IfOk result (λ w. (k : Key) → IfSome (option_flatten (get key_cmp w.values k)) IsValue) }
    ensures removes { IfOk result (λ w. w.removes ≡ false → (k : Key) → get key_cmp w.values k ≢ Some None) }
{
    let mut values = BTreeMap::new(alloc);
    let mut removes = false;
    for place in 0..history.len() {
        if let Reply::Wrote { key, .. } = history.reply_at(place) {
            let value = records.committed(key);
            removes = removes || value.is_none();
            values.insert(key, value)?;
        }
    }
    Ok(Written { values, removes })
}

// The keys with a value as rows.
fn rows_of(alloc: Global, values: &BTreeMap<Key, Option<i64>>) -> Result<Database, NoMemory>
    requires in_range { (k : Key) → IfSome (option_flatten (get key_cmp values.now k)) IsValue }
    ensures { IfOk result (λ d. (k : Key) → contents_of d k ≡ option_flatten (get key_cmp values.now k)) }
{
    let mut rows = Database::empty(alloc);
    for (key, value) in values {
        if let Some(value) = value {
            rows.put(*key, *value)?;
        }
    }
    Ok(rows)
}

// The rows of a database whose keys are not among these.
fn unwritten_rows(
    alloc: Global,
    database: &Database,
    written: &BTreeMap<Key, Option<i64>>,
) -> Result<Database, NoMemory>
    ensures { IfOk result (λ d. (k : Key) → contents_of d k
        ≡ cond (is_some (get key_cmp written.now k)) None (contents_of database.now k)) }
{
    let mut others = Database::empty(alloc);
    for (key, value) in database.rows() {
        if written.get(key).is_none() {
            others.put(*key, *value)?;
        }
    }
    Ok(others)
}
