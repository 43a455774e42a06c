//! The access of a line on which a transaction's caller decides.
ghost use Rattle.std.specs.Prelude.{◌≡◌};
ghost use Rattle.serde_json.specs.View.{view};
ghost use Rattle.sgt_format.specs.AccessLines.{key, of_key, of_value, keyed, valued};

use crate::record_line::key_of;
use serde_json::Value;
use sgt_model::{Key, Request};

/// The access of a word, a table and a number: a read or a removal.
pub(crate) fn keyed(word: &Value, table: &Value, id: &Value) -> Option<Request>
    ensures { result ≡ keyed (view word.now) (view table.now) (view id.now) }
{
    of_key(word.as_str()?, key(table, id)?)
}

/// The access of a word, a table, a number and a value: a write.
pub(crate) fn valued(word: &Value, table: &Value, id: &Value, value: &Value) -> Option<Request>
    ensures { result ≡ valued (view word.now) (view table.now) (view id.now) (view value.now) }
{
    of_value(word.as_str()?, key(table, id)?, value.as_i64()?)
}

fn key(table: &Value, id: &Value) -> Option<Key>
    ensures { result ≡ key (view table.now) (view id.now) }
{
    key_of(table.as_i64()?, id.as_i64()?)
}

pub(crate) fn of_key(word: &str, key: Key) -> Option<Request>
    ensures { result ≡ of_key word.now key }
{
    match word {
        "read" => Some(Request::Read(key)),
        "remove" => Some(Request::Write(key, None)),
        _ => None,
    }
}

pub(crate) fn of_value(word: &str, key: Key, value: i64) -> Option<Request>
    ensures { result ≡ of_value word.now key value }
{
    match word {
        "write" => Some(Request::Write(key, Some(value))),
        _ => None,
    }
}
