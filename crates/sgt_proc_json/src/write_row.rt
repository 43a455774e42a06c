//! Lists of a word and items as trees.
ghost use Rattle.std.specs.Prelude.{◌≡◌, IfOk};
ghost use Rattle.serde_json.specs.Data.{array, string, no_items, item};
ghost use Rattle.serde_json.specs.View.{view};

use serde_json::Value;
use sgt_model::NoMemory;
use std::alloc::Global;

/// The list of a word and one item.
pub(crate) fn row_of_one(alloc: Global, word: &str, a: Value) -> Result<Value, NoMemory>
    ensures { IfOk result (λ v. view v ≡ array (item (string word.now) (item (view a) no_items))) }
{
    Ok(Value::Array(vec![in alloc; Value::try_from_str(alloc, word)?, a]?))
}

/// The list of a word and two items.
pub(crate) fn row_of_two(alloc: Global, word: &str, a: Value, b: Value) -> Result<Value, NoMemory>
    ensures { IfOk result (λ v. view v
        ≡ array (item (string word.now) (item (view a) (item (view b) no_items)))) }
{
    Ok(Value::Array(vec![in alloc; Value::try_from_str(alloc, word)?, a, b]?))
}
