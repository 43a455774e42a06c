//! The JSON tree of a line, and the items of its lists.
ghost use Rattle.std.specs.Prelude.{◌≡◌, IfOk, map, option_map};
ghost use Rattle.serde_json.specs.View.{view};
ghost use Rattle.sgt_format.specs.Trees.{tree_of, list};

use serde_json::Value;
use sgt_model::NoMemory;
use std::alloc::Global;

/// The tree of a line, or none if the line is not JSON.
#[tactic(auto, using(crate::proofs::Views::tree_of_read, crate::proofs::Views::tree_of_refused))]
pub fn read_tree(alloc: Global, line: &[u8]) -> Result<Option<Value>, NoMemory>
    ensures { IfOk result (λ tree. option_map view tree ≡ tree_of line.now) }
{
    let Ok(text) = str::from_utf8(line) else {
        return Ok(None);
    };
    match Value::from_str(alloc, text) {
        Ok(tree) => Ok(Some(tree)),
        Err(error) => if error.is_memory() {
            Err(NoMemory)
        } else {
            Ok(None)
        },
    }
}

/// The items of a list.
#[tactic(auto, using(crate::proofs::Views::listed_items))]
pub fn items(tree: &Value) -> Option<&[Value]>
    ensures { option_map (λ items. map view items.now) result ≡ list (view tree.now) }
{
    Some(tree.as_array()?.as_slice())
}
