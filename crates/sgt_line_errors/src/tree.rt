//! The items of a JSON list.

use serde_json::Value;
use sgt_format::items;

/// The word that a list starts with, if it is a list that starts with a text.
pub(crate) fn word_in(tree: &Value) -> Option<&str> {
    items(tree)?.first()?.as_str()
}

/// The first item that is no whole number, and its position.
pub(crate) fn first_not_whole(items: &[Value]) -> Option<(usize, &Value)> {
    items
        .iter()
        .enumerate()
        .find(|(_, item)| item.as_i64().is_none())
}
