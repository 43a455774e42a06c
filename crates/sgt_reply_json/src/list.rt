//! Lists of numbers in JSON.
ghost use Rattle.std.specs.Prelude.{◌≡◌, ◌++◌, ℕ, List, OnOk};
ghost use Rattle.std.specs.Fmt.{decimal, signed_decimal};
ghost use Rattle.std.specs.List.{flat_map};
ghost use Rattle.sgt_reply_json.specs.Lists.{items_text, list_text, next_item};

use crate::number::append_number;
use sgt_model::Tid;
use std::alloc::AllocError;

/// An item of a list.
pub(crate) trait Item {
    /// Its text.
    ghost spelled: { Self → List ℕ };

    /// Appends the text.
    fn append_to(&self, text: &mut Vec<u8>) -> Result<(), AllocError>
        ensures { OnOk result (text.new.items ≡ text.old.items ++ spelled self.now) };
}

impl Item for Tid {
    ghost spelled = { decimal };

    fn append_to(&self, text: &mut Vec<u8>) -> Result<(), AllocError> {
        append_number(text, self.0)
    }
}

impl Item for i64 {
    ghost spelled = { signed_decimal };

    fn append_to(&self, text: &mut Vec<u8>) -> Result<(), AllocError> {
        append_number(text, *self)
    }
}

/// Appends the list of these items.
pub(crate) fn append_list<I: Item>(text: &mut Vec<u8>, list: &[I]) -> Result<(), AllocError>
    ensures { OnOk result (text.new.items ≡ text.old.items ++ list_text I.spelled list.now) }
{
    text.extend_from_slice(b"[")?;
    append_items(text, list)?;
    text.extend_from_slice(b"]")
}

/// Appends the items, separated by commas.
fn append_items<I: Item>(text: &mut Vec<u8>, list: &[I]) -> Result<(), AllocError>
    ensures { OnOk result (text.new.items ≡ text.old.items ++ items_text I.spelled list.now) }
{
    if list.is_empty() {
        return Ok(());
    }
    list[0].append_to(text)?;
    append_each(text, &list[1..])
}

/// Appends each item after a comma.
fn append_each<I: Item>(text: &mut Vec<u8>, list: &[I]) -> Result<(), AllocError>
    ensures { OnOk result (text.new.items ≡ text.old.items ++ flat_map (next_item I.spelled) list.now) }
{
    for item in list {
        text.extend_from_slice(b",")?;
        item.append_to(text)?;
    }
    Ok(())
}
