//! The numbers of items.
ghost use Rattle.std.specs.Prelude.{◌≡◌, [], ◌<◌, ◌≤◌, ◌+◌, ◌^◌, ◌++◌, ℕ, List, length, IfOk, OnOk, Some, slice_get};
ghost use Rattle.sgt_notation.specs.Numbering.{KnowsItems, texts_of};
ghost use Rattle.sgt_notation.specs.Spellings.{text_at};

use sgt_model::NoMemory;
use std::alloc::Global;
use std::collections::HashMap;

/// The items of a history, each with a number of its own.
#[derive(Drop)]
pub struct Items {
    /// The number of an item, by its text.
    numbers: HashMap<Vec<u8>, u32>,
    /// The texts of the items, by number.
    pub texts: Vec<Vec<u8>>,
}

impl Items {
    /// No item.
    pub fn new(alloc: Global) -> Self
        ensures known { KnowsItems result }
        ensures none { texts_of result ≡ [] }
    {
        Items {
            numbers: HashMap::new(alloc),
            texts: Vec::new(alloc),
        }
    }

    /// The number of the item with this text. A new item gets the next number.
    ///
    /// # Errors
    ///
    /// `NoMemory` if an allocation failed. Do not use the items again then.
    pub fn number(&mut self, alloc: Global, text: &[u8]) -> Result<u32, NoMemory>
        requires few { length (texts_of self.old) + 1 < 2 ^ 32 }
        requires known { KnowsItems self.old }
        ensures known { OnOk result (KnowsItems self.new) }
        ensures number { IfOk result (λ n. slice_get (texts_of self.new) n ≡ Some text.now) }
        ensures kept { OnOk result ((more : List (List ℕ)) × (texts_of self.new ≡ texts_of self.old ++ more)) }
        ensures few { OnOk result (length (texts_of self.new) ≤ length (texts_of self.old) + 1) }
    {
        if let Some(number) = self.numbers.get(text).copied() {
            return Ok(number);
        }
        let number = self.texts.len() as u32;
        self.numbers.insert(owned(alloc, text)?, number)?;
        self.texts.push(owned(alloc, text)?)?;
        Ok(number)
    }
}

/// The same bytes, owned.
fn owned(alloc: Global, text: &[u8]) -> Result<Vec<u8>, NoMemory>
    ensures { IfOk result (λ v. v.items ≡ text.now) }
{
    let mut bytes = Vec::new(alloc);
    bytes.extend_from_slice(text)?;
    Ok(bytes)
}
