//! Lists in the object of JSON.

ghost use Rattle.std.specs.Prelude.{◌≡◌, ◌++◌, ℕ, List, flat_map, OnOk};
ghost use Rattle.sgt_clients.specs.declared.clients.Clients.{Clients};
ghost use Rattle.sgt_clients.specs.JsonText.{number_text, next_item, items_text, list_text};

use crate::clients::Clients;
use sgt_format::append_number;
use sgt_model::NoMemory;

/// An item of a list.
pub(crate) trait Item {
    /// Its text.
    ghost object: { Clients → Self → List ℕ };

    /// Appends the text.
    fn append_object(&self, text: &mut Vec<u8>, clients: &Clients) -> Result<(), NoMemory>
        ensures { OnOk result (text.new.items ≡ text.old.items ++ object clients.now self.now) };
}

/// A transaction is counted from 1.
impl Item for usize {
    ghost object = { λ c t. number_text t };

    fn append_object(&self, text: &mut Vec<u8>, clients: &Clients) -> Result<(), NoMemory> {
        Ok(append_number(text, self.saturating_add(1))?)
    }
}

/// Appends the list, which begins with these words.
pub(crate) fn append_list<I: Item>(
    text: &mut Vec<u8>,
    clients: &Clients,
    words: &[u8],
    items: &[I],
) -> Result<(), NoMemory>
    ensures { OnOk result (text.new.items ≡ text.old.items ++ list_text words.now (I.object clients.now) items.now) }
{
    text.extend_from_slice(words)?;
    append_items(text, clients, items)?;
    text.extend_from_slice(b"]")?;
    Ok(())
}

/// Appends the items, separated by commas.
fn append_items<I: Item>(text: &mut Vec<u8>, clients: &Clients, items: &[I]) -> Result<(), NoMemory>
    ensures { OnOk result (text.new.items ≡ text.old.items ++ items_text (I.object clients.now) items.now) }
{
    if items.is_empty() {
        return Ok(());
    }
    items[0].append_object(text, clients)?;
    append_later_items(text, clients, &items[1..])
}

/// Appends each item after a comma.
fn append_later_items<I: Item>(
    text: &mut Vec<u8>,
    clients: &Clients,
    items: &[I],
) -> Result<(), NoMemory>
    ensures { OnOk result (text.new.items ≡ text.old.items ++ flat_map (next_item (I.object clients.now)) items.now) }
{
    for item in items {
        text.extend_from_slice(b",")?;
        item.append_object(text, clients)?;
    }
    Ok(())
}
