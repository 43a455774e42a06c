//! Memory for the lists of a history.
ghost use Rattle.std.specs.Prelude.{◌≡◌, ◌+◌, ◌≤◌, vec_len, vec_capacity, OnOk};

use sgt_model::NoMemory;

/// The fewest items that a list gets its first memory for. Lists of 128 KB and more grow without being copied, where the
/// allocator moves whole pages; memory that is not used takes no pages.
pub const FIRST: usize = 16_384;

/// Provides capacity in a list for this many more items. Its items stay, and it loses no capacity.
///
/// `NoMemory` if an allocation failed.
pub fn reserve_items<T: Copy>(list: &mut Vec<T>, count: usize) -> Result<(), NoMemory>
    ensures items { (list.new.items ≡ list.old.items) × (vec_len list.new ≡ vec_len list.old) }
    ensures no_less { vec_capacity list.old ≤ vec_capacity list.new }
    ensures enough { OnOk result (vec_len list.new + count ≤ vec_capacity list.new) }
{
    let least = if list.is_empty() { FIRST } else { 0 };
    list.reserve(count.max(least))?;
    Ok(())
}
