//! Prefaulting: writing to a list's memory before it is used, so that the system provides the pages.
ghost use Rattle.std.specs.Prelude.{◌≡◌, ◌+◌, min, vec_len, vec_capacity};

/// Writes once to the unused memory after a list's items, for at most this many items, as far as the capacity goes. It
/// returns the index up to which it did. The list stays.
///
/// The system provides a page of memory at the first write to it. So a list that grows while others wait for it can have
/// its memory before.
#[inline(never)]
pub fn prefault_ahead<T: Copy>(list: &mut Vec<T>, most: usize, filler: T) -> usize
    ensures items { list.new.items ≡ list.old.items }
    ensures len { vec_len list.new ≡ vec_len list.old }
    ensures capacity { vec_capacity list.new ≡ vec_capacity list.old }
    ensures prefaulted { result ≡ min (vec_capacity list.old) (vec_len list.old + most) }
{
    let held = list.len();
    let end = list.capacity().min(held.saturating_add(most));
    for _ in held..end {
        list.push_reserved(filler);
    }
    list.truncate(held);
    end
}
