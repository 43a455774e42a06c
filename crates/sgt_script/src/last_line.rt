//! A copy of the line at which a run stopped, for whoever explains its error.
ghost use Rattle.std.specs.Prelude.{◌≡◌, IfSome};

use sgt_input::Lines;
use std::alloc::Global;

/// A copy of the line returned last. None if memory ran out.
pub(crate) fn copy_of_last(alloc: Global, lines: &Lines) -> Option<Vec<u8>>
    ensures { IfSome result (λ copy. copy.items ≡ lines.now.line) }
{
    let mut copy = Vec::new(alloc);
    match copy.extend_from_slice(lines.line()) {
        Ok(()) => Some(copy),
        Err(_) => None,
    }
}
