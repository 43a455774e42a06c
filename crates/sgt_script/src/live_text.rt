//! The line that names the transactions that are live at the end of a run.
ghost use Rattle.std.specs.Prelude.{◌≡◌, take, OnErr, vec_len};

use sgt_format::append_numbered;
use sgt_model::{NoMemory, Tid};
use std::alloc::Global;

/// Appends a line that lists the transactions live at the end, as `2 transactions are live at the end: 3, 7`. If none
/// is live, it appends nothing.
///
/// `NoMemory` if an allocation failed; then the text is unchanged.
pub(crate) fn append_live(alloc: Global, text: &mut Vec<u8>, live: &[Tid]) -> Result<(), NoMemory>
    ensures kept { take (vec_len text.old) text.new.items ≡ text.old.items }
    ensures err { OnErr result (text.new.items ≡ text.old.items) }
{
    if live.is_empty() {
        return Ok(());
    }
    let mut line = Vec::new(alloc);
    append_numbered(&mut line, b"", live.len())?;
    line.extend_from_slice(if live.len() == 1 {
        b" transaction is live at the end:"
    } else {
        b" transactions are live at the end:"
    })?;
    let mut parting: &'static [u8] = b" ";
    for t in live {
        append_numbered(&mut line, parting, t.0)?;
        parting = b", ";
    }
    line.extend_from_slice(b"\n")?;
    text.extend_from_slice(line.as_slice())?;
    Ok(())
}
