//! The lines that answer a cut.
ghost use Rattle.std.specs.Prelude.{◌≡◌, ◌++◌, OnOk, OnErr};
ghost use Rattle.sgt_format.specs.CutText.{cut_text, still_live_text};

use crate::decimal_text::append_number_line;
use sgt_model::NoMemory;

/// Appends the line that says how many entries were cut, with its end. Only the growth of the text allocates memory.
pub fn append_cut(lines: &mut Vec<u8>, entries: usize) -> Result<(), NoMemory>
    ensures ok { OnOk result (lines.new.items ≡ lines.old.items ++ cut_text entries) }
    ensures err { OnErr result (lines.new.items ≡ lines.old.items) }
{
    append_number_line(lines, b"cut ", entries as u64)?;
    Ok(())
}

/// Appends the line that says that nothing was cut, as a transaction is live, with its end. Only the growth of the text
/// allocates memory.
pub fn append_still_live(lines: &mut Vec<u8>) -> Result<(), NoMemory>
    ensures ok { OnOk result (lines.new.items ≡ lines.old.items ++ still_live_text) }
    ensures err { OnErr result (lines.new.items ≡ lines.old.items) }
{
    lines.extend_from_slice(b"still live\n")?;
    Ok(())
}
