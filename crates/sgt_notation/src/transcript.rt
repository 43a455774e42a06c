//! The operations of a whole history of the engine, as text.
ghost use Rattle.std.specs.Prelude.{◌≡◌, ◌++◌, reverse, OnOk};
ghost use Rattle.sgt_notation.specs.Transcripts.{transcript};

use crate::operations::append_operations;
use sgt_log::History;
use sgt_model::{Entry, NoMemory};

/// Appends the operations of a whole history, a line each.
///
/// `NoMemory` if an allocation failed.
pub fn append_transcript(text: &mut Vec<u8>, history: &History) -> Result<(), NoMemory>
    ensures { OnOk result
        (text.new.items ≡ text.old.items ++ transcript (reverse history.now.entries)) }
{
    for place in 0..history.len() {
        let Entry { event, reply } = history.at(place);
        append_operations(text, &event, &reply)?;
    }
    Ok(())
}
