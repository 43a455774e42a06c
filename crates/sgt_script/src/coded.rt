//! The line that says that a procedure aborted its transaction with a code.
ghost use Rattle.std.specs.Prelude.{◌≡◌, take, OnErr, vec_len};

use sgt_explain::{IndexedHistory, Words, append_code_abort, call_before};
use sgt_format::append_numbered;
use sgt_log::EntryRef;
use sgt_model::{Cause, NoMemory, Reply, Tid};

/// Appends which procedure aborted the transaction of the newest entry, of this line of the script, if one did with a
/// code: `line 29: procedure 5 aborted 3 with code 44 (no such account)`. Else it appends nothing.
///
/// `NoMemory` if an allocation failed, or failed for an entry of the indexed history; then the text is unchanged.
pub(crate) fn append_coded(
    text: &mut Vec<u8>,
    newest: &EntryRef<'_>,
    history: &IndexedHistory,
    meanings: &Words,
    line: u64,
) -> Result<(), NoMemory>
    ensures kept { take (vec_len text.old) text.new.items ≡ text.old.items }
    ensures err { OnErr result (text.new.items ≡ text.old.items) }
{
    let Some((t, code)) = code_of(newest) else {
        return Ok(());
    };
    let Some(call) = call_before(history, history.len(), t) else {
        return Err(NoMemory);
    };
    let mut words = Vec::new(*text.allocator());
    append_numbered(&mut words, b"line ", line)?;
    words.extend_from_slice(b": ")?;
    append_code_abort(&mut words, meanings, call.procedure, t, code)?;
    words.extend_from_slice(b"\n")?;
    text.extend_from_slice(words.as_slice())?;
    Ok(())
}

// The transaction that the entry aborts with a code, and the code.
fn code_of(entry: &EntryRef<'_>) -> Option<(Tid, u16)> {
    match entry.reply() {
        Reply::Aborted {
            cause: Cause::Asked(code),
            ..
        }
        | Reply::Refused { code, .. } => Some((entry.named()?, code)),
        _ => None,
    }
}
