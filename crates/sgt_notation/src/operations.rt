//! The operations of an event with its reply, as text.
ghost use Rattle.std.specs.Prelude.{◌≡◌, ◌++◌, take, OnOk, OnErr, vec_len, codes};
ghost use Rattle.std.specs.Fmt.{decimal};
ghost use Rattle.sgt_notation.specs.Spellings.{bracketed};
ghost use Rattle.sgt_format.specs.Decimals.{key_text};
ghost use Rattle.sgt_textbook.specs.Textbook.{named, stepping};
ghost use Rattle.sgt_notation.specs.Transcripts.{access_lines, end_lines, operations_text, cut_comment};

use sgt_format::{append_number, append_numbered};
use sgt_model::{Event, Key, NoMemory, Reply, Tid, Tids};
use std::alloc::AllocError;

/// Appends the operations of an event with this reply, a line each. It allocates only for the growth of the text.
///
/// `NoMemory` if that allocation failed.
pub fn append_operations(text: &mut Vec<u8>, event: &Event, reply: &Reply) -> Result<(), NoMemory>
    ensures ok { OnOk result (text.new.items ≡ text.old.items ++ operations_text event.now reply.now) }
    ensures err { OnErr result (text.new.items ≡ text.old.items) }
{
    let before = text.len();
    if append_lines(text, event, reply).is_err() {
        text.truncate(before);
        return Err(NoMemory);
    }
    Ok(())
}

/// Appends a comment that this many entries were cut off: what follows is another history. It allocates only for the
/// growth of the text.
///
/// `NoMemory` if that allocation failed.
pub fn append_cut_comment(text: &mut Vec<u8>, entries: usize) -> Result<(), NoMemory>
    ensures ok { OnOk result (text.new.items ≡ text.old.items ++ cut_comment entries) }
    ensures err { OnErr result (text.new.items ≡ text.old.items) }
{
    let before = text.len();
    if append_line(text, b"# cut ", entries as u64).is_err() {
        text.truncate(before);
        return Err(NoMemory);
    }
    Ok(())
}

/// On an error the text still begins with what it held.
fn append_lines(text: &mut Vec<u8>, event: &Event, reply: &Reply) -> Result<(), AllocError>
    ensures ok { OnOk result (text.new.items ≡ text.old.items ++ operations_text event.now reply.now) }
    ensures err { OnErr result (take (vec_len text.old) text.new.items ≡ text.old.items) }
{
    match reply {
        Reply::Looked { key, .. } => append_access(text, b"r", event, key),
        Reply::Wrote { key, .. } => append_access(text, b"w", event, key),
        Reply::Committed(_) => append_named(text, b"c", event),
        Reply::Aborted { fell, .. } => append_aborts(text, event, fell),
        Reply::Refused { fell, .. } => append_aborts(text, event, fell),
        _ => Ok(()),
    }
}

/// Appends the access of the transaction that made it, by a step or as its caller decided. On an error the text still begins with what it held.
fn append_access(
    text: &mut Vec<u8>,
    letter: &[u8],
    event: &Event,
    key: &Key,
) -> Result<(), AllocError>
    ensures ok { OnOk result (text.new.items ≡ text.old.items
        ++ access_lines letter.now key.now (stepping event.now)) }
    ensures err { OnErr result (take (vec_len text.old) text.new.items ≡ text.old.items) }
{
    let (Event::Step(t) | Event::Access(t, _)) = event else {
        return Ok(());
    };
    append_numbered(text, letter, t.0)?;
    append_numbered(text, b"[", key.table())?;
    append_numbered(text, b"/", key.id())?;
    text.extend_from_slice(b"]\n")
}

/// Appends the aborts of the event's transaction and of those aborted in cascade. On an error the text still begins
/// with what it held.
fn append_aborts(text: &mut Vec<u8>, event: &Event, fell: &Tids) -> Result<(), AllocError>
    ensures ok { OnOk result (text.new.items ≡ text.old.items
        ++ end_lines (codes "a") (named event.now ++ fell.now)) }
    ensures err { OnErr result (take (vec_len text.old) text.new.items ≡ text.old.items) }
{
    append_named(text, b"a", event)?;
    append_ends(text, b"a", fell.as_slice())
}

/// Appends the end of the event's transaction. On an error the text still begins with what it held.
fn append_named(text: &mut Vec<u8>, letter: &[u8], event: &Event) -> Result<(), AllocError>
    ensures ok { OnOk result (text.new.items ≡ text.old.items ++ end_lines letter.now (named event.now)) }
    ensures err { OnErr result (take (vec_len text.old) text.new.items ≡ text.old.items) }
{
    match event.named() {
        Some(t) => append_line(text, letter, u64::from(t.0)),
        None => Ok(()),
    }
}

/// Appends the end of each of these transactions. On an error the text still begins with what it held.
fn append_ends(text: &mut Vec<u8>, letter: &[u8], tids: &[Tid]) -> Result<(), AllocError>
    ensures ok { OnOk result (text.new.items ≡ text.old.items ++ end_lines letter.now tids.now) }
    ensures err { OnErr result (take (vec_len text.old) text.new.items ≡ text.old.items) }
{
    for t in tids {
        append_line(text, letter, u64::from(t.0))?;
    }
    Ok(())
}

/// Appends a line of words and a number. On an error the text still begins with what it held.
fn append_line(text: &mut Vec<u8>, words: &[u8], number: u64) -> Result<(), AllocError>
    ensures ok { OnOk result
        (text.new.items ≡ text.old.items ++ words.now ++ decimal number ++ codes "\n") }
    ensures err { OnErr result (take (vec_len text.old) text.new.items ≡ text.old.items) }
{
    append_numbered(text, words, number)?;
    text.extend_from_slice(b"\n")
}
