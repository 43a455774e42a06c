//! The answers to lines as objects of JSON.
ghost use Rattle.std.specs.Prelude.{◌≡◌, ◌++◌, OnOk, OnErr};
ghost use Rattle.sgt_reply_json.specs.ReplyObjects.{cut_object, reply_object, still_live_object};

use sgt_model::{Event, NoMemory, Reply};
use sgt_reply_json::{append_cut_object, append_reply_object, append_still_live_object};

/// Appends the reply to an event.
pub(crate) fn append_reply_json(
    text: &mut Vec<u8>,
    event: &Event,
    reply: &Reply,
) -> Result<(), NoMemory>
    ensures text { OnOk result
        (text.new.items ≡ text.old.items ++ reply_object event.now reply.now) }
    ensures kept { OnErr result (text.new.items ≡ text.old.items) }
{
    let mut line = Vec::new(*text.allocator());
    append_reply_object(&mut line, event, reply)?;
    text.extend_from_slice(line.as_slice())?;
    Ok(())
}

/// Appends how many events a cut dropped.
pub(crate) fn append_cut_json(text: &mut Vec<u8>, events: usize) -> Result<(), NoMemory>
    ensures text { OnOk result (text.new.items ≡ text.old.items ++ cut_object events) }
    ensures kept { OnErr result (text.new.items ≡ text.old.items) }
{
    let mut line = Vec::new(*text.allocator());
    append_cut_object(&mut line, events as u64)?;
    text.extend_from_slice(line.as_slice())?;
    Ok(())
}

/// Appends that nothing was cut, because a transaction is live.
pub(crate) fn append_still_live_json(text: &mut Vec<u8>) -> Result<(), NoMemory>
    ensures text { OnOk result (text.new.items ≡ text.old.items ++ still_live_object) }
    ensures kept { OnErr result (text.new.items ≡ text.old.items) }
{
    let mut line = Vec::new(*text.allocator());
    append_still_live_object(&mut line)?;
    text.extend_from_slice(line.as_slice())?;
    Ok(())
}
