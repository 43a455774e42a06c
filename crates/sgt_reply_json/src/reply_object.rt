//! Replies as objects of JSON.
ghost use Rattle.std.specs.Prelude.{◌≡◌, ◌++◌, OnOk, Some, None, codes};
ghost use Rattle.sgt_reply_json.specs.ReplyObjects.{aborted_members, committed_members, cut_object, key_members, looked_members, numbered, object_start, over_aborted_members, over_members, refused_members, reply_members, reply_object, still_live_object, transaction_start, value_members, wrote_members};

use crate::piece::{Piece, append_pieces};
use sgt_model::{Answers, Cause, Event, Fate, Key, Reply, Tid, Tids};
use std::alloc::AllocError;

/// Appends the line of a reply to an event: an object of JSON.
///
/// # Errors
///
/// `AllocError` if an allocation failed. A part of the line may have been appended then.
pub fn append_reply_object(
    text: &mut Vec<u8>,
    event: &Event,
    reply: &Reply,
) -> Result<(), AllocError>
    ensures { OnOk result (text.new.items ≡ text.old.items ++ reply_object event.now reply.now) }
{
    append_start(text, event.named(), event.started(reply))?;
    append_members(text, reply)
}

/// Appends the start of an object: the transaction that its event names or has started, if any.
fn append_start(
    text: &mut Vec<u8>,
    named: Option<Tid>,
    started: Option<Tid>,
) -> Result<(), AllocError>
    ensures { OnOk result (text.new.items ≡ text.old.items ++ object_start named started) }
{
    match (named, started) {
        (Some(t), _) | (None, Some(t)) => append_transaction(text, t),
        (None, None) => text.extend_from_slice(b"{"),
    }
}

/// Appends the start of an object that has this transaction.
fn append_transaction(text: &mut Vec<u8>, t: Tid) -> Result<(), AllocError>
    ensures { OnOk result (text.new.items ≡ text.old.items ++ transaction_start t) }
{
    append_pieces(
        text,
        &[
            Piece::Words(b"{\"transaction\":"),
            Piece::Number(u64::from(t.0)),
            Piece::Words(b","),
        ],
    )
}

/// Appends the other members of a reply, and the end of its object.
fn append_members(text: &mut Vec<u8>, reply: &Reply) -> Result<(), AllocError>
    ensures { OnOk result (text.new.items ≡ text.old.items ++ reply_members reply.now) }
{
    match reply {
        Reply::Started(_) => text.extend_from_slice(b"\"reply\":\"started\"}\n"),
        Reply::NoProcedure => text.extend_from_slice(b"\"reply\":\"no procedure\"}\n"),
        Reply::BadArgs => text.extend_from_slice(b"\"reply\":\"bad args\"}\n"),
        Reply::Spent => text.extend_from_slice(b"\"reply\":\"spent\"}\n"),
        Reply::Full => text.extend_from_slice(b"\"reply\":\"full\"}\n"),
        Reply::Unknown => text.extend_from_slice(b"\"reply\":\"unknown\"}\n"),
        Reply::Over(fate) => append_over(text, fate),
        Reply::Looked { key, value } => append_looked(text, *key, *value),
        Reply::Wrote { key, value } => append_wrote(text, *key, *value),
        Reply::Ended => text.extend_from_slice(b"\"reply\":\"ended\"}\n"),
        Reply::NotEnded => text.extend_from_slice(b"\"reply\":\"not ended\"}\n"),
        Reply::Waits(first) => append_numbered(
            text,
            b"\"reply\":\"waits\",\"for\":",
            u64::from(first.0),
        ),
        Reply::Committed(answers) => append_committed(text, answers),
        Reply::Aborted { cause, fell } => append_aborted(text, cause, fell),
        Reply::Refused { code, fell } => append_refused(text, u64::from(*code), fell),
    }
}

/// Appends the line that says how many events a cut dropped.
///
/// # Errors
///
/// `AllocError` if an allocation failed. A part of the line may have been appended then.
pub fn append_cut_object(text: &mut Vec<u8>, events: u64) -> Result<(), AllocError>
    ensures { OnOk result (text.new.items ≡ text.old.items ++ cut_object events) }
{
    append_numbered(text, b"{\"reply\":\"cut\",\"events\":", events)
}

/// Appends the line that says that nothing was cut, as a transaction is live.
///
/// # Errors
///
/// `AllocError` if an allocation failed. A part of the line may have been appended then.
pub fn append_still_live_object(text: &mut Vec<u8>) -> Result<(), AllocError>
    ensures { OnOk result (text.new.items ≡ text.old.items ++ still_live_object) }
{
    text.extend_from_slice(b"{\"reply\":\"still live\"}\n")
}

/// Appends members that start with these bytes, and end the object with the number.
fn append_numbered(text: &mut Vec<u8>, start: &[u8], number: u64) -> Result<(), AllocError>
    ensures { OnOk result (text.new.items ≡ text.old.items ++ numbered start.now number) }
{
    append_pieces(
        text,
        &[
            Piece::Words(start),
            Piece::Number(number),
            Piece::Words(b"}\n"),
        ],
    )
}

/// Appends how a transaction ended.
fn append_over(text: &mut Vec<u8>, fate: &Fate) -> Result<(), AllocError>
    ensures { OnOk result (text.new.items ≡ text.old.items ++ over_members fate.now) }
{
    match fate {
        Fate::Committed => text.extend_from_slice(b"\"reply\":\"over\",\"fate\":\"committed\"}\n"),
        Fate::Aborted(cause) => append_over_aborted(text, cause),
        Fate::Fell(first) => append_numbered(
            text,
            b"\"reply\":\"over\",\"fate\":\"cascade\",\"with\":",
            u64::from(first.0),
        ),
    }
}

/// Appends why a transaction was aborted that has ended.
fn append_over_aborted(text: &mut Vec<u8>, cause: &Cause) -> Result<(), AllocError>
    ensures { OnOk result (text.new.items ≡ text.old.items ++ over_aborted_members cause.now) }
{
    match cause {
        Cause::Cycle(cycle) => append_pieces(
            text,
            &[
                Piece::Words(
                    b"\"reply\":\"over\",\"fate\":\"aborted\",\"cause\":\"cycle\",\"cycle\":",
                ),
                Piece::Transactions(cycle.as_slice()),
                Piece::Words(b"}\n"),
            ],
        ),
        Cause::Asked(code) => append_numbered(
            text,
            b"\"reply\":\"over\",\"fate\":\"aborted\",\"cause\":\"code\",\"code\":",
            u64::from(*code),
        ),
        Cause::Quit => text.extend_from_slice(
            b"\"reply\":\"over\",\"fate\":\"aborted\",\"cause\":\"quit\"}\n",
        ),
    }
}

/// Appends what a read found.
fn append_looked(text: &mut Vec<u8>, key: Key, value: Option<i64>) -> Result<(), AllocError>
    ensures { OnOk result (text.new.items ≡ text.old.items ++ looked_members key value) }
{
    match value {
        Some(value) => append_value(text, b"read", key, value),
        None => append_key(text, b"read", key, b",\"value\":null}\n"),
    }
}

/// Appends what a write wrote, or that it removed the record.
fn append_wrote(text: &mut Vec<u8>, key: Key, value: Option<i64>) -> Result<(), AllocError>
    ensures { OnOk result (text.new.items ≡ text.old.items ++ wrote_members key value) }
{
    match value {
        Some(value) => append_value(text, b"wrote", key, value),
        None => append_key(text, b"removed", key, b"}\n"),
    }
}

/// Appends the members of an access with a value.
#[tactic(auto, unfolding(crate::specs::ReplyObjects::value_members))]
fn append_value(text: &mut Vec<u8>, words: &[u8], key: Key, value: i64) -> Result<(), AllocError>
    ensures { OnOk result (text.new.items ≡ text.old.items ++ value_members words.now key value) }
{
    append_key(text, words, key, b",\"value\":")?;
    append_pieces(text, &[Piece::Value(value), Piece::Words(b"}\n")])
}

/// Appends the members of an access, with this end.
#[tactic(auto, unfolding(crate::specs::ReplyObjects::key_members))]
fn append_key<'a>(
    text: &mut Vec<u8>,
    words: &'a [u8],
    key: Key,
    end: &'a [u8],
) -> Result<(), AllocError>
    ensures { OnOk result (text.new.items ≡ text.old.items ++ key_members words.now key end.now) }
{
    append_pieces(
        text,
        &[
            Piece::Words(b"\"reply\":\""),
            Piece::Words(words),
            Piece::Words(b"\",\"table\":"),
            Piece::Number(u64::from(key.table())),
            Piece::Words(b",\"number\":"),
            Piece::Value(key.id()),
            Piece::Words(end),
        ],
    )
}

/// Appends the answers of a transaction that is committed.
fn append_committed(text: &mut Vec<u8>, answers: &Answers) -> Result<(), AllocError>
    ensures { OnOk result (text.new.items ≡ text.old.items ++ committed_members answers.now) }
{
    append_pieces(
        text,
        &[
            Piece::Words(b"\"reply\":\"committed\",\"answers\":"),
            Piece::Values(answers.as_slice()),
            Piece::Words(b"}\n"),
        ],
    )
}

/// Appends why a transaction is aborted, and which are aborted in cascade.
fn append_aborted<'a>(
    text: &mut Vec<u8>,
    cause: &'a Cause,
    fell: &'a Tids,
) -> Result<(), AllocError>
    ensures { OnOk result (text.new.items ≡ text.old.items ++ aborted_members cause.now fell.now) }
{
    match cause {
        Cause::Cycle(cycle) => append_pieces(
            text,
            &[
                Piece::Words(b"\"reply\":\"aborted\",\"cause\":\"cycle\",\"cycle\":"),
                Piece::Transactions(cycle.as_slice()),
                Piece::Words(b",\"cascade\":"),
                Piece::Transactions(fell.as_slice()),
                Piece::Words(b"}\n"),
            ],
        ),
        Cause::Asked(code) => append_pieces(
            text,
            &[
                Piece::Words(b"\"reply\":\"aborted\",\"cause\":\"code\",\"code\":"),
                Piece::Number(u64::from(*code)),
                Piece::Words(b",\"cascade\":"),
                Piece::Transactions(fell.as_slice()),
                Piece::Words(b"}\n"),
            ],
        ),
        Cause::Quit => append_pieces(
            text,
            &[
                Piece::Words(b"\"reply\":\"aborted\",\"cause\":\"quit\",\"cascade\":"),
                Piece::Transactions(fell.as_slice()),
                Piece::Words(b"}\n"),
            ],
        ),
    }
}

/// Appends the code with which a transaction is refused at its commit, and which are aborted in cascade.
fn append_refused(text: &mut Vec<u8>, code: u64, fell: &Tids) -> Result<(), AllocError>
    ensures { OnOk result (text.new.items ≡ text.old.items ++ refused_members code fell.now) }
{
    append_pieces(
        text,
        &[
            Piece::Words(b"\"reply\":\"refused\",\"code\":"),
            Piece::Number(code),
            Piece::Words(b",\"cascade\":"),
            Piece::Transactions(fell.as_slice()),
            Piece::Words(b"}\n"),
        ],
    )
}
