//! The line of a reply.
ghost use Rattle.std.specs.Prelude.{◌≡◌, ◌++◌, take, Some, None, IfOk, OnOk, OnErr, vec_len, codes};
ghost use Rattle.std.specs.Fmt.{decimal, signed_decimal};
ghost use Rattle.sgt_model.specs.ShortReplies.{full_cause, full_fate, reply_with};
ghost use Rattle.sgt_format.specs.ReplyText.{cause_text, over_text, looked_text, wrote_text, committed_text, fell_text, aborted_text, refused_text, reply_text, text};

use crate::decimal_text::{
    LINE_AND_CHUNK, LONGEST_LINE, append_answers, append_number_line, append_numbered, append_tids,
    append_tids_or_none, append_written, write_byte, write_key, write_record, write_signed,
    write_words,
};
use sgt_model::{
    Answers, Key, NoMemory, Reply, ReplyLists, ShortCause, ShortFate, ShortReply, Tid, Tids,
};
use std::alloc::{AllocError, Global};

/// The line of a reply, with its end.
pub fn reply_line(alloc: Global, reply: &Reply) -> Result<Vec<u8>, NoMemory>
    ensures { IfOk result (λ line. line.items ≡ text reply.now) }
{
    let mut line = Vec::new(alloc);
    append_reply(&mut line, reply)?;
    Ok(line)
}

/// Appends the line of a reply, with its end, to a text. Only the growth of the text allocates memory.
pub fn append_reply(lines: &mut Vec<u8>, reply: &Reply) -> Result<(), NoMemory>
    ensures ok { OnOk result (lines.new.items ≡ lines.old.items ++ text reply.now) }
    ensures err { OnErr result (lines.new.items ≡ lines.old.items) }
{
    append_short_reply(lines, &reply.in_short(), &reply.lists())
}

/// Appends the line of a reply with these lists, as [`append_reply`] does.
#[inline(always)]
pub fn append_short_reply(
    lines: &mut Vec<u8>,
    reply: &ShortReply,
    lists: &ReplyLists,
) -> Result<(), NoMemory>
    ensures ok { OnOk result
        (lines.new.items ≡ lines.old.items ++ text (reply_with reply.now lists.now)) }
    ensures err { OnErr result (lines.new.items ≡ lines.old.items) }
{
    let before = lines.len();
    if append_line(lines, reply, lists).is_err() {
        lines.truncate(before);
        return Err(NoMemory);
    }
    Ok(())
}

/// On an error the lines still begin with what they held.
#[tactic(auto, using(crate::proofs::Begins::grouped, crate::proofs::Begins::left_whole))]
#[inline(always)]
fn append_line(
    lines: &mut Vec<u8>,
    reply: &ShortReply,
    lists: &ReplyLists,
) -> Result<(), AllocError>
    ensures ok { OnOk result
        (lines.new.items ≡ lines.old.items ++ text (reply_with reply.now lists.now)) }
    ensures err { OnErr result (take (vec_len lines.old) lines.new.items ≡ lines.old.items) }
{
    match reply {
        ShortReply::Started(t) => append_started(lines, *t),
        ShortReply::NoProcedure => append_words(lines, b"no procedure\n"),
        ShortReply::BadArgs => append_words(lines, b"bad args\n"),
        ShortReply::Spent => append_words(lines, b"spent\n"),
        ShortReply::Full => append_words(lines, b"full\n"),
        ShortReply::Unknown => append_words(lines, b"unknown\n"),
        ShortReply::Over(fate) => append_over(lines, *fate, &lists.cycle),
        ShortReply::Looked { key, value } => append_looked(lines, *key, *value),
        ShortReply::Wrote { key, value } => append_wrote(lines, *key, *value),
        ShortReply::Ended => append_ended(lines),
        ShortReply::NotEnded => append_words(lines, b"not ended\n"),
        ShortReply::Waits(first) => append_number_line(lines, b"waits ", u64::from(first.0)),
        ShortReply::Committed => append_committed(lines, &lists.answers),
        ShortReply::Aborted(cause) => append_aborted(lines, *cause, &lists.cycle, &lists.fell),
        ShortReply::Refused(code) => append_refused(lines, *code, &lists.fell),
    }
}

/// Appends the line of a start. It is a function of its own, as are those of other frequent replies: the copying is then
/// compiled into it.
#[inline(never)]
fn append_started(lines: &mut Vec<u8>, t: Tid) -> Result<(), AllocError>
    ensures ok { OnOk result (lines.new.items ≡ lines.old.items ++ codes "started " ++ decimal t ++ codes "\n") }
    ensures err { OnErr result (lines.new.items ≡ lines.old.items) }
{
    append_number_line(lines, b"started ", u64::from(t.0))
}

/// Appends the line of a procedure at its end, from a line that is written already.
#[inline(never)]
fn append_ended(lines: &mut Vec<u8>) -> Result<(), AllocError>
    ensures ok { OnOk result (lines.new.items ≡ lines.old.items ++ codes "ended\n") }
    ensures err { OnErr result (lines.new.items ≡ lines.old.items) }
{
    let line =
        b"                                                          ended\n                                ";
    append_written(lines, line, LONGEST_LINE - 6)
}

/// Appends words.
#[inline(always)]
fn append_words(lines: &mut Vec<u8>, words: &[u8]) -> Result<(), AllocError>
    ensures ok { OnOk result (lines.new.items ≡ lines.old.items ++ words.now) }
    ensures err { OnErr result (take (vec_len lines.old) lines.new.items ≡ lines.old.items) }
{
    lines.extend_from_slice(words)
}

/// On an error the lines still begin with what they held.
#[inline(never)]
fn append_over(lines: &mut Vec<u8>, fate: ShortFate, cycle: &Tids) -> Result<(), AllocError>
    ensures ok { OnOk result
        (lines.new.items ≡ lines.old.items ++ over_text (full_fate fate cycle.now) ++ codes "\n") }
    ensures err { OnErr result (take (vec_len lines.old) lines.new.items ≡ lines.old.items) }
{
    match fate {
        ShortFate::Committed => lines.extend_from_slice(b"over committed\n"),
        ShortFate::Aborted(cause) => {
            lines.extend_from_slice(b"over aborted ")?;
            append_cause(lines, &cause, cycle)?;
            lines.extend_from_slice(b"\n")
        }
        ShortFate::Fell(first) => append_number_line(lines, b"over fell ", u64::from(first.0)),
    }
}

#[inline(always)]
fn append_looked(lines: &mut Vec<u8>, key: Key, value: Option<i64>) -> Result<(), AllocError>
    ensures ok { OnOk result
        (lines.new.items ≡ lines.old.items ++ looked_text key value ++ codes "\n") }
    ensures err { OnErr result (lines.new.items ≡ lines.old.items) }
{
    match value {
        Some(value) => append_found(lines, key, value),
        None => append_nothing(lines, key),
    }
}

/// Appends the line of a read that found a value.
#[inline(never)]
fn append_found(lines: &mut Vec<u8>, key: Key, value: i64) -> Result<(), AllocError>
    ensures ok { OnOk result
        (lines.new.items ≡ lines.old.items ++ looked_text key (Some value) ++ codes "\n") }
    ensures err { OnErr result (lines.new.items ≡ lines.old.items) }
{
    let mut line = [0; LINE_AND_CHUNK];
    let start = write_byte(b'\n', &mut line, LONGEST_LINE);
    let start = write_record(&key, value, &mut line, start);
    let start = write_words(b"read ", &mut line, start);
    append_written(lines, &line, start)
}

/// Appends the line of a read that found no value.
#[inline(never)]
fn append_nothing(lines: &mut Vec<u8>, key: Key) -> Result<(), AllocError>
    ensures ok { OnOk result
        (lines.new.items ≡ lines.old.items ++ looked_text key None ++ codes "\n") }
    ensures err { OnErr result (lines.new.items ≡ lines.old.items) }
{
    let mut line = [0; LINE_AND_CHUNK];
    let end = write_words(b" none\n", &mut line, LONGEST_LINE);
    let start = write_key(&key, &mut line, end);
    let start = write_words(b"read ", &mut line, start);
    append_written(lines, &line, start)
}

#[inline(always)]
fn append_wrote(lines: &mut Vec<u8>, key: Key, value: Option<i64>) -> Result<(), AllocError>
    ensures ok { OnOk result
        (lines.new.items ≡ lines.old.items ++ wrote_text key value ++ codes "\n") }
    ensures err { OnErr result (lines.new.items ≡ lines.old.items) }
{
    match value {
        Some(value) => append_put(lines, key, value),
        None => append_removed(lines, key),
    }
}

/// Appends the line of a write of a value.
#[inline(never)]
fn append_put(lines: &mut Vec<u8>, key: Key, value: i64) -> Result<(), AllocError>
    ensures ok { OnOk result
        (lines.new.items ≡ lines.old.items ++ wrote_text key (Some value) ++ codes "\n") }
    ensures err { OnErr result (lines.new.items ≡ lines.old.items) }
{
    let mut line = [0; LINE_AND_CHUNK];
    let start = write_byte(b'\n', &mut line, LONGEST_LINE);
    let start = write_record(&key, value, &mut line, start);
    let start = write_words(b"wrote ", &mut line, start);
    append_written(lines, &line, start)
}

/// Appends the line of a removal.
#[inline(never)]
fn append_removed(lines: &mut Vec<u8>, key: Key) -> Result<(), AllocError>
    ensures ok { OnOk result
        (lines.new.items ≡ lines.old.items ++ wrote_text key None ++ codes "\n") }
    ensures err { OnErr result (lines.new.items ≡ lines.old.items) }
{
    let mut line = [0; LINE_AND_CHUNK];
    let start = write_byte(b'\n', &mut line, LONGEST_LINE);
    let start = write_key(&key, &mut line, start);
    let start = write_words(b"removed ", &mut line, start);
    append_written(lines, &line, start)
}

/// On an error the lines still begin with what they held.
#[inline(never)]
fn append_committed(lines: &mut Vec<u8>, answers: &Answers) -> Result<(), AllocError>
    ensures ok { OnOk result
        (lines.new.items ≡ lines.old.items ++ committed_text answers.now ++ codes "\n") }
    ensures err { OnErr result (take (vec_len lines.old) lines.new.items ≡ lines.old.items) }
{
    match answers.as_slice() {
        [] => lines.extend_from_slice(b"committed none\n"),
        [answer] => append_answered(lines, *answer),
        _ => {
            lines.extend_from_slice(b"committed")?;
            append_answers(lines, answers)?;
            lines.extend_from_slice(b"\n")
        }
    }
}

/// Appends the line of a transaction that is committed with one answer.
#[inline(always)]
fn append_answered(lines: &mut Vec<u8>, answer: i64) -> Result<(), AllocError>
    ensures ok { OnOk result
        (lines.new.items ≡ lines.old.items ++ codes "committed " ++ signed_decimal answer ++ codes "\n") }
    ensures err { OnErr result (lines.new.items ≡ lines.old.items) }
{
    let mut line = [0; LINE_AND_CHUNK];
    let start = write_byte(b'\n', &mut line, LONGEST_LINE);
    let start = write_signed(answer, &mut line, start);
    let start = write_words(b"committed ", &mut line, start);
    append_written(lines, &line, start)
}

/// On an error the lines still begin with what they held.
#[tactic(auto, using(crate::proofs::Begins::still_begins))]
#[inline(never)]
fn append_aborted(
    lines: &mut Vec<u8>,
    cause: ShortCause,
    cycle: &Tids,
    fell: &Tids,
) -> Result<(), AllocError>
    ensures ok { OnOk result (lines.new.items
        ≡ lines.old.items ++ aborted_text (full_cause cause cycle.now) fell.now ++ codes "\n") }
    ensures err { OnErr result (take (vec_len lines.old) lines.new.items ≡ lines.old.items) }
{
    lines.extend_from_slice(b"aborted ")?;
    append_cause(lines, &cause, cycle)?;
    append_fell(lines, fell)
}

/// On an error the lines still begin with what they held.
#[inline(never)]
fn append_refused(lines: &mut Vec<u8>, code: u16, fell: &Tids) -> Result<(), AllocError>
    ensures ok { OnOk result
        (lines.new.items ≡ lines.old.items ++ refused_text code fell.now ++ codes "\n") }
    ensures err { OnErr result (take (vec_len lines.old) lines.new.items ≡ lines.old.items) }
{
    append_numbered(lines, b"refused ", code)?;
    append_fell(lines, fell)
}

/// Appends the transactions aborted in cascade, and the end of the line. On an error the lines still begin with what
/// they held.
fn append_fell(lines: &mut Vec<u8>, fell: &Tids) -> Result<(), AllocError>
    ensures ok { OnOk result (lines.new.items ≡ lines.old.items ++ fell_text fell.now ++ codes "\n") }
    ensures err { OnErr result (take (vec_len lines.old) lines.new.items ≡ lines.old.items) }
{
    lines.extend_from_slice(b" fell")?;
    append_tids_or_none(lines, fell)?;
    lines.extend_from_slice(b"\n")
}

/// Appends why a transaction was aborted. On an error the line still begins with what it held.
fn append_cause(line: &mut Vec<u8>, cause: &ShortCause, cycle: &Tids) -> Result<(), AllocError>
    ensures ok { OnOk result
        (line.new.items ≡ line.old.items ++ cause_text (full_cause cause.now cycle.now)) }
    ensures err { OnErr result (take (vec_len line.old) line.new.items ≡ line.old.items) }
{
    match cause {
        ShortCause::Cycle => {
            line.extend_from_slice(b"cycle")?;
            append_tids(line, cycle)
        }
        ShortCause::Asked(code) => append_numbered(line, b"asked ", *code),
        ShortCause::Quit => line.extend_from_slice(b"quit"),
    }
}
