//! The line of a job's outcome.
ghost use Rattle.std.specs.Prelude.{◌≡◌, ◌++◌, take, vec_len, slice_get, IfOk, IfSome, OnOk, OnErr, codes};
ghost use Rattle.std.specs.Fmt.{signed_decimal};
ghost use Rattle.sgt_bank.specs.OutcomeText.{commit_words, code_words, raised_words, refusal_words, words_at, outcome_words, outcome_line};

use sgt_format::{append_answers, append_commit_line, append_number, append_numbered};
use sgt_log::{EntryRef, History};
use sgt_model::{Cause, NoMemory, Reply};
use sgt_workers::Outcome;
use std::alloc::{AllocError, Global};

/// The line of a job's outcome, with its newline: the job's number and its outcome. The outcome names entries of the
/// history. For an entry that is absent, or whose reply does not match, nothing is reported.
///
/// `NoMemory` if an allocation failed.
pub fn outcome_line<N>(
    alloc: Global,
    number: u32,
    outcome: &Outcome<N>,
    history: &History,
) -> Result<Vec<u8>, NoMemory>
    ensures { IfOk result (λ line. line.items ≡ outcome_line number history.now.entries outcome.now) }
{
    let mut line = Vec::new(alloc);
    append_outcome(&mut line, number, outcome, history)?;
    Ok(line)
}

/// Appends the line of a job's outcome. On an error the lines still begin with what they held.
pub(crate) fn append_outcome<N>(
    lines: &mut Vec<u8>,
    number: u32,
    outcome: &Outcome<N>,
    history: &History,
) -> Result<(), AllocError>
    ensures ok { OnOk result
        (lines.new.items ≡ lines.old.items ++ outcome_line number history.now.entries outcome.now) }
    ensures err { OnErr result (take (vec_len lines.old) lines.new.items ≡ lines.old.items) }
{
    // Most lines are of this kind, and are written at once.
    if let Some(answer) = lone_answer(outcome, history) {
        return append_commit_line(lines, u64::from(number), answer);
    }
    append_number(lines, number)?;
    lines.extend_from_slice(b" ")?;
    append_words(lines, outcome, history)?;
    lines.extend_from_slice(b"\n")
}

/// The answer of an outcome that is a commit with one answer.
fn lone_answer<N>(outcome: &Outcome<N>, history: &History) -> Option<i64>
    ensures { IfSome result (λ answer.
        outcome_words history.now.entries outcome.now ≡ codes "committed " ++ signed_decimal answer) }
{
    match outcome {
        Outcome::Done(n) => lone_answer_of(&history.get_entry(*n as usize)?),
        _ => None,
    }
}

/// The answer of an entry that commits with one answer.
fn lone_answer_of(entry: &EntryRef<'_>) -> Option<i64>
    ensures { IfSome result (λ answer.
        commit_words entry.now.reply ≡ codes "committed " ++ signed_decimal answer) }
{
    if !entry.is_commit() {
        return None;
    }
    let answers = entry.answers();
    if answers.len() == 1 {
        Some(answers[0])
    } else {
        None
    }
}

/// Appends the words of an outcome. On an error the line still begins with what it held.
fn append_words<N>(
    line: &mut Vec<u8>,
    outcome: &Outcome<N>,
    history: &History,
) -> Result<(), AllocError>
    ensures ok { OnOk result
        (line.new.items ≡ line.old.items ++ outcome_words history.now.entries outcome.now) }
    ensures err { OnErr result (take (vec_len line.old) line.new.items ≡ line.old.items) }
{
    match outcome {
        Outcome::Done(n) => append_commit(line, history, *n),
        Outcome::Asked(n) => append_raised(line, history, *n),
        Outcome::Gave(attempts) => append_numbered(line, b"gave ", attempts.len()),
        Outcome::Refused(n) => append_refusal(line, history, *n),
        Outcome::Left(_) => line.extend_from_slice(b"left"),
        Outcome::Untaken => line.extend_from_slice(b"untaken"),
        Outcome::NoMemory => line.extend_from_slice(b"no memory"),
    }
}

fn append_commit(line: &mut Vec<u8>, history: &History, n: u64) -> Result<(), AllocError>
    ensures ok { OnOk result
        (line.new.items ≡ line.old.items ++ words_at commit_words (slice_get history.now.entries n)) }
    ensures err { OnErr result (take (vec_len line.old) line.new.items ≡ line.old.items) }
{
    match history.get_entry(n as usize) {
        Some(entry) => append_commit_words(line, &entry),
        None => Ok(()),
    }
}

fn append_commit_words(line: &mut Vec<u8>, entry: &EntryRef<'_>) -> Result<(), AllocError>
    ensures ok { OnOk result (line.new.items ≡ line.old.items ++ commit_words entry.now.reply) }
    ensures err { OnErr result (take (vec_len line.old) line.new.items ≡ line.old.items) }
{
    match entry.committed() {
        Some(answers) => {
            line.extend_from_slice(b"committed")?;
            append_answers(line, &answers)
        }
        None => Ok(()),
    }
}

fn append_raised(line: &mut Vec<u8>, history: &History, n: u64) -> Result<(), AllocError>
    ensures ok { OnOk result
        (line.new.items ≡ line.old.items ++ words_at raised_words (slice_get history.now.entries n)) }
    ensures err { OnErr result (take (vec_len line.old) line.new.items ≡ line.old.items) }
{
    match history.get_entry(n as usize) {
        Some(entry) => append_raised_words(line, &entry.reply()),
        None => Ok(()),
    }
}

fn append_raised_words(line: &mut Vec<u8>, reply: &Reply) -> Result<(), AllocError>
    ensures ok { OnOk result (line.new.items ≡ line.old.items ++ raised_words reply.now) }
    ensures err { OnErr result (take (vec_len line.old) line.new.items ≡ line.old.items) }
{
    match reply {
        Reply::Aborted { cause, .. } => append_code(line, cause),
        Reply::Refused { code, .. } => append_numbered(line, b"asked ", *code),
        _ => Ok(()),
    }
}

fn append_code(line: &mut Vec<u8>, cause: &Cause) -> Result<(), AllocError>
    ensures ok { OnOk result (line.new.items ≡ line.old.items ++ code_words cause.now) }
    ensures err { OnErr result (take (vec_len line.old) line.new.items ≡ line.old.items) }
{
    match cause {
        Cause::Asked(code) => append_numbered(line, b"asked ", *code),
        _ => Ok(()),
    }
}

fn append_refusal(line: &mut Vec<u8>, history: &History, n: u64) -> Result<(), AllocError>
    ensures ok { OnOk result
        (line.new.items ≡ line.old.items ++ words_at refusal_words (slice_get history.now.entries n)) }
    ensures err { OnErr result (take (vec_len line.old) line.new.items ≡ line.old.items) }
{
    let Some(entry) = history.get_entry(n as usize) else {
        return Ok(());
    };
    match entry.reply() {
        Reply::NoProcedure => line.extend_from_slice(b"refused 1"),
        Reply::BadArgs => line.extend_from_slice(b"refused 2"),
        Reply::Spent => line.extend_from_slice(b"refused 3"),
        Reply::Full => line.extend_from_slice(b"refused 4"),
        _ => Ok(()),
    }
}
