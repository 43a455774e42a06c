//! The outcome of a job as an object of JSON.
ghost use Rattle.std.specs.Prelude.{◌≡◌, ◌++◌, slice_get, OnOk};
ghost use Rattle.sgt_bank.specs.OutcomeJson.{ask_members, cause_members, code_members, commit_members, event_members, members_at, outcome_json, outcome_members, refusal_members, tries_of};

use sgt_log::{EntryRef, History};
use sgt_model::{Cause, Reply};
use sgt_reply_json::{Piece, append_pieces};
use sgt_workers::Outcome;
use std::alloc::AllocError;

/// Appends the line of a job's outcome. The job was tried in vain this often.
pub(crate) fn append_outcome_json<N>(
    text: &mut Vec<u8>,
    number: u32,
    failed: u32,
    outcome: &Outcome<N>,
    history: &History,
) -> Result<(), AllocError>
    ensures { OnOk result
        (text.new.items ≡ text.old.items ++ outcome_json number failed history.now.entries outcome.now) }
{
    append_pieces(
        text,
        &[
            Piece::Words(b"{\"job\":"),
            Piece::Number(u64::from(number)),
            Piece::Words(b",\"outcome\":"),
        ],
    )?;
    append_members(text, outcome, history)?;
    append_event(text, outcome)?;
    append_pieces(
        text,
        &[
            Piece::Words(b",\"tries\":"),
            Piece::Number(tries_of(failed, outcome)),
            Piece::Words(b"}\n"),
        ],
    )
}

/// How often the job was tried, if it was tried in vain this often.
fn tries_of<N>(failed: u32, outcome: &Outcome<N>) -> u64
    ensures { result ≡ tries_of failed outcome.now }
{
    match outcome {
        Outcome::Done(_) | Outcome::Asked(_) => u64::from(failed) + 1,
        Outcome::Gave(attempts) => attempts.len() as u64,
        _ => u64::from(failed),
    }
}

/// Appends the outcome.
fn append_members<N>(
    text: &mut Vec<u8>,
    outcome: &Outcome<N>,
    history: &History,
) -> Result<(), AllocError>
    ensures { OnOk result
        (text.new.items ≡ text.old.items ++ outcome_members history.now.entries outcome.now) }
{
    match outcome {
        Outcome::Done(n) => append_commit(text, history, *n),
        Outcome::Asked(n) => append_raised(text, history, *n),
        Outcome::Gave(_) => text.extend_from_slice(b"\"gave\""),
        Outcome::Refused(n) => append_refusal(text, history, *n),
        Outcome::Left(_) => text.extend_from_slice(b"\"left\""),
        Outcome::Untaken => text.extend_from_slice(b"\"untaken\""),
        Outcome::NoMemory => text.extend_from_slice(b"\"no memory\""),
    }
}

/// Appends the number of the entry with which the job ended, if the outcome names one.
fn append_event<N>(text: &mut Vec<u8>, outcome: &Outcome<N>) -> Result<(), AllocError>
    ensures { OnOk result (text.new.items ≡ text.old.items ++ event_members outcome.now) }
{
    match outcome {
        Outcome::Done(n) | Outcome::Asked(n) => append_pieces(
            text,
            &[Piece::Words(b",\"event\":"), Piece::Number(*n)],
        ),
        _ => Ok(()),
    }
}

fn append_commit(text: &mut Vec<u8>, history: &History, n: u64) -> Result<(), AllocError>
    ensures { OnOk result
        (text.new.items ≡ text.old.items ++ members_at commit_members (slice_get history.now.entries n)) }
{
    match history.get_entry(n as usize) {
        Some(entry) => append_commit_members(text, &entry),
        None => text.extend_from_slice(b"null"),
    }
}

fn append_commit_members(text: &mut Vec<u8>, entry: &EntryRef<'_>) -> Result<(), AllocError>
    ensures { OnOk result (text.new.items ≡ text.old.items ++ commit_members entry.now.reply) }
{
    match entry.committed() {
        Some(answers) => append_pieces(
            text,
            &[
                Piece::Words(b"\"committed\",\"answers\":"),
                Piece::Values(answers.as_slice()),
            ],
        ),
        None => text.extend_from_slice(b"null"),
    }
}

fn append_raised(text: &mut Vec<u8>, history: &History, n: u64) -> Result<(), AllocError>
    ensures { OnOk result
        (text.new.items ≡ text.old.items ++ members_at ask_members (slice_get history.now.entries n)) }
{
    match history.get_entry(n as usize) {
        Some(entry) => append_ask_members(text, &entry.reply()),
        None => text.extend_from_slice(b"null"),
    }
}

fn append_ask_members(text: &mut Vec<u8>, reply: &Reply) -> Result<(), AllocError>
    ensures { OnOk result (text.new.items ≡ text.old.items ++ ask_members reply.now) }
{
    match reply {
        Reply::Aborted { cause, .. } => append_cause(text, cause),
        Reply::Refused { code, .. } => append_code(text, *code),
        _ => text.extend_from_slice(b"null"),
    }
}

fn append_cause(text: &mut Vec<u8>, cause: &Cause) -> Result<(), AllocError>
    ensures { OnOk result (text.new.items ≡ text.old.items ++ cause_members cause.now) }
{
    match cause {
        Cause::Asked(code) => append_code(text, *code),
        _ => text.extend_from_slice(b"null"),
    }
}

/// Appends that the job's procedure raised this code.
fn append_code(text: &mut Vec<u8>, code: u16) -> Result<(), AllocError>
    ensures { OnOk result (text.new.items ≡ text.old.items ++ code_members code) }
{
    append_pieces(
        text,
        &[
            Piece::Words(b"\"asked\",\"code\":"),
            Piece::Number(u64::from(code)),
        ],
    )
}

fn append_refusal(text: &mut Vec<u8>, history: &History, n: u64) -> Result<(), AllocError>
    ensures { OnOk result
        (text.new.items ≡ text.old.items ++ members_at refusal_members (slice_get history.now.entries n)) }
{
    let Some(entry) = history.get_entry(n as usize) else {
        return text.extend_from_slice(b"null");
    };
    match entry.reply() {
        Reply::NoProcedure => text.extend_from_slice(b"\"refused\",\"reason\":\"no procedure\""),
        Reply::BadArgs => text.extend_from_slice(b"\"refused\",\"reason\":\"bad args\""),
        Reply::Spent => text.extend_from_slice(b"\"refused\",\"reason\":\"spent\""),
        Reply::Full => text.extend_from_slice(b"\"refused\",\"reason\":\"full\""),
        _ => text.extend_from_slice(b"null"),
    }
}
