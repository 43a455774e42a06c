//! The structs of a reply and of a run's outcome for C, how they are written, and which reply the fields say.
ghost use Rattle.std.specs.Prelude.{◌≡◌, ◌≤◌, ◌||◌, true, cond, nat_eq, drop, length, take, Some, IfSome};
ghost use Rattle.sgt_model.specs.declared.reply.Reply.{Reply};
ghost use Rattle.sgt_model.specs.declared.reply.Reply.TheVariants as reply;
ghost use Rattle.sgt_model.specs.ShortReplies.{full_cause, full_fate, reply_with};
ghost use Rattle.sgt_c.specs.KeptFields.{KeepsOtherFields, has_cause};
ghost use Rattle.sgt_c.specs.ReplyStructs.{HoldsAccess, HoldsCause, HoldsFate, HoldsFound, HoldsReply};
ghost use Rattle.sgt_c.specs.ReplyReadings.{HoldsValidReply, IsCause, IsFate, code_in, key_in, found_in, cause_in, fate_in, reply_in};
ghost use Rattle.sgt_c.specs.Runs.{IsNumberReported};

use crate::run::Outcome;
use sgt_model::{
    Answers, Cause, Fate, Key, Reply, ReplyLists, ShortCause, ShortFate, ShortReply, Tid, Tids,
};

/// The reply to an event, for C. `kind` says which of the other fields belong to it.
#[repr(C)]
#[derive(Drop)]
pub struct SgtReply {
    pub kind: u32,
    /// Of an abort, or of how a transaction ended: 1 a cycle, 2 a code, 3 an abort by the caller; 4 a cascading abort,
    /// and 0 a commit.
    pub cause: u32,
    /// The transaction that was started, that is waited for, or whose abort began the cascade.
    pub tid: u32,
    pub code: u32,
    pub table: u32,
    /// Whether a read found a value, or a write wrote one: 1 or 0. A removal writes none.
    pub found: u32,
    pub number: i64,
    pub value: i64,
    /// How many items `answer`, `walk` (the cycle's path) and `fell` (aborted in cascade) have; and `spare`, which is
    /// unused.
    pub answers: u32,
    pub walked: u32,
    pub fallen: u32,
    pub spare: u32,
    pub answer: [i64; 8],
    pub walk: [u32; 32],
    pub fell: [u32; 32],
}

/// Writes a reply for C, with its lists. The fields that do not count for its kind keep their values.
#[inline(always)]
pub fn write_reply(into: &mut SgtReply, reply: &ShortReply, lists: &ReplyLists)
    ensures reply { HoldsReply into.new (reply_with reply.now lists.now) }
    ensures kept { KeepsOtherFields into.old into.new }
{
    match reply {
        ShortReply::Started(t) => {
            into.kind = 1;
            into.tid = t.0;
        }
        ShortReply::NoProcedure => into.kind = 2,
        ShortReply::BadArgs => into.kind = 3,
        ShortReply::Spent => into.kind = 4,
        ShortReply::Full => into.kind = 5,
        ShortReply::Unknown => into.kind = 6,
        ShortReply::Over(fate) => write_over(into, *fate, &lists.cycle),
        ShortReply::Looked { key, value } => write_access(into, 8, *key, *value),
        ShortReply::Wrote { key, value } => write_access(into, 9, *key, *value),
        ShortReply::Ended => into.kind = 10,
        ShortReply::NotEnded => into.kind = 11,
        ShortReply::Waits(first) => {
            into.kind = 12;
            into.tid = first.0;
        }
        ShortReply::Committed => write_committed(into, &lists.answers),
        ShortReply::Aborted(cause) => write_aborted(into, *cause, lists),
        ShortReply::Refused(code) => write_refused(into, *code, &lists.fell),
    }
}

/// Writes the reply to an access: 8 for a read, 9 for a write.
fn write_access(into: &mut SgtReply, kind: u32, key: Key, value: Option<i64>)
    requires { (nat_eq kind 8 || nat_eq kind 9) ≡ true }
    ensures reply { HoldsAccess into.new kind key value }
    ensures kept { KeepsOtherFields into.old into.new }
{
    into.kind = kind;
    into.table = key.table() as u32;
    into.number = key.id();
    match value {
        Some(value) => {
            into.found = 1;
            into.value = value;
        }
        None => into.found = 0,
    }
}

#[inline(never)]
fn write_committed(into: &mut SgtReply, answers: &Answers)
    ensures reply { HoldsReply into.new (reply.Committed answers.now) }
    ensures kept { KeepsOtherFields into.old into.new }
{
    let _few = answers.len();
    into.kind = 13;
    into.answers = write_answers(&mut into.answer, answers.as_slice());
}

#[inline(never)]
fn write_aborted(into: &mut SgtReply, cause: ShortCause, lists: &ReplyLists)
    ensures reply { HoldsReply into.new (reply.Aborted (full_cause cause lists.now.cycle) lists.now.fell) }
    ensures kept { KeepsOtherFields into.old into.new }
{
    into.kind = 14;
    write_cause(into, cause, &lists.cycle);
    into.fallen = write_tids(&mut into.fell, &lists.fell);
}

#[inline(never)]
fn write_refused(into: &mut SgtReply, code: u16, fell: &Tids)
    ensures reply { HoldsReply into.new (reply.Refused code fell.now) }
    ensures kept { KeepsOtherFields into.old into.new }
{
    into.kind = 15;
    into.code = code as u32;
    into.fallen = write_tids(&mut into.fell, fell);
}

#[inline(never)]
fn write_over(into: &mut SgtReply, fate: ShortFate, walk: &Tids)
    ensures reply { HoldsReply into.new (reply.Over (full_fate fate walk.now)) }
    ensures kept { KeepsOtherFields into.old into.new }
{
    into.kind = 7;
    match fate {
        ShortFate::Committed => into.cause = 0,
        ShortFate::Aborted(cause) => write_cause(into, cause, walk),
        ShortFate::Fell(first) => {
            into.cause = 4;
            into.tid = first.0;
        }
    }
}

fn write_cause(into: &mut SgtReply, cause: ShortCause, walk: &Tids)
    requires { has_cause into.old ≡ true }
    ensures cause { HoldsCause into.new (full_cause cause walk.now) }
    ensures kept { KeepsOtherFields into.old into.new }
    ensures same { (into.new.kind ≡ into.old.kind) × (into.new.fallen ≡ into.old.fallen) × (into.new.fell ≡ into.old.fell) }
{
    match cause {
        ShortCause::Cycle => {
            into.cause = 1;
            into.walked = write_tids(&mut into.walk, walk);
        }
        ShortCause::Asked(code) => {
            into.cause = 2;
            into.code = code as u32;
        }
        ShortCause::Quit => into.cause = 3,
    }
}

/// Writes answers, and returns how many there are. The items after them stay.
pub fn write_answers(to: &mut [i64; 8], answers: &[i64]) -> u32
    requires { length answers.now ≤ 8 }
    ensures answers { take result to.new ≡ answers.now }
    ensures rest { drop result to.new ≡ drop result to.old }
{
    let count = answers.len();
    for i in 0..count {
        to[i] = answers[i];
    }
    count as u32
}

/// Writes numbers of transactions, and returns how many there are. The items after them stay.
pub fn write_tids(to: &mut [u32; 32], tids: &Tids) -> u32
    ensures tids { take result to.new ≡ tids.now }
    ensures count { result ≡ length tids.now }
    ensures rest { drop result to.new ≡ drop result to.old }
{
    let count = tids.len();
    for i in 0..count {
        let t = tids.as_slice()[i];
        to[i] = t.0;
    }
    count as u32
}

/// The reply that the fields say, if they say one.
#[tactic(auto, using(crate::proofs::Readings::reply_reads))]
pub fn reply_of(fields: &SgtReply) -> Option<Reply>
    ensures valid { IfSome result (HoldsValidReply fields.now) }
    ensures only { (r : Reply) → HoldsValidReply fields.now r → result ≡ Some r }
{
    read_reply(fields)
}

fn read_reply(fields: &SgtReply) -> Option<Reply>
    ensures value { result ≡ reply_in fields.now }
    ensures valid { IfSome result (HoldsValidReply fields.now) }
{
    match fields.kind {
        1 => Some(Reply::Started(Tid(fields.tid))),
        2 => Some(Reply::NoProcedure),
        3 => Some(Reply::BadArgs),
        4 => Some(Reply::Spent),
        5 => Some(Reply::Full),
        6 => Some(Reply::Unknown),
        7 => Some(Reply::Over(read_fate(fields)?)),
        8 => Some(Reply::Looked {
            key: read_key(fields)?,
            value: read_found(fields)?,
        }),
        9 => Some(Reply::Wrote {
            key: read_key(fields)?,
            value: read_found(fields)?,
        }),
        10 => Some(Reply::Ended),
        11 => Some(Reply::NotEnded),
        12 => Some(Reply::Waits(Tid(fields.tid))),
        13 => Some(Reply::Committed(read_answers(&fields.answer, fields.answers))),
        14 => Some(Reply::Aborted {
            cause: read_cause(fields)?,
            fell: read_tids(&fields.fell, fields.fallen),
        }),
        15 => Some(Reply::Refused {
            code: read_code(fields)?,
            fell: read_tids(&fields.fell, fields.fallen),
        }),
        _ => None,
    }
}

fn read_key(fields: &SgtReply) -> Option<Key>
    ensures value { result ≡ key_in fields.now }
    ensures key { IfSome result (λ key. (fields.now.table ≡ key.0) × (fields.now.number ≡ key.1)) }
{
    if fields.table > 7 {
        return None;
    }
    Key::new(fields.table as u8, fields.number)
}

fn read_found(fields: &SgtReply) -> Option<Option<i64>>
    ensures value { result ≡ found_in fields.now }
    ensures valid { IfSome result (HoldsFound fields.now) }
{
    match fields.found {
        0 => Some(None),
        1 => Some(Some(fields.value)),
        _ => None,
    }
}

fn read_fate(fields: &SgtReply) -> Option<Fate>
    ensures value { result ≡ fate_in fields.now }
    ensures valid { IfSome result (λ fate. HoldsFate fields.now fate × IsFate fate) }
{
    match fields.cause {
        0 => Some(Fate::Committed),
        4 => Some(Fate::Fell(Tid(fields.tid))),
        _ => Some(Fate::Aborted(read_cause(fields)?)),
    }
}

fn read_cause(fields: &SgtReply) -> Option<Cause>
    ensures value { result ≡ cause_in fields.now }
    ensures valid { IfSome result (λ cause. HoldsCause fields.now cause × IsCause cause) }
{
    match fields.cause {
        1 => Some(Cause::Cycle(read_tids(&fields.walk, fields.walked))),
        2 => Some(Cause::Asked(read_code(fields)?)),
        3 => Some(Cause::Quit),
        _ => None,
    }
}

fn read_code(fields: &SgtReply) -> Option<u16>
    ensures value { result ≡ code_in fields.now }
    ensures code { IfSome result (λ code. (fields.now.code ≡ code) × (code ≤ 65535)) }
{
    if fields.code <= 65_535 {
        Some(fields.code as u16)
    } else {
        None
    }
}

fn read_answers(from: &[i64; 8], count: u32) -> Answers
    ensures { result ≡ take count from.now }
{
    let count = (count as usize).min(8);
    match Answers::from_slice(&from[..count]) {
        Some(answers) => answers,
        None => unreachable!(),
    }
}

fn read_tids(from: &[u32; 32], count: u32) -> Tids
    ensures { result ≡ take count from.now }
{
    let count = (count as usize).min(32);
    let mut tids = Tids::new();
    for i in 0..count {
        tids.push(Tid(from[i]));
    }
    tids
}

/// The outcome of a run, for C: the number of its transaction, or 0 if none was started; 1 if one of its steps wrote, and
/// else 0; and its last reply.
#[repr(C)]
#[derive(Drop)]
pub struct SgtOutcome {
    pub tid: u32,
    pub wrote: u32,
    pub reply: SgtReply,
}

/// Writes an outcome for C, with the lists of its last reply.
pub fn write_outcome(into: &mut SgtOutcome, outcome: &Outcome, lists: &ReplyLists)
    ensures tid { IsNumberReported outcome.now.started 0 into.new.tid }
    ensures wrote { into.new.wrote ≡ cond outcome.now.wrote 1 0 }
    ensures reply { HoldsReply into.new.reply (reply_with outcome.now.last lists.now) }
    ensures kept { KeepsOtherFields into.old.reply into.new.reply }
{
    into.tid = match outcome.started {
        Some(t) => t.0,
        None => 0,
    };
    into.wrote = u32::from(outcome.wrote);
    write_reply(&mut into.reply, &outcome.last, lists);
}
