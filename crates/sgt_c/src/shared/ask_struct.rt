//! The struct of a call under way, for C.
ghost use Rattle.std.specs.Prelude.{◌≡◌};
ghost use Rattle.sgt_c.specs.DeskStructs.{IsAsk, ask_in, deadline_in, deadline_of, reason_in, reason_of};

use sgt_desk::{Ask, Deadline, Reason};
use sgt_model::{ShortReply, Tid};

/// A call under way, as its thread keeps it from turn to turn. All bytes are zero before the first turn of a call without a deadline.
#[repr(C)]
#[derive(Drop)]
pub struct SgtAsk {
    /// 0: it rests as long as it takes. 1: it never rests. 2: it rests until `deadline`.
    pub until: u32,
    /// Why it rests: 0 for no reason, 1 its commit waits, 2 no room, 3 no end yet, 4 no cut may be made, 5 a call waits for a cut.
    pub reason: u32,
    /// In nanoseconds of the caller's clock.
    pub deadline: u64,
    /// Of the reason 2: how many are live; of 3: how many have ended; of 4: the part of the history.
    pub number: u64,
    /// Of the reason 1: the transaction that commits, and the one that it waits for.
    pub turn: u32,
    pub first: u32,
    /// Whether the desk counts it.
    pub is_counted: u32,
    pub spare: u32,
}

/// The call that a struct says. It has no reply.
#[inline(always)]
pub fn read_ask(ask: &SgtAsk) -> Ask
    ensures { result ≡ ask_in ask.now }
{
    Ask {
        deadline: read_deadline(ask),
        reason: read_reason(ask),
        is_counted: ask.is_counted == 1,
        reply: ShortReply::Unknown,
    }
}

fn read_deadline(ask: &SgtAsk) -> Deadline
    ensures { result ≡ deadline_in ask.now }
{
    match ask.until {
        1 => Deadline::AtOnce,
        2 => Deadline::At(ask.deadline),
        _ => Deadline::Never,
    }
}

fn read_reason(ask: &SgtAsk) -> Option<Reason>
    ensures { result ≡ reason_in ask.now }
{
    match ask.reason {
        1 => Some(Reason::Turn(Tid(ask.turn), Tid(ask.first))),
        2 => Some(Reason::Full(ask.number as usize)),
        3 => Some(Reason::End(ask.number)),
        4 => Some(Reason::Busy(ask.number)),
        5 => Some(Reason::Cut),
        _ => None,
    }
}

/// The struct of a call. It has no place for the reply.
#[inline(always)]
pub fn ask_struct(ask: &Ask) -> SgtAsk
    ensures { IsAsk result ask.now }
{
    let (until, deadline) = deadline_fields(ask.deadline);
    let (reason, number, turn, first) = reason_fields(&ask.reason);
    SgtAsk {
        until,
        reason,
        deadline,
        number,
        turn,
        first,
        is_counted: u32::from(ask.is_counted),
        spare: 0,
    }
}

/// The fields `until` and `deadline`.
fn deadline_fields(deadline: Deadline) -> (u32, u64)
    ensures { deadline_of result.0 result.1 ≡ deadline }
{
    match deadline {
        Deadline::Never => (0, 0),
        Deadline::AtOnce => (1, 0),
        Deadline::At(at) => (2, at),
    }
}

/// The fields `reason`, `number`, `turn` and `first`.
fn reason_fields(reason: &Option<Reason>) -> (u32, u64, u32, u32)
    ensures { reason_of result.0 result.1 result.2 result.3 ≡ reason.now }
{
    match reason {
        None => (0, 0, 0, 0),
        Some(Reason::Turn(t, first)) => (1, 0, t.0, first.0),
        Some(Reason::Full(count)) => (2, *count as u64, 0, 0),
        Some(Reason::End(ended)) => (3, *ended, 0, 0),
        Some(Reason::Busy(part)) => (4, *part, 0, 0),
        Some(Reason::Cut) => (5, 0, 0, 0),
    }
}
