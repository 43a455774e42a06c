//! A reply in few bytes, as the history stores it.
ghost use Rattle.std.specs.Prelude.{◌≡◌, ◌+◌, ◌≤◌, ◌↔◌, ℕ, ℤ, List, IsTrue, length, vec_len, vec_capacity};
ghost use Rattle.sgt_model.specs.Numbers.{IsValue};
ghost use Rattle.sgt_model.specs.declared.reply.Reply.TheVariants.{Over, Aborted};
ghost use Rattle.sgt_model.specs.declared.short_reply.ShortReply.TheVariants.{Looked, Wrote};
ghost use Rattle.sgt_model.specs.Questions.{refuses_start};
ghost use Rattle.sgt_model.specs.ShortReplies.{full_cause, full_fate, full_reply, cause_cycle, fate_cycle, answers_in, cycle_of_reply, fell_in};
ghost use Rattle.sgt_log.specs.Spans.{part_of, HasMore, IsWithin};
ghost use Rattle.sgt_log.specs.StoredEntries.{short_of, reply_of, answers_at, cycle_at, fell_at, IsReply, HasKey, HasNoLists};
ghost use Rattle.sgt_log.specs.EntryParts.{AreFew};

use crate::entry_lists::EntryLists;
use crate::key_of::key_of;
use crate::span::Span;
use sgt_model::{Key, Reply, ShortCause, ShortFate, ShortReply, Tid};

/// A reply. Answers are in the list of values; paths and those aborted in cascade are in the list of transactions. A list is
/// named by its first index and its number of items.
#[derive(Clone, Copy, PartialEq, Eq)]
pub enum StoredReply {
    Started(Tid),
    NoProcedure,
    BadArgs,
    Spent,
    Full,
    Unknown,
    Over {
        fate: ShortFate,
        count: u8,
        from: usize,
    },
    Looked {
        table: u8,
        id: i64,
        value: i64,
    },
    /// A read that found no value.
    Missed {
        table: u8,
        id: i64,
    },
    Wrote {
        table: u8,
        id: i64,
        value: i64,
    },
    /// A write of no value: the record was removed.
    Removed {
        table: u8,
        id: i64,
    },
    Ended,
    NotEnded,
    Waits(Tid),
    Committed {
        count: u8,
        from: usize,
    },
    Aborted {
        cause: ShortCause,
        cycle: u8,
        fell: u8,
        cycle_from: usize,
        fell_from: usize,
    },
    Refused {
        code: u16,
        count: u8,
        from: usize,
    },
}

// It takes as few bytes as a read's fields.
const _: () = prove!(size_of::<StoredReply>() == 24);

impl StoredReply {
    /// The stored form of a reply with these lists. They are appended to those of transactions and of values, which have
    /// capacity for them.
    pub fn of(
        reply: &ShortReply,
        lists: &EntryLists<'_>,
        tids: &mut Vec<Tid>,
        values: &mut Vec<i64>,
    ) -> Self
        requires few { AreFew lists.now }
        requires tids { vec_len tids.old + 64 ≤ vec_capacity tids.old }
        requires values { vec_len values.old + 8 ≤ vec_capacity values.old }
        ensures reply { reply_of tids.new.items values.new.items result ≡ full_reply reply.now lists.now.answers.now lists.now.cycle.now lists.now.fell.now }
        ensures within { IsReply (length tids.new.items) (length values.new.items) result }
        ensures more_tids { HasMore tids.old.items tids.new.items }
        ensures more_values { HasMore values.old.items values.new.items }
        ensures len_tids { vec_len tids.new ≤ vec_len tids.old + 64 }
        ensures len_values { vec_len values.new ≤ vec_len values.old + 8 }
        ensures capacity_tids { vec_capacity tids.new ≡ vec_capacity tids.old }
        ensures capacity_values { vec_capacity values.new ≡ vec_capacity values.old }
    {
        match reply {
            ShortReply::Started(t) => StoredReply::Started(*t),
            ShortReply::NoProcedure => StoredReply::NoProcedure,
            ShortReply::BadArgs => StoredReply::BadArgs,
            ShortReply::Spent => StoredReply::Spent,
            ShortReply::Full => StoredReply::Full,
            ShortReply::Unknown => StoredReply::Unknown,
            ShortReply::Over(fate) => {
                let path = Span::append(tids, fate_path(fate, lists.cycle));
                StoredReply::Over {
                    fate: *fate,
                    count: path.count,
                    from: path.from,
                }
            }
            ShortReply::Looked { key, value } => StoredReply::looked(key, value),
            ShortReply::Wrote { key, value } => StoredReply::wrote(key, value),
            ShortReply::Ended => StoredReply::Ended,
            ShortReply::NotEnded => StoredReply::NotEnded,
            ShortReply::Waits(first) => StoredReply::Waits(*first),
            ShortReply::Committed => {
                let part = Span::append(values, lists.answers);
                StoredReply::Committed {
                    count: part.count,
                    from: part.from,
                }
            }
            ShortReply::Aborted(cause) => {
                let path = Span::append(tids, cause_path(cause, lists.cycle));
                let cascade = Span::append(tids, lists.fell);
                StoredReply::Aborted {
                    cause: *cause,
                    cycle: path.count,
                    fell: cascade.count,
                    cycle_from: path.from,
                    fell_from: cascade.from,
                }
            }
            ShortReply::Refused(code) => {
                let part = Span::append(tids, lists.fell);
                StoredReply::Refused {
                    code: *code,
                    count: part.count,
                    from: part.from,
                }
            }
        }
    }

    /// A read, with its value if it found one.
    #[inline]
    pub fn looked(key: &Key, value: &Option<i64>) -> Self
        ensures short { short_of result ≡ Looked key.now value.now }
        ensures plain { HasNoLists result }
        ensures key { HasKey result }
    {
        let table = key.table();
        let id = key.id();
        match value {
            Some(value) => StoredReply::Looked {
                table,
                id,
                value: *value,
            },
            None => StoredReply::Missed { table, id },
        }
    }

    /// A write, with its value if it did not remove the record.
    #[inline]
    pub fn wrote(key: &Key, value: &Option<i64>) -> Self
        ensures short { short_of result ≡ Wrote key.now value.now }
        ensures plain { HasNoLists result }
        ensures key { HasKey result }
    {
        let table = key.table();
        let id = key.id();
        match value {
            Some(value) => StoredReply::Wrote {
                table,
                id,
                value: *value,
            },
            None => StoredReply::Removed { table, id },
        }
    }

    /// Whether it answers a start that starts nothing.
    pub fn refuses_start(&self) -> bool
        ensures { (tids : List ℕ) (values : List ℤ) → result ≡ refuses_start (reply_of tids values self.now) }
    {
        matches!(
            self,
            StoredReply::NoProcedure | StoredReply::BadArgs | StoredReply::Spent | StoredReply::Full
        )
    }

    /// Whether it is of a kind that has no lists.
    fn is_plain(&self) -> bool
        ensures { IsTrue result → HasNoLists self.now }
    {
        !matches!(
            self,
            StoredReply::Over { .. }
                | StoredReply::Committed { .. }
                | StoredReply::Aborted { .. }
                | StoredReply::Refused { .. }
        )
    }

    /// Whether both are of a kind that has no lists, and the same.
    #[inline(never)]
    pub fn is_same_plain(&self, other: &Self) -> bool
        ensures { IsTrue result → HasNoLists self.now × (self.now ≡ other.now) }
    {
        self.is_plain() && self == other
    }

    /// The reply without its lists.
    pub fn short(&self) -> ShortReply
        requires { HasKey self.now }
        ensures { result ≡ short_of self.now }
    {
        match self {
            StoredReply::Started(t) => ShortReply::Started(*t),
            StoredReply::NoProcedure => ShortReply::NoProcedure,
            StoredReply::BadArgs => ShortReply::BadArgs,
            StoredReply::Spent => ShortReply::Spent,
            StoredReply::Full => ShortReply::Full,
            StoredReply::Unknown => ShortReply::Unknown,
            StoredReply::Over { fate, .. } => ShortReply::Over(*fate),
            StoredReply::Looked { table, id, value } => ShortReply::Looked {
                key: key_of(*table, *id),
                value: Some(*value),
            },
            StoredReply::Missed { table, id } => ShortReply::Looked {
                key: key_of(*table, *id),
                value: None,
            },
            StoredReply::Wrote { table, id, value } => ShortReply::Wrote {
                key: key_of(*table, *id),
                value: Some(*value),
            },
            StoredReply::Removed { table, id } => ShortReply::Wrote {
                key: key_of(*table, *id),
                value: None,
            },
            StoredReply::Ended => ShortReply::Ended,
            StoredReply::NotEnded => ShortReply::NotEnded,
            StoredReply::Waits(first) => ShortReply::Waits(*first),
            StoredReply::Committed { .. } => ShortReply::Committed,
            StoredReply::Aborted { cause, .. } => ShortReply::Aborted(*cause),
            StoredReply::Refused { code, .. } => ShortReply::Refused(*code),
        }
    }

    /// The answers of a commit. A reply of another kind has none.
    pub fn answers<'a>(&self, values: &'a [i64]) -> &'a [i64]
        requires { IsWithin (length values.now) (answers_at self.now) }
        ensures part { result.now ≡ part_of values.now (answers_at self.now) }
        ensures answers { (tids : List ℕ) → result.now ≡ answers_in (reply_of tids values.now self.now) }
    {
        match self {
            StoredReply::Committed { count, from } => Span::new(*from, *count).items(values),
            _ => &[],
        }
    }

    /// The path of the cycle that it reports, if any.
    pub fn cycle<'a>(&self, tids: &'a [Tid]) -> &'a [Tid]
        requires { IsWithin (length tids.now) (cycle_at self.now) }
        ensures same { (answers : List ℤ) (fell : List ℕ) → full_reply (short_of self.now) answers result.now fell
            ≡ full_reply (short_of self.now) answers (part_of tids.now (cycle_at self.now)) fell }
        ensures cycle { (values : List ℤ) → result.now ≡ cycle_of_reply (reply_of tids.now values self.now) }
        ensures few { length result.now ≤ 32 }
    {
        match self {
            StoredReply::Over { fate, count, from } => {
                fate_path(fate, Span::new(*from, *count).items(tids))
            }
            StoredReply::Aborted {
                cause,
                cycle,
                cycle_from,
                ..
            } => cause_path(cause, Span::new(*cycle_from, *cycle).items(tids)),
            _ => &[],
        }
    }

    /// Those aborted in cascade with the transaction that it ends, rising.
    pub fn fell<'a>(&self, tids: &'a [Tid]) -> &'a [Tid]
        requires { IsWithin (length tids.now) (fell_at self.now) }
        ensures part { result.now ≡ part_of tids.now (fell_at self.now) }
        ensures fell { (values : List ℤ) → result.now ≡ fell_in (reply_of tids.now values self.now) }
        ensures few { length result.now ≤ 32 }
    {
        match self {
            StoredReply::Aborted {
                fell,
                fell_from,
                ..
            } => Span::new(*fell_from, *fell).items(tids),
            StoredReply::Refused { count, from, .. } => Span::new(*from, *count).items(tids),
            _ => &[],
        }
    }

    /// The reply in full.
    pub fn in_full(&self, tids: &[Tid], values: &[i64]) -> Reply
        requires { IsReply (length tids.now) (length values.now) self.now }
        ensures { result ≡ reply_of tids.now values.now self.now }
    {
        self.short()
            .in_full(self.answers(values), self.cycle(tids), self.fell(tids))
    }
}

// The path of a cause: no items if it is no cycle.
fn cause_path<'a>(cause: &ShortCause, cycle: &'a [Tid]) -> &'a [Tid]
    ensures path { result.now ≡ cause_cycle (full_cause cause.now cycle.now) }
    ensures same { full_cause cause.now result.now ≡ full_cause cause.now cycle.now }
    ensures few { length result.now ≤ length cycle.now }
{
    match cause {
        ShortCause::Cycle => cycle,
        ShortCause::Asked(_) | ShortCause::Quit => &[],
    }
}

// The path of a fate: no items if it is no abort by a cycle.
fn fate_path<'a>(fate: &ShortFate, cycle: &'a [Tid]) -> &'a [Tid]
    ensures path { result.now ≡ fate_cycle (full_fate fate.now cycle.now) }
    ensures same { full_fate fate.now result.now ≡ full_fate fate.now cycle.now }
    ensures few { length result.now ≤ length cycle.now }
{
    match fate {
        ShortFate::Aborted(cause) => cause_path(cause, cycle),
        ShortFate::Committed | ShortFate::Fell(_) => &[],
    }
}
