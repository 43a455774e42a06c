//! A reply without its lists, which is small and copied freely, and the lists beside it.
ghost use Rattle.std.specs.Prelude.{◌≡◌, ◌≤◌, ◌↔◌, ℕ, ℤ, List, [], length, IsTrue};
ghost use Rattle.sgt_model.specs.ShortReplies.{full_cause, full_fate, full_reply, short_cause, short_fate, short_reply, answers_in, cycle_of_reply, fell_in, holds_lists, no_lists};

use crate::event::Answers;
use crate::key::Key;
use crate::reply::{Cause, Fate, Reply};
use crate::tid::Tid;
use crate::tids::Tids;

/// Why a transaction was aborted, without the path of a cycle.
#[derive(Clone, Copy, Debug, PartialEq, Eq)]
pub enum ShortCause {
    Cycle,
    Asked(u16),
    Quit,
}

/// How a transaction ended, without the path of a cycle.
#[derive(Clone, Copy, Debug, PartialEq, Eq)]
pub enum ShortFate {
    Committed,
    Aborted(ShortCause),
    Fell(Tid),
}

/// A reply without its lists: its kind with its numbers. [`Reply`] says what each kind means.
#[derive(Clone, Copy, Debug, PartialEq, Eq)]
pub enum ShortReply {
    Started(Tid),
    NoProcedure,
    BadArgs,
    Spent,
    Full,
    Unknown,
    Over(ShortFate),
    Looked { key: Key, value: Option<i64> },
    Wrote { key: Key, value: Option<i64> },
    Ended,
    NotEnded,
    Waits(Tid),
    Committed,
    Aborted(ShortCause),
    Refused(u16),
}

/// The lists of a reply. A list that the reply's kind does not have is not looked at, whatever it holds.
#[derive(Debug, Drop, PartialEq, Eq)]
pub struct ReplyLists {
    /// The answers of a commit.
    pub answers: Answers,
    /// The path of a cycle.
    pub cycle: Tids,
    /// Those aborted in cascade, rising.
    pub fell: Tids,
}

impl ReplyLists {
    /// Whether both are the same.
    pub fn is_same(&self, other: &Self) -> bool
        ensures { IsTrue result ↔ (self.now ≡ other.now) }
    {
        self == other
    }

    /// Empty lists.
    pub fn new() -> Self
        ensures { result ≡ no_lists }
    {
        ReplyLists {
            answers: Answers::new(),
            cycle: Tids::new(),
            fell: Tids::new(),
        }
    }
}

impl ShortCause {
    /// The cause with this path.
    pub fn in_full(&self, cycle: &[Tid]) -> Cause
        requires { length cycle.now ≤ 32 }
        ensures { result ≡ full_cause self.now cycle.now }
    {
        match self {
            ShortCause::Cycle => Cause::Cycle(tids_of(cycle)),
            ShortCause::Asked(code) => Cause::Asked(*code),
            ShortCause::Quit => Cause::Quit,
        }
    }
}

impl ShortFate {
    /// The fate with this path.
    pub fn in_full(&self, cycle: &[Tid]) -> Fate
        requires { length cycle.now ≤ 32 }
        ensures { result ≡ full_fate self.now cycle.now }
    {
        match self {
            ShortFate::Committed => Fate::Committed,
            ShortFate::Aborted(cause) => Fate::Aborted(cause.in_full(cycle)),
            ShortFate::Fell(first) => Fate::Fell(*first),
        }
    }
}

impl ShortReply {
    /// The reply with these lists. It allocates nothing.
    pub fn with_lists(&self, lists: &ReplyLists) -> Reply
        ensures { result ≡ full_reply self.now lists.now.answers lists.now.cycle lists.now.fell }
    {
        // Their lengths, which say to the proof that the lists are short enough.
        let _answers = lists.answers.len();
        let _cycle = lists.cycle.len();
        let _fell = lists.fell.len();
        self.in_full(
            lists.answers.as_slice(),
            lists.cycle.as_slice(),
            lists.fell.as_slice(),
        )
    }

    /// The reply with these answers, this path of a cycle, and these transactions aborted in cascade. It allocates nothing.
    pub fn in_full(&self, answers: &[i64], cycle: &[Tid], fell: &[Tid]) -> Reply
        requires answers { length answers.now ≤ 8 }
        requires cycle { length cycle.now ≤ 32 }
        requires fell { length fell.now ≤ 32 }
        ensures { result ≡ full_reply self.now answers.now cycle.now fell.now }
    {
        match self {
            ShortReply::Started(t) => Reply::Started(*t),
            ShortReply::NoProcedure => Reply::NoProcedure,
            ShortReply::BadArgs => Reply::BadArgs,
            ShortReply::Spent => Reply::Spent,
            ShortReply::Full => Reply::Full,
            ShortReply::Unknown => Reply::Unknown,
            ShortReply::Over(fate) => Reply::Over(fate.in_full(cycle)),
            ShortReply::Looked { key, value } => Reply::Looked {
                key: *key,
                value: *value,
            },
            ShortReply::Wrote { key, value } => Reply::Wrote {
                key: *key,
                value: *value,
            },
            ShortReply::Ended => Reply::Ended,
            ShortReply::NotEnded => Reply::NotEnded,
            ShortReply::Waits(first) => Reply::Waits(*first),
            ShortReply::Committed => Reply::Committed(answers_of(answers)),
            ShortReply::Aborted(cause) => Reply::Aborted {
                cause: cause.in_full(cycle),
                fell: tids_of(fell),
            },
            ShortReply::Refused(code) => Reply::Refused {
                code: *code,
                fell: tids_of(fell),
            },
        }
    }

    /// Whether it is of a kind that has lists, or may have: `Over`, `Committed`, `Aborted` or `Refused`. The others are the same
    /// whatever the lists are.
    #[inline(always)]
    pub fn has_lists(&self) -> bool
        ensures { result ≡ holds_lists self.now }
    {
        matches!(
            self,
            ShortReply::Over(_)
                | ShortReply::Committed
                | ShortReply::Aborted(_)
                | ShortReply::Refused(_)
        )
    }

    /// Whether both are the same.
    pub fn is_same(&self, other: &Self) -> bool
        ensures { IsTrue result ↔ (self.now ≡ other.now) }
    {
        self == other
    }
}

impl Cause {
    /// The cause without its path.
    pub fn in_short(&self) -> ShortCause
        ensures { result ≡ short_cause self.now }
    {
        match self {
            Cause::Cycle(_) => ShortCause::Cycle,
            Cause::Asked(code) => ShortCause::Asked(*code),
            Cause::Quit => ShortCause::Quit,
        }
    }
}

impl Fate {
    /// The fate without its path.
    pub fn in_short(&self) -> ShortFate
        ensures { result ≡ short_fate self.now }
    {
        match self {
            Fate::Committed => ShortFate::Committed,
            Fate::Aborted(cause) => ShortFate::Aborted(cause.in_short()),
            Fate::Fell(first) => ShortFate::Fell(*first),
        }
    }
}

impl Reply {
    /// The reply without its lists.
    pub fn in_short(&self) -> ShortReply
        ensures { result ≡ short_reply self.now }
    {
        match self {
            Reply::Started(t) => ShortReply::Started(*t),
            Reply::NoProcedure => ShortReply::NoProcedure,
            Reply::BadArgs => ShortReply::BadArgs,
            Reply::Spent => ShortReply::Spent,
            Reply::Full => ShortReply::Full,
            Reply::Unknown => ShortReply::Unknown,
            Reply::Over(fate) => ShortReply::Over(fate.in_short()),
            Reply::Looked { key, value } => ShortReply::Looked {
                key: *key,
                value: *value,
            },
            Reply::Wrote { key, value } => ShortReply::Wrote {
                key: *key,
                value: *value,
            },
            Reply::Ended => ShortReply::Ended,
            Reply::NotEnded => ShortReply::NotEnded,
            Reply::Waits(first) => ShortReply::Waits(*first),
            Reply::Committed(_) => ShortReply::Committed,
            Reply::Aborted { cause, .. } => ShortReply::Aborted(cause.in_short()),
            Reply::Refused { code, .. } => ShortReply::Refused(*code),
        }
    }

    /// The lists of the reply; those that it does not have are empty. It allocates nothing.
    pub fn lists(&self) -> ReplyLists
        ensures answers { result.answers ≡ answers_in self.now }
        ensures cycle { result.cycle ≡ cycle_of_reply self.now }
        ensures fell { result.fell ≡ fell_in self.now }
        ensures whole { full_reply (short_reply self.now) result.answers result.cycle result.fell ≡ self.now }
    {
        let mut lists = ReplyLists::new();
        match self {
            Reply::Committed(answers) => lists.answers = answers.copied(),
            Reply::Over(Fate::Aborted(Cause::Cycle(cycle))) => lists.cycle = cycle.copied(),
            Reply::Aborted { cause, fell } => {
                if let Cause::Cycle(cycle) = cause {
                    lists.cycle = cycle.copied();
                }
                lists.fell = fell.copied();
            }
            Reply::Refused { fell, .. } => lists.fell = fell.copied(),
            _ => (),
        }
        lists
    }
}

/// The list of these answers.
pub fn answers_of(items: &[i64]) -> Answers
    requires { length items.now ≤ 8 }
    ensures { result ≡ items.now }
{
    match Answers::from_slice(items) {
        Some(answers) => answers,
        None => unreachable!(),
    }
}

/// The list of these transactions.
pub fn tids_of(items: &[Tid]) -> Tids
    requires { length items.now ≤ 32 }
    ensures { result ≡ items.now }
{
    match Tids::from_slice(items) {
        Some(tids) => tids,
        None => unreachable!(),
    }
}
