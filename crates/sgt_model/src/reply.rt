//! Replies, how transactions end, and why they abort.
ghost use Rattle.std.specs.Prelude.{◌≡◌, ◌↔◌, IsTrue};
ghost use Rattle.sgt_model.specs.Questions.{started_number, refuses_start, is_wait, is_commit, is_raised, is_quit, is_ending, reports_end};

use crate::event::Answers;
use crate::key::Key;
use crate::tid::Tid;
use crate::tids::Tids;

/// Why a transaction was aborted.
#[derive(Debug, Drop, PartialEq, Eq)]
pub enum Cause {
    /// Its step would close a cycle in the serialization graph. The path begins with the transaction itself, follows edges, and
    /// ends with one whose earlier access conflicts with the step's. It names none twice.
    Cycle(Tids),
    /// Its procedure raised this code: 1 to 999 from its text, 1000 from arithmetic that gives no value.
    Asked(u16),
    /// Its caller requested the abort.
    Quit,
}

/// How a transaction ended.
#[derive(Debug, Drop, PartialEq, Eq)]
pub enum Fate {
    /// Its commit.
    Committed,
    /// An abort of its own, for this cause.
    Aborted(Cause),
    /// `Fell`: aborted in cascade. It had read from an aborted transaction, directly or through others. The number is
    /// that of the transaction whose abort started the cascade.
    Fell(Tid),
}

/// The answer to an event. NoProcedure, BadArgs, Spent, Full, Unknown, Over, NotEnded and Waits change nothing but the
/// history.
#[derive(Debug, Drop, PartialEq, Eq)]
pub enum Reply {
    /// The transaction was started, with this number.
    Started(Tid),
    /// No procedure has that number.
    NoProcedure,
    /// The number of arguments is not the procedure's, or one of them is no value.
    BadArgs,
    /// `Spent`: the most starts are used up.
    Spent,
    /// `Full`: as many transactions are live as the limits allow.
    Full,
    /// No transaction of that number was started.
    Unknown,
    /// The transaction has ended, in this way.
    Over(Fate),
    /// `Looked`: the step read this value of the record, or none. The value may not be committed yet.
    Looked { key: Key, value: Option<i64> },
    /// `Wrote`: the step wrote this value to the record, or removed the record.
    Wrote { key: Key, value: Option<i64> },
    /// The procedure is at its end, and nothing was done. If codes are reported at commit, a procedure that raises one is
    /// at its end too.
    Ended,
    /// The procedure is not at its end, so the transaction can't be committed yet.
    NotEnded,
    /// The commit must wait. This is the least live transaction with an edge to the one that would commit.
    Waits(Tid),
    /// The transaction is committed, with these answers.
    Committed(Answers),
    /// The transaction is aborted for this cause. The live ones that had read from it, directly or through others, are
    /// aborted in cascade: `fell`, rising.
    Aborted { cause: Cause, fell: Tids },
    /// The transaction is aborted at its commit, because its procedure raises this code and codes are reported at commit.
    /// The live ones that had read from it, directly or through others, are aborted in cascade: `fell`, rising.
    Refused { code: u16, fell: Tids },
}

impl Cause {
    /// A copy. It allocates nothing.
    pub fn copied(&self) -> Self
        ensures { result ≡ self.now }
    {
        match self {
            Cause::Cycle(cycle) => Cause::Cycle(cycle.copied()),
            Cause::Asked(code) => Cause::Asked(*code),
            Cause::Quit => Cause::Quit,
        }
    }
}

impl Fate {
    /// A copy. It allocates nothing.
    pub fn copied(&self) -> Self
        ensures { result ≡ self.now }
    {
        match self {
            Fate::Committed => Fate::Committed,
            Fate::Aborted(cause) => Fate::Aborted(cause.copied()),
            Fate::Fell(first) => Fate::Fell(*first),
        }
    }
}

impl Reply {
    /// A copy. It allocates nothing.
    pub fn copied(&self) -> Self
        ensures { result ≡ self.now }
    {
        match self {
            Reply::Started(t) => Reply::Started(*t),
            Reply::NoProcedure => Reply::NoProcedure,
            Reply::BadArgs => Reply::BadArgs,
            Reply::Spent => Reply::Spent,
            Reply::Full => Reply::Full,
            Reply::Unknown => Reply::Unknown,
            Reply::Over(fate) => Reply::Over(fate.copied()),
            Reply::Looked { key, value } => Reply::Looked {
                key: *key,
                value: *value,
            },
            Reply::Wrote { key, value } => Reply::Wrote {
                key: *key,
                value: *value,
            },
            Reply::Ended => Reply::Ended,
            Reply::NotEnded => Reply::NotEnded,
            Reply::Waits(first) => Reply::Waits(*first),
            Reply::Committed(answers) => Reply::Committed(answers.copied()),
            Reply::Aborted { cause, fell } => Reply::Aborted {
                cause: cause.copied(),
                fell: fell.copied(),
            },
            Reply::Refused { code, fell } => Reply::Refused {
                code: *code,
                fell: fell.copied(),
            },
        }
    }

    /// Whether both are the same reply.
    pub fn is_same(&self, other: &Self) -> bool
        ensures { IsTrue result ↔ (self.now ≡ other.now) }
    {
        if !self.in_short().is_same(&other.in_short()) {
            return false;
        }
        self.lists().is_same(&other.lists())
    }

    /// The transaction that the reply starts, if any.
    pub fn started(&self) -> Option<Tid>
        ensures { result ≡ started_number self.now }
    {
        match self {
            Reply::Started(t) => Some(*t),
            _ => None,
        }
    }

    /// Whether it answers a start that starts nothing.
    pub fn refuses_start(&self) -> bool
        ensures { result ≡ refuses_start self.now }
    {
        matches!(
            self,
            Reply::NoProcedure | Reply::BadArgs | Reply::Spent | Reply::Full
        )
    }

    /// Whether it says that a commit must wait.
    pub fn is_wait(&self) -> bool
        ensures { result ≡ is_wait self.now }
    {
        matches!(self, Reply::Waits(_))
    }

    /// Whether it commits a transaction.
    pub fn is_commit(&self) -> bool
        ensures { result ≡ is_commit self.now }
    {
        matches!(self, Reply::Committed(_))
    }

    /// Whether it aborts a transaction whose procedure raised a code, at the step or at the commit.
    pub fn is_raised(&self) -> bool
        ensures { result ≡ is_raised self.now }
    {
        match self {
            Reply::Aborted { cause, .. } => matches!(cause, Cause::Asked(_)),
            Reply::Refused { .. } => true,
            _ => false,
        }
    }

    /// Whether it aborts a transaction on its caller's request.
    pub fn is_quit(&self) -> bool
        ensures { result ≡ is_quit self.now }
    {
        match self {
            Reply::Aborted { cause, .. } => matches!(cause, Cause::Quit),
            _ => false,
        }
    }

    /// Whether it ends a live transaction, by a commit or an abort.
    pub fn is_ending(&self) -> bool
        ensures { result ≡ is_ending self.now }
    {
        matches!(
            self,
            Reply::Committed(_) | Reply::Aborted { .. } | Reply::Refused { .. }
        )
    }

    /// Whether, as the reply to a step or a commit, it reports that the transaction has ended, now or before.
    pub fn reports_end(&self) -> bool
        ensures { result ≡ reports_end self.now }
    {
        matches!(
            self,
            Reply::Aborted { .. } | Reply::Refused { .. } | Reply::Committed(_) | Reply::Over(_)
        )
    }
}
