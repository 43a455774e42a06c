//! The base of every crate of `sgt`, an in-memory transaction engine that schedules by serialization graph testing.
//! It says what procedures, transactions, events, replies and databases are, which histories are legal, and what is true of
//! every legal history.
//!
//! A transaction runs one procedure, one access at a time, and then makes the accesses on which its caller decides. An
//! [`Event`] starts it, lets it make its next access or the caller's, commits it or aborts it, and is answered by a
//! [`Reply`]. The two are an [`Entry`]; the entries in order are the history. In a legal history, each reply is one
//! that its event may get after the entries before it, by the rules of `specs/Legality.antt`. [`callers_run_alone`] and
//! [`headline_holds`] follow from these rules alone: a legal history is serializable in commit order, whatever programs
//! its callers are, and each of its aborts has its cause.
//!
//! It is no engine: nothing here schedules, stores transactions, or checks and runs procedures. Its code makes,
//! compares and copies plain values. The functions of `laws`, `left` and `refinement` do nothing:
//! the contract of each is a law that any caller may use.
//!
//! `specs/` holds the definitions that contracts cite, in four parts. Read them in the order of `specs/Lib.antt`:
//!
//! 1. What a reader has to trust: the 24 files that `Legal`, `Headline` and `CallersRunAlone` rest on, from `Numbers` to
//!    `Callers`.
//! 2. Terms of single contracts: `Bounds`, `Databases`, `ProcedureTexts`, `Codes`, `Histories`, `Questions`, `ShortReplies`.
//! 3. Laws, proved from the definitions of part 1: from `Admissions` to `ExecutedReplay`.
//! 4. The state that a scheduler stores in place of the history, what its calls do to it, and why that is legal. This is
//!    proved from part 1 too: from `Left` to `Refinement`.
//!
//! The definitions read a history with its newest entry first. They follow Bernstein, Hadzilacos and Goodman,
//! *Concurrency Control and Recovery in Database Systems* (1987), chapters 1, 2 and 4. For the order of commits they follow
//! Durner and Neumann, *No False Negatives: Accepting All Useful Schedules in a Fast Serializable Many-Core System* (ICDE 2019).
//! `proofs/` has worked histories, proved legal, under `Examples..`, and wrong replies, proved not legal, under
//! `WrongReplies`.
//!
//! ```
//! // Record 101 of table 2 holds 1,000.
//! let mut opening = Database::empty(rt.alloc());
//! let key = Key::new(2, 101).unwrap();
//! opening.put(key, 1_000)?;
//!
//! // Transaction 0 runs procedure 1 on it, and its first step reads the record.
//! let args = Args::from_slice([101, 50].as_slice()).unwrap();
//! let started = Entry {
//!     event: Event::Start { procedure: 1, args },
//!     reply: Reply::Started(Tid(0)),
//! };
//! let looked = Entry {
//!     event: Event::Step(Tid(0)),
//!     reply: Reply::Looked { key, value: opening.get(key) },
//! };
//! ```
#![tactic(auto)]

mod bounded;
mod call;
mod database;
mod entry;
mod errors;
mod event;
mod key;
mod kind;
mod laws;
mod left;
mod limits;
mod procedure;
mod refinement;
mod reply;
mod short_reply;
mod tid;
mod tids;

pub use bounded::Bounded;
pub use call::Call;
pub use database::Database;
pub use entry::Entry;
pub use errors::{MakeError, NoMemory};
pub use event::{Answers, Args, Event, Request};
pub use key::{Key, LAST_TABLE, LEAST, MOST, is_value};
pub use kind::Kind;
pub use laws::{
    aborts_have_cause, callers_run_alone, commit_order_is_total, commits_in_order,
    committed_are_admitted, headline_holds, histories_are_executed, histories_go_on,
    limits_are_kept, looks_agree_at_commit, no_pair_from_live, pairs_have_no_cycle,
    replay_is_serial, replays_hold_values, replies_are_unique, replies_name_few,
    replies_report_who_is_live, runs_are_traces, serial_is_execution, some_reply_is_legal,
    sources_commit_before_replies, sources_commit_first, sources_stand, writers_commit_in_order,
};
pub use left::{left_goes_on, next_is_of_left};
pub use limits::{Asks, Limits, MOST_BEGINS, MOST_LIVE};
pub use procedure::{Cond, EMPTY_PROCEDURE, Expr, Procedure, Statement};
pub use refinement::{calls_simulate, new_is_empty, nexts_agree, states_are_sound, verdicts_agree};
pub use reply::{Cause, Fate, Reply};
pub use short_reply::{ReplyLists, ShortCause, ShortFate, ShortReply, answers_of, tids_of};
pub use tid::Tid;
pub use tids::Tids;
