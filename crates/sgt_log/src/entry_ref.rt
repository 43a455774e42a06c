//! An entry, read in place in the history.
ghost use Rattle.std.specs.Prelude.{◌≡◌, ◌≤◌, ◌↔◌, false, length, IsTrue, None};
ghost use Rattle.std.specs.Option.{option_map};
ghost use Rattle.sgt_model.specs.declared.event.Event.TheVariants.{Start};
ghost use Rattle.sgt_model.specs.Fates.{is_start};
ghost use Rattle.sgt_model.specs.Progress.{call_in};
ghost use Rattle.sgt_model.specs.Questions.{called, named_by, started_in, over_in};
ghost use Rattle.sgt_model.specs.Questions.{refuses_start, is_wait, is_commit, is_raised, is_quit, is_ending, reports_end};
ghost use Rattle.sgt_model.specs.ShortReplies.{short_reply, cycle_of_reply, fell_in, answers_in};
ghost use Rattle.sgt_log.specs.EntryParts.{args_in, bare_event, full_entry, committed_in, is_by_cycle, reports_fall, is_access, AreFew, HasArgs};

use crate::bare::BareEvent;
use crate::entry_lists::EntryLists;
use crate::span::Span;
use crate::stored_entry::StoredEntry;
use crate::stored_event::StoredEvent;
use crate::stored_reply::StoredReply;
use sgt_model::{Answers, Call, Entry, Event, Reply, ShortCause, ShortFate, ShortReply, Tid};
use std::marker::Model;

/// An entry of a history, read in place. Contracts see it as the entry.
///
/// An [`Entry`] in full takes some 320 bytes, which are written each time that one is made. Most questions about an entry
/// are small, and answered here from its 40 bytes.
#[derive(Drop)]
pub struct EntryRef<'a> {
    pub(crate) stored: StoredEntry,
    // The lists of its history.
    pub(crate) tids: &'a [Tid],
    pub(crate) values: &'a [i64],
}

impl<'a> Model for EntryRef<'a> {
    ghost use Rattle.std.specs.Prelude.{length};
    ghost use Rattle.sgt_model.specs.declared.entry.Entry.{Entry};
    ghost use Rattle.sgt_log.specs.StoredEntries.{entry_of, IsEntry};

    ghost Value = { Entry };

    ghost view = { λ e. entry_of e.tids.now e.values.now e.stored };

    ghost invariant = { λ e. IsEntry (length e.tids.now) e.values.now e.stored };
}

impl<'a> EntryRef<'a> {
    /// The entry in full.
    pub fn in_full(&self) -> Entry
        ensures { result ≡ self.now }
    {
        Entry {
            event: self.event(),
            reply: self.reply(),
        }
    }

    /// Its event in full.
    pub fn event(&self) -> Event
        ensures { result ≡ self.now.event }
    {
        self.stored.event.in_full(self.values)
    }

    /// Its reply without the lists.
    pub fn short(&self) -> ShortReply
        ensures { result ≡ short_reply self.now.reply }
    {
        self.stored.reply.short()
    }

    /// Its reply in full.
    pub fn reply(&self) -> Reply
        ensures { result ≡ self.now.reply }
    {
        self.stored.reply.in_full(self.tids, self.values)
    }

    /// Whether both are the same entry, even of different histories.
    pub fn is_same(&self, other: &EntryRef<'_>) -> bool
        ensures { IsTrue result ↔ (self.now ≡ other.now) }
    {
        self.is_surely_same(other) || self.copied().is_same_in_all(&other.copied())
    }

    // A copy. If only a copy is passed to a call, the original is never written to memory.
    pub(crate) fn copied(&self) -> EntryRef<'a>
        ensures { result ≡ self.now }
    {
        EntryRef {
            stored: self.stored,
            tids: self.tids,
            values: self.values,
        }
    }

    // Whether both are the same entry, of a frequent kind. For other kinds the result means nothing.
    #[inline(always)]
    pub(crate) fn is_surely_same(&self, other: &EntryRef<'_>) -> bool
        ensures { IsTrue result → self.now ≡ other.now }
    {
        self.has_surely_same_event(other) && self.has_surely_same_reply(other)
    }

    // Whether the events are the same, of a frequent kind.
    #[inline(always)]
    fn has_surely_same_event(&self, other: &EntryRef<'_>) -> bool
        ensures { IsTrue result → self.now.event ≡ other.now.event }
    {
        match (&self.stored.event, &other.stored.event) {
            (StoredEvent::Step(t), StoredEvent::Step(u)) => t == u,
            (StoredEvent::Commit(t), StoredEvent::Commit(u)) => t == u,
            (
                StoredEvent::Start { procedure, .. },
                StoredEvent::Start {
                    procedure: another,
                    ..
                },
            ) => procedure == another && are_same_values(self.args(), other.args()),
            (
                StoredEvent::Access { kind, table, t, .. },
                StoredEvent::Access {
                    kind: other_kind,
                    table: other_table,
                    t: u,
                    ..
                },
            ) => {
                kind == other_kind
                    && table == other_table
                    && t == u
                    && are_same_values(self.args(), other.args())
            }
            _ => false,
        }
    }

    // Whether the replies are the same, of a frequent kind.
    #[inline(always)]
    fn has_surely_same_reply(&self, other: &EntryRef<'_>) -> bool
        ensures { IsTrue result → self.now.reply ≡ other.now.reply }
    {
        match (&self.stored.reply, &other.stored.reply) {
            (StoredReply::Started(t), StoredReply::Started(u)) => t == u,
            (StoredReply::Committed { .. }, StoredReply::Committed { .. }) => {
                are_same_values(self.answers(), other.answers())
            }
            (reply, another) => reply.is_same_plain(another),
        }
    }

    // Whether both are the same entry, of any kind.
    #[inline(never)]
    fn is_same_in_all(&self, other: &EntryRef<'_>) -> bool
        ensures { IsTrue result ↔ (self.now ≡ other.now) }
    {
        self.has_same_event(other)
            && self.has_same_reply(other)
            && self.has_same_values(other)
            && self.has_same_tids(other)
    }

    // Whether the events are the same, apart from the arguments.
    fn has_same_event(&self, other: &EntryRef<'_>) -> bool
        ensures { IsTrue result ↔ (bare_event self.now.event ≡ bare_event other.now.event) }
    {
        self.bare_event().is_same(&other.bare_event())
    }

    // Whether the replies are the same, apart from the items of their lists.
    fn has_same_reply(&self, other: &EntryRef<'_>) -> bool
        ensures { IsTrue result ↔ (short_reply self.now.reply ≡ short_reply other.now.reply) }
    {
        self.short().is_same(&other.short())
    }

    // Whether the lists of values have the same items.
    fn has_same_values(&self, other: &EntryRef<'_>) -> bool
        ensures { IsTrue result
            ↔ ((args_in self.now.event ≡ args_in other.now.event) × (answers_in self.now.reply ≡ answers_in other.now.reply)) }
    {
        are_same_values(self.args(), other.args())
            && are_same_values(self.answers(), other.answers())
    }

    // Whether the lists of transactions have the same items.
    fn has_same_tids(&self, other: &EntryRef<'_>) -> bool
        ensures { IsTrue result
            ↔ ((cycle_of_reply self.now.reply ≡ cycle_of_reply other.now.reply) × (fell_in self.now.reply ≡ fell_in other.now.reply)) }
    {
        are_same_tids(self.cycle(), other.cycle()) && are_same_tids(self.fell(), other.fell())
    }

    /// The transaction that its event names. A start names none.
    pub fn named(&self) -> Option<Tid>
        ensures { result ≡ named_by self.now.event }
    {
        match self.stored.event {
            StoredEvent::Start { .. } => None,
            StoredEvent::Step(t)
            | StoredEvent::Access { t, .. }
            | StoredEvent::Commit(t)
            | StoredEvent::Quit(t) => Some(t),
        }
    }

    /// The transaction that it starts, if any.
    pub fn started(&self) -> Option<Tid>
        ensures { result ≡ started_in self.now.event self.now.reply }
    {
        match (self.stored.event, self.stored.reply) {
            (StoredEvent::Start { .. }, StoredReply::Started(t)) => Some(t),
            _ => None,
        }
    }

    /// The transaction that it reports to be over, if any. It is not live any more. The transaction of a `Quit` never
    /// is, whatever the reply.
    pub fn over(&self) -> Option<Tid>
        ensures { result ≡ over_in self.now.event self.now.reply }
    {
        match self.stored.event {
            StoredEvent::Start { .. } => None,
            StoredEvent::Step(t) | StoredEvent::Access { t, .. } | StoredEvent::Commit(t) => {
                self.reports_end().then_some(t)
            }
            StoredEvent::Quit(t) => Some(t),
        }
    }

    /// Whether its reply, as that to a step or a commit, reports that the transaction has ended, now or before.
    fn reports_end(&self) -> bool
        ensures { result ≡ reports_end self.now.reply }
    {
        matches!(
            self.stored.reply,
            StoredReply::Aborted { .. }
                | StoredReply::Refused { .. }
                | StoredReply::Committed { .. }
                | StoredReply::Over { .. }
        )
    }

    /// Whether its reply starts a transaction.
    pub fn is_start(&self) -> bool
        ensures { result ≡ is_start self.now.reply }
    {
        matches!(self.stored.reply, StoredReply::Started(_))
    }

    /// Whether its reply answers a start that starts nothing.
    pub fn refuses_start(&self) -> bool
        ensures { result ≡ refuses_start self.now.reply }
    {
        self.stored.reply.refuses_start()
    }

    /// Whether its reply reports a read or a write.
    pub fn is_access(&self) -> bool
        ensures { result ≡ is_access self.now.reply }
    {
        matches!(
            self.stored.reply,
            StoredReply::Looked { .. }
                | StoredReply::Missed { .. }
                | StoredReply::Wrote { .. }
                | StoredReply::Removed { .. }
        )
    }

    /// Whether its reply says that a commit must wait.
    pub fn is_wait(&self) -> bool
        ensures { result ≡ is_wait self.now.reply }
    {
        matches!(self.stored.reply, StoredReply::Waits(_))
    }

    /// Whether it is a step, or an access on which a caller decided, that read, wrote or came to the procedure's end. Such an
    /// entry starts and ends no transaction, and reports no end.
    #[inline]
    pub fn is_progress(&self) -> bool
        ensures { IsTrue result → (started_in self.now.event self.now.reply ≡ None)
            × (over_in self.now.event self.now.reply ≡ None) × (is_ending self.now.reply ≡ false) }
    {
        matches!(
            self.stored.event,
            StoredEvent::Step(_) | StoredEvent::Access { .. }
        ) && matches!(
            self.stored.reply,
            StoredReply::Looked { .. }
                | StoredReply::Missed { .. }
                | StoredReply::Wrote { .. }
                | StoredReply::Removed { .. }
                | StoredReply::Ended
        )
    }

    /// Whether it commits a transaction.
    pub fn is_commit(&self) -> bool
        ensures { result ≡ is_commit self.now.reply }
    {
        matches!(self.stored.reply, StoredReply::Committed { .. })
    }

    /// Whether it aborts a transaction whose procedure raised a code, at the step or at the commit.
    pub fn is_raised(&self) -> bool
        ensures { result ≡ is_raised self.now.reply }
    {
        match self.stored.reply {
            StoredReply::Aborted { cause, .. } => matches!(cause, ShortCause::Asked(_)),
            StoredReply::Refused { .. } => true,
            _ => false,
        }
    }

    /// Whether it aborts a transaction on its caller's request.
    pub fn is_quit(&self) -> bool
        ensures { result ≡ is_quit self.now.reply }
    {
        match self.stored.reply {
            StoredReply::Aborted { cause, .. } => matches!(cause, ShortCause::Quit),
            _ => false,
        }
    }

    /// Whether it aborts a transaction whose step would close a cycle.
    pub fn is_by_cycle(&self) -> bool
        ensures { result ≡ is_by_cycle self.now.reply }
    {
        match self.stored.reply {
            StoredReply::Aborted { cause, .. } => matches!(cause, ShortCause::Cycle),
            _ => false,
        }
    }

    /// Whether it ends a live transaction, by a commit or an abort.
    pub fn is_ending(&self) -> bool
        ensures { result ≡ is_ending self.now.reply }
    {
        matches!(
            self.stored.reply,
            StoredReply::Committed { .. }
                | StoredReply::Aborted { .. }
                | StoredReply::Refused { .. }
        )
    }

    /// Whether its reply reports that the transaction was aborted in cascade before.
    pub fn reports_fall(&self) -> bool
        ensures { result ≡ reports_fall self.now.reply }
    {
        match self.stored.reply {
            StoredReply::Over { fate, .. } => matches!(fate, ShortFate::Fell(_)),
            _ => false,
        }
    }

    /// `fell`: those aborted in cascade with the transaction that it aborts, rising. None if it aborts none.
    pub fn fell(&self) -> &'a [Tid]
        ensures fell { result.now ≡ fell_in self.now.reply }
        ensures few { length result.now ≤ 32 }
    {
        self.stored.reply.fell(self.tids)
    }

    /// The path of the cycle that its reply reports. No transactions if it reports none.
    pub fn cycle(&self) -> &'a [Tid]
        ensures cycle { result.now ≡ cycle_of_reply self.now.reply }
        ensures few { length result.now ≤ 32 }
    {
        self.stored.reply.cycle(self.tids)
    }

    /// The answers of its commit. No values if it commits none.
    pub fn answers(&self) -> &'a [i64]
        ensures answers { result.now ≡ answers_in self.now.reply }
        ensures few { length result.now ≤ 8 }
    {
        self.stored.reply.answers(self.values)
    }

    /// The answers of its commit, if it commits a transaction.
    pub fn committed(&self) -> Option<Answers>
        ensures { result ≡ committed_in self.now.reply }
    {
        match self.stored.reply {
            StoredReply::Committed { count, from } => Some(Span::new(from, count).values(
                self.values,
            )),
            _ => None,
        }
    }

    /// The call with which it starts the transaction, if it does.
    pub fn call_of(&self, t: Tid) -> Option<Call>
        ensures { call_in self.now.event self.now.reply t ≡ option_map called result }
    {
        if self.started() != Some(t) {
            return None;
        }
        match self.event() {
            Event::Start { procedure, args } => Some(Call { procedure, args }),
            _ => None,
        }
    }

    /// Whether its event starts this procedure with these arguments.
    pub fn is_start_of(&self, procedure: u16, args: &[i64]) -> bool
        ensures { IsTrue result ↔ (self.now.event ≡ Start procedure args.now) }
    {
        match self.stored.event {
            StoredEvent::Start { procedure: own, .. } => {
                own == procedure && are_same_values(self.args(), args)
            }
            _ => false,
        }
    }

    // The arguments of its event.
    pub(crate) fn args(&self) -> &'a [i64]
        ensures args { result.now ≡ args_in self.now.event }
        ensures own { HasArgs (bare_event self.now.event) result.now }
        ensures few { length result.now ≤ 4 }
    {
        self.stored.event.args(self.values)
    }

    // Its event without the arguments.
    pub(crate) fn bare_event(&self) -> BareEvent
        ensures { result ≡ bare_event self.now.event }
    {
        self.stored.event.bare()
    }

    // Its lists.
    pub(crate) fn lists(&self) -> EntryLists<'a>
        ensures lists { full_entry (bare_event self.now.event) (short_reply self.now.reply) result ≡ self.now }
        ensures args { HasArgs (bare_event self.now.event) result.args.now }
        ensures few { AreFew result }
    {
        EntryLists {
            args: self.args(),
            answers: self.answers(),
            cycle: self.cycle(),
            fell: self.fell(),
        }
    }
}

// Whether both lists have the same items.
fn are_same_values(values: &[i64], others: &[i64]) -> bool
    ensures { IsTrue result ↔ (values.now ≡ others.now) }
{
    if values.len() != others.len() {
        return false;
    }
    // Most lists have one or two values.
    for i in 0..values.len() {
        if values[i] != others[i] {
            return false;
        }
    }
    true
}

// Whether both lists have the same items.
fn are_same_tids(tids: &[Tid], others: &[Tid]) -> bool
    ensures { IsTrue result ↔ (tids.now ≡ others.now) }
{
    tids == others
}
