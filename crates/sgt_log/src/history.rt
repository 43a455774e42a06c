//! The history: entries in few bytes, with the items of their lists.
ghost use Rattle.std.specs.Prelude.{◌≡◌, ℕ, ℤ, List, ◌+◌, ◌≤◌, ◌<◌, ◌↔◌, [], ◌∷◌, ◌++◌, length, take, min, reverse, slice_get};
ghost use Rattle.std.specs.Prelude.{IsTrue, Some, OnOk, OnErr, ◌*◌, ◌^◌, vec_len, vec_capacity};
ghost use Rattle.std.specs.Result.{IsOk};
ghost use Rattle.std.specs.Option.{option_map};
ghost use Rattle.sgt_model.specs.declared.entry.Entry.{Entry};
ghost use Rattle.sgt_model.specs.declared.event.Event.TheVariants.{Start, Step, Access, Commit};
ghost use Rattle.sgt_model.specs.declared.reply.Reply.TheVariants.{Started, Committed, Waits};
ghost use Rattle.sgt_model.specs.ShortReplies.{full_reply, reply_with};
ghost use Rattle.sgt_log.specs.StoredEntries.{short_of, HasNoLists, HasKey};
ghost use Rattle.sgt_log.specs.PackedEntries.{unpacked, step_entry, IsStep};
ghost use Rattle.sgt_log.specs.EntryParts.{full_entry, AreFew, HasArgs, IsQuiet};
ghost use Rattle.sgt_log.specs.StepKinds.{IsOfKind};

use crate::access_kind::request_args;
use crate::allocation::{FIRST, reserve_items};
use crate::bare::{BareEvent, args_of};
use crate::entry_list::EntryList;
use crate::entry_lists::EntryLists;
use crate::entry_ref::EntryRef;
use crate::packed_entry::PackedEntry;
use crate::span::Span;
use crate::step_kind::StepKind;
use crate::stored_entry::StoredEntry;
use crate::stored_event::StoredEvent;
use crate::stored_reply::StoredReply;
use sgt_model::{Entry, Event, NoMemory, Reply, ReplyLists, Request, ShortReply, Tid};
use std::alloc::Global;
use std::marker::Model;

/// The most transactions in the lists of one reply: a cycle of 32, and 32 that were aborted in cascade.
const MOST_TIDS: usize = 64;

/// The most values in the lists of one entry: 4 arguments, and 8 answers.
const MOST_VALUES: usize = 12;

/// How many entries of capacity an allocation adds beyond those that were requested, so that allocations are rare.
const AHEAD: usize = 64;

/// The most entries of capacity that can be counted, in the list that takes the most for each.
const MOST_SPARE: usize = usize::MAX / MOST_TIDS - AHEAD;

/// The entries of a history, oldest first. A step, a start or a commit takes 24 bytes, another entry 64. The items of its
/// lists take 4 bytes for each transaction, 8 for each value.
///
/// It has capacity for some more entries, of any kind. `reserve` adds capacity, and a `push` uses it without allocating.
#[derive(Drop)]
pub struct History {
    entries: EntryList,
    tids: Vec<Tid>,
    values: Vec<i64>,
    // How many more entries there is capacity for, in each list.
    spare: usize,
}

impl Model for History {
    ghost use Rattle.std.specs.Prelude.{◌+◌, ◌*◌, ◌≤◌, length, map};
    ghost use Rattle.std.specs.Vec.{vec_len, vec_capacity};
    ghost use Rattle.sgt_log.specs.HistoryView.{HistoryView};
    ghost use Rattle.sgt_log.specs.StoredEntries.{AreEntries, entry_of};

    ghost Value = { HistoryView };

    ghost view = { λ h. record {
      entries = map (entry_of h.tids.items h.values.items) h.entries.items;
      spare = h.spare;
      capacities = record { entries = h.entries.memory; tids = vec_capacity h.tids; values = vec_capacity h.values };
    } };

    ghost invariant = { λ h.
        AreEntries (length h.tids.items) h.values.items h.entries.items
        × (length h.entries.items + h.spare ≤ h.entries.capacity)
        × (vec_len h.tids + h.spare * 64 ≤ vec_capacity h.tids)
        × (vec_len h.values + h.spare * 12 ≤ vec_capacity h.values) };
}

impl History {
    /// No entries, and no capacity. It allocates nothing.
    pub fn new(alloc: Global) -> Self
        ensures entries { result.entries ≡ [] }
        ensures spare { result.spare ≡ 0 }
    {
        History {
            entries: EntryList::new(alloc),
            tids: Vec::new(alloc),
            values: Vec::new(alloc),
            spare: 0,
        }
    }

    /// How many entries there are.
    pub fn len(&self) -> usize
        ensures { result ≡ length self.now.entries }
    {
        self.entries.len()
    }

    /// Whether there are no entries.
    pub fn is_empty(&self) -> bool
        ensures { IsTrue result ↔ (self.now.entries ≡ []) }
    {
        self.len() == 0
    }

    /// `spare`: the capacity for more entries, of any kind.
    pub fn spare(&self) -> usize
        ensures { result ≡ self.now.spare }
    {
        self.spare
    }

    /// Provides capacity for this many more entries, of any kind. A greater capacity is not reduced. The entries stay.
    ///
    /// `NoMemory` if an allocation failed or the capacity can't be counted; the capacity stays then.
    #[inline]
    pub fn reserve(&mut self, count: usize) -> Result<(), NoMemory>
        ensures entries { self.new.entries ≡ self.old.entries }
        ensures spare { OnOk result (count ≤ self.new.spare) }
        ensures no_less { self.old.spare ≤ self.new.spare }
        ensures enough { count ≤ self.old.spare → self.new ≡ self.old }
        ensures succeeds { count ≤ self.old.spare → IsOk result }
        ensures refused { OnErr result (self.new.spare ≡ self.old.spare) }
    {
        if count <= self.spare {
            return Ok(());
        }
        self.grow(count)
    }

    // Adds capacity.
    #[cold]
    #[inline(never)]
    fn grow(&mut self, count: usize) -> Result<(), NoMemory>
        requires { self.old.spare < count }
        ensures entries { self.new.entries ≡ self.old.entries }
        ensures spare { OnOk result (count ≤ self.new.spare) }
        ensures no_less { self.old.spare ≤ self.new.spare }
        ensures refused { OnErr result (self.new.spare ≡ self.old.spare) }
    {
        if count > MOST_SPARE {
            return Err(NoMemory);
        }
        let spare = count + AHEAD;
        self.entries.reserve(spare)?;
        reserve_items(&mut self.tids, spare * MOST_TIDS)?;
        reserve_items(&mut self.values, spare * MOST_VALUES)?;
        self.spare = spare;
        Ok(())
    }

    /// Allocates memory for this many more entries, and for one value in the lists of each. Until these are used up,
    /// the present ones need not be moved. Nothing else changes.
    ///
    /// `NoMemory` if the allocation failed.
    pub fn reserve_entries(&mut self, count: usize) -> Result<(), NoMemory>
        ensures entries { self.new.entries ≡ self.old.entries }
        ensures spare { self.new.spare ≡ self.old.spare }
    {
        self.entries.reserve_memory(count)?;
        self.values.reserve(count)?;
        Ok(())
    }

    /// Takes over the memory of another history, whose entries are dropped, if this one has no entry. Memory of which the other
    /// has used less than a quarter is freed instead, so one that was long does not keep its memory for ever.
    pub fn recycle(&mut self, other: History)
        ensures entries { self.new.entries ≡ self.old.entries }
        ensures spare { self.old.spare ≤ self.new.spare }
    {
        let capacity = other.entries.memory();
        let is_used = capacity <= FIRST || other.len() >= capacity / 4;
        if self.is_empty() && self.spare <= other.spare && is_used {
            *self = other.emptied();
        }
    }

    // The same memory without entries.
    fn emptied(mut self) -> History
        ensures entries { result.entries ≡ [] }
        ensures spare { result.spare ≡ self.spare }
    {
        self.entries.clear();
        self.tids.clear();
        self.values.clear();
        self
    }

    /// `prefault`: prefaults the memory of at most this many next entries, but not of their lists. It returns the index up
    /// to which it did.
    pub fn prefault(&mut self, most: usize) -> usize
        ensures same { self.new ≡ self.old }
        ensures prefaulted { result ≡ min self.old.capacities.entries (length self.old.entries + most) }
    {
        self.entries.prefault(most)
    }

    /// Adds an entry, for which there is capacity: the event, and the reply with these lists. It allocates nothing.
    #[inline(always)]
    pub fn push(&mut self, event: &Event, reply: &ShortReply, lists: &ReplyLists)
        requires { 0 < self.old.spare }
        ensures entries { self.new.entries
            ≡ self.old.entries ++ record { event = event.now; reply = reply_with reply.now lists.now } ∷ [] }
        ensures spare { self.new.spare + 1 ≡ self.old.spare }
        ensures capacities { self.new.capacities ≡ self.old.capacities }
    {
        // The frequent kinds are written straight to their position.
        match (event, reply) {
            (Event::Step(t), _) => self.push_step(*t, reply, lists),
            (Event::Start { procedure, args }, ShortReply::Started(t)) => {
                let _count = args.len();
                self.push_start(*procedure, args.as_slice(), *t)
            }
            (Event::Commit(t), ShortReply::Committed) => {
                let _count = lists.answers.len();
                self.push_commit(*t, lists.answers.as_slice())
            }
            (Event::Commit(t), ShortReply::Waits(first)) => self.push_waits(*t, *first),
            (Event::Access(t, request), ShortReply::Looked { key, value }) => {
                self.push_access(*t, request, StoredReply::looked(key, value))
            }
            (Event::Access(t, request), ShortReply::Wrote { key, value }) => {
                self.push_access(*t, request, StoredReply::wrote(key, value))
            }
            // Only a copy is passed to the call, so that an event that its caller has just made is never written to memory.
            _ => self.push_any(&event.copied(), reply, lists),
        }
    }

    /// Adds a step with its reply and these lists, for which there is capacity. It allocates nothing.
    #[inline(always)]
    pub fn push_step(&mut self, t: Tid, reply: &ShortReply, lists: &ReplyLists)
        requires { 0 < self.old.spare }
        ensures entries { self.new.entries
            ≡ self.old.entries ++ record { event = Step t; reply = reply_with reply.now lists.now } ∷ [] }
        ensures spare { self.new.spare + 1 ≡ self.old.spare }
        ensures capacities { self.new.capacities ≡ self.old.capacities }
    {
        match reply {
            ShortReply::Looked {
                key,
                value: Some(value),
            } => self.push_packed(PackedEntry::Looked {
                table: key.table(),
                t,
                id: key.id(),
                value: *value,
            }),
            ShortReply::Wrote {
                key,
                value: Some(value),
            } => self.push_packed(PackedEntry::Wrote {
                table: key.table(),
                t,
                id: key.id(),
                value: *value,
            }),
            ShortReply::Ended => self.push_packed(PackedEntry::Ended(t)),
            // Only a copy is passed to the call, so that a reply that its caller has just made is never written to memory.
            _ => {
                let reply = *reply;
                self.push_other_step(t, &reply, lists)
            }
        }
    }

    // Adds a step with a reply of any kind. Its event is made here: made where `push_step` is compiled in, it would cost
    // every step.
    #[inline(never)]
    fn push_other_step(&mut self, t: Tid, reply: &ShortReply, lists: &ReplyLists)
        requires { 0 < self.old.spare }
        ensures entries { self.new.entries
            ≡ self.old.entries ++ record { event = Step t; reply = reply_with reply.now lists.now } ∷ [] }
        ensures spare { self.new.spare + 1 ≡ self.old.spare }
        ensures capacities { self.new.capacities ≡ self.old.capacities }
    {
        self.push_any(&Event::Step(t), reply, lists)
    }

    // Adds an entry of any kind.
    #[inline(never)]
    fn push_any(&mut self, event: &Event, reply: &ShortReply, lists: &ReplyLists)
        requires { 0 < self.old.spare }
        ensures entries { self.new.entries
            ≡ self.old.entries ++ record { event = event.now; reply = reply_with reply.now lists.now } ∷ [] }
        ensures spare { self.new.spare + 1 ≡ self.old.spare }
        ensures capacities { self.new.capacities ≡ self.old.capacities }
    {
        let (_answers, _cycle, _fell) = (lists.answers.len(), lists.cycle.len(), lists.fell.len());
        let args = args_of(event);
        let _args = args.len();
        let lists = EntryLists {
            args: args.as_slice(),
            answers: lists.answers.as_slice(),
            cycle: lists.cycle.as_slice(),
            fell: lists.fell.as_slice(),
        };
        self.push_parts(BareEvent::of(event), reply, &lists);
    }

    // Adds an entry in parts, of any kind.
    #[inline(never)]
    fn push_parts(&mut self, event: BareEvent, reply: &ShortReply, lists: &EntryLists<'_>)
        requires spare { 0 < self.old.spare }
        requires few { AreFew lists.now }
        requires args { HasArgs event lists.now.args.now }
        ensures entries { self.new.entries ≡ self.old.entries ++ full_entry event reply.now lists.now ∷ [] }
        ensures spare { self.new.spare + 1 ≡ self.old.spare }
        ensures capacities { self.new.capacities ≡ self.old.capacities }
    {
        let StoredEntry { event, reply } = StoredEntry::of(
            event,
            reply,
            lists,
            &mut self.tids,
            &mut self.values,
        );
        self.entries.push(event, reply);
        self.spare -= 1;
    }

    // Adds the start of a transaction.
    #[inline(never)]
    fn push_start(&mut self, procedure: u16, args: &[i64], t: Tid)
        requires spare { 0 < self.old.spare }
        requires few { length args.now ≤ 4 }
        ensures entries { self.new.entries
            ≡ self.old.entries ++ record { event = Start procedure args.now; reply = Started t } ∷ [] }
        ensures spare { self.new.spare + 1 ≡ self.old.spare }
        ensures capacities { self.new.capacities ≡ self.old.capacities }
    {
        let part = Span::append(&mut self.values, args);
        self.entries.push_whole(PackedEntry::Started {
            procedure,
            count: part.count,
            t,
            from: part.from,
        });
        self.spare -= 1;
    }

    // Adds a commit with its answers.
    #[inline(never)]
    fn push_commit(&mut self, t: Tid, answers: &[i64])
        requires spare { 0 < self.old.spare }
        requires few { length answers.now ≤ 8 }
        ensures entries { self.new.entries
            ≡ self.old.entries ++ record { event = Commit t; reply = Committed answers.now } ∷ [] }
        ensures spare { self.new.spare + 1 ≡ self.old.spare }
        ensures capacities { self.new.capacities ≡ self.old.capacities }
    {
        let part = Span::append(&mut self.values, answers);
        self.entries.push_whole(PackedEntry::Committed {
            count: part.count,
            t,
            from: part.from,
        });
        self.spare -= 1;
    }

    // Adds a commit that waits for this transaction.
    #[inline(always)]
    fn push_waits(&mut self, t: Tid, first: Tid)
        requires { 0 < self.old.spare }
        ensures entries { self.new.entries
            ≡ self.old.entries ++ record { event = Commit t; reply = Waits first } ∷ [] }
        ensures spare { self.new.spare + 1 ≡ self.old.spare }
        ensures capacities { self.new.capacities ≡ self.old.capacities }
    {
        self.entries
            .push(StoredEvent::Commit(t), StoredReply::Waits(first));
        self.spare -= 1;
    }

    // Adds an access on which a caller decided, with a reply that has no lists.
    #[inline(never)]
    fn push_access(&mut self, t: Tid, request: &Request, reply: StoredReply)
        requires spare { 0 < self.old.spare }
        requires reply { HasNoLists reply }
        requires key { HasKey reply }
        ensures entries { self.new.entries
            ≡ self.old.entries ++ record { event = Access t request.now; reply = full_reply (short_of reply) [] [] [] } ∷ [] }
        ensures spare { self.new.spare + 1 ≡ self.old.spare }
        ensures capacities { self.new.capacities ≡ self.old.capacities }
    {
        let args = request_args(request);
        let _count = args.len();
        let event = BareEvent::of_request(t, request);
        let event = StoredEvent::of(event, args.as_slice(), &mut self.values);
        self.entries.push(event, reply);
        self.spare -= 1;
    }

    /// Adds the entry at this index of another history, for which there is capacity here. It allocates nothing. The result
    /// says what the entry is to a caller that makes one step after another.
    #[inline(always)]
    pub fn push_copy(&mut self, other: &History, place: usize) -> StepKind
        requires spare { 0 < self.old.spare }
        requires there { place < length other.now.entries }
        ensures kind { (e : Entry) → slice_get other.now.entries place ≡ Some e → IsOfKind result e }
        ensures entries { (e : Entry) → slice_get other.now.entries place ≡ Some e
            → self.new.entries ≡ self.old.entries ++ e ∷ [] }
        ensures spare { self.new.spare + 1 ≡ self.old.spare }
        ensures capacities { self.new.capacities ≡ self.old.capacities }
    {
        // Most entries are steps, and are copied as they are.
        match other.entries.step_at(place) {
            Some(step) => {
                self.push_packed(step);
                step.kind()
            }
            None => {
                self.push_other_copy(other, place);
                StepKind::Other
            }
        }
    }

    // Adds such a copy, a start or a commit at first. Their lists are copied, and nothing else of them is unpacked.
    #[inline(never)]
    fn push_other_copy(&mut self, other: &History, place: usize)
        requires spare { 0 < self.old.spare }
        requires there { place < length other.now.entries }
        ensures entries { (e : Entry) → slice_get other.now.entries place ≡ Some e
            → self.new.entries ≡ self.old.entries ++ e ∷ [] }
        ensures spare { self.new.spare + 1 ≡ self.old.spare }
        ensures capacities { self.new.capacities ≡ self.old.capacities }
    {
        match other.entries.packed_at(place) {
            PackedEntry::Started {
                procedure,
                count,
                t,
                from,
            } => {
                let args = Span::new(from, count).items(other.values.as_slice());
                self.push_start(procedure, args, t)
            }
            PackedEntry::Committed { count, t, from } => {
                let answers = Span::new(from, count).items(other.values.as_slice());
                self.push_commit(t, answers)
            }
            _ => self.push_rare_copy(other, place),
        }
    }

    // Adds such a copy, of any kind.
    #[inline(never)]
    fn push_rare_copy(&mut self, other: &History, place: usize)
        requires spare { 0 < self.old.spare }
        requires there { place < length other.now.entries }
        ensures entries { (e : Entry) → slice_get other.now.entries place ≡ Some e
            → self.new.entries ≡ self.old.entries ++ e ∷ [] }
        ensures spare { self.new.spare + 1 ≡ self.old.spare }
        ensures capacities { self.new.capacities ≡ self.old.capacities }
    {
        self.push_entry(&other.entry(place));
    }

    // Adds a step that read, wrote or came to the procedure's end.
    #[inline(always)]
    fn push_packed(&mut self, step: PackedEntry)
        requires spare { 0 < self.old.spare }
        requires step { IsStep step }
        requires key { HasKey (unpacked [] step).reply }
        ensures entries { self.new.entries ≡ self.old.entries ++ step_entry step ∷ [] }
        ensures spare { self.new.spare + 1 ≡ self.old.spare }
        ensures capacities { self.new.capacities ≡ self.old.capacities }
    {
        self.entries.push_whole(step);
        self.spare -= 1;
    }

    /// Adds an entry of another history, for which there is capacity here. It allocates nothing.
    #[inline(never)]
    pub fn push_entry(&mut self, entry: &EntryRef<'_>)
        requires { 0 < self.old.spare }
        ensures entries { self.new.entries ≡ self.old.entries ++ entry.now ∷ [] }
        ensures spare { self.new.spare + 1 ≡ self.old.spare }
        ensures capacities { self.new.capacities ≡ self.old.capacities }
    {
        // The frequent kinds are written straight to their position.
        match (&entry.stored.event, &entry.stored.reply) {
            (StoredEvent::Step(t), StoredReply::Looked { table, id, value }) => {
                self.push_packed(PackedEntry::Looked {
                    table: *table,
                    t: *t,
                    id: *id,
                    value: *value,
                })
            }
            (StoredEvent::Step(t), StoredReply::Wrote { table, id, value }) => {
                self.push_packed(PackedEntry::Wrote {
                    table: *table,
                    t: *t,
                    id: *id,
                    value: *value,
                })
            }
            (StoredEvent::Step(t), StoredReply::Ended) => self.push_packed(PackedEntry::Ended(*t)),
            (StoredEvent::Start { procedure, .. }, StoredReply::Started(t)) => {
                self.push_start(*procedure, entry.args(), *t)
            }
            (StoredEvent::Commit(t), StoredReply::Committed { .. }) => {
                self.push_commit(*t, entry.answers())
            }
            _ => self.push_other(&entry.copied()),
        }
    }

    // Adds an entry of another history, of any kind.
    #[inline(never)]
    fn push_other(&mut self, entry: &EntryRef<'_>)
        requires { 0 < self.old.spare }
        ensures entries { self.new.entries ≡ self.old.entries ++ entry.now ∷ [] }
        ensures spare { self.new.spare + 1 ≡ self.old.spare }
        ensures capacities { self.new.capacities ≡ self.old.capacities }
    {
        self.push_parts(entry.bare_event(), &entry.short(), &entry.lists());
    }

    /// The entry at this index, read in place.
    pub fn entry(&self, place: usize) -> EntryRef<'_>
        requires { place < length self.now.entries }
        ensures entry { slice_get self.now.entries place ≡ Some result }
        ensures next { take (place + 1) self.now.entries ≡ take place self.now.entries ++ result ∷ [] }
    {
        EntryRef {
            stored: self.entries.at(place),
            tids: self.tids.as_slice(),
            values: self.values.as_slice(),
        }
    }

    /// Whether the entry at this index is a step that read, wrote or came to the procedure's end. No entry but that of a
    /// step is; a step that found no value is not.
    #[inline(always)]
    pub fn is_step(&self, place: usize) -> bool
        requires { place < length self.now.entries }
        ensures { IsTrue result → (e : Entry) × IsQuiet e × (slice_get self.now.entries place ≡ Some e)
            × (take (place + 1) self.now.entries ≡ take place self.now.entries ++ e ∷ []) }
    {
        self.entries.is_step_at(place)
    }

    /// The entry at this index, if any, read in place.
    pub fn get_entry(&self, place: usize) -> Option<EntryRef<'_>>
        ensures { result ≡ slice_get self.now.entries place }
    {
        if place < self.len() {
            Some(self.entry(place))
        } else {
            None
        }
    }

    /// The newest entry, if any, read in place.
    pub fn last_entry(&self) -> Option<EntryRef<'_>>
        ensures { result ≡ slice_get (reverse self.now.entries) 0 }
    {
        if self.is_empty() {
            None
        } else {
            Some(self.entry(self.len() - 1))
        }
    }

    /// Whether the entry at this index is the same as that of another history at another index.
    #[inline(always)]
    pub fn is_same_at(&self, place: usize, other: &History, index: usize) -> bool
        requires here { place < length self.now.entries }
        requires there { index < length other.now.entries }
        ensures { IsTrue result ↔ (slice_get self.now.entries place ≡ slice_get other.now.entries index) }
    {
        // Most entries are steps, and are read where they are. Of two starts or two commits nothing is unpacked.
        self.is_same_step(place, other, index)
            || self.entries.is_start_at(place)
                && other.entries.is_start_at(index)
                && self.entry(place).is_surely_same(&other.entry(index))
            || self.entries.is_commit_at(place)
                && other.entries.is_commit_at(index)
                && self.entry(place).is_surely_same(&other.entry(index))
            || self.is_same_of_any_kind(place, other, index)
    }

    // Whether both entries are the same step, of a frequent kind.
    #[inline(always)]
    fn is_same_step(&self, place: usize, other: &History, index: usize) -> bool
        requires here { place < length self.now.entries }
        requires there { index < length other.now.entries }
        ensures { IsTrue result → slice_get self.now.entries place ≡ slice_get other.now.entries index }
    {
        self.entries.is_same_step(place, &other.entries, index)
    }

    // Whether both entries are the same, of any kind.
    #[cold]
    #[inline(never)]
    fn is_same_of_any_kind(&self, place: usize, other: &History, index: usize) -> bool
        requires here { place < length self.now.entries }
        requires there { index < length other.now.entries }
        ensures { IsTrue result ↔ (slice_get self.now.entries place ≡ slice_get other.now.entries index) }
    {
        self.entry(place).is_same(&other.entry(index))
    }

    /// The entry at this index.
    pub fn at(&self, place: usize) -> Entry
        requires { place < length self.now.entries }
        ensures entry { slice_get self.now.entries place ≡ Some result }
        ensures next { take (place + 1) self.now.entries ≡ take place self.now.entries ++ result ∷ [] }
    {
        self.entry(place).in_full()
    }

    /// The entry at this index, if any.
    pub fn get(&self, place: usize) -> Option<Entry>
        ensures { result ≡ slice_get self.now.entries place }
    {
        Some(self.get_entry(place)?.in_full())
    }

    /// The newest entry, if any.
    pub fn last(&self) -> Option<Entry>
        ensures { result ≡ slice_get (reverse self.now.entries) 0 }
    {
        Some(self.last_entry()?.in_full())
    }

    /// The reply of the entry at this index.
    pub fn reply_at(&self, place: usize) -> Reply
        requires { place < length self.now.entries }
        ensures { option_map (λ (e : Entry). e.reply) (slice_get self.now.entries place) ≡ Some result }
    {
        self.entry(place).reply()
    }

    /// The reply of the newest entry, if any.
    pub fn last_reply(&self) -> Option<Reply>
        ensures { result ≡ option_map (λ (e : Entry). e.reply) (slice_get (reverse self.now.entries) 0) }
    {
        Some(self.last_entry()?.reply())
    }
}
