//! What clients saw: their transactions, in the order in which they began.
ghost use Rattle.std.specs.Prelude.{◌≡◌, ◌<◌, ◌+◌, ◌^◌, ◌&&◌, ◌==◌, true, [], length, Some, None, IfOk, IfErr, IsTrue, OnOk};
ghost use Rattle.std.specs.BTreeMap.{get};
ghost use Rattle.std.specs.Ordering.{nat_cmp};
ghost use Rattle.serde_json.specs.View.{view};
ghost use Rattle.sgt_format.specs.Trees.{tree_of};
ghost use Rattle.sgt_notation.specs.Numbering.{KnowsItems, texts_of};
ghost use Rattle.sgt_clients.specs.Histories.{Past, nothing, counted, with_skipped, changed, ends_at, begun, ended, with_active, without_active, answered, with_answer, invoked, ended_by, with_kind, Answers, IsInTurnAs};
ghost use Rattle.sgt_clients.specs.declared.entry.Kind.TheVariants as kind;
ghost use Rattle.sgt_clients.specs.Inputs.{AreClients};
ghost use Rattle.sgt_clients.specs.Reading.{Stores, Takes, TakesText, IsSame};
ghost use Rattle.sgt_clients.specs.Faults.{IsOwn};

use crate::access::{Access, are_same};
use crate::entry::{Entry, Kind, read_entry};
use crate::fault::{ClientsFault, Flaw, ReadError};
use crate::notes::nulls_in;
use crate::pieces::{Place, next_object, object_end};
use crate::twice::shown_name;
use serde_json::Value;
use sgt_appends::{Operation, Status, Transaction};
use sgt_model::NoMemory;
use sgt_notation::Items;
use std::alloc::Global;
use std::collections::BTreeMap;

/// When a transaction ran, by the numbers of entries from 1.
#[derive(Clone, Copy)]
pub struct Span {
    /// The entry at which it began.
    pub began: usize,
    /// The entry at which it ended, unless its end is unknown.
    pub ended: Option<usize>,
}

/// What an entry says of a transaction.
#[derive(Clone, Copy)]
pub enum Event {
    /// It began.
    Began(usize),
    /// It ended.
    Ended(usize),
}

/// A transaction that began at its end, since its process had no open invocation.
#[derive(Clone, Copy)]
pub struct Alone {
    /// The transaction.
    pub transaction: usize,
    /// The line of its entry.
    pub line: u64,
}

/// What clients saw.
#[derive(Drop)]
pub struct Clients {
    /// The transactions. Each key has a number of its own.
    pub transactions: Vec<Transaction>,
    /// When each ran.
    pub spans: Vec<Span>,
    /// The number of the process of each. No contract speaks of it.
    pub processes: Vec<u32>,
    /// The beginnings and known ends, in their order.
    pub events: Vec<Event>,
    /// Whether an entry is an invocation.
    pub invoked: bool,
    /// The transactions without an invocation. No contract speaks of them.
    pub alone: Vec<Alone>,
    /// How many reads of transactions that committed are null. No contract speaks of it.
    pub nulls: usize,
    /// How many entries were skipped, since they are of no transaction.
    pub skipped: usize,
    /// The texts of the keys, by number.
    pub keys: Vec<Vec<u8>>,
    /// Whether the number of each entry is that of its line.
    pub by_line: bool,
}

/// Reads what clients saw. Objects of JSON stand one after another, with white space, commas and brackets between them.
///
/// # Errors
///
/// `Entry` with the first entry that is wrong, or `Check` if an allocation failed.
pub fn read_clients(alloc: Global, text: &[u8]) -> Result<Clients, ClientsFault>
    ensures read { IfOk result (AreClients text.now) }
    ensures own { IfErr result IsOwn }
{
    let mut reader = ClientsReader::new(alloc);
    let mut place = next_object(text, Place { at: 0, line: 1 });
    while place.at < text.len() {
        let end = object_end(text, place);
        reader.take(alloc, place.line, &text[place.at..end.at])?;
        place = next_object(text, end);
    }
    Ok(Clients {
        transactions: reader.transactions,
        spans: reader.spans,
        processes: reader.owners,
        events: reader.events,
        invoked: reader.invoked,
        alone: reader.alone,
        nulls: reader.nulls,
        skipped: reader.skipped,
        by_line: reader.by_line,
        keys: reader.keys.texts,
    })
}

/// What a process has invoked and not ended.
#[derive(Drop)]
struct Invocation {
    /// The transaction.
    transaction: usize,
    /// The accesses of its invocation.
    accesses: Vec<Access>,
}

/// What has been read.
#[derive(Drop)]
struct ClientsReader {
    transactions: Vec<Transaction>,
    spans: Vec<Span>,
    /// The process of each transaction.
    owners: Vec<u32>,
    events: Vec<Event>,
    keys: Items,
    processes: Items,
    /// What each process has invoked and not ended.
    active: BTreeMap<u32, Invocation>,
    /// Whether there was an invocation.
    invoked: bool,
    /// The transactions without one.
    alone: Vec<Alone>,
    /// How many reads of transactions that committed are null.
    nulls: usize,
    /// The line on which each transaction began.
    lines: Vec<u64>,
    /// The line on which the last entry started.
    line: u64,
    /// How many entries there were.
    entries: usize,
    /// How many of them were skipped.
    skipped: usize,
    by_line: bool,
}

impl ClientsReader {
    /// Nothing has been read.
    fn new(alloc: Global) -> Self
        ensures known { KnowsItems result.keys }
        ensures known_processes { KnowsItems result.processes }
        ensures none { texts_of result.keys ≡ [] }
        ensures nothing { Stores result nothing }
        ensures by_line { result.by_line ≡ true }
    {
        ClientsReader {
            transactions: Vec::new(alloc),
            spans: Vec::new(alloc),
            owners: Vec::new(alloc),
            events: Vec::new(alloc),
            keys: Items::new(alloc),
            processes: Items::new(alloc),
            active: BTreeMap::new(alloc),
            invoked: false,
            alone: Vec::new(alloc),
            nulls: 0,
            lines: Vec::new(alloc),
            line: 1,
            entries: 0,
            skipped: 0,
            by_line: true,
        }
    }

    /// Reads the next entry, which starts on the line.
    fn take(&mut self, alloc: Global, line: u64, text: &[u8]) -> Result<(), ClientsFault>
        requires known { KnowsItems self.old.keys }
        requires known_processes { KnowsItems self.old.processes }
        requires few { self.old.entries + 1 < 2 ^ 64 }
        ensures known { OnOk result (KnowsItems self.new.keys) }
        ensures known_processes { OnOk result (KnowsItems self.new.processes) }
        ensures taken { OnOk result (Takes self.old self.new line text.now) }
        ensures own { IfErr result IsOwn }
    {
        self.count(line);
        match self.take_text(alloc, text) {
            Ok(()) => Ok(()),
            Err(ReadError::Flaw(flaw)) => Err(ClientsFault::Entry(line, self.entries, flaw)),
            Err(ReadError::NotJson(further, column)) => {
                let at = line.saturating_add(further.saturating_sub(1) as u64);
                Err(ClientsFault::Entry(at, self.entries, Flaw::NotJson(column)))
            }
            Err(ReadError::Invoked(process, number)) => {
                let name = shown_name(alloc, self.processes.texts.as_slice(), process)?;
                let (other, began) = self.begin_of(number);
                let flaw = Flaw::Invoked(name, other, began);
                Err(ClientsFault::Entry(line, self.entries, flaw))
            }
            Err(ReadError::OtherOperations(number)) => {
                let (other, began) = self.begin_of(number);
                let flaw = Flaw::OtherOperations(other, began);
                Err(ClientsFault::Entry(line, self.entries, flaw))
            }
            Err(ReadError::NoMemory) => Err(ClientsFault::from(NoMemory)),
        }
    }

    /// The line and the number of the entry at which the transaction began.
    fn begin_of(&self, number: usize) -> (u64, usize) {
        match (self.lines.get(number), self.spans.get(number)) {
            (Some(line), Some(span)) => (*line, span.began),
            _ => (0, 0),
        }
    }

    /// Counts the next entry, which starts on the line.
    fn count(&mut self, line: u64)
        requires { self.old.entries + 1 < 2 ^ 64 }
        ensures keys { self.new.keys ≡ self.old.keys }
        ensures processes { self.new.processes ≡ self.old.processes }
        ensures entries { self.new.entries ≡ self.old.entries + 1 }
        ensures by_line { self.new.by_line ≡ (self.old.by_line && line == self.old.entries + 1) }
        ensures stored { (p : Past) → Stores self.old p → Stores self.new (counted p) }
    {
        self.entries += 1;
        self.line = line;
        self.by_line = self.by_line && line == self.entries as u64;
    }

    /// Reads the text of an entry.
    fn take_text(&mut self, alloc: Global, text: &[u8]) -> Result<(), ReadError>
        requires known { KnowsItems self.old.keys }
        requires known_processes { KnowsItems self.old.processes }
        ensures known { OnOk result (KnowsItems self.new.keys) }
        ensures known_processes { OnOk result (KnowsItems self.new.processes) }
        ensures taken { OnOk result (TakesText self.old self.new text.now) }
    {
        let tree = read_tree(alloc, text)?;
        match read_entry(alloc, &mut self.keys, &mut self.processes, &tree)? {
            Some(entry) => {
                self.nulls = self.nulls.saturating_add(nulls_in(&tree, entry.kind));
                self.take_entry(entry)
            }
            None => {
                self.skip();
                Ok(())
            }
        }
    }

    /// Skips an entry, which is of no transaction.
    fn skip(&mut self)
        ensures same { IsSame self.old self.new }
        ensures stored { (p : Past) → Stores self.old p → Stores self.new (with_skipped p) }
    {
        self.skipped = self.skipped.saturating_add(1);
    }

    /// Takes an entry.
    fn take_entry(&mut self, entry: Entry) -> Result<(), ReadError>
        ensures same { IsSame self.old self.new }
        ensures in_turn { OnOk result (IsInTurnAs entry.kind (get nat_cmp self.old.active entry.process) entry) }
        ensures stored { OnOk result ((p : Past) → Stores self.old p → Stores self.new (with_kind entry.kind entry p)) }
    {
        match entry.kind {
            Kind::Invoked => self.begin(entry),
            Kind::Ended(status) => self.end(entry, status),
        }
    }

    /// The process begins a transaction. Its end is unknown as yet.
    fn begin(&mut self, entry: Entry) -> Result<(), ReadError>
        ensures same { IsSame self.old self.new }
        ensures in_turn { OnOk result (get nat_cmp self.old.active entry.process ≡ None) }
        ensures stored { OnOk result ((p : Past) → Stores self.old p → Stores self.new (invoked entry p)) }
    {
        let process = entry.process;
        let transaction = self.transactions.len();
        if let Some(invocation) = self.active.get(&process) {
            return Err(ReadError::Invoked(process, invocation.transaction));
        }
        self.add(process, Status::Unknown, entry.operations)?;
        self.note_active(
            process,
            Invocation {
                transaction,
                accesses: entry.accesses,
            },
        )?;
        Ok(())
    }

    /// Notes that the process has invoked a transaction.
    fn note_active(&mut self, process: u32, invocation: Invocation) -> Result<(), NoMemory>
        ensures same { IsSame self.old self.new }
        ensures stored { OnOk result ((p : Past) → Stores self.old p → Stores self.new (with_active process invocation p)) }
    {
        self.active.insert(process, invocation)?;
        self.invoked = true;
        Ok(())
    }

    /// Removes and returns what the process has invoked and not ended.
    fn remove_active(&mut self, process: u32) -> Option<Invocation>
        ensures same { IsSame self.old self.new }
        ensures was { result ≡ get nat_cmp self.old.active process }
        ensures none { result ≡ None → (p : Past) → Stores self.old p → Stores self.new p }
        ensures stored { (p : Past) → Stores self.old p → Stores self.new (without_active process p) }
    {
        self.active.remove(&process)
    }

    /// The process ends its transaction. Without an invocation the transaction begins and ends here.
    fn end(&mut self, entry: Entry, status: Status) -> Result<(), ReadError>
        ensures same { IsSame self.old self.new }
        ensures in_turn { OnOk result (IsInTurnAs (kind.Ended status) (get nat_cmp self.old.active entry.process) entry) }
        ensures stored { OnOk result ((p : Past) → Stores self.old p → Stores self.new (ended_by (p.active entry.process) status entry p)) }
    {
        match self.remove_active(entry.process) {
            Some(invocation) => {
                if !answers(&entry, &invocation) {
                    return Err(ReadError::OtherOperations(invocation.transaction));
                }
                Ok(self.end_active(invocation.transaction, status, entry)?)
            }
            None => Ok(self.add_ended(status, entry)?),
        }
    }

    /// Ends the transaction, which its process had invoked.
    fn end_active(&mut self, number: usize, status: Status, entry: Entry) -> Result<(), NoMemory>
        ensures same { IsSame self.old self.new }
        ensures stored { OnOk result ((p : Past) → Stores self.old p → Stores self.new (ended status number (with_answer status entry number p))) }
    {
        answer(&mut self.transactions, number, status, entry);
        self.note_end(number, status)
    }

    /// Adds a transaction that begins and ends here.
    fn add_ended(&mut self, status: Status, entry: Entry) -> Result<(), NoMemory>
        ensures same { IsSame self.old self.new }
        ensures stored { OnOk result ((p : Past) → Stores self.old p → Stores self.new (ended status (length p.transactions) (begun status entry.operations p))) }
    {
        let number = self.transactions.len();
        self.note_alone(number)?;
        self.add(entry.process, status, entry.operations)?;
        self.note_end(number, status)
    }

    /// Notes that the transaction, which is the next one, begins at its end.
    fn note_alone(&mut self, transaction: usize) -> Result<(), NoMemory>
        ensures same { IsSame self.old self.new }
        ensures stored { OnOk result ((p : Past) → Stores self.old p → Stores self.new p) }
    {
        self.alone.push(Alone {
            transaction,
            line: self.line,
        })?;
        Ok(())
    }

    /// Notes that the transaction ends here, unless its end is unknown.
    fn note_end(&mut self, number: usize, status: Status) -> Result<(), NoMemory>
        ensures same { IsSame self.old self.new }
        ensures stored { OnOk result ((p : Past) → Stores self.old p → Stores self.new (ended status number p)) }
    {
        match status {
            Status::Unknown => Ok(()),
            Status::Committed | Status::Aborted => {
                end_span(&mut self.spans, number, self.entries);
                self.events.push(Event::Ended(number))?;
                Ok(())
            }
        }
    }

    /// Adds a transaction of the process that begins here, with these operations.
    fn add(
        &mut self,
        process: u32,
        status: Status,
        operations: Vec<Operation>,
    ) -> Result<(), NoMemory>
        ensures same { IsSame self.old self.new }
        ensures stored { OnOk result ((p : Past) → Stores self.old p → Stores self.new (begun status operations p)) }
    {
        self.owners.push(process)?;
        self.lines.push(self.line)?;
        self.events.push(Event::Began(self.transactions.len()))?;
        self.transactions.push(Transaction { status, operations })?;
        self.spans.push(Span {
            began: self.entries,
            ended: None,
        })?;
        Ok(())
    }
}

/// Whether the end of a transaction, if it lists accesses, lists those of its invocation.
fn answers(entry: &Entry, invocation: &Invocation) -> bool
    ensures { IsTrue result → Answers entry.now invocation.now }
{
    !entry.listed || are_same(entry.accesses.as_slice(), invocation.accesses.as_slice())
}

/// Notes in the span of the transaction that it ended at the entry.
fn end_span(spans: &mut [Span], number: usize, entry: usize)
    ensures { spans.new ≡ changed (ends_at entry) spans.old number }
{
    if number < spans.len() {
        let began = spans[number].began;
        spans[number] = Span {
            began,
            ended: Some(entry),
        };
    }
}

/// The transaction has its answer. If it committed, its operations are those of the answer.
fn answer(transactions: &mut [Transaction], number: usize, status: Status, entry: Entry)
    ensures { transactions.new ≡ changed (answered status entry) transactions.old number }
{
    if number >= transactions.len() {
        return;
    }
    match status {
        Status::Committed => {
            transactions[number] = Transaction {
                status,
                operations: entry.operations,
            };
        }
        Status::Aborted | Status::Unknown => transactions[number].status = status,
    }
}

/// The tree of an entry's text: an object.
fn read_tree(alloc: Global, text: &[u8]) -> Result<Value, ReadError>
    ensures { IfOk result (λ tree. tree_of text.now ≡ Some (view tree)) }
{
    match Value::from_slice(alloc, text) {
        Ok(tree) => if tree.is_object() {
            Ok(tree)
        } else {
            Err(ReadError::Flaw(Flaw::NoObject))
        },
        Err(error) => if error.is_memory() {
            Err(ReadError::NoMemory)
        } else {
            Err(ReadError::NotJson(error.line(), error.column().max(1)))
        },
    }
}
