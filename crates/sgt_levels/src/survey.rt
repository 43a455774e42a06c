//! What ties the transactions of a history together: the search's input. Nothing here is promised; what the search finds
//! is tested by `replay.rt` and `tie.rt`.

ghost use Rattle.std.specs.Prelude.{◌≡◌, length};
ghost use Rattle.sgt_appends.specs.Runs.{operations_of};

use crate::tie::{Ground, Tie};
use sgt_appends::{AppendIndex, Operation, Read, Reason, Status, Transaction, read_of};
use sgt_model::NoMemory;
use std::alloc::Global;
use std::collections::BTreeMap;

/// An append: its transaction, and its position there.
pub type Spot = (usize, usize);

/// The longest list of a key that a committed transaction saw.
#[derive(Clone, Copy)]
struct Line<'a> {
    /// The number of the line among those of all keys.
    number: usize,
    /// A read that saw it.
    read: Read<'a>,
    /// The place of the append of its first value.
    first: usize,
    /// A read of the whole line, whose last value is not the reader's.
    whole: Option<Spot>,
    /// A read of the whole line, and the reader's first append to the key whose value is in no line.
    waits: Option<(Spot, usize)>,
}

/// A position in a transaction, at the end of a line: a read that saw the whole line, or an append that is not in it.
#[derive(Clone, Copy)]
pub struct Visit {
    pub line: usize,
    pub transaction: usize,
    pub position: usize,
}

/// A read that saw one append of a transaction and missed another one at the same key.
#[derive(Clone, Copy)]
pub struct Partial {
    pub reader: usize,
    pub read: usize,
    pub by: usize,
    pub seen: usize,
    pub missed: usize,
}

/// What ties the transactions together.
#[derive(Drop)]
pub struct Survey<'a> {
    pub history: &'a [Transaction],
    /// The line of each key.
    lines: BTreeMap<u32, Line<'a>>,
    /// The appends of the values of the lines, one line after another. Each read of a key saw a prefix of its line.
    spots: Vec<Option<Spot>>,
    /// For each operation, one transaction after another, whether it appends a value that is in a line.
    seen: Vec<bool>,
    /// For each transaction the place of its first operation there.
    places: Vec<usize>,
    /// Which transactions take part: committed ones, and unknown ones of which a value was seen.
    pub runs: Vec<bool>,
    /// The appends of those that take part, with their keys, whose values are in no line.
    pub unseen: Vec<(u32, Spot)>,
    /// For a key and a transaction the position of the first such append.
    firsts: BTreeMap<(u32, usize), usize>,
    pub ties: Vec<Tie>,
    /// The reads of whole lines.
    pub enters: Vec<Visit>,
    /// The appends that are not in the lines of their keys.
    pub leaves: Vec<Visit>,
    /// A partial read, if there is one.
    pub partial: Option<Partial>,
}

impl<'a> Survey<'a> {
    /// The survey of a history whose reads have no fault and are prefixes of one another.
    pub fn of_history(
        alloc: Global,
        history: &'a [Transaction],
        appends: &AppendIndex,
    ) -> Result<Self, NoMemory> {
        let mut survey = Survey {
            history,
            lines: BTreeMap::new(alloc),
            spots: Vec::new(alloc),
            seen: Vec::new(alloc),
            places: Vec::new(alloc),
            runs: Vec::new(alloc),
            unseen: Vec::new(alloc),
            firsts: BTreeMap::new(alloc),
            ties: Vec::new(alloc),
            enters: Vec::new(alloc),
            leaves: Vec::new(alloc),
            partial: None,
        };
        each_read(history, |read| survey.offer(read))?;
        survey.mark_all(appends)?;
        survey.find_unseen()?;
        each_read(history, |read| survey.tie_read(read))?;
        for index in 0..survey.unseen.len() {
            if let Some((key, append)) = survey.unseen.get(index).copied() {
                survey.tie_append(key, append)?;
            }
        }
        Ok(survey)
    }

    /// How many lines there are.
    pub fn count(&self) -> usize {
        self.lines.len()
    }

    /// Makes the read the line of its key, if it saw more.
    fn offer(&mut self, read: Read<'a>) -> Result<(), NoMemory> {
        if let Some(line) = self.lines.get_mut(&read.key) {
            if line.read.seen.len() < read.seen.len() {
                line.read = read;
            }
            return Ok(());
        }
        let line = Line {
            number: self.lines.len(),
            read,
            first: 0,
            whole: None,
            waits: None,
        };
        self.lines.insert(read.key, line)?;
        Ok(())
    }

    /// Marks the transactions that take part, and the values of the lines.
    fn mark_all(&mut self, appends: &AppendIndex) -> Result<(), NoMemory> {
        for transaction in self.history {
            self.runs.push(transaction.status == Status::Committed)?;
            self.places.push(self.seen.len())?;
            for _ in 0..transaction.operations.len() {
                self.seen.push(false)?;
            }
        }
        for line in self.lines.values_mut() {
            line.first = self.spots.len();
            for value in line.read.seen {
                let spot = appends.find(line.read.key, *value);
                self.spots.push(spot)?;
                if let Some((by, append)) = spot {
                    mark(self.runs.as_mut_slice(), Some(by));
                    mark(
                        self.seen.as_mut_slice(),
                        place_in(self.places.as_slice(), by, append),
                    );
                }
            }
        }
        Ok(())
    }

    /// The appends of the values of the line between these indices.
    fn spots_of(&self, line: Line<'_>, from: usize, to: usize) -> &[Option<Spot>] {
        let from = line.first.saturating_add(from);
        let to = line.first.saturating_add(to);
        self.spots.as_slice().get(from..to).unwrap_or(&[])
    }

    /// Whether the transaction takes part.
    pub fn takes_part(&self, number: usize) -> bool {
        is_marked(self.runs.as_slice(), Some(number))
    }

    /// The key of the append at the position, if its transaction takes part and its value is in no line.
    pub fn unseen_at(&self, number: usize, position: usize) -> Option<u32> {
        if !self.takes_part(number) {
            return None;
        }
        match self.history.get(number)?.operations.get(position)? {
            Operation::Append { key, .. } => {
                let place = place_in(self.places.as_slice(), number, position);
                (!is_marked(self.seen.as_slice(), place)).then_some(*key)
            }
            Operation::Read { .. } => None,
        }
    }

    /// Finds the appends whose values are in no line, and the first one of each transaction to each key.
    fn find_unseen(&mut self) -> Result<(), NoMemory> {
        for number in 0..self.history.len() {
            for position in 0..length_of(self.history, number) {
                if let Some(key) = self.unseen_at(number, position) {
                    self.unseen.push((key, (number, position)))?;
                    if self.firsts.get(&(key, number)).is_none() {
                        self.firsts.insert((key, number), position)?;
                    }
                }
            }
        }
        Ok(())
    }

    /// Adds the ties of the read.
    fn tie_read(&mut self, read: Read<'a>) -> Result<(), NoMemory> {
        let Some(line) = self.lines.get(&read.key).copied() else {
            return Ok(());
        };
        if line.read.reader == read.reader && line.read.position == read.position {
            self.tie_values(line)?;
        }
        let seen = read.seen.len();
        let last = last_other(self.spots_of(line, 0, seen), read.reader);
        if let Some((from, append)) = last {
            let reason = Reason::Seen {
                append,
                read: read.position,
            };
            tie(&mut self.ties, from, read.reader, Ground::Observed(reason))?;
        }
        let Some((to, append)) = next_other(
            self.spots_of(line, seen, line.read.seen.len()),
            read.reader,
        ) else {
            return self.enter(line, read);
        };
        let reason = Reason::Missed {
            read: read.position,
            append,
        };
        self.note_partial(Some((read.reader, read.position)), last, (to, append));
        tie(&mut self.ties, read.reader, to, Ground::Observed(reason))
    }

    /// Notes that the read is partial, if the same transaction has the append that it saw and the one that it missed.
    fn note_partial(&mut self, read: Option<Spot>, seen: Option<Spot>, missed: Spot) {
        if let (Some((reader, read)), Some((by, seen)), None) = (read, seen, self.partial) {
            if by == missed.0 {
                self.partial = Some(Partial {
                    reader,
                    read,
                    by,
                    seen,
                    missed: missed.1,
                });
            }
        }
    }

    /// Adds the ties between the appenders of the values of the line.
    fn tie_values(&mut self, line: Line<'_>) -> Result<(), NoMemory> {
        let mut before = None;
        for index in 0..line.read.seen.len() {
            let next = self.spot_at(line, index);
            if let (Some(first), Some(second)) = (before, next) {
                tie_in_order(&mut self.ties, first, second, line.read)?;
            }
            before = next;
        }
        Ok(())
    }

    /// The append of the value of the line at the index.
    fn spot_at(&self, line: Line<'_>, index: usize) -> Option<Spot> {
        *self.spots.get(line.first.saturating_add(index))?
    }

    /// The append of the line's last value.
    fn last_of(&self, line: Line<'_>) -> Option<Spot> {
        self.spot_at(line, line.read.seen.len().checked_sub(1)?)
    }

    /// Notes that the read saw the whole line.
    fn enter(&mut self, line: Line<'a>, read: Read<'a>) -> Result<(), NoMemory> {
        self.enters.push(Visit {
            line: line.number,
            transaction: read.reader,
            position: read.position,
        })?;
        let is_whole = read.seen.len() == line.read.seen.len();
        let ends_with_own = self.last_of(line).is_some_and(|it| it.0 == read.reader);
        let first = self.firsts.get(&(read.key, read.reader)).copied();
        if let Some(line) = self.lines.get_mut(&read.key) {
            let read = (read.reader, read.position);
            if line.whole.is_none() && is_whole && !ends_with_own {
                line.whole = Some(read);
            }
            if line.waits.is_none() {
                line.waits = first.map(|first| (read, first));
            }
        }
        Ok(())
    }

    /// Adds the ties of the append, whose value is not in the line of the key.
    fn tie_append(&mut self, key: u32, append: Spot) -> Result<(), NoMemory> {
        let Some(line) = self.lines.get(&key).copied() else {
            return Ok(());
        };
        let (number, position) = append;
        self.leaves.push(Visit {
            line: line.number,
            transaction: number,
            position,
        })?;
        let last = self.last_of(line);
        self.note_partial(line.whole, last, append);
        if let Some(first) = last {
            tie_late(&mut self.ties, first, append, line.read)?;
        }
        let Some(((from, read), first)) = line.waits else {
            return Ok(());
        };
        let ground = Ground::Wait {
            first,
            second: position,
            read,
            append: position,
        };
        tie(&mut self.ties, from, number, ground)
    }
}

/// Calls the function with each read of a committed transaction.
pub fn each_read<'a, F: FnMut(Read<'a>) -> Result<(), NoMemory>>(
    history: &'a [Transaction],
    mut call: F,
) -> Result<(), NoMemory>
    requires { F.IsAlwaysCallable call }
{
    for number in 0..history.len() {
        for position in 0..length_of(history, number) {
            if let Some(read) = read_of(history, number, position) {
                call(read)?;
            }
        }
    }
    Ok(())
}

/// How many operations the transaction has.
pub fn length_of(history: &[Transaction], number: usize) -> usize
    ensures { result ≡ length (operations_of history.now number) }
{
    match history.get(number) {
        Some(transaction) => transaction.operations.len(),
        None => 0,
    }
}

/// The place of the operation among those of all transactions. `places` has those of the transactions' first ones.
fn place_in(places: &[usize], number: usize, position: usize) -> Option<usize> {
    places.get(number)?.checked_add(position)
}

/// Sets the mark at the place, if there is one.
fn mark(marks: &mut [bool], place: Option<usize>) {
    if let Some(mark) = place.and_then(|place| marks.get_mut(place)) {
        *mark = true;
    }
}

/// Whether the mark at the place is set.
fn is_marked(marks: &[bool], place: Option<usize>) -> bool {
    place
        .and_then(|place| marks.get(place))
        .copied()
        .unwrap_or(false)
}

/// The last of these appends that is not the reader's own.
fn last_other(spots: &[Option<Spot>], reader: usize) -> Option<Spot> {
    spots
        .iter()
        .rev()
        .find_map(|spot| spot.filter(|it| it.0 != reader))
}

/// The first of these appends that is not the reader's own.
fn next_other(spots: &[Option<Spot>], reader: usize) -> Option<Spot> {
    spots
        .iter()
        .find_map(|spot| spot.filter(|it| it.0 != reader))
}

/// Adds the tie, unless it leads from a transaction to itself.
pub fn tie(ties: &mut Vec<Tie>, from: usize, to: usize, ground: Ground) -> Result<(), NoMemory> {
    if from != to {
        ties.push(Tie { from, to, ground })?;
    }
    Ok(())
}

/// Adds the tie between appends of which the read saw the one before the other.
pub fn tie_in_order(
    ties: &mut Vec<Tie>,
    (from, first): Spot,
    (to, second): Spot,
    read: Read<'_>,
) -> Result<(), NoMemory> {
    let reason = Reason::InOrder {
        first,
        second,
        reader: read.reader,
        read: read.position,
    };
    tie(ties, from, to, Ground::Observed(reason))
}

/// Adds the tie between appends of which the read saw the one and not the other.
pub fn tie_late(
    ties: &mut Vec<Tie>,
    (from, first): Spot,
    (to, second): Spot,
    read: Read<'_>,
) -> Result<(), NoMemory> {
    let ground = Ground::Late {
        first,
        second,
        reader: read.reader,
        read: read.position,
    };
    tie(ties, from, to, ground)
}
