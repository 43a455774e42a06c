//! The precedence graph of the transactions and the ends of the lines, with few links.
//!
//! Its nodes are the transactions, and an end for each line. The end comes after all that saw the whole line, and
//! before all that append a value that is not in it.
ghost use Rattle.std.specs.Prelude.{◌≡◌, ◌≢◌, ◌<◌, ◌≤◌, ◌+◌, ◌^◌, ◌↔◌, ◌⊎◌, ℕ, List, [], Some, None, OnOk, IfOk, IfSome, IsNone, length};
ghost use Rattle.std.proofs.Common.{get_or, take};
ghost use Rattle.sgt_appends.specs.declared.sorting.Link.{Link};
ghost use Rattle.sgt_appends.specs.declared.transaction.Status.TheVariants.{Committed};
ghost use Rattle.sgt_appends.specs.Lists.{Has, IsPrefix};
ghost use Rattle.sgt_appends.specs.Runs.{Ended, MayRun};
ghost use Rattle.sgt_appends.specs.Orders.{AllClean};
ghost use Rattle.sgt_appends.specs.Reads.{IsReadAt};
ghost use Rattle.sgt_appends.specs.Indexes.{Positions, position_of, IsIndex, AppendAt};
ghost use Rattle.sgt_appends.specs.Lines.{line_in, keys_in, values_in, has_pair, AreNumbered};
ghost use Rattle.sgt_appends.specs.Links.{has_number, IsKnownBy, IsFirstUnknown, AreIndexed, AreAllIndexed};
ghost use Rattle.sgt_appends.specs.Meanings.{LeadsFromEnd, IsMeant};
ghost use Rattle.sgt_appends.specs.Required.{CanLink, IsLinked, AreMore, IsAdded, IsPaired, IsBefore, IsNextLink, AreNextLinked, reads_in, AreLongLinked, IsOwn, IsLastOther, IsSeenLink, IsLastLinked, IsMissTarget, IsMissLink, IsMissLinked, IsReadLinked, IsAppendLinkedAt, IsReadLinkedAt, IsEndBefore, AreLinked, AreAllLinked};

use crate::append_index::AppendIndex;
use crate::fault::starts_with;
use crate::lines::{Line, Lines, all_values};
use crate::reads::{Read, read_of};
use crate::sorting::Link;
use crate::transaction::{Operation, Status, Transaction};
use crate::witness::{Reason, has};
use sgt_model::NoMemory;
use std::alloc::Global;
use std::collections::{BTreeMap, BTreeSet};

/// A history without faults, with the index of its appends and its lines.
#[derive(Clone, Copy)]
struct Clean<'a> {
    history: &'a [Transaction],
    appends: &'a AppendIndex,
    lines: &'a Lines,
}

/// The links from and to the transactions of the history.
pub fn links_of(
    alloc: Global,
    history: &[Transaction],
    appends: &AppendIndex,
    lines: &Lines,
) -> Result<Vec<Link>, NoMemory>
    requires { CanLink history.now (position_of appends.now) (line_in lines.now) (keys_in lines.now) }
    ensures { IfOk result (λ links. AreAllLinked history.now (position_of appends.now) (line_in lines.now) (keys_in lines.now) links.items) }
{
    let values = all_values(alloc, lines)?;
    let mut longest = BTreeMap::new(alloc);
    let mut links = Vec::new(alloc);
    let clean = Clean {
        history,
        appends,
        lines,
    };
    for number in 0..history.len() {
        add_transaction(&mut links, &mut longest, alloc, clean, &values, number)?;
    }
    Ok(links)
}

/// Adds the links of the transaction's reads and appends. `longest` has the longest reads that are linked.
fn add_transaction(
    links: &mut Vec<Link>,
    longest: &mut BTreeMap<u32, (usize, usize)>,
    alloc: Global,
    clean: Clean<'_>,
    values: &BTreeSet<(u32, u64)>,
    number: usize,
) -> Result<(), NoMemory>
    requires clean { CanLink clean.history.now (position_of clean.appends.now) (line_in clean.lines.now) (keys_in clean.lines.now) }
    requires values { (k v : ℕ) → has_pair values.now k v ↔ Has (values_in (line_in clean.lines.now) k) v }
    requires linked { AreLinked clean.history.now (position_of clean.appends.now) (line_in clean.lines.now) (keys_in clean.lines.now) links.old.items number 0 }
    requires longest { AreLongLinked clean.history.now (position_of clean.appends.now) links.old.items (reads_in longest.old) }
    ensures linked { OnOk result (AreLinked clean.entry.history.now (position_of clean.entry.appends.now) (line_in clean.entry.lines.now) (keys_in clean.entry.lines.now) links.new.items (number + 1) 0) }
    ensures longest { OnOk result (AreLongLinked clean.entry.history.now (position_of clean.entry.appends.now) links.new.items (reads_in longest.new)) }
{
    let Some(transaction) = clean.history.get(number) else {
        return Ok(());
    };
    for position in 0..transaction.operations.len() {
        add_position(links, longest, alloc, clean, values, number, position)?;
    }
    Ok(())
}

/// Adds the links of the transaction's operation at the position.
fn add_position(
    links: &mut Vec<Link>,
    longest: &mut BTreeMap<u32, (usize, usize)>,
    alloc: Global,
    clean: Clean<'_>,
    values: &BTreeSet<(u32, u64)>,
    number: usize,
    position: usize,
) -> Result<(), NoMemory>
    requires clean { CanLink clean.history.now (position_of clean.appends.now) (line_in clean.lines.now) (keys_in clean.lines.now) }
    requires values { (k v : ℕ) → has_pair values.now k v ↔ Has (values_in (line_in clean.lines.now) k) v }
    requires longest { AreLongLinked clean.history.now (position_of clean.appends.now) links.old.items (reads_in longest.old) }
    ensures more { OnOk result (AreMore links.old.items links.new.items (IsMeant clean.entry.history.now (line_in clean.entry.lines.now) (keys_in clean.entry.lines.now))) }
    ensures read { OnOk result (IsReadLinkedAt clean.entry.history.now (position_of clean.entry.appends.now) (line_in clean.entry.lines.now) links.new.items number position) }
    ensures append { OnOk result (IsAppendLinkedAt clean.entry.history.now (line_in clean.entry.lines.now) links.new.items number position) }
    ensures longest { OnOk result (AreLongLinked clean.entry.history.now (position_of clean.entry.appends.now) links.new.items (reads_in longest.new)) }
{
    add_read(links, longest, alloc, clean, number, position)?;
    add_unseen(links, clean.history, clean.lines, values, number, position)?;
    Ok(())
}

/// Adds the links of the read at the position, if the transaction committed.
fn add_read(
    links: &mut Vec<Link>,
    longest: &mut BTreeMap<u32, (usize, usize)>,
    alloc: Global,
    clean: Clean<'_>,
    number: usize,
    position: usize,
) -> Result<(), NoMemory>
    requires clean { CanLink clean.history.now (position_of clean.appends.now) (line_in clean.lines.now) (keys_in clean.lines.now) }
    requires longest { AreLongLinked clean.history.now (position_of clean.appends.now) links.old.items (reads_in longest.old) }
    ensures more { OnOk result (AreMore links.old.items links.new.items (IsMeant clean.entry.history.now (line_in clean.entry.lines.now) (keys_in clean.entry.lines.now))) }
    ensures linked { OnOk result (IsReadLinkedAt clean.entry.history.now (position_of clean.entry.appends.now) (line_in clean.entry.lines.now) links.new.items number position) }
    ensures longest { OnOk result (AreLongLinked clean.entry.history.now (position_of clean.entry.appends.now) links.new.items (reads_in longest.new)) }
{
    match read_of(clean.history, number, position) {
        Some(read) => {
            add_next(links, longest, clean.history, clean.appends, read)?;
            add_last(links, clean.appends, read)?;
            add_missed(
                links,
                alloc,
                clean.history.len(),
                clean.appends,
                clean.lines,
                read,
            )?;
            Ok(())
        }
        None => Ok(()),
    }
}

/// Adds the link, unless it leads from a node to itself.
fn add(links: &mut Vec<Link>, link: Link) -> Result<(), NoMemory>
    ensures { OnOk result (IsAdded links.old.items links.new.items link) }
{
    if link.from != link.to {
        links.push(link)?;
    }
    Ok(())
}

/// Adds the links from the appender of each value that the read saw to the appender of the next one, but for those that
/// the longest read of the key before has already.
fn add_next(
    links: &mut Vec<Link>,
    longest: &mut BTreeMap<u32, (usize, usize)>,
    history: &[Transaction],
    appends: &AppendIndex,
    read: Read<'_>,
) -> Result<(), NoMemory>
    requires indexed { AreIndexed (position_of appends.now) read.key read.seen.now }
    requires read { IsReadAt history.now read.reader read.position read.key read.seen.now }
    requires longest { AreLongLinked history.now (position_of appends.now) links.old.items (reads_in longest.old) }
    ensures more { OnOk result (AreMore links.old.items links.new.items
        (IsNextLink (position_of appends.now) read.entry.reader read.entry.position read.entry.key read.entry.seen.now)) }
    ensures linked { OnOk result (AreNextLinked (position_of appends.now) links.new.items read.entry.key read.entry.seen.now
        (length read.entry.seen.now)) }
    ensures longest { OnOk result (AreLongLinked history.now (position_of appends.now) links.new.items (reads_in longest.new)) }
{
    let from = linked_already(history, longest, read);
    if from == read.seen.len() {
        return Ok(());
    }
    add_from(links, appends, read, from)?;
    longest.insert(read.key, (read.reader, read.position))?;
    Ok(())
}

/// How many of the first values that the read saw are linked, each with the next, if those are that the longest reads saw.
fn linked_already(
    history: &[Transaction],
    longest: &BTreeMap<u32, (usize, usize)>,
    read: Read<'_>,
) -> usize
    ensures within { result ≤ length read.entry.seen.now }
    ensures linked { (at : Positions) (links : List Link) → AreLongLinked history.now at links (reads_in longest.now)
        → AreNextLinked at links read.entry.key read.entry.seen.now result }
{
    let Some((reader, position)) = longest.get(&read.key).copied() else {
        return 0;
    };
    match read_of(history, reader, position) {
        Some(before) if before.key == read.key => same_front(before.seen, read.seen),
        _ => 0,
    }
}

/// How many of the first values of the lists are the same, if one is a prefix of the other, else 0.
fn same_front(before: &[u64], seen: &[u64]) -> usize
    ensures of_seen { result ≤ length seen.now }
    ensures of_before { result ≤ length before.now }
    ensures same { take result seen.now ≡ take result before.now }
{
    if starts_with(seen, before) {
        before.len()
    } else if starts_with(before, seen) {
        seen.len()
    } else {
        0
    }
}

/// Adds the links from the appender of each value that the read saw to the appender of the next one. The first values are
/// linked.
fn add_from(
    links: &mut Vec<Link>,
    appends: &AppendIndex,
    read: Read<'_>,
    from: usize,
) -> Result<(), NoMemory>
    requires indexed { AreIndexed (position_of appends.now) read.key read.seen.now }
    requires within { from ≤ length read.seen.now }
    requires linked { AreNextLinked (position_of appends.now) links.old.items read.key read.seen.now from }
    ensures more { OnOk result (AreMore links.old.items links.new.items
        (IsNextLink (position_of appends.now) read.entry.reader read.entry.position read.entry.key read.entry.seen.now)) }
    ensures linked { OnOk result (AreNextLinked (position_of appends.now) links.new.items read.entry.key read.entry.seen.now
        (length read.entry.seen.now)) }
{
    let mut before = before_at(appends, read, from);
    for at in from..read.seen.len() {
        let next = position_in(appends, read.key, read.seen[at]);
        add_pair(links, before, next, read)?;
        before = Some(next);
    }
    Ok(())
}

/// The append of the value before the one at the index, if there is one.
fn before_at(appends: &AppendIndex, read: Read<'_>, index: usize) -> Option<(usize, usize)>
    requires indexed { AreIndexed (position_of appends.now) read.key read.seen.now }
    requires within { index ≤ length read.seen.now }
    ensures { IsBefore (position_of appends.now) read.entry.key read.entry.seen.now index result }
{
    if index == 0 {
        return None;
    }
    Some(position_in(appends, read.key, read.seen[index - 1]))
}

/// Adds the link from the one append to the other, which the read saw after it.
fn add_pair(
    links: &mut Vec<Link>,
    before: Option<(usize, usize)>,
    next: (usize, usize),
    read: Read<'_>,
) -> Result<(), NoMemory>
    ensures { OnOk result (IsPaired links.old.items links.new.items before next read.entry.reader read.entry.position) }
{
    match before {
        Some((from, first)) => {
            let reason = Reason::InOrder {
                first,
                second: next.1,
                reader: read.reader,
                read: read.position,
            };
            add(
                links,
                Link {
                    from,
                    to: next.0,
                    reason,
                },
            )
        }
        None => Ok(()),
    }
}

/// The transaction that appends the value to the key, and the position of the append in it.
fn position_in(appends: &AppendIndex, key: u32, value: u64) -> (usize, usize)
    requires { (x : ℕ × ℕ) × (position_of appends.now key value ≡ Some x) }
    ensures { position_of appends.now key value ≡ Some result }
{
    match appends.find(key, value) {
        Some(found) => found,
        None => unreachable!(),
    }
}

/// Adds the link to the reader from the appender of the last value seen that is not its own.
fn add_last(links: &mut Vec<Link>, appends: &AppendIndex, read: Read<'_>) -> Result<(), NoMemory>
    requires { AreIndexed (position_of appends.now) read.key read.seen.now }
    ensures more { OnOk result (AreMore links.old.items links.new.items
        (IsSeenLink (position_of appends.now) read.entry.reader read.entry.position read.entry.key read.entry.seen.now)) }
    ensures linked { OnOk result (IsLastLinked (position_of appends.now) links.new.items read.entry.reader read.entry.key read.entry.seen.now) }
{
    match last_other(appends, read) {
        Some((from, append)) => {
            let reason = Reason::Seen {
                append,
                read: read.position,
            };
            add(
                links,
                Link {
                    from,
                    to: read.reader,
                    reason,
                },
            )?;
            Ok(())
        }
        None => Ok(()),
    }
}

/// The append of the last value seen that the reader does not append itself.
fn last_other(appends: &AppendIndex, read: Read<'_>) -> Option<(usize, usize)>
    requires { AreIndexed (position_of appends.now) read.key read.seen.now }
    ensures some { IfSome result (IsLastOther (position_of appends.now) read.entry.reader read.entry.key read.entry.seen.now) }
    ensures none { IsNone result → (j : ℕ) → j < length read.entry.seen.now
        → IsOwn (position_of appends.now) read.entry.reader read.entry.key (get_or read.entry.seen.now j 0) }
{
    let mut rest = read.seen.len();
    while rest > 0 {
        rest -= 1;
        let found = position_in(appends, read.key, read.seen[rest]);
        if found.0 != read.reader {
            return Some(found);
        }
    }
    None
}

/// Adds the link from the reader to the appender of the first value of the line that it does not know, or to the line's
/// end.
fn add_missed(
    links: &mut Vec<Link>,
    alloc: Global,
    transactions: usize,
    appends: &AppendIndex,
    lines: &Lines,
    read: Read<'_>,
) -> Result<(), NoMemory>
    requires numbered { AreNumbered (line_in lines.now) (keys_in lines.now) }
    requires indexed { AreAllIndexed (position_of appends.now) (line_in lines.now) }
    requires fits { transactions + length (keys_in lines.now) < 2 ^ 64 }
    ensures more { OnOk result (AreMore links.old.items links.new.items (IsMissLink (position_of appends.now) transactions (line_in lines.now)
        read.entry.reader read.entry.position read.entry.key read.entry.seen.now)) }
    ensures linked { OnOk result (IsMissLinked (position_of appends.now) transactions (line_in lines.now) links.new.items read.entry.reader
        read.entry.key read.entry.seen.now) }
{
    let Some(line) = lines.find(read.key) else {
        return Ok(());
    };
    let (to, append) = missed(alloc, transactions, appends, line, read)?;
    let reason = Reason::Missed {
        read: read.position,
        append,
    };
    add(
        links,
        Link {
            from: read.reader,
            to,
            reason,
        },
    )?;
    Ok(())
}

/// The append of the first value of the line that the reader does not know, or the end of the line.
fn missed(
    alloc: Global,
    transactions: usize,
    appends: &AppendIndex,
    line: &Line,
    read: Read<'_>,
) -> Result<(usize, usize), NoMemory>
    requires indexed { AreIndexed (position_of appends.now) read.key line.now.values.items }
    requires fits { transactions + line.now.number < 2 ^ 64 }
    ensures { IfOk result (IsMissTarget (position_of appends.now) transactions read.entry.reader read.entry.key read.entry.seen.now line.now) }
{
    match first_unknown(alloc, appends, line.values.as_slice(), read)? {
        Some(found) => Ok(found),
        None => Ok((transactions + line.number, 0)),
    }
}

/// Adds the link from the end of the line to the transaction, if its append at the position is not in the line.
fn add_unseen(
    links: &mut Vec<Link>,
    history: &[Transaction],
    lines: &Lines,
    values: &BTreeSet<(u32, u64)>,
    number: usize,
    position: usize,
) -> Result<(), NoMemory>
    requires numbered { AreNumbered (line_in lines.now) (keys_in lines.now) }
    requires fits { length history.now + length (keys_in lines.now) < 2 ^ 64 }
    requires values { (k v : ℕ) → has_pair values.now k v ↔ Has (values_in (line_in lines.now) k) v }
    ensures more { OnOk result (AreMore links.old.items links.new.items (LeadsFromEnd history.now (line_in lines.now) (keys_in lines.now))) }
    ensures linked { OnOk result (IsAppendLinkedAt history.now (line_in lines.now) links.new.items number position) }
{
    match end_before(history, lines, values, number, position) {
        Some(end) => {
            let reason = Reason::Missed {
                read: 0,
                append: position,
            };
            add(
                links,
                Link {
                    from: end,
                    to: number,
                    reason,
                },
            )?;
            Ok(())
        }
        None => Ok(()),
    }
}

/// The end of the line, if the value that the transaction appends at the position is not in it.
fn end_before(
    history: &[Transaction],
    lines: &Lines,
    values: &BTreeSet<(u32, u64)>,
    number: usize,
    position: usize,
) -> Option<usize>
    requires numbered { AreNumbered (line_in lines.now) (keys_in lines.now) }
    requires fits { length history.now + length (keys_in lines.now) < 2 ^ 64 }
    requires values { (k v : ℕ) → has_pair values.now k v ↔ Has (values_in (line_in lines.now) k) v }
    ensures some { IfSome result (IsEndBefore history.now (line_in lines.now) number position) }
    ensures none { IsNone result → (k v : ℕ) → MayRun history.now number → AppendAt history.now number position k v
        → line_in lines.now k ≡ None ⊎ Has (values_in (line_in lines.now) k) v }
{
    let (key, value) = append_of(history, number, position)?;
    if values.contains(&(key, value)) {
        return None;
    }
    let line = lines.find(key)?;
    Some(history.len() + line.number)
}

/// The key and the value of the append at the position, if the transaction is not aborted.
pub(crate) fn append_of(
    history: &[Transaction],
    number: usize,
    position: usize,
) -> Option<(u32, u64)>
    ensures some { IfSome result (λ x. AppendAt history.now number position x.0 x.1) }
    ensures none { IsNone result → (k v : ℕ) → MayRun history.now number → ¬ AppendAt history.now number position k v }
{
    let transaction = history.get(number)?;
    if transaction.status == Status::Aborted {
        return None;
    }
    match transaction.operations.get(position)? {
        Operation::Append { key, value } => Some((*key, *value)),
        Operation::Read { .. } => None,
    }
}

/// The appender of the first value of the line that the reader neither saw nor appends, and the position of the append.
fn first_unknown(
    alloc: Global,
    appends: &AppendIndex,
    line: &[u64],
    read: Read<'_>,
) -> Result<Option<(usize, usize)>, NoMemory>
    requires { AreIndexed (position_of appends.now) read.key line.now }
    ensures some { IfOk result (λ found. IfSome found (λ x.
        IsFirstUnknown (position_of appends.now) read.entry.reader read.entry.key read.entry.seen.now line.now x)) }
    ensures none { IfOk result (λ found. IsNone found → (v : ℕ) → Has line.now v
        → IsKnownBy (position_of appends.now) read.entry.reader read.entry.key read.entry.seen.now v) }
{
    if starts_with(line, read.seen) {
        return Ok(first_beyond(appends, line, read));
    }
    first_in_set(alloc, appends, line, read)
}

/// The same where the line starts with what the reader saw.
fn first_beyond(appends: &AppendIndex, line: &[u64], read: Read<'_>) -> Option<(usize, usize)>
    requires indexed { AreIndexed (position_of appends.now) read.key line.now }
    requires starts { IsPrefix read.seen.now line.now }
    ensures some { IfSome result (λ x.
        IsFirstUnknown (position_of appends.now) read.entry.reader read.entry.key read.entry.seen.now line.now x) }
    ensures none { IsNone result → (v : ℕ) → Has line.now v
        → IsKnownBy (position_of appends.now) read.entry.reader read.entry.key read.entry.seen.now v }
{
    for at in read.seen.len()..line.len() {
        if let Some(found) = unknown_in(appends, read, line[at]) {
            return Some(found);
        }
    }
    None
}

/// The appender of the value, and the position of the append, if the reader neither saw nor appends it.
fn unknown_in(appends: &AppendIndex, read: Read<'_>, value: u64) -> Option<(usize, usize)>
    ensures some { IfSome result (λ x. (¬ Has read.entry.seen.now value) × (position_of appends.now read.entry.key value ≡ Some x)
        × (x.0 ≢ read.entry.reader)) }
    ensures none { IsNone result → Has read.entry.seen.now value ⊎ ((position_of appends.now read.entry.key value ≡ None)
        ⊎ ((p : ℕ) × (position_of appends.now read.entry.key value ≡ Some (read.entry.reader, p)))) }
{
    let (by, append) = appends.find(read.key, value)?;
    if by == read.reader || has(read.seen, value) {
        return None;
    }
    Some((by, append))
}

/// The same for any line, by a set of what the reader saw.
fn first_in_set(
    alloc: Global,
    appends: &AppendIndex,
    line: &[u64],
    read: Read<'_>,
) -> Result<Option<(usize, usize)>, NoMemory>
    requires { AreIndexed (position_of appends.now) read.key line.now }
    ensures some { IfOk result (λ found. IfSome found (λ x.
        IsFirstUnknown (position_of appends.now) read.entry.reader read.entry.key read.entry.seen.now line.now x)) }
    ensures none { IfOk result (λ found. IsNone found → (v : ℕ) → Has line.now v
        → IsKnownBy (position_of appends.now) read.entry.reader read.entry.key read.entry.seen.now v) }
{
    let seen = set_of(alloc, read.seen)?;
    for value in line {
        if let Some(found) = unknown_at(appends, &seen, read.reader, read.key, *value) {
            return Ok(Some(found));
        }
    }
    Ok(None)
}

/// The appender of the value to the key, and the position of the append, if the reader neither saw nor appends it.
fn unknown_at(
    appends: &AppendIndex,
    seen: &BTreeSet<u64>,
    reader: usize,
    key: u32,
    value: u64,
) -> Option<(usize, usize)>
    ensures some { IfSome result (λ x. (¬ has_number seen.now value) × (position_of appends.now key value ≡ Some x) × (x.0 ≢ reader)) }
    ensures none { IsNone result → has_number seen.now value
        ⊎ ((position_of appends.now key value ≡ None) ⊎ ((p : ℕ) × (position_of appends.now key value ≡ Some (reader, p)))) }
{
    if seen.contains(&value) {
        return None;
    }
    let (by, append) = appends.find(key, value)?;
    if by == reader {
        return None;
    }
    Some((by, append))
}

/// The numbers of the list.
fn set_of(alloc: Global, values: &[u64]) -> Result<BTreeSet<u64>, NoMemory>
    ensures { IfOk result (λ set. (v : ℕ) → has_number set v ↔ Has values.now v) }
{
    let mut set = BTreeSet::new(alloc);
    for value in values {
        set.insert(*value)?;
    }
    Ok(set)
}
