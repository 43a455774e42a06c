//! Which transaction wrote the newest version of a key.
ghost use Rattle.std.specs.Prelude.{◌≡◌, ◌≤◌, ◌<◌, ◌↔◌, Some, true, length, min, not, IsTrue, IfSome, IfNone};
ghost use Rattle.std.specs.Option.{option_map};
ghost use Rattle.sgt_model.specs.declared.reply.Fate.{Fate};
ghost use Rattle.sgt_model.specs.Accesses.{Access};
ghost use Rattle.sgt_model.specs.Fates.{aborted, ending_in, has_aborted};
ghost use Rattle.sgt_model.specs.Values.{stores, newest_store};
ghost use Rattle.sgt_model.specs.Paths.{Member};
ghost use Rattle.sgt_explain.specs.Places.{entries_before, placed_access};

use crate::indexed_history::IndexedHistory;
use crate::made::made_at;
use sgt_log::EntryRef;
use sgt_model::{Key, Kind, Tid};

/// The transaction of the newest write of the key before the end, not counting transactions aborted by then. None if
/// there is none, or if it is before the low position.
pub(crate) fn newest_writer(
    history: &IndexedHistory,
    low: usize,
    end: usize,
    key: Key,
) -> Option<Tid>
    requires { end ≤ length history.now }
    ensures some { IfSome result (λ w. Some w ≡ option_map (λ (a : Access). a.by)
        (newest_store (λ v. not (aborted (entries_before history.now end) v)) key (entries_before history.now end))) }
    ensures none { IfNone result (newest_store (λ v. not (aborted (entries_before history.now end) v)) key (entries_before history.now end)
        ≡ newest_store (λ v. not (aborted (entries_before history.now end) v)) key (entries_before history.now (min low end))) }
{
    let floor = low.min(end);
    let mut place = end;
    while floor < place {
        place -= 1;
        if let Some(writer) = writer_at(history, place, key) {
            if !is_aborted(history, end, writer) {
                return Some(writer);
            }
        }
    }
    None
}

// The transaction that writes the key at this position, if the entry is a write of it.
fn writer_at(history: &IndexedHistory, place: usize, key: Key) -> Option<Tid>
    requires { place < length history.now }
    ensures { result ≡ option_map (λ (a : Access). a.by) (stores (λ v. true) key (placed_access history.now place)) }
{
    let made = made_at(history, place)?;
    if made.kind == Kind::Store && made.key == key {
        Some(made.by)
    } else {
        None
    }
}

// Whether the transaction was aborted before the end, in cascade or not.
fn is_aborted(history: &IndexedHistory, end: usize, t: Tid) -> bool
    requires { end ≤ length history.now }
    ensures { result ≡ aborted (entries_before history.now end) t }
{
    let floor = history.first(t).min(end);
    let mut place = end;
    while floor < place {
        place -= 1;
        if let Some(by_abort) = ending_at(&history.entry(place), t) {
            return by_abort;
        }
    }
    false
}

// Whether the entry ends the transaction by an abort, its own or a cascading one. None if the entry does not end it.
fn ending_at(entry: &EntryRef<'_>, t: Tid) -> Option<bool>
    ensures { result ≡ option_map (λ (f : Fate). has_aborted (Some f)) (ending_in entry.now.event entry.now.reply t) }
{
    if !entry.is_ending() {
        return None;
    }
    if entry.named() == Some(t) {
        return Some(!entry.is_commit());
    }
    if is_among(entry.fell(), t) {
        return Some(true);
    }
    None
}

/// Whether the transaction is one of these.
pub(crate) fn is_among(tids: &[Tid], t: Tid) -> bool
    ensures { IsTrue result ↔ Member t tids.now }
{
    tids.contains(&t)
}
