//! The receipts of a session.
ghost use Rattle.std.specs.Prelude.{◌≡◌, ℕ, ◌+◌, ◌≤◌, ◌<◌, ◌^◌, ◌↔◌, [], ◌∷◌, ◌++◌, List, length, reverse, IsTrue, Some, OnOk, slice_get};
ghost use Rattle.std.specs.Result.{IsOk};
ghost use Rattle.std.specs.Option.{option_map};
ghost use Rattle.sgt_model.specs.declared.entry.Entry.{Entry};
ghost use Rattle.sgt_session.specs.declared.receipt.Receipt.{Receipt};
ghost use Rattle.sgt_log.specs.StepKinds.{IsOfKind};
ghost use Rattle.sgt_session.specs.Receipts.{receipt_of, entry_of, IsReceiptAt};

use crate::numbers::Numbers;
use crate::receipt::Receipt;
use sgt_log::{EntryRef, History, StepKind};
use sgt_model::NoMemory;
use std::alloc::Global;
use std::marker::Model;

/// How many receipts are prefaulted at a time: about 3 MB.
const AT_ONCE: usize = 65_536;

/// How many receipts of capacity an allocation adds beyond those that were requested, so that allocations are rare, and
/// the lists long enough to grow without being copied.
const AHEAD: usize = 2_048;

/// The receipts of one session, in the order of its calls. The receipt of a step, a start or a commit takes 24 bytes,
/// another one 64, and 8 more if the session is not alone. Its lists take 4 bytes for each transaction and 8 for each value.
///
/// There is capacity for some more receipts, whatever they hold: appending one uses that capacity, and allocates
/// nothing.
#[derive(Drop)]
pub struct Receipts {
    numbers: Numbers,
    // The entries that have these numbers.
    calls: History,
    // How many more receipts there is capacity for.
    spare: usize,
    // How far the memory is prefaulted.
    prefaulted: usize,
}

impl Model for Receipts {
    ghost use Rattle.std.specs.Prelude.{◌≡◌, ◌+◌, ◌≤◌, length};
    ghost use Rattle.sgt_session.specs.Receipts.{ReceiptsView, receipts_of};

    ghost Value = { ReceiptsView };

    ghost view = { λ r. record {
      receipts = receipts_of r.numbers.items r.calls.entries;
      spare = r.spare;
    } };

    ghost invariant = { λ r.
        (length r.numbers.items ≡ length r.calls.entries)
        × (length r.numbers.items + r.spare ≤ r.numbers.capacity)
        × (r.spare ≤ r.calls.spare) };
}

impl Receipts {
    /// No receipts and no capacity. Allocates nothing.
    pub(crate) fn new(alloc: Global) -> Self
        ensures { result ≡ record { receipts = []; spare = 0 } }
    {
        Receipts {
            numbers: Numbers::new(alloc),
            calls: History::new(alloc),
            spare: 0,
            prefaulted: 0,
        }
    }

    /// How many receipts there are.
    pub fn len(&self) -> usize
        ensures { result ≡ length self.now.receipts }
    {
        self.numbers.len()
    }

    /// Whether there are no receipts.
    pub fn is_empty(&self) -> bool
        ensures { IsTrue result ↔ (self.now.receipts ≡ []) }
    {
        self.len() == 0
    }

    /// The receipt at an index.
    pub fn at(&self, place: usize) -> Receipt
        requires { place < length self.now.receipts }
        ensures { slice_get self.now.receipts place ≡ Some result }
    {
        let entry = self.calls.at(place);
        Receipt {
            number: self.numbers.at(place),
            event: entry.event,
            reply: entry.reply,
        }
    }

    /// The receipt at an index, if there is one.
    pub fn get(&self, place: usize) -> Option<Receipt>
        ensures { result ≡ slice_get self.now.receipts place }
    {
        if place < self.len() {
            Some(self.at(place))
        } else {
            None
        }
    }

    /// The number of the receipt at an index.
    fn number(&self, place: usize) -> u64
        requires { place < length self.now.receipts }
        ensures { option_map (λ (r : Receipt). r.number) (slice_get self.now.receipts place) ≡ Some result }
    {
        self.numbers.at(place)
    }

    /// The entry of the receipt at an index, by reference.
    fn entry(&self, place: usize) -> EntryRef<'_>
        requires { place < length self.now.receipts }
        ensures { option_map entry_of (slice_get self.now.receipts place) ≡ Some result }
    {
        self.calls.entry(place)
    }

    /// How many receipts, one after another from an index on, are those of a history's entries from this number on.
    pub(crate) fn run_at(&self, place: usize, history: &History, number: usize) -> usize
        requires { number ≤ length history.now.entries }
        ensures receipts { (k : ℕ) → k < result
            → IsReceiptAt self.now.receipts (place + k) history.now.entries (number + k) }
        ensures within { number + result ≤ length history.now.entries }
        ensures fits { 0 < result → place + result < 2 ^ 64 }
    {
        let left = self.len().saturating_sub(place);
        if left == 0 {
            return 0;
        }
        let most = (history.len() - number).min(left);
        let count = self.numbers.following(place, number, most);
        for k in 0..count {
            if !self.calls.is_same_at(place + k, history, number + k) {
                return k;
            }
        }
        count
    }

    /// The newest receipt of a list that is not empty.
    pub fn last(&self) -> Receipt
        requires { 0 < length self.now.receipts }
        ensures { (rs : List Receipt) (r : Receipt) → self.now.receipts ≡ rs ++ r ∷ [] → result ≡ r }
    {
        self.at(self.len() - 1)
    }

    /// The number of the newest receipt, of a list that is not empty.
    pub fn last_number(&self) -> u64
        requires { 0 < length self.now.receipts }
        ensures { (rs : List Receipt) (r : Receipt) → self.now.receipts ≡ rs ++ r ∷ [] → result ≡ r.number }
    {
        self.number(self.len() - 1)
    }

    /// The entry of the newest receipt, by reference, of a list that is not empty.
    pub fn last_entry(&self) -> EntryRef<'_>
        requires { 0 < length self.now.receipts }
        ensures { (rs : List Receipt) (r : Receipt) → self.now.receipts ≡ rs ++ r ∷ [] → result ≡ entry_of r }
    {
        self.entry(self.len() - 1)
    }

    /// Reserves capacity for this many more receipts, whatever they hold. Capacity never shrinks. Receipts stay.
    ///
    /// `NoMemory` if an allocation failed; the capacity stays then.
    pub(crate) fn ensure_capacity(&mut self, count: usize) -> Result<(), NoMemory>
        ensures receipts { self.new.receipts ≡ self.old.receipts }
        ensures spare { OnOk result (count ≤ self.new.spare) }
        ensures no_less { self.old.spare ≤ self.new.spare }
        ensures enough { count ≤ self.old.spare → IsOk result }
    {
        if count <= self.spare {
            return Ok(());
        }
        self.grow(count)
    }

    // Adds capacity.
    #[cold]
    #[inline(never)]
    fn grow(&mut self, count: usize) -> Result<(), NoMemory>
        requires { self.old.spare < count }
        ensures receipts { self.new.receipts ≡ self.old.receipts }
        ensures spare { OnOk result (count ≤ self.new.spare) }
        ensures no_less { self.old.spare ≤ self.new.spare }
    {
        let spare = count.saturating_add(AHEAD);
        self.numbers.reserve(spare)?;
        self.calls.reserve(spare)?;
        self.spare = spare;
        Ok(())
    }

    /// Allocates memory for this many more receipts, and for one value in the lists of each. Receipts and capacity stay.
    ///
    /// `NoMemory` if an allocation failed.
    pub(crate) fn reserve(&mut self, count: usize) -> Result<(), NoMemory>
        ensures receipts { self.new.receipts ≡ self.old.receipts }
        ensures no_less { self.old.spare ≤ self.new.spare }
    {
        self.numbers.reserve(count)?;
        self.calls.reserve_entries(count)
    }

    /// Prefaults the memory of the next receipts once they reach the end of what was prefaulted. Receipts are appended
    /// under the engine's lock: without this, all threads would wait for that memory. Here each thread gets its own,
    /// beside the others.
    pub(crate) fn prefault_receipts(&mut self)
        ensures { self.new ≡ self.old }
    {
        if self.numbers.len() >= self.prefaulted {
            let numbers = self.numbers.prefault(AT_ONCE);
            self.prefaulted = self.calls.prefault(AT_ONCE).min(numbers);
        }
    }

    /// Appends the receipt of a history's newest entry, within the reserved capacity. The result says what the entry is
    /// to a caller that makes one step after another.
    #[inline(always)]
    pub(crate) fn file_newest(&mut self, history: &History) -> StepKind
        requires spare { 0 < self.old.spare }
        requires some { 0 < length history.now.entries }
        ensures kind { (e : Entry) (past : List Entry) → reverse history.now.entries ≡ e ∷ past → IsOfKind result e }
        ensures filed { (e : Entry) (past : List Entry) → reverse history.now.entries ≡ e ∷ past
            → self.new.receipts ≡ self.old.receipts ++ receipt_of (length past) e ∷ [] }
        ensures spare { self.new.spare + 1 ≡ self.old.spare }
    {
        let place = history.len() - 1;
        self.numbers.push(place);
        let kind = self.calls.push_copy(history, place);
        self.spare -= 1;
        kind
    }
}
