//! The first access of each transaction to each item.
ghost use Rattle.std.specs.Prelude.{◌≡◌, ◌≢◌, ◌<◌, ◌+◌, ℕ, List, Some, length, IfOk, OnOk};
ghost use Rattle.std.specs.BTreeMap.{get};
ghost use Rattle.sgt_classes.specs.declared.operation.Operation.{Operation};
ghost use Rattle.sgt_classes.specs.Links.{link_of};
ghost use Rattle.sgt_classes.specs.Tables.{entry_of};
ghost use Rattle.sgt_classes.specs.FirstAccesses.{accessed, pair_cmp, KnowsFirsts};

use crate::avoiding::put_on_top;
use crate::links::Links;
use crate::operation::{Action, Operation};
use crate::table::Table;
use sgt_model::NoMemory;
use std::alloc::Global;
use std::collections::BTreeMap;

/// Which accesses to an item count.
#[derive(Clone, Copy)]
pub enum Counted {
    /// Reads and writes.
    Any,
    /// Only writes.
    Writes,
}

impl Counted {
    /// The item that the action accesses, if its access counts.
    fn item(&self, action: &Action) -> Option<u32>
        ensures { result ≡ accessed self.now action.now }
    {
        match (self, action) {
            (Counted::Any, Action::Read(item) | Action::Write(item)) => Some(*item),
            (Counted::Writes, Action::Write(item)) => Some(*item),
            _ => None,
        }
    }
}

/// Of the accesses before a position, the first of each transaction to each item.
#[derive(Drop)]
pub struct FirstAccesses {
    /// Which accesses count.
    kind: Counted,
    /// The last of the first accesses to an item.
    tops: Table,
    /// For a first access, the next earlier one to its item.
    below: Links,
    /// The latest access of a transaction to an item.
    latest: BTreeMap<(u32, u32), usize>,
}

impl FirstAccesses {
    /// The state before the first operation. Numbers of items below the bound are found by index.
    pub fn new(alloc: Global, kind: Counted, bound: usize) -> Self
        ensures kind { result.kind ≡ kind }
        ensures knows { (q : List Operation) → KnowsFirsts q 0 result }
    {
        FirstAccesses {
            kind,
            tops: Table::new(alloc, bound),
            below: Links::new(alloc),
            latest: BTreeMap::new(alloc),
        }
    }

    /// The last of the first accesses to the item.
    pub fn last(&self, item: u32) -> Option<usize>
        ensures { result ≡ entry_of self.now.tops item }
    {
        self.tops.find(item)
    }

    /// The next earlier first access to the same item, before the one at the position.
    pub fn before(&self, place: usize) -> Option<usize>
        ensures { result ≡ link_of self.now.below place }
    {
        self.below.get(place)
    }

    /// The latest access of the transaction to the item.
    pub fn latest(&self, transaction: u32, item: u32) -> Option<usize>
        ensures { result ≡ get pair_cmp self.now.latest (transaction, item) }
    {
        self.latest.get(&(transaction, item)).copied()
    }

    /// Records the operation, if it is an access that counts.
    pub fn note(&mut self, operations: &[Operation], place: usize) -> Result<(), NoMemory>
        requires within { place < length operations.now }
        requires knows { KnowsFirsts operations.now place self.old }
        ensures kind { self.new.kind ≡ self.old.kind }
        ensures knows { OnOk result (KnowsFirsts operations.now (place + 1) self.new) }
    {
        let operation = operations[place];
        let Some(item) = self.kind.item(&operation.action) else {
            return Ok(());
        };
        let is_first = self.latest(operation.transaction, item).is_none();
        set_pair(&mut self.latest, (operation.transaction, item), place)?;
        if is_first {
            put_on_top(&mut self.tops, &mut self.below, item, place)?;
        }
        Ok(())
    }
}

/// Sets the position of a pair of numbers.
pub fn set_pair(
    places: &mut BTreeMap<(u32, u32), usize>,
    pair: (u32, u32),
    place: usize,
) -> Result<(), NoMemory>
    ensures at { OnOk result (get pair_cmp places.new pair ≡ Some place) }
    ensures others { OnOk result ((p : ℕ × ℕ) → p ≢ pair → get pair_cmp places.new p ≡ get pair_cmp places.old p) }
{
    places.insert(pair, place)?;
    Ok(())
}
