//! Accesses in lists by the numbers of their transactions.
ghost use Rattle.std.specs.Prelude.{◌≡◌, ◌≢◌, ℕ, ◌<◌, ◌%◌, Bool, true, false, not, ◌&&◌, ◌⊎◌, ◌↔◌, nat_eq, count_by, List, [], ◌∷◌, ◌++◌, length, replicate, slice_set, slice_index_or, IsTrue, IsSome, IfOk, OnOk, OnErr};
ghost use Rattle.sgt_model.specs.AccessList.{ListedAccess, lists_conflicting, is_listed};
ghost use Rattle.sgt_model.specs.Paths.{AtMost, Member, Rising};
ghost use Rattle.sgt_access.specs.Masks.{StandsFor, IsLeaving};
ghost use Rattle.sgt_access.specs.NumberLists.{contents, joined, FitIn};

use crate::access::Access;
use crate::conflicts::{add_rivals, has_rival_among, tids_of};
use crate::masks::Masks;
use crate::taking::take_out;
use arrayvec::ArrayVec;
use sgt_model::{Key, Kind, NoMemory, Tid, Tids};
use std::alloc::Global;
use std::marker::Model;

/// How many lists there are.
const LISTS: usize = 32;

/// How many accesses a list has capacity for at first.
const FIRST: usize = 8;

/// Accesses in 32 lists. The low bits of a transaction's number are the index of the list that has its accesses, so its end
/// looks through one short list.
///
/// A list that is full takes no access: the caller stores it elsewhere.
#[derive(Drop)]
pub struct NumberLists {
    // None, until they are made.
    lists: Vec<Vec<Access>>,
    alloc: Global,
}

impl Model for NumberLists {
    ghost use Rattle.std.specs.Prelude.{List};
    ghost use Rattle.sgt_model.specs.AccessList.{ListedAccess};
    ghost use Rattle.sgt_access.specs.NumberLists.{contents, joined, AreByNumber};

    ghost Value = { List ListedAccess };

    ghost view = { λ l. joined (contents l.lists.items) };

    ghost invariant = { λ l. AreByNumber 0 (contents l.lists.items) };
}

impl NumberLists {
    /// No lists. It allocates nothing.
    pub fn new(alloc: Global) -> NumberLists
        ensures { result ≡ [] }
    {
        NumberLists {
            lists: Vec::new(alloc),
            alloc,
        }
    }

    /// Whether no list was made. Then there is no access.
    pub fn is_unmade(&self) -> bool
        ensures { result ≡ true → self.now ≡ [] }
    {
        self.lists.is_empty()
    }

    /// Makes the lists anew, without an access. `NoMemory` if an allocation failed; then nothing has changed.
    pub fn make(&mut self) -> Result<(), NoMemory>
        ensures ok { OnOk result (self.new ≡ []) }
        ensures err { OnErr result (self.new ≡ self.old) }
    {
        self.lists = empty_lists(self.alloc)?;
        Ok(())
    }

    /// Provides capacity for one more access in each list. `NoMemory` if an allocation failed.
    pub fn grow(&mut self) -> Result<(), NoMemory>
        ensures { self.new ≡ self.old }
    {
        grow_all(&mut self.lists)
    }

    /// Adds an access, if its list is not full. Returns whether it did. It allocates nothing.
    #[inline(always)]
    pub fn add(&mut self, access: Access) -> bool
        ensures added { result ≡ true → StandsFor (self.old ++ access ∷ []) self.new }
        ensures full { result ≡ false → self.new ≡ self.old }
    {
        push_at(&mut self.lists, list_of(access.by), access)
    }

    /// Whether one of them conflicts with this access and is not t's.
    pub fn has_rival(&self, t: Tid, key: Key, kind: Kind) -> bool
        ensures exact { IsTrue result
            ↔ ((u : ℕ) × (u ≢ t) × (lists_conflicting self.now u key kind ≡ true)) }
    {
        has_rival_in(self.lists.as_slice(), t, key, kind)
    }

    /// Adds to a rising list the transactions other than t with an access that conflicts with this one.
    pub fn add_rivals(&self, rivals: &mut ArrayVec<Tid, 32>, t: Tid, key: Key, kind: Kind)
        requires few { FitIn rivals.old.items self.now }
        requires rising { Rising rivals.old.items }
        ensures exact { (u : ℕ) → Member u rivals.new.items
            ↔ (Member u rivals.old.items ⊎ ((u ≢ t) × (lists_conflicting self.now u key kind ≡ true))) }
        ensures rising { Rising rivals.new.items }
    {
        add_rivals_in(rivals, self.lists.as_slice(), t, key, kind);
    }

    /// Removes the accesses of t, which is at these places, from its list and from the masks.
    pub fn take_out(&mut self, masks: &mut Masks, t: Tid, places: u32)
        ensures others { (p : ListedAccess → Bool) → count_by (λ a. p a && not (nat_eq a.by t)) self.new
            ≡ count_by (λ a. p a && not (nat_eq a.by t)) self.old }
        ensures none { is_listed self.new t ≡ false }
        ensures leaving { (rest : List ListedAccess) → IsLeaving masks.old t places (self.old ++ rest)
            → IsLeaving masks.new t places (self.new ++ rest) }
    {
        let index = list_of(t);
        if index < self.lists.len() {
            take_out(&mut self.lists[index], masks, t, places);
        }
    }
}

/// Whether one of these accesses, or of those in the lists, conflicts with this one and is not t's. While all are of one
/// transaction, the lists have none.
#[inline(never)]
pub fn has_rival_in_both(
    accesses: &[Access],
    lists: &NumberLists,
    only: Option<Tid>,
    t: Tid,
    key: Key,
    kind: Kind,
) -> bool
    requires { IsSome only → lists.now ≡ [] }
    ensures exact { IsTrue result
        ↔ ((u : ℕ) × (u ≢ t) × (lists_conflicting (accesses.now ++ lists.now) u key kind ≡ true)) }
{
    if has_rival_among(accesses, t, key, kind) {
        return true;
    }
    if only.is_some() {
        return false;
    }
    lists.has_rival(t, key, kind)
}

/// The transactions other than t with one of these accesses, or of those in the lists, that conflicts with this one. They rise.
pub fn rivals_in_both(
    accesses: &[Access],
    lists: &NumberLists,
    t: Tid,
    key: Key,
    kind: Kind,
) -> Tids
    requires few { AtMost 32 (is_listed (accesses.now ++ lists.now)) }
    ensures exact { (u : ℕ) → Member u result
        ↔ ((u ≢ t) × (lists_conflicting (accesses.now ++ lists.now) u key kind ≡ true)) }
    ensures rising { Rising result }
{
    let mut rivals = ArrayVec::new();
    add_rivals(&mut rivals, accesses, t, key, kind);
    lists.add_rivals(&mut rivals, t, key, kind);
    tids_of(&rivals)
}

// The index of the list of a transaction.
#[inline(always)]
fn list_of(t: Tid) -> usize
    ensures { result ≡ t % 32 }
{
    t.0 as usize % LISTS
}

// Lists without an access. `NoMemory` if an allocation failed.
fn empty_lists(alloc: Global) -> Result<Vec<Vec<Access>>, NoMemory>
    ensures { IfOk result (λ lists. contents lists.items ≡ replicate 32 []) }
{
    let mut lists = Vec::with_capacity(alloc, LISTS)?;
    for _ in 0..LISTS {
        let list = Vec::with_capacity(alloc, FIRST)?;
        lists.push_reserved(list);
    }
    Ok(lists)
}

// Provides capacity for one more access in each list. `NoMemory` if an allocation failed.
fn grow_all(lists: &mut Vec<Vec<Access>>) -> Result<(), NoMemory>
    ensures { contents lists.new.items ≡ contents lists.old.items }
{
    for index in 0..lists.len() {
        lists[index].reserve(1)?;
    }
    Ok(())
}

// Adds an access to the list with this index, if there is one and it is not full. Returns whether it did.
#[inline(always)]
fn push_at(lists: &mut Vec<Vec<Access>>, index: usize, access: Access) -> bool
    ensures within { result ≡ true → index < length (contents lists.old.items) }
    ensures pushed { result ≡ true → contents lists.new.items
        ≡ slice_set (contents lists.old.items) index (slice_index_or (contents lists.old.items) index [] ++ access ∷ []) }
    ensures full { result ≡ false → contents lists.new.items ≡ contents lists.old.items }
{
    if lists.len() <= index {
        return false;
    }
    if lists[index].len() == lists[index].capacity() {
        return false;
    }
    lists[index].push_reserved(access);
    true
}

// Whether an access in one of these lists conflicts with this one and is not t's.
fn has_rival_in(lists: &[Vec<Access>], t: Tid, key: Key, kind: Kind) -> bool
    ensures exact { IsTrue result
        ↔ ((u : ℕ) × (u ≢ t) × (lists_conflicting (joined (contents lists.now)) u key kind ≡ true)) }
{
    for list in lists {
        if has_rival_among(list.as_slice(), t, key, kind) {
            return true;
        }
    }
    false
}

// Adds to a rising list the transactions other than t with an access in one of these lists that conflicts with this one.
fn add_rivals_in(
    rivals: &mut ArrayVec<Tid, 32>,
    lists: &[Vec<Access>],
    t: Tid,
    key: Key,
    kind: Kind,
)
    requires few { FitIn rivals.old.items (joined (contents lists.now)) }
    requires rising { Rising rivals.old.items }
    ensures exact { (u : ℕ) → Member u rivals.new.items
        ↔ (Member u rivals.old.items ⊎ ((u ≢ t) × (lists_conflicting (joined (contents lists.now)) u key kind ≡ true))) }
    ensures rising { Rising rivals.new.items }
{
    for list in lists {
        add_rivals(rivals, list.as_slice(), t, key, kind);
    }
}
