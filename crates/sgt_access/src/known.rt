//! What is known of the accesses by key.
ghost use Rattle.std.specs.Prelude.{◌≡◌, ◌<◌, ◌↔◌, List, [], ◌∷◌, ◌++◌, None, IsSome, IsTrue, OnOk};
ghost use Rattle.std.specs.Vec.{vec_len, vec_capacity};
ghost use Rattle.sgt_model.specs.AccessList.{ListedAccess, forgotten};
ghost use Rattle.sgt_access.specs.Masks.{StandsFor, Covers, Knows, Holds, IsSaid};

use crate::access::Access;
use crate::masks::{Masks, Rivals};
use crate::number_lists::NumberLists;
use crate::taking::take_out;
use sgt_model::{Key, Kind, NoMemory, Tid};
use std::alloc::Global;

/// While all accesses are of one transaction, that is known, and the masks have none of them. From the first access of
/// another transaction on the masks have all, until no access is left.
#[derive(Drop)]
pub struct Known {
    /// The transaction of all accesses, if the masks have none.
    pub only: Option<Tid>,
    pub masks: Masks,
}

impl Known {
    /// No accesses. It allocates nothing.
    pub fn new(alloc: Global) -> Known
        ensures { Knows result.only result.masks [] }
    {
        Known {
            only: Some(Tid(0)),
            masks: Masks::new(alloc),
        }
    }

    /// The rivals of an access of t. The accesses are these, if all are of one transaction.
    #[inline(always)]
    pub fn rivals(&self, t: Tid, key: Key, kind: Kind, accesses: &[Access]) -> Rivals
        ensures { (list : List ListedAccess) → Knows self.now.only self.now.masks list
            → (IsSome self.now.only → StandsFor list accesses.now)
            → IsSaid list self.now.masks.places.tids t key kind result }
    {
        match self.only {
            Some(only) => {
                if only == t {
                    Rivals::At(0)
                } else if accesses.is_empty() {
                    Rivals::At(0)
                } else {
                    Rivals::Unknown
                }
            }
            None => self.masks.rivals(t, key, kind),
        }
    }

    /// Adds an access. The others are these, if all are of one transaction. Returns whether all still are.
    #[inline(always)]
    pub fn add(&mut self, access: Access, others: &[Access]) -> bool
        ensures known { (list : List ListedAccess) → Knows self.old.only self.old.masks list
            → (IsSome self.old.only → StandsFor list others.now)
            → Knows self.new.only self.new.masks (list ++ access ∷ []) }
        ensures alone { IsSome self.new.only → IsSome self.old.only }
        ensures result { IsTrue result ↔ IsSome self.new.only }
    {
        match self.only {
            Some(only) => {
                if only == access.by {
                    return true;
                }
                self.add_of_another(access, others)
            }
            None => {
                self.masks.add(access);
                false
            }
        }
    }

    // The same, if the masks have none of the others and the access is of another transaction. While one transaction is live, there
    // are no others.
    #[inline(always)]
    fn add_of_another(&mut self, access: Access, others: &[Access]) -> bool
        ensures known { (list : List ListedAccess) → Covers self.old.masks [] → StandsFor list others.now
            → Knows self.new.only self.new.masks (list ++ access ∷ []) }
        ensures result { IsTrue result ↔ IsSome self.new.only }
    {
        if others.is_empty() {
            self.only = Some(access.by);
            return true;
        }
        self.add_with_others(access.by, access.key, access.kind, others);
        false
    }

    // The same, with masks of all accesses. The access comes in parts, so that callers need not write theirs to memory.
    #[inline(never)]
    fn add_with_others(&mut self, by: Tid, key: Key, kind: Kind, others: &[Access])
        ensures known { (list : List ListedAccess) → Covers self.old.masks [] → StandsFor list others.now
            → Knows self.new.only self.new.masks (list ++ record { by = by; key = key; kind = kind } ∷ []) }
        ensures several { self.new.only ≡ None }
    {
        add_all(&mut self.masks, others);
        self.masks.add(Access { by, key, kind });
        self.only = None;
    }
}

// Adds accesses to masks that have none.
fn add_all(masks: &mut Masks, accesses: &[Access])
    ensures { Covers masks.old [] → Covers masks.new accesses.now }
{
    for access in accesses {
        masks.add(*access);
    }
}

/// Provides capacity for one more access.
#[inline(never)]
pub fn grow(
    accesses: &mut Vec<Access>,
    lists: &mut NumberLists,
    known: &mut Known,
) -> Result<(), NoMemory>
    ensures enough { OnOk result (vec_len accesses.new < vec_capacity accesses.new) }
    ensures known { (list : List ListedAccess) → Holds list known.old.only known.old.masks accesses.old.items lists.old
        → Holds list known.new.only known.new.masks accesses.new.items lists.new }
{
    prepare(accesses.as_slice(), lists, known)?;
    lists.grow()?;
    accesses.reserve(1)?;
    Ok(())
}

// Makes masks and lists, if none were made.
fn prepare(accesses: &[Access], lists: &mut NumberLists, known: &mut Known) -> Result<(), NoMemory>
    ensures { (list : List ListedAccess) → Holds list known.old.only known.old.masks accesses.now lists.old
        → Holds list known.new.only known.new.masks accesses.now lists.new }
{
    if !accesses.is_empty() {
        return Ok(());
    }
    if !lists.is_unmade() {
        return Ok(());
    }
    begin(lists, known)
}

// Makes masks and lists, where there is no access.
fn begin(lists: &mut NumberLists, known: &mut Known) -> Result<(), NoMemory>
    requires { lists.old ≡ [] }
    ensures lists { lists.new ≡ [] }
    ensures only { known.new.only ≡ known.old.only }
    ensures covers { Covers known.new.masks [] }
{
    known.masks.fill()?;
    lists.make()
}

/// Stores an access in the list of its transaction. If that is full, or if all accesses are of one transaction, it is stored
/// with the others. It allocates nothing. The access comes in parts, so that it is written once, to its place.
#[inline(always)]
pub fn store(
    accesses: &mut Vec<Access>,
    lists: &mut NumberLists,
    is_alone: bool,
    by: Tid,
    key: Key,
    kind: Kind,
)
    requires { vec_len accesses.old < vec_capacity accesses.old }
    ensures stands { StandsFor ((accesses.old.items ++ lists.old) ++ record { by = by; key = key; kind = kind } ∷ [])
        (accesses.new.items ++ lists.new) }
    ensures alone { IsTrue is_alone → lists.new ≡ lists.old }
{
    if is_alone {
        accesses.push_reserved(Access { by, key, kind });
        return;
    }
    if lists.add(Access { by, key, kind }) {
        return;
    }
    accesses.push_reserved(Access { by, key, kind });
}

/// Removes the accesses of a transaction.
pub fn remove_all(accesses: &mut Vec<Access>, lists: &mut NumberLists, known: &mut Known, t: Tid)
    ensures { (list : List ListedAccess) → Holds list known.old.only known.old.masks accesses.old.items lists.old
        → Holds (forgotten t list) known.new.only known.new.masks accesses.new.items lists.new }
{
    if let Some(only) = known.only {
        if only == t {
            accesses.clear();
        }
        return;
    }
    let places = known.masks.places_of(t);
    lists.take_out(&mut known.masks, t, places);
    take_out(accesses, &mut known.masks, t, places);
    known.masks.free(places);
    if known.masks.is_idle() {
        known.only = Some(t);
    }
}
