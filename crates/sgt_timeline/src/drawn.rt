//! Which operations of a history are drawn.
ghost use Rattle.std.specs.Prelude.{◌≡◌, ◌<◌, ◌≤◌, ◌+◌, ℕ, length, IfOk, IfSome};
ghost use Rattle.sgt_timeline.specs.Drawn.{AreDrawn, all_places};

use crate::picture::{Highlight, LineKind};
use sgt_classes::{Edge, Operation, Violation};
use sgt_model::NoMemory;
use std::alloc::Global;
use std::collections::BTreeSet;

/// The most operations that are drawn, of any history.
pub(crate) const MOST: usize = 400;

/// The most pairs that stand out: each has two operations.
const MOST_PAIRS: usize = 200;

/// Two operations that stand out, by their places, and how.
#[derive(Clone, Copy)]
pub(crate) struct Pair {
    pub kind: LineKind,
    pub earlier: usize,
    pub later: usize,
}

/// What stands out.
#[derive(Drop)]
pub(crate) struct Pairs {
    pub places: Vec<Pair>,
}

impl Pairs {
    /// What stands out, of a cycle its first edges. A violation that two classes have is added once.
    pub fn of(alloc: Global, highlight: Highlight<'_>) -> Result<Self, NoMemory> {
        let mut pairs = Pairs {
            places: Vec::new(alloc),
        };
        match highlight {
            Highlight::Nothing => (),
            Highlight::Cycle(edges) => pairs.add_edges(edges)?,
            Highlight::Violation(violation) => pairs.add_violation(&violation)?,
            Highlight::All(edges, violations) => {
                pairs.add_edges(edges)?;
                for violation in violations {
                    pairs.add_violation(violation)?;
                }
            }
        }
        Ok(pairs)
    }

    /// Adds the edges of a cycle.
    fn add_edges(&mut self, edges: &[Edge]) -> Result<(), NoMemory> {
        for edge in edges {
            self.add(LineKind::Cycle, edge.earlier, edge.later)?;
        }
        Ok(())
    }

    /// Adds a violation, unless it stands out already.
    fn add_violation(&mut self, violation: &Violation) -> Result<(), NoMemory> {
        if self.has_violation(violation) {
            return Ok(());
        }
        self.add(LineKind::Violation, violation.earlier, violation.later)
    }

    /// Whether the violation stands out already.
    fn has_violation(&self, violation: &Violation) -> bool {
        self.places.iter().any(|pair| {
            let is_same = pair.earlier == violation.earlier && pair.later == violation.later;
            is_same && matches!(pair.kind, LineKind::Violation)
        })
    }

    /// Adds a pair, if there are not too many.
    fn add(&mut self, kind: LineKind, earlier: usize, later: usize) -> Result<(), NoMemory> {
        if self.places.len() < MOST_PAIRS {
            self.places.push(Pair {
                kind,
                earlier,
                later,
            })?;
        }
        Ok(())
    }

    /// As part of which line the operation at the place stands out, if it does.
    pub fn ends_at(&self, place: usize) -> Option<LineKind> {
        let ends = |pair: &&Pair| pair.earlier == place || pair.later == place;
        Some(self.places.iter().find(ends)?.kind)
    }
}

/// What of a history is drawn.
#[derive(Clone, Copy)]
pub(crate) enum Extent {
    /// All of it.
    Whole,
    /// Its first operations: nothing stands out.
    First,
    /// The transactions that stand out.
    Transactions,
    /// The operations that stand out: their transactions have too many.
    Pairs,
}

/// The operations that are drawn, by their places.
#[derive(Drop)]
pub(crate) struct Drawn {
    pub extent: Extent,
    pub places: Vec<usize>,
}

impl Drawn {
    /// Those of a history: all of one of at most `whole` operations. Of a longer one those of the transactions that stand out, and if
    /// these are too many, the operations that stand out alone; the first ones where nothing does.
    pub fn of(
        alloc: Global,
        history: &[Operation],
        pairs: &Pairs,
        whole: usize,
    ) -> Result<Self, NoMemory>
        requires { whole ≤ 400 }
        ensures { IfOk result (λ drawn. AreDrawn whole (length history.now) drawn.places.items) }
    {
        if history.len() <= whole {
            return Ok(Drawn {
                extent: Extent::Whole,
                places: places_below(alloc, history.len())?,
            });
        }
        if pairs.places.is_empty() {
            return Drawn::first(alloc, history.len(), whole);
        }
        let (extent, chosen) = chosen_of(alloc, history, pairs)?;
        Ok(Drawn {
            extent,
            places: places_in(alloc, history.len(), &chosen, whole)?,
        })
    }

    /// The first operations of a history of this length: all of one of up to 400.
    fn first(alloc: Global, len: usize, whole: usize) -> Result<Self, NoMemory>
        requires { whole ≤ 400 }
        ensures { IfOk result (λ drawn. AreDrawn whole len drawn.places.items) }
    {
        if len <= MOST {
            return Ok(Drawn {
                extent: Extent::Whole,
                places: places_below(alloc, len)?,
            });
        }
        Ok(Drawn {
            extent: Extent::First,
            places: places_below(alloc, MOST)?,
        })
    }
}

/// All places below the number.
fn places_below(alloc: Global, most: usize) -> Result<Vec<usize>, NoMemory>
    ensures { IfOk result (λ places. places.items ≡ all_places most) }
{
    let mut places = Vec::new(alloc);
    for place in 0..most {
        places.push(place)?;
    }
    Ok(places)
}

/// The first places of the set, below the length of a history.
fn places_in(
    alloc: Global,
    len: usize,
    chosen: &BTreeSet<usize>,
    whole: usize,
) -> Result<Vec<usize>, NoMemory>
    requires { whole < len }
    ensures { IfOk result (λ places. AreDrawn whole len places.items) }
{
    let mut places = Vec::new(alloc);
    for place in 0..len {
        if places.len() < MOST && chosen.contains(&place) {
            places.push(place)?;
        }
    }
    Ok(places)
}

/// The operations of a long history that are to be drawn: those of the transactions that stand out, or those that stand
/// out where these are too many.
fn chosen_of(
    alloc: Global,
    history: &[Operation],
    pairs: &Pairs,
) -> Result<(Extent, BTreeSet<usize>), NoMemory> {
    let transactions = transactions_of(alloc, history, pairs)?;
    let places = places_of(alloc, history, &transactions)?;
    if places.len() <= MOST {
        return Ok((Extent::Transactions, places));
    }
    Ok((Extent::Pairs, pair_places(alloc, pairs)?))
}

/// The transactions that stand out.
fn transactions_of(
    alloc: Global,
    history: &[Operation],
    pairs: &Pairs,
) -> Result<BTreeSet<u32>, NoMemory> {
    let mut transactions = BTreeSet::new(alloc);
    for pair in &pairs.places {
        for place in [pair.earlier, pair.later] {
            if let Some(operation) = history.get(place) {
                transactions.insert(operation.transaction)?;
            }
        }
    }
    Ok(transactions)
}

/// The places of the operations of these transactions, and no more of them than show that they are too many.
fn places_of(
    alloc: Global,
    history: &[Operation],
    transactions: &BTreeSet<u32>,
) -> Result<BTreeSet<usize>, NoMemory> {
    let mut places = BTreeSet::new(alloc);
    for place in 0..history.len() {
        if places.len() <= MOST && transactions.contains(&history[place].transaction) {
            places.insert(place)?;
        }
    }
    Ok(places)
}

/// The places of the operations that stand out.
fn pair_places(alloc: Global, pairs: &Pairs) -> Result<BTreeSet<usize>, NoMemory> {
    let mut places = BTreeSet::new(alloc);
    for pair in &pairs.places {
        places.insert(pair.earlier)?;
        places.insert(pair.later)?;
    }
    Ok(places)
}
