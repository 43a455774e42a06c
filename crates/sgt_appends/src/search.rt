//! A search for a short cycle of links, within a bound of work.
//!
//! Links that one read shows together count as one step (`merge.rt`). From each link of the component of a known cycle
//! the search looks for cycles of two steps, then of three, and so on.

use crate::chains::{Chains, Direction, number_at, set_number};
use crate::edges::add_edge;
use crate::merge::{append_to, key_in, merged};
use crate::sorting::{Link, zeros};
use crate::transaction::Transaction;
use crate::witness::{Edge, Reason};
use sgt_model::NoMemory;
use std::alloc::Global;

/// How many links are looked at for each link of the graph.
const WORK_BY_LINK: usize = 4;

/// How many links are looked at, besides.
const WORK: usize = 1_000_000;

/// How many links fewer are looked at after a cycle that was longer than it seemed.
const LOST_WORK: usize = 10_000;

/// A graph: nodes, and links between them.
#[derive(Drop)]
pub(crate) struct Graph {
    pub links: Vec<Link>,
    /// The ends of the lines begin here.
    pub ends: usize,
    /// How many nodes there are.
    pub nodes: usize,
}

/// A cycle of fewer edges than the known one, or nothing. It is to be tested.
pub(crate) fn short_cycle(
    alloc: Global,
    history: &[Transaction],
    graph: &Graph,
    known: &[Edge],
) -> Result<Vec<Edge>, NoMemory> {
    if let [edge, _, _, ..] = known {
        let mut search = Search::new(alloc, history, graph, edge.from)?;
        for limit in 2..known.len() {
            if let Some(cycle) = search.cycle_of(alloc, limit)? {
                return Ok(cycle);
            }
        }
    }
    Ok(Vec::new(alloc))
}

/// The edges of the links, which begin at no end of a line.
pub(crate) fn edges_along(
    alloc: Global,
    ends: usize,
    links: &[Link],
) -> Result<Vec<Edge>, NoMemory> {
    let mut edges = Vec::new(alloc);
    let mut before = None;
    for link in links {
        before = add_edge(&mut edges, ends, before, *link)?;
    }
    Ok(edges)
}

/// What a search knows.
#[derive(Drop)]
struct Search<'a> {
    history: &'a [Transaction],
    links: &'a [Link],
    /// The first node that is the end of a line.
    ends: usize,
    chains: Chains<'a>,
    /// For each link the key that it is about.
    keys: Vec<Option<u32>>,
    /// The nodes of the component have 2.
    component: Vec<usize>,
    /// The links of the component that begin at no end of a line.
    starts: Vec<usize>,
    /// For each link the turn at which it was reached last.
    turns: Vec<usize>,
    /// For each link the one before it.
    before: Vec<usize>,
    /// The links that were reached in this step.
    now: Vec<usize>,
    /// The links that were reached in the next step.
    later: Vec<usize>,
    /// The turn before those of the cycle's first link.
    base: usize,
    /// The turn of this step.
    turn: usize,
    /// How many links may still be looked at.
    work: usize,
}

impl<'a> Search<'a> {
    /// A search in the component of the node.
    fn new(
        alloc: Global,
        history: &'a [Transaction],
        graph: &'a Graph,
        node: usize,
    ) -> Result<Self, NoMemory> {
        let links = graph.links.as_slice();
        let chains = Chains::new(alloc, links, graph.nodes, Direction::Forward)?;
        let back = Chains::new(alloc, links, graph.nodes, Direction::Backward)?;
        let mut component = chains.reached(alloc, node)?;
        let others = back.reached(alloc, node)?;
        for (mark, other) in component.iter_mut().zip(others.iter()) {
            *mark = mark.saturating_add(*other);
        }
        Ok(Search {
            history,
            links,
            ends: graph.ends,
            chains,
            keys: links
                .iter()
                .map(|link| key_of(history, link))
                .collect(alloc)?,
            starts: starts_in(alloc, graph, component.as_slice())?,
            component,
            turns: zeros(alloc, links.len())?,
            before: zeros(alloc, links.len())?,
            now: Vec::new(alloc),
            later: Vec::new(alloc),
            base: 0,
            turn: 0,
            work: WORK.saturating_add(links.len().saturating_mul(WORK_BY_LINK)),
        })
    }

    /// A cycle of at most this many steps.
    fn cycle_of(&mut self, alloc: Global, limit: usize) -> Result<Option<Vec<Edge>>, NoMemory> {
        for index in 0..self.starts.len() {
            if self.work == 0 {
                return Ok(None);
            }
            let start = number_at(self.starts.as_slice(), index);
            if let Some(last) = self.cycle_from(start, limit)? {
                let path = self.path_to(alloc, start, last)?;
                let edges = edges_along(alloc, self.ends, path.as_slice())?;
                let cycle = merged(alloc, self.history, edges.as_slice())?;
                if cycle.len() <= limit {
                    return Ok(Some(cycle));
                }
                self.work = self.work.saturating_sub(LOST_WORK);
            }
        }
        Ok(None)
    }

    /// Whether the node is in the component.
    fn is_inside(&self, node: usize) -> bool {
        number_at(self.component.as_slice(), node) == 2
    }

    /// The link that closes a cycle of at most this many steps that begins with this link.
    fn cycle_from(&mut self, start: usize, limit: usize) -> Result<Option<usize>, NoMemory> {
        self.base = self.turn;
        self.turn = self.base.saturating_add(1);
        set_number(self.turns.as_mut_slice(), start, self.turn);
        self.now.clear();
        self.later.clear();
        self.now.push(start)?;
        for step in 1..limit {
            if let Some(last) = self.close_step(start, true)? {
                return Ok(Some(last));
            }
            self.turn_to_next()?;
            self.turn = self.base.saturating_add(1).saturating_add(step);
        }
        self.close_step(start, false)
    }

    /// What was reached in the next step is now reached in this one.
    fn turn_to_next(&mut self) -> Result<(), NoMemory> {
        for _ in 0..self.later.len() {
            if let Some(place) = self.later.pop() {
                self.now.push(place)?;
            }
        }
        Ok(())
    }

    /// Follows the links that this step reached. Returns the one that leads to where the first one begins.
    fn close_step(&mut self, start: usize, has_next: bool) -> Result<Option<usize>, NoMemory> {
        for _ in 0..self.work {
            let Some(place) = self.now.pop() else {
                return Ok(None);
            };
            if let (Some(first), Some(last)) = (self.links.get(start), self.links.get(place)) {
                if last.to == first.from {
                    return Ok(Some(place));
                }
                self.follow(place, last, has_next)?;
            }
        }
        Ok(None)
    }

    /// Reaches the links after this one, which is at the place.
    fn follow(&mut self, place: usize, link: &Link, has_next: bool) -> Result<(), NoMemory> {
        let mut at = self.chains.first(link.to);
        for _ in 0..self.links.len() {
            match at {
                Some(next) if self.work > 0 => {
                    self.work = self.work.saturating_sub(1);
                    self.reach(place, link, next, has_next)?;
                    at = self.chains.after(next);
                }
                _ => return Ok(()),
            }
        }
        Ok(())
    }

    /// Reaches the link at the place `next`, after the one at the place.
    fn reach(
        &mut self,
        place: usize,
        link: &Link,
        next: usize,
        has_next: bool,
    ) -> Result<(), NoMemory> {
        let Some(other) = self.links.get(next) else {
            return Ok(());
        };
        if !self.is_inside(other.to) {
            return Ok(());
        }
        let goes_on = self.goes_on(link, other, place, next);
        if !goes_on && !has_next {
            return Ok(());
        }
        let turn = self.turn.saturating_add(usize::from(!goes_on));
        let reached = number_at(self.turns.as_slice(), next);
        if self.base < reached && reached <= turn {
            return Ok(());
        }
        set_number(self.turns.as_mut_slice(), next, turn);
        set_number(self.before.as_mut_slice(), next, place);
        if goes_on {
            self.now.push(next)?;
        } else {
            self.later.push(next)?;
        }
        Ok(())
    }

    /// Whether the two links may be one step.
    fn goes_on(&self, link: &Link, other: &Link, place: usize, next: usize) -> bool {
        if other.from >= self.ends {
            return true;
        }
        let key = self.key_at(place);
        if key != self.key_at(next) {
            return false;
        }
        match (link.reason, other.reason, key) {
            (Reason::InOrder { .. }, Reason::InOrder { .. } | Reason::Seen { .. }, _) => true,
            (Reason::Missed { .. }, Reason::InOrder { .. }, _) => true,
            (Reason::Missed { .. }, Reason::Seen { .. }, Some(key)) => {
                append_to(self.history, other.to, key).is_some()
            }
            _ => false,
        }
    }

    /// The key of the link at the place.
    fn key_at(&self, place: usize) -> Option<u32> {
        *self.keys.get(place)?
    }

    /// The links that lead from the first to the last one, as places.
    fn path_to(&self, alloc: Global, start: usize, last: usize) -> Result<Vec<Link>, NoMemory> {
        let mut path = Vec::new(alloc);
        let mut at = last;
        for _ in 0..self.links.len() {
            if let Some(link) = self.links.get(at) {
                path.push(*link)?;
            }
            if at == start {
                break;
            }
            at = number_at(self.before.as_slice(), at);
        }
        path.reverse();
        Ok(path)
    }
}

/// The places of the links from nodes before the ends of lines, of which both nodes are marked with 2.
fn starts_in(alloc: Global, graph: &Graph, marks: &[usize]) -> Result<Vec<usize>, NoMemory> {
    let mut starts = Vec::new(alloc);
    for (place, link) in graph.links.iter().enumerate() {
        let is_inside = number_at(marks, link.from) == 2 && number_at(marks, link.to) == 2;
        if link.from < graph.ends && is_inside {
            starts.push(place)?;
        }
    }
    Ok(starts)
}

/// The key that the link is about.
fn key_of(history: &[Transaction], link: &Link) -> Option<u32> {
    match link.reason {
        Reason::Seen { append, .. } => key_in(history, link.from, append),
        Reason::InOrder { first, .. } => key_in(history, link.from, first),
        Reason::Missed { read, .. } => key_in(history, link.from, read),
    }
}
