//! The links from each node, or to each node, and the nodes that they lead to.

use crate::sorting::{Link, zeros};
use sgt_model::NoMemory;
use std::alloc::Global;

/// Which way links are followed.
#[derive(Clone, Copy)]
pub(crate) enum Direction {
    Forward,
    Backward,
}

/// The links by the node from which they are followed.
#[derive(Drop)]
pub(crate) struct Chains<'a> {
    links: &'a [Link],
    direction: Direction,
    /// For each node the number of a link from 1, or 0 if there is none.
    heads: Vec<usize>,
    /// For each link the number of the next one at its node, or 0 if there is none.
    next: Vec<usize>,
}

impl<'a> Chains<'a> {
    /// The chains of the links between this many nodes.
    pub(crate) fn new(
        alloc: Global,
        links: &'a [Link],
        nodes: usize,
        direction: Direction,
    ) -> Result<Self, NoMemory> {
        let mut chains = Chains {
            links,
            direction,
            heads: zeros(alloc, nodes)?,
            next: zeros(alloc, links.len())?,
        };
        for (place, link) in links.iter().enumerate() {
            let (node, _) = chains.ends_of(link);
            let before = number_at(chains.heads.as_slice(), node);
            set_number(chains.next.as_mut_slice(), place, before);
            set_number(chains.heads.as_mut_slice(), node, place.saturating_add(1));
        }
        Ok(chains)
    }

    /// From where the link is followed, and where it leads.
    fn ends_of(&self, link: &Link) -> (usize, usize) {
        match self.direction {
            Direction::Forward => (link.from, link.to),
            Direction::Backward => (link.to, link.from),
        }
    }

    /// The place of the first link at the node.
    pub(crate) fn first(&self, node: usize) -> Option<usize> {
        number_at(self.heads.as_slice(), node).checked_sub(1)
    }

    /// The place of the link after the one at this place.
    pub(crate) fn after(&self, place: usize) -> Option<usize> {
        number_at(self.next.as_slice(), place).checked_sub(1)
    }

    /// Marks each node that is reached from this one: 1, and 0 for the others.
    pub(crate) fn reached(&self, alloc: Global, node: usize) -> Result<Vec<usize>, NoMemory> {
        let mut marks = zeros(alloc, self.heads.len())?;
        let mut waiting = Vec::new(alloc);
        set_number(marks.as_mut_slice(), node, 1);
        waiting.push(node)?;
        for _ in 0..self.heads.len() {
            let Some(at) = waiting.pop() else {
                return Ok(marks);
            };
            self.mark_next(&mut marks, &mut waiting, at)?;
        }
        Ok(marks)
    }

    /// Marks the nodes after this one, and adds those that were not marked to those that wait.
    fn mark_next(
        &self,
        marks: &mut Vec<usize>,
        waiting: &mut Vec<usize>,
        node: usize,
    ) -> Result<(), NoMemory> {
        let mut at = self.first(node);
        for _ in 0..self.links.len() {
            let Some(place) = at else {
                return Ok(());
            };
            if let Some(link) = self.links.get(place) {
                let (_, node) = self.ends_of(link);
                if number_at(marks.as_slice(), node) == 0 {
                    set_number(marks.as_mut_slice(), node, 1);
                    waiting.push(node)?;
                }
            }
            at = self.after(place);
        }
        Ok(())
    }
}

/// The number at the index, or 0 if there is none.
pub(crate) fn number_at(list: &[usize], index: usize) -> usize {
    list.get(index).copied().unwrap_or(0)
}

/// Sets the number at the index, if there is one.
pub(crate) fn set_number(list: &mut [usize], index: usize, number: usize) {
    if index < list.len() {
        list[index] = number;
    }
}
