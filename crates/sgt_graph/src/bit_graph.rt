//! A graph in bit sets, with what each node reaches: the implementation that the program uses.
ghost use Rattle.std.specs.Prelude.{◌≡◌, ℕ, ◌<◌, true, false, not, ◌||◌, ◌&&◌, nat_eq, IsTrue};
ghost use Rattle.sgt_cycle.specs.Indices.{is_set, is_bit};
ghost use Rattle.sgt_graph.specs.declared.verdict.Verdict.TheVariants.{Closes};
ghost use Rattle.sgt_graph.specs.BitGraphs.{is_placed, is_pair, IsIndexVerdict, IsBitGraph, IsLinkOf};

use crate::graph::Graph;
use crate::guesses::Guesses;
use crate::relation::Relation;
use crate::tids::{index_of, indices_of, least_at, tids_at};
use crate::verdict::{Link, Plan};
use sgt_cycle::indices::{complement, joined, least, meets, minus, only};
use sgt_cycle::walk_rows;
use sgt_model::{Tid, Tids};
use std::marker::Model;

/// A graph as 32 indices, each with a transaction or free. Beside the edges it stores what is reached along them, so that a
/// verdict needs no search. Only if there is a cycle, a path is searched for. The index of a transaction is mostly guessed.
#[derive(Drop)]
pub struct BitGraph {
    taken: u32,
    tids: [Tid; 32],
    pairs: Relation,
    reached: Relation,
    guesses: Guesses,
}

impl Model for BitGraph {
    ghost use Rattle.std.specs.Prelude.{ℕ, List};
    ghost use Rattle.sgt_graph.specs.BitGraphs.{IsBitGraph};

    ghost Value = { ℕ × List ℕ × List ℕ × List ℕ };

    ghost view = { λ g. (g.taken, g.tids, g.pairs, g.reached) };

    ghost invariant = { λ g. IsBitGraph g.taken g.tids g.pairs g.reached };
}

impl Graph for BitGraph {
    ghost nodes = { λ g. is_placed g.0 g.1 };

    ghost pairs = { λ g. is_pair g.0 g.1 g.2 };

    ghost is_planned = { λ g t preds link. IsLinkOf g.0 g.1 g.3 t preds link };

    fn empty() -> Self {
        BitGraph {
            taken: 0,
            tids: [Tid(0); 32],
            pairs: Relation::empty(),
            reached: Relation::empty(),
            guesses: Guesses::new(),
        }
    }

    fn add(&mut self, t: Tid) {
        let Some(index) = least(complement(self.taken)) else {
            unreachable!();
        };
        self.tids[usize::from(index)] = t;
        self.guesses.note(t, index);
        self.taken = joined(self.taken, only(index));
    }

    fn plan(&self, t: Tid, preds: &Tids) -> Plan {
        let taken = self.taken;
        let Some(to) = index_of(taken, &self.tids, &self.guesses, t) else {
            unreachable!();
        };
        let from = indices_of(taken, &self.tids, &self.guesses, preds);
        if meets(self.reached.row(to), from) {
            return Plan::Closes(self.cycle(to, from));
        }
        Plan::Free(Link { to, from })
    }

    fn link(&mut self, _t: Tid, _preds: &Tids, link: Link) {
        self.add_pairs(link.from, link.to);
    }

    fn least_pred(&self, t: Tid) -> Option<Tid> {
        let index = index_of(self.taken, &self.tids, &self.guesses, t)?;
        if self.is_alone(index) {
            return None;
        }
        least_at(&self.tids, self.pairs.column(index))
    }

    fn remove(&mut self, t: Tid) {
        if let Some(index) = index_of(self.taken, &self.tids, &self.guesses, t) {
            self.free(index);
        }
    }

    fn has_no_cycle(&self) {
        // Reading a field makes the invariant known: the fields are a graph.
        let _taken = self.taken;
    }
}

impl BitGraph {
    /// The cycle that edges from the indices of the set to this one would close, where one of the set is reached from it.
    #[inline(never)]
    fn cycle(&self, index: u8, from: u32) -> Tids
        requires low { index < 32 }
        requires reached { (i : ℕ) × (is_bit self.now.3 index i ≡ true) × (is_set from i ≡ true) }
        ensures { IsIndexVerdict self.now.1 self.now.2 self.now.3 index from (Closes result) }
    {
        match walk_rows(self.pairs.rows(), index, from) {
            Some(cycle) => tids_at(&self.tids, cycle.as_slice()),
            None => unreachable!(),
        }
    }

    /// Whether no other index is taken. Then there is no edge.
    fn is_alone(&self, index: u8) -> bool
        requires low { index < 32 }
        ensures { IsTrue result → (i : ℕ) → is_set self.now.0 i ≡ nat_eq i index }
    {
        self.taken == only(index)
    }

    /// Adds edges from the indices of the set to this one, and what they reach. Mostly all of them are there.
    fn add_pairs(&mut self, from: u32, index: u8)
        requires low { index < 32 }
        requires taken { is_set self.old.0 index ≡ true }
        requires of_taken { (i : ℕ) → is_set from i ≡ true → is_set self.old.0 i ≡ true }
        requires apart { is_set from index ≡ false }
        requires none_back { (i : ℕ) → is_set from i ≡ true → is_bit self.old.3 index i ≡ false }
        ensures taken { self.new.0 ≡ self.old.0 }
        ensures tids { self.new.1 ≡ self.old.1 }
        ensures pairs { (i j : ℕ) → is_bit self.new.2 i j ≡ (is_bit self.old.2 i j || (is_set from i && nat_eq j index)) }
        ensures before { IsBitGraph self.old.0 self.old.1 self.old.2 self.old.3 }
        ensures graph { IsBitGraph self.new.0 self.new.1 self.new.2 self.new.3 }
    {
        if minus(from, self.pairs.column(index)) == 0 {
            return;
        }
        let to = only(index);
        let before = joined(from, self.reached.meeting(from));
        let after = joined(to, self.reached.row(index));
        self.pairs.add(from, to);
        self.reached.add(before, after);
    }

    /// Frees an index. If no edge leads to it, the others keep what they reach; else that is computed anew from the edges.
    fn free(&mut self, index: u8)
        requires low { index < 32 }
        ensures taken { (i : ℕ) → is_set self.new.0 i ≡ (is_set self.old.0 i && not (nat_eq i index)) }
        ensures tids { self.new.1 ≡ self.old.1 }
        ensures pairs { (i j : ℕ) → is_bit self.new.2 i j
            ≡ (is_bit self.old.2 i j && (not (nat_eq i index) && not (nat_eq j index))) }
        ensures graph { IsBitGraph self.new.0 self.new.1 self.new.2 self.new.3 }
    {
        if self.is_alone(index) {
            self.taken = 0;
            return;
        }
        let alone = only(index);
        let is_first = self.pairs.column(index) == 0;
        self.taken = minus(self.taken, alone);
        self.pairs.take_out(index);
        if is_first {
            self.reached.take_out(index);
        } else {
            self.reached = self.pairs.closure();
        }
    }
}
