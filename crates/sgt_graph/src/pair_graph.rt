//! A graph as plain lists of nodes and edges.
ghost use Rattle.std.specs.Prelude.{◌≡◌, ℕ, ⊤, true, not, ◌||◌, ◌&&◌, nat_eq, length, ◌≤◌, min, unwrap_or};
ghost use Rattle.std.specs.List.{filter};
ghost use Rattle.sgt_model.specs.Paths.{Reaches};
ghost use Rattle.sgt_cycle.specs.Links.{is_link};
ghost use Rattle.sgt_cycle.specs.Path.{Holds};
ghost use Rattle.sgt_graph.specs.PairGraphs.{is_node, is_apart};

use crate::graph::Graph;
use crate::verdict::{Link, Plan};
use sgt_cycle::walk;
use sgt_model::{Bounded, Tid, Tids};
use std::marker::Model;

/// As many edges as a graph of 32 nodes without a cycle can have.
type Pairs = Bounded<(Tid, Tid), 496>;

/// A graph as a list of its nodes and a list of its edges. A test reads each edge at most three times for each node.
#[derive(Drop)]
pub struct PairGraph {
    nodes: Tids,
    pairs: Pairs,
}

impl Model for PairGraph {
    ghost use Rattle.std.specs.Prelude.{ℕ, List};
    ghost use Rattle.sgt_graph.specs.PairGraphs.{IsPairGraph};

    ghost Value = { List ℕ × List (ℕ × ℕ) };

    ghost view = { λ g. (g.nodes, g.pairs) };

    ghost invariant = { λ g. IsPairGraph g.nodes g.pairs };
}

impl Graph for PairGraph {
    ghost nodes = { λ g. is_node g.0 };

    ghost pairs = { λ g. is_link g.1 };

    ghost is_planned = { λ g t preds link. ⊤ };

    fn empty() -> Self {
        PairGraph {
            nodes: Tids::new(),
            pairs: Pairs::new(),
        }
    }

    fn add(&mut self, t: Tid) {
        self.nodes.push(t);
    }

    fn plan(&self, t: Tid, preds: &Tids) -> Plan {
        match walk(self.pairs.as_slice(), t, preds) {
            Some(path) => Plan::Closes(path),
            None => Plan::Free(Link::default()),
        }
    }

    fn link(&mut self, t: Tid, preds: &Tids, _link: Link) {
        for pred in preds.as_slice() {
            self.add_pair(*pred, t);
        }
    }

    fn least_pred(&self, t: Tid) -> Option<Tid> {
        let mut least = None;
        for pair in self.pairs.as_slice() {
            if pair.1 == t {
                least = Some(smaller(least, pair.0));
            }
        }
        least
    }

    fn remove(&mut self, t: Tid) {
        self.nodes = nodes_without(self.nodes.as_slice(), t);
        self.pairs = pairs_without(self.pairs.as_slice(), t);
    }

    fn has_no_cycle(&self) {
        // Reading a field makes the invariant known: the fields are a graph.
        let _nodes = &self.nodes;
    }
}

impl PairGraph {
    /// Adds an edge from u to t, unless it is there.
    fn add_pair(&mut self, u: Tid, t: Tid)
        requires from { is_node self.old.0 u ≡ true }
        requires to { is_node self.old.0 t ≡ true }
        requires free { Reaches (Holds (is_link self.old.1)) t u → ⊥ }
        ensures nodes { self.new.0 ≡ self.old.0 }
        ensures pairs { (a b : ℕ) → is_link self.new.1 a b
            ≡ (is_link self.old.1 a b || (nat_eq u a && nat_eq t b)) }
    {
        if !self.pairs.as_slice().contains(&(u, t)) {
            self.pairs.push((u, t));
        }
    }
}

/// The smaller of the least so far, if there is one, and another.
pub fn smaller(least: Option<Tid>, t: Tid) -> Tid
    ensures { result ≡ min (unwrap_or least t) t }
{
    match least {
        Some(u) if u < t => u,
        _ => t,
    }
}

/// The nodes without t.
fn nodes_without(nodes: &[Tid], t: Tid) -> Tids
    requires few { length nodes.now ≤ 32 }
    ensures { result ≡ filter (λ u. not (nat_eq t u)) nodes.now }
{
    let mut left = Tids::new();
    for node in nodes {
        if *node != t {
            left.push(*node);
        }
    }
    left
}

/// The edges without those of t.
fn pairs_without(pairs: &[(Tid, Tid)], t: Tid) -> Pairs
    requires few { length pairs.now ≤ 496 }
    ensures { result ≡ filter (is_apart t) pairs.now }
{
    let mut left = Pairs::new();
    for pair in pairs {
        if pair.0 != t && pair.1 != t {
            left.push(*pair);
        }
    }
    left
}
