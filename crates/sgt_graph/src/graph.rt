//! The calls of a serialization graph, and their contracts on its nodes and edges.
ghost use Rattle.std.specs.Prelude.{◌≡◌, ◌≢◌, ℕ, List, Bool, true, false, not, ◌||◌, ◌&&◌, ◌⊎◌, ◌↔◌, nat_eq, IfSome, IsNone};
ghost use Rattle.sgt_model.specs.Paths.{AtMost, Member};
ghost use Rattle.sgt_graph.specs.declared.verdict.Link.{Link};
ghost use Rattle.sgt_graph.specs.Graphs.{NoCycle, OfNodes, IsLeastPred};
ghost use Rattle.sgt_graph.specs.Verdicts.{IsVerdict, IsPlan, Inserts, NoPath};

use crate::verdict::{Link, Plan, Verdict};
use sgt_model::{Tid, Tids};

/// A graph of transactions without a cycle. An edge (`pair`) leads from a transaction to one that must come after it. At
/// most 32 transactions are nodes, and no call allocates.
///
/// Bernstein, Hadzilacos and Goodman (1987), chapter 4.
pub trait Graph: Drop + Send {
    /// The transactions in the graph.
    ghost nodes: { Self → ℕ → Bool };

    /// `pairs`: an edge leads from the first to the second.
    ghost pairs: { Self → ℕ → ℕ → Bool };

    /// This link adds edges from these transactions to that one.
    ghost is_planned: { Self → ℕ → List ℕ → Link → Type 0 };

    /// A graph of no nodes.
    fn empty() -> Self
        ensures nodes { (u : ℕ) → nodes result u ≡ false }
        ensures pairs { (u v : ℕ) → pairs result u v ≡ false };

    /// Adds a transaction, without edges.
    fn add(&mut self, t: Tid)
        requires new { nodes self.old t ≡ false }
        requires capacity { AtMost 31 (nodes self.old) }
        ensures nodes { (u : ℕ) → nodes self.new u ≡ (nodes self.old u || nat_eq u t) }
        ensures pairs { (u v : ℕ) → pairs self.new u v ≡ pairs self.old u v };

    /// Whether edges from all the preds to t would leave the graph without a cycle and, if so, the link that adds them.
    fn plan(&self, t: Tid, preds: &Tids) -> Plan
        requires node { nodes self.now t ≡ true }
        requires preds { (u : ℕ) → Member u preds.now → (nodes self.now u ≡ true) × (u ≢ t) }
        ensures plan { IsPlan (pairs self.now) (is_planned self.now t preds.now) t preds.now result };

    /// Adds edges from all the preds to t, which close no cycle, by the link that a plan of them returned.
    fn link(&mut self, t: Tid, preds: &Tids, link: Link)
        requires node { nodes self.old t ≡ true }
        requires preds { (u : ℕ) → Member u preds.now → (nodes self.old u ≡ true) × (u ≢ t) }
        requires free { NoPath (pairs self.old) t preds.now }
        requires planned { is_planned self.old t preds.now link }
        ensures nodes { (u : ℕ) → nodes self.new u ≡ nodes self.old u }
        ensures pairs { (u v : ℕ) → (pairs self.new u v ≡ true)
            ↔ ((pairs self.old u v ≡ true) ⊎ ((v ≡ t) × Member u preds.now)) };

    /// Whether edges from all the preds to t would leave the graph without a cycle.
    ///
    /// The scheduler calls this only to see whether an event would end its transaction; a step makes a plan.
    fn test(&self, t: Tid, preds: &Tids) -> Verdict
        requires node { nodes self.now t ≡ true }
        requires preds { (u : ℕ) → Member u preds.now → (nodes self.now u ≡ true) × (u ≢ t) }
        ensures verdict { IsVerdict (pairs self.now) t preds.now result }
    {
        match self.plan(t, preds) {
            Plan::Free(_) => Verdict::Accepted,
            Plan::Closes(cycle) => Verdict::Closes(cycle),
        }
    }

    /// Adds edges from all the preds to t. If they would close a cycle, nothing changes.
    ///
    /// Only tests call this. It is part of the specification: a plan and its link, as one call.
    fn insert(&mut self, t: Tid, preds: &Tids) -> Verdict
        requires node { nodes self.old t ≡ true }
        requires preds { (u : ℕ) → Member u preds.now → (nodes self.old u ≡ true) × (u ≢ t) }
        ensures nodes { (u : ℕ) → nodes self.new u ≡ nodes self.old u }
        ensures verdict { IsVerdict (pairs self.old) t preds.now result }
        ensures pairs { Inserts (pairs self.old) (pairs self.new) t preds.now result }
    {
        match self.plan(t, preds) {
            Plan::Free(link) => {
                self.link(t, preds, link);
                Verdict::Accepted
            }
            Plan::Closes(cycle) => Verdict::Closes(cycle),
        }
    }

    /// The least transaction with an edge to t.
    fn least_pred(&self, t: Tid) -> Option<Tid>
        ensures some { IfSome result (IsLeastPred (pairs self.now) t) }
        ensures none { IsNone result → (u : ℕ) → pairs self.now u t ≡ false };

    /// Removes a transaction, with its edges.
    fn remove(&mut self, t: Tid)
        ensures nodes { (u : ℕ) → nodes self.new u ≡ (nodes self.old u && not (nat_eq t u)) }
        ensures pairs { (u v : ℕ) → pairs self.new u v
            ≡ (pairs self.old u v && (not (nat_eq t u) && not (nat_eq t v))) };

    /// A law of every graph: each edge is between two nodes, and the edges have no cycle. It does nothing.
    fn has_no_cycle(&self)
        ensures of_nodes { OfNodes (nodes self.now) (pairs self.now) }
        ensures acyclic { NoCycle (pairs self.now) };
}
