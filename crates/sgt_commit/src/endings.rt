//! Which transaction a commit waits for, and what a commit and an abort do in the layers.
ghost use Rattle.std.specs.Prelude.{◌≡◌, ℕ, false, not, ◌&&◌, nat_eq, IfSome, IsNone};
ghost use Rattle.std.specs.Option.{unwrap_or};
ghost use Rattle.sgt_model.specs.Contents.{Key};
ghost use Rattle.sgt_model.specs.AccessList.{forgotten};
ghost use Rattle.sgt_model.specs.Chains.{chain_without, value_in};
ghost use Rattle.sgt_model.specs.ChainOrder.{IsFirstIn};
ghost use Rattle.sgt_graph.specs.Graphs.{IsLeastPred};

use sgt_access::Accesses;
use sgt_graph::Graph;
use sgt_model::Tid;
use sgt_records::Records;

/// The transaction that a commit of t must wait for: the least live predecessor, or none.
///
/// Durner and Neumann (ICDE 2019): a commit waits for its predecessors, so commit order agrees with the order of conflicts.
pub fn decide<G: Graph>(graph: &G, t: Tid) -> Option<Tid>
    ensures waits { IfSome result (IsLeastPred (G.pairs graph.now) t) }
    ensures free { IsNone result → (u : ℕ) → G.pairs graph.now u t ≡ false }
{
    graph.least_pred(t)
}

/// Commits t in the layers. Each of its values, the first of its chain, becomes the committed one, or none where it removed
/// the record, and t leaves the chains, the access list and the graph. It allocates nothing.
pub fn finish<R: Records, A: Accesses, G: Graph>(
    records: &mut R,
    accesses: &mut A,
    graph: &mut G,
    t: Tid,
)
    requires first { (k : Key) → IsFirstIn t (R.chain records.old k) }
    ensures chain { (k : Key) → R.chain records.new k ≡ chain_without t (R.chain records.old k) }
    ensures settled { (k : Key) → R.settled records.new k
        ≡ unwrap_or (value_in t (R.chain records.old k)) (R.settled records.old k) }
    ensures accesses { A.list accesses.new ≡ forgotten t (A.list accesses.old) }
    ensures nodes { (u : ℕ) → G.nodes graph.new u ≡ (G.nodes graph.old u && not (nat_eq t u)) }
    ensures pairs { (u v : ℕ) → G.pairs graph.new u v
        ≡ (G.pairs graph.old u v && (not (nat_eq t u) && not (nat_eq t v))) }
{
    records.settle(t);
    accesses.forget(t);
    graph.remove(t);
}

/// Aborts t in the layers. Its values leave the chains, where later writes stay, and t leaves the access list and
/// the graph. The committed values stay. It allocates nothing.
///
/// No before image is written back.
pub fn unwind<R: Records, A: Accesses, G: Graph>(
    records: &mut R,
    accesses: &mut A,
    graph: &mut G,
    t: Tid,
)
    ensures chain { (k : Key) → R.chain records.new k ≡ chain_without t (R.chain records.old k) }
    ensures settled { (k : Key) → R.settled records.new k ≡ R.settled records.old k }
    ensures accesses { A.list accesses.new ≡ forgotten t (A.list accesses.old) }
    ensures nodes { (u : ℕ) → G.nodes graph.new u ≡ (G.nodes graph.old u && not (nat_eq t u)) }
    ensures pairs { (u v : ℕ) → G.pairs graph.new u v
        ≡ (G.pairs graph.old u v && (not (nat_eq t u) && not (nat_eq t v))) }
{
    records.undo(t);
    accesses.forget(t);
    graph.remove(t);
}
