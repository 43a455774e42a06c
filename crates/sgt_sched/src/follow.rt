//! New edges into a transaction that makes an access.
ghost use Rattle.std.specs.Prelude.{◌≡◌, ◌≢◌, ℕ, true, [], ◌⊎◌, ◌↔◌};
ghost use Rattle.sgt_model.specs.Paths.{Member};
ghost use Rattle.sgt_cycle.specs.Path.{NoPath};

use sgt_graph::{Graph, Link};
use sgt_model::{Tid, Tids};

/// Adds edges from the rivals of an access to t, which close no cycle, by the link that a plan of them returned. Most
/// accesses have no rival.
#[inline(always)]
pub fn follow<G: Graph>(graph: &mut G, t: Tid, rivals: &Tids, link: Link)
    requires node { G.nodes graph.old t ≡ true }
    requires others { (u : ℕ) → Member u rivals.now → (G.nodes graph.old u ≡ true) × (u ≢ t) }
    requires free { NoPath (G.pairs graph.old) t rivals.now }
    requires planned { rivals.now ≢ [] → G.is_planned graph.old t rivals.now link }
    ensures nodes { (u : ℕ) → G.nodes graph.new u ≡ G.nodes graph.old u }
    ensures pairs { (u v : ℕ) → (G.pairs graph.new u v ≡ true)
        ↔ ((G.pairs graph.old u v ≡ true) ⊎ ((v ≡ t) × Member u rivals.now)) }
{
    if !rivals.is_empty() {
        graph.link(t, rivals, link);
    }
}
