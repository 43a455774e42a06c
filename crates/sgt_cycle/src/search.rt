//! The parts of the search for a path along links: the ancestors of the targets, and the next step.
ghost use Rattle.std.specs.Prelude.{◌≡◌, ◌<◌, ◌≤◌, ◌↔◌, ℕ, true, IsTrue, IfSome, IsNone, length, slice_index};
ghost use Rattle.sgt_model.specs.Paths.{AtMost, Member, Distinct};
ghost use Rattle.sgt_cycle.specs.Links.{is_link, is_end};
ghost use Rattle.sgt_cycle.specs.Search.{LeadsBack};

use crate::list::{has, index};
use sgt_model::{Bounded, Tid, Tids};

/// The targets and their ancestors: 32 of each at most.
pub type Seen = Bounded<Tid, 64>;

/// A number outside the list from which a link leads to this one.
fn unseen_source(links: &[(Tid, Tid)], to: Tid, seen: &[Tid]) -> Option<Tid>
    ensures link { IfSome result (λ a. is_link links.now a to ≡ true) }
    ensures new { IfSome result (λ a. Member a seen.now → ⊥) }
    ensures none { IsNone result → (a : ℕ) → is_link links.now a to ≡ true → Member a seen.now }
{
    for link in links {
        if link.1 == to && !has(seen, link.0) {
            return Some(link.0);
        }
    }
    None
}

/// The first index in the list to which a link leads from this number.
pub fn next_index(links: &[(Tid, Tid)], from: Tid, list: &[Tid]) -> Option<usize>
    ensures within { IfSome result (λ i. i < length list.now) }
    ensures link { IfSome result (λ i. is_link links.now from (slice_index list.now i) ≡ true) }
    ensures none { IsNone result → (b : ℕ) → Member b list.now → is_link links.now from b ≡ true → ⊥ }
{
    for link in links {
        if link.0 == from {
            if let Some(i) = index(list, link.1) {
                return Some(i);
            }
        }
    }
    None
}

/// The targets, each once.
fn distinct_members(targets: &Tids) -> Seen
    ensures distinct { Distinct result }
    ensures few { length result ≤ 32 }
    ensures exact { (t : ℕ) → Member t result ↔ Member t targets.now }
{
    let mut seen = Seen::new();
    for i in 0..targets.len() {
        let target = targets.as_slice()[i];
        if !has(seen.as_slice(), target) {
            seen.push(target);
        }
    }
    seen
}

/// The targets and then their ancestors, the numbers from which links lead to a target.
pub fn with_ancestors(links: &[(Tid, Tid)], targets: &Tids) -> Seen
    requires few { AtMost 32 (is_end links.now) }
    ensures back { LeadsBack (is_link links.now) targets.now result }
    ensures distinct { Distinct result }
    ensures targets { (t : ℕ) → Member t targets.now → Member t result }
    ensures closed { (a b : ℕ) → is_link links.now a b ≡ true → Member b result → Member a result }
{
    let mut seen = distinct_members(targets);
    let mut at = 0;
    while at < seen.len() {
        let to = seen.as_slice()[at];
        match unseen_source(links, to, seen.as_slice()) {
            Some(source) => seen.push(source),
            None => at += 1,
        }
    }
    seen
}
