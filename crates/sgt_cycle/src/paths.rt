//! A path in a graph given as a list of links.
ghost use Rattle.std.specs.Prelude.{◌≡◌, ◌↔◌, ℕ, IsTrue, IfSome, IsNone};
ghost use Rattle.sgt_model.specs.Paths.{AtMost};
ghost use Rattle.sgt_cycle.specs.Links.{is_link, occurs};
ghost use Rattle.sgt_cycle.specs.Path.{IsPath, NoPath, Follows};

use crate::list::{has, index};
use crate::search::{next_index, with_ancestors};
use sgt_model::{Tid, Tids};

/// A path along the links from the source to one of the targets, through no number twice; None if there is none. It
/// allocates nothing, and reads each link at most three times for each number that it visits.
pub fn walk(links: &[(Tid, Tid)], source: Tid, targets: &Tids) -> Option<Tids>
    requires few { AtMost 32 (occurs links.now source) }
    ensures some { IfSome result (IsPath (is_link links.now) source targets.now) }
    ensures none { IsNone result → NoPath (is_link links.now) source targets.now }
{
    let seen = with_ancestors(links, targets);
    let list = seen.as_slice();
    let mut at = index(list, source)?;
    let mut path = Tids::new();
    path.push(source);
    while !has(targets.as_slice(), list[at]) {
        let here = list[at];
        let Some(next) = next_index(links, here, &list[..at]) else {
            unreachable!();
        };
        path.push(list[next]);
        at = next;
    }
    Some(path)
}

/// Whether each two neighbours of the path are a link. A path of no or one number is one too.
pub fn is_walk(links: &[(Tid, Tid)], path: &[Tid]) -> bool
    ensures { IsTrue result ↔ Follows (is_link links.now) path.now }
{
    for i in 1..path.len() {
        if !links.contains(&(path[i - 1], path[i])) {
            return false;
        }
    }
    true
}
