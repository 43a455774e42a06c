//! Topological sort: the nodes of a graph sorted along its links, or a cycle.
ghost use Rattle.std.specs.Prelude.{◌≡◌, ◌≢◌, ◌<◌, ◌≤◌, ℕ, List, [], true, false, length, IfOk, OnOk, IfSome, IsNone, IsSome, IsTrue, IfErr, ◌∷◌, slice_set};
ghost use Rattle.std.proofs.Common.{get_or};
ghost use Rattle.sgt_appends.specs.declared.sorting.Link.{Link};
ghost use Rattle.sgt_appends.specs.Lists.{Has, Rises};
ghost use Rattle.sgt_appends.specs.Graphs.{IsAmong, RiseAlong, LeadTo, LeadBack, Pass, AreAmong, IsRound, AreWithin, AreChained, IsSorted, AreOrdered};
ghost use Rattle.sgt_appends.specs.Visits.{IsVisited};

use crate::order::none_named;
use crate::witness::Reason;
use sgt_model::NoMemory;
use std::alloc::Global;

/// A link of a graph, whose nodes are numbers, with its reason.
#[derive(Clone, Copy)]
pub struct Link {
    /// The node that comes first: the source.
    pub from: usize,
    /// The node that comes later: the target.
    pub to: usize,
    /// The reason of the link.
    pub reason: Reason,
}

/// Gives ranks to all nodes, or finds a cycle.
fn visit_all(
    alloc: Global,
    links: &[Link],
    heads: &mut [usize],
    met: &mut [bool],
    ranks: &mut [usize],
    order: &mut Vec<usize>,
) -> Result<Option<Vec<Link>>, NoMemory>
    requires within { AreWithin links.now (length ranks.old) }
    requires nodes { length heads.old ≡ length ranks.old }
    requires marks { length met.old ≡ length ranks.old }
    requires unpassed { (v : ℕ) → get_or heads.old v 0 ≡ 0 }
    requires unmet { (v : ℕ) → get_or met.old v false ≡ false }
    requires unranked { (v : ℕ) → get_or ranks.old v 0 ≡ 0 }
    requires empty { order.old.items ≡ [] }
    ensures cycle { IfOk result (λ found. IfSome found (λ cycle. IsRound links.now cycle.items)) }
    ensures rise { IfOk result (λ found. IsNone found → RiseAlong links.now (λ v. get_or ranks.new v 0)) }
    ensures ordered { IfOk result (λ found. IsNone found → AreOrdered ranks.new order.new.items) }
    ensures all { IfOk result (λ found. IsNone found → (v : ℕ) → v < length ranks.old → 0 < get_or ranks.new v 0) }
{
    let before = chain(alloc, links, heads)?;
    for node in 0..ranks.len() {
        if let Some(cycle) = visit(
            alloc,
            links,
            heads,
            before.as_slice(),
            met,
            ranks,
            order,
            node,
        )? {
            return Ok(Some(cycle));
        }
    }
    Ok(None)
}

/// Gives ranks to the node and to all nodes that lead to it, or finds a cycle.
fn visit(
    alloc: Global,
    links: &[Link],
    heads: &mut [usize],
    before: &[usize],
    met: &mut [bool],
    ranks: &mut [usize],
    order: &mut Vec<usize>,
    root: usize,
) -> Result<Option<Vec<Link>>, NoMemory>
    requires sorted { IsSorted links.now heads.old before.now ranks.old }
    requires ordered { AreOrdered ranks.old order.old.items }
    requires within { root < length ranks.old }
    requires marks { length met.old ≡ length ranks.old }
    requires met { (v : ℕ) → get_or met.old v false ≡ true → 0 < get_or ranks.old v 0 }
    ensures cycle { IfOk result (λ found. IfSome found (λ cycle. IsRound links.now cycle.items)) }
    ensures sorted { IfOk result (λ found. IsNone found → IsSorted links.now heads.new before.now ranks.new) }
    ensures ordered { IfOk result (λ found. IsNone found → AreOrdered ranks.new order.new.items) }
    ensures visited { IfOk result (λ found. IsNone found → IsVisited met.old ranks.old met.new ranks.new root) }
{
    if mark(met, root) {
        return Ok(None);
    }
    let mut path = Vec::new(alloc);
    let mut at = root;
    loop {
        if let Some(link) = next_link(links, heads, before, ranks, at) {
            if mark(met, link.from) {
                return Ok(Some(round(alloc, path, link)?));
            }
            path.push(link)?;
            at = link.from;
        } else {
            place(links, heads, before, ranks, order, at)?;
            let Some(link) = path.pop() else {
                return Ok(None);
            };
            at = link.to;
        }
    }
}

/// Marks the node, and returns whether it was marked before.
fn mark(met: &mut [bool], node: usize) -> bool
    requires { node < length met.old }
    ensures was { result ≡ get_or met.old node false }
    ensures marked { met.new ≡ slice_set met.old node true }
{
    let was = met[node];
    met[node] = true;
    was
}

/// The next link to the node from a node without a rank.
fn next_link(
    links: &[Link],
    heads: &mut [usize],
    before: &[usize],
    ranks: &[usize],
    node: usize,
) -> Option<Link>
    requires sorted { IsSorted links.now heads.old before.now ranks.now }
    requires within { node < length ranks.now }
    ensures sorted { IsSorted links.now heads.new before.now ranks.now }
    ensures among { IfSome result (IsAmong links.now) }
    ensures to { IfSome result (λ l. l.to ≡ node) }
    ensures from { IfSome result (λ l. get_or ranks.now l.from 0 ≡ 0) }
    ensures none { IsNone result → (l : Link) → IsAmong links.now l → l.to ≡ node → 0 < get_or ranks.now l.from 0 }
{
    while heads[node] != 0 {
        let place = heads[node] - 1;
        let link = links[place];
        if ranks[link.from] == 0 {
            return Some(link);
        }
        heads[node] = before[place];
    }
    None
}

/// Gives the next rank to the node, if it has none.
fn place(
    links: &[Link],
    heads: &[usize],
    before: &[usize],
    ranks: &mut [usize],
    order: &mut Vec<usize>,
    node: usize,
) -> Result<(), NoMemory>
    requires sorted { IsSorted links.now heads.now before.now ranks.old }
    requires ordered { AreOrdered ranks.old order.old.items }
    requires within { node < length ranks.old }
    requires none { (l : Link) → IsAmong links.now l → l.to ≡ node → 0 < get_or ranks.old l.from 0 }
    ensures sorted { OnOk result (IsSorted links.now heads.now before.now ranks.new) }
    ensures ordered { OnOk result (AreOrdered ranks.new order.new.items) }
    ensures nodes { OnOk result (length ranks.new ≡ length ranks.old) }
    ensures placed { OnOk result (0 < get_or ranks.new node 0) }
    ensures others { OnOk result ((v : ℕ) → 0 < get_or ranks.old v 0 → 0 < get_or ranks.new v 0) }
{
    if ranks[node] == 0 {
        order.push(node)?;
        ranks[node] = order.len();
    }
    Ok(())
}

/// A list of zeros, one for each node.
pub(crate) fn zeros(alloc: Global, len: usize) -> Result<Vec<usize>, NoMemory>
    ensures len { IfOk result (λ zeros. length zeros.items ≡ len) }
    ensures none { IfOk result (λ zeros. (i : ℕ) → get_or zeros.items i 0 ≡ 0) }
{
    let mut zeros = Vec::with_capacity(alloc, len)?;
    for _ in 0..len {
        zeros.push_reserved(0);
    }
    Ok(zeros)
}

/// For each link the previous one to the same node; `heads` has the last link to each node.
fn chain(alloc: Global, links: &[Link], heads: &mut [usize]) -> Result<Vec<usize>, NoMemory>
    requires within { AreWithin links.now (length heads.old) }
    requires none { (v : ℕ) → get_or heads.old v 0 ≡ 0 }
    ensures chained { IfOk result (λ before. AreChained links.now (length links.now) heads.new before.items) }
    ensures nodes { OnOk result (length heads.new ≡ length heads.old) }
{
    let mut before = Vec::new(alloc);
    for place in 0..links.len() {
        let to = links[place].to;
        before.push(heads[to])?;
        heads[to] = place + 1;
    }
    Ok(before)
}

/// The cycle that the link closes with a part of the path.
fn round(alloc: Global, path: Vec<Link>, link: Link) -> Result<Vec<Link>, NoMemory>
    requires passes { (root : ℕ) × LeadBack root path.items link.to × Pass root path.items link.from }
    ensures among { IfOk result (λ cycle. AreAmong cycle.items (link ∷ path.items)) }
    ensures leads { IfOk result (λ cycle. LeadTo link.from cycle.items link.from) }
    ensures some { IfOk result (λ cycle. cycle.items ≢ []) }
{
    let mut path = path;
    let mut cycle = Vec::new(alloc);
    cycle.push(link)?;
    let mut at = link.to;
    while at != link.from {
        let Some(back) = path.pop() else {
            unreachable!();
        };
        cycle.push(back)?;
        at = back.to;
    }
    Ok(cycle)
}

/// The ranks of the nodes, from 1 on, and the nodes in rank order.
#[derive(Drop)]
pub struct Sorted {
    pub ranks: Vec<usize>,
    pub order: Vec<usize>,
}

/// The nodes below the number, sorted along the links, or a cycle.
pub fn sort(
    alloc: Global,
    links: &[Link],
    nodes: usize,
) -> Result<Result<Sorted, Vec<Link>>, NoMemory>
    requires { AreWithin links.now nodes }
    ensures cycle { IfOk result (λ found. IfErr found (λ cycle. IsRound links.now cycle.items)) }
    ensures rise { IfOk result (λ found. IfOk found (λ s. RiseAlong links.now (λ v. get_or s.ranks.items v 0))) }
    ensures ordered { IfOk result (λ found. IfOk found (λ s. AreOrdered s.ranks.items s.order.items)) }
    ensures all { IfOk result (λ found. IfOk found (λ s. (v : ℕ) → v < nodes → 0 < get_or s.ranks.items v 0)) }
{
    let mut heads = zeros(alloc, nodes)?;
    let mut met = none_named(alloc, nodes)?;
    let mut ranks = zeros(alloc, nodes)?;
    let mut order = Vec::new(alloc);
    match visit_all(
        alloc,
        links,
        heads.as_mut_slice(),
        met.as_mut_slice(),
        ranks.as_mut_slice(),
        &mut order,
    )? {
        Some(cycle) => Ok(Err(cycle)),
        None => Ok(Ok(Sorted { ranks, order })),
    }
}

/// The sorted nodes, or a cycle; nothing if a link leads from or to a node that is not below the number.
pub fn sort_within(
    alloc: Global,
    links: &[Link],
    nodes: usize,
) -> Result<Option<Result<Sorted, Vec<Link>>>, NoMemory> {
    if !are_within(links, nodes) {
        return Ok(None);
    }
    Ok(Some(sort(alloc, links, nodes)?))
}

/// Whether the nodes of the links are below the number.
fn are_within(links: &[Link], nodes: usize) -> bool
    ensures { IsTrue result → AreWithin links.now nodes }
{
    for link in links {
        if link.from >= nodes || link.to >= nodes {
            return false;
        }
    }
    true
}
