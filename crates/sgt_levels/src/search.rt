//! The search for a run of a level, or for ties that leave none. What it finds is tested by `replay.rt` and `tie.rt`.

use crate::survey::{Survey, Visit, length_of};
use crate::tie::{Ground, Passage, Tie, tie_of};
use sgt_appends::{Before, Link, Reason, sort_within};
use sgt_model::NoMemory;
use std::alloc::Global;
use std::collections::BTreeMap;
use std::iter::repeat_n;

/// A run of snapshots: the order of commits, and for each place how many had committed when the transaction there began.
#[derive(Drop)]
pub struct Snapshots {
    pub order: Vec<usize>,
    pub starts: Vec<usize>,
}

/// What a search found: a run, a cycle that leaves none, or neither.
pub type Found<Run, Cycle> = Option<Result<Run, Cycle>>;

/// An order of commits for a run of committed reads, or ties that leave none.
pub fn search_commits(
    alloc: Global,
    survey: &Survey<'_>,
) -> Result<Found<Vec<usize>, Vec<Tie>>, NoMemory> {
    let mut ties = Vec::new(alloc);
    for tie in survey.ties.as_slice() {
        if !matches!(
            tie.ground,
            Ground::Wait { .. } | Ground::Observed(Reason::Missed { .. })
        ) {
            ties.push(*tie)?;
        }
    }
    sort_ties(alloc, ties.as_slice(), survey.runs.as_slice())
}

/// The transactions that take part, sorted along the ties, or a cycle of ties.
pub fn sort_ties(
    alloc: Global,
    ties: &[Tie],
    runs: &[bool],
) -> Result<Found<Vec<usize>, Vec<Tie>>, NoMemory> {
    let mut links = Vec::with_capacity(alloc, ties.len())?;
    for (number, tie) in ties.iter().enumerate() {
        links.push(link(tie.from, tie.to, tied(number)))?;
    }
    match sort_within(alloc, links.as_slice(), runs.len())? {
        Some(Ok(sorted)) => {
            let order = sorted.order.iter().copied();
            let takes_part = |node: &usize| matches!(runs.get(*node), Some(true));
            Ok(Some(Ok(order.filter(takes_part).collect(alloc)?)))
        }
        Some(Err(cycle)) => {
            let cycle = cycle.iter().filter_map(|link| tie_at(ties, link));
            Ok(Some(Err(cycle.collect(alloc)?)))
        }
        None => Ok(None),
    }
}

/// The link from the one node to the other.
fn link(from: usize, to: usize, reason: Reason) -> Link {
    Link { from, to, reason }
}

/// The reason of the link of a tie: it has the number of the tie.
fn tied(number: usize) -> Reason {
    Reason::Seen {
        append: number,
        read: 0,
    }
}

/// The tie of the link.
fn tie_at(ties: &[Tie], link: &Link) -> Option<Tie> {
    match link.reason {
        Reason::Seen { append, .. } => ties.get(append).copied(),
        _ => None,
    }
}

/// The reason of a link by which a transaction comes before another.
fn ordered() -> Reason {
    Reason::Seen { append: 0, read: 1 }
}

/// The passages of the links. A link from a begin to the end of a line and one from there to a commit make one, and so do
/// those from a commit through barriers to a begin. `ends` is the first node after begins and commits.
fn passages_of(
    alloc: Global,
    survey: &Survey<'_>,
    cycle: &[Link],
    ends: usize,
) -> Result<Vec<Passage>, NoMemory> {
    let mut passages = Vec::new(alloc);
    let mut enters = None;
    let mut left = 0;
    for link in cycle {
        match link.reason {
            Reason::Seen { read: 1, .. } => {
                if link.from < ends {
                    left = link.from / 2;
                }
                if link.to < ends {
                    passages.push(passage(left, link.to / 2, None))?;
                }
            }
            Reason::Seen { .. } => {
                if let Some(tie) = tie_at(survey.ties.as_slice(), link) {
                    passages.push(passage(tie.from, tie.to, Some(tie.ground)))?;
                }
            }
            Reason::Missed { read, append } => match enters {
                Some((from, read)) => {
                    let to = link.to / 2;
                    if from != to {
                        let ground = Ground::Observed(Reason::Missed { read, append });
                        passages.push(passage(from, to, Some(ground)))?;
                    }
                    enters = None;
                }
                None => enters = Some((link.from / 2, read)),
            },
            Reason::InOrder { .. } => (),
        }
    }
    Ok(passages)
}

/// The passage from the one to the other.
fn passage(from: usize, to: usize, why: Option<Ground>) -> Passage {
    Passage { from, to, why }
}

/// Those of the passages that are ties.
pub fn ties_in(alloc: Global, passages: &[Passage]) -> Result<Vec<Tie>, NoMemory> {
    Ok(passages.iter().filter_map(tie_of).collect(alloc)?)
}

/// The nodes of the graph of begins and commits: 2t is the begin of transaction t, and 2t + 1 its commit. The sort keeps
/// the order of the nodes where no link leads back, so transactions stay in the order in which they began.
#[derive(Clone, Copy)]
struct Nodes {
    /// How many transactions there are.
    transactions: usize,
    /// The ends of the lines begin here.
    ends: usize,
    /// The barriers begin here.
    barriers: usize,
}

/// The node of the barrier, if the number is that of one.
fn barrier_of(nodes: Nodes, number: usize) -> Option<usize> {
    let barrier = number.checked_sub(nodes.transactions)?;
    Some(nodes.barriers.saturating_add(barrier))
}

/// The begin of the transaction.
fn begin_of(number: usize) -> usize {
    number.saturating_mul(2)
}

/// The commit of the transaction.
fn commit_of(number: usize) -> usize {
    begin_of(number).saturating_add(1)
}

/// Whether the node is a commit.
fn is_commit(nodes: Nodes, node: usize) -> bool {
    node < nodes.ends && node % 2 == 1
}

/// A snapshot run that keeps the orders, or a cycle that leaves none.
pub fn search_snapshots(
    alloc: Global,
    survey: &Survey<'_>,
    before: Before<'_>,
) -> Result<Found<Snapshots, Vec<Passage>>, NoMemory> {
    let transactions = survey.history.len();
    let ends = begin_of(transactions);
    let nodes = Nodes {
        transactions,
        ends,
        barriers: ends.saturating_add(survey.count()),
    };
    let count = nodes.barriers.saturating_add(before.barriers);
    let mut links = links_of(alloc, survey, nodes)?;
    for (from, to) in before.pairs {
        let from = barrier_of(nodes, *from).unwrap_or(commit_of(*from));
        let to = barrier_of(nodes, *to).unwrap_or(begin_of(*to));
        links.push(link(from, to, ordered()))?;
    }
    match sort_within(alloc, links.as_slice(), count)? {
        Some(Ok(sorted)) => part_unseen(&mut links, alloc, survey, nodes, sorted.order.as_slice())?,
        Some(Err(mut cycle)) => {
            let is_at_commit = |link: &Link| is_commit(nodes, link.from);
            let first = cycle.iter().position(is_at_commit).unwrap_or(0);
            cycle.rotate_left(first.min(cycle.len()));
            let passages = passages_of(alloc, survey, cycle.as_slice(), ends)?;
            return Ok(Some(Err(passages)));
        }
        None => return Ok(None),
    }
    match sort_within(alloc, links.as_slice(), count)? {
        Some(Ok(sorted)) => {
            let run = snapshots_of(alloc, survey, nodes, sorted.order.as_slice())?;
            Ok(Some(Ok(run)))
        }
        _ => Ok(None),
    }
}

/// The reason of a link that is no tie.
fn untied() -> Reason {
    Reason::InOrder {
        first: 0,
        second: 0,
        reader: 0,
        read: 0,
    }
}

/// The links between begins, commits and the ends of lines. The link of a miss leads from the begin to the commit, that of
/// another tie from the commit to the begin.
fn links_of(alloc: Global, survey: &Survey<'_>, nodes: Nodes) -> Result<Vec<Link>, NoMemory> {
    let mut links = Vec::new(alloc);
    for number in 0..nodes.transactions {
        links.push(link(begin_of(number), commit_of(number), untied()))?;
    }
    for (number, tie) in survey.ties.iter().enumerate() {
        let (from, to) = match tie.ground {
            Ground::Observed(Reason::Missed { .. }) => (begin_of(tie.from), commit_of(tie.to)),
            _ => (commit_of(tie.from), begin_of(tie.to)),
        };
        links.push(link(from, to, tied(number)))?;
    }
    for visit in survey.enters.as_slice() {
        let reason = Reason::Missed {
            read: visit.position,
            append: 0,
        };
        let from = begin_of(visit.transaction);
        links.push(link(from, end_of(nodes, visit), reason))?;
    }
    for visit in survey.leaves.as_slice() {
        let reason = Reason::Missed {
            read: 0,
            append: visit.position,
        };
        let to = commit_of(visit.transaction);
        links.push(link(end_of(nodes, visit), to, reason))?;
    }
    Ok(links)
}

/// The node of the end of the line.
fn end_of(nodes: Nodes, visit: &Visit) -> usize {
    nodes.ends.saturating_add(visit.line)
}

/// For transactions that append to one key values that no read saw, adds links from the commit of each to the begin of
/// the next, in the order of the nodes.
fn part_unseen(
    links: &mut Vec<Link>,
    alloc: Global,
    survey: &Survey<'_>,
    nodes: Nodes,
    order: &[usize],
) -> Result<(), NoMemory> {
    let mut last = BTreeMap::new(alloc);
    for node in order {
        let number = *node / 2;
        if !is_commit(nodes, *node) {
            continue;
        }
        for position in 0..length_of(survey.history, number) {
            let Some(key) = survey.unseen_at(number, position) else {
                continue;
            };
            match last.insert(key, number)? {
                Some(before) if before != number => {
                    links.push(link(commit_of(before), begin_of(number), untied()))?;
                }
                _ => (),
            }
        }
    }
    Ok(())
}

/// The order of commits, with the starts.
fn snapshots_of(
    alloc: Global,
    survey: &Survey<'_>,
    nodes: Nodes,
    sorted: &[usize],
) -> Result<Snapshots, NoMemory> {
    let mut begun: Vec<usize> = repeat_n(0, nodes.transactions).collect(alloc)?;
    let mut order = Vec::new(alloc);
    let mut starts = Vec::new(alloc);
    for node in sorted {
        let number = *node / 2;
        let Some(start) = begun.get_mut(number) else {
            continue;
        };
        if !is_commit(nodes, *node) {
            *start = order.len();
        } else if survey.takes_part(number) {
            order.push(number)?;
            starts.push(*start)?;
        }
    }
    Ok(Snapshots { order, starts })
}
