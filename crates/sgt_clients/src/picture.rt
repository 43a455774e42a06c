//! The picture of what was found of a level: the operations that a witness names, or those of an order.

use crate::clients::Clients;
use crate::evidence::{put_at, seen_at};
use crate::finding::Finding;
use crate::level::Level;
use crate::level_findings::{LevelFindings, Weaker};
use crate::scene::{Scene, Stroke, place_of};
use crate::stroke_text::history_of;
use crate::witness_text::passage_of;
use sgt_appends::{Fault, Operation, Reason, Status};
use sgt_classes::{Edge, Violation};
use sgt_format::append_numbered;
use sgt_levels::{Committed, Ground, Partial, Passage, Snapshot, Tie, Writes};
use sgt_model::NoMemory;
use sgt_timeline::{Highlight, append_picture, draw};
use std::alloc::Global;

/// The most operations of a serial order that are drawn.
const MOST_DRAWN: usize = 400;

/// The most steps of a cycle that are drawn.
const MOST_STEPS: usize = 64;

/// What stands below the report.
const LEGEND: &[u8] =
    b"w[x: +1] appends 1 to x. The order from left to right is logical, not time.\n";

/// What is drawn of a history.
#[derive(Clone, Copy)]
enum Subject {
    /// An order of its transactions.
    Order,
    /// The first transactions of an order.
    OrderStart,
    /// A cycle of transactions.
    Cycle,
    /// A read that is wrong.
    Read,
}

/// Appends the picture of what was found of the level in SVG, with the report below it.
///
/// # Errors
///
/// `NoMemory` if an allocation failed. A part of the picture may have been appended then.
pub fn append_timeline(
    alloc: Global,
    text: &mut Vec<u8>,
    clients: &Clients,
    found: &LevelFindings,
    level: Level,
    report: &[u8],
) -> Result<(), NoMemory> {
    let mut scene = Scene::new(alloc);
    let subject = add_level(alloc, &mut scene, clients, found, level)?;
    if matches!(subject, Subject::Cycle | Subject::Read) {
        scene.add_ends(alloc, clients)?;
        scene.sort(alloc, clients)?;
    }
    let history = history_of(alloc, clients, scene.strokes.as_slice())?;
    let edges = edges_of(alloc, &scene)?;
    let operations = operations_of(clients);
    let caption = caption_of(alloc, report, scene.strokes.len(), operations, subject)?;
    let highlight = highlight_of(subject, edges.as_slice());
    let mut picture = draw(alloc, &history, highlight, caption.as_slice())?;
    picture.operations = operations;
    append_picture(text, &history, &picture)
}

/// How many operations the history has, with the known ends of its transactions.
fn operations_of(clients: &Clients) -> usize {
    let mut count = 0_usize;
    for transaction in &clients.transactions {
        count = count.saturating_add(transaction.operations.len());
        if transaction.status != Status::Unknown {
            count = count.saturating_add(1);
        }
    }
    count
}

/// The words below the picture: the report, what a write and the order mean here, and what was left out.
fn caption_of(
    alloc: Global,
    report: &[u8],
    drawn: usize,
    operations: usize,
    subject: Subject,
) -> Result<Vec<u8>, NoMemory> {
    let mut caption = Vec::from_slice(alloc, report)?;
    caption.extend_from_slice(LEGEND)?;
    if drawn < operations {
        append_numbered(&mut caption, b"drawn: ", drawn)?;
        append_numbered(&mut caption, b" of ", operations)?;
        caption.extend_from_slice(left_out(subject))?;
    }
    Ok(caption)
}

/// Which of the operations are drawn, if not all are.
fn left_out(subject: Subject) -> &'static [u8] {
    match subject {
        Subject::Order => b" operations: those of the order, which has no aborted transactions\n",
        Subject::OrderStart => b" operations: those of the first transactions of the order\n",
        Subject::Cycle => b" operations: those of the cycle, with the ends of its transactions\n",
        Subject::Read => b" operations: those that show what is wrong with the read\n",
    }
}

/// Adds what was found of the level. If the report says that its lines above break it, that is what they say.
fn add_level(
    alloc: Global,
    scene: &mut Scene,
    clients: &Clients,
    found: &LevelFindings,
    level: Level,
) -> Result<Subject, NoMemory> {
    match (level, &found.weaker, &found.untimed) {
        (Level::ReadUncommitted, Some(weaker), _) => {
            add_writes(alloc, scene, clients, found, weaker)
        }
        (Level::ReadCommitted, Some(weaker), _) => {
            add_committed(alloc, scene, clients, found, weaker)
        }
        (Level::SnapshotIsolation, Some(weaker), _) => {
            add_snapshot(alloc, scene, clients, found, weaker)
        }
        (Level::StrictSerializable, _, _) | (_, _, None) => {
            add_finding(scene, clients, &found.finding)
        }
        (_, _, Some(untimed)) => add_finding(scene, clients, untimed),
    }
}

/// Adds what was found of read uncommitted.
fn add_writes(
    alloc: Global,
    scene: &mut Scene,
    clients: &Clients,
    found: &LevelFindings,
    weaker: &Weaker,
) -> Result<Subject, NoMemory> {
    match &weaker.levels.writes {
        Writes::Order(order) => add_order(scene, clients, order.as_slice()),
        Writes::Cycle(ties) => add_ties(alloc, scene, ties.as_slice()),
        Writes::Implied => add_committed(alloc, scene, clients, found, weaker),
        Writes::Open => add_finding(scene, clients, &found.finding),
    }
}

/// Adds what was found of read committed.
fn add_committed(
    alloc: Global,
    scene: &mut Scene,
    clients: &Clients,
    found: &LevelFindings,
    weaker: &Weaker,
) -> Result<Subject, NoMemory> {
    if weaker.committed_above {
        return add_finding(scene, clients, &found.finding);
    }
    match &weaker.levels.committed {
        Committed::Run(order) => add_order(scene, clients, order.as_slice()),
        Committed::Fault {
            reader,
            read,
            fault,
        } => add_fault(scene, clients, *reader, *read, fault),
        Committed::Partial(partial) => add_partial(scene, partial),
        Committed::Cycle(ties) => add_ties(alloc, scene, ties.as_slice()),
        Committed::Open => add_finding(scene, clients, &found.finding),
    }
}

/// Adds what was found of snapshot isolation.
fn add_snapshot(
    alloc: Global,
    scene: &mut Scene,
    clients: &Clients,
    found: &LevelFindings,
    weaker: &Weaker,
) -> Result<Subject, NoMemory> {
    if weaker.snapshot_above {
        return add_finding(scene, clients, &found.finding);
    }
    match &weaker.levels.snapshot {
        Snapshot::Run(run) => add_order(scene, clients, run.order.as_slice()),
        Snapshot::NotCommitted => add_committed(alloc, scene, clients, found, weaker),
        Snapshot::Cycle(ties) => add_ties(alloc, scene, ties.as_slice()),
        Snapshot::Open => add_finding(scene, clients, &found.finding),
    }
}

/// Adds a finding.
fn add_finding(
    scene: &mut Scene,
    clients: &Clients,
    finding: &Finding,
) -> Result<Subject, NoMemory> {
    match finding {
        Finding::Serial(order) => add_order(scene, clients, order.as_slice()),
        Finding::Cycle(steps, _) => add_steps(scene, steps.as_slice()),
        Finding::Fault {
            reader,
            read,
            fault,
            ..
        } => add_fault(scene, clients, *reader, *read, fault),
    }
}

/// Adds a read that saw one append of a transaction and missed another one.
fn add_partial(scene: &mut Scene, partial: &Partial) -> Result<Subject, NoMemory> {
    scene.add_pair(
        at(partial.by, partial.seen),
        at(partial.reader, partial.read),
    )?;
    scene.add(at(partial.by, partial.missed))?;
    Ok(Subject::Read)
}

/// Adds the ties of a cycle.
fn add_ties(alloc: Global, scene: &mut Scene, ties: &[Tie]) -> Result<Subject, NoMemory> {
    let mut steps = Vec::with_capacity(alloc, ties.len())?;
    for tie in ties {
        steps.push(passage_of(tie))?;
    }
    add_steps(scene, steps.as_slice())
}

/// What stands out.
fn highlight_of<'a>(subject: Subject, edges: &'a [Edge]) -> Highlight<'a> {
    match (subject, edges.first()) {
        (Subject::Order | Subject::OrderStart, _) | (Subject::Read, None) => Highlight::Nothing,
        (Subject::Cycle, _) => Highlight::Cycle(edges),
        (Subject::Read, Some(edge)) => Highlight::Violation(Violation {
            earlier: edge.earlier,
            later: edge.later,
        }),
    }
}

/// The pairs that stand out, by the places of their operations.
fn edges_of(alloc: Global, scene: &Scene) -> Result<Vec<Edge>, NoMemory> {
    let mut edges = Vec::with_capacity(alloc, scene.pairs.len())?;
    for pair in &scene.pairs {
        edges.push(Edge {
            from: 0,
            to: 0,
            earlier: place_of(scene.strokes.as_slice(), pair.earlier).unwrap_or(0),
            later: place_of(scene.strokes.as_slice(), pair.later).unwrap_or(0),
        })?;
    }
    Ok(edges)
}

/// Adds the operations of an order, up to this many.
fn add_order(scene: &mut Scene, clients: &Clients, order: &[usize]) -> Result<Subject, NoMemory> {
    for transaction in order {
        let Some(one) = clients.transactions.get(*transaction) else {
            return Ok(Subject::OrderStart);
        };
        if scene.strokes.len().saturating_add(one.operations.len()) >= MOST_DRAWN {
            return Ok(Subject::OrderStart);
        }
        add_all(scene, *transaction, one.operations.len())?;
        scene.add_end(clients, *transaction)?;
    }
    Ok(Subject::Order)
}

/// Adds all operations of the transaction.
fn add_all(scene: &mut Scene, transaction: usize, count: usize) -> Result<(), NoMemory> {
    for position in 0..count {
        scene.add(Stroke {
            transaction,
            position,
        })?;
    }
    Ok(())
}

/// Adds the operations of the first steps of a cycle.
fn add_steps(scene: &mut Scene, steps: &[Passage]) -> Result<Subject, NoMemory> {
    for (place, step) in steps.iter().enumerate() {
        if place < MOST_STEPS {
            add_step(scene, step, next_of(steps, place))?;
        }
    }
    Ok(Subject::Cycle)
}

/// The step after the one at the place, in a cycle.
fn next_of(steps: &[Passage], place: usize) -> Option<&Passage> {
    if place.saturating_add(1) < steps.len() {
        steps.get(place.saturating_add(1))
    } else {
        steps.first()
    }
}

/// Adds the two operations of the step, and the read that it cites. One of real time leads from an end to the operation
/// of the next step.
fn add_step(scene: &mut Scene, step: &Passage, next: Option<&Passage>) -> Result<(), NoMemory> {
    let later = match step.why {
        Some(ground) => at(step.to, positions_of(ground).1),
        None => match next {
            Some(next) => earlier_of(next),
            None => Stroke::end_of(step.to),
        },
    };
    scene.add_pair(earlier_of(step), later)?;
    match step.why {
        Some(Ground::Observed(Reason::InOrder { reader, read, .. })) => scene.add(at(reader, read)),
        Some(Ground::Late { reader, read, .. }) => scene.add(at(reader, read)),
        _ => Ok(()),
    }
}

/// The operation at the position of the transaction.
fn at(transaction: usize, position: usize) -> Stroke {
    Stroke {
        transaction,
        position,
    }
}

/// The operation from which the step leads.
fn earlier_of(step: &Passage) -> Stroke {
    match step.why {
        Some(ground) => at(step.from, positions_of(ground).0),
        None => Stroke::end_of(step.from),
    }
}

/// The positions of the operations from which and to which the ground leads.
fn positions_of(ground: Ground) -> (usize, usize) {
    match ground {
        Ground::Observed(Reason::Seen { append, read }) => (append, read),
        Ground::Observed(Reason::Missed { read, append }) | Ground::Wait { read, append, .. } => {
            (read, append)
        }
        Ground::Observed(Reason::InOrder { first, second, .. })
        | Ground::Late { first, second, .. } => (first, second),
    }
}

/// Adds the operations that show the fault.
fn add_fault(
    scene: &mut Scene,
    clients: &Clients,
    reader: usize,
    read: usize,
    fault: &Fault,
) -> Result<Subject, NoMemory> {
    let here = at(reader, read);
    match fault {
        Fault::Unwritten(value) | Fault::Twice(value) => {
            add_before(scene, appender_of(clients, here, *value), here)?;
        }
        Fault::Aborted { by, append } => scene.add_pair(at(*by, *append), here)?,
        Fault::Incompatible { other, read } => scene.add_pair(at(*other, *read), here)?,
        Fault::Swapped { by, first, second } => {
            scene.add(at(*by, *first))?;
            scene.add_pair(at(*by, *second), here)?;
        }
        Fault::Ahead { append } => scene.add_pair(here, at(reader, *append))?,
        Fault::EndsOtherwise => add_before(scene, own_before(clients, here), here)?,
    }
    Ok(Subject::Read)
}

/// Adds the read, and the operation before it that shows what is wrong, if there is one.
fn add_before(scene: &mut Scene, before: Option<Stroke>, read: Stroke) -> Result<(), NoMemory> {
    match before {
        Some(stroke) => scene.add_pair(stroke, read),
        None => scene.add(read),
    }
}

/// The append of the value to the key that is read.
fn appender_of(clients: &Clients, read: Stroke, value: u64) -> Option<Stroke> {
    let key = seen_at(clients, read.transaction, read.position)?.key;
    for (transaction, one) in clients.transactions.iter().enumerate() {
        if let Some(position) = position_of(one.operations.as_slice(), key, value) {
            return Some(at(transaction, position));
        }
    }
    None
}

/// The position of the append of the value to the key.
fn position_of(operations: &[Operation], of: u32, what: u64) -> Option<usize> {
    for (position, operation) in operations.iter().enumerate() {
        if is_append(operation, of, what) {
            return Some(position);
        }
    }
    None
}

/// Whether the operation appends the value to the key.
fn is_append(operation: &Operation, of: u32, what: u64) -> bool {
    match operation {
        Operation::Append { key, value } => *key == of && *value == what,
        Operation::Read { .. } => false,
    }
}

/// The last append of the reader to the key that it reads, before the read.
fn own_before(clients: &Clients, read: Stroke) -> Option<Stroke> {
    let key = seen_at(clients, read.transaction, read.position)?.key;
    let mut found = None;
    for position in 0..read.position {
        if put_at(clients, read.transaction, position).is_some_and(|put| put.key == key) {
            found = Some(at(read.transaction, position));
        }
    }
    found
}
