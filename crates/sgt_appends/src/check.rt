//! The verdict on a history.
ghost use Rattle.std.specs.Prelude.{IfOk};
ghost use Rattle.sgt_appends.specs.Precedences.{AppendsOnce};
ghost use Rattle.sgt_appends.specs.Runs.{IsSerializable};
ghost use Rattle.sgt_appends.specs.Verdicts.{IsRight, IsExact, IsWitness};
ghost use Rattle.sgt_appends.specs.Witnesses.{IsEdgeCycle};

use crate::append_index::AppendIndex;
use crate::compatible::first_incompatible;
use crate::fault::Fault;
use crate::premises::unknown_read;
use crate::reads::first_fault;
use crate::solver::solve;
use crate::transaction::Transaction;
use crate::witness::Edge;
use sgt_model::NoMemory;
use std::alloc::Global;

/// A witness that a history is not serializable.
#[derive(Drop)]
pub enum Witness {
    /// A cycle of precedences: each edge begins where the one before it ends, and the first where the last ends.
    Cycle(Vec<Edge>),
    /// A fault of the read at this position of the reader.
    Fault {
        reader: usize,
        read: usize,
        fault: Fault,
    },
}

/// Whether what the clients observed was serializable, with the evidence.
#[derive(Drop)]
pub enum Verdict {
    /// It was: a serial run.
    Serial(Vec<usize>),
    /// It was not: a cycle of precedences, or a fault of a read.
    Violated(Witness),
    /// Not decided: a value is appended twice to a key.
    AppendedTwice,
    /// Not decided: the reader's end is unknown, and it has a read at this position.
    UnknownReads { reader: usize, read: usize },
}

/// Checks whether what the clients saw is serializable, with a serial run or a witness against all orders.
///
/// The time is about linear in the size of the history: n log n.
pub fn check_appends(alloc: Global, history: &[Transaction]) -> Result<Verdict, NoMemory>
    ensures right { IfOk result (IsRight history.now) }
    ensures exact { IfOk result (IsExact history.now) }
{
    let verdict = verdict_of(alloc, history)?;
    Ok(verdict)
}

/// The verdict: the premises are tested first, then each read by itself, then all reads together.
fn verdict_of(alloc: Global, history: &[Transaction]) -> Result<Verdict, NoMemory>
    ensures { IfOk result (IsRight history.now) }
{
    let Some(appends) = AppendIndex::of_history(alloc, history)? else {
        return Ok(Verdict::AppendedTwice);
    };
    if let Some((reader, read)) = unknown_read(history) {
        return Ok(Verdict::UnknownReads { reader, read });
    }
    if let Some((reader, read, fault)) = first_fault(alloc, history, &appends)? {
        return Ok(Verdict::Violated(Witness::Fault {
            reader,
            read,
            fault,
        }));
    }
    match solve(alloc, history, &appends)? {
        Ok(order) => Ok(Verdict::Serial(order)),
        Err(edges) => Ok(Verdict::Violated(witness_of(alloc, history, edges)?)),
    }
}

/// The witness of a history with this cycle: two reads that contradict one another, or else the cycle.
fn witness_of(alloc: Global, history: &[Transaction], edges: Vec<Edge>) -> Result<Witness, NoMemory>
    requires once { AppendsOnce history.now }
    requires cycle { IsEdgeCycle history.now edges.items }
    ensures { IfOk result (λ witness. (¬ IsSerializable history.now) × IsWitness history.now witness) }
{
    match first_incompatible(alloc, history)? {
        Some((reader, read, fault)) => Ok(Witness::Fault {
            reader,
            read,
            fault,
        }),
        None => Ok(Witness::Cycle(edges)),
    }
}
