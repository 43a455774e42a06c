//! An entry of a client history: what a process did or was answered.
ghost use Rattle.std.specs.Prelude.{◌≡◌, ◌⊎◌, ◌++◌, ℕ, List, codes, IfOk, IsTrue, OnOk, [], true, false};
ghost use Rattle.serde_json.specs.Data.{string};
ghost use Rattle.serde_json.specs.View.{view};
ghost use Rattle.sgt_notation.specs.Numbering.{KnowsItems, texts_of};
ghost use Rattle.sgt_clients.specs.Entries.{kind_word, commits, may_be_silent, HasMember, IsOther, HasNoList, ListsAccesses, ListsNone, IsOfTransactions, SpellsEntryOrOther};

use crate::access::Access;
use crate::fault::{Flaw, ReadError};
use crate::operations::read_operations;
use crate::process::read_process;
use serde_json::Value;
use sgt_appends::{Operation, Status};
use sgt_format::items;
use sgt_notation::Items;
use std::alloc::Global;

/// What an entry says of a transaction.
#[derive(Clone, Copy)]
pub(crate) enum Kind {
    /// It began.
    Invoked,
    /// It ended, as far as its client knows.
    Ended(Status),
}

/// An entry of a process.
#[derive(Drop)]
pub(crate) struct Entry {
    pub process: u32,
    pub kind: Kind,
    /// Whether it lists accesses.
    pub listed: bool,
    /// The accesses that it lists.
    pub accesses: Vec<Access>,
    /// Those of its operations that count: reads only if the transaction committed.
    pub operations: Vec<Operation>,
}

/// Reads an entry. An entry of another function than transactions is none: it is to be skipped.
pub(crate) fn read_entry(
    alloc: Global,
    keys: &mut Items,
    processes: &mut Items,
    tree: &Value,
) -> Result<Option<Entry>, ReadError>
    requires keys { KnowsItems keys.old }
    requires processes { KnowsItems processes.old }
    ensures known { OnOk result (KnowsItems keys.new) }
    ensures known_processes { OnOk result (KnowsItems processes.new) }
    ensures more { OnOk result ((more : List (List ℕ)) × (texts_of keys.new ≡ texts_of keys.old ++ more)) }
    ensures others { OnOk result ((others : List (List ℕ)) × (texts_of processes.new ≡ texts_of processes.old ++ others)) }
    ensures spelled { IfOk result (SpellsEntryOrOther (texts_of keys.new) (texts_of processes.new) (view tree.now)) }
{
    if !is_of_transactions(tree) {
        return Ok(None);
    }
    let process = read_process(alloc, processes, tree)?;
    let kind = read_kind(tree)?;
    let entry = read_value(alloc, keys, tree, process, kind)?;
    Ok(Some(entry))
}

/// Whether the entry is a transaction's: it names no function, or that of transactions.
fn is_of_transactions(tree: &Value) -> bool
    ensures yes { IsTrue result → IsOfTransactions (view tree.now) }
    ensures no { result ≡ false → IsOther (view tree.now) }
{
    match tree.get("f") {
        Some(function) => matches!(function.as_str(), Some("txn")),
        None => true,
    }
}

/// The kind of the entry.
fn read_kind(tree: &Value) -> Result<Kind, ReadError>
    ensures { IfOk result (λ kind. HasMember (view tree.now) (codes "type") (string (kind_word kind))) }
{
    let Some(kind) = tree.get("type") else {
        return Err(ReadError::Flaw(Flaw::Type));
    };
    match kind.as_str() {
        Some("invoke") => Ok(Kind::Invoked),
        Some("ok") => Ok(Kind::Ended(Status::Committed)),
        Some("fail") => Ok(Kind::Ended(Status::Aborted)),
        Some("info") => Ok(Kind::Ended(Status::Unknown)),
        _ => Err(ReadError::Flaw(Flaw::Type)),
    }
}

/// The entry of the process and kind, with its operations. A failure and an unknown end may have none.
fn read_value(
    alloc: Global,
    keys: &mut Items,
    tree: &Value,
    process: u32,
    kind: Kind,
) -> Result<Entry, ReadError>
    requires { KnowsItems keys.old }
    ensures known { OnOk result (KnowsItems keys.new) }
    ensures more { OnOk result ((more : List (List ℕ)) × (texts_of keys.new ≡ texts_of keys.old ++ more)) }
    ensures process { IfOk result (λ e. e.process ≡ process) }
    ensures kind { IfOk result (λ e. e.kind ≡ kind) }
    ensures lists { IfOk result (λ e. ListsAccesses (texts_of keys.new) (view tree.now) e ⊎ ListsNone (view tree.now) e) }
{
    let Some(value) = tree.get("value") else {
        return silent(alloc, process, kind);
    };
    match items(value) {
        Some(items) => {
            let operations = read_operations(alloc, keys, items, commits(kind))?;
            Ok(Entry {
                process,
                kind,
                listed: true,
                accesses: operations.accesses,
                operations: operations.counted,
            })
        }
        None => silent(alloc, process, kind),
    }
}

/// An entry without a list of operations, if one of the kind may have none.
fn silent(alloc: Global, process: u32, kind: Kind) -> Result<Entry, ReadError>
    ensures process { IfOk result (λ e. e.process ≡ process) }
    ensures kind { IfOk result (λ e. e.kind ≡ kind) }
    ensures unlisted { IfOk result (λ e. e.listed ≡ false) }
    ensures no_accesses { IfOk result (λ e. e.accesses.items ≡ []) }
    ensures none { IfOk result (λ e. e.operations.items ≡ []) }
    ensures may { OnOk result (may_be_silent kind ≡ true) }
{
    match kind {
        Kind::Ended(Status::Aborted | Status::Unknown) => Ok(Entry {
            process,
            kind,
            listed: false,
            accesses: Vec::new(alloc),
            operations: Vec::new(alloc),
        }),
        _ => Err(ReadError::Flaw(Flaw::Value)),
    }
}

/// Whether it is the end of a transaction that committed.
fn commits(kind: Kind) -> bool
    ensures { result ≡ commits kind }
{
    matches!(kind, Kind::Ended(Status::Committed))
}
