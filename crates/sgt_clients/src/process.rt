//! The process of an entry.
ghost use Rattle.std.specs.Prelude.{◌≡◌, ◌++◌, ℕ, List, IfOk, OnOk};
ghost use Rattle.serde_json.specs.View.{view};
ghost use Rattle.sgt_notation.specs.Numbering.{KnowsItems, texts_of};
ghost use Rattle.sgt_clients.specs.Entries.{IsOfProcess};

use crate::fault::{Flaw, ReadError};
use crate::operations::whole_name;
use serde_json::Value;
use sgt_notation::Items;
use std::alloc::Global;

/// How many processes a history may have.
const MOST_PROCESSES: usize = 16_777_216;

/// The number of the entry's process, whose name is a text or a number. A number stands for its text.
pub(crate) fn read_process(
    alloc: Global,
    processes: &mut Items,
    tree: &Value,
) -> Result<u32, ReadError>
    requires { KnowsItems processes.old }
    ensures known { OnOk result (KnowsItems processes.new) }
    ensures others { OnOk result ((others : List (List ℕ)) × (texts_of processes.new ≡ texts_of processes.old ++ others)) }
    ensures named { IfOk result (IsOfProcess (texts_of processes.new) (view tree.now)) }
{
    if processes.texts.len() >= MOST_PROCESSES {
        return Err(ReadError::Flaw(Flaw::TooManyProcesses));
    }
    match tree.get("process") {
        Some(Value::String(name)) => Ok(processes.number(alloc, name.as_bytes())?),
        Some(name) => match whole_name(alloc, processes, name)? {
            Some(process) => Ok(process),
            None => Err(ReadError::Flaw(Flaw::Process)),
        },
        None => Err(ReadError::Flaw(Flaw::Process)),
    }
}
