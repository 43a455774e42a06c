//! Explains in one line, for a person, what is wrong with the line that ended a run with a fault.
ghost use Rattle.std.specs.Prelude.{◌≡◌, None, IfOk};
ghost use Rattle.sgt_line_errors.specs.FaultyLines.{line_of};

use crate::command::Command;
use crate::json_text::json_fault;
use crate::message::words;
use crate::refusal::opening_refusal;
use crate::request::{record_fault, request_fault};
use crate::typed::Typed;
use sgt_format::read_tree;
use sgt_input::Fault;
use sgt_model::NoMemory;
use std::alloc::Global;

/// Explains a fault beyond its own line, in one line without newline: where the error is in the faulty line of the
/// input, and what was expected there. The line is given without its newline. None if the fault's own line says all.
///
/// # Errors
///
/// `NoMemory` if an allocation failed.
pub fn diagnose(
    alloc: Global,
    fault: &Fault,
    command: Command,
    line: &[u8],
) -> Result<Option<String>, NoMemory>
    ensures none { IfOk result (λ text. line_of fault.now ≡ None → text ≡ None) }
{
    let typed = Typed {
        alloc,
        text: line,
        shows_columns: true,
    };
    match fault {
        Fault::NoOpening => words(typed, "the input is empty"),
        Fault::LongLine(1) => words(
            typed,
            "a line has at most 65536 bytes: accounts may follow as lines, as [\"record\",0,1,101] for the customer 101 of name 1; 1 and 2 are the tables of saving and checking; procedures stand in line 1 alone",
        ),
        Fault::LongLine(_) => words(typed, "a line has at most 65536 bytes"),
        Fault::NotJson(number) => json_fault(typed, *number),
        Fault::BadLine(1)
        | Fault::BadLimits
        | Fault::BadOpening(_)
        | Fault::ProcShape(_, _)
        | Fault::ProcFlaw(_, _) => opening_refusal(typed, least_live(command)),
        Fault::BadLine(_) => match read_tree(alloc, line)? {
            Some(tree) => request_fault(typed, command, &tree),
            None => Ok(None),
        },
        Fault::BadRecord(_) => match read_tree(alloc, line)? {
            Some(tree) => record_fault(typed, &tree),
            None => Ok(None),
        },
        _ => Ok(None),
    }
}

// The least number of live transactions that must be allowed.
fn least_live(command: Command) -> u32 {
    match command {
        Command::Script => 1,
        Command::Bank { workers } => workers,
    }
}
