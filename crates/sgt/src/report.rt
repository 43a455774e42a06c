//! What is written on standard error, and the exit status.

use crate::failure::Detail;
use crate::number_error::number_error;
use crate::output::write_detail;
use clap::error::ErrorKind;
use sgt_check::Verdict;
use sgt_clients::{Answer, ClientsOutput, Notes};
use sgt_input::Fault;
use std::alloc::Global;
use std::fmt::Display;
use std::io::{self, Eprint, Print};
use std::process::ExitCode;

/// The exit status of a check: whether the history is as it should be. After a report, standard error says how many
/// transactions were not judged.
pub(crate) fn judged<R: Eprint>(rt: &R, output: sgt_check::Output, verdict: Verdict) -> ExitCode {
    let active = verdict.counts.active();
    if matches!(output, sgt_check::Output::Report) && active > 0 {
        let are = if active == 1 { " is" } else { "s are" };
        let none = match verdict.counts.committed {
            0 => ", and none committed",
            _ => "",
        };
        let _ = eprintln!(rt;
            "{active} transaction{are} active{none}: serializable and recoverable judge committed ones alone"
        );
    }
    if verdict.sound {
        ExitCode::SUCCESS
    } else {
        ExitCode::from(1)
    }
}

/// The exit status of an answer. After a report, standard error says what was taken for something else.
pub(crate) fn answered<R: Eprint>(
    rt: &R,
    output: ClientsOutput,
    notes: Notes,
    answer: Answer,
) -> ExitCode {
    if output == ClientsOutput::Report && !notes.is_none() {
        report(rt, notes);
    }
    match answer {
        Answer::Yes => ExitCode::SUCCESS,
        Answer::No => ExitCode::from(1),
        Answer::Undecided => ExitCode::from(3),
    }
}

/// Reports that a text for standard output could not be written, if somebody reads it, and returns the exit status.
pub(crate) fn unwritten<R: Eprint>(rt: &R, kind: io::ErrorKind) -> ExitCode {
    failed(rt, Fault::Writing, write_detail(Some(kind)))
}

/// Reports an error and what is said about it on standard error, and returns the exit status.
pub(crate) fn failed<R: Eprint>(rt: &R, fault: impl Display + Drop, detail: Detail) -> ExitCode {
    match detail {
        Detail::Unread => ExitCode::from(2),
        Detail::Nothing => report(rt, fault),
        Detail::Hint(hint) => {
            let _ = eprintln!(rt; "{fault}{hint}");
            ExitCode::from(2)
        }
        detail => {
            report(rt, fault);
            report(rt, detail)
        }
    }
}

/// Reports what is wrong with the arguments, as `clap` would, and returns the exit status.
pub(crate) fn misused<R: Eprint>(rt: &R, what: &str, usage: &str) -> ExitCode {
    let _ = eprintln!(rt;
        "error: {what}\n\nUsage: sgt {usage}\n\nFor more information, try '--help'."
    );
    ExitCode::from(2)
}

/// Writes a text to standard error, and returns the status of a failure. If the write fails too, only the status is
/// left.
pub(crate) fn report<R: Eprint>(rt: &R, text: impl Display + Drop) -> ExitCode {
    let _ = eprintln!(rt; "{text}");
    ExitCode::from(2)
}

/// Writes what `clap` reports in place of a run: help and version to standard output, all else to standard error.
pub(crate) fn refuse<R: Print + Eprint>(rt: &R, alloc: Global, error: &clap::Error) -> ExitCode {
    if error.kind() == ErrorKind::OutOfMemory {
        return report(rt, Fault::NoMemory);
    }
    if let Some(text) = number_error(alloc, error) {
        return report(rt, text.as_str().trim_end());
    }
    match error.print(rt) {
        Ok(()) => ExitCode::from(error.exit_code() as u8),
        Err(error) => unwritten(rt, error.kind()),
    }
}
