//! What a run writes: the report, the history or the records.
ghost use Rattle.std.specs.Prelude.{◌≡◌, ◌≤◌, IfOk, length};
ghost use Rattle.sgt_bank.specs.Outputs.{output_text};

use crate::report::{json_text, report_text};
use sgt_format::append_records;
use sgt_model::NoMemory;
use sgt_notation::append_transcript;
use sgt_workers::Report;
use std::alloc::Global;
use std::convert::Infallible;

/// What is written of a run.
#[derive(Clone, Copy)]
pub enum Output {
    /// A line for each job's outcome, by number, and then the committed database.
    Report,
    /// The history in the notation of Bernstein, Hadzilacos and Goodman (1987), chapter 2. It has a line for each
    /// read, write, commit and abort of all tries, as `r1[2/101]`, in the order of the history. Where an abort
    /// cascades, its own line comes first, and then one for each transaction that is aborted in cascade.
    History,
    /// The committed database: a line `["record",table,number,value]` for each record, by table and then by number.
    Records,
    /// An object of JSON for each job's outcome, by number, and then the committed database as records.
    Json,
}

/// The text of a run, in this output mode. Each job was tried in vain as often as the list says; only the mode `Json`
/// reports that.
///
/// `NoMemory` if an allocation failed.
pub(crate) fn output_text(
    alloc: Global,
    output: Output,
    report: &Report<Infallible>,
    failed: &[u32],
) -> Result<Vec<u8>, NoMemory>
    requires { length report.now.outcomes.items ≤ 1000000 }
    ensures { IfOk result (λ text. text.items
        ≡ output_text output failed.now report.now.history.entries report.now.outcomes.items report.now.database) }
{
    let mut text = Vec::new(alloc);
    match output {
        Output::Report => report_text(
            alloc,
            &report.history,
            report.outcomes.as_slice(),
            &report.database,
        ),
        Output::History => {
            append_transcript(&mut text, &report.history)?;
            Ok(text)
        }
        Output::Records => {
            append_records(&mut text, report.database.rows())?;
            Ok(text)
        }
        Output::Json => json_text(alloc, report, failed),
    }
}
