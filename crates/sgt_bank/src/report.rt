//! The text of the report, in words and in JSON: the outcomes of all jobs, and the database.
ghost use Rattle.std.specs.Prelude.{◌≡◌, ◌++◌, ◌≤◌, length, slice_get, IfOk, OnOk};
ghost use Rattle.sgt_bank.specs.OutcomeJson.{count_or_zero, json_text, outcomes_json};
ghost use Rattle.sgt_bank.specs.Reports.{outcome_lines, report_text};

use crate::outcome_json::append_outcome_json;
use crate::outcome_text::append_outcome;
use sgt_format::{append_database, append_records};
use sgt_log::History;
use sgt_model::{Database, NoMemory};
use sgt_workers::{Outcome, Report};
use std::alloc::{AllocError, Global};

/// The text of a report: a line for each job's outcome, by number, and then the database.
///
/// `NoMemory` if an allocation failed.
pub fn report_text<N>(
    alloc: Global,
    history: &History,
    outcomes: &[Outcome<N>],
    database: &Database,
) -> Result<Vec<u8>, NoMemory>
    requires { length outcomes.now ≤ 1000000 }
    ensures { IfOk result (λ text. text.items ≡ report_text history.now.entries outcomes.now database.now) }
{
    let mut text = Vec::new(alloc);
    append_outcomes(&mut text, history, outcomes)?;
    append_database(&mut text, database.rows())?;
    Ok(text)
}

/// Appends the lines of all outcomes.
fn append_outcomes<N>(
    text: &mut Vec<u8>,
    history: &History,
    outcomes: &[Outcome<N>],
) -> Result<(), AllocError>
    requires { length outcomes.now ≤ 1000000 }
    ensures { OnOk result
        (text.new.items ≡ text.old.items ++ outcome_lines 0 history.now.entries outcomes.now) }
{
    for number in 0..outcomes.len() {
        append_outcome(text, number as u32, &outcomes[number], history)?;
    }
    Ok(())
}

/// The text of a report in JSON: a line for each job's outcome, by number, and then the records of the database. Each
/// job was tried in vain as often as the list says.
///
/// `NoMemory` if an allocation failed.
pub(crate) fn json_text<N>(
    alloc: Global,
    report: &Report<N>,
    failed: &[u32],
) -> Result<Vec<u8>, NoMemory>
    requires { length report.now.outcomes.items ≤ 1000000 }
    ensures { IfOk result (λ text. text.items
        ≡ json_text failed.now report.now.history.entries report.now.outcomes.items report.now.database) }
{
    let mut text = Vec::new(alloc);
    append_objects(
        &mut text,
        &report.history,
        report.outcomes.as_slice(),
        failed,
    )?;
    append_records(&mut text, report.database.rows())?;
    Ok(text)
}

/// Appends the lines of all outcomes in JSON.
fn append_objects<N>(
    text: &mut Vec<u8>,
    history: &History,
    outcomes: &[Outcome<N>],
    failed: &[u32],
) -> Result<(), AllocError>
    requires { length outcomes.now ≤ 1000000 }
    ensures { OnOk result
        (text.new.items ≡ text.old.items ++ outcomes_json 0 failed.now history.now.entries outcomes.now) }
{
    for number in 0..outcomes.len() {
        let tried = count_at(failed, number);
        append_outcome_json(text, number as u32, tried, &outcomes[number], history)?;
    }
    Ok(())
}

/// The count at this position, 0 if there is none.
fn count_at(counts: &[u32], number: usize) -> u32
    ensures { result ≡ count_or_zero (slice_get counts.now number) }
{
    match counts.get(number).copied() {
        Some(count) => count,
        None => 0,
    }
}
