//! What the options of a run choose.
ghost use Rattle.std.specs.Prelude.{◌≤◌};

use clap::ArgMatches;
use sgt_bank::{Explanations, MOST_TRIES, MOST_WORKERS};
use sgt_clients::{ClientsOutput, Level, Question};
use sgt_input::{DEFAULT_BYTES, MOST_BYTES};
use sgt_script::Output;

/// The value of a numeric option. `clap` supplies the default, so it is always present, and keeps it from 1 to
/// `most`.
fn number(options: &ArgMatches<'_>, name: &str, most: u32) -> u32
    requires { 1 ≤ most }
    ensures { (1 ≤ result) × (result ≤ most) }
{
    options.get_one::<u32>(name).unwrap_or(1).clamp(1, most)
}

/// How many bytes the input may have. `clap` supplies the default.
pub(crate) fn most_bytes(options: &ArgMatches<'_>) -> usize
    ensures { result ≤ 4294967296 }
{
    let most = options
        .get_one::<u64>("most")
        .unwrap_or(DEFAULT_BYTES as u64);
    (most as usize).min(MOST_BYTES)
}

/// The output of a script that the options name.
pub(crate) fn script_output(options: &ArgMatches<'_>) -> Output {
    if options.get_flag("history") {
        Output::History
    } else if options.get_flag("records") {
        Output::Records
    } else if options.get_flag("json") {
        Output::Json
    } else {
        Output::Replies
    }
}

/// The options of `sgt bank`.
pub(crate) fn read_bank_options(options: &ArgMatches<'_>, shows_progress: bool) -> sgt_bank::Options
    ensures workers { (1 ≤ result.workers) × (result.workers ≤ 16) }
    ensures tries { (1 ≤ result.tries) × (result.tries ≤ 1000) }
    ensures most { result.most ≤ 4294967296 }
{
    let output = if options.get_flag("history") {
        sgt_bank::Output::History
    } else if options.get_flag("records") {
        sgt_bank::Output::Records
    } else if options.get_flag("json") {
        sgt_bank::Output::Json
    } else {
        sgt_bank::Output::Report
    };
    let explanations = if options.get_flag("explain") {
        Explanations::Tries
    } else {
        Explanations::Off
    };
    sgt_bank::Options {
        workers: number(options, "workers", MOST_WORKERS),
        tries: number(options, "tries", MOST_TRIES),
        most: most_bytes(options),
        output,
        explanations,
        shows_progress,
    }
}

/// What the options ask of what clients saw: by default whether it is serializable, or strictly so.
pub(crate) fn question_of(level: Option<&str>, strict: bool) -> Question {
    let level = match level {
        Some("read-uncommitted") => Level::ReadUncommitted,
        Some("read-committed") => Level::ReadCommitted,
        Some("snapshot-isolation") => Level::SnapshotIsolation,
        Some("strict-serializable") => Level::StrictSerializable,
        None if strict => Level::StrictSerializable,
        _ => Level::Serializable,
    };
    Question { level, strict }
}

/// The output of a check that the options name.
pub(crate) fn check_output(options: &ArgMatches<'_>) -> sgt_check::Output {
    if options.get_flag("graph") {
        sgt_check::Output::Graph
    } else if options.get_flag("timeline") && options.get_flag("all") {
        sgt_check::Output::Timeline
    } else if options.get_flag("timeline") {
        sgt_check::Output::Screen
    } else {
        sgt_check::Output::Report
    }
}

/// The output of a check of a client history that the options name.
pub(crate) fn clients_output(options: &ArgMatches<'_>) -> ClientsOutput {
    if options.get_flag("graph") {
        ClientsOutput::Graph
    } else if options.get_flag("timeline") {
        ClientsOutput::Timeline
    } else if options.get_flag("json") {
        ClientsOutput::Json
    } else {
        ClientsOutput::Report
    }
}
