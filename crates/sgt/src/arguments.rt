//! The command line: subcommands, options and their help texts.

use crate::help::{BANK_HELP, CHECK_HELP, HELP, SCRIPT_HELP};
use crate::input::FILE;
use crate::words::WORDS;
use clap::builder::ValueParser;
use clap::{Arg, ArgAction, Command};
use sgt_bank::{MOST_TRIES, MOST_WORKERS};
use sgt_input::MOST_BYTES;
use std::alloc::{AllocError, Global};

/// The version of the program.
pub(crate) const VERSION: &str = "0.1.0";

/// The default number of workers, as `clap` takes it.
const WORKERS: &str = "4";

/// The default number of tries of a job, as `clap` takes it.
const TRIES: &str = "100";

/// How many bytes an input may have by default, as `clap` takes it.
const MOST: &str = "16777216";

/// How `sgt check` is called, as `clap` says it.
pub(crate) const CHECK_USAGE: &str = "check [OPTIONS] [FILE]";

/// The help of an option that both runs have.
const NO_PROGRESS: &str = "Does not say that on a terminal either";

/// An option without a value, and those before it that it excludes.
type Flag = (&'static str, &'static [&'static str]);

/// The options of a run without a value.
const RUN_FLAGS: [Flag; 6] = [
    ("history", &[]),
    ("records", &["history"]),
    ("explain", &["history", "records"]),
    ("json", &["history", "records"]),
    ("progress", &[]),
    ("no-progress", &["progress"]),
];

/// The models of a history: the operations of a scheduler, or what clients saw of lists.
const MODELS: [&str; 2] = ["operations", "list-append"];

/// The levels of isolation.
const LEVELS: [&str; 5] = [
    "read-uncommitted",
    "read-committed",
    "snapshot-isolation",
    "serializable",
    "strict-serializable",
];

/// The options of `sgt check` without a value.
const CHECK_FLAGS: [Flag; 5] = [
    ("graph", &[]),
    ("timeline", &["graph"]),
    ("all", &[]),
    ("json", &["graph", "timeline"]),
    ("strict", &[]),
];

/// The subcommands of `sgt` that run on an input: of each the name, what it does, and the rest of its help.
const COMMANDS: [(&str, &str, &str); 3] = [
    (
        "script",
        "Runs a script of events, as lines of JSON, and answers each",
        SCRIPT_HELP,
    ),
    (
        "bank",
        "Runs jobs, as lines of JSON, on worker threads",
        BANK_HELP,
    ),
    (
        "check",
        "Checks whether a history is serializable, recoverable, and more",
        CHECK_HELP,
    ),
];

/// An option with this name and this help.
fn option<'a>(alloc: Global, name: &'a str, help: &'a str) -> Arg<'a> {
    Arg::new(alloc, name).long(name).help(help)
}

/// An option that takes a number from 1 to `most`.
fn number_option<'a>(
    alloc: Global,
    name: &'a str,
    help: &'a str,
    most: u64,
    default: &'a str,
) -> Arg<'a> {
    option(alloc, name, help)
        .value_parser(ValueParser::unsigned(1, most))
        .default_value(default)
}

/// The option that says how many bytes an input may have.
fn most_option<'a>(alloc: Global) -> Arg<'a> {
    number_option(
        alloc,
        "most",
        "How many bytes the input may have, up to 4294967296",
        MOST_BYTES as u64,
        MOST,
    )
}

/// The option that names the file of words.
fn words_option<'a>(alloc: Global) -> Result<Arg<'a>, AllocError> {
    option(
        alloc,
        WORDS,
        "A file that says what your codes mean, for --explain",
    )
    .value_name("FILE")
    .requires_arg("explain")
}

/// An option that takes one of these names.
fn names_option<'a>(
    alloc: Global,
    name: &'a str,
    help: &'a str,
    names: &'static [&'static str],
) -> Arg<'a> {
    option(alloc, name, help)
        .value_parser(ValueParser::Names(names))
        .hide_possible_values(true)
}

/// The option that names the model of a history.
fn model_option<'a>(alloc: Global) -> Arg<'a> {
    names_option(
        alloc,
        "model",
        "The model of the history: operations or list-append",
        &MODELS,
    )
    .default_value("operations")
}

/// Adds options without a value, with their help texts, and after `--explain` the option of its words.
fn add_flags<'a>(
    alloc: Global,
    options: &mut Vec<Arg<'a>>,
    flags: &[Flag],
    helps: &[&'static str],
) -> Result<(), AllocError> {
    for ((name, others), help) in flags.iter().zip(helps) {
        let mut flag = option(alloc, *name, *help).action(ArgAction::SetTrue);
        for other in *others {
            flag = flag.conflicts_with(*other)?;
        }
        options.push(flag)?;
        if *name == "explain" {
            options.push(words_option(alloc)?)?;
        }
    }
    Ok(())
}

/// The options of `sgt script`.
fn script_options<'a>(alloc: Global) -> Result<Vec<Arg<'a>>, AllocError> {
    let mut options = Vec::new(alloc);
    options.push(most_option(alloc))?;
    add_flags(
        alloc,
        &mut options,
        &RUN_FLAGS,
        &[
            "Writes the run as a history for 'sgt check', instead of the replies",
            "Writes the committed database as records, instead of the replies",
            "Explains on standard error aborts, commits that wait and refused events",
            "Writes each reply as an object of JSON, and then the records",
            "Says on standard error, once a second, how many events are answered",
            NO_PROGRESS,
        ],
    )?;
    Ok(options)
}

/// The options of `sgt bank`.
fn bank_options<'a>(alloc: Global) -> Result<Vec<Arg<'a>>, AllocError> {
    let mut options = Vec::new(alloc);
    options.push(number_option(
        alloc,
        "workers",
        "How many jobs run at the same time, from 1 to 16",
        u64::from(MOST_WORKERS),
        WORKERS,
    ))?;
    options.push(number_option(
        alloc,
        "tries",
        "How often a job is tried at most, from 1 to 1000",
        u64::from(MOST_TRIES),
        TRIES,
    ))?;
    options.push(most_option(alloc))?;
    add_flags(
        alloc,
        &mut options,
        &RUN_FLAGS,
        &[
            "Writes the run as a history for 'sgt check', instead of the outcomes",
            "Writes the committed database as records, instead of the outcomes",
            "Reports on standard error how the jobs ended, and why",
            "Writes each outcome as an object of JSON, and then the records",
            "Says on standard error, once a second, how many jobs have ended",
            NO_PROGRESS,
        ],
    )?;
    Ok(options)
}

/// The options of `sgt check`.
fn check_options<'a>(alloc: Global) -> Result<Vec<Arg<'a>>, AllocError> {
    let mut options = Vec::new(alloc);
    add_flags(
        alloc,
        &mut options,
        &CHECK_FLAGS,
        &[
            "Writes the serialization graph in DOT, instead of the report",
            "Writes a picture of the history in SVG, instead of the report",
            "Draws up to 400 operations of a history, not 60 (--timeline only)",
            "Writes the report as one object of JSON (list-append only)",
            "The serial order has to keep real time (list-append only)",
        ],
    )?;
    options.push(names_option(
        alloc,
        "level",
        "The level that the exit status is of: read-uncommitted, read-committed,\nsnapshot-isolation, serializable or strict-serializable (list-append only)",
        &LEVELS,
    ))?;
    options.push(model_option(alloc))?;
    Ok(options)
}

/// A subcommand of `sgt`, with its options. Each may name a file to read in place of standard input.
fn subcommand<'a>(
    alloc: Global,
    name: &'a str,
    about: &'a str,
    help: &'a str,
) -> Result<Command<'a>, AllocError> {
    let mut options = match name {
        "script" => script_options(alloc)?,
        "bank" => bank_options(alloc)?,
        _ => check_options(alloc)?,
    };
    options.push(
        Arg::new(alloc, FILE).value_name("FILE").help(
            "The file to read, in place of standard input; - is standard input",
        ),
    )?;
    Command::new(alloc, name)
        .about(about)
        .after_help(help)
        .args(options)
}

/// All subcommands of `sgt`.
fn subcommands<'a>(alloc: Global) -> Result<Vec<Command<'a>>, AllocError> {
    let mut commands = Vec::new(alloc);
    for (name, about, help) in COMMANDS {
        commands.push(subcommand(alloc, name, about, help)?)?;
    }
    commands.push(Command::new(alloc, "version").about("Prints the version"))?;
    Ok(commands)
}

/// The command line. Without a subcommand, or with an unknown one, it prints the usage.
pub(crate) fn command<'a>(alloc: Global) -> Result<Command<'a>, AllocError> {
    let subcommands = subcommands(alloc)?;
    Command::new(alloc, "sgt")
        .about("An in-memory transaction engine that schedules by serialization graph testing")
        .version(VERSION)
        .after_help(HELP)
        .subcommand_required(true)
        .arg_required_else_help(true)
        .subcommands(subcommands)
}
