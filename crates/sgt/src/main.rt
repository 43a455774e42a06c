//! The program `sgt`, with three subcommands:
//!
//! - `sgt script` runs a script of JSON lines on an engine. It writes a line for each reply, and then the committed
//!   database. On request it explains on standard error why transactions abort or wait and events are refused.
//! - `sgt bank` runs jobs on worker threads. It writes a line for each job's outcome, and then the committed
//!   database. On request it reports on standard error how the jobs ended, and why.
//! - `sgt check` reads a history. It writes the classes that the history belongs to, its serialization graph, or a
//!   picture of it. With `--model list-append` the history is what the clients of a database saw.
//!
//! Each reads standard input, or the file that an argument names. Each reports an error on standard error and exits with
//! status 2. A second line explains the error, if there is more to say. `sgt version` writes the version.
//!
//! The crate holds the command line only. `sgt_script` says and proves what a script's run writes, `sgt_bank` what a
//! bank's run writes, `sgt_check` what a check writes, and `sgt_clients` what a check of a client history writes.
//! `sgt_line_errors` explains a faulty line.
//!
//! Here `arguments` has the options, and `choices` what they choose. `failure` says more about an error, and `report`
//! writes it and decides the exit status.
#![tactic(auto)]

mod arguments;
mod choices;
mod codes;
mod ended_error;
mod failure;
mod help;
mod input;
mod number_error;
mod operation_error;
mod output;
mod report;
mod words;

use arguments::{CHECK_USAGE, VERSION, command};
use choices::{
    check_output, clients_output, most_bytes, question_of, read_bank_options, script_output,
};
use clap::ArgMatches;
use failure::{Detail, check_detail, clients_detail, fault_detail, too_long, unread_detail};
use input::{InputBytes, named_file, open_input};
use output::OutputBytes;
use report::{answered, failed, judged, misused, refuse, report, unwritten};
use sgt_bank::run_bank;
use sgt_check::{CheckFault, run_check};
use sgt_clients::{ClientsFault, Notes, Question, run_clients};
use sgt_input::{Fault, Reader, Writer};
use sgt_line_errors::{Command, Remembering};
use std::alloc::{AllocError, Global};
use std::env;
use std::fs::OpenFile;
use std::io::{self, Eprint, Input, IsTerminal, Print, Read, Stderr, Write};
use std::process::ExitCode;
use std::rt::Files;
use std::sync::Wait;
use std::thread::Threads;
use std::time::Clock;
use words::{GivenWords, WORDS, read_words};

/// What a person reads who types the input.
const TYPED: &str = "reading standard input; ^D ends";

/// The standard streams, beside those that a run reads and writes.
#[derive(Drop)]
struct Streams {
    stderr: Stderr,
    /// Whether standard input is a terminal.
    is_typed: bool,
}

/// What a script or a bank is run with.
#[derive(Drop)]
struct Invocation<'a, 'b> {
    alloc: Global,
    options: &'a ArgMatches<'b>,
    given: GivenWords<'a>,
}

/// Runs a script from the input to standard output, and returns the exit status.
fn script<R: Print + Eprint + Files + Clock, I: Read + Drop, F: Read + OpenFile + Drop>(
    rt: &R,
    streams: Streams,
    invocation: &Invocation<'_, '_>,
    input: InputBytes<I, F>,
) -> ExitCode {
    let options = invocation.options;
    let chosen = sgt_script::Options {
        most: most_bytes(options),
        output: script_output(options),
        shows_progress: shows_progress(&streams, options),
        size: input.size(),
    };
    let mut source = Reader::new(input);
    let mut writer = Writer::new(OutputBytes::new(io::writer(rt)));
    let mut errors = Writer::new(streams.stderr);
    let mut line = Some(Vec::new(invocation.alloc));
    let explanations = if options.get_flag("explain") {
        Some(&mut errors)
    } else {
        None
    };
    let ran = sgt_script::run(
        rt,
        invocation.alloc,
        &mut source,
        &mut writer,
        chosen,
        explanations,
        &invocation.given.words,
        &mut line,
    );
    ended(
        rt,
        invocation,
        &writer.inner,
        Command::Script,
        line.as_deref(),
        ran,
    )
}

/// Runs the jobs of a bank from the input to standard output, and returns the exit status.
fn bank<R: Print + Eprint + Files + Clock + Threads + Wait + Sync, I: Read + Drop>(
    rt: &R,
    streams: Streams,
    invocation: &Invocation<'_, '_>,
    input: I,
) -> ExitCode {
    let options = invocation.options;
    let chosen = read_bank_options(options, shows_progress(&streams, options));
    let mut source = Reader::new(input);
    let mut writer = Writer::new(OutputBytes::new(io::writer(rt)));
    let mut errors = Writer::new(streams.stderr);
    let mut line = Some(Vec::new(invocation.alloc));
    let ran = run_bank(
        rt,
        invocation.alloc,
        &mut source,
        &mut writer,
        &mut errors,
        chosen,
        &invocation.given.words,
        &mut line,
    );
    let command = Command::Bank {
        workers: chosen.workers,
    };
    ended(rt, invocation, &writer.inner, command, line.as_deref(), ran)
}

/// Reports on standard error how a run ended, and returns its exit status. A fault is about this line, if it is about
/// one. If all went well, the line is line 1, and words that it has no use for are reported.
fn ended<R: Eprint + Files, W: Write + Drop>(
    rt: &R,
    invocation: &Invocation<'_, '_>,
    output: &OutputBytes<W>,
    command: Command,
    line: Option<&[u8]>,
    ran: Result<(), Fault>,
) -> ExitCode {
    let Err(fault) = ran else {
        if let Some(unsaid) = invocation.given.unsaid(invocation.alloc, line) {
            report(rt, unsaid);
        }
        return ExitCode::SUCCESS;
    };
    let detail = match fault {
        Fault::Writing => output.detail(),
        Fault::Reading => unread_detail(rt, named_file(invocation.options)),
        Fault::TooLong => too_long(most_bytes(invocation.options)),
        _ => fault_detail(invocation.alloc, command, line, &fault),
    };
    failed(rt, fault, detail)
}

/// Whether a run says how far it is: if that is asked for, or else if standard error is a terminal and nobody types the
/// input.
fn shows_progress(streams: &Streams, options: &ArgMatches<'_>) -> bool {
    let is_typed = streams.is_typed && named_file(options).is_none();
    let is_watched = streams.stderr.is_terminal() && !is_typed;
    options.get_flag("progress") || is_watched && !options.get_flag("no-progress")
}

/// Checks a history from the input to standard output, and returns the exit status.
fn check<R: Print + Eprint + Files, I: Read + Drop>(
    rt: &R,
    alloc: Global,
    options: &ArgMatches<'_>,
    input: I,
) -> ExitCode {
    if options.get_flag("all") && !options.get_flag("timeline") {
        return misused(rt, "the option '--all' needs '--timeline'", CHECK_USAGE);
    }
    let strict = options.get_flag("strict");
    let level = options.get_str("level");
    if options.get_str("model") == Some("list-append") {
        return check_clients(rt, alloc, options, question_of(level, strict), input);
    }
    if strict || level.is_some() || options.get_flag("json") {
        let needed = "the options '--strict', '--level' and '--json' need '--model list-append'";
        return misused(rt, needed, CHECK_USAGE);
    }
    let mut source = Remembering::new(alloc, Reader::new(input));
    let mut writer = Writer::new(OutputBytes::new(io::writer(rt)));
    let output = check_output(options);
    let fault = match run_check(alloc, &mut source, &mut writer, output) {
        Ok(verdict) => return judged(rt, output, verdict),
        Err(fault) => fault,
    };
    let detail = match fault {
        CheckFault::Writing => writer.inner.detail(),
        CheckFault::Reading => unread_detail(rt, named_file(options)),
        _ => check_detail(alloc, &source, &fault),
    };
    failed(rt, fault, detail)
}

/// Checks what clients saw, from the input to standard output, and returns the exit status.
fn check_clients<R: Print + Eprint + Files, I: Read + Drop>(
    rt: &R,
    alloc: Global,
    options: &ArgMatches<'_>,
    question: Question,
    input: I,
) -> ExitCode {
    let mut source = Remembering::new(alloc, Reader::new(input));
    let mut writer = Writer::new(OutputBytes::new(io::writer(rt)));
    let output = clients_output(options);
    let mut notes = Notes::none();
    let fault = match run_clients(
        alloc,
        &mut source,
        &mut writer,
        output,
        question,
        &mut notes,
    ) {
        Ok(answer) => return answered(rt, output, notes, answer),
        Err(fault) => fault,
    };
    let detail = match fault {
        ClientsFault::Check(CheckFault::Writing) => writer.inner.detail(),
        ClientsFault::Check(CheckFault::Reading) => unread_detail(rt, named_file(options)),
        _ => clients_detail(alloc, &source, &fault),
    };
    failed(rt, fault, detail)
}

/// Runs the subcommand, and returns the exit status.
fn run<R: Print + Eprint + Input + Files + Clock + Threads + Wait + Sync>(
    rt: &R,
    alloc: Global,
    streams: Streams,
    matches: &ArgMatches<'_>,
) -> ExitCode {
    let Some((name, options)) = matches.subcommand() else {
        return ExitCode::SUCCESS;
    };
    if name == "version" {
        return print_version(rt);
    }
    let file = named_file(options);
    if file.is_none() && streams.is_typed {
        report(rt, TYPED);
    }
    let input = match open_input(rt, file) {
        Ok(input) => input,
        Err(fault) => return failed(rt, fault, Detail::Nothing),
    };
    if name == "check" {
        return check(rt, alloc, options, input);
    }
    let given = match read_words(rt, alloc, options.get_str(WORDS)) {
        Ok(given) => given,
        Err((fault, detail)) => return failed(rt, fault, detail),
    };
    let invocation = Invocation {
        alloc,
        options,
        given,
    };
    match name {
        "bank" => bank(rt, streams, &invocation, input),
        _ => script(rt, streams, &invocation, input),
    }
}

/// Writes the version to standard output.
fn print_version<R: Print + Eprint>(rt: &R) -> ExitCode {
    match println!(rt; "sgt {VERSION}") {
        Ok(()) => ExitCode::SUCCESS,
        Err(error) => unwritten(rt, error.kind()),
    }
}

/// Whether these arguments of a bank name threads, with a value or without one.
fn names_threads(words: &[String]) -> bool {
    let is_bank = words.iter().any(|word| word.as_str() == "bank");
    is_bank
        && words.iter().any(|word| {
            word.as_str() == "--threads" || word.as_bytes().starts_with(b"--threads=")
        })
}

/// Runs these arguments, and returns the exit status.
fn run_words<R: Print + Eprint + Input + Files + Clock + Threads + Wait + Sync>(
    rt: &R,
    alloc: Global,
    streams: Streams,
    words: &[String],
) -> ExitCode {
    if names_threads(words) {
        let what =
            "unexpected argument '--threads' found\n\n  tip: a similar argument exists: '--workers'";
        return misused(rt, what, "bank --workers <workers> [FILE]");
    }
    let Ok(command) = command(alloc) else {
        return report(rt, Fault::NoMemory);
    };
    match command.try_get_matches_from(words) {
        Ok(matches) => run(rt, alloc, streams, &matches),
        Err(error) => refuse(rt, alloc, &error),
    }
}

fn main(rt: HostRuntime) -> ExitCode {
    let alloc = rt.alloc();
    let words: Result<Vec<String>, AllocError> = match env::args(&rt) {
        Ok(words) => words.collect(alloc),
        Err(error) if error.kind() == io::ErrorKind::InvalidData => {
            let what = "invalid UTF-8 was detected in one or more arguments";
            return misused(&rt, what, "<COMMAND>");
        }
        Err(_) => return report(&rt, Fault::NoMemory),
    };
    let streams = Streams {
        stderr: rt.stderr(),
        is_typed: rt.stdin().is_terminal(),
    };
    match words {
        Ok(words) => run_words(&rt, alloc, streams, words.as_slice()),
        Err(_) => report(&rt, Fault::NoMemory),
    }
}
