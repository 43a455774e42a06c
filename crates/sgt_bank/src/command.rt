//! The command `sgt bank`: one run of an input's jobs, with its options.
ghost use Rattle.std.specs.Prelude.{◌≡◌, ◌≢◌, IfErr, OnOk, Err, ◌+◌, ◌^◌, ◌<◌, ◌≤◌};
ghost use Rattle.sgt_workers.specs.Banks.{AreWorkers, AreTries};
ghost use Rattle.sgt_bank.specs.Outputs.{WritesAll, WritesPart, IsFirstFault, CountsReads, CountsWrites};

use crate::gate::OpenGate;
use crate::output::Output;
use crate::run::write_run;
use crate::tries::tries_text;
use crate::watch::{Seen, Watch};
use sgt_explain::Words;
use sgt_input::{Fault, Sink, Source, write_all};
use sgt_workers::Report;
use std::alloc::Global;
use std::convert::Infallible;
use std::io::Eprint;
use std::sync::Wait;
use std::thread::Threads;
use std::time::Clock;

/// What is written if memory ran out for the explanations.
const LEFT_OUT: &[u8] = b"explanations are left out: no memory\n";

/// What is explained of a run, beside its output.
#[derive(Clone, Copy)]
pub enum Explanations {
    /// Nothing.
    Off,
    /// After the run, how the jobs ended that did not commit at their first try, and a summary.
    Tries,
}

/// The options of the command.
#[derive(Clone, Copy)]
pub struct Options {
    /// How many jobs run at the same time, from 1 to `MOST_WORKERS`.
    pub workers: u32,
    /// How often a job is tried before it is abandoned, from 1 to `MOST_TRIES`.
    pub tries: u32,
    /// How many bytes the input may have, at most `MOST_BYTES` of `sgt_input`.
    pub most: usize,
    /// What is written.
    pub output: Output,
    /// What is explained beside it.
    pub explanations: Explanations,
    /// Whether standard error says during the run how many jobs have ended, at most once a second.
    pub shows_progress: bool,
}

/// Runs the jobs of an input as `run_jobs` does, and writes the output that the options name.
///
/// With explanations, the second sink gets a line for each job that did not commit at its first try, by number, after
/// the output: how it ended, with what the words say of its code, and which jobs aborted the tries that failed. A
/// summary follows. Explanations do not affect the run. If memory runs out for them, one line says so. If a write of them fails, they end there. Neither
/// is a fault. `line` is as of `read_input`.
///
/// # Errors
///
/// As of `run_jobs`. Then there are no explanations.
pub fn run_bank<S: Source, T: Sink, E: Sink, W: Threads + Wait + Clock + Eprint + Sync>(
    rt: &W,
    alloc: Global,
    source: &mut S,
    sink: &mut T,
    errors: &mut E,
    options: Options,
    words: &Words,
    line: &mut Option<Vec<u8>>,
) -> Result<(), Fault>
    requires reading { S.failures source.old + 1 < 2 ^ 64 }
    requires writing { T.failures sink.old + 1 < 2 ^ 64 }
    requires explaining { E.failures errors.old + 1 < 2 ^ 64 }
    requires workers { AreWorkers options.workers }
    requires tries { AreTries options.tries }
    requires most { options.most ≤ 4294967296 }
    ensures output { OnOk result
        (WritesAll options.output options.workers options.tries options.most (S.rest source.old) (T.held sink.old) (T.held sink.new)) }
    ensures part { result ≡ Err Fault.Writing →
        WritesPart options.output options.workers options.tries options.most (S.rest source.old) (T.held sink.old) (T.held sink.new) }
    ensures nothing { IfErr result (λ f. f ≢ Fault.Writing → sink.new ≡ sink.old) }
    ensures fault { IfErr result (IsFirstFault options.workers options.most (S.rest source.old)) }
    ensures reads { CountsReads result options.most (S.given source.old) (S.given source.new) (S.failures source.old) (S.failures source.new) }
    ensures writes { CountsWrites result (T.failures sink.old) (T.failures sink.new) }
    ensures silent { options.explanations ≡ Explanations.Off → errors.new ≡ errors.old }
    ensures unexplained { IfErr result (λ _. errors.new ≡ errors.old) }
{
    if !is_watched(&options) {
        write_run(rt, alloc, source, sink, options, &OpenGate, line)?;
        return Ok(());
    }
    let watch = Watch::new(rt, alloc, options.shows_progress);
    let report = write_run(rt, alloc, source, sink, options, &watch, line)?;
    if let Explanations::Tries = options.explanations {
        explain_tries(alloc, errors, watch.into_seen(), &report, words);
    }
    Ok(())
}

/// Whether these options need to know how often jobs are tried, or how many have ended.
fn is_watched(options: &Options) -> bool {
    options.shows_progress
        || matches!(options.explanations, Explanations::Tries)
        || matches!(options.output, Output::Json)
}

/// Writes the lines of the tries.
fn explain_tries<E: Sink>(
    alloc: Global,
    errors: &mut E,
    seen: Seen,
    report: &Report<Infallible>,
    words: &Words,
)
    requires { E.failures errors.old + 1 < 2 ^ 64 }
{
    let _ = match tries_text(alloc, seen, report, words) {
        Ok(text) => write_all(errors, text.as_slice()),
        Err(_) => write_all(errors, LEFT_OUT),
    };
}
