//! The public runs of a script.
ghost use Rattle.std.specs.Prelude.{◌≡◌, IfSome, Err, ◌+◌, ◌^◌, ◌<◌, ◌≤◌};
ghost use Rattle.sgt_input.specs.Ends.{IsExact};
ghost use Rattle.sgt_script.specs.declared.output.Output.TheVariants.{Replies};
ghost use Rattle.sgt_script.specs.Beginnings.{IsStop};
ghost use Rattle.sgt_script.specs.Outcomes.{CountsReads, CountsWrites, IsCutOff, IsStopped, IsWhole};

use crate::explainer::Explainer;
use crate::observer::Unobserved;
use crate::options::Options;
use crate::output::Output;
use crate::progress::Progress;
use crate::script::run_observed;
use crate::watch::Watch;
use sgt_explain::Words;
use sgt_input::{DEFAULT_BYTES, Fault, Sink, Source};
use std::alloc::Global;
use std::io::Eprint;
use std::time::Clock;

/// Runs a script on the program's engine. Writes the replies, and then the committed database.
///
/// Line 1 is the opening: limits, accounts and procedures. Record lines after it add records to the initial database.
/// Each later line is an event or a cut, and is answered. A cut ends a part of the run and drops its history.
///
/// The headline holds for each part. One serial run of all parts, in commit order, gives the answers in the
/// `committed` lines and leaves the database that is written. In it each of SmallBank's procedures does what the
/// bank's arithmetic says.
///
/// A run reads at most 16,777,217 bytes, even from an endless reader: one more than an input may have.
///
/// # Errors
///
/// - The first fault of the script: the replies to the lines before it are written.
/// - `Reading` if a read failed: the replies to the whole lines that were read are written.
/// - `NoMemory` if an allocation failed: the replies to some first lines are written.
/// - `Writing` if a write failed: a prefix of what a whole run writes is written.
///
/// The first three write no database.
pub fn run_script<S: Source, T: Sink>(
    alloc: Global,
    source: &mut S,
    sink: &mut T,
) -> Result<(), Fault>
    requires reading { S.failures source.old + 1 < 2 ^ 64 }
    requires writing { T.failures sink.old + 1 < 2 ^ 64 }
    ensures script { IsExact result → IsWhole Replies 16777216 (S.rest source.old) (T.held sink.old) (T.held sink.new) result }
    ensures stops { IsStop result →
        IsStopped Replies 16777216 (S.rest source.old) (S.rest source.new) (T.held sink.old) (T.held sink.new) result }
    ensures part { result ≡ Err Fault.Writing → IsCutOff Replies 16777216 (S.rest source.old) (T.held sink.old) (T.held sink.new) }
    ensures bounded { S.given source.new ≤ S.given source.old + 16777217 }
    ensures reads { CountsReads result (S.failures source.old) (S.failures source.new) }
    ensures writes { CountsWrites result (T.failures sink.old) (T.failures sink.new) }
{
    run_observed(
        alloc,
        source,
        sink,
        Output::Replies,
        DEFAULT_BYTES,
        &mut Unobserved,
        &mut None,
    )
}

/// Runs a script as [`run_script`] does, of as many bytes as the options say, and writes what their output mode says.
/// It reads one byte more at most.
///
/// - `Replies`: what [`run_script`] writes.
/// - `History`: the run as a history in the notation of Bernstein, Hadzilacos and Goodman (1987), chapter 2. Each
///   read, write, commit and abort is a line, as `r1[2/101]`. A transaction's abort comes before the cascading aborts
///   that it causes. A cut is a comment `# cut N`, and transaction numbers start again after it.
/// - `Records`: the committed database, a line `["record",table,number,value]` for each record, by table and then by
///   number. At a fault nothing is written, except the part before a failed write.
/// - `Json`: the reply to each line as an object of JSON, and then what `Records` writes.
///
/// With a sink for explanations, it writes there why transactions abort or wait and events are refused:
///
/// - An abort by a cycle gets a line for each edge of the cycle, with its accesses.
/// - An abort with a code gets a line that says which procedure raised it, and what the words say of the code. If the
///   code came at the step, a line for each live transaction says which value of it the aborted one had read first.
/// - A commit that waits gets a line for each live transaction before its own, with the accesses of that edge.
/// - Each cascading abort gets a line that says which transaction it had read from, and what.
/// - A refused event gets a line that says why.
/// - A line at the end names the live transactions.
///
/// The explanations of a line follow its answer, and name lines by their numbers.
///
/// Explanations and progress lines do not affect the run. After a failed write no more are written. If memory runs
/// out, some are left out, and a line at the end says so. Neither is a fault. An explanation costs passes over what its
/// transactions did, not over the whole history.
///
/// `line` gets a copy of the line of the fault, if the fault has one, and of line 1 otherwise: for a second look that
/// explains the fault. It gets none if memory runs out.
///
/// # Errors
///
/// As [`run_script`], with the text of the output mode in place of the replies. The explanations of all answered
/// lines are written too.
pub fn run<S: Source, T: Sink, E: Sink, W: Clock + Eprint>(
    rt: &W,
    alloc: Global,
    source: &mut S,
    sink: &mut T,
    options: Options,
    explanations: Option<&mut E>,
    words: &Words,
    line: &mut Option<Vec<u8>>,
) -> Result<(), Fault>
    requires reading { S.failures source.old + 1 < 2 ^ 64 }
    requires writing { T.failures sink.old + 1 < 2 ^ 64 }
    requires most { options.most ≤ 4294967296 }
    requires explaining { IfSome explanations (λ errors. E.failures errors.now + 1 < 2 ^ 64) }
    ensures script { IsExact result → IsWhole options.output options.most (S.rest source.old) (T.held sink.old) (T.held sink.new) result }
    ensures stops { IsStop result →
        IsStopped options.output options.most (S.rest source.old) (S.rest source.new) (T.held sink.old) (T.held sink.new) result }
    ensures part { result ≡ Err Fault.Writing → IsCutOff options.output options.most (S.rest source.old) (T.held sink.old) (T.held sink.new) }
    ensures bounded { S.given source.new ≤ S.given source.old + (options.most + 1) }
    ensures reads { CountsReads result (S.failures source.old) (S.failures source.new) }
    ensures writes { CountsWrites result (T.failures sink.old) (T.failures sink.new) }
{
    let Options { most, output, .. } = options;
    let progress = Progress::of(rt, options);
    let Some(errors) = explanations else {
        let mut watch = Watch::<W, E>::new(None, progress);
        return run_observed(alloc, source, sink, output, most, &mut watch, line);
    };
    let explainer = Explainer::new(alloc, errors, words);
    let mut watch = Watch::new(Some(explainer), progress);
    let ran = run_observed(alloc, source, sink, output, most, &mut watch, line);
    watch.finish();
    ran
}
