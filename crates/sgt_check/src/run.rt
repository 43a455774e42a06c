//! The command `check`, from the bytes of a source to those of a sink.
ghost use Rattle.std.specs.Prelude.{◌≡◌, ◌≢◌, ◌^◌, ◌+◌, ◌<◌, ◌≤◌, ℕ, List, length, IfOk, IfErr, IfSome, Err, take};
ghost use Rattle.std.specs.Io.KnownBytes.{Appends};
ghost use Rattle.sgt_check.specs.declared.checked.Verdict.{Verdict};
ghost use Rattle.sgt_check.specs.Checks.{IsChecked, IsFaultOf};

use crate::checked::{CheckedHistory, Output, Verdict, check_for};
use crate::fault::CheckFault;
use crate::input::read_input;
use sgt_input::{Sink, Source, write_all};
use sgt_notation::read_history;
use std::alloc::Global;

/// Checks the history in the source's bytes, writes the output, and returns the verdict: whether the history is
/// serializable and recoverable, and how many transactions it has. All input is read before the first line is written.
///
/// At most 268,500,992 bytes are read, even from an endless source: 65,536 more than an input may have.
///
/// # Errors
///
/// - `TooLong` if the input has more than 268,435,456 bytes, `Notation` with the first error of its text,
///   `NoOperations` if it has none, `Reading` if a read failed, and `NoMemory`. Nothing is written then.
/// - `Writing` if a write failed. A prefix of the output is written then.
pub fn run_check<S: Source, T: Sink>(
    alloc: Global,
    source: &mut S,
    sink: &mut T,
    output: Output,
) -> Result<Verdict, CheckFault>
    requires reading { S.failures source.old + 1 < 2 ^ 64 }
    requires writing { T.failures sink.old + 1 < 2 ^ 64 }
    ensures checked { IfOk result (λ verdict. IfSome (S.rest source.old) (λ input. (written : List ℕ)
        × Appends (T.held sink.old) (T.held sink.new) written × IsChecked output input written verdict)) }
    ensures fault { IfErr result (λ f. IfSome (S.rest source.old) (λ input. IsFaultOf input f)) }
    ensures nothing { (f : CheckFault) → result ≡ Err f → f ≢ CheckFault.Writing → sink.new ≡ sink.old }
    ensures part { result ≡ Err CheckFault.Writing → IfSome (S.rest source.old) (λ input. (written : List ℕ) × (verdict : Verdict) × (k : ℕ)
        × IsChecked output input written verdict × Appends (T.held sink.old) (T.held sink.new) (take k written)) }
    ensures bounded { S.given source.new ≤ S.given source.old + 268500992 }
    ensures read_well { result ≢ Err CheckFault.Reading → S.failures source.new ≡ S.failures source.old }
    ensures read_failed { result ≡ Err CheckFault.Reading → S.failures source.new ≡ S.failures source.old + 1 }
    ensures wrote_well { result ≢ Err CheckFault.Writing → T.failures sink.new ≡ T.failures sink.old }
    ensures write_failed { result ≡ Err CheckFault.Writing → T.failures sink.new ≡ T.failures sink.old + 1 }
{
    let text = read_input(alloc, source)?;
    let checked = check_text(alloc, text.as_slice(), output)?;
    let Ok(()) = write_all(sink, checked.lines.as_slice()) else {
        return Err(CheckFault::Writing);
    };
    Ok(checked.verdict)
}

/// Checks the history in the text, for this output.
fn check_text(alloc: Global, text: &[u8], output: Output) -> Result<CheckedHistory, CheckFault>
    requires { length text.now < 2 ^ 32 }
    ensures checked { IfOk result (λ c. IsChecked output text.now c.lines.items c.verdict) }
    ensures fault { IfErr result (IsFaultOf text.now) }
    ensures no_reading { result ≢ Err CheckFault.Reading }
    ensures no_writing { result ≢ Err CheckFault.Writing }
{
    let history = read_history(alloc, text)?;
    if history.operations.is_empty() {
        return Err(CheckFault::NoOperations);
    }
    Ok(check_for(alloc, &history, output)?)
}
