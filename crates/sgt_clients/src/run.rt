//! The command `check --model list-append`, from the bytes of a source to those of a sink.
ghost use Rattle.std.specs.Prelude.{◌≡◌, ◌≢◌, ◌^◌, ◌+◌, ◌<◌, ◌≤◌, ℕ, List, [], IfOk, IfErr, IfSome, OnOk, Err, take};
ghost use Rattle.std.specs.Io.KnownBytes.{Appends};
ghost use Rattle.sgt_check.specs.declared.fault.CheckFault.TheVariants as check_fault;
ghost use Rattle.sgt_clients.specs.declared.fault.ClientsFault.{ClientsFault};
ghost use Rattle.sgt_clients.specs.declared.fault.ClientsFault.TheVariants as fault;
ghost use Rattle.sgt_clients.specs.Checks.{IsChecked, IsJudged, IsOutput, IsFaultOf};
ghost use Rattle.sgt_clients.specs.Levels.{AreFound};
ghost use Rattle.sgt_clients.specs.declared.level.Answer.{Answer};
ghost use Rattle.sgt_clients.specs.Faults.{IsOwn};

use crate::clients::{Clients, read_clients};
use crate::explained::explained;
use crate::fault::{ClientsFault, Flaw};
use crate::graph_text::append_graph;
use crate::json_text::append_json;
use crate::level::{Answer, Level, Question};
use crate::level_findings::{LevelFindings, check_levels};
use crate::notes::Notes;
use crate::picture::append_timeline;
use crate::report_text::append_report;
use sgt_check::{CheckFault, read_input};
use sgt_edn::{is_edn, json_of_edn};
use sgt_input::{Sink, Source, write_all};
use sgt_model::NoMemory;
use std::alloc::Global;

/// What a check writes.
#[derive(Clone, Copy)]
pub enum ClientsOutput {
    /// The report.
    Report,
    /// The report as one object of JSON.
    Json,
    /// The witness in DOT.
    Graph,
    /// The picture of the witness in SVG.
    Timeline,
}

/// Checks the client history in the source's bytes, writes the output, and returns the answer for the level of the
/// question. What the check takes for something else is noted. All input is read before the first line is written.
///
/// # Errors
///
/// - `Entry` with the first entry that is wrong, `NoOperations` or `OnlySkipped` if there is no transaction, `NoInvocations` if
///   real time is to be kept and no entry is an invocation, `Twice`, `Unasked` or `Early` if a value is appended twice to a key, `Check`
///   if the input has more than 268,435,456 bytes, a read failed or an allocation. Nothing is written then.
/// - `Check` if a write failed. A prefix of the output is written then.
pub fn run_clients<S: Source, T: Sink>(
    alloc: Global,
    source: &mut S,
    sink: &mut T,
    output: ClientsOutput,
    question: Question,
    notes: &mut Notes,
) -> Result<Answer, ClientsFault>
    requires reading { S.failures source.old + 1 < 2 ^ 64 }
    requires writing { T.failures sink.old + 1 < 2 ^ 64 }
    ensures checked { IfOk result (λ answer. IfSome (S.rest source.old) (λ input. (written : List ℕ)
        × Appends (T.held sink.old) (T.held sink.new) written × IsChecked question output input written answer)) }
    ensures fault { IfErr result (λ f. IfSome (S.rest source.old) (λ input. IsFaultOf input f)) }
    ensures nothing { (f : ClientsFault) → result ≡ Err f → f ≢ fault.Check check_fault.Writing → sink.new ≡ sink.old }
    ensures part { result ≡ Err (fault.Check check_fault.Writing) → IfSome (S.rest source.old) (λ input. (written : List ℕ) × (answer : Answer) × (k : ℕ)
        × IsChecked question output input written answer × Appends (T.held sink.old) (T.held sink.new) (take k written)) }
    ensures bounded { S.given source.new ≤ S.given source.old + 268500992 }
    ensures read_well { result ≢ Err (fault.Check check_fault.Reading) → S.failures source.new ≡ S.failures source.old }
    ensures read_failed { result ≡ Err (fault.Check check_fault.Reading) → S.failures source.new ≡ S.failures source.old + 1 }
    ensures wrote_well { result ≢ Err (fault.Check check_fault.Writing) → T.failures sink.new ≡ T.failures sink.old }
    ensures write_failed { result ≡ Err (fault.Check check_fault.Writing) → T.failures sink.new ≡ T.failures sink.old + 1 }
{
    let input = read_input(alloc, source)?;
    let checked = check_explained(alloc, input.as_slice(), output, question, notes)?;
    let Ok(()) = write_all(sink, checked.text.as_slice()) else {
        return Err(ClientsFault::Check(CheckFault::Writing));
    };
    Ok(checked.answer)
}

/// The text of an output, and the answer for the level of the question.
#[derive(Drop)]
struct Checked {
    text: Vec<u8>,
    answer: Answer,
}

/// Checks the client history in the text, in JSON or in EDN, for this output. An error has its place in this text.
fn check_explained(
    alloc: Global,
    text: &[u8],
    output: ClientsOutput,
    question: Question,
    notes: &mut Notes,
) -> Result<Checked, ClientsFault>
    ensures checked { IfOk result (λ c. IsChecked question output text.now c.text.items c.answer) }
    ensures own { IfErr result IsOwn }
{
    match check_text(alloc, text, output, question, notes) {
        Ok(checked) => Ok(checked),
        Err(fault) => Err(explained(alloc, text, fault)),
    }
}

/// Checks the client history in the text, in JSON or in EDN, for this output.
fn check_text(
    alloc: Global,
    text: &[u8],
    output: ClientsOutput,
    question: Question,
    notes: &mut Notes,
) -> Result<Checked, ClientsFault>
    ensures checked { IfOk result (λ c. IsChecked question output text.now c.text.items c.answer) }
    ensures own { IfErr result IsOwn }
{
    if !is_edn(text) {
        return check_json(alloc, text, output, question, notes);
    }
    let json = json_of_edn(alloc, text)?;
    check_json(alloc, json.as_slice(), output, question, notes)
}

/// Checks the client history in the text, in JSON, for this output.
fn check_json(
    alloc: Global,
    text: &[u8],
    output: ClientsOutput,
    question: Question,
    notes: &mut Notes,
) -> Result<Checked, ClientsFault>
    ensures checked { IfOk result (λ c. IsJudged question output text.now c.text.items c.answer) }
    ensures own { IfErr result IsOwn }
{
    let clients = read_clients(alloc, text)?;
    let strict = question.keeps_time();
    if clients.transactions.is_empty() {
        return Err(nothing_to_judge(clients.skipped));
    }
    if strict && !clients.invoked {
        return Err(ClientsFault::NoInvocations);
    }
    if let Some(fault) = unasked(&clients, strict) {
        return Err(fault);
    }
    let found = find(alloc, &clients, strict)?;
    *notes = Notes::of(&clients);
    Ok(Checked {
        text: text_of(alloc, &clients, &found, output, strict, question.level)?,
        answer: found.answer(question.level),
    })
}

/// The error of the first transaction without an invocation, if real time is to be kept.
fn unasked(clients: &Clients, strict: bool) -> Option<ClientsFault>
    ensures { IfSome result IsOwn }
{
    if !strict {
        return None;
    }
    let alone = clients.alone.first()?;
    let span = clients.spans.get(alone.transaction)?;
    Some(ClientsFault::Entry(alone.line, span.began, Flaw::NoInvocation))
}

/// The error of an input without a transaction, whose entries were all skipped.
fn nothing_to_judge(skipped: usize) -> ClientsFault
    ensures { IsOwn result }
{
    if skipped == 0 {
        ClientsFault::NoOperations
    } else {
        ClientsFault::OnlySkipped(skipped)
    }
}

/// Checks which levels what clients saw is of.
fn find(alloc: Global, clients: &Clients, strict: bool) -> Result<LevelFindings, ClientsFault>
    ensures found { IfOk result (AreFound strict clients.now) }
    ensures own { IfErr result IsOwn }
{
    match check_levels(alloc, clients, strict) {
        Ok(found) => Ok(found),
        Err(error) => Err(own(error)),
    }
}

/// The error of a check. It neither reads nor writes, so of the errors of a run only a failed allocation can be its own.
fn own(error: ClientsFault) -> ClientsFault
    ensures { IsOwn result }
{
    match error {
        ClientsFault::Check(_) => ClientsFault::Check(CheckFault::NoMemory),
        other => other,
    }
}

/// The text of the output.
fn text_of(
    alloc: Global,
    clients: &Clients,
    found: &LevelFindings,
    output: ClientsOutput,
    strict: bool,
    level: Level,
) -> Result<Vec<u8>, NoMemory>
    ensures { IfOk result (λ text. IsOutput output strict clients.now found.now text.items) }
{
    let mut text = Vec::new(alloc);
    append_output(alloc, &mut text, clients, found, output, strict, level)?;
    Ok(text)
}

/// The same, appended to an empty text.
fn append_output(
    alloc: Global,
    text: &mut Vec<u8>,
    clients: &Clients,
    found: &LevelFindings,
    output: ClientsOutput,
    strict: bool,
    level: Level,
) -> Result<(), NoMemory>
    requires { text.old.items ≡ [] }
    ensures { OnOk result (IsOutput output strict clients.now found.now text.new.items) }
{
    match output {
        ClientsOutput::Report => append_report(text, clients, found, strict),
        ClientsOutput::Json => append_json(text, clients, found, strict),
        ClientsOutput::Graph => append_graph(text, clients, &found.finding),
        ClientsOutput::Timeline => {
            let mut report = Vec::new(alloc);
            append_report(&mut report, clients, found, strict)?;
            append_timeline(alloc, text, clients, found, level, report.as_slice())
        }
    }
}
