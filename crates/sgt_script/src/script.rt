//! Runs a script from its first line to its last. Each line is answered; the output mode says what is written.
ghost use Rattle.std.specs.Prelude.{◌≡◌, ◌≢◌, ℕ, List, Option, false, IsTrue, IsFalse, IfOk, IfErr, OnOk, OnErr, IfSome, IsSome, IsNone, Err, Ok, Some, None, ◌⊎◌, [], ◌∷◌, ◌++◌, ◌+◌, ◌^◌, ◌<◌, ◌≤◌, length};
ghost use Rattle.std.specs.Io.KnownBytes.{Appends, Consumes};
ghost use Rattle.sgt_model.specs.declared.entry.Entry.{Entry};
ghost use Rattle.sgt_model.specs.Legality.{Legal};
ghost use Rattle.sgt_model.specs.ShortReplies.{short_reply};
ghost use Rattle.sgt_engine.specs.EngineView.{configuration_of};
ghost use Rattle.sgt_format.specs.ScriptLines.{line_of, script_line_of};
ghost use Rattle.sgt_input.specs.Lines.{has_break};
ghost use Rattle.sgt_input.specs.Intake.{IsGiven, NoLineCame, bytes_left, come, cut_left, has_whole_line, taken};
ghost use Rattle.sgt_input.specs.Ends.{IsOfInput, IsExact};
ghost use Rattle.sgt_script.specs.Parts.{Answer, Replied, StillLive, WasCut, answer_text, answers_text, left_by, part_at, part_of};
ghost use Rattle.sgt_script.specs.Scripts.{Execution, Last, RunOutput, script_line_at};
ghost use Rattle.sgt_script.specs.Answering.{AnswersAll, AnswersLine, AnswersRead, AnswersSome, BeginWith, NoLine};
ghost use Rattle.sgt_script.specs.Opened.{HasOpened, IsRefused, ReadsNoLine};
ghost use Rattle.sgt_script.specs.Beginnings.{AppendsPart, Begins, IsStop, LineRuns, WritesAt};
ghost use Rattle.sgt_script.specs.Outcomes.{CountsReads, CountsWrites, IsCutOff, IsStopped, IsWhole};

use crate::json_answer::{append_cut_json, append_reply_json, append_still_live_json};
use crate::last_line::copy_of_last;
use crate::laws::outputs_obey_laws;
use crate::observer::Observer;
use crate::output::Output;
use json::Scratch;
use sgt_assembly::{SgtEngine, open_engine};
use sgt_engine::CutError;
use sgt_format::{
    LineKind, Opening, ScriptLine, append_cut, append_database, append_records, append_short_reply,
    append_still_live, read_event_ahead, read_script_line,
};
use sgt_input::{Fault, Lines, Sink, Source, at_line, opening_of, read_records, write_all};
use sgt_model::{Entry, Event, NoMemory, ShortReply, Tid, histories_go_on, some_reply_is_legal};
use sgt_notation::{append_cut_comment, append_operations};
use std::alloc::Global;

/// For how many bytes of answers memory is allocated at once: more than the lines of one read mostly get.
const GATHERED: usize = 262_144;

/// Moves to the next line if it has been read and is a step or a commit in plain form, and puts that into `event`. Returns
/// whether it moved. Most lines are such.
#[inline(always)]
fn takes_event_ahead(lines: &mut Lines, event: &mut Event) -> bool
    ensures given { IsTrue result → IsGiven lines.old lines.new }
    ensures event { IsTrue result → script_line_of lines.new.line ≡ Ok (ScriptLine.Event event.new) }
    ensures nearer { IsTrue result → lines.new.within < lines.old.within }
    ensures come { IsTrue result → come lines.new ≡ come lines.old }
    ensures few { IsTrue result → come lines.new ≤ 4294967297 }
    ensures kept { IsFalse result → lines.new ≡ lines.old }
{
    let Some(window) = lines.window() else {
        return false;
    };
    let Some(len) = read_event_ahead(window, event) else {
        return false;
    };
    lines.pass(len);
    true
}

/// What the next line requests, if there is one. An event is put into `event`.
#[inline(always)]
fn next_script_line<S: Source>(
    alloc: Global,
    scratch: &mut Scratch,
    lines: &mut Lines,
    source: &mut S,
    event: &mut Event,
) -> Result<Option<LineKind>, Fault>
    requires { S.failures source.old + 1 < 2 ^ 64 }
    ensures line { IfOk result (λ next. IfSome next (λ kind.
        BeginWith (lines.old.number + 1) (cut_left lines.old (S.rest source.old)) (line_of kind event.new ∷ [])
        (lines.new.number + 1) (cut_left lines.new (S.rest source.new)))) }
    ensures at { IfOk result (λ next. IfSome next (λ kind.
        script_line_at lines.new.number lines.new.line ≡ Ok (line_of kind event.new))) }
    ensures taken { IfOk result (λ next. IsSome next → Consumes
        (bytes_left lines.old (S.rest source.old)) (bytes_left lines.new (S.rest source.new))
        (taken lines.new)) }
    ensures unbroken { IfOk result (λ next. IsSome next → has_break lines.new.line ≡ false) }
    ensures number { IfOk result (λ next. IsSome next → lines.new.number ≡ lines.old.number + 1) }
    ensures ended { lines.new.ended ≡ false → lines.old.ended ≡ false }
    ensures unread { result ≡ Err Fault.Reading →
        NoLineCame lines.old (S.rest source.old) lines.new (S.rest source.new) }
    ensures end { IfOk result (λ next. IsNone next →
        NoLine (lines.old.number + 1) (cut_left lines.old (S.rest source.old)) (Ok tt)) }
    ensures fault { IfErr result (λ f. IsOfInput f →
        NoLine (lines.old.number + 1) (cut_left lines.old (S.rest source.old)) (Err f)) }
    ensures nearer { IfOk result (λ next. IsSome next → lines.new.within < lines.old.within) }
    ensures come { S.given source.new + come lines.old ≤ S.given source.old + come lines.new }
    ensures few { come lines.new ≤ 4294967297 }
    ensures writing { result ≢ Err Fault.Writing }
    ensures well { result ≢ Err Fault.Reading →
        S.failures source.new ≡ S.failures source.old }
    ensures failed { result ≡ Err Fault.Reading →
        S.failures source.new ≡ S.failures source.old + 1 }
{
    if takes_event_ahead(lines, event) {
        return Ok(Some(LineKind::Event));
    }
    if !lines.next_line(source)? {
        return Ok(None);
    }
    let kind = at_line(
        lines.number(),
        read_script_line(alloc, scratch, lines.line(), event),
    )?;
    Ok(Some(kind))
}

/// Answers an event, and appends the text of the answer. Most are steps.
#[inline(always)]
fn answer_event(
    engine: &mut SgtEngine,
    event: &Event,
    reply: &mut ShortReply,
    output: Output,
    text: &mut Vec<u8>,
) -> Result<(), NoMemory>
    ensures configuration { configuration_of engine.new ≡ configuration_of engine.old }
    ensures answered { OnOk result ((entry : Entry) × (engine.new.past ≡ entry ∷ engine.old.past)
        × (entry.event ≡ event.now)
        × (text.new.items ≡ text.old.items ++ answer_text output (Replied entry))) }
    ensures legal { Legal (configuration_of engine.new) engine.new.past }
    ensures kept { OnErr result (text.new.items ≡ text.old.items) }
{
    match event {
        Event::Step(t) => match engine.answer_step(*t) {
            Ok(reply) => append_answer(engine, &reply, output, text),
            Err(NoMemory) => Err(NoMemory),
        },
        _ => match engine.answer(event, reply) {
            Ok(()) => append_answer(engine, reply, output, text),
            Err(NoMemory) => Err(NoMemory),
        },
    }
}

/// Appends what an output mode says of the newest entry, which has this reply.
#[inline(always)]
fn append_answer(
    engine: &SgtEngine,
    reply: &ShortReply,
    output: Output,
    text: &mut Vec<u8>,
) -> Result<(), NoMemory>
    requires { 0 < length engine.now.past }
    ensures answered { OnOk result ((entry : Entry) → (past : List Entry) → (engine.now.past ≡ entry ∷ past)
        → (short_reply entry.reply ≡ reply.now)
        → text.new.items ≡ text.old.items ++ answer_text output (Replied entry)) }
    ensures kept { OnErr result (text.new.items ≡ text.old.items) }
{
    match output {
        Output::Replies => append_short_reply(text, reply, engine.reply_lists()),
        _ => append_other(engine, output, text),
    }
}

/// Appends what an output mode says of the newest entry, if that is not the line of its reply.
#[inline(never)]
fn append_other(engine: &SgtEngine, output: Output, text: &mut Vec<u8>) -> Result<(), NoMemory>
    requires entry { 0 < length engine.now.past }
    requires other { output ≢ Output.Replies }
    ensures answered { OnOk result ((entry : Entry) → (past : List Entry) → (engine.now.past ≡ entry ∷ past)
        → text.new.items ≡ text.old.items ++ answer_text output (Replied entry)) }
    ensures kept { OnErr result (text.new.items ≡ text.old.items) }
{
    match output {
        Output::Replies => unreachable!(),
        Output::History => append_newest(engine, text),
        Output::Records => Ok(()),
        Output::Json => append_newest_json(engine, text),
    }
}

/// Appends the operations of the newest entry. The entry is built in full, so this is a function of its own: replies
/// then need no space for one.
#[inline(never)]
fn append_newest(engine: &SgtEngine, text: &mut Vec<u8>) -> Result<(), NoMemory>
    requires { 0 < length engine.now.past }
    ensures operations { OnOk result ((entry : Entry) → (past : List Entry) → (engine.now.past ≡ entry ∷ past)
        → text.new.items ≡ text.old.items ++ answer_text Output.History (Replied entry)) }
    ensures kept { OnErr result (text.new.items ≡ text.old.items) }
{
    match engine.history().last() {
        Some(Entry { event, reply }) => append_operations(text, &event, &reply),
        None => unreachable!(),
    }
}

/// Appends the reply of the newest entry as an object of JSON. It is a function of its own for the same reason.
#[inline(never)]
fn append_newest_json(engine: &SgtEngine, text: &mut Vec<u8>) -> Result<(), NoMemory>
    requires { 0 < length engine.now.past }
    ensures reply { OnOk result ((entry : Entry) → (past : List Entry) → (engine.now.past ≡ entry ∷ past)
        → text.new.items ≡ text.old.items ++ answer_text Output.Json (Replied entry)) }
    ensures kept { OnErr result (text.new.items ≡ text.old.items) }
{
    match engine.history().last() {
        Some(Entry { event, reply }) => append_reply_json(text, &event, &reply),
        None => unreachable!(),
    }
}

/// Cuts off the history if no transaction is live, and appends the answer. The entries that were cut off are dropped.
#[inline(never)]
fn answer_cut(
    alloc: Global,
    engine: &mut SgtEngine,
    output: Output,
    text: &mut Vec<u8>,
) -> Result<(), NoMemory>
    ensures answered { OnOk result (AnswersLine output ScriptLine.Cut
        (part_at engine.old) (part_at engine.new) text.old.items text.new.items) }
    ensures kept { OnErr result (text.new.items ≡ text.old.items) }
{
    match engine.cut(alloc) {
        Ok(past) => {
            let entries = past.history.len();
            engine.recycle(past);
            append_was_cut(entries, output, text)
        }
        Err(CutError::StillLive) => {
            append_was_not_cut(output, text)?;
            Ok(())
        }
        Err(CutError::NoMemory) => Err(NoMemory),
    }
}

/// Appends the number of entries that were cut off.
fn append_was_cut(entries: usize, output: Output, text: &mut Vec<u8>) -> Result<(), NoMemory>
    ensures text { OnOk result
        (text.new.items ≡ text.old.items ++ answer_text output (WasCut entries)) }
    ensures kept { OnErr result (text.new.items ≡ text.old.items) }
{
    match output {
        Output::Replies => append_cut(text, entries),
        Output::History => append_cut_comment(text, entries),
        Output::Records => Ok(()),
        Output::Json => append_cut_json(text, entries),
    }
}

/// Appends that nothing was cut off, because a transaction is live. The output modes `History` and `Records` have no
/// text for that.
fn append_was_not_cut(output: Output, text: &mut Vec<u8>) -> Result<(), NoMemory>
    ensures text { OnOk result (text.new.items ≡ text.old.items ++ answer_text output StillLive) }
    ensures kept { OnErr result (text.new.items ≡ text.old.items) }
{
    match output {
        Output::Replies => append_still_live(text),
        Output::History | Output::Records => Ok(()),
        Output::Json => append_still_live_json(text),
    }
}

/// Appends to an empty text what is written after the answers of a run that ends well.
fn append_last(
    alloc: Global,
    engine: &SgtEngine,
    output: Output,
    text: &mut Vec<u8>,
) -> Result<(), NoMemory>
    requires { text.old.items ≡ [] }
    ensures { OnOk result (Last output (left_by (part_at engine.now)) text.new.items) }
{
    match output {
        Output::Replies => append_database(text, engine.database(alloc)?.rows()),
        Output::History => Ok(()),
        Output::Records | Output::Json => append_records(text, engine.database(alloc)?.rows()),
    }
}

/// Writes the gathered text.
fn flush<T: Sink>(sink: &mut T, gathered: &mut Vec<u8>) -> Result<(), Fault>
    requires { T.failures sink.old + 1 < 2 ^ 64 }
    ensures bytes { OnOk result (Appends (T.held sink.old) (T.held sink.new) gathered.old.items) }
    ensures part { OnErr result (AppendsPart (T.held sink.old) (T.held sink.new) gathered.old.items) }
    ensures empty { OnOk result (gathered.new.items ≡ []) }
    ensures err { IfErr result (λ f. f ≡ Fault.Writing) }
    ensures well { OnOk result (T.failures sink.new ≡ T.failures sink.old) }
    ensures failed { OnErr result (T.failures sink.new ≡ T.failures sink.old + 1) }
{
    if write_all(sink, gathered.as_slice()).is_err() {
        return Err(Fault::Writing);
    }
    gathered.clear();
    Ok(())
}

/// Writes the gathered text if the next line has not arrived, and calls the observer.
fn flush_before_read<T: Sink, X: Observer>(
    lines: &Lines,
    sink: &mut T,
    gathered: &mut Vec<u8>,
    observer: &mut X,
) -> Result<(), Fault>
    requires { T.failures sink.old + 1 < 2 ^ 64 }
    ensures bytes { OnOk result ((bytes : List ℕ)
        × Appends (T.held sink.old) (T.held sink.new) bytes
        × (gathered.old.items ≡ bytes ++ gathered.new.items)) }
    ensures part { OnErr result (AppendsPart (T.held sink.old) (T.held sink.new) gathered.old.items) }
    ensures before_read { OnOk result (has_whole_line lines.now ≡ false → gathered.new.items ≡ []) }
    ensures err { IfErr result (λ f. f ≡ Fault.Writing) }
    ensures well { OnOk result (T.failures sink.new ≡ T.failures sink.old) }
    ensures failed { OnErr result (T.failures sink.new ≡ T.failures sink.old + 1) }
{
    if lines.has_line() {
        return Ok(());
    }
    flush(sink, gathered)?;
    observer.written(lines);
    Ok(())
}

/// Writes the gathered text when a run stops at a fault. Returns the fault, or `Writing` if the write failed.
fn stop<T: Sink>(sink: &mut T, gathered: &mut Vec<u8>, fault: Fault) -> Fault
    requires writing { T.failures sink.old + 1 < 2 ^ 64 }
    requires other { fault ≢ Fault.Writing }
    ensures written { WritesAt fault result (T.held sink.old) (T.held sink.new) gathered.old.items }
    ensures well { result ≢ Fault.Writing → T.failures sink.new ≡ T.failures sink.old }
    ensures failed { result ≡ Fault.Writing → T.failures sink.new ≡ T.failures sink.old + 1 }
{
    match flush(sink, gathered) {
        Ok(()) => fault,
        Err(unwritten) => unwritten,
    }
}

/// Answers the line returned last, and appends the text of the answer.
#[inline(always)]
fn answer_line<X: Observer>(
    alloc: Global,
    engine: &mut SgtEngine,
    kind: LineKind,
    event: &Event,
    reply: &mut ShortReply,
    lines: &Lines,
    output: Output,
    text: &mut Vec<u8>,
    observer: &mut X,
) -> Result<(), NoMemory>
    ensures answered { OnOk result (AnswersLine output (line_of kind event.now)
        (part_at engine.old) (part_at engine.new) text.old.items text.new.items) }
    ensures kept { OnErr result (text.new.items ≡ text.old.items) }
{
    match kind {
        LineKind::Event => {
            observer.before(engine, event);
            answer_event(engine, event, reply, output, text)?;
            observer.answered(engine, lines);
            Ok(())
        }
        LineKind::Cut => answer_cut(alloc, engine, output, text),
    }
}

/// Answers the remaining lines. The answers are gathered, and written before each read and at the end.
fn answer_lines<S: Source, T: Sink, X: Observer>(
    alloc: Global,
    lines: &mut Lines,
    source: &mut S,
    sink: &mut T,
    engine: &mut SgtEngine,
    output: Output,
    observer: &mut X,
) -> Result<(), Fault>
    requires reading { S.failures source.old + 1 < 2 ^ 64 }
    requires writing { T.failures sink.old + 1 < 2 ^ 64 }
    requires fresh { engine.old.past ≡ [] }
    requires few { come lines.old ≤ 4294967297 }
    ensures bounded { S.given source.new + come lines.old ≤ S.given source.old + 4294967297 }
    ensures all { OnOk result (
        (all : AnswersAll output (configuration_of engine.old) (lines.old.number + 1)
        (cut_left lines.old (S.rest source.old)) (T.held sink.old) (T.held sink.new) (Ok tt))
        × (part_of (configuration_of engine.old) all.answers ≡ part_at engine.new)) }
    ensures fault { IfErr result (λ f. IsOfInput f →
        AnswersAll output (configuration_of engine.old) (lines.old.number + 1)
        (cut_left lines.old (S.rest source.old)) (T.held sink.old) (T.held sink.new) (Err f)) }
    ensures some { AnswersSome output (configuration_of engine.old) (lines.old.number + 1)
        (cut_left lines.old (S.rest source.old))
        (bytes_left lines.old (S.rest source.old)) (S.rest source.new)
        (T.held sink.old) (T.held sink.new)
        (result ≢ Err Fault.Writing) (result ≡ Err Fault.Reading) }
    ensures going { result ≡ Err Fault.Reading → lines.old.ended ≡ false }
    ensures read_well { OnOk result (S.failures source.new ≡ S.failures source.old) }
    ensures read_of_input { IfErr result (λ f. IsOfInput f →
        S.failures source.new ≡ S.failures source.old) }
    ensures read_failed { result ≡ Err Fault.Reading →
        S.failures source.new ≡ S.failures source.old + 1 }
    ensures wrote_well { result ≢ Err Fault.Writing →
        T.failures sink.new ≡ T.failures sink.old }
    ensures write_failed { result ≡ Err Fault.Writing →
        T.failures sink.new ≡ T.failures sink.old + 1 }
{
    let mut scratch = Scratch::new(alloc);
    let mut gathered = Vec::new(alloc);
    if gathered.reserve(GATHERED).is_err() {
        return Err(stop(sink, &mut gathered, Fault::NoMemory));
    }
    let mut event = Event::Step(Tid(0));
    let mut reply = ShortReply::Unknown;
    loop {
        flush_before_read(lines, sink, &mut gathered, observer)?;
        match next_script_line(alloc, &mut scratch, lines, source, &mut event) {
            Ok(Some(kind)) => match answer_line(
                alloc,
                engine,
                kind,
                &event,
                &mut reply,
                lines,
                output,
                &mut gathered,
                observer,
            ) {
                Ok(()) => (),
                Err(_) => return Err(stop(sink, &mut gathered, Fault::NoMemory)),
            },
            Ok(None) => {
                flush(sink, &mut gathered)?;
                observer.ended(engine);
                return Ok(());
            }
            Err(fault) => return Err(stop(sink, &mut gathered, fault)),
        }
    }
}

/// Runs a script after its opening: answers each line, and writes the committed database at the end.
///
/// # Errors
///
/// - The fault of the first line that is too long or is no event and no cut, or the fault of the input: the answers
///   to the lines before it are written.
/// - `Reading` if a read failed: the answers to the whole lines that were read are written.
/// - `NoMemory` if an allocation failed: the answers to some first lines are written.
/// - `Writing` if a write failed: a prefix of what a whole run writes is written.
///
/// The first three write no database.
pub(crate) fn run_opened<S: Source, T: Sink, X: Observer>(
    alloc: Global,
    lines: &mut Lines,
    source: &mut S,
    sink: &mut T,
    engine: &mut SgtEngine,
    output: Output,
    observer: &mut X,
) -> Result<(), Fault>
    requires reading { S.failures source.old + 1 < 2 ^ 64 }
    requires writing { T.failures sink.old + 1 < 2 ^ 64 }
    requires fresh { engine.old.past ≡ [] }
    requires few { come lines.old ≤ 4294967297 }
    ensures output { IsExact result → IfSome (cut_left lines.old (S.rest source.old)) (λ c.
        (run : Execution) × (run.configuration ≡ configuration_of engine.old)
        × (out : List ℕ) × Appends (T.held sink.old) (T.held sink.new) out
        × RunOutput output run (lines.old.number + 1) c.given c.ending out result) }
    ensures stops { IsStop result → IfSome (cut_left lines.old (S.rest source.old)) (λ c.
        (answered : List Answer) × Appends (T.held sink.old) (T.held sink.new) (answers_text output answered)
        × Begins (LineRuns output (configuration_of engine.old) (lines.old.number + 1) c) answered (answers_text output answered)
        × (result ≡ Err Fault.Reading → AnswersRead (lines.old.number + 1)
        (bytes_left lines.old (S.rest source.old)) (S.rest source.new) answered)) }
    ensures going { result ≡ Err Fault.Reading → lines.old.ended ≡ false }
    ensures part { result ≡ Err Fault.Writing →
        IfSome (cut_left lines.old (S.rest source.old)) (λ c.
        (answered : List Answer) × (out : List ℕ) × Appends (T.held sink.old) (T.held sink.new) out
        × Begins (LineRuns output (configuration_of engine.old) (lines.old.number + 1) c) answered out) }
    ensures bounded { S.given source.new + come lines.old ≤ S.given source.old + 4294967297 }
    ensures read_well { IsExact result → S.failures source.new ≡ S.failures source.old }
    ensures read_failed { result ≡ Err Fault.Reading →
        S.failures source.new ≡ S.failures source.old + 1 }
    ensures wrote_well { result ≢ Err Fault.Writing →
        T.failures sink.new ≡ T.failures sink.old }
    ensures write_failed { result ≡ Err Fault.Writing →
        T.failures sink.new ≡ T.failures sink.old + 1 }
{
    // Whatever was answered by now, some whole run continues from here.
    some_reply_is_legal();
    histories_go_on();
    answer_lines(alloc, lines, source, sink, engine, output, observer)?;
    let mut text = Vec::new(alloc);
    append_last(alloc, engine, output, &mut text)?;
    flush(sink, &mut text)
}

/// Reads line 1 of an input of at most `most` bytes, and returns the opening that it spells. Line 1 is then the line
/// given last. A copy of it is put into `line`.
fn open_input<S: Source>(
    alloc: Global,
    source: &mut S,
    most: usize,
    line: &mut Option<Vec<u8>>,
) -> Result<(Lines, Opening), Fault>
    requires countable { S.failures source.old + 1 < 2 ^ 64 }
    requires most { most ≤ 4294967296 }
    ensures opened { IfOk result (λ input.
        HasOpened 1 most (S.rest source.old) input.0 (S.rest source.new) input.1) }
    ensures fault { IfErr result (λ f. IsOfInput f → IsRefused 1 most (S.rest source.old) f) }
    ensures unread { result ≡ Err Fault.Reading → ReadsNoLine (S.rest source.old) (S.rest source.new) }
    ensures come { IfOk result (λ input.
        (S.given source.new + 4294967296 ≤ S.given source.old + come input.0 + most)
        × (come input.0 ≤ 4294967297)) }
    ensures bounded { S.given source.new ≤ S.given source.old + (most + 1) }
    ensures writing { result ≢ Err Fault.Writing }
    ensures well { result ≢ Err Fault.Reading → S.failures source.new ≡ S.failures source.old }
    ensures failed { result ≡ Err Fault.Reading →
        S.failures source.new ≡ S.failures source.old + 1 }
{
    let mut lines = Lines::new(alloc, most)?;
    if !lines.next_line(source)? {
        return Err(Fault::NoOpening);
    }
    *line = copy_of_last(alloc, &lines);
    let opening = opening_of(alloc, 1, &lines)?;
    Ok((lines, opening))
}

/// Runs a script of at most `most` bytes. Line 1 and the record lines after it make the initial database. Each later
/// line is an event or a cut, and is answered. The output mode says what is written. The observer follows the run.
/// `line` gets a copy of the line of the fault, or of line 1.
///
/// # Errors
///
/// - The first fault of the script: the answers to the lines before it are written.
/// - `Reading` if a read failed: the answers to the whole lines that were read are written.
/// - `NoMemory` if an allocation failed: the answers to some first lines are written.
/// - `Writing` if a write failed: a prefix of what a whole run writes is written.
///
/// The first three write no database.
pub(crate) fn run_observed<S: Source, T: Sink, X: Observer>(
    alloc: Global,
    source: &mut S,
    sink: &mut T,
    output: Output,
    most: usize,
    observer: &mut X,
    line: &mut Option<Vec<u8>>,
) -> Result<(), Fault>
    requires reading { S.failures source.old + 1 < 2 ^ 64 }
    requires writing { T.failures sink.old + 1 < 2 ^ 64 }
    requires most { most ≤ 4294967296 }
    ensures script { IsExact result → IsWhole output most (S.rest source.old) (T.held sink.old) (T.held sink.new) result }
    ensures stops { IsStop result →
        IsStopped output most (S.rest source.old) (S.rest source.new) (T.held sink.old) (T.held sink.new) result }
    ensures part { result ≡ Err Fault.Writing → IsCutOff output most (S.rest source.old) (T.held sink.old) (T.held sink.new) }
    ensures bounded { S.given source.new ≤ S.given source.old + (most + 1) }
    ensures reads { CountsReads result (S.failures source.old) (S.failures source.new) }
    ensures writes { CountsWrites result (T.failures sink.old) (T.failures sink.new) }
{
    outputs_obey_laws();
    let (mut lines, opening) = open_input(alloc, source, most, line)?;
    let opening = match read_records(alloc, &mut lines, source, opening) {
        Ok(opening) => opening,
        Err(fault) => {
            *line = copy_of_last(alloc, &lines);
            return Err(fault);
        }
    };
    let mut engine = open_engine(alloc, opening)?;
    let ran = run_opened(
        alloc,
        &mut lines,
        source,
        sink,
        &mut engine,
        output,
        observer,
    );
    if ran.is_err() {
        *line = copy_of_last(alloc, &lines);
    }
    ran
}
