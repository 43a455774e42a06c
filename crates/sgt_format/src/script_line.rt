//! A line of a script: an event or a cut.
ghost use Rattle.std.specs.Prelude.{◌≡◌, ◌≢◌, Ok, Err, IfOk, IfErr};
ghost use Rattle.serde_json.specs.View.{view};
ghost use Rattle.sgt_format.specs.ScriptLines.{line_of, of_word, script_line_in, script_line_of};
ghost use Rattle.sgt_format.specs.declared.errors.LineError.TheVariants.{NoMemory};

use crate::errors::LineError;
use crate::event_line::{begin, event_from};
use crate::line_tokens::quick_event;
use crate::plain_access::plain_access;
use crate::plain_line::plain_event;
use crate::tree::{items, read_tree};
use json::Scratch;
use serde_json::Value;
use sgt_model::Event;
use std::alloc::Global;

/// What a line of a script spells, after its opening.
#[derive(Drop)]
pub enum ScriptLine {
    /// An event, which the engine answers, and which becomes an entry of its history.
    Event(Event),
    /// A cut of the history here. This is not an event.
    Cut,
}

/// Which of the two a line of a script is.
#[derive(Clone, Copy)]
pub enum LineKind {
    /// An event.
    Event,
    /// A cut.
    Cut,
}

/// Reads what a line of a script spells, without its end: an event as [`crate::read_event`] reads it, or `["cut"]`. An
/// event is put into `event`, and a cut leaves any event there.
///
/// An argument, and the value of a write, may be any whole number of 64 bits.
///
/// # Errors
///
/// - `NotJson`: the line is not JSON.
/// - `BadLine`: the line is JSON of any other form.
/// - `NoMemory`: an allocation failed.
#[tactic(auto, using(crate::proofs::LineTokens::requested_event))]
#[inline(always)]
pub fn read_script_line(
    alloc: Global,
    scratch: &mut Scratch,
    line: &[u8],
    event: &mut Event,
) -> Result<LineKind, LineError>
    ensures line { IfOk result (λ kind. script_line_of line.now ≡ Ok (line_of kind event.new)) }
    ensures error { IfErr result (λ error. error ≢ NoMemory → script_line_of line.now ≡ Err error) }
{
    if plain_event(line, event).is_some() {
        return Ok(LineKind::Event);
    }
    read_other_line(alloc, scratch, line, event)
}

/// The same, of a line that is not in plain form.
#[tactic(auto, using(crate::proofs::LineTokens::requested_event))]
#[inline(never)]
fn read_other_line(
    alloc: Global,
    scratch: &mut Scratch,
    line: &[u8],
    event: &mut Event,
) -> Result<LineKind, LineError>
    ensures line { IfOk result (λ kind. script_line_of line.now ≡ Ok (line_of kind event.new)) }
    ensures error { IfErr result (λ error. error ≢ NoMemory → script_line_of line.now ≡ Err error) }
{
    if plain_access(line, event).is_some() {
        return Ok(LineKind::Event);
    }
    if let Some(found) = quick_event(line, scratch)? {
        *event = found;
        return Ok(LineKind::Event);
    }
    let Some(tree) = read_tree(alloc, line)? else {
        return Err(LineError::NotJson);
    };
    match script_line_in(&tree) {
        Some(ScriptLine::Event(found)) => {
            *event = found;
            Ok(LineKind::Event)
        }
        Some(ScriptLine::Cut) => Ok(LineKind::Cut),
        None => Err(LineError::BadLine),
    }
}

fn script_line_in(tree: &Value) -> Option<ScriptLine>
    ensures { result ≡ script_line_in (view tree.now) }
{
    match items(tree)? {
        [word] => of_word(word.as_str()?),
        trees => Some(ScriptLine::Event(event_from(trees)?)),
    }
}

fn of_word(word: &str) -> Option<ScriptLine>
    ensures { result ≡ of_word word.now }
{
    match word {
        "begin" => Some(ScriptLine::Event(begin())),
        "cut" => Some(ScriptLine::Cut),
        _ => None,
    }
}
