//! The line of a job.
ghost use Rattle.std.specs.Prelude.{◌≡◌, ◌≢◌, Ok, Err, IfOk, IfErr};
ghost use Rattle.serde_json.specs.Find.{as_str};
ghost use Rattle.serde_json.specs.View.{view};
ghost use Rattle.sgt_format.specs.Calls.{of_three};
ghost use Rattle.sgt_format.specs.EventLines.{procedure, arguments};
ghost use Rattle.sgt_format.specs.JobLines.{job_call, job_in, job_of};
ghost use Rattle.sgt_format.specs.declared.errors.LineError.TheVariants.{NoMemory};

use crate::errors::LineError;
use crate::event_line::{arguments, procedure};
use crate::line_tokens::quick_job;
use crate::plain_line::plain_job;
use crate::tree::{items, read_tree};
use json::Scratch;
use serde_json::Value;
use sgt_model::{Args, Call};
use std::alloc::Global;

/// The job that a line spells, without its end: `["job", procedure, [arg, ..]]`.
///
/// An argument may be any whole number of 64 bits. `scratch` is memory of the reader; pass the same one for each line.
///
/// # Errors
///
/// - `NotJson`: the line is not JSON.
/// - `BadLine`: the line is JSON of any other form.
/// - `NoMemory`: an allocation failed.
pub fn read_job(alloc: Global, scratch: &mut Scratch, line: &[u8]) -> Result<Call, LineError>
    ensures job { IfOk result (λ job. job_of line.now ≡ Ok job) }
    ensures error { IfErr result (λ error. error ≢ NoMemory → job_of line.now ≡ Err error) }
{
    let mut call = Call {
        procedure: 0,
        args: Args::new(),
    };
    if plain_job(line, &mut call).is_some() {
        return Ok(call);
    }
    read_other_job(alloc, scratch, line)
}

/// The same, of a line that is not in plain form.
#[inline(never)]
fn read_other_job(alloc: Global, scratch: &mut Scratch, line: &[u8]) -> Result<Call, LineError>
    ensures job { IfOk result (λ job. job_of line.now ≡ Ok job) }
    ensures error { IfErr result (λ error. error ≢ NoMemory → job_of line.now ≡ Err error) }
{
    if let Some(call) = quick_job(line, scratch)? {
        return Ok(call);
    }
    let Some(tree) = read_tree(alloc, line)? else {
        return Err(LineError::NotJson);
    };
    job_in(&tree).ok_or(LineError::BadLine)
}

fn job_in(tree: &Value) -> Option<Call>
    ensures { result ≡ job_in (view tree.now) }
{
    match items(tree)? {
        [word, number, list] => of_three(word, number, list),
        _ => None,
    }
}

/// The job of a word, a procedure's number and a list of arguments.
fn of_three(word: &Value, number: &Value, list: &Value) -> Option<Call>
    ensures { result ≡ of_three job_call (as_str (view word.now)) (procedure (view number.now)) (arguments (view list.now)) }
{
    job_call(word.as_str()?, procedure(number)?, arguments(list)?)
}

pub(crate) fn job_call(word: &str, procedure: u16, args: Args) -> Option<Call>
    ensures { result ≡ job_call word.now procedure args }
{
    match word {
        "job" => Some(Call { procedure, args }),
        _ => None,
    }
}
