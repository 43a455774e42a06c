//! Reads an event or a job by the tokens of its line, without a tree, if the line is not in plain form.
ghost use Rattle.std.specs.Prelude.{◌≡◌, ◌∷◌, [], ◌++◌, List, ℕ, map, Some, Ok, IfOk, IfSome, IsTrue, IsFalse, ◌≤◌, length};
ghost use Rattle.fast_float.specs.Text.{scan};
ghost use Rattle.json.specs.Token.{begin_array, end_array, string, number};
ghost use Rattle.serde_json.specs.Read.{number_of, number_from};
ghost use Rattle.sgt_proc_json.specs.Trees.{natural};
ghost use Rattle.sgt_format.specs.EventLines.{event_of};
ghost use Rattle.sgt_format.specs.JobLines.{job_of};
ghost use Rattle.sgt_format.specs.LineTokens.{whole_number, whole_numbers, event_at, job_at};

use crate::event_line::{of_procedure, of_transaction};
use crate::job_line::job_call;
use fast_float::Numeral;
use json::{Reader, Scratch, Token};
use sgt_model::{Args, Call, Event, NoMemory, Tid};

/// The event of a line that is not in plain form, read token by token, without a tree. If this finds none, the line's
/// tree decides.
#[tactic(auto, using(crate::proofs::LineTokens::event_found))]
pub(crate) fn quick_event(line: &[u8], scratch: &mut Scratch) -> Result<Option<Event>, NoMemory>
    ensures { IfOk result (λ found. IfSome found (λ event. event_of line.now ≡ Ok event)) }
{
    let Ok(text) = str::from_utf8(line) else {
        return Ok(None);
    };
    let mut reader = Reader::new(text, scratch)?;
    Ok(event_at(&mut reader))
}

/// The job that a line spells, found in the same way.
#[tactic(auto, using(crate::proofs::LineTokens::job_found))]
pub(crate) fn quick_job(line: &[u8], scratch: &mut Scratch) -> Result<Option<Call>, NoMemory>
    ensures { IfOk result (λ found. IfSome found (λ call. job_of line.now ≡ Ok call)) }
{
    let Ok(text) = str::from_utf8(line) else {
        return Ok(None);
    };
    let mut reader = Reader::new(text, scratch)?;
    Ok(job_at(&mut reader))
}

fn event_at(reader: &mut Reader<'_>) -> Option<Event>
    ensures { IfSome result (λ event. event_at reader.old ≡ Some event) }
{
    let (word, first) = take_head(reader)?;
    if takes_end_array(reader) {
        if !has_ended(reader) {
            return None;
        }
        return of_transaction(word, tid_of(first)?);
    }
    let args = take_last_arguments(reader)?;
    of_procedure(word, procedure_of(first)?, args)
}

fn job_at(reader: &mut Reader<'_>) -> Option<Call>
    ensures { IfSome result (λ call. job_at reader.old ≡ Some call) }
{
    let (word, first) = take_head(reader)?;
    let args = take_last_arguments(reader)?;
    job_call(word, procedure_of(first)?, args)
}

/// The word and the number at the front of a list.
fn take_head<'a>(reader: &mut Reader<'a>) -> Option<(&'a str, i64)>
    ensures { IfSome result (λ head. (text : List ℕ)
        × (reader.old ≡ begin_array ∷ string head.0.now ∷ number text ∷ reader.new)
        × (whole_number text ≡ Some head.1)) }
{
    if !takes_begin_array(reader) {
        return None;
    }
    let word = take_word(reader)?;
    let first = take_whole(reader)?;
    Some((word, first))
}

/// The numbers of a list that is the last item of another, which ends the text.
fn take_last_arguments(reader: &mut Reader<'_>) -> Option<Args>
    ensures { IfSome result (λ args. (texts : List (List ℕ))
        × (reader.old ≡ begin_array ∷ (map number texts ++ end_array ∷ end_array ∷ []))
        × (whole_numbers texts ≡ Some args) × (length texts ≤ 4)) }
{
    if !takes_begin_array(reader) {
        return None;
    }
    let args = take_arguments(reader)?;
    if !takes_end_array(reader) || !has_ended(reader) {
        return None;
    }
    Some(args)
}

pub(crate) fn tid_of(n: i64) -> Option<Tid>
    ensures { result ≡ natural 32 n }
{
    Some(Tid(u32::try_from(n).ok()?))
}

fn procedure_of(n: i64) -> Option<u16>
    ensures { result ≡ natural 16 n }
{
    u16::try_from(n).ok()
}

/// The numbers of a list after its opening bracket, at most four, and its end.
fn take_arguments(reader: &mut Reader<'_>) -> Option<Args>
    ensures { IfSome result (λ args. (texts : List (List ℕ))
        × (reader.old ≡ map number texts ++ end_array ∷ reader.new)
        × (whole_numbers texts ≡ Some args) × (length texts ≤ 4)) }
{
    let mut args = Args::new();
    while !takes_end_array(reader) {
        if args.len() == 4 {
            return None;
        }
        args.push(take_whole(reader)?);
    }
    Some(args)
}

fn takes_begin_array(reader: &mut Reader<'_>) -> bool
    ensures { IsTrue result → reader.old ≡ begin_array ∷ reader.new }
{
    matches!(reader.next(), Some(Token::BeginArray))
}

fn takes_end_array(reader: &mut Reader<'_>) -> bool
    ensures taken { IsTrue result → reader.old ≡ end_array ∷ reader.new }
    ensures kept { IsFalse result → reader.new ≡ reader.old }
{
    reader.take_end_array()
}

fn has_ended(reader: &mut Reader<'_>) -> bool
    ensures { IsTrue result → reader.old ≡ [] }
{
    reader.next().is_none()
}

fn take_word<'a>(reader: &mut Reader<'a>) -> Option<&'a str>
    ensures { IfSome result (λ word. reader.old ≡ string word.now ∷ reader.new) }
{
    match reader.next() {
        Some(Token::String(word)) => Some(word),
        _ => None,
    }
}

fn take_whole(reader: &mut Reader<'_>) -> Option<i64>
    ensures { IfSome result (λ n. (text : List ℕ) × (reader.old ≡ number text ∷ reader.new)
        × (whole_number text ≡ Some n)) }
{
    match reader.next() {
        Some(Token::Number(text)) => whole_number(text),
        _ => None,
    }
}

/// The whole number that the text of a number spells. `-0` is none.
#[tactic(auto, using(crate::proofs::Numerals::whole_found))]
fn whole_number(text: &str) -> Option<i64>
    ensures { IfSome result (λ n. whole_number text.now ≡ Some n) }
{
    let (is_negative, digits) = sign_and_digits(text.as_bytes());
    let number = Numeral::scan(digits).to_i64(is_negative)?;
    if is_negative && number == 0 {
        return None;
    }
    Some(number)
}

/// Whether the text of a number begins with a minus, and the text after it.
fn sign_and_digits(text: &[u8]) -> (bool, &[u8])
    ensures { number_of text.now ≡ number_from result.0 (scan result.1.now) }
{
    if !text.is_empty() && text[0] == b'-' {
        (true, &text[1..])
    } else {
        (false, text)
    }
}
