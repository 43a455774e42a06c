//! Lines in plain form: no escape, no space but one after a comma, and whole numbers of at most eighteen digits. Most
//! lines are written so.
ghost use Rattle.std.specs.Prelude.{◌≡◌, ◌≤◌, ◌<◌, ◌+◌, ◌-◌, ◌∷◌, [], ◌++◌, ℕ, List, false, length, take, drop, slice_index, codes, Ok, Some, IfSome, IsTrue};
ghost use Rattle.std.specs.Fmt.{decimal, signed_decimal};
ghost use lib.Signed.{mag};
ghost use Rattle.json.specs.Spaced.{IsGap};
ghost use Rattle.sgt_format.specs.EventLines.{event_of};
ghost use Rattle.sgt_format.specs.JobLines.{job_of};
ghost use Rattle.sgt_format.specs.RecordLines.{record_line_of};
ghost use Rattle.sgt_format.specs.PlainLines.{comma_after, has_newline, AreArguments, AreSmall, IsCall};

use crate::record_line::RecordLine;
use sgt_model::{Args, Call, Event, Tid};
use std::simd::prelude::*;

/// Reads the event of a line in plain form into `event`. If this returns `None`, the tokens decide. The third letter of
/// the word is enough to tell which event it may be.
#[inline(always)]
pub(crate) fn plain_event(line: &[u8], event: &mut Event) -> Option<()>
    ensures { IfSome result (λ _. event_of line.now ≡ Ok event.new) }
{
    if line.len() < 8 {
        return None;
    }
    if line[4] == b'e' {
        *event = Event::Step(tid_after(line, b"[\"step\",")?);
        return Some(());
    }
    if line[4] == b'm' {
        *event = Event::Commit(tid_after(line, b"[\"commit\",")?);
        return Some(());
    }
    plain_start_or_quit(line, event)
}

/// Reads a step or a commit in plain form at the front of a text into `event`, and returns the length of its line, which a
/// newline follows. If this returns `None`, the line may still be any line.
#[inline(always)]
pub fn read_event_ahead(text: &[u8], event: &mut Event) -> Option<usize>
    requires { length text.now ≡ 64 }
    ensures end { IfSome result (λ len. (len < 64) × (slice_index text.now len ≡ 10)) }
    ensures unbroken { IfSome result (λ len. has_newline (take len text.now) ≡ false) }
    ensures event { IfSome result (λ len. event_of (take len text.now) ≡ Ok event.new) }
{
    if text[4] == b'e' {
        let (t, len) = tid_ahead(text, b"[\"step\",")?;
        *event = Event::Step(t);
        return Some(len);
    }
    if text[4] == b'm' {
        let (t, len) = tid_ahead(text, b"[\"commit\",")?;
        *event = Event::Commit(t);
        return Some(len);
    }
    None
}

/// The transaction of a line that is these words, its number of at most eight digits and a closing bracket, at the front of a
/// text, and the length of the line, which a newline follows. One space before the number is skipped.
#[inline(always)]
fn tid_ahead(text: &[u8], words: &[u8]) -> Option<(Tid, usize)>
    requires size { length text.now ≡ 64 }
    requires words { (8 ≤ length words.now) × (length words.now ≤ 10) }
    requires unbroken { has_newline words.now ≡ false }
    ensures number { IfSome result (λ found. (gap : List ℕ) × IsGap gap
        × (take found.1 text.now ≡ words.now ++ (gap ++ (decimal found.0 ++ 93 ∷ [])))) }
    ensures small { IfSome result (λ found. found.0 < 4_294_967_296) }
    ensures end { IfSome result (λ found. (found.1 < 64) × (slice_index text.now found.1 ≡ 10)) }
    ensures unbroken { IfSome result (λ found. has_newline (take found.1 text.now) ≡ false) }
{
    let at = item_index(text, words)?;
    let (number, digits) = leading_digits(&text[at..at + 8])?;
    let last = at + digits;
    if text[last] != b']' || text[last + 1] != b'\n' {
        return None;
    }
    Some((Tid(u32::try_from(number).ok()?), last + 1))
}

/// The same, of a `start` or a `quit`. A start's arguments are built here, so that a step needs no space for them.
#[inline(never)]
fn plain_start_or_quit(line: &[u8], event: &mut Event) -> Option<()>
    requires { 8 ≤ length line.now }
    ensures { IfSome result (λ _. event_of line.now ≡ Ok event.new) }
{
    if line[4] == b'i' {
        *event = Event::Quit(tid_after(line, b"[\"quit\",")?);
        return Some(());
    }
    let at = item_index(line, b"[\"start\",")?;
    let mut call = Call {
        procedure: 0,
        args: Args::new(),
    };
    last_call(&line[at..], &mut call)?;
    let Call { procedure, args } = call;
    *event = Event::Start { procedure, args };
    Some(())
}

/// Reads the job of a line in plain form into `call`.
#[inline(always)]
pub(crate) fn plain_job(line: &[u8], call: &mut Call) -> Option<()>
    ensures { IfSome result (λ _. job_of line.now ≡ Ok call.new) }
{
    last_call(item_after(line, b"[\"job\",")?, call)?;
    Some(())
}

/// The record of a line in plain form.
pub(crate) fn plain_record(line: &[u8]) -> Option<RecordLine>
    ensures { IfSome result (λ said. record_line_of line.now ≡ Some said) }
{
    let (table, rest) = leading_number(item_after(line, b"[\"record\",")?)?;
    let (number, rest) = leading_number(item_after(rest, b",")?)?;
    let (value, rest) = leading_number(item_after(rest, b",")?)?;
    if !is_bracket(rest) {
        return None;
    }
    Some(RecordLine {
        table,
        number,
        value,
    })
}

/// Whether a text is the bracket that closes a line.
#[tactic(auto, using(crate::proofs::PlainLines::one_bracket))]
#[inline(always)]
pub(crate) fn is_bracket(text: &[u8]) -> bool
    ensures { IsTrue result → text.now ≡ codes "]" }
{
    text.len() == 1 && text[0] == b']'
}

/// The text after these bytes, if it begins with them.
#[tactic(auto, using(crate::proofs::PlainLines::split_after))]
#[inline(always)]
pub(crate) fn following<'a>(text: &'a [u8], words: &[u8]) -> Option<&'a [u8]>
    ensures { IfSome result (λ rest. text.now ≡ words.now ++ rest.now) }
{
    if text.len() < words.len() {
        return None;
    }
    let mut same = true;
    for at in 0..words.len() {
        same = same & (text[at] == words[at]);
    }
    if !same {
        return None;
    }
    Some(&text[words.len()..])
}

/// The index of the item after a comma that ends these words, if the line begins with them and goes on. One space
/// before the item is skipped.
#[inline(always)]
fn item_index(line: &[u8], words: &[u8]) -> Option<usize>
    requires { (8 ≤ length line.now) × (8 ≤ length words.now) }
    ensures within { IfSome result (λ at. at ≤ length line.now) }
    ensures near { IfSome result (λ at. at ≤ length words.now + 1) }
    ensures unbroken { has_newline words.now ≡ false → IfSome result (λ at. has_newline (take at line.now) ≡ false) }
    ensures item { IfSome result (λ at. (gap : List ℕ) × IsGap gap
        × (line.now ≡ words.now ++ (gap ++ drop at line.now))) }
{
    let at = words.len();
    if line.len() <= at || !begins_with(line, words) {
        return None;
    }
    if line[at] == b' ' {
        return Some(at + 1);
    }
    Some(at)
}

/// Whether a line begins with these words. Eight bytes are compared at once.
#[inline(always)]
fn begins_with(line: &[u8], words: &[u8]) -> bool
    requires { (8 ≤ length line.now) × (8 ≤ length words.now) }
    ensures { IsTrue result → line.now ≡ words.now ++ drop (length words.now) line.now }
{
    is_same_word(line, words) && following(&line[8..], &words[8..]).is_some()
}

/// Whether two texts begin with the same eight bytes.
#[tactic(auto, using(crate::proofs::Words::same_word))]
#[inline(always)]
fn is_same_word(text: &[u8], words: &[u8]) -> bool
    requires { (8 ≤ length text.now) × (8 ≤ length words.now) }
    ensures { IsTrue result → take 8 text.now ≡ take 8 words.now }
{
    let marks = u8x8::from_slice(text)
        .simd_eq(u8x8::from_slice(words))
        .to_bitmask();
    marks == 255
}

/// The items after a comma that ends these bytes, if the text begins with them. One space before the items is skipped.
#[inline(always)]
pub(crate) fn item_after<'a>(text: &'a [u8], words: &[u8]) -> Option<&'a [u8]>
    ensures { IfSome result (λ rest. (gap : List ℕ) × IsGap gap × (text.now ≡ words.now ++ (gap ++ rest.now))) }
{
    let rest = following(text, words)?;
    match following(rest, b" ") {
        Some(items) => Some(items),
        None => Some(rest),
    }
}

/// The transaction of a line that is these words, its number and a closing bracket. One space before the number is
/// skipped.
#[inline(always)]
fn tid_after(line: &[u8], words: &[u8]) -> Option<Tid>
    requires { (8 ≤ length line.now) × (8 ≤ length words.now) }
    ensures number { IfSome result (λ t. (gap : List ℕ) × IsGap gap
        × (line.now ≡ words.now ++ (gap ++ (decimal t ++ 93 ∷ [])))) }
    ensures small { IfSome result (λ t. t < 4_294_967_296) }
{
    let at = item_index(line, words)?;
    let t = last_tid(&line[at..])?;
    Some(t)
}

/// The transaction of a text that is its number, of at most ten digits, and a closing bracket. The bracket is looked for
/// first, since it ends the digits.
#[tactic(auto, using(crate::proofs::PlainLines::number_last))]
#[inline(always)]
fn last_tid(text: &[u8]) -> Option<Tid>
    ensures number { IfSome result (λ t. text.now ≡ decimal t ++ 93 ∷ []) }
    ensures small { IfSome result (λ t. t < 4_294_967_296) }
{
    if text.len() < 2 || 11 < text.len() || text[text.len() - 1] != b']' {
        return None;
    }
    let (number, digits) = bracketed_digits(text)?;
    if digits + 1 != text.len() {
        return None;
    }
    Some(Tid(u32::try_from(number).ok()?))
}

/// The natural number at the front of a text that ends with a closing bracket, and how many digits it has there.
#[tactic(auto, using(crate::proofs::PlainLines::one_digit, crate::proofs::PlainLines::one_more_digit))]
#[inline(always)]
fn bracketed_digits(text: &[u8]) -> Option<(u64, usize)>
    requires some { (1 < length text.now) × (length text.now ≤ 11) }
    requires bracket { slice_index text.now (length text.now - 1) ≡ 93 }
    ensures digits { IfSome result (λ found. take found.1 text.now ≡ decimal found.0) }
    ensures within { IfSome result (λ found. found.1 < length text.now) }
{
    if !is_digit(text[0]) {
        return None;
    }
    let mut number = u64::from(text[0] - b'0');
    let mut digits = 1;
    if number == 0 {
        return Some((number, digits));
    }
    while is_digit(text[digits]) {
        number = 10 * number + u64::from(text[digits] - b'0');
        digits += 1;
    }
    Some((number, digits))
}

/// Reads the call of a text that is a procedure, a list of arguments and a closing bracket into `call`.
#[inline(always)]
fn last_call(text: &[u8], call: &mut Call) -> Option<()>
    ensures { IfSome result (λ _. IsCall text.now call.new) }
{
    let (number, rest) = natural_and_rest(text)?;
    call.procedure = u16::try_from(number).ok()?;
    last_arguments(following(item_after(rest, b",")?, b"[")?, &mut call.args)?;
    Some(())
}

/// Reads the arguments of a text that is at most four of them, separated by commas, and two closing brackets.
#[inline(always)]
fn last_arguments(text: &[u8], args: &mut Args) -> Option<()>
    ensures text { IfSome result (λ _. AreArguments false text.now args.new) }
    ensures small { IfSome result (λ _. AreSmall args.new) }
    ensures few { IfSome result (λ _. length args.new ≤ 4) }
{
    args.clear();
    let mut rest = text;
    while !is_closing(rest) {
        if args.len() == 4 {
            return None;
        }
        let (number, more) = next_argument(rest, args)?;
        args.push(number);
        rest = more;
    }
    Some(())
}

/// Whether a text is the brackets that close the arguments and the line.
#[tactic(auto, using(crate::proofs::PlainCalls::two_brackets))]
#[inline(always)]
fn is_closing(text: &[u8]) -> bool
    ensures { IsTrue result → text.now ≡ codes "]]" }
{
    text.len() == 2 && text[0] == b']' && text[1] == b']'
}

/// The argument at the front of a text, after its comma unless it is the first, and the rest of the text.
#[inline(always)]
fn next_argument<'a>(text: &'a [u8], args: &Args) -> Option<(i64, &'a [u8])>
    ensures text { IfSome result (λ found. (gap : List ℕ) × IsGap gap
        × (text.now ≡ comma_after args.now ++ (gap ++ (signed_decimal found.0 ++ found.1.now)))) }
    ensures small { IfSome result (λ found. mag found.0 < 1_000_000_000_000_000_000) }
{
    if args.is_empty() {
        return leading_number(text);
    }
    leading_number(item_after(text, b",")?)
}

/// The number at the front of a text, and the rest of the text. `-0` is none.
#[inline(always)]
pub(crate) fn leading_number(text: &[u8]) -> Option<(i64, &[u8])>
    ensures text { IfSome result (λ found. text.now ≡ signed_decimal found.0 ++ found.1.now) }
    ensures small { IfSome result (λ found. mag found.0 < 1_000_000_000_000_000_000) }
{
    if let Some(digits) = following(text, b"-") {
        let (number, rest) = natural_and_rest(digits)?;
        if number == 0 {
            return None;
        }
        return Some((-(number as i64), rest));
    }
    let (number, rest) = natural_and_rest(text)?;
    Some((number as i64, rest))
}

/// The natural number at the front of a text, and the rest of the text.
#[tactic(auto, using(crate::proofs::PlainCalls::number_first))]
#[inline(always)]
fn natural_and_rest(text: &[u8]) -> Option<(u64, &[u8])>
    ensures text { IfSome result (λ found. text.now ≡ decimal found.0 ++ found.1.now) }
    ensures small { IfSome result (λ found. found.0 < 1_000_000_000_000_000_000) }
{
    let (number, digits) = leading_digits(text)?;
    Some((number, &text[digits..]))
}

/// The natural number of at most eighteen digits at the front of a text, and how many digits it has there.
#[tactic(auto, using(crate::proofs::PlainLines::one_digit, crate::proofs::PlainLines::one_more_digit))]
#[inline(always)]
fn leading_digits(text: &[u8]) -> Option<(u64, usize)>
    ensures digits { IfSome result (λ found. take found.1 text.now ≡ decimal found.0) }
    ensures within { IfSome result (λ found. found.1 ≤ length text.now) }
    ensures small { IfSome result (λ found. found.0 < 1_000_000_000_000_000_000) }
{
    if text.is_empty() || !is_digit(text[0]) {
        return None;
    }
    let mut number = u64::from(text[0] - b'0');
    let mut digits = 1;
    if number == 0 {
        return Some((number, digits));
    }
    while digits < text.len() && goes_on(number, text[digits]) {
        number = 10 * number + u64::from(text[digits] - b'0');
        digits += 1;
    }
    Some((number, digits))
}

/// Whether this byte is a digit, and the number may have one more.
#[inline(always)]
fn goes_on(number: u64, byte: u8) -> bool
    ensures number { IsTrue result → number < 100_000_000_000_000_000 }
    ensures digit { IsTrue result → (48 ≤ byte) × (byte ≤ 57) }
{
    number < 100_000_000_000_000_000 && is_digit(byte)
}

#[inline(always)]
fn is_digit(byte: u8) -> bool
    ensures { IsTrue result → (48 ≤ byte) × (byte ≤ 57) }
{
    b'0' <= byte && byte <= b'9'
}
