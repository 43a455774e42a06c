//! Lines in plain form of a begin, and of accesses on which a transaction's caller decides.
ghost use Rattle.std.specs.Prelude.{◌≡◌, Ok, IfSome};
ghost use Rattle.sgt_format.specs.EventLines.{event_of};
ghost use Rattle.sgt_format.specs.PlainLines.{AreNumbers};

use crate::event_line::begin;
use crate::line_tokens::tid_of;
use crate::plain_line::{following, is_bracket, item_after, leading_number};
use crate::record_line::key_of;
use sgt_model::{Event, Request};

/// Reads the event of such a line in plain form into `event`. If this returns `None`, the tokens decide. The third letter of
/// the word is enough to tell which event it may be.
#[inline(never)]
pub(crate) fn plain_access(line: &[u8], event: &mut Event) -> Option<()>
    ensures { IfSome result (λ _. event_of line.now ≡ Ok event.new) }
{
    if line.len() < 8 {
        return None;
    }
    match line[4] {
        b'a' => plain_read(line, event),
        b'i' => plain_write(line, event),
        b'm' => plain_remove(line, event),
        _ => plain_begin(line, event),
    }
}

fn plain_read(line: &[u8], event: &mut Event) -> Option<()>
    ensures { IfSome result (λ _. event_of line.now ≡ Ok event.new) }
{
    let (t, table, id, rest) = leading_numbers(item_after(line, b"[\"read\",")?)?;
    if !is_bracket(rest) {
        return None;
    }
    *event = Event::Access(tid_of(t)?, Request::Read(key_of(table, id)?));
    Some(())
}

fn plain_remove(line: &[u8], event: &mut Event) -> Option<()>
    ensures { IfSome result (λ _. event_of line.now ≡ Ok event.new) }
{
    let (t, table, id, rest) = leading_numbers(item_after(line, b"[\"remove\",")?)?;
    if !is_bracket(rest) {
        return None;
    }
    *event = Event::Access(tid_of(t)?, Request::Write(key_of(table, id)?, None));
    Some(())
}

fn plain_write(line: &[u8], event: &mut Event) -> Option<()>
    ensures { IfSome result (λ _. event_of line.now ≡ Ok event.new) }
{
    let (t, table, id, rest) = leading_numbers(item_after(line, b"[\"write\",")?)?;
    let (value, last) = leading_number(item_after(rest, b",")?)?;
    if !is_bracket(last) {
        return None;
    }
    *event = Event::Access(tid_of(t)?, Request::Write(key_of(table, id)?, Some(value)));
    Some(())
}

#[tactic(auto, using(crate::proofs::PlainAccesses::plain_begin))]
fn plain_begin(line: &[u8], event: &mut Event) -> Option<()>
    ensures { IfSome result (λ _. event_of line.now ≡ Ok event.new) }
{
    if !is_bracket(following(line, b"[\"begin\"")?) {
        return None;
    }
    *event = begin();
    Some(())
}

/// The three numbers at the front of a text, separated by commas, and the rest of the text.
#[inline(always)]
fn leading_numbers(text: &[u8]) -> Option<(i64, i64, i64, &[u8])>
    ensures { IfSome result (λ found. AreNumbers text.now found.3.now found.0 found.1 found.2) }
{
    let (first, rest) = leading_number(text)?;
    let (second, rest) = leading_number(item_after(rest, b",")?)?;
    let (third, rest) = leading_number(item_after(rest, b",")?)?;
    Some((first, second, third, rest))
}
