//! Why an event is refused, and the words for it.
ghost use Rattle.std.specs.Prelude.{◌≡◌, IfSome, OnErr, Some, slice_get, take, vec_len};
ghost use Rattle.sgt_model.specs.Numbers.{IsValue};
ghost use Rattle.sgt_explain.specs.Refusals.{IsBadCall, IsRefusal};

use crate::text::append_number;
use sgt_model::{Args, Event, LEAST, MOST, NoMemory, Reply, Request, Tid, is_value};
use std::alloc::AllocError;

/// Why an event is refused: nothing was done, and no transaction has started or ended.
#[derive(Clone, Copy)]
pub enum Refusal {
    /// There is no procedure with this number.
    NoProcedure(u16),
    /// The procedure of this number takes `takes` arguments, and was given `given`.
    Count(u16, u8, usize),
    /// The procedure of this number was given this many arguments, and does not take them.
    Arguments(u16, usize),
    /// The argument at this index, from 0, is out of the range of values.
    Argument(usize, i64),
    /// The value to write is out of the range of values.
    Value(i64),
    /// As many transactions have started as the limits allow.
    Spent,
    /// As many transactions are live as the limits allow.
    Full,
    /// No transaction was started with this number.
    Unknown(Tid),
    /// This transaction has ended.
    Over(Tid),
    /// The procedure of this transaction has not ended.
    NotEnded(Tid),
}

/// Why the event is refused, if this reply refuses it. How many arguments its procedure takes, if that is known.
pub fn refusal_of(event: &Event, reply: &Reply, takes: Option<u8>) -> Option<Refusal>
    ensures { IfSome result (IsRefusal event.now reply.now takes) }
{
    match (reply, event) {
        (Reply::NoProcedure, Event::Start { procedure, .. }) => Some(Refusal::NoProcedure(
            *procedure,
        )),
        (Reply::BadArgs, Event::Start { procedure, args }) => {
            Some(bad_call(*procedure, args, takes))
        }
        (Reply::BadArgs, Event::Access(_, Request::Write(_, Some(value)))) => {
            Some(Refusal::Value(*value))
        }
        (Reply::Spent, _) => Some(Refusal::Spent),
        (Reply::Full, _) => Some(Refusal::Full),
        _ => match (reply, event.named()) {
            (Reply::Unknown, Some(t)) => Some(Refusal::Unknown(t)),
            (Reply::Over(_), Some(t)) => Some(Refusal::Over(t)),
            (Reply::NotEnded, Some(t)) => Some(Refusal::NotEnded(t)),
            _ => None,
        },
    }
}

// What is wrong with the arguments of a call.
fn bad_call(procedure: u16, args: &Args, takes: Option<u8>) -> Refusal
    ensures { IsBadCall procedure args.now takes result }
{
    let given = args.len();
    match takes {
        Some(count) if usize::from(count) != given => Refusal::Count(procedure, count, given),
        _ => match no_value(args.as_slice()) {
            Some((index, value)) => Refusal::Argument(index, value),
            None => Refusal::Arguments(procedure, given),
        },
    }
}

// The first argument that is out of the range of values, if there is one.
fn no_value(args: &[i64]) -> Option<(usize, i64)>
    ensures { IfSome result (λ found. (slice_get args.now found.0 ≡ Some found.1) × ¬ IsValue found.1) }
{
    for index in 0..args.len() {
        if !is_value(args[index]) {
            return Some((index, args[index]));
        }
    }
    None
}

/// Appends the words for a refusal, as `DepositChecking takes 2 arguments, found 1`.
///
/// `NoMemory` if an allocation failed; then the text is unchanged.
pub fn append_refusal(text: &mut Vec<u8>, refusal: &Refusal) -> Result<(), NoMemory>
    ensures kept { take (vec_len text.old) text.new.items ≡ text.old.items }
    ensures err { OnErr result (text.new.items ≡ text.old.items) }
{
    let mut words = Vec::new(*text.allocator());
    append_words(&mut words, refusal)?;
    text.extend_from_slice(words.as_slice())?;
    Ok(())
}

// Appends the words.
fn append_words(text: &mut Vec<u8>, refusal: &Refusal) -> Result<(), AllocError> {
    match refusal {
        Refusal::NoProcedure(procedure) => append_number(
            text,
            b"there is no procedure ",
            *procedure,
        ),
        Refusal::Count(procedure, takes, given) => append_count(text, *procedure, *takes, *given),
        Refusal::Arguments(procedure, given) => {
            append_name(text, *procedure)?;
            append_number(text, b" does not take ", *given as u64)?;
            text.extend_from_slice(argument_words(*given))
        }
        Refusal::Argument(index, value) => {
            append_number(text, b"argument ", *index as u64)?;
            append_out_of_range(text, b" is ", *value)
        }
        Refusal::Value(value) => append_out_of_range(text, b"the value is ", *value),
        Refusal::Spent => text.extend_from_slice(b"as many have started as line 1 allows"),
        Refusal::Full => text.extend_from_slice(b"as many are live as line 1 allows"),
        Refusal::Unknown(t) => append_number(
            text,
            b"no transaction has started with the number ",
            t.0,
        ),
        Refusal::Over(t) => {
            append_number(text, b"transaction ", t.0)?;
            text.extend_from_slice(b" has ended")
        }
        Refusal::NotEnded(t) => {
            append_number(text, b"the procedure of ", t.0)?;
            text.extend_from_slice(b" has not ended: it has another step")
        }
    }
}

// Appends how many arguments a procedure takes, and how many there were.
fn append_count(
    text: &mut Vec<u8>,
    procedure: u16,
    takes: u8,
    given: usize,
) -> Result<(), AllocError> {
    append_name(text, procedure)?;
    append_number(text, b" takes ", takes)?;
    text.extend_from_slice(argument_words(usize::from(takes)))?;
    append_number(text, b", found ", given as u64)
}

// The word after a number of arguments.
fn argument_words(count: usize) -> &'static [u8] {
    if count == 1 {
        b" argument"
    } else {
        b" arguments"
    }
}

// Appends these words and the number, and the range of values.
fn append_out_of_range(text: &mut Vec<u8>, words: &[u8], number: i64) -> Result<(), AllocError> {
    append_number(text, words, number)?;
    append_number(text, b", and has to be from ", LEAST)?;
    append_number(text, b" to ", MOST)
}

/// The names of SmallBank's procedures, by number.
pub(crate) const NAMES: [&str; 5] = [
    "Balance",
    "DepositChecking",
    "TransactSaving",
    "Amalgamate",
    "WriteCheck",
];

// Appends the name of the procedure, or its number if it has no name.
pub(crate) fn append_name(text: &mut Vec<u8>, procedure: u16) -> Result<(), AllocError> {
    match NAMES.get(usize::from(procedure)) {
        Some(name) => text.extend_from_slice(name.as_bytes()),
        None => append_number(text, b"procedure ", procedure),
    }
}
