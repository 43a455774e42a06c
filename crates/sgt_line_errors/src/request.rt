//! Errors in the line of an event, of a job or of a record.
use crate::command::Command;
use crate::excerpt::excerpt;
use crate::message::{Message, expected, unexpected, unknown, words};
use crate::part::Part;
use crate::tree::{first_not_whole, word_in};
use crate::typed::Typed;
use serde_json::Value;
use sgt_format::items;
use sgt_model::{LAST_TABLE, LEAST, MOST};
use sgt_proc::MOST_ARGUMENTS;

/// The words with which a line of a script starts.
const LINES: &str =
    "a line starts with start, step, commit, quit (abort), begin, read, write, remove or cut; before the first of these, with record";

/// The words with which a line of a bank starts.
const JOBS: &str =
    "a job is [\"job\",procedure,[argument,..]]; before the first job, a line may start with record";

/// What is said of a job in a script.
const A_JOB: &str =
    "a job stands in the input of \"sgt script\", which takes events: [\"start\",procedure,[argument,..]]";

/// What is said of an event in a bank.
const AN_EVENT: &str =
    "an event stands in the input of \"sgt bank\", which takes jobs: [\"job\",procedure,[argument,..]]";

/// What is said of an opening after line 1.
const FIRST_LINE: &str = "an object with limits stands in line 1 alone: leave it out here";

/// What is said of a procedure that is named by a text.
const BY_NUMBER: &str =
    ": a procedure is named by its number, and those of line 1 are numbered from 5";

/// What made a record that is there already.
const MADE_BEFORE: &str =
    "an account of line 1 or a record line before makes it; where records follow, line 1 may have \"accounts\":[]";

/// Why a tree is no event of a script, or no job of a bank.
pub(crate) fn request_fault(typed: Typed<'_>, command: Command, tree: &Value) -> Message {
    let is_script = matches!(command, Command::Script);
    let Some(word) = word_in(tree) else {
        if tree.get("limits").is_some() {
            return words(typed, FIRST_LINE);
        }
        let wanted = if is_script {
            "an event, as [\"step\",0]"
        } else {
            "a job, as [\"job\",0,[1]]"
        };
        return unexpected(typed, wanted, tree);
    };
    let Some(parts) = parts_after(word) else {
        return unknown(typed, word, if is_script { LINES } else { JOBS });
    };
    if word == "record" && numbers(tree).is_some() {
        let first = if is_script { "event or cut" } else { "job" };
        return Ok(Some(format!(in typed.alloc; "records stand before the first {first}")?));
    }
    if word != "record" && is_script == (word == "job") {
        return words(typed, if is_script { A_JOB } else { AN_EVENT });
    }
    parts_fault(typed, word, parts, tree)
}

// What follows this word, if it is that of a request.
fn parts_after(word: &str) -> Option<&'static [Part]> {
    use Part::{Called, Given, Number, Table, Transaction};
    match word {
        "start" | "job" => Some(&[Called, Given]),
        "step" | "commit" | "quit" => Some(&[Transaction]),
        "begin" | "cut" => Some(&[]),
        "read" | "remove" => Some(&[Transaction, Table, Number]),
        "write" => Some(&[Transaction, Table, Number, Part::Value]),
        "record" => Some(&[Table, Number, Part::Value]),
        _ => None,
    }
}

// Why a list is no request of this word with these parts after it: its form, or the first part that is wrong.
fn parts_fault(typed: Typed<'_>, word: &str, parts: &[Part], tree: &Value) -> Message {
    let given = items(tree).unwrap_or(&[]);
    if given.len() != parts.len().saturating_add(1) {
        return unexpected(typed, Part::form(typed.alloc, word, parts)?.as_str(), tree);
    }
    for (part, (position, item)) in parts.iter().zip(given.iter().enumerate().skip(1)) {
        let fault = part_fault(typed, *part, position as u64, item)?;
        if fault.is_some() {
            return Ok(fault);
        }
    }
    Ok(None)
}

// The error in the part at this position of a request.
fn part_fault(typed: Typed<'_>, part: Part, position: u64, tree: &Value) -> Message {
    let (first, last) = match part {
        Part::Transaction => (0, i64::from(u32::MAX)),
        Part::Called => (0, i64::from(u16::MAX)),
        Part::Table => (0, i64::from(LAST_TABLE)),
        Part::Number => (LEAST, MOST),
        Part::Given => return arguments_fault(typed, position, tree),
        _ => (i64::MIN, i64::MAX),
    };
    let number = tree.as_i64();
    if number.is_some_and(|number| first <= number && number <= last) {
        return Ok(None);
    }
    let hint = if part == Part::Called && tree.is_string() {
        BY_NUMBER
    } else {
        ""
    };
    let text = expected(typed, part.words(), tree)?;
    typed.placed(None, &[position], format!(in typed.alloc; "{text}{hint}")?)
}

// The error in the arguments of a call, which stand at this position. They are numbered from 0.
fn arguments_fault(typed: Typed<'_>, position: u64, tree: &Value) -> Message {
    let Some(arguments) = items(tree) else {
        let text = expected(typed, Part::Given.words(), tree)?;
        return typed.placed(None, &[position], text);
    };
    let count = arguments.len();
    if count > usize::from(MOST_ARGUMENTS) {
        let text = format!(in typed.alloc;
            "{count} arguments are given, and at most {MOST_ARGUMENTS} may be"
        )?;
        return typed.placed(None, &[position], text);
    }
    let Some((number, argument)) = first_not_whole(arguments) else {
        return Ok(None);
    };
    let found = excerpt(typed, argument)?;
    let text = format!(in typed.alloc;
        "expected a whole number of at most 15 digits as argument {number}, found {found}"
    )?;
    typed.placed(None, &[position, number as u64], text)
}

/// Why a record line adds no record: the first of its numbers that is out of range, else that the record exists already.
/// None if a tree does not have its form.
pub(crate) fn record_fault(typed: Typed<'_>, tree: &Value) -> Message {
    let Some((table, number, value)) = numbers(tree) else {
        return Ok(None);
    };
    let ranges = [
        (1, "table", table, 0, i64::from(LAST_TABLE)),
        (2, "number", number, LEAST, MOST),
        (3, "value", value, LEAST, MOST),
    ];
    for (position, name, given, first, last) in ranges {
        if given < first || last < given {
            let text = format!(in typed.alloc;
                "the {name} is {given}, and has to be from {first} to {last}"
            )?;
            return typed.placed(None, &[position], text);
        }
    }
    Ok(Some(format!(in typed.alloc; "record {table}/{number} is there already: {MADE_BEFORE}")?))
}

// The table, the number and the value of a list of a word and three whole numbers, in or out of range.
fn numbers(tree: &Value) -> Option<(i64, i64, i64)> {
    match items(tree)? {
        [_, table, number, value] => Some((table.as_i64()?, number.as_i64()?, value.as_i64()?)),
        _ => None,
    }
}
