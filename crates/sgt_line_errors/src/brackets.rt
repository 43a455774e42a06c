//! Where a bracket does not end what is open, and where one is missing or too many in the procedures of line 1.
use crate::excerpt::shortened;
use crate::message::Message;
use crate::part::{PROCEDURE, Part};
use crate::typed::{Follower, Typed};
use sgt_model::NoMemory;
use sgt_smallbank::PROCEDURES;
use std::alloc::Global;

/// The member of line 1 that has the procedures.
const MEMBER: &[u8] = b"\"procedures\"";

/// A list that is open, and the column where the innermost statement begins that it is or is in, if there is one.
#[derive(Clone, Copy)]
struct OpenList {
    rest: Open,
    statement: Option<usize>,
}

/// What may come next in an open list.
#[derive(Clone, Copy)]
enum Open {
    /// Each of its items is this.
    Each(Part),
    /// Its word comes next. It is this.
    Word(Part),
    /// These parts come next, and then its end.
    Rest(&'static [Part]),
    /// It starts with an unknown word, so anything may follow.
    Any,
}

/// Follows the text of procedures.
#[derive(Drop)]
struct Procedures {
    /// The lists that are open, the innermost last.
    open: Vec<OpenList>,
    /// The number of the newest procedure, or the one before that of the first one.
    procedure: u64,
    /// The column where it begins, or 0 before the first.
    first: usize,
    /// The column where its newest statement with a word begins, if it has one.
    newest: Option<usize>,
}

/// The first bracket or brace that ends no list or object, or not the one that is open.
pub(crate) fn wrong_end(alloc: Global, text: &[u8]) -> Result<Option<u8>, NoMemory> {
    let mut follower = Follower::new();
    let mut ends = Vec::new(alloc);
    for byte in text {
        let is_in_string = follower.is_in_string;
        follower.follow(*byte);
        match byte {
            _ if is_in_string => (),
            b'[' => ends.push(b']')?,
            b'{' => ends.push(b'}')?,
            b']' | b'}' => if ends.pop() != Some(*byte) {
                return Ok(Some(*byte));
            },
            _ => (),
        }
    }
    Ok(None)
}

/// Where the list of procedures departs from its form in this text, which starts as line 1 does. None if it does not,
/// or departs before the first procedure.
pub(crate) fn departure(typed: Typed<'_>, text: &[u8]) -> Message {
    let Some(start) = list_start(text) else {
        return Ok(None);
    };
    let mut follower = Follower::new();
    let mut procedures = Procedures::new(typed.alloc)?;
    for at in start..text.len() {
        let was_in_string = follower.is_in_string;
        let begins = follower.follow(text[at]);
        if was_in_string || !begins && !matches!(text[at], b'"' | b']' | b'}') {
            continue;
        }
        if let Some(wanted) = procedures.take(at, &text[at..])? {
            return procedures.departure(typed, at, wanted);
        }
        if procedures.open.is_empty() {
            return procedures.departure_after(typed, text, at);
        }
    }
    Ok(None)
}

// The index after the bracket with which the list of procedures starts.
fn list_start(text: &[u8]) -> Option<usize> {
    let at = text.windows(MEMBER.len()).position(|part| part == MEMBER)?;
    let rest = text.get(at.saturating_add(MEMBER.len())..)?;
    let is_between = |byte: &u8| matches!(byte, b' ' | b'\t' | b'\r' | b':');
    let start = rest.iter().position(|byte| !is_between(byte))?;
    let items = rest.get(start..)?.strip_prefix(b"[")?;
    Some(text.len().saturating_sub(items.len()))
}

impl Procedures {
    /// At the start of the list of procedures.
    fn new(alloc: Global) -> Result<Self, NoMemory> {
        let mut open = Vec::new(alloc);
        open.push(OpenList {
            rest: Open::Each(Part::Procedure),
            statement: None,
        })?;
        Ok(Procedures {
            open,
            procedure: u64::from(PROCEDURES - 1),
            first: 0,
            newest: None,
        })
    }

    // Takes the bracket, brace, text or number at this index, with which this text starts. If it may not stand there,
    // returns what has to.
    fn take(&mut self, at: usize, text: &[u8]) -> Result<Option<&'static str>, NoMemory> {
        let Some(top) = self.open.last_mut() else {
            return Ok(Some("]"));
        };
        let list = *top;
        let Some(rest) = after(list.rest, text) else {
            return Ok(Some(wanted(list.rest, text)));
        };
        top.rest = rest;
        match (list.rest, text) {
            (Open::Each(Part::Procedure), [b'[', ..]) => {
                self.procedure = self.procedure.saturating_add(1);
                self.first = at.saturating_add(1);
                self.newest = None;
            }
            (Open::Word(Part::Statement), [b'"', ..]) => self.newest = list.statement,
            _ => (),
        }
        match text {
            [b'[', ..] => self.open.push(opened(list, at.saturating_add(1)))?,
            [b']', ..] => drop(self.open.pop()),
            _ => (),
        }
        Ok(None)
    }

    // The departure after the list of procedures, which ends at this index of the text: another procedure or the end
    // of a list comes after it.
    fn departure_after(&self, typed: Typed<'_>, text: &[u8], end: usize) -> Message {
        let rest = text.get(end.saturating_add(1)..).unwrap_or(b"");
        let rest = rest.trim_ascii_start();
        match rest {
            [b']', ..] => {
                let at = text.len().saturating_sub(rest.len());
                self.departure(typed, at, "} or a comma")
            }
            [b',', next @ ..] if next.trim_ascii_start().starts_with(b"[") => {
                self.departure(typed, end, "a comma")
            }
            _ => Ok(None),
        }
    }

    // The departure at this index, where something else is wanted, if it is not before the first procedure.
    fn departure(&self, typed: Typed<'_>, at: usize, wanted: &str) -> Message {
        let (procedure, first) = (self.procedure, self.first);
        if first == 0 {
            return Ok(None);
        }
        let open = self.open.iter().rev().find_map(|list| match list.rest {
            Open::Word(_) => None,
            _ => list.statement,
        });
        let within = if open.is_some() { "in" } else { "in or after" };
        let whose = match open.or(self.newest) {
            Some(column) => {
                let shown = beginning(typed, column, at)?;
                format!(in typed.alloc; "{within} {shown} at column {column}, a statement of")?
            }
            None => format!(in typed.alloc; "in")?,
        };
        let column = at.saturating_add(1);
        Ok(Some(format!(in typed.alloc;
            "column {column}: {wanted} is expected here: a bracket is missing or too many {whose} procedure {procedure}, which begins at column {first}"
        )?))
    }
}

// What stands from this column to this index, shortened and without a comma at its end.
fn beginning(typed: Typed<'_>, column: usize, end: usize) -> Result<String, NoMemory> {
    let part = typed.part(column.saturating_sub(1), end).trim_ascii_end();
    let part = part.strip_suffix(b",").unwrap_or(part);
    shortened(typed.alloc, str::from_utf8(part).unwrap_or(""))
}

// What is left of an open list after what this text starts with; at its end, anything. None if that may not stand
// there.
fn after(open: Open, text: &[u8]) -> Option<Open> {
    match (open, text) {
        (_, [b'{' | b'}', ..]) => None,
        (Open::Any, _) | (Open::Each(_) | Open::Rest([]), [b']', ..]) => Some(Open::Any),
        (Open::Word(part), [b'"', text @ ..]) => Some(after_word(part, text)),
        (Open::Each(part), [b'[', ..]) => Some(Open::Each(part)),
        (Open::Rest([part, parts @ ..]), [b'[', ..]) if part.is_list() => Some(Open::Rest(parts)),
        (Open::Rest([part, parts @ ..]), [b'-' | b'0'..=b'9', ..])
            if !part.is_list() || *part == Part::Expression => Some(Open::Rest(parts)),
        _ => None,
    }
}

// What comes after the word of a list, with which this text starts.
fn after_word(part: Part, text: &[u8]) -> Open {
    let word = text.split(|byte| *byte == b'"').next().unwrap_or(b"");
    match part.following(str::from_utf8(word).unwrap_or("")) {
        Some(parts) => Open::Rest(parts),
        None => Open::Any,
    }
}

// The list that the bracket at this column opens in this one.
fn opened(list: OpenList, column: usize) -> OpenList {
    let part = match list.rest {
        Open::Each(part) => Some(part),
        Open::Rest(parts) => parts.first().copied(),
        Open::Word(_) | Open::Any => None,
    };
    let rest = match part {
        Some(Part::Procedure) => Open::Rest(PROCEDURE),
        Some(Part::Block) => Open::Each(Part::Statement),
        Some(part) => Open::Word(part),
        None => Open::Any,
    };
    let statement = match part {
        Some(Part::Statement) => Some(column),
        _ => list.statement,
    };
    OpenList { rest, statement }
}

// What has to come next in an open list, in place of what this text starts with.
fn wanted(open: Open, text: &[u8]) -> &'static str {
    match (open, text) {
        (Open::Each(_), [b'{' | b'}', ..]) | (Open::Rest([]), _) => "]",
        (Open::Each(part), _) => part.words(),
        (Open::Rest([part, ..]), _) => part.words(),
        (Open::Word(_) | Open::Any, _) => "a word",
    }
}
