//! The file of `--words`: what codes mean.

use crate::codes::{OVERFLOW, codes_of, number};
use crate::failure::{Detail, explained};
use crate::input::{FileFault, FileFlaw, open_file};
use serde_json::Value;
use sgt_check::{CheckFault, read_input};
use sgt_explain::Words;
use sgt_format::{items, read_tree};
use sgt_input::{Fault, Reader};
use sgt_line_errors::Command;
use sgt_model::NoMemory;
use sgt_notation::Shown;
use std::alloc::Global;
use std::cmp::Reverse;
use std::fmt::{self, Display, Formatter};
use std::rt::Files;

/// The name of the option that names the file.
pub(crate) const WORDS: &str = "words";

/// The most bytes that the file may have.
const MOST_BYTES: usize = 65_536;

/// The most bytes of what is said of one code.
const LONGEST: usize = 200;

/// Why a file of words is not read, and what is said about it.
type Refusal = (FileFlaw, Detail);

/// A line that gives a code words.
#[derive(Clone, Copy)]
struct Named {
    line: usize,
    procedure: u16,
    code: u16,
}

/// The words of a run, which a file may have given.
#[derive(Drop)]
pub(crate) struct GivenWords<'a> {
    pub words: Words,
    /// The name of the file.
    name: &'a str,
    /// The codes that the file names, in the order of its lines.
    named: Vec<Named>,
}

/// Words of a file that a run never says.
#[derive(Drop)]
pub(crate) struct Unsaid<'a> {
    name: &'a str,
    named: Named,
    /// The codes of the procedure. None if it is not there.
    codes: Option<Vec<u16>>,
}

impl Display for Unsaid<'_> {
    fn fmt<W: fmt::Write>(&self, f: &mut Formatter<W>) -> fmt::Result {
        let Named {
            line,
            procedure,
            code,
        } = self.named;
        f.write_str(self.name)?;
        let Some(codes) = &self.codes else {
            return write!(f, ": line {line}: there is no procedure {procedure}");
        };
        write!(
            f,
            ": line {line}: procedure {procedure} never aborts with code {code}"
        )?;
        write_codes(f, codes.as_slice())
    }
}

/// Writes these codes in ascending order, if there are any.
fn write_codes<W: fmt::Write>(f: &mut Formatter<W>, codes: &[u16]) -> fmt::Result {
    let mut before = "; its codes are ";
    for code in 1..OVERFLOW.saturating_add(1) {
        if codes.contains(&code) {
            write!(f, "{before}{code}")?;
            before = ", ";
        }
    }
    Ok(())
}

impl<'a> GivenWords<'a> {
    /// The first words of the file that a run with this line 1 never says: those of the highest procedure that is not
    /// there, else those of a code that its procedure does not have. None if memory ran out.
    pub(crate) fn unsaid(&self, alloc: Global, line: Option<&[u8]>) -> Option<Unsaid<'a>> {
        // The empty procedure, 65535, is always there: it comes first.
        let highest = self
            .named
            .iter()
            .min_by_key(|named| Reverse(named.procedure.wrapping_add(1)))?;
        let tree = read_tree(alloc, line?).ok()??;
        let procedures = items(tree.get("procedures")?)?;
        if codes_of(alloc, procedures, highest.procedure)
            .ok()?
            .is_none()
        {
            return Some(Unsaid {
                name: self.name,
                named: *highest,
                codes: None,
            });
        }
        for named in &self.named {
            let codes = codes_of(alloc, procedures, named.procedure).ok()??;
            if !codes.as_slice().contains(&named.code) {
                return Some(Unsaid {
                    name: self.name,
                    named: *named,
                    codes: Some(codes),
                });
            }
        }
        None
    }

    /// Adds the words of this line, which has this number. If it gives none, that is returned.
    fn add_line(
        &mut self,
        alloc: Global,
        line: usize,
        bytes: &[u8],
    ) -> Result<Option<Refusal>, NoMemory> {
        let Some(tree) = read_tree(alloc, bytes)? else {
            let why = explained(alloc, Command::Script, Some(bytes), &Fault::NotJson(2));
            return Ok(Some((FileFlaw::BadLine(line), Detail::from(why))));
        };
        let (procedure, code, said) = match meaning_in(alloc, &tree) {
            Ok(meaning) => meaning,
            Err(detail) => return Ok(Some((FileFlaw::BadLine(line), detail))),
        };
        if self.words.given(procedure, code).is_some() {
            return Ok(Some((FileFlaw::Twice(line, procedure, code), Detail::Nothing)));
        }
        self.words
            .add(procedure, code, String::from_str(alloc, said)?)?;
        self.named.push(Named {
            line,
            procedure,
            code,
        })?;
        Ok(None)
    }

    /// Adds the words of these lines. The last one may lack its newline.
    fn add_lines(&mut self, alloc: Global, text: &[u8]) -> Result<(), Refusal> {
        if text.len() > MOST_BYTES {
            return Err((FileFlaw::TooLong, Detail::Nothing));
        }
        if text.is_empty() {
            return Ok(());
        }
        let lines = text.strip_suffix(b"\n").unwrap_or(text);
        for (place, line) in lines.split(|byte| *byte == b'\n').enumerate() {
            match self.add_line(alloc, place.saturating_add(1), line) {
                Ok(None) => (),
                Ok(Some(refusal)) => return Err(refusal),
                Err(NoMemory) => return Err((FileFlaw::NoMemory, Detail::Nothing)),
            }
        }
        Ok(())
    }
}

/// The words of the program, and those of the file with this name, if there is one.
///
/// # Errors
///
/// A `FileFault` if the file cannot be read, or one of its lines gives no code words, and what is said about it.
pub(crate) fn read_words<'a, R: Files>(
    rt: &R,
    alloc: Global,
    name: Option<&'a str>,
) -> Result<GivenWords<'a>, (FileFault<'a>, Detail)> {
    let mut given = GivenWords {
        words: Words::new(alloc),
        name: name.unwrap_or(""),
        named: Vec::new(alloc),
    };
    let Some(name) = name else {
        return Ok(given);
    };
    let added = match text_of(rt, alloc, name) {
        Ok(text) => given.add_lines(alloc, text.as_slice()),
        Err(flaw) => Err((flaw, Detail::Nothing)),
    };
    match added {
        Ok(()) => Ok(given),
        Err((flaw, detail)) => Err((FileFault { name, flaw }, detail)),
    }
}

/// The bytes of the file with this name.
fn text_of<R: Files>(rt: &R, alloc: Global, name: &str) -> Result<Vec<u8>, FileFlaw> {
    let file = open_file(rt, name)?;
    match read_input(alloc, &mut Reader::new(file)) {
        Ok(text) => Ok(text),
        Err(CheckFault::TooLong) => Err(FileFlaw::TooLong),
        Err(CheckFault::NoMemory) => Err(FileFlaw::NoMemory),
        Err(_) => Err(FileFlaw::Reading),
    }
}

/// The procedure, the code and the words of a tree, or else what is wrong with it.
fn meaning_in(alloc: Global, tree: &Value) -> Result<(u16, u16, &str), Detail> {
    let Some([procedure, code, said]) = items(tree) else {
        return Err(found(alloc, "found ", tree));
    };
    let Some(numbered) = number(procedure) else {
        let words = "a procedure is a number from 0 to 65535, found ";
        return Err(found(alloc, words, procedure));
    };
    let Some(raised) = number(code) else {
        return Err(found(alloc, "a code is a number from 0 to 65535, found ", code));
    };
    let Some(text) = said.as_str() else {
        return Err(found(alloc, "the words are a text in double quotes, found ", said));
    };
    if text.is_empty() || text.len() > LONGEST {
        return Err(Detail::Words("the words are empty, or longer than 200 bytes"));
    }
    if text.as_bytes().iter().any(|byte| byte.is_ascii_control()) {
        return Err(Detail::Words("the words have a tab, a newline or another control character"));
    }
    Ok((numbered, raised, text))
}

/// These words, and the start of a tree.
fn found(alloc: Global, words: &str, tree: &Value) -> Detail {
    Detail::from(start_of(alloc, words, tree))
}

/// These words, and the start of a tree. None if memory ran out.
fn start_of(alloc: Global, words: &str, tree: &Value) -> Option<String> {
    let text = tree.to_string(alloc).ok()?;
    let shown = Shown::of(alloc, text.as_str().as_bytes()).ok()?;
    let rest = if text.as_str().len() > shown.text.len() {
        ".."
    } else {
        ""
    };
    format!(in alloc; "{words}{shown}{rest}").ok()
}
