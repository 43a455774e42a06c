//! Where the brackets of an input do not match: in JSON, or in EDN as it was typed.
use crate::hint::Hint;
use sgt_model::NoMemory;
use std::alloc::Global;

/// Where an input stops being JSON or EDN, and a hint. Lines, columns and entries are counted from 1, and columns in bytes.
#[derive(Drop)]
pub(crate) struct NoJson {
    pub line: u64,
    pub column: usize,
    pub entry: usize,
    pub hint: Option<Hint>,
}

/// A position in an input: its line and its column.
#[derive(Clone, Copy)]
struct Spot {
    line: u64,
    column: usize,
}

/// A bracket, or the quote of a text.
#[derive(Clone, Copy)]
struct Bracket {
    byte: u8,
    spot: Spot,
}

/// The first break of the input, if it is not after this index.
pub(crate) fn first_break(
    alloc: Global,
    input: &[u8],
    is_edn: bool,
    last: usize,
) -> Result<Option<NoJson>, NoMemory> {
    let mut scan = Scan {
        is_edn,
        open: Vec::new(alloc),
        part: Part::Plain,
        line: 1,
        start: 0,
        is_blank: true,
        end: Spot { line: 1, column: 1 },
        entries: 0,
    };
    for (at, byte) in input.iter().enumerate() {
        if at > last {
            return Ok(None);
        }
        let found = scan.take(at, *byte)?;
        if found.is_some() {
            return Ok(found);
        }
    }
    if last < input.len() {
        return Ok(None);
    }
    Ok(scan.end())
}

/// What a scan is in.
#[derive(Clone, Copy)]
enum Part {
    /// No text, comment or character.
    Plain,
    Text,
    /// A text whose next byte belongs to it, whatever it is.
    Escape,
    /// A comment of EDN.
    Comment,
    /// A character of EDN, after its backslash.
    Character,
}

/// A scan of an input.
#[derive(Drop)]
struct Scan {
    is_edn: bool,
    /// The brackets that are open, but for those around entries.
    open: Vec<Bracket>,
    part: Part,
    /// The line, from 1, and the index of its first byte.
    line: u64,
    start: usize,
    /// Whether the line has had only spaces so far.
    is_blank: bool,
    /// The position after the last byte that is no white space.
    end: Spot,
    /// How many entries have begun.
    entries: usize,
}

impl Scan {
    /// Takes the next byte, and returns what is wrong with it.
    fn take(&mut self, at: usize, byte: u8) -> Result<Option<NoJson>, NoMemory> {
        let spot = Spot {
            line: self.line,
            column: at.saturating_sub(self.start).saturating_add(1),
        };
        let found = self.take_part(spot, byte)?;
        if byte == b'\n' {
            self.line = self.line.saturating_add(1);
            self.start = at.saturating_add(1);
            self.is_blank = true;
        } else if !is_space(byte) {
            self.is_blank = false;
            self.end = Spot {
                line: spot.line,
                column: spot.column.saturating_add(1),
            };
        }
        Ok(found)
    }

    /// Takes the next byte as what it is part of.
    fn take_part(&mut self, spot: Spot, byte: u8) -> Result<Option<NoJson>, NoMemory> {
        match self.part {
            Part::Plain => return self.take_plain(spot, byte),
            Part::Text => return Ok(self.take_text(spot, byte)),
            Part::Escape => self.part = Part::Text,
            Part::Comment => if byte == b'\n' {
                self.part = Part::Plain;
            },
            Part::Character => self.part = Part::Plain,
        }
        Ok(None)
    }

    /// Takes the next byte, which is in no text.
    fn take_plain(&mut self, spot: Spot, byte: u8) -> Result<Option<NoJson>, NoMemory> {
        match byte {
            b'"' => {
                self.part = Part::Text;
                self.open.push(Bracket { byte, spot })?;
            }
            b'{' => return self.take_brace(spot),
            b'[' | b'(' => if !self.open.is_empty() {
                self.open.push(Bracket { byte, spot })?;
            },
            b'}' | b']' | b')' => return Ok(self.close(spot, byte)),
            b';' if self.is_edn => self.part = Part::Comment,
            b'\\' if self.is_edn => self.part = Part::Character,
            _ => (),
        }
        Ok(None)
    }

    /// Takes an opening brace. It is wrong if it begins another entry inside of one: it is the first byte of its line, and
    /// not further to the right than the brace of the entry.
    fn take_brace(&mut self, spot: Spot) -> Result<Option<NoJson>, NoMemory> {
        match self.open.first() {
            Some(entry) => if self.is_blank && spot.column <= entry.spot.column {
                return Ok(self.found(self.end, Hint::Line(self.entries, spot.line)));
            },
            None => self.entries = self.entries.saturating_add(1),
        }
        self.open.push(Bracket { byte: b'{', spot })?;
        Ok(None)
    }

    /// Takes the next byte of a text. In JSON a line may not end there.
    fn take_text(&mut self, spot: Spot, byte: u8) -> Option<NoJson> {
        match byte {
            b'"' => {
                self.part = Part::Plain;
                self.open.pop();
            }
            b'\\' => self.part = Part::Escape,
            b'\n' if !self.is_edn => if let Some(quote) = self.open.last() {
                return self.found(spot, Hint::Text(quote.spot.column));
            },
            _ => (),
        }
        None
    }

    /// Takes a closing bracket. One that closes nothing is an entry by itself.
    fn close(&mut self, spot: Spot, byte: u8) -> Option<NoJson> {
        match self.open.last().copied() {
            Some(open) if closer(open.byte) == byte => {
                self.open.pop();
                None
            }
            Some(open) => self.found(
                spot,
                Hint::Mismatch(
                    bracket_name(byte),
                    bracket_name(open.byte),
                    open.spot.line,
                    open.spot.column,
                ),
            ),
            None if byte != b'}' => None,
            None => {
                self.entries = self.entries.saturating_add(1);
                self.found(spot, Hint::Stray(bracket_name(byte)))
            }
        }
    }

    /// What is wrong at the end of the input.
    fn end(&self) -> Option<NoJson> {
        let entry = self.open.first()?;
        self.found(self.end, Hint::Input(self.entries, entry.spot.line))
    }

    /// A break of the last entry.
    fn found(&self, spot: Spot, hint: Hint) -> Option<NoJson> {
        Some(NoJson {
            line: spot.line,
            column: spot.column,
            entry: self.entries,
            hint: Some(hint),
        })
    }
}

/// Whether the byte is white space.
fn is_space(byte: u8) -> bool {
    matches!(byte, b' ' | b'\t' | b'\r' | b'\n')
}

/// The bracket that closes this one.
fn closer(byte: u8) -> u8 {
    match byte {
        b'{' => b'}',
        b'[' => b']',
        _ => b')',
    }
}

/// A bracket as a text.
fn bracket_name(byte: u8) -> &'static str {
    match byte {
        b'{' => "{",
        b'}' => "}",
        b'[' => "[",
        b']' => "]",
        b'(' => "(",
        _ => ")",
    }
}
