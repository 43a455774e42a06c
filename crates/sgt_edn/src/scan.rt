//! The scan of a text in EDN.
ghost use Rattle.std.specs.Prelude.{◌≡◌, ◌++◌, List, IfOk, OnOk};
ghost use Rattle.sgt_edn.specs.declared.scan.Mode.TheVariants as mode;
ghost use Rattle.sgt_edn.specs.Scans.{outside, in_mode, turned, counted, separator, opened, open_text, closed, close_text, after_free, free_token, free_text, after_hash, hash_token, hash_text, after_in, token_in, text_in, end_text, json_of_edn};

use crate::bytes::{is_close, is_end, is_open, is_space};
use crate::token::append_token;
use sgt_model::NoMemory;
use std::alloc::Global;

/// What a scan is in.
#[derive(Clone, Copy)]
pub(crate) enum Mode {
    /// Nothing.
    Between,
    /// A token.
    Token,
    /// A token whose next byte belongs to it, whatever it is.
    Literal,
    /// A string.
    Text,
    /// A string whose next byte belongs to it, whatever it is.
    Escape,
    /// A comment.
    Comment,
    /// After a hash.
    Hash,
    /// A tag.
    Tag,
}

/// How far a scan is.
#[derive(Clone, Copy)]
pub(crate) struct Scan {
    pub mode: Mode,
    /// How many collections are open, the outer map among them.
    depth: usize,
    /// Whether the next item of the outer map is a value, not a key.
    is_value: bool,
    /// Whether the collection that was opened last has no item yet.
    is_first: bool,
}

impl Scan {
    /// Before the first byte of a text.
    pub(crate) fn start() -> Scan
        ensures { result ≡ outside }
    {
        Scan {
            mode: Mode::Between,
            depth: 0,
            is_value: false,
            is_first: true,
        }
    }

    /// The same in another mode.
    fn in_mode(self, mode: Mode) -> Scan
        ensures { result ≡ in_mode mode self }
    {
        Scan { mode, ..self }
    }

    /// Whether the next item of the outer map is a value, after one more item of what is open.
    fn turned(self) -> bool
        ensures { result ≡ turned self }
    {
        if self.depth == 1 {
            !self.is_value
        } else {
            self.is_value
        }
    }

    /// After an item, in this mode.
    fn counted(self, mode: Mode) -> Scan
        ensures { result ≡ counted mode self }
    {
        Scan {
            mode,
            is_value: self.turned(),
            is_first: false,
            ..self
        }
    }

    /// After a byte that opens a collection.
    fn opened(self, byte: u8) -> Scan
        ensures { result ≡ opened self byte }
    {
        if self.depth == 0 && byte != b'{' {
            return self.in_mode(Mode::Between);
        }
        Scan {
            mode: Mode::Between,
            depth: self.depth.saturating_add(1),
            is_value: self.depth > 0 && self.turned(),
            is_first: true,
        }
    }

    /// After a byte that closes a collection.
    fn closed(self) -> Scan
        ensures { result ≡ closed self }
    {
        Scan {
            mode: Mode::Between,
            depth: self.depth.saturating_sub(1),
            is_value: self.is_value,
            is_first: false,
        }
    }

    /// After a byte that is in no token, string or comment.
    fn after_free(self, byte: u8) -> Scan
        ensures { result ≡ after_free self byte }
    {
        if is_space(byte) || byte == b',' {
            self.in_mode(Mode::Between)
        } else if byte == b';' {
            self.in_mode(Mode::Comment)
        } else if byte == b'"' {
            self.counted(Mode::Text)
        } else if byte == b'#' {
            self.in_mode(Mode::Hash)
        } else if is_open(byte) {
            self.opened(byte)
        } else if is_close(byte) {
            self.closed()
        } else if byte == b'\\' {
            self.in_mode(Mode::Literal)
        } else {
            self.in_mode(Mode::Token)
        }
    }

    /// After the byte that follows a hash.
    fn after_hash(self, byte: u8) -> Scan
        ensures { result ≡ after_hash self byte }
    {
        if byte == b'#' {
            self.in_mode(Mode::Token)
        } else if byte == b'_' {
            self.in_mode(Mode::Between)
        } else if is_end(byte) {
            self.after_free(byte)
        } else {
            self.in_mode(Mode::Tag)
        }
    }

    /// After one more byte.
    pub(crate) fn after(self, byte: u8) -> Scan
        ensures { result ≡ after_in self.mode self byte }
    {
        match self.mode {
            Mode::Between => self.after_free(byte),
            Mode::Token if is_end(byte) => self.counted(Mode::Between).after_free(byte),
            Mode::Literal => self.in_mode(Mode::Token),
            Mode::Text if byte == b'"' => self.in_mode(Mode::Between),
            Mode::Text if byte == b'\\' => self.in_mode(Mode::Escape),
            Mode::Escape => self.in_mode(Mode::Text),
            Mode::Comment if byte == b'\n' => self.in_mode(Mode::Between),
            Mode::Hash => self.after_hash(byte),
            Mode::Tag if is_end(byte) => self.after_free(byte),
            Mode::Token | Mode::Text | Mode::Comment | Mode::Tag => self,
        }
    }
}

/// The text in JSON of a text in EDN.
///
/// # Errors
///
/// `NoMemory` if an allocation failed.
pub fn json_of_edn(alloc: Global, text: &[u8]) -> Result<Vec<u8>, NoMemory>
    ensures { IfOk result (λ json. json.items ≡ json_of_edn text.now) }
{
    let mut json = Vec::with_capacity(alloc, text.len())?;
    let mut token = Vec::new(alloc);
    let mut scan = Scan::start();
    for byte in text {
        append_one(&mut json, scan, token.as_slice(), *byte)?;
        note(&mut token, scan.mode, *byte)?;
        scan = scan.after(*byte);
    }
    append_end(&mut json, scan, token.as_slice())?;
    Ok(json)
}

/// Appends the text of one more byte.
pub(crate) fn append_one(
    json: &mut Vec<u8>,
    scan: Scan,
    token: &[u8],
    byte: u8,
) -> Result<(), NoMemory>
    ensures { OnOk result (json.new.items ≡ json.old.items ++ text_in scan.mode scan token.now byte) }
{
    match scan.mode {
        Mode::Between => append_free(json, scan, byte)?,
        Mode::Token if is_end(byte) => {
            append_separator(json, scan)?;
            append_token(json, token)?;
            append_free(json, scan.counted(Mode::Between), byte)?;
        }
        Mode::Text | Mode::Escape => json.push(byte)?,
        Mode::Comment if byte == b'\n' => json.push(byte)?,
        Mode::Hash => append_hash(json, scan, byte)?,
        Mode::Tag if is_end(byte) => append_free(json, scan, byte)?,
        Mode::Token | Mode::Literal | Mode::Comment | Mode::Tag => (),
    }
    Ok(())
}

/// Appends the text of a token that is open at the end.
fn append_end(json: &mut Vec<u8>, scan: Scan, token: &[u8]) -> Result<(), NoMemory>
    ensures { OnOk result (json.new.items ≡ json.old.items ++ end_text scan.mode scan token.now) }
{
    match scan.mode {
        Mode::Token | Mode::Literal => {
            append_separator(json, scan)?;
            append_token(json, token)?;
        }
        Mode::Between | Mode::Text | Mode::Escape | Mode::Comment | Mode::Hash | Mode::Tag => (),
    }
    Ok(())
}

/// Appends what stands before an item.
fn append_separator(json: &mut Vec<u8>, scan: Scan) -> Result<(), NoMemory>
    ensures { OnOk result (json.new.items ≡ json.old.items ++ separator scan) }
{
    if scan.depth == 0 || scan.is_first {
        return Ok(());
    }
    if scan.depth == 1 && scan.is_value {
        json.extend_from_slice(b":")?;
    } else {
        json.extend_from_slice(b",")?;
    }
    Ok(())
}

/// Appends the text of a byte that opens a collection.
fn append_open(json: &mut Vec<u8>, scan: Scan, byte: u8) -> Result<(), NoMemory>
    ensures { OnOk result (json.new.items ≡ json.old.items ++ open_text scan byte) }
{
    append_separator(json, scan)?;
    let text: &[u8] = match (scan.depth, byte) {
        (0, b'{') => b"{",
        (0, _) => b" ",
        (_, b'{') => b"{\"\":{\"\":[",
        (_, _) => b"[",
    };
    json.extend_from_slice(text)?;
    Ok(())
}

/// Appends the text of a byte that closes a collection.
fn append_close(json: &mut Vec<u8>, scan: Scan, byte: u8) -> Result<(), NoMemory>
    ensures { OnOk result (json.new.items ≡ json.old.items ++ close_text scan byte) }
{
    let text: &[u8] = match (scan.depth, byte) {
        (0, b'}') => b"#",
        (0, _) => b" ",
        (1, b'}') => b"}",
        (_, b'}') => b"]}}",
        (_, _) => b"]",
    };
    json.extend_from_slice(text)?;
    Ok(())
}

/// Appends the text of a byte that is in no token, string or comment.
fn append_free(json: &mut Vec<u8>, scan: Scan, byte: u8) -> Result<(), NoMemory>
    ensures { OnOk result (json.new.items ≡ json.old.items ++ free_text scan byte) }
{
    if is_space(byte) {
        json.push(byte)?;
    } else if byte == b',' {
        json.extend_from_slice(b" ")?;
    } else if byte == b'"' {
        append_separator(json, scan)?;
        json.extend_from_slice(b"\"")?;
    } else if is_open(byte) {
        append_open(json, scan, byte)?;
    } else if is_close(byte) {
        append_close(json, scan, byte)?;
    }
    Ok(())
}

/// Appends the text of the byte that follows a hash.
fn append_hash(json: &mut Vec<u8>, scan: Scan, byte: u8) -> Result<(), NoMemory>
    ensures { OnOk result (json.new.items ≡ json.old.items ++ hash_text scan byte) }
{
    if byte == b'_' {
        json.extend_from_slice(b"#")?;
    } else if byte == b'{' && scan.depth == 0 {
        json.extend_from_slice(b"#{")?;
    } else if is_end(byte) {
        append_free(json, scan, byte)?;
    }
    Ok(())
}

/// Adds one more byte to the token, or ends it.
pub(crate) fn note(token: &mut Vec<u8>, mode: Mode, byte: u8) -> Result<(), NoMemory>
    ensures { OnOk result (token.new.items ≡ token_in mode token.old.items byte) }
{
    match mode {
        Mode::Between => start_token(token, byte)?,
        Mode::Token if is_end(byte) => token.clear(),
        Mode::Token | Mode::Literal => token.push(byte)?,
        Mode::Hash => start_number(token, byte)?,
        Mode::Text | Mode::Escape | Mode::Comment | Mode::Tag => (),
    }
    Ok(())
}

/// Starts a token, if the byte, which is in none, does.
fn start_token(token: &mut Vec<u8>, byte: u8) -> Result<(), NoMemory>
    ensures { OnOk result (token.new.items ≡ free_token byte) }
{
    token.clear();
    if !is_end(byte) && byte != b'#' {
        token.push(byte)?;
    }
    Ok(())
}

/// Starts a number like ##Inf, if the byte that follows a hash does.
fn start_number(token: &mut Vec<u8>, byte: u8) -> Result<(), NoMemory>
    ensures { OnOk result (token.new.items ≡ hash_token byte) }
{
    token.clear();
    if byte == b'#' {
        token.extend_from_slice(b"##")?;
    }
    Ok(())
}
