//! The text that was typed, from which messages show parts.

use serde_json::Value;
use sgt_format::read_tree;
use sgt_model::NoMemory;
use std::alloc::Global;

/// The text in which an error was found, and memory for the message.
#[derive(Clone, Copy)]
pub(crate) struct Typed<'a> {
    pub alloc: Global,
    pub text: &'a [u8],
    /// Whether messages say at which column a part begins. A text that a program has made is seen by nobody.
    pub shows_columns: bool,
}

impl<'a> Typed<'a> {
    /// What stands between these indices of the text, or nothing if it is shorter.
    pub(crate) fn part(self, begin: usize, end: usize) -> &'a [u8] {
        self.text.get(begin..end).unwrap_or(b"")
    }

    /// The first part of the text that spells this tree, if one does. Only lists, objects and numbers are found.
    pub(crate) fn spelling(self, tree: &Value) -> Result<Option<&'a str>, NoMemory> {
        let wanted = tree.to_string(self.alloc)?;
        let mut follower = Follower::new();
        for (at, byte) in self.text.iter().enumerate() {
            let is_number = !matches!(byte, b'[' | b'{');
            if follower.follow(*byte) && is_number == tree.is_number() {
                let part = value_in(&self.text[at..], is_number);
                if let Some(found) = read_tree(self.alloc, part)? {
                    if found.to_string(self.alloc)?.as_str() == wanted.as_str() {
                        return Ok(str::from_utf8(part).ok());
                    }
                }
            }
        }
        Ok(None)
    }
}

/// Follows a text in JSON from byte to byte.
#[derive(Drop)]
pub(crate) struct Follower {
    /// Whether the last byte is in a string, and does not end it.
    pub is_in_string: bool,
    is_escaped: bool,
    is_in_number: bool,
    /// How many lists and objects are open.
    depth: u64,
}

impl Follower {
    /// Before the text.
    pub(crate) fn new() -> Self {
        Follower {
            is_in_string: false,
            is_escaped: false,
            is_in_number: false,
            depth: 0,
        }
    }

    /// Whether the last byte is in the outermost list or object alone, and in no string.
    pub(crate) fn is_at_top(&self) -> bool {
        self.depth == 1 && !self.is_in_string
    }

    /// Takes the next byte, and returns whether a list, an object or a number starts with it.
    pub(crate) fn follow(&mut self, byte: u8) -> bool {
        if self.is_in_string {
            self.is_in_string = self.is_escaped || byte != b'"';
            self.is_escaped = !self.is_escaped && byte == b'\\';
            return false;
        }
        let was_in_number = self.is_in_number;
        self.is_in_number = matches!(byte, b'-' | b'0'..=b'9')
            || was_in_number && matches!(byte, b'.' | b'e' | b'E' | b'+');
        match byte {
            b'"' => self.is_in_string = true,
            b'[' | b'{' => self.depth = self.depth.saturating_add(1),
            b']' | b'}' => self.depth = self.depth.saturating_sub(1),
            _ => (),
        }
        matches!(byte, b'[' | b'{') || self.is_in_number && !was_in_number
    }
}

// The number, or else the list or the object, with which the text starts.
fn value_in(text: &[u8], is_number: bool) -> &[u8] {
    let mut follower = Follower::new();
    for (index, byte) in text.iter().enumerate() {
        follower.follow(*byte);
        if is_number && !follower.is_in_number {
            return &text[..index];
        }
        if !is_number && follower.depth == 0 {
            return &text[..=index];
        }
    }
    text
}
