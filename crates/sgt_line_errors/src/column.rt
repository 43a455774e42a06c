//! The column at which a part of a text in JSON begins.
use crate::message::Message;
use crate::typed::{Follower, Typed};

impl Typed<'_> {
    /// A message on a part of the tree, after the column at which the part begins. If columns are not shown, the
    /// message alone. The part stands at these positions, from 0: in the member of this name, else in the list that the
    /// tree is.
    pub(crate) fn placed(self, member: Option<&str>, positions: &[u64], text: String) -> Message {
        match self.column_of(member, positions) {
            Some(column) if self.shows_columns => Ok(Some(format!(in self.alloc;
                "column {column}: {text}"
            )?)),
            _ => Ok(Some(text)),
        }
    }

    // The column at which that part begins, in bytes from 1, if it is there.
    fn column_of(self, member: Option<&str>, positions: &[u64]) -> Option<usize> {
        let mut part = self.text.trim_ascii_start();
        if let Some(name) = member {
            part = member_in(part, name)?;
        }
        for position in positions {
            part = item_in(part, *position)?;
        }
        Some(self.text.len().saturating_sub(part.len()).saturating_add(1))
    }
}

// The text from the value of the last member of this name on, in the object with which it starts.
fn member_in<'a>(text: &'a [u8], name: &str) -> Option<&'a [u8]> {
    let mut follower = Follower::new();
    let mut found = None;
    for (at, byte) in text.iter().enumerate() {
        if follower.is_at_top() {
            found = value_of(&text[at..], name).or(found);
        }
        follower.follow(*byte);
    }
    found
}

// The text from the value on, if it starts with a member of this name.
fn value_of<'a>(text: &'a [u8], name: &str) -> Option<&'a [u8]> {
    let rest = text.strip_prefix(b"\"")?.strip_prefix(name.as_bytes())?;
    let rest = rest.strip_prefix(b"\"")?.trim_ascii_start();
    Some(rest.strip_prefix(b":")?.trim_ascii_start())
}

// The text from the item of this position on, in the list with which it starts.
fn item_in(text: &[u8], position: u64) -> Option<&[u8]> {
    let mut follower = Follower::new();
    let mut passed = 0u64;
    for (at, byte) in text.iter().enumerate() {
        if follower.is_at_top() {
            if passed == position && !byte.is_ascii_whitespace() {
                return Some(&text[at..]);
            }
            passed = passed.saturating_add(u64::from(*byte == b','));
        }
        follower.follow(*byte);
    }
    None
}
