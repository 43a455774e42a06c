//! The objects of an input, one after another. Between them may stand white space, commas and brackets.
ghost use Rattle.std.specs.Prelude.{◌≡◌, ◌≢◌, ◌<◌, ◌≤◌, ◌+◌, ◌-◌, ◌^◌, length, take, drop, slice_index, true, false};
ghost use Rattle.sgt_clients.specs.Objects.{is_between, AreBetween, line_after, line_after_all, outside, after, after_brace, is_closed, IsObject};

/// A position in a text: the next byte, and its line from 1.
#[derive(Clone, Copy)]
pub(crate) struct Place {
    pub at: usize,
    pub line: u64,
}

/// Whether the byte may stand between two objects.
fn is_between(byte: u8) -> bool
    ensures { result ≡ is_between byte }
{
    matches!(byte, b' ' | b'\t' | b'\r' | b'\n' | b',' | b'[' | b']')
}

/// The line after the byte, if the byte is on this line.
fn line_after(line: u64, byte: u8) -> u64
    ensures { result ≡ line_after line byte }
{
    if byte == b'\n' {
        line.saturating_add(1)
    } else {
        line
    }
}

/// The next byte that does not stand between objects, or the end of the text.
pub(crate) fn next_object(text: &[u8], from: Place) -> Place
    requires { from.at ≤ length text.now }
    ensures onwards { from.at ≤ result.at }
    ensures bounds { result.at ≤ length text.now }
    ensures gap { AreBetween (take (result.at - from.at) (drop from.at text.now)) }
    ensures line { result.line ≡ line_after_all from.line (take (result.at - from.at) (drop from.at text.now)) }
    ensures starts { result.at < length text.now → is_between (slice_index text.now result.at) ≡ false }
{
    let mut place = from;
    while place.at < text.len() && is_between(text[place.at]) {
        place.line = line_after(place.line, text[place.at]);
        place.at += 1;
    }
    place
}

/// What a scan has passed of an object.
#[derive(Clone, Copy)]
struct Nesting {
    /// How many braces are open.
    depth: usize,
    /// Whether a string is open.
    in_string: bool,
    /// Whether the byte before was a backslash that escapes this one.
    escaped: bool,
}

impl Nesting {
    /// Whether nothing is open.
    fn is_closed(self) -> bool
        ensures { result ≡ is_closed self }
    {
        self.depth == 0 && !self.in_string
    }

    /// The same, after one more byte.
    fn after(self, byte: u8) -> Nesting
        requires { self.depth + 1 < 2 ^ 64 }
        ensures { result ≡ after self byte }
    {
        if self.escaped {
            return Nesting {
                escaped: false,
                ..self
            };
        }
        if byte == b'"' {
            return Nesting {
                in_string: !self.in_string,
                ..self
            };
        }
        if self.in_string {
            return Nesting {
                escaped: byte == b'\\',
                ..self
            };
        }
        self.after_brace(byte)
    }

    /// The same outside a string.
    fn after_brace(self, byte: u8) -> Nesting
        requires depth { self.depth + 1 < 2 ^ 64 }
        requires in_string { self.in_string ≡ false }
        requires escaped { self.escaped ≡ false }
        ensures { result ≡ after_brace self byte }
    {
        match byte {
            b'{' => Nesting {
                depth: self.depth + 1,
                ..self
            },
            b'}' => Nesting {
                depth: self.depth.saturating_sub(1),
                ..self
            },
            _ => self,
        }
    }
}

/// The end of the object that starts here: after the brace that closes it, or at the end of the text.
pub(crate) fn object_end(text: &[u8], from: Place) -> Place
    requires within { from.at < length text.now }
    requires starts { is_between (slice_index text.now from.at) ≡ false }
    ensures onwards { from.at < result.at }
    ensures bounds { result.at ≤ length text.now }
    ensures object { IsObject (take (result.at - from.at) (drop from.at text.now)) (drop result.at text.now) }
    ensures line { result.line ≡ line_after_all from.line (take (result.at - from.at) (drop from.at text.now)) }
{
    let mut place = from;
    let mut nesting = Nesting {
        depth: 0,
        in_string: false,
        escaped: false,
    };
    loop {
        nesting = nesting.after(text[place.at]);
        place.line = line_after(place.line, text[place.at]);
        place.at += 1;
        if place.at == text.len() || nesting.is_closed() {
            return place;
        }
    }
}
