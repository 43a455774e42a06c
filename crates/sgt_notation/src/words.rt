//! The positions of the words of a text.
ghost use Rattle.std.specs.Prelude.{◌≡◌, ◌<◌, ◌≤◌, ◌+◌, ◌-◌, ◌^◌, ◌∷◌, false, length, drop, take, slice_index};
ghost use Rattle.sgt_notation.specs.Words.{words, parts_words};

/// A position in a text: of the next byte, and its line from 1.
#[derive(Clone, Copy)]
pub(crate) struct Position {
    /// How many bytes come before it.
    pub at: usize,
    /// The number of its line.
    pub line: u64,
}

/// Whether the byte separates words.
fn parts_words(byte: u8) -> bool
    ensures { result ≡ parts_words byte }
{
    matches!(byte, b'\n' | b' ' | b'\t' | b'\r' | b'#')
}

/// The start of the next word, or the end of the text if there is none.
pub(crate) fn next_word(text: &[u8], from: Position) -> Position
    requires bounds { from.at ≤ length text.now }
    requires countable { from.line + length text.now < 2 ^ 64 + from.at }
    ensures same { words false from.line (drop from.at text.now) ≡ words false result.line (drop result.at text.now) }
    ensures onwards { from.at ≤ result.at }
    ensures bounds { result.at ≤ length text.now }
    ensures countable { result.line + length text.now < 2 ^ 64 + result.at }
    ensures word { result.at < length text.now → parts_words (slice_index text.now result.at) ≡ false }
{
    let mut place = from;
    let mut comment = false;
    while place.at < text.len() {
        let byte = text[place.at];
        if byte == b'\n' {
            comment = false;
            place.line += 1;
        } else if byte == b'#' {
            comment = true;
        } else if !comment && !parts_words(byte) {
            return place;
        }
        place.at += 1;
    }
    place
}

/// The end of the word that starts at the position.
pub(crate) fn word_end(text: &[u8], from: usize, line: u64) -> usize
    requires bounds { from < length text.now }
    requires word { parts_words (slice_index text.now from) ≡ false }
    ensures onwards { from < result }
    ensures bounds { result ≤ length text.now }
    ensures word { words false line (drop from text.now)
        ≡ record { line = line; text = take (result - from) (drop from text.now) } ∷ words false line (drop result text.now) }
{
    let mut end = from + 1;
    while end < text.len() && !parts_words(text[end]) {
        end += 1;
    }
    end
}
