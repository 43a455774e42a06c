//! Where an entry begins inside of another one, since the line of that was cut off.

/// The words that an entry may have as its type.
const TYPES: [&str; 4] = ["invoke", "ok", "fail", "info"];

/// The column, from 1, at which another entry begins in this line before this column: a brace and what the entry before it
/// begins with too, up to its first value, which is a type. It is the last one.
pub(crate) fn glued_at(line: &[u8], column: usize) -> Option<usize> {
    let begin = line.iter().position(|byte| *byte == b'{')?;
    let start = start_of(line.get(begin..)?)?;
    let mut found = None;
    for at in begin.saturating_add(1)..line.len().min(column) {
        let rest = line.get(at..).unwrap_or(b"");
        if rest.starts_with(start) && is_type(rest.get(start.len()..).unwrap_or(b"")) {
            found = Some(at.saturating_add(1));
        }
    }
    found
}

/// What an entry begins with before its type, if that is its first value: `{"type":` or `{:type `.
fn start_of(entry: &[u8]) -> Option<&[u8]> {
    for at in 1..entry.len() {
        let start = entry.get(..at)?;
        if is_type(entry.get(at..)?) && (start.ends_with(b":") || start.ends_with(b" ")) {
            return Some(start);
        }
    }
    None
}

/// Whether a type stands here: `"ok"` or `:ok`.
fn is_type(text: &[u8]) -> bool {
    match text {
        [b'"' | b':', rest @ ..] => TYPES.iter().any(|word| rest.starts_with(word.as_bytes())),
        _ => false,
    }
}
