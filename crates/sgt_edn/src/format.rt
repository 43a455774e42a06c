//! Whether a text is in EDN.
ghost use Rattle.std.specs.Prelude.{◌≡◌};
ghost use Rattle.sgt_edn.specs.Scans.{stands_outside, starts_keyword, starts_edn, is_edn};

use crate::bytes::is_space;

/// Whether the text is in EDN. If not, it may be in JSON. It looks at the first bytes alone.
pub fn is_edn(text: &[u8]) -> bool
    ensures { result ≡ is_edn text.now }
{
    for at in 0..text.len() {
        if !stands_outside(text[at]) {
            return starts_edn(text[at], &text[at + 1..]);
        }
    }
    false
}

/// Whether the byte may stand before the first map.
fn stands_outside(byte: u8) -> bool
    ensures { result ≡ stands_outside byte }
{
    is_space(byte) || matches!(byte, b',' | b'[' | b']' | b'(' | b')')
}

/// Whether the byte, with the rest of the text, starts EDN.
fn starts_edn(byte: u8, rest: &[u8]) -> bool
    ensures { result ≡ starts_edn byte rest.now }
{
    byte == b'#' || byte == b';' || (byte == b'{' && starts_keyword(rest))
}

/// Whether the text continues with a keyword.
fn starts_keyword(text: &[u8]) -> bool
    ensures { result ≡ starts_keyword text.now }
{
    for byte in text {
        if !is_space(*byte) && *byte != b',' {
            return *byte == b':';
        }
    }
    false
}
