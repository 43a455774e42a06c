//! The kinds of bytes.
ghost use Rattle.std.specs.Prelude.{◌≡◌};
ghost use Rattle.sgt_edn.specs.Bytes.{is_space, is_open, is_close, is_end, is_digit};

/// Whether the byte is white space.
pub(crate) fn is_space(byte: u8) -> bool
    ensures { result ≡ is_space byte }
{
    matches!(byte, b' ' | b'\t' | b'\r' | b'\n')
}

/// Whether the byte opens a collection.
pub(crate) fn is_open(byte: u8) -> bool
    ensures { result ≡ is_open byte }
{
    matches!(byte, b'{' | b'[' | b'(')
}

/// Whether the byte closes a collection.
pub(crate) fn is_close(byte: u8) -> bool
    ensures { result ≡ is_close byte }
{
    matches!(byte, b'}' | b']' | b')')
}

/// Whether the byte ends a token.
pub(crate) fn is_end(byte: u8) -> bool
    ensures { result ≡ is_end byte }
{
    is_space(byte) || matches!(byte, b',' | b'"' | b';') || is_open(byte) || is_close(byte)
}

/// Whether the byte is a digit.
pub(crate) fn is_digit(byte: u8) -> bool
    ensures { result ≡ is_digit byte }
{
    matches!(
        byte,
        b'0' | b'1' | b'2' | b'3' | b'4' | b'5' | b'6' | b'7' | b'8' | b'9'
    )
}
