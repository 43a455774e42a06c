//! Bytes as the text of an element.
ghost use Rattle.std.specs.Prelude.{◌≡◌, ◌++◌, OnOk};
ghost use Rattle.sgt_timeline.specs.PictureText.{escaped, escaped_byte};

use sgt_model::NoMemory;

/// Adds the bytes as the text of an element. What is no printable ASCII becomes a `?`.
pub(crate) fn append_escaped(text: &mut Vec<u8>, bytes: &[u8]) -> Result<(), NoMemory>
    ensures { OnOk result (text.new.items ≡ text.old.items ++ escaped bytes.now) }
{
    for byte in bytes {
        append_escaped_byte(text, *byte)?;
    }
    Ok(())
}

/// Adds the byte as the text of an element.
fn append_escaped_byte(text: &mut Vec<u8>, byte: u8) -> Result<(), NoMemory>
    ensures { OnOk result (text.new.items ≡ text.old.items ++ escaped_byte byte) }
{
    match byte {
        b'&' => text.extend_from_slice(b"&amp;")?,
        b'<' => text.extend_from_slice(b"&lt;")?,
        b'>' => text.extend_from_slice(b"&gt;")?,
        b'"' => text.extend_from_slice(b"&quot;")?,
        b'\'' => text.extend_from_slice(b"&#39;")?,
        b' '..=b'~' => text.push(byte)?,
        _ => text.push(b'?')?,
    }
    Ok(())
}
