//! Texts made of a template and of what takes the place of its marks.
ghost use Rattle.std.specs.Prelude.{◌≡◌, ◌++◌, ℕ, List, map, OnOk};
ghost use Rattle.std.specs.Fmt.{decimal};
ghost use Rattle.sgt_format.specs.Templates.{before_mark, after_mark, filled};

use crate::decimal_text::append_number;
use sgt_model::NoMemory;

/// What can take the place of a mark in a template.
pub trait Spelled {
    /// Its text.
    ghost spelled: { Self → List ℕ };

    /// Appends the text.
    fn append_to(&self, text: &mut Vec<u8>) -> Result<(), NoMemory>
        ensures { OnOk result (text.new.items ≡ text.old.items ++ spelled self.now) };
}

/// A number is spelled in decimal.
impl Spelled for usize {
    ghost spelled = { decimal };

    fn append_to(&self, text: &mut Vec<u8>) -> Result<(), NoMemory> {
        Ok(append_number(text, *self)?)
    }
}

/// Appends the template. Each mark, `#`, is replaced by the next of the parts.
///
/// # Errors
///
/// `NoMemory` if an allocation failed. A part of the text may have been appended then.
pub fn append_filled<S: Spelled>(
    text: &mut Vec<u8>,
    template: &[u8],
    parts: &[S],
) -> Result<(), NoMemory>
    ensures { OnOk result (text.new.items ≡ text.old.items ++ filled template.now (map S.spelled parts.now)) }
{
    let mut left = template;
    for part in parts {
        let (words, following) = split_at_mark(left);
        text.extend_from_slice(words)?;
        part.append_to(text)?;
        left = following;
    }
    Ok(text.extend_from_slice(left)?)
}

/// What stands before the first mark, and what stands after it.
fn split_at_mark(template: &[u8]) -> (&[u8], &[u8])
    ensures before { result.0.now ≡ before_mark template.now }
    ensures after { result.1.now ≡ after_mark template.now }
{
    for mark in 0..template.len() {
        if template[mark] == b'#' {
            return (&template[..mark], &template[mark + 1..]);
        }
    }
    (template, b"")
}
