//! Why a text was refused, explained in words.
ghost use Rattle.std.specs.Prelude.{◌≡◌, ◌≢◌, ◌≤◌, ℕ, List};
ghost use Rattle.sgt_line_errors.specs.Refusals.{SpellsNoOpening, SpellsNoProcedure};
ghost use Rattle.sgt_c.specs.BufferTexts.{IsWritten};

use crate::buffer_text::write_text;
use crate::status;
use sgt_line_errors::{explain_opening, explain_procedure};
use sgt_model::NoMemory;
use std::alloc::Global;

/// Explains why `sgt_open` refuses these bytes, in one line for a person: where the first error is, and what was
/// expected there. The text is written whole if it fits, and else not at all. Its length is written to `length` in both
/// cases. The call reads the bytes once more, and allocates memory meanwhile.
///
/// - `NONE`: there is nothing to explain, as the bytes are an opening.
/// - `NO_MEMORY`: an allocation failed.
pub fn sgt_explain_opening(alloc: Global, opening: &[u8], text: &mut [u8], length: &mut u64) -> u32
    ensures refused { result ≡ 0 → SpellsNoOpening 1 opening.now }
    ensures text { result ≡ 0 → (words : List ℕ) × IsWritten words text.old text.new length.new }
    ensures statuses { result ≢ 4 → result ≤ 1 }
    ensures unwritten { result ≢ 0 → (text.new ≡ text.old) × (length.new ≡ length.old) }
{
    match explain_opening(alloc, 1, opening) {
        Ok(Some(words)) => {
            *length = write_text(text, words.as_bytes());
            status::OK
        }
        Ok(None) => status::NONE,
        Err(NoMemory) => status::NO_MEMORY,
    }
}

/// Explains in the same way why `sgt_procedure` refuses a text. The explanation names the procedure by this number.
///
/// - `NONE`: there is nothing to explain, as the text spells a procedure without a flaw.
/// - `NO_MEMORY`: an allocation failed.
pub fn sgt_explain_procedure(
    alloc: Global,
    number: u64,
    procedure: &[u8],
    text: &mut [u8],
    length: &mut u64,
) -> u32
    ensures refused { result ≡ 0 → SpellsNoProcedure number procedure.now }
    ensures text { result ≡ 0 → (words : List ℕ) × IsWritten words text.old text.new length.new }
    ensures statuses { result ≢ 4 → result ≤ 1 }
    ensures unwritten { result ≢ 0 → (text.new ≡ text.old) × (length.new ≡ length.old) }
{
    match explain_procedure(alloc, number, procedure) {
        Ok(Some(words)) => {
            *length = write_text(text, words.as_bytes());
            status::OK
        }
        Ok(None) => status::NONE,
        Err(NoMemory) => status::NO_MEMORY,
    }
}
