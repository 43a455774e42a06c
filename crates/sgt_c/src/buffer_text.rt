//! Replies and faults as text, in the caller's buffer.
ghost use Rattle.std.specs.Prelude.{◌≡◌, ◌≢◌, ◌≤◌, ◌↔◌, ◌++◌, List, ℕ, IsTrue, OnOk, IfOk, codes, take};
ghost use Rattle.sgt_model.specs.declared.reply.Reply.{Reply};
ghost use Rattle.std.specs.Fmt.{decimal};
ghost use Rattle.sgt_format.specs.Decimals.{each_item};
ghost use Rattle.sgt_format.specs.ReplyText.{reply_text};
ghost use Rattle.sgt_format.specs.declared.errors.OpeningError.{OpeningError};
ghost use Rattle.sgt_c.specs.FaultStructs.{HoldsFault};
ghost use Rattle.sgt_c.specs.BufferTexts.{IsFaultKind, IsWritten, fault_text, place_text, text_by};
ghost use Rattle.sgt_c.specs.ReplyReadings.{HoldsValidReply};

use crate::fault_struct::SgtFault;
use crate::reply_struct::{SgtReply, reply_of};
use crate::status;
use sgt_format::{append_numbered, reply_line};
use sgt_model::NoMemory;
use std::alloc::{AllocError, Global};

/// Writes the text of a reply, as in a line of a script, without the line's end. The text is written whole if it fits,
/// and else not at all. Its length is written to `length` in both cases. The call allocates memory for the text and
/// frees it.
///
/// - `BAD_CALL`: the fields say no reply.
/// - `NO_MEMORY`: an allocation failed.
pub fn sgt_reply_text(alloc: Global, reply: &SgtReply, text: &mut [u8], length: &mut u64) -> u32
    ensures text { (r : Reply) → HoldsValidReply reply.now r → result ≡ 0 → IsWritten (reply_text r) text.old text.new length.new }
    ensures bad_call { (result ≡ 5) ↔ ((r : Reply) → ¬ HoldsValidReply reply.now r) }
    ensures statuses { result ≢ 5 → result ≤ 1 }
    ensures unwritten { result ≢ 0 → (text.new ≡ text.old) × (length.new ≡ length.old) }
{
    let Some(reply) = reply_of(reply) else {
        return status::BAD_CALL;
    };
    match reply_line(alloc, &reply) {
        Ok(line) => {
            *length = write_text(text, without_end(line.as_slice()));
            status::OK
        }
        Err(NoMemory) => status::NO_MEMORY,
    }
}

/// Writes the text of a fault, as the program reports it for line 1. The text is written whole if it fits, and else not
/// at all. Its length is written to `length` in both cases. The call allocates memory for the text and frees it.
///
/// - `BAD_CALL`: the kind is not that of a fault.
/// - `NO_MEMORY`: an allocation failed.
#[tactic(auto, using(crate::proofs::Writings::fault_words))]
pub fn sgt_fault_text(alloc: Global, fault: &SgtFault, text: &mut [u8], length: &mut u64) -> u32
    ensures text { (e : OpeningError) → HoldsFault fault.now e → result ≡ 0 → IsWritten (fault_text e) text.old text.new length.new }
    ensures bad_call { (result ≡ 5) ↔ (¬ IsFaultKind fault.now.kind) }
    ensures statuses { result ≢ 5 → result ≤ 1 }
    ensures unwritten { result ≢ 0 → (text.new ≡ text.old) × (length.new ≡ length.old) }
{
    if !is_fault(fault.kind) {
        return status::BAD_CALL;
    }
    match fault_line(alloc, fault) {
        Ok(line) => {
            *length = write_text(text, line.as_slice());
            status::OK
        }
        Err(AllocError) => status::NO_MEMORY,
    }
}

/// Writes a text if it fits, and returns its length.
pub fn write_text(to: &mut [u8], text: &[u8]) -> u64
    ensures { IsWritten text.now to.old to.new result }
{
    if text.len() <= to.len() {
        to[..text.len()].copy_from_slice(text);
    }
    text.len() as u64
}

/// A line without the newline that ends it.
fn without_end(line: &[u8]) -> &[u8]
    ensures { (text : List ℕ) → line.now ≡ text ++ codes "\n" → result.now ≡ text }
{
    &line[..line.len().saturating_sub(1)]
}

/// Whether a status is that of a fault.
fn is_fault(kind: u32) -> bool
    ensures { IsTrue result ↔ IsFaultKind kind }
{
    kind == status::NO_MEMORY || (16 <= kind && kind <= 21)
}

fn fault_line(alloc: Global, fault: &SgtFault) -> Result<Vec<u8>, AllocError>
    ensures { IfOk result (λ line. line.items ≡ text_by fault.now.kind fault.now) }
{
    let mut line = Vec::new(alloc);
    append_fault(&mut line, fault)?;
    Ok(line)
}

/// Appends the text of a fault.
fn append_fault(line: &mut Vec<u8>, fault: &SgtFault) -> Result<(), AllocError>
    ensures { OnOk result (line.new.items ≡ line.old.items ++ text_by fault.now.kind fault.now) }
{
    match fault.kind {
        16 => line.extend_from_slice(b"not JSON"),
        17 => line.extend_from_slice(b"bad line"),
        18 => line.extend_from_slice(b"bad limits"),
        19 => append_numbered(line, b"bad opening ", fault.number),
        20 => append_shape(line, fault),
        21 => {
            append_numbered(line, b"procedure ", fault.procedure)?;
            append_numbered(line, b" flaw ", fault.number)
        }
        _ => line.extend_from_slice(b"no memory"),
    }
}

/// Appends the text of a shape error: its procedure and its position.
fn append_shape(line: &mut Vec<u8>, fault: &SgtFault) -> Result<(), AllocError>
    ensures { OnOk result (line.new.items ≡ line.old.items ++ text_by 20 fault.now) }
{
    append_numbered(line, b"procedure ", fault.procedure)?;
    line.extend_from_slice(b" shape")?;
    append_place(line, reported_place(fault))
}

/// The positions that the text names.
fn reported_place(fault: &SgtFault) -> &[u64]
    ensures { result.now ≡ take fault.now.depth fault.now.place }
{
    let depth = (fault.depth as usize).min(128);
    &fault.place[..depth]
}

/// Appends each position after a space, or `top`.
fn append_place(line: &mut Vec<u8>, place: &[u64]) -> Result<(), AllocError>
    ensures { OnOk result (line.new.items ≡ line.old.items ++ place_text place.now) }
{
    if place.is_empty() {
        return line.extend_from_slice(b" top");
    }
    append_positions(line, place)
}

/// Appends each position after a space.
fn append_positions(line: &mut Vec<u8>, place: &[u64]) -> Result<(), AllocError>
    ensures { OnOk result (line.new.items ≡ line.old.items ++ each_item decimal place.now) }
{
    for position in place {
        append_numbered(line, b" ", *position)?;
    }
    Ok(())
}
