//! Reading a whole input.
ghost use Rattle.std.specs.Prelude.{◌≡◌, ◌≢◌, ◌^◌, ◌+◌, ◌++◌, ◌<◌, ◌≤◌, length, IfOk, OnOk, IfSome, Err};
ghost use Rattle.std.specs.Io.KnownBytes.{Consumes, IsAtEnd};
ghost use Rattle.sgt_check.specs.declared.fault.CheckFault.TheVariants as fault;
ghost use Rattle.sgt_notation.specs.declared.fault.NotationFault.{NotationFault};

use crate::fault::CheckFault;
use sgt_input::Source;
use sgt_model::NoMemory;
use std::alloc::{AllocError, Global};

/// The maximum length of an input, in bytes.
pub(crate) const LONGEST_INPUT: usize = 268_435_456;

/// How many bytes one read requests.
const BUFFER: usize = 65_536;

/// Reads all bytes of the source.
///
/// # Errors
///
/// `TooLong` if there are more bytes than an input may have, `Reading` if a read failed, and `NoMemory`.
pub fn read_input<S: Source>(alloc: Global, source: &mut S) -> Result<Vec<u8>, CheckFault>
    requires { S.failures source.old + 1 < 2 ^ 64 }
    ensures bytes { IfOk result (λ text. IfSome (S.rest source.old) (λ bytes. bytes ≡ text.items)) }
    ensures short { IfOk result (λ text. length text.items ≤ 268435456) }
    ensures long { result ≡ Err CheckFault.TooLong →
        IfSome (S.rest source.old) (λ bytes. 268435456 < length bytes) }
    ensures bounded { S.given source.new ≤ S.given source.old + 268500992 }
    ensures well { result ≢ Err CheckFault.Reading → S.failures source.new ≡ S.failures source.old }
    ensures failed { result ≡ Err CheckFault.Reading → S.failures source.new ≡ S.failures source.old + 1 }
    ensures no_notation { (f : NotationFault) → result ≢ Err (fault.Notation f) }
    ensures no_operations { result ≢ Err CheckFault.NoOperations }
    ensures no_other { result ≢ Err CheckFault.Writing }
{
    let mut text = Vec::new(alloc);
    let mut buffer = new_buffer(alloc)?;
    loop {
        let Ok(count) = source.read(&mut buffer) else {
            return Err(CheckFault::Reading);
        };
        if count == 0 {
            return Ok(text);
        }
        if count > LONGEST_INPUT - text.len() {
            return Err(CheckFault::TooLong);
        }
        append(&mut text, &buffer[..count])?;
    }
}

/// A buffer for one read.
fn new_buffer(alloc: Global) -> Result<Vec<u8>, NoMemory>
    ensures { IfOk result (λ buffer. length buffer.items ≡ 65536) }
{
    Ok(vec![in alloc; 0; BUFFER]?)
}

/// Appends bytes to a text.
fn append(text: &mut Vec<u8>, bytes: &[u8]) -> Result<(), NoMemory>
    ensures { OnOk result (text.new.items ≡ text.old.items ++ bytes.now) }
{
    text.extend_from_slice(bytes)?;
    Ok(())
}
