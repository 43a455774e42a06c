//! Small whole numbers that trees spell.
ghost use Rattle.std.specs.Prelude.{◌≡◌, ◌≢◌, Ok, IfOk, IfErr};
ghost use Rattle.serde_json.specs.View.{view};
ghost use Rattle.sgt_proc_json.specs.Readings.{at, byte, short};
ghost use Rattle.sgt_proc_json.specs.Refusals.{Says};
ghost use Rattle.sgt_proc_json.specs.declared.errors.ReadError.TheVariants.{NoMemory};

use crate::errors::ReadError;
use serde_json::Value;

/// The item at this position of a list, as a whole number from 0 to 255.
pub(crate) fn byte_at(position: u64, tree: &Value) -> Result<u8, ReadError>
    ensures ok { IfOk result (λ n. at position (byte (view tree.now)) ≡ Ok n) }
    ensures err { IfErr result (Says (at position (byte (view tree.now)))) }
    ensures exact { IfErr result (λ error. error ≢ NoMemory) }
{
    match u8::try_from(short_at(position, tree)?) {
        Ok(n) => Ok(n),
        Err(_) => Err(ReadError::here().under(position)),
    }
}

/// The item at this position of a list, as a whole number from 0 to 65,535.
pub(crate) fn short_at(position: u64, tree: &Value) -> Result<u16, ReadError>
    ensures ok { IfOk result (λ n. at position (short (view tree.now)) ≡ Ok n) }
    ensures err { IfErr result (Says (at position (short (view tree.now)))) }
    ensures exact { IfErr result (λ error. error ≢ NoMemory) }
{
    match tree.as_i64() {
        Some(n) => match u16::try_from(n) {
            Ok(n) => Ok(n),
            Err(_) => Err(ReadError::here().under(position)),
        },
        None => Err(ReadError::here().under(position)),
    }
}
