//! Small whole numbers as trees.
ghost use Rattle.serde_json.specs.View.{view};
ghost use Rattle.sgt_proc_json.specs.Spelling.{Byte, Short};

use serde_json::Value;

/// A number from 0 to 255.
pub(crate) fn write_byte(n: u8) -> Value
    ensures { Byte n (view result) }
{
    Value::from(n)
}

/// A number from 0 to 65,535.
pub(crate) fn write_short(n: u16) -> Value
    ensures { Short n (view result) }
{
    Value::from(n)
}
