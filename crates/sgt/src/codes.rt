//! The codes with which a procedure may abort.

use serde_json::Value;
use sgt_format::items;
use sgt_model::{EMPTY_PROCEDURE, NoMemory};
use sgt_smallbank::PROCEDURES;
use std::alloc::Global;

/// The code of a result that is no value.
pub(crate) const OVERFLOW: u16 = 1000;

/// The codes of each procedure of the program.
const OWN_CODES: [&[u16]; 5] = [
    &[1, 5, OVERFLOW],
    &[1, 2, 5, OVERFLOW],
    &[1, 3, 5, OVERFLOW],
    &[1, 4, 5, OVERFLOW],
    &[1, 2, 5, OVERFLOW],
];

/// The codes with which the procedure of this number may abort, where line 1 has these procedures. None if it is not
/// there.
pub(crate) fn codes_of(
    alloc: Global,
    procedures: &[Value],
    procedure: u16,
) -> Result<Option<Vec<u16>>, NoMemory> {
    if procedure == EMPTY_PROCEDURE {
        return Ok(Some(Vec::new(alloc)));
    }
    let number = usize::from(procedure);
    if let Some(codes) = OWN_CODES.get(number) {
        return Ok(Some(codes.to_vec(alloc)?));
    }
    let index = number.saturating_sub(usize::from(PROCEDURES));
    match procedures.get(index) {
        Some(tree) => Ok(Some(codes_in(alloc, tree)?)),
        None => Ok(None),
    }
}

/// The codes of a procedure in JSON. Any may have a result that is no value.
fn codes_in(alloc: Global, procedure: &Value) -> Result<Vec<u16>, NoMemory> {
    let mut codes = Vec::new(alloc);
    codes.push(OVERFLOW)?;
    let mut open = Vec::new(alloc);
    open.push(procedure)?;
    for _ in 0..MOST_PARTS {
        let Some(tree) = open.pop() else {
            return Ok(codes);
        };
        let parts = items(tree).unwrap_or(&[]);
        if let Some(code) = code_of(parts) {
            codes.push(code)?;
        }
        for part in parts {
            open.push(part)?;
        }
    }
    Ok(codes)
}

/// The most parts of a procedure: as many as a line may have bytes.
const MOST_PARTS: usize = 65_536;

/// The code of a statement, if one with these parts has one.
fn code_of(parts: &[Value]) -> Option<u16> {
    match parts {
        [word, code] if word.as_str() == Some("ask") => number(code),
        [word, _, _, _, code] if word.as_str() == Some("look") => number(code),
        _ => None,
    }
}

/// The number of a procedure or a code.
pub(crate) fn number(tree: &Value) -> Option<u16> {
    u16::try_from(tree.as_u64()?).ok()
}
