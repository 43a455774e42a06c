//! Which byte of a text in EDN made a byte of its text in JSON.
ghost use Rattle.std.specs.Prelude.{◌≡◌, ◌≤◌, ◌<◌, ◌+◌, length, IfOk};
ghost use Rattle.sgt_edn.specs.Scans.{size_of};

use crate::scan::{Scan, append_one, note};
use sgt_model::NoMemory;
use std::alloc::Global;

/// The index of the byte of the text in EDN with which its text in JSON gets longer than `at` bytes, or the end of the
/// text if there is none.
///
/// # Errors
///
/// `NoMemory` if an allocation failed.
pub fn edn_index(alloc: Global, text: &[u8], at: usize) -> Result<usize, NoMemory>
    ensures bounds { IfOk result (λ index. index ≤ length text.now) }
    ensures before { IfOk result (λ index. size_of text.now index ≤ at) }
    ensures here { IfOk result (λ index. index < length text.now → at < size_of text.now (index + 1)) }
{
    let mut json = Vec::new(alloc);
    let mut token = Vec::new(alloc);
    let mut scan = Scan::start();
    for index in 0..text.len() {
        append_one(&mut json, scan, token.as_slice(), text[index])?;
        if json.len() > at {
            return Ok(index);
        }
        note(&mut token, scan.mode, text[index])?;
        scan = scan.after(text[index]);
    }
    Ok(text.len())
}
