//! The error of an option whose value is no number.

use clap::Error;
use clap::error::ErrorKind;
use std::alloc::Global;

/// What `clap` says of such a value.
const NO_NUMBER: &str = "invalid digit found in string";

/// The error of an option whose value is no number, with the numbers that it takes. None if the error is another one,
/// or if memory ran out.
pub(crate) fn number_error(alloc: Global, error: &Error) -> Option<String> {
    if error.kind() != ErrorKind::ValueValidation {
        return None;
    }
    let text = format!(in alloc; "{error}").ok()?;
    let (before, after) = text.as_str().split_once(NO_NUMBER)?;
    let most = if before.contains("'--workers ") {
        "16"
    } else if before.contains("'--tries ") {
        "1000"
    } else {
        "4294967296"
    };
    format!(in alloc; "{before}a whole number from 1 to {most} is expected{after}").ok()
}
