//! Whether arguments fit a procedure.
ghost use Rattle.std.specs.Prelude.{◌≡◌};
ghost use Rattle.sgt_model.specs.StartReply.{args_fit};

use sgt_model::{Args, is_value};

/// Whether there are exactly this many arguments, each of them a value.
pub fn args_fit(count: u8, args: &Args) -> bool
    ensures { result ≡ args_fit count args.now }
{
    if args.len() != usize::from(count) {
        return false;
    }
    for arg in args.as_slice() {
        if !is_value(*arg) {
            return false;
        }
    }
    true
}
