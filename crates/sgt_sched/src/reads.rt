//! Which live transaction has read from which.
ghost use Rattle.std.specs.Prelude.{◌≡◌, ◌<◌};
ghost use Rattle.std.specs.Vec.{vec_len, vec_capacity};
ghost use Rattle.sgt_sched.specs.Steps.{with_source};

use sgt_model::Tid;
use sgt_records::Top;

/// Records whom a read of t has read from, if it returned another's pending value. The list has capacity for it.
///
/// Bernstein, Hadzilacos and Goodman (1987), chapter 2.
pub fn note_read(read_from: &mut Vec<(Tid, Tid)>, top: &Top, t: Tid)
    requires { vec_len read_from.old < vec_capacity read_from.old }
    ensures { read_from.new.items ≡ with_source top.now t read_from.old.items }
{
    if let Top::Pending(source, _) = top {
        if *source != t {
            read_from.push_reserved((*source, t));
        }
    }
}
