//! Removing an ended transaction from the lists of the scheduler.
ghost use Rattle.std.specs.Prelude.{◌≡◌, position, Some};
ghost use Rattle.sgt_model.specs.Paths.{Rising};
ghost use Rattle.sgt_sched.specs.LiveList.{has_number, numbers, others_live};
ghost use Rattle.sgt_sched.specs.Steps.{unread};

use crate::live::Live;
use sgt_model::Tid;

/// Removes an ended transaction from the live ones and from the reads, as source or reader. It allocates nothing.
pub fn leave(live: &mut Live, read_from: &mut Vec<(Tid, Tid)>, t: Tid)
    requires rising { Rising (numbers live.old) }
    ensures live { live.new ≡ others_live t live.old }
    ensures read_from { read_from.new.items ≡ unread t read_from.old.items }
{
    live.remove(t);
    forget_reads(read_from, t);
}

/// The same, if the transaction had this index among the live ones.
pub fn leave_at(live: &mut Live, read_from: &mut Vec<(Tid, Tid)>, t: Tid, index: usize)
    requires rising { Rising (numbers live.old) }
    requires at { position (has_number t) live.old ≡ Some index }
    ensures live { live.new ≡ others_live t live.old }
    ensures read_from { read_from.new.items ≡ unread t read_from.old.items }
{
    live.remove_at(t, index);
    forget_reads(read_from, t);
}

// Removes the reads of a transaction, and those from it.
fn forget_reads(read_from: &mut Vec<(Tid, Tid)>, t: Tid)
    ensures { read_from.new.items ≡ unread t read_from.old.items }
{
    if !read_from.is_empty() {
        read_from.retain(|&(source, reader)| source != t && reader != t);
    }
}
