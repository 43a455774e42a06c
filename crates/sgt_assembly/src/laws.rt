//! The laws of the program's engine. A body does nothing but name the law that its own rests on.
ghost use Rattle.sgt_assembly.specs.Openings.{OpenedHoldValues, OpenedIsBank};

use sgt_smallbank::replay_is_bank;

/// The accounts and the records of an opening put only values into the initial database. The opening is one that
/// lines spell.
pub fn opened_hold_values()
    ensures { OpenedHoldValues }
{
    replay_is_bank();
}

/// For a legal history after an opening that lines spell: each committed transaction of one of SmallBank's five
/// procedures has done the bank's arithmetic. It did so on what those committed before it left.
pub fn opened_is_bank()
    ensures { OpenedIsBank }
{
    opened_hold_values();
    replay_is_bank();
}
