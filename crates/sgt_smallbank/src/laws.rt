//! The laws of the five procedures. Each body only calls the laws that it is proved from.
ghost use Rattle.sgt_smallbank.specs.Arithmetic.{SerialIsBank};
ghost use Rattle.sgt_smallbank.specs.Replays.{OpeningsHoldValues, ReplayIsBank};

use sgt_model::{committed_are_admitted, replay_is_serial, replays_hold_values};

/// Each of the five procedures, run at once and alone, does what the bank's arithmetic says. It has the same answers or
/// the same code, and leaves the same contents.
pub fn serial_is_bank()
    ensures { SerialIsBank }
{}

/// In every legal history, each committed transaction of one of the five procedures has done what the bank's arithmetic
/// says. It worked on the contents that those before it in reply order left, and its reply has those answers. The reply
/// of each refused one has the code that the bank's arithmetic raises on those contents, and it changed nothing. The
/// initial database must hold values; that of accounts without a fault does.
pub fn replay_is_bank()
    ensures opening { OpeningsHoldValues }
    ensures replay { ReplayIsBank }
{
    replay_is_serial();
    committed_are_admitted();
    replays_hold_values();
}
