//! Laws of turns, one after another.
ghost use Rattle.sgt_desk.specs.Endings.{FreeRunsEnd, OtherRunsEndThen, RunsGoOn};
ghost use Rattle.sgt_desk.specs.Turns.{NoWakeIsLost, NoStartIsForgotten};

/// No reason to rest ceases without a wake, however many turns come between: a call that rests for a reason that held is woken if it
/// does not hold any more. What each turn does to the desk is what its `wakes` clause says.
pub fn no_wake_is_lost()
    ensures { NoWakeIsLost }
{}

/// A start that waits for others, alone or not, is woken by a turn after which it need not wait, however many come between.
pub fn no_start_is_forgotten()
    ensures { NoStartIsForgotten }
{}

/// A run ends once whatever it waits for has ended: committed, refused, or aborted with a code that its procedure raised; or its start was
/// refused for good. Its deadline does not come, and no allocation fails. It takes one turn, or two if its attempt has ended while it rested.
/// Turns of other calls may come before.
pub fn runs_end()
    ensures ends { FreeRunsEnd }
    ensures then { OtherRunsEndThen }
    ensures goes_on { RunsGoOn }
{}
