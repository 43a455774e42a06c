//! The laws. The function bodies are empty: each law is its function's contract.
ghost use Rattle.sgt_progress.specs.Alone.{AloneEndsByItself, AloneIsNotAborted, StartedAlone};
ghost use Rattle.sgt_progress.specs.Checked.{CheckedDrainSoon};
ghost use Rattle.sgt_progress.specs.Drains.{AloneEnds, EventsLeftAreFew, HistoriesDrain, MovesAreFew, SomeStepsDrain};
ghost use Rattle.sgt_progress.specs.GivenCalls.{GivenCallsAreReported};
ghost use Rattle.sgt_progress.specs.Moves.{NextMovesOrWaits, NoDeadlock, NoWaitCycle, RequestedMoves};
ghost use Rattle.sgt_progress.specs.Needed.{ClosedCyclesStay, CyclesAloneAreRejected};
ghost use Rattle.sgt_progress.specs.Owners.{OwnersGoOn, TwoEachMayNot};
ghost use Rattle.sgt_progress.specs.Predecessors.{NoNewPredecessors};
ghost use Rattle.sgt_progress.specs.Progress.{HistoriesMakeProgress};
ghost use Rattle.sgt_progress.specs.RealTime.{ReplayKeepsRealTime};
ghost use Rattle.sgt_progress.specs.Rounds.{RoundsDrain, RoundsMove};
ghost use Rattle.sgt_progress.specs.Reruns.{CallsDecide, OneByOneIsForced, RerunsAgree};
ghost use Rattle.sgt_progress.specs.Waits.{EndsAreReady, WaitsStayReady};

/// The next event of a live transaction moves it on, or waits for a live predecessor. An access on which its caller decided
/// never waits.
pub fn next_moves_or_waits()
    ensures next { NextMovesOrWaits }
    ensures requested { RequestedMoves }
{}

/// No deadlock: each live transaction, or a live one that it waits for, also through others, can move on.
pub fn no_deadlock()
    ensures some { NoDeadlock }
    ensures waits { NoWaitCycle }
{}

/// A step, a commit or a caller's access of the only live transaction neither waits nor is aborted for a cycle.
pub fn alone_is_not_aborted()
    ensures { AloneIsNotAborted }
{}

/// As long as all events are its own, and none of them is a `Quit`, the only live transaction commits, raises a code of
/// its own, or is still live.
pub fn alone_ends_by_itself()
    ensures { AloneEndsByItself }
{}

/// One that is started when nothing is live is the only live one.
pub fn started_alone()
    ensures { StartedAlone }
{}

/// Reply order is a serial order that keeps real time.
pub fn replay_keeps_real_time()
    ensures { ReplayKeepsRealTime }
{}

/// No livelock: if nothing is started, accesses and ends are at most `events_left` and the accesses on which callers
/// decided, whatever events come.
pub fn moves_are_few()
    ensures { MovesAreFew }
{}

/// From every legal history nothing is live after a bounded number of events, whatever the replies.
pub fn histories_drain()
    ensures all { HistoriesDrain }
    ensures some { SomeStepsDrain }
    ensures few { EventsLeftAreFew }
    ensures checked { CheckedDrainSoon }
{}

/// The only live transaction ends by its next events, whatever the replies.
pub fn alone_ends()
    ensures { AloneEnds }
{}

/// A rejected access has to be rejected, unless another member of its cycle is aborted; and no other access is rejected.
pub fn closed_cycles_stay()
    ensures needed { ClosedCyclesStay }
    ensures exact { CyclesAloneAreRejected }
{}

/// The committed and refused calls, with their callers' accesses, decide what was reported and what is committed. Given
/// again one after another, each gets the same.
pub fn reruns_agree()
    ensures decide { CallsDecide }
    ensures again { RerunsAgree }
    ensures forced { OneByOneIsForced }
    ensures given { GivenCallsAreReported }
{}

/// Round robin over the live transactions, in any order: each round makes an access or ends one, so after enough rounds
/// none is live.
pub fn rounds_drain()
    ensures moves { RoundsMove }
    ensures drain { RoundsDrain }
{}

/// If each owner has one live transaction at most, not all owners are held up. With two they may be.
pub fn owners_go_on()
    ensures one { OwnersGoOn }
    ensures two { TwoEachMayNot }
{}

/// Once a procedure has ended, and as long as its caller makes no access, its transaction gets no more live predecessors.
pub fn no_new_predecessors()
    ensures { NoNewPredecessors }
{}

/// A procedure that is at its end stays there: a commit that was told to wait, and the first one after a step that was answered
/// `Ended`, is never answered `NotEnded`.
pub fn waits_stay_ready()
    ensures waits { WaitsStayReady }
    ensures ends { EndsAreReady }
{}

/// What an engine's contracts say of its history: no deadlock, it drains, and the only live transaction ends by itself.
pub fn histories_make_progress()
    ensures { HistoriesMakeProgress }
{}
