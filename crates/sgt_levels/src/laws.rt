//! Laws of the definitions. The bodies are empty: each law is its contract.
ghost use Rattle.sgt_levels.specs.Levels.{SplitIsObeyed, SnapshotCyclesAreEnough, SnapshotFaultsAreEnough, SplitsAreEnough, DecidedSplitsAreEnough, SeenAreDecided};
ghost use Rattle.sgt_levels.specs.Commits.{CommitsAreObeyed, CommittedCyclesAreEnough, CommittedFaultsAreEnough, CommitOrdersAreEnough};
ghost use Rattle.sgt_levels.specs.Order.{SerialIsSnapshot, SnapshotIsCommitted};
ghost use Rattle.sgt_levels.specs.Raises.{SplitRaisedAreEnough, TailsDepend};
ghost use Rattle.sgt_levels.specs.Lates.{CommitRaisedAreEnough};
ghost use Rattle.sgt_levels.specs.Rounds.{SpacedCyclesAreEnough, NoMissCyclesAreEnough};
ghost use Rattle.sgt_levels.specs.WriteOrders.{WriteCyclesAreEnough, CommittedIsUncommitted};
ghost use Rattle.sgt_levels.specs.Examples.{WriteSkewIsBetween, LostUpdateIsNoSnapshot};

/// In each snapshot run the edges go forward.
pub fn split_is_obeyed()
    ensures { SplitIsObeyed }
{}

/// A cycle without two misses next to one another leaves no snapshot run.
pub fn snapshot_cycles_are_enough()
    ensures { SnapshotCyclesAreEnough }
{}

/// A fault of a read leaves no snapshot run.
pub fn snapshot_faults_are_enough()
    ensures { SnapshotFaultsAreEnough }
{}

/// If no read has a fault, begins and commits along the edges are a snapshot run.
pub fn splits_are_enough()
    ensures { SplitsAreEnough }
{}

/// If the edges decide between all that append to one key, begins and commits along them are a snapshot run.
pub fn decided_splits_are_enough()
    ensures { DecidedSplitsAreEnough }
{}

/// Where one of two values at a key was seen, the edges decide between their appenders.
pub fn seen_are_decided()
    ensures { SeenAreDecided }
{}

/// In each run of committed reads, one that follows another stands after it.
pub fn commits_are_obeyed()
    ensures { CommitsAreObeyed }
{}

/// A cycle on which each follows the one before it leaves no run of committed reads.
pub fn committed_cycles_are_enough()
    ensures { CommittedCyclesAreEnough }
{}

/// A fault of a read, or a partial one, leaves no run of committed reads.
pub fn committed_faults_are_enough()
    ensures { CommittedFaultsAreEnough }
{}

/// If no read has a fault or is partial, an order of commits along the edges is a run of committed reads.
pub fn commit_orders_are_enough()
    ensures { CommitOrdersAreEnough }
{}

/// A snapshot run is a run of committed reads.
pub fn snapshot_is_committed()
    ensures { SnapshotIsCommitted }
{}

/// What is serializable is snapshot isolated.
pub fn serial_is_snapshot()
    ensures { SerialIsSnapshot }
{}

/// If no read has a fault, times that rise along few edges are a snapshot run.
pub fn split_raised_are_enough()
    ensures { SplitRaisedAreEnough }
{}

/// If no read has a fault or is partial, an order by ranks that rise along few edges is a run of committed reads.
pub fn commit_raised_are_enough()
    ensures { CommitRaisedAreEnough }
{}

/// A cycle of edges without two misses next to one another leaves no snapshot run.
pub fn spaced_cycles_are_enough()
    ensures { SpacedCyclesAreEnough }
{}

/// A cycle of edges without a miss leaves no run of committed reads.
pub fn no_miss_cycles_are_enough()
    ensures { NoMissCyclesAreEnough }
{}

/// Write skew is snapshot isolated, and not serializable.
pub fn write_skew_is_between()
    ensures { WriteSkewIsBetween }
{}

/// Lost update is not snapshot isolated.
pub fn lost_update_is_no_snapshot()
    ensures { LostUpdateIsNoSnapshot }
{}

/// A snapshot run obeys the edges from the end of a line to the appends that are not in it.
pub fn tails_depend()
    ensures { TailsDepend }
{}

/// A cycle on which each is overwritten by the next leaves no write order.
pub fn write_cycles_are_enough()
    ensures { WriteCyclesAreEnough }
{}

/// A run of committed reads is a write order.
pub fn committed_is_uncommitted()
    ensures { CommittedIsUncommitted }
{}
