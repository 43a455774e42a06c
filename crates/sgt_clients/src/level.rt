//! Levels of isolation, and what a check is asked.

ghost use Rattle.std.specs.Prelude.{◌≡◌};
ghost use Rattle.sgt_clients.specs.Levels.{is_strict, keeps_time, is_yes, is_undecided};

/// A level of isolation. Each is stronger than those above it.
#[derive(Clone, Copy)]
pub enum Level {
    /// Committed transactions write in one order at all keys: PL-1.
    ReadUncommitted,
    /// Each read sees what had been committed.
    ReadCommitted,
    /// Each transaction reads from a snapshot, and two that append to one key do not overlap.
    SnapshotIsolation,
    /// As if the transactions ran one after another.
    Serializable,
    /// The same, and a transaction that ended before another began comes first.
    StrictSerializable,
}

/// Whether what clients saw is of a level.
#[derive(Clone, Copy)]
pub enum Answer {
    Yes,
    No,
    /// What was seen fits runs of the level and others.
    Undecided,
}

/// What a check is asked.
#[derive(Clone, Copy)]
pub struct Question {
    /// The level whose answer is the verdict.
    pub level: Level,
    /// Real time is kept, whatever the level.
    pub strict: bool,
}

impl Question {
    /// Whether a serial order has to keep real time.
    pub fn keeps_time(self) -> bool
        ensures { result ≡ keeps_time self }
    {
        self.strict || is_strict(self.level)
    }
}

/// Whether the level keeps real time.
fn is_strict(level: Level) -> bool
    ensures { result ≡ is_strict level }
{
    match level {
        Level::StrictSerializable => true,
        Level::ReadUncommitted | Level::ReadCommitted | Level::SnapshotIsolation => false,
        Level::Serializable => false,
    }
}

/// Whether the answer is yes.
pub(crate) fn is_yes(answer: Answer) -> bool
    ensures { result ≡ is_yes answer }
{
    match answer {
        Answer::Yes => true,
        Answer::No => false,
        Answer::Undecided => false,
    }
}

/// Whether there is no answer.
pub(crate) fn is_undecided(answer: Answer) -> bool
    ensures { result ≡ is_undecided answer }
{
    match answer {
        Answer::Undecided => true,
        Answer::Yes | Answer::No => false,
    }
}
