//! The limits of an engine, and when a code that a procedure raises is reported.
ghost use Rattle.std.specs.Prelude.{◌≡◌, ◌≤◌, ◌↔◌, IsTrue};
ghost use Rattle.sgt_model.specs.Bounds.{AreInRange};

/// The most transactions that may be live at once.
pub const MOST_LIVE: u32 = 32;

/// The most transactions that may be started: the most starts.
pub const MOST_BEGINS: u32 = 4_000_000_000;

/// `Asks`: when a code that a procedure raises is reported.
#[derive(Clone, Copy, Debug, PartialEq, Eq)]
pub enum Asks {
    /// At the step that finds it, by an abort. What the procedure read may be undone later: the code then says only
    /// that the transaction could not continue.
    AtStep,
    /// At its commit, which waits for live predecessors as every commit does. The code is then true in the serial order.
    AtCommit,
}

/// The capacity of an engine in transactions, and when it reports codes.
#[derive(Clone, Copy, Debug, PartialEq, Eq)]
pub struct Limits {
    /// How many may be live at once, from 1 to `MOST_LIVE`.
    pub live: u32,
    /// `begins`: the most starts in all, from 1 to `MOST_BEGINS`.
    pub begins: u32,
    /// When a code that a procedure raises is reported.
    pub asks: Asks,
}

impl Limits {
    /// Whether both numbers are in their ranges.
    pub fn are_in_range(&self) -> bool
        ensures { IsTrue result ↔ AreInRange self.now }
    {
        1 <= self.live && self.live <= MOST_LIVE && 1 <= self.begins && self.begins <= MOST_BEGINS
    }
}
