//! Tries that are made alone, while no other transaction is live: after how many a call makes one, and which starts wait for it.
ghost use Rattle.std.specs.Prelude.{◌≡◌, ◌↔◌, ◌≤◌, true, false, length};
ghost use Rattle.sgt_desk.specs.Plans.{waits_for_others};

/// Whether the next try of a call is made alone: it has made this many, which are as many as it makes beside others, and no other
/// transaction of its thread is live, which would have to end before.
pub fn is_next_alone(tries: u64, beside: u64, has_own: bool) -> bool
    ensures { (result ≡ true) ↔ ((beside ≤ tries) × (has_own ≡ false)) }
{
    beside <= tries && !has_own
}

/// The tries that are made alone.
#[derive(Clone, Copy)]
pub struct Solo {
    /// The calls that wait to start one.
    pub waiting: u64,
    /// Whether the live transaction is one.
    pub is_live: bool,
}

impl Solo {
    /// Whether a start, alone or not, waits for others, where this many are live. A thread that has something live does not wait for a call
    /// that waits for it.
    pub fn holds_up(&self, alone: bool, live: usize, has_own: bool) -> bool
        ensures { result ≡ waits_for_others self.now alone live has_own }
    {
        if alone {
            live > 0
        } else {
            self.is_live && live > 0 || self.waiting > 0 && !has_own
        }
    }
}
