//! Which of the calls that ended were handed on: each once, in the order of their replies, with its number.
ghost use Rattle.std.specs.Prelude.{◌≡◌, Some, None, cond};
ghost use Rattle.sgt_desk.specs.Desks.{one_more, position_in};

/// Up to where calls were handed on. All is zero at first. Its layout is C's, whose threads keep one beside their engine.
#[repr(C)]
#[derive(Drop)]
pub struct Feed {
    /// The part of the history in which the newest of them is.
    pub part: u64,
    /// The position in it up to which the entries were read.
    pub read: u64,
    /// How many calls were handed on, over all parts.
    pub count: u64,
}

impl Feed {
    /// The position from which the next call is looked for: that of the feed, or the first of a part that has begun since.
    pub fn position(&self, part: u64) -> u64
        ensures { result ≡ position_in self.now part }
    {
        if self.part == part { self.read } else { 0 }
    }

    /// Notes that a part was read up to a position, and whether a call was found there. The call's number is returned: how many were
    /// handed on before.
    pub fn pass(&mut self, part: u64, read: u64, found: bool) -> Option<u64>
        ensures number { result ≡ cond found (Some self.old.count) None }
        ensures read { (self.new.part ≡ part) × (self.new.read ≡ read) }
        ensures count { self.new.count ≡ cond found (one_more self.old.count) self.old.count }
    {
        self.part = part;
        self.read = read;
        if !found {
            return None;
        }
        let number = self.count;
        self.count = self.count.saturating_add(1);
        Some(number)
    }
}
