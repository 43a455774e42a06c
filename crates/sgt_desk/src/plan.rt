//! Cuts that a configuration asks for: when one is due, and until when starts wait for it.
ghost use Rattle.std.specs.Prelude.{◌≡◌, ◌≢◌, ◌↔◌, true, Some, None};
ghost use Rattle.sgt_desk.specs.Plans.{is_due, CanRest, IsPutOff, PlanTurn, SamePlan};

/// When the history is cut by itself.
#[derive(Clone, Copy)]
pub struct Plan {
    /// After how many entries, counted from the last cut or from when one was put off. 0: never.
    pub after: u64,
    /// For how many nanoseconds starts wait until no transaction is live. 0: they do not.
    pub patience: u64,
    /// A cut is due once the history has this many entries.
    pub at: u64,
    /// Until when starts wait for a cut that is due, if they do.
    pub pause: Option<u64>,
}

/// What a plan asks for next.
#[derive(Clone, Copy)]
pub enum Planned {
    /// Nothing.
    Nothing,
    /// The next turn is a cut.
    Cut,
    /// Starts wait until this time.
    Pause(u64),
}

impl Plan {
    /// Whether a cut is due where the history has this many entries.
    pub fn is_due(&self, entries: u64) -> bool
        ensures { result ≡ is_due self.now entries }
    {
        self.after > 0 && self.at <= entries
    }

    /// What comes next: a cut that is due, as soon as the history may be cut. Until then starts wait for it, if they do, and if they have
    /// waited as long as the plan says, it is put off. `wakes` becomes true if starts wait no longer.
    pub fn next(&mut self, entries: u64, is_busy: bool, now: u64, wakes: &mut bool) -> Planned
        ensures turn { PlanTurn entries is_busy now self.old result self.new wakes.new }
        ensures woken { wakes.old ≡ true → wakes.new ≡ true }
    {
        if !self.is_due(entries) {
            return Planned::Nothing;
        }
        if !is_busy {
            return Planned::Cut;
        }
        match self.pause {
            Some(until) if now < until => Planned::Pause(until),
            Some(_) => {
                self.put_off(entries, wakes);
                Planned::Nothing
            }
            None => self.begin_pause(now),
        }
    }

    /// Has starts wait for a cut that is due, if the plan says so.
    fn begin_pause(&mut self, now: u64) -> Planned
        requires { self.old.pause ≡ None }
        ensures pause { (until : _) → (result ≡ Planned.Pause until) ↔ CanRest self.old now until }
        ensures paused { (until : _) → result ≡ Planned.Pause until → self.new.pause ≡ Some until }
        ensures cut { result ≢ Planned.Cut }
        ensures at { self.new.at ≡ self.old.at }
        ensures nothing { result ≡ Planned.Nothing → self.new ≡ self.old }
        ensures same { SamePlan self.old self.new }
    {
        if self.patience == 0 {
            return Planned::Nothing;
        }
        let until = now.saturating_add(self.patience);
        self.pause = Some(until);
        Planned::Pause(until)
    }

    /// Puts the next cut off until the history, which has this many entries, has as many more as the plan says. So it is done after each
    /// cut, too, and where one failed. `wakes` becomes true: starts wait no longer.
    pub fn put_off(&mut self, entries: u64, wakes: &mut bool)
        ensures put_off { IsPutOff entries self.old self.new }
        ensures same { SamePlan self.old self.new }
        ensures wakes { wakes.new ≡ true }
    {
        self.at = entries.saturating_add(self.after);
        self.pause = None;
        *wakes = true;
    }
}
