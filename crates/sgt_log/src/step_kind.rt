//! What an entry is to a caller that makes one step after another.
ghost use Rattle.std.specs.Prelude.{IsTrue};
ghost use Rattle.sgt_model.specs.declared.entry.Entry.{Entry};
ghost use Rattle.sgt_log.specs.EntryParts.{IsQuiet};
ghost use Rattle.sgt_log.specs.StepKinds.{IsOfKind};

/// What an entry is to a caller that makes one step after another.
#[derive(Clone, Copy)]
pub enum StepKind {
    /// A step that read or wrote a value.
    Access,
    /// A step that found the procedure at its end.
    End,
    /// Any other entry. A step that found no value is one.
    Other,
}

impl StepKind {
    /// Whether it is known as a step that starts and ends nothing.
    #[inline(always)]
    pub fn is_step(self) -> bool
        ensures { IsTrue result → (e : Entry) → IsOfKind self e → IsQuiet e }
    {
        matches!(self, StepKind::Access | StepKind::End)
    }
}
