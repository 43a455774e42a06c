//! An entry in the fewest bytes.
ghost use Rattle.std.specs.Prelude.{◌≡◌, IsTrue, length};
ghost use Rattle.sgt_log.specs.PackedEntries.{unpacked, IsStep, IsAmong};
ghost use Rattle.sgt_log.specs.StepKinds.{kind_of};

use crate::step_kind::StepKind;
use crate::stored_entry::StoredEntry;
use crate::stored_event::StoredEvent;
use crate::stored_reply::StoredReply;
use sgt_model::Tid;

/// An entry of a frequent kind, whole, or the index of one of another kind in a list of those.
#[derive(Clone, Copy)]
pub enum PackedEntry {
    /// A step that read a value.
    Looked {
        table: u8,
        t: Tid,
        id: i64,
        value: i64,
    },
    /// A step that wrote a value.
    Wrote {
        table: u8,
        t: Tid,
        id: i64,
        value: i64,
    },
    /// A step that found the procedure at its end.
    Ended(Tid),
    /// The start of a transaction. Its arguments are in the list of values.
    Started {
        procedure: u16,
        count: u8,
        t: Tid,
        from: usize,
    },
    /// A commit. Its answers are in the list of values.
    Committed {
        count: u8,
        t: Tid,
        from: usize,
    },
    /// The index of an entry of another kind.
    Other(usize),
}

// It takes as few bytes as a read's fields.
const _: () = prove!(size_of::<PackedEntry>() == 24);

impl PackedEntry {
    /// The entry, where those of other kinds are these.
    #[inline(always)]
    pub fn unpacked(&self, others: &[StoredEntry]) -> StoredEntry
        requires { IsAmong (length others.now) self.now }
        ensures { result ≡ unpacked others.now self.now }
    {
        match self {
            PackedEntry::Looked {
                table,
                t,
                id,
                value,
            } => StoredEntry {
                event: StoredEvent::Step(*t),
                reply: StoredReply::Looked {
                    table: *table,
                    id: *id,
                    value: *value,
                },
            },
            PackedEntry::Wrote {
                table,
                t,
                id,
                value,
            } => StoredEntry {
                event: StoredEvent::Step(*t),
                reply: StoredReply::Wrote {
                    table: *table,
                    id: *id,
                    value: *value,
                },
            },
            PackedEntry::Ended(t) => StoredEntry {
                event: StoredEvent::Step(*t),
                reply: StoredReply::Ended,
            },
            PackedEntry::Started {
                procedure,
                count,
                t,
                from,
            } => StoredEntry {
                event: StoredEvent::Start {
                    procedure: *procedure,
                    count: *count,
                    from: *from,
                },
                reply: StoredReply::Started(*t),
            },
            PackedEntry::Committed { count, t, from } => StoredEntry {
                event: StoredEvent::Commit(*t),
                reply: StoredReply::Committed {
                    count: *count,
                    from: *from,
                },
            },
            PackedEntry::Other(at) => others[*at],
        }
    }

    /// Whether it is a step that read, wrote or came to the procedure's end. Such an entry has no lists, so it is the
    /// same in every history.
    #[inline(always)]
    pub fn is_step(&self) -> bool
        ensures { IsTrue result → IsStep self.now }
    {
        matches!(
            self,
            PackedEntry::Looked { .. } | PackedEntry::Wrote { .. } | PackedEntry::Ended(_)
        )
    }

    /// What it is to a caller that makes one step after another.
    #[inline(always)]
    pub fn kind(&self) -> StepKind
        ensures { result ≡ kind_of self.now }
    {
        match self {
            PackedEntry::Looked { .. } | PackedEntry::Wrote { .. } => StepKind::Access,
            PackedEntry::Ended(_) => StepKind::End,
            _ => StepKind::Other,
        }
    }

    /// Whether both are the same step that read, wrote or came to the procedure's end.
    #[inline(always)]
    pub fn is_same_step(&self, other: &Self) -> bool
        ensures { IsTrue result → IsStep self.now × (self.now ≡ other.now) }
    {
        match (self, other) {
            (
                PackedEntry::Looked {
                    table,
                    t,
                    id,
                    value,
                },
                PackedEntry::Looked {
                    table: other_table,
                    t: u,
                    id: other_id,
                    value: other_value,
                },
            )
            | (
                PackedEntry::Wrote {
                    table,
                    t,
                    id,
                    value,
                },
                PackedEntry::Wrote {
                    table: other_table,
                    t: u,
                    id: other_id,
                    value: other_value,
                },
            ) => t == u && table == other_table && id == other_id && value == other_value,
            (PackedEntry::Ended(t), PackedEntry::Ended(u)) => t == u,
            _ => false,
        }
    }
}
