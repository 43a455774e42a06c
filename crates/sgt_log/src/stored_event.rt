//! An event in few bytes, as the history stores it.
ghost use Rattle.std.specs.Prelude.{◌≡◌, ◌+◌, ◌≤◌, length, vec_len, vec_capacity};
ghost use Rattle.sgt_log.specs.Spans.{part_of, HasMore};
ghost use Rattle.sgt_log.specs.StoredEntries.{bare_of, args_at, event_of, IsEvent};
ghost use Rattle.sgt_log.specs.EntryParts.{full_event, HasArgs};

use crate::access_kind::AccessKind;
use crate::bare::BareEvent;
use crate::span::Span;
use sgt_model::{Event, Tid};

/// An event. Its arguments are in the list of values, from the index `from`: as many as `count` of a start, and as many as its
/// kind has of an access.
#[derive(Clone, Copy)]
pub enum StoredEvent {
    Start {
        procedure: u16,
        count: u8,
        from: usize,
    },
    Step(Tid),
    Access {
        kind: AccessKind,
        table: u8,
        t: Tid,
        from: usize,
    },
    Commit(Tid),
    Quit(Tid),
}

// It takes as few bytes as a start's fields.
const _: () = prove!(size_of::<StoredEvent>() == 16);

impl StoredEvent {
    /// The stored form of an event with these arguments. They are appended to the list of values, which has capacity for them.
    pub fn of(event: BareEvent, args: &[i64], values: &mut Vec<i64>) -> Self
        requires few { length args.now ≤ 4 }
        requires args { HasArgs event args.now }
        requires spare { vec_len values.old + 4 ≤ vec_capacity values.old }
        ensures event { event_of values.new.items result ≡ full_event event args.now }
        ensures within { IsEvent values.new.items result }
        ensures more { HasMore values.old.items values.new.items }
        ensures len { vec_len values.new ≤ vec_len values.old + 4 }
        ensures capacity { vec_capacity values.new ≡ vec_capacity values.old }
    {
        match event {
            BareEvent::Start(procedure) => {
                let Span { from, count } = Span::append(values, args);
                StoredEvent::Start {
                    procedure,
                    count,
                    from,
                }
            }
            BareEvent::Step(t) => StoredEvent::Step(t),
            BareEvent::Access { kind, table, t } => {
                let Span { from, .. } = Span::append(values, args);
                StoredEvent::Access {
                    kind,
                    table,
                    t,
                    from,
                }
            }
            BareEvent::Commit(t) => StoredEvent::Commit(t),
            BareEvent::Quit(t) => StoredEvent::Quit(t),
        }
    }

    /// The event without its arguments.
    pub fn bare(&self) -> BareEvent
        ensures { result ≡ bare_of self.now }
    {
        match self {
            StoredEvent::Start { procedure, .. } => BareEvent::Start(*procedure),
            StoredEvent::Step(t) => BareEvent::Step(*t),
            StoredEvent::Access { kind, table, t, .. } => BareEvent::Access {
                kind: *kind,
                table: *table,
                t: *t,
            },
            StoredEvent::Commit(t) => BareEvent::Commit(*t),
            StoredEvent::Quit(t) => BareEvent::Quit(*t),
        }
    }

    /// Its arguments. An event of another kind has none.
    pub fn args<'a>(&self, values: &'a [i64]) -> &'a [i64]
        requires { IsEvent values.now self.now }
        ensures args { result.now ≡ part_of values.now (args_at self.now) }
        ensures few { length result.now ≤ 4 }
    {
        match self {
            StoredEvent::Start { count, from, .. } => Span::new(*from, *count).items(values),
            StoredEvent::Access { kind, from, .. } => {
                Span::new(*from, kind.arg_count()).items(values)
            }
            StoredEvent::Step(_) | StoredEvent::Commit(_) | StoredEvent::Quit(_) => &[],
        }
    }

    /// The event in full.
    pub fn in_full(&self, values: &[i64]) -> Event
        requires { IsEvent values.now self.now }
        ensures { result ≡ event_of values.now self.now }
    {
        match self {
            StoredEvent::Start {
                procedure,
                count,
                from,
            } => Event::Start {
                procedure: *procedure,
                args: Span::new(*from, *count).values(values),
            },
            StoredEvent::Step(t) => Event::Step(*t),
            StoredEvent::Access { kind, table, t, .. } => {
                Event::Access(*t, kind.request(*table, self.args(values)))
            }
            StoredEvent::Commit(t) => Event::Commit(*t),
            StoredEvent::Quit(t) => Event::Quit(*t),
        }
    }
}
