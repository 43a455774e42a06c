//! An event with its reply in few bytes, as the history stores them.
ghost use Rattle.std.specs.Prelude.{◌≡◌, ◌+◌, ◌≤◌, length, vec_len, vec_capacity};
ghost use Rattle.sgt_log.specs.Spans.{HasMore};
ghost use Rattle.sgt_log.specs.StoredEntries.{entry_of, IsEntry};
ghost use Rattle.sgt_log.specs.EntryParts.{full_entry, AreFew, HasArgs};

use crate::bare::BareEvent;
use crate::entry_lists::EntryLists;
use crate::stored_event::StoredEvent;
use crate::stored_reply::StoredReply;
use sgt_model::{ShortReply, Tid};

/// An entry whose lists are stored elsewhere.
#[derive(Clone, Copy)]
pub struct StoredEntry {
    pub event: StoredEvent,
    pub reply: StoredReply,
}

const _: () = prove!(size_of::<StoredEntry>() == 40);

impl StoredEntry {
    /// The stored form of the entry of this event and reply, with these lists. They are appended to those of transactions and of
    /// values, which have capacity for them.
    #[inline]
    pub fn of(
        event: BareEvent,
        reply: &ShortReply,
        lists: &EntryLists<'_>,
        tids: &mut Vec<Tid>,
        values: &mut Vec<i64>,
    ) -> Self
        requires few { AreFew lists.now }
        requires args { HasArgs event lists.now.args.now }
        requires tids { vec_len tids.old + 64 ≤ vec_capacity tids.old }
        requires values { vec_len values.old + 12 ≤ vec_capacity values.old }
        ensures entry { entry_of tids.new.items values.new.items result ≡ full_entry event reply.now lists.now }
        ensures within { IsEntry (length tids.new.items) values.new.items result }
        ensures more_tids { HasMore tids.old.items tids.new.items }
        ensures more_values { HasMore values.old.items values.new.items }
        ensures len_tids { vec_len tids.new ≤ vec_len tids.old + 64 }
        ensures len_values { vec_len values.new ≤ vec_len values.old + 12 }
        ensures capacity_tids { vec_capacity tids.new ≡ vec_capacity tids.old }
        ensures capacity_values { vec_capacity values.new ≡ vec_capacity values.old }
    {
        let event = StoredEvent::of(event, lists.args, values);
        let reply = StoredReply::of(reply, lists, tids, values);
        StoredEntry { event, reply }
    }
}
