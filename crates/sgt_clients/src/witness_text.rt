//! The words of a witness, and of what leaves a level undecided.

ghost use Rattle.std.specs.Prelude.{◌≡◌, ◌++◌, OnOk};
ghost use Rattle.sgt_clients.specs.ReportText.{passage_of, ground_text, reason_text, partial_text, parting_at, spoken_of, faulty_text, fault_text, unseen_text, unseen_in};

use crate::clients::Clients;
use crate::evidence::{Spoken, parting, value_at, values_at};
use crate::part::Part;
use crate::piece::Piece;
use sgt_appends::{Fault, Reason};
use sgt_format::append_filled;
use sgt_levels::{Ground, Partial, Passage, Tie, Unseen};
use sgt_model::NoMemory;

/// The step of a tie.
pub(crate) fn passage_of(tie: &Tie) -> Passage
    ensures { result ≡ passage_of tie.now }
{
    Passage {
        from: tie.from,
        to: tie.to,
        why: Some(tie.ground),
    }
}

/// Appends why the first transaction comes before the second: by the ground, or without one in real time.
pub(crate) fn append_ground(
    text: &mut Vec<u8>,
    clients: &Clients,
    from: usize,
    to: usize,
    ground: Option<Ground>,
) -> Result<(), NoMemory>
    ensures { OnOk result (text.new.items ≡ text.old.items ++ ground_text clients.now from to ground) }
{
    let Some(ground) = ground else {
        return append_filled(
            text,
            b"# ended before # began",
            &[Piece::Transaction(from), Piece::Transaction(to)],
        );
    };
    match ground {
        Ground::Observed(reason) => append_reason(text, clients, from, to, reason),
        Ground::Late {
            first,
            second,
            reader,
            read,
        } => {
            let spoken = Spoken::of_one(value_at(clients, from, first));
            append_filled(
                text,
                b"#, with # of # and without # of #",
                &[
                    Piece::PlacedRead(clients, reader, read, spoken),
                    Piece::ValueAt(clients, from, first),
                    Piece::Transaction(from),
                    Piece::ValueAt(clients, to, second),
                    Piece::Transaction(to),
                ],
            )
        }
        Ground::Wait {
            first,
            read,
            append,
            ..
        } => {
            append_reason(text, clients, from, to, Reason::Missed { read, append })?;
            append_filled(
                text,
                b", and both append to key #",
                &[Piece::KeyAt(clients, from, first)],
            )
        }
    }
}

/// Appends what was observed that puts the first transaction before the second.
fn append_reason(
    text: &mut Vec<u8>,
    clients: &Clients,
    from: usize,
    to: usize,
    reason: Reason,
) -> Result<(), NoMemory>
    ensures { OnOk result (text.new.items ≡ text.old.items ++ reason_text clients.now from to reason) }
{
    match reason {
        Reason::Seen { append, read } => {
            let spoken = Spoken::of_one(value_at(clients, from, append));
            append_filled(
                text,
                b"#, with #, which # appended",
                &[
                    Piece::Read(clients, to, read, spoken),
                    Piece::ValueAt(clients, from, append),
                    Piece::Transaction(from),
                ],
            )
        }
        Reason::Missed { read, append } => {
            let spoken = Spoken::of_one(None);
            append_filled(
                text,
                b"#, without #, which # appended",
                &[
                    Piece::Read(clients, from, read, spoken),
                    Piece::ValueAt(clients, to, append),
                    Piece::Transaction(to),
                ],
            )
        }
        Reason::InOrder {
            first,
            second,
            reader,
            read,
        } => {
            let spoken = Spoken::of_two(
                value_at(clients, from, first),
                value_at(clients, to, second),
            );
            append_filled(
                text,
                b"#, with # of # before # of #",
                &[
                    Piece::PlacedRead(clients, reader, read, spoken),
                    Piece::ValueAt(clients, from, first),
                    Piece::Transaction(from),
                    Piece::ValueAt(clients, to, second),
                    Piece::Transaction(to),
                ],
            )
        }
    }
}

/// Appends the words of a partial read.
pub(crate) fn append_partial(
    text: &mut Vec<u8>,
    clients: &Clients,
    partial: &Partial,
) -> Result<(), NoMemory>
    ensures { OnOk result (text.new.items ≡ text.old.items ++ partial_text clients.now partial.now) }
{
    let spoken = Spoken::of_one(value_at(clients, partial.by, partial.seen));
    append_filled(
        text,
        b"#, with # and without #, both of #",
        &[
            Piece::PlacedRead(clients, partial.reader, partial.read, spoken),
            Piece::ValueAt(clients, partial.by, partial.seen),
            Piece::ValueAt(clients, partial.by, partial.missed),
            Piece::Placed(clients, partial.by),
        ],
    )
}

/// Appends which read would show the order of two appends.
pub(crate) fn append_unseen(
    text: &mut Vec<u8>,
    clients: &Clients,
    it: &Unseen,
) -> Result<(), NoMemory>
    ensures { OnOk result (text.new.items ≡ text.old.items ++ unseen_text clients.now it.now) }
{
    append_filled(
        text,
        b"read key # at the end: it would show the order of # of # and # of #",
        &[
            Piece::KeyAt(clients, it.one, it.first),
            Piece::ValueAt(clients, it.one, it.first),
            Piece::Placed(clients, it.one),
            Piece::ValueAt(clients, it.other, it.second),
            Piece::Placed(clients, it.other),
        ],
    )
}

/// Appends the template with that in place of its mark, if there are two appends that no read saw.
pub(crate) fn append_unseen_in(
    text: &mut Vec<u8>,
    clients: &Clients,
    template: &[u8],
    unseen: &Option<Unseen>,
) -> Result<(), NoMemory>
    ensures { OnOk result (text.new.items ≡ text.old.items ++ unseen_in template.now clients.now unseen.now) }
{
    match unseen {
        Some(it) => append_filled(text, template, &[Part::Unseen(clients, it)]),
        None => Ok(()),
    }
}

/// Appends the read and its fault.
pub(crate) fn append_fault(
    text: &mut Vec<u8>,
    clients: &Clients,
    reader: usize,
    read: usize,
    fault: &Fault,
) -> Result<(), NoMemory>
    ensures { OnOk result (text.new.items ≡ text.old.items ++ fault_text clients.now reader read fault.now) }
{
    let spoken = spoken_of(clients, reader, read, fault);
    append_faulty(text, clients, reader, read, spoken, fault)
}

/// Appends the read, of which these values are spoken of, and its fault.
fn append_faulty(
    text: &mut Vec<u8>,
    clients: &Clients,
    reader: usize,
    read: usize,
    spoken: Spoken,
    fault: &Fault,
) -> Result<(), NoMemory>
    ensures { OnOk result (text.new.items ≡ text.old.items ++ faulty_text clients.now reader read spoken fault.now) }
{
    let seen = Piece::PlacedRead(clients, reader, read, spoken);
    match *fault {
        Fault::Unwritten(value) => append_filled(
            text,
            b"#, but no transaction that may have committed appends #",
            &[seen, Piece::Value(value)],
        ),
        Fault::Aborted { by, append } => append_filled(
            text,
            b"#, with # of #, which aborted",
            &[
                seen,
                Piece::ValueAt(clients, by, append),
                Piece::Placed(clients, by),
            ],
        ),
        Fault::Twice(value) => append_filled(
            text,
            b"#, with a value twice: #",
            &[seen, Piece::Value(value)],
        ),
        Fault::EndsOtherwise => append_filled(
            text,
            b"#, which does not end with what # had appended",
            &[seen, Piece::Transaction(reader)],
        ),
        Fault::Ahead { append } => append_filled(
            text,
            b"#, with #, which # appended only later",
            &[
                seen,
                Piece::ValueAt(clients, reader, append),
                Piece::Transaction(reader),
            ],
        ),
        Fault::Swapped { by, first, second } => append_filled(
            text,
            b"#, with # before #, but # appended # first",
            &[
                seen,
                Piece::ValueAt(clients, by, second),
                Piece::ValueAt(clients, by, first),
                Piece::Placed(clients, by),
                Piece::ValueAt(clients, by, first),
            ],
        ),
        Fault::Incompatible { other, read } => append_filled(
            text,
            b"#, but #",
            &[seen, Piece::PlacedRead(clients, other, read, spoken)],
        ),
    }
}

/// The values that the fault of a read of the reader speaks of.
fn spoken_of(clients: &Clients, reader: usize, position: usize, fault: &Fault) -> Spoken
    ensures { result ≡ spoken_of clients.now reader position fault.now }
{
    match fault {
        Fault::Unwritten(value) | Fault::Twice(value) => Spoken::of_one(Some(*value)),
        Fault::Aborted { by, append } => Spoken::of_one(value_at(clients, *by, *append)),
        Fault::Ahead { append } => Spoken::of_one(value_at(clients, reader, *append)),
        Fault::Swapped { by, first, second } => Spoken::of_two(
            value_at(clients, *by, *first),
            value_at(clients, *by, *second),
        ),
        Fault::EndsOtherwise => Spoken::of_one(None),
        Fault::Incompatible { other, read } => {
            parting_at(clients, reader, position, *other, *read)
        }
    }
}

/// The values at the first position at which the two reads differ, if there is one.
fn parting_at(
    clients: &Clients,
    reader: usize,
    position: usize,
    other: usize,
    read: usize,
) -> Spoken
    ensures { result ≡ parting_at clients.now reader position other read }
{
    parting(
        values_at(clients, reader, position),
        values_at(clients, other, read),
    )
}
