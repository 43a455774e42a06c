//! The lines and members on the orders that a snapshot run keeps.
ghost use Rattle.std.specs.Prelude.{◌≡◌, ◌++◌, OnOk};
ghost use Rattle.sgt_clients.specs.OrderText.{kept_answer, kept_lines, kept_text, strong_text, orders_text, kept_members, kept_member, orders_members};

use crate::clients::Clients;
use crate::json_text::append_cycle;
use crate::level::Answer;
use crate::level_json::{answer_text, append_run};
use crate::orders::{Kept, KeptOrders};
use crate::part::Part;
use crate::report_text::append_steps;
use sgt_format::append_filled;
use sgt_model::NoMemory;

/// Appends the lines on both orders, if real time is kept.
pub(crate) fn append_orders(
    text: &mut Vec<u8>,
    clients: &Clients,
    orders: &Option<KeptOrders>,
) -> Result<(), NoMemory>
    ensures { OnOk result (text.new.items ≡ text.old.items ++ orders_text clients.now orders.now) }
{
    match orders {
        Some(kept) => {
            append_strong(text, clients, kept)?;
            append_kept(text, clients, b"session", &kept.session)
        }
        None => Ok(()),
    }
}

/// Appends whether a run keeps real time, and what leaves none, unless the lines before say it.
fn append_strong(text: &mut Vec<u8>, clients: &Clients, orders: &KeptOrders) -> Result<(), NoMemory>
    ensures { OnOk result (text.new.items ≡ text.old.items ++ strong_text clients.now orders.now) }
{
    if orders.strong_above {
        text.extend_from_slice(b"strong snapshot isolation no: by the lines above\n")?;
        return Ok(());
    }
    append_kept(text, clients, b"strong", &orders.strong)
}

/// Appends whether a run keeps the order of this name, and what leaves none.
fn append_kept(
    text: &mut Vec<u8>,
    clients: &Clients,
    name: &[u8],
    kept: &Kept,
) -> Result<(), NoMemory>
    ensures { OnOk result (text.new.items ≡ text.old.items ++ kept_text name.now clients.now kept.now) }
{
    append_filled(
        text,
        b"# snapshot isolation #",
        &[Part::Words(name), Part::Words(answer_text(answer_of(kept)))],
    )?;
    append_lines(text, clients, kept)
}

/// Whether a run keeps an order.
fn answer_of(kept: &Kept) -> Answer
    ensures { result ≡ kept_answer kept.now }
{
    match kept {
        Kept::Implied | Kept::Run(_) => Answer::Yes,
        Kept::NotSnapshot | Kept::Cycle(_) => Answer::No,
        Kept::Open => Answer::Undecided,
    }
}

/// Appends the end of the line, and the lines on what leaves no run.
fn append_lines(text: &mut Vec<u8>, clients: &Clients, kept: &Kept) -> Result<(), NoMemory>
    ensures { OnOk result (text.new.items ≡ text.old.items ++ kept_lines clients.now kept.now) }
{
    match kept {
        Kept::Cycle(passages) => {
            text.extend_from_slice(b":\n")?;
            append_steps(text, clients, passages.as_slice())
        }
        Kept::Implied | Kept::Run(_) | Kept::NotSnapshot | Kept::Open => {
            Ok(text.extend_from_slice(b"\n")?)
        }
    }
}

/// Appends the members on both orders, if real time is kept.
pub(crate) fn append_orders_members(
    text: &mut Vec<u8>,
    clients: &Clients,
    orders: &Option<KeptOrders>,
) -> Result<(), NoMemory>
    ensures { OnOk result (text.new.items ≡ text.old.items ++ orders_members clients.now orders.now) }
{
    match orders {
        Some(kept) => {
            append_member(text, clients, b"strong", &kept.strong)?;
            append_member(text, clients, b"session", &kept.session)
        }
        None => Ok(()),
    }
}

/// Appends the member of the order of this name.
fn append_member(
    text: &mut Vec<u8>,
    clients: &Clients,
    name: &[u8],
    kept: &Kept,
) -> Result<(), NoMemory>
    ensures { OnOk result (text.new.items ≡ text.old.items ++ kept_member name.now clients.now kept.now) }
{
    append_filled(
        text,
        b",\"#-snapshot-isolation\":{\"holds\":\"#\"",
        &[Part::Words(name), Part::Words(answer_text(answer_of(kept)))],
    )?;
    append_members(text, clients, kept)?;
    text.extend_from_slice(b"}")?;
    Ok(())
}

/// Appends the run, or the cycle that leaves none.
fn append_members(text: &mut Vec<u8>, clients: &Clients, kept: &Kept) -> Result<(), NoMemory>
    ensures { OnOk result (text.new.items ≡ text.old.items ++ kept_members clients.now kept.now) }
{
    match kept {
        Kept::Run(run) => append_run(text, clients, run),
        Kept::Cycle(passages) => append_cycle(text, clients, passages.as_slice()),
        Kept::Implied | Kept::NotSnapshot | Kept::Open => Ok(()),
    }
}
