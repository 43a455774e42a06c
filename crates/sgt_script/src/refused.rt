//! The line that says why an event was refused.
ghost use Rattle.std.specs.Prelude.{◌≡◌, take, OnErr, vec_len};

use sgt_assembly::SgtEngine;
use sgt_explain::{Refusal, append_refusal, refusal_of};
use sgt_format::append_numbered;
use sgt_model::{Entry, Event, NoMemory, Tid};
use sgt_proc::Ahead;

/// Appends why the newest entry, of this line of the script, is refused, as
/// `line 2: DepositChecking takes 2 arguments, found 1`. If it is not refused, it appends nothing. After a cut,
/// transactions are numbered anew.
///
/// `NoMemory` if an allocation failed; then the text is unchanged.
pub(crate) fn append_refused(
    text: &mut Vec<u8>,
    engine: &SgtEngine,
    line: u64,
    is_after_cut: bool,
) -> Result<(), NoMemory>
    ensures kept { take (vec_len text.old) text.new.items ≡ text.old.items }
    ensures err { OnErr result (text.new.items ≡ text.old.items) }
{
    let Some(refusal) = newest_refusal(engine) else {
        return Ok(());
    };
    let mut words = Vec::new(*text.allocator());
    append_numbered(&mut words, b"line ", line)?;
    words.extend_from_slice(b": ")?;
    match about_to_raise(engine, &refusal) {
        Some(t) => {
            append_numbered(&mut words, b"the procedure of ", t.0)?;
            words.extend_from_slice(
                b" raises a code: its next step reports it, or with a third limit of 1 its commit",
            )?;
        }
        None => append_refusal(&mut words, &refusal)?,
    }
    if is_after_cut && matches!(refusal, Refusal::Unknown(_)) {
        words.extend_from_slice(b" since the cut")?;
    }
    words.extend_from_slice(b"\n")?;
    text.extend_from_slice(words.as_slice())?;
    Ok(())
}

// The transaction whose procedure is about to raise a code, if an event is refused because of that.
fn about_to_raise(engine: &SgtEngine, refusal: &Refusal) -> Option<Tid> {
    let Refusal::NotEnded(t) = refusal else {
        return None;
    };
    match engine.sched().ahead(*t)? {
        Ahead::Asks(_) => Some(*t),
        _ => None,
    }
}

// Why the newest entry is refused, if it is.
fn newest_refusal(engine: &SgtEngine) -> Option<Refusal> {
    let Entry { event, reply } = engine.history().last()?;
    refusal_of(&event, &reply, taken_by(engine, &event))
}

// How many arguments the procedure takes that the event starts, if there is one.
fn taken_by(engine: &SgtEngine, event: &Event) -> Option<u8> {
    match event {
        Event::Start { procedure, .. } => {
            let procedure = engine.sched().procedures().get(usize::from(*procedure))?;
            Some(procedure.args())
        }
        _ => None,
    }
}
