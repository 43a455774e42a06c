//! Turns of a start.
ghost use Rattle.std.specs.Prelude.{◌≡◌, true, OnOk, OnErr};
ghost use Rattle.sgt_model.specs.Legality.{Legal};
ghost use Rattle.sgt_desk.specs.Attempts.{AsksStart};
ghost use Rattle.sgt_desk.specs.Calls.{StartTurn};
ghost use Rattle.sgt_desk.specs.Desks.{state, Wakes};

use crate::answering::Answering;
use crate::ask::{Ask, Turn};
use crate::desk::Desk;
use crate::reason::Reason;
use sgt_model::{Args, Event, NoMemory, ShortReply};

/// A turn of a start: it is made, or the call rests while another call waits for a cut, or as many are live as the limits allow.
///
/// `NoMemory` if an allocation failed; then nothing was started.
pub fn start<E: Answering>(
    desk: &mut Desk<E>,
    ask: &mut Ask,
    procedure: u16,
    args: &Args,
    now: u64,
    wakes: &mut bool,
) -> Result<Turn, NoMemory>
    ensures turn { StartTurn procedure args.now now (state E.state desk.old) ask.old (state E.state desk.new) ask.new result }
    ensures wakes { Wakes (state E.state desk.old) (state E.state desk.new) wakes.new }
    ensures woken { wakes.old ≡ true → wakes.new ≡ true }
{
    if desk.holds_up(ask) {
        return Ok(ask.turn(now));
    }
    if desk.cutters > 0 {
        ask.reason = Some(Reason::Cut);
        return Ok(ask.turn(now));
    }
    let mut reply = ShortReply::Unknown;
    ask_start(desk, procedure, args, &mut reply, wakes)?;
    ask.reply = reply;
    match reply {
        ShortReply::Full => {
            ask.reason = Some(Reason::Full(desk.engine.live_count()));
            Ok(ask.turn(now))
        }
        _ => {
            ask.reason = None;
            Ok(Turn::Done)
        }
    }
}

/// Asks for the start of a transaction.
///
/// `NoMemory` if an allocation failed; then nothing has changed.
#[inline(always)]
pub(crate) fn ask_start<E: Answering>(
    desk: &mut Desk<E>,
    procedure: u16,
    args: &Args,
    reply: &mut ShortReply,
    wakes: &mut bool,
) -> Result<(), NoMemory>
    ensures asks { OnOk result (AsksStart procedure args.now (state E.state desk.old) reply.new (state E.state desk.new)) }
    ensures unchanged { OnErr result (state E.state desk.new ≡ state E.state desk.old) }
    ensures legal { Legal (state E.state desk.new).configuration (state E.state desk.new).past }
    ensures wakes { Wakes (state E.state desk.old) (state E.state desk.new) wakes.new }
    ensures woken { wakes.old ≡ true → wakes.new ≡ true }
{
    let event = Event::Start {
        procedure,
        args: args.copied(),
    };
    desk.answer(&event, reply, wakes)?;
    Ok(())
}
