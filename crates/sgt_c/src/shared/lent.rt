//! The engine of a handle, as a desk knows it.
ghost use Rattle.std.specs.Prelude.{◌≡◌};
ghost use Rattle.sgt_desk.specs.Desks.{state};
ghost use Rattle.sgt_c.specs.DeskStructs.{desk_in, lent_state};

use crate::cutting::cut_engine;
use crate::held::Held;
use crate::shared::desk_struct::SgtDesk;
use sgt_desk::{Answering, Desk};
use sgt_model::{Event, NoMemory, ShortReply, Tid};
use std::alloc::Global;

/// The engine of a handle, lent to a desk for one turn.
#[derive(Drop)]
pub struct Lent {
    pub held: Box<Held>,
}

impl Answering for Lent {
    ghost use Rattle.sgt_c.specs.DeskStructs.{lent_state};

    ghost state = { lent_state };

    #[inline(always)]
    fn answer(&mut self, event: &Event, reply: &mut ShortReply) -> Result<(), NoMemory> {
        self.held.engine.answer_inline(event, reply)
    }

    fn is_live(&self, t: Tid) -> bool {
        self.held.engine.is_live(t)
    }

    fn live_count(&self) -> usize {
        self.held.engine.sched().live_count()
    }

    fn cut(&mut self, alloc: Global) -> Result<(), NoMemory> {
        cut_engine(alloc, &mut self.held.engine)
    }
}

/// The desk of an engine, with what its threads know of each other.
#[inline(always)]
pub fn lend(held: Box<Held>, known: &SgtDesk) -> Desk<Lent>
    ensures { state lent_state result ≡ desk_in known.now held.value }
{
    Desk {
        part: held.part,
        engine: Lent { held },
        ended: known.ended,
        reported: known.reported,
        committing: known.committing,
        cutters: known.cutters,
    }
}

/// The engine of a desk. What its threads know of each other is written.
#[inline(always)]
pub fn give_back(desk: Desk<Lent>, known: &mut SgtDesk) -> Box<Held>
    ensures { desk_in known.new result.value ≡ state lent_state desk }
{
    let Desk {
        engine,
        part,
        ended,
        reported,
        committing,
        cutters,
    } = desk;
    let Lent { mut held } = engine;
    held.part = part;
    known.ended = ended;
    known.reported = reported;
    known.committing = committing;
    known.cutters = cutters;
    held
}
