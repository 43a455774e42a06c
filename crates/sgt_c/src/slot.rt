//! Space for one engine in a struct of C.
ghost use Rattle.std.specs.Prelude.{◌≡◌, Option, Some, None, IsSome};
ghost use Rattle.sgt_c.specs.declared.held.Held.{Held};
ghost use Rattle.sgt_c.specs.SlotOwnership.{slot_owns, slot_coded};

mod unboxed;

use crate::held::Held;
use std::alloc::Global;
use std::marker::{Model, Send};
use std::ptr::null_mut;
use unboxed::Unboxed;

/// Space for a `Box<Held>`, as a pointer without a type. It is empty or holds one.
#[repr(C)]
#[derive(Drop)]
pub struct Slot {
    at: *mut u8,
    alloc: Global,
    pub ghost held: { Option Held } by { slot_coded },
}

impl Model for Slot {
    ghost also_owns = { λ s. slot_owns s.alloc s.at s.held };
}

/// It may move to another thread, as the engine in it may.
unsafe impl Send for Slot {}

impl Slot {
    /// A slot that is empty.
    pub fn empty(alloc: Global) -> Slot
        ensures { result.held ≡ None }
    {
        Slot {
            at: null_mut(),
            alloc,
        }
    }

    /// A slot that holds this engine.
    pub fn holding(engine: Box<Held>) -> Slot
        ensures { result.held ≡ Some engine.value }
    {
        Slot::cast(Unboxed::of(engine))
    }

    /// The engine of a slot that holds one.
    pub fn into_engine(self) -> Box<Held>
        requires { IsSome self.held }
        ensures { Some result.value ≡ self.held }
    {
        self.cast_back().into_box()
    }

    fn cast(unboxed: Unboxed<Held, Global>) -> Slot
        ensures { result.held ≡ Some unboxed.value }
    {
        let Unboxed { at, alloc } = unboxed;
        Slot {
            at: at as *mut u8,
            alloc,
        }
    }

    fn cast_back(self) -> Unboxed<Held, Global>
        requires { IsSome self.held }
        ensures { Some result.value ≡ self.held }
    {
        let Slot { at, alloc } = self;
        Unboxed {
            at: at as *mut Held,
            alloc,
        }
    }
}
