//! The handle in which C keeps an engine.
ghost use Rattle.std.specs.Prelude.{◌≡◌, ◌↔◌, Some, None, IsNone, IsSome, IsTrue, nat_eq, option_map};
ghost use Rattle.std.specs.Option.{is_some};
ghost use Rattle.sgt_c.specs.Handles.{IsBusy};

use crate::held::Held;
use crate::slot::Slot;
use std::alloc::Global;
use std::mem::replace;

/// Takes the engine out of a handle. If another call is in it, or there is none, the function returns that status.
macro_rules! take_held {
    ($alloc:expr, $engine:expr) => {{
        if $engine.is_busy() {
            return $crate::status::BUSY;
        }
        let Some(held) = $engine.take($alloc) else {
            return $crate::status::CLOSED;
        };
        held
    }};
}

pub(crate) use take_held;

/// The state of a handle that is empty.
const CLOSED: u8 = 0;

/// The state of a handle that holds an engine.
const OPEN: u8 = 1;

/// The state of a handle whose engine is taken out by a running call.
const BUSY: u8 = 2;

/// The engine, as C holds it: all bytes are zero before `sgt_open` and after `sgt_close`.
#[repr(C)]
#[derive(Drop)]
pub struct Handle {
    pub state: u8,
    pub slot: Slot,
    pub ghost agrees: { nat_eq state 1 ≡ is_some slot.held },
}

impl Handle {
    /// A closed handle.
    pub fn closed(alloc: Global) -> Handle
        ensures held { result.slot.held ≡ None }
        ensures free { ¬ IsBusy result.state }
    {
        Handle {
            state: CLOSED,
            slot: Slot::empty(alloc),
        }
    }

    /// Whether it holds an engine.
    pub fn is_open(&self) -> bool
        ensures { result ≡ is_some self.now.slot.held }
    {
        self.state == OPEN
    }

    /// Whether a call is in it.
    pub fn is_busy(&self) -> bool
        ensures { IsTrue result ↔ IsBusy self.now.state }
    {
        self.state >= BUSY
    }

    /// Takes the engine out, if there is one, and leaves the handle busy. Else nothing changes.
    pub fn take(&mut self, alloc: Global) -> Option<Box<Held>>
        ensures taken { option_map (λ b. b.value) result ≡ self.old.slot.held }
        ensures closed { self.new.slot.held ≡ None }
        ensures open { IsSome result → ¬ IsBusy self.old.state }
        ensures busy { IsSome result → IsBusy self.new.state }
        ensures same { IsNone result → self.new.state ≡ self.old.state }
    {
        if !self.is_open() {
            return None;
        }
        let Handle { state, slot } = self;
        *state = BUSY;
        let taken = replace(slot, Slot::empty(alloc));
        Some(taken.into_engine())
    }

    /// Puts an engine into a handle that has none. The handle is not busy afterwards.
    pub fn put(&mut self, engine: Box<Held>)
        requires { self.old.slot.held ≡ None }
        ensures held { self.new.slot.held ≡ Some engine.value }
        ensures free { ¬ IsBusy self.new.state }
    {
        let Handle { state, slot } = self;
        *state = OPEN;
        *slot = Slot::holding(engine);
    }
}
