//! The rule of the queue, and how each step changes the log of its end.
ghost use Rattle.std.specs.Prelude.{◌≡◌, ◌+◌, ◌-◌, ◌++◌, [], ◌∷◌};
ghost use Rattle.sgt_dispatch.specs.Logs.{first_log, consumer_log, spent_log};
ghost use Rattle.sgt_dispatch.specs.Fifo.{IsFifo, IsLearned};

use crate::item::Item;
use crate::log::Log;
use crossbeam_channel::protocol::{Join, Lesson, Outcome, Protocol, Split};

/// First in, first out, and each item to one consumer.
pub(crate) struct Fifo;

impl Protocol<Item, Log> for Fifo {
    ghost holds = { IsFifo };

    ghost first = { first_log };
}

/// A send: appends the item at the back.
pub(crate) struct PutStep;

impl Outcome<Item, Log> for PutStep {
    ghost then = { λ old item new. new ≡ record old { put = old.put ++ item ∷ [] } };
}

impl Lesson<Item, Log> for PutStep {
    ghost fact = { λ log items. Unit {0} };
}

/// A receive: removes the item at the front.
pub(crate) struct TakeStep;

impl Outcome<Item, Log> for TakeStep {
    ghost then = { λ old item new. new ≡ record old { taken = old.taken ++ item ∷ [] } };
}

impl Lesson<Item, Log> for TakeStep {
    ghost fact = { λ log items. Unit {0} };
}

/// Splits a consumer's pass off the producer's.
pub(crate) struct CutStep;

impl Split<Log> for CutStep {
    ghost left = { λ log. record log { parts = log.parts - 1 } };

    ghost right = { λ log. consumer_log };
}

/// Joins a consumer's pass to the producer's.
pub(crate) struct JoinStep;

impl Join<Log> for JoinStep {
    ghost both = { λ log other. record log { parts = log.parts + other.parts; joined = log.joined ++ other.taken ∷ [] } };

    ghost spent = { spent_log };
}

impl Lesson<Item, Log> for JoinStep {
    ghost fact = { IsLearned };
}
