//! The consumers of a queue, and what they leave when they end.
ghost use Rattle.std.specs.Prelude.{◌≡◌};
ghost use Rattle.crossbeam_channel.specs.Claims.{IsSeatAt};
ghost use Rattle.crossbeam_channel.specs.Ends.{receives_on};
ghost use Rattle.sgt_dispatch.specs.Ends.{IsConsumer, consumer_of, after_take};

use crate::fifo::{Fifo, TakeStep};
use crate::item::Item;
use crate::log::Log;
use crossbeam_channel::{Pass, RuledReceiver};
use std::marker::Model;
use std::sync::Wait;

/// The result of a take.
#[derive(Drop)]
pub enum Take {
    /// The number of the job at the front.
    Job(u32),
    /// The stop at the front.
    Stop,
    /// Nothing: the queue was empty, and its producer gone.
    Gone,
}

/// One consumer of a queue.
#[derive(Drop)]
pub struct Taker {
    receiver: RuledReceiver<Item, Log, Fifo>,
    pass: Pass<Item, Log>,
}

impl Model for Taker {
    ghost use Rattle.crossbeam_channel.specs.Claims.{IsSeatAt};
    ghost use Rattle.crossbeam_channel.specs.Ends.{receives_on};
    ghost use Rattle.sgt_dispatch.specs.Ends.{ConsumerState, consumer_of, IsConsumer};

    ghost Value = { ConsumerState };

    ghost view = { λ t. consumer_of t.pass };

    ghost invariant = { λ t. IsSeatAt (receives_on t.receiver) t.pass × IsConsumer t.pass };
}

/// What a consumer leaves: its record of its items, and no end of the queue. The producer joins it.
#[derive(Drop)]
pub struct Stub {
    pub(crate) pass: Pass<Item, Log>,
}

impl Model for Stub {
    ghost use Rattle.sgt_dispatch.specs.Ends.{ConsumerState, consumer_of, IsConsumer};

    ghost Value = { ConsumerState };

    ghost view = { λ s. consumer_of s.pass };

    ghost invariant = { λ s. IsConsumer s.pass };
}

impl Taker {
    /// A consumer, with a pass of its own.
    pub(crate) fn new(receiver: RuledReceiver<Item, Log, Fifo>, pass: Pass<Item, Log>) -> Self
        requires seat { IsSeatAt (receives_on receiver) pass }
        requires log { IsConsumer pass }
        ensures { result ≡ consumer_of pass }
    {
        Taker { receiver, pass }
    }

    /// Takes the item at the front, in one step. Blocks while the queue is empty and its producer exists.
    pub fn take<R: Wait>(&mut self, rt: &R) -> Take
        ensures { self.new ≡ after_take result self.old }
    {
        match self.receiver.recv_as::<TakeStep, R>(rt, &mut self.pass) {
            Ok(Item::Job(job)) => Take::Job(job),
            Ok(Item::Stop) => Take::Stop,
            Err(_) => Take::Gone,
        }
    }

    /// Ends this consumer. A producer that waits for capacity is released once all consumers have left.
    pub fn leave(self) -> Stub
        ensures { result ≡ self }
    {
        let Taker { receiver, pass } = self;
        drop(receiver);
        Stub { pass }
    }
}
