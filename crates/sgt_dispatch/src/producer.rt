//! The producer of a queue.
ghost use Rattle.std.specs.Prelude.{◌≡◌, ◌<◌, if◌then◌else◌};
ghost use Rattle.crossbeam_channel.specs.Claims.{IsSeatAt};
ghost use Rattle.crossbeam_channel.specs.Ends.{sends_on};
ghost use Rattle.sgt_dispatch.specs.declared.item.Item.TheVariants as Of;
ghost use Rattle.sgt_dispatch.specs.Ends.{IsProducer, producer_of, with_put, with_joined, Accounted};

use crate::consumer::Stub;
use crate::fifo::{Fifo, JoinStep, PutStep};
use crate::item::Item;
use crate::log::Log;
use crossbeam_channel::{Pass, RuledSender};
use std::marker::Model;
use std::sync::Wait;

/// The one producer of a queue. It joins what its consumers leave.
#[derive(Drop)]
pub struct Putter {
    sender: RuledSender<Item, Log, Fifo>,
    pass: Pass<Item, Log>,
    unjoined: usize,
}

impl Model for Putter {
    ghost use Rattle.crossbeam_channel.specs.Claims.{IsSeatAt};
    ghost use Rattle.crossbeam_channel.specs.Ends.{sends_on};
    ghost use Rattle.sgt_dispatch.specs.Ends.{ProducerState, producer_of, IsProducer};

    ghost Value = { ProducerState };

    ghost view = { λ p. producer_of p.pass p.unjoined };

    ghost invariant = { λ p. IsSeatAt (sends_on p.sender) p.pass × IsProducer p.pass p.unjoined };
}

impl Putter {
    /// The producer of a queue, with the pass from which its consumers' passes were split.
    pub(crate) fn new(
        sender: RuledSender<Item, Log, Fifo>,
        pass: Pass<Item, Log>,
        consumers: usize,
    ) -> Self
        requires seat { IsSeatAt (sends_on sender) pass }
        requires log { IsProducer pass consumers }
        ensures { result ≡ producer_of pass consumers }
    {
        Putter {
            sender,
            pass,
            unjoined: consumers,
        }
    }

    /// Puts the number of a job at the back, in one step. Returns `false` if all consumers have left; then nothing was
    /// put. Blocks while the queue is full.
    pub fn put<R: Wait>(&mut self, rt: &R, job: u32) -> bool
        ensures { self.new ≡ (if result then with_put (Of.Job job) self.old else self.old) }
    {
        self.send(rt, Item::Job(job))
    }

    /// Puts a stop at the back, in one step. Returns `false` if all consumers have left; then nothing was put. Blocks
    /// while the queue is full.
    pub fn stop<R: Wait>(&mut self, rt: &R) -> bool
        ensures { self.new ≡ (if result then with_put Of.Stop self.old else self.old) }
    {
        self.send(rt, Item::Stop)
    }

    /// Puts an item at the back, in one step. Returns whether it was put.
    fn send<R: Wait>(&mut self, rt: &R, item: Item) -> bool
        ensures { self.new ≡ (if result then with_put item self.old else self.old) }
    {
        self.sender
            .send_as::<PutStep, R>(rt, &mut self.pass, item)
            .is_ok()
    }

    /// Joins what a consumer of this queue left. What the joined consumers received is then known to be among the items
    /// sent, in each consumer's order, and no item more often. Once all are joined, it is exactly what left the queue.
    pub fn join(self, stub: Stub) -> Putter
        requires { stub.queue ≡ self.queue }
        ensures joined { result ≡ with_joined stub.taken self }
        ensures one { 0 < self.unjoined }
        ensures accounted { Accounted result }
    {
        let Putter {
            sender,
            mut pass,
            unjoined,
        } = self;
        let Stub { pass: other } = stub;
        sender.absorb::<JoinStep>(&mut pass, other);
        sender.learn_as::<JoinStep>(&mut pass);
        Putter {
            sender,
            pass,
            unjoined: unjoined - 1,
        }
    }
}
