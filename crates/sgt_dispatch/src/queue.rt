//! Makes a queue, and limits its size.
ghost use Rattle.std.specs.Prelude.{◌≡◌, ◌-◌, ◌<◌, ◌≤◌, ◌↔◌, [], Err, IfOk, IfErr, OnOk, All, vec_len, vec_capacity};
ghost use Rattle.crossbeam_channel.specs.Claims.{view, IsSeatAt};
ghost use Rattle.crossbeam_channel.specs.Ends.{sends_on, receives_on};
ghost use Rattle.sgt_dispatch.specs.declared.errors.FeedError.TheVariants as FeedError;
ghost use Rattle.sgt_dispatch.specs.Ends.{queue_of, new_producer, new_consumer, IsCapacity, IsJobCount, IsConsumerCount};
ghost use Rattle.sgt_dispatch.specs.Logs.{first_log};

use crate::consumer::Taker;
use crate::errors::FeedError;
use crate::fifo::{CutStep, Fifo};
use crate::item::Item;
use crate::log::Log;
use crate::producer::Putter;
use crossbeam_channel::{Pass, RuledReceiver, RuledSender, bounded_with};
use std::alloc::{AllocError, Global};

/// The greatest capacity of a queue.
pub const MOST_CAPACITY: usize = 1024;

/// The most jobs that a queue may be made for.
pub const MOST_JOBS: usize = 1_000_000;

/// The most consumers that a queue may have.
pub const MOST_CONSUMERS: usize = 16;

/// A queue of jobs. No value of this type is made: a queue consists of its ends.
pub struct Feed;

impl Feed {
    /// The ends of a new queue, which holds up to `capacity` items: its producer and its consumers.
    ///
    /// The errors are tested in this order:
    /// - `BadRoom`: the capacity is not from 1 to `MOST_CAPACITY`.
    /// - `BadTakers`: the number of consumers is not from 1 to `MOST_CONSUMERS`.
    /// - `NoMemory`: an allocation failed.
    pub fn make(
        alloc: Global,
        capacity: usize,
        consumers: usize,
    ) -> Result<(Putter, Vec<Taker>), FeedError>
        ensures bad_room { (result ≡ Err FeedError.BadRoom) ↔ (¬ IsCapacity capacity) }
        ensures bad_takers { (result ≡ Err FeedError.BadTakers) ↔ (IsCapacity capacity × (¬ IsConsumerCount consumers)) }
        ensures producer { IfOk result (λ ends. ends.0 ≡ new_producer ends.0.queue consumers) }
        ensures count { IfOk result (λ ends. vec_len ends.1 ≡ consumers) }
        ensures consumers { IfOk result (λ ends. All (λ consumer. consumer ≡ new_consumer ends.0.queue) ends.1.items) }
    {
        if capacity < 1 || capacity > MOST_CAPACITY {
            return Err(FeedError::BadRoom);
        }
        if consumers < 1 || consumers > MOST_CONSUMERS {
            return Err(FeedError::BadTakers);
        }
        ends_of(alloc, capacity, consumers)
    }

    /// Like `make`, with capacity for this many jobs and a stop for each consumer, so that sending that many never
    /// blocks. Tests check that; no clause says that a call blocks.
    ///
    /// `BadRoom` if the jobs are over `MOST_JOBS`; then `BadTakers` and `NoMemory`, as in `make`.
    pub fn make_for(
        alloc: Global,
        jobs: usize,
        consumers: usize,
    ) -> Result<(Putter, Vec<Taker>), FeedError>
        ensures bad_room { (result ≡ Err FeedError.BadRoom) ↔ (¬ IsJobCount jobs) }
        ensures bad_takers { (result ≡ Err FeedError.BadTakers) ↔ (IsJobCount jobs × (¬ IsConsumerCount consumers)) }
        ensures producer { IfOk result (λ ends. ends.0 ≡ new_producer ends.0.queue consumers) }
        ensures count { IfOk result (λ ends. vec_len ends.1 ≡ consumers) }
        ensures consumers { IfOk result (λ ends. All (λ consumer. consumer ≡ new_consumer ends.0.queue) ends.1.items) }
    {
        if jobs > MOST_JOBS {
            return Err(FeedError::BadRoom);
        }
        if consumers < 1 || consumers > MOST_CONSUMERS {
            return Err(FeedError::BadTakers);
        }
        ends_of(alloc, jobs + consumers, consumers)
    }
}

/// The ends of a new queue.
fn ends_of(
    alloc: Global,
    capacity: usize,
    consumers: usize,
) -> Result<(Putter, Vec<Taker>), FeedError>
    requires { (1 ≤ capacity) × IsConsumerCount consumers }
    ensures producer { IfOk result (λ ends. ends.0 ≡ new_producer ends.0.queue consumers) }
    ensures count { IfOk result (λ ends. vec_len ends.1 ≡ consumers) }
    ensures consumers { IfOk result (λ ends. All (λ consumer. consumer ≡ new_consumer ends.0.queue) ends.1.items) }
    ensures error { IfErr result (λ e. e ≡ FeedError.NoMemory) }
{
    let list = Vec::with_capacity(alloc, consumers)?;
    let (sender, receiver, mut pass) = bounded_with::<Item, Log, Fifo, Global>(alloc, capacity)?;
    let list = consumers_of(&sender, &receiver, &mut pass, list, consumers)?;
    Ok((Putter::new(sender, pass, consumers), list))
}

/// This many consumers, each with a pass split off the producer's.
fn consumers_of(
    sender: &RuledSender<Item, Log, Fifo>,
    receiver: &RuledReceiver<Item, Log, Fifo>,
    pass: &mut Pass<Item, Log>,
    mut list: Vec<Taker>,
    consumers: usize,
) -> Result<Vec<Taker>, AllocError>
    requires queue { receives_on receiver.now ≡ sends_on sender.now }
    requires seat { IsSeatAt (sends_on sender.now) pass.old }
    requires first { view pass.old ≡ first_log }
    requires capacity { (list.items ≡ []) × (consumers ≤ vec_capacity list) }
    requires few { consumers ≤ 16 }
    ensures seat { IsSeatAt (sends_on sender.now) pass.new }
    ensures log { OnOk result (view pass.new ≡ record first_log { parts = 17 - consumers }) }
    ensures count { IfOk result (λ list. vec_len list ≡ consumers) }
    ensures consumers { IfOk result (λ list. All (λ consumer. consumer ≡ new_consumer (queue_of pass.new)) list.items) }
{
    for _ in 0..consumers {
        list.push_reserved(another(sender, receiver, pass)?);
    }
    Ok(list)
}

/// One more consumer.
fn another(
    sender: &RuledSender<Item, Log, Fifo>,
    receiver: &RuledReceiver<Item, Log, Fifo>,
    pass: &mut Pass<Item, Log>,
) -> Result<Taker, AllocError>
    requires queue { receives_on receiver.now ≡ sends_on sender.now }
    requires seat { IsSeatAt (sends_on sender.now) pass.old }
    requires parts { 1 < (view pass.old).parts }
    ensures seat { IsSeatAt (sends_on sender.now) pass.new }
    ensures same { queue_of pass.new ≡ queue_of pass.old }
    ensures log { OnOk result (view pass.new ≡ record (view pass.old) { parts = (view pass.old).parts - 1 }) }
    ensures consumer { IfOk result (λ consumer. consumer ≡ new_consumer (queue_of pass.new)) }
{
    let receiver = receiver.try_clone()?;
    Ok(Taker::new(receiver, sender.another::<CutStep>(pass)))
}
