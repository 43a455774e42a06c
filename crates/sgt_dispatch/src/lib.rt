//! A queue of job numbers (`Feed`) with one producer (`Putter`) and up to 16 consumers (`Taker`). Each end may run in a
//! thread of its own.
//!
//! The queue is first in, first out, and each item is received once. The [`Putter`] sends jobs, and one stop for each
//! consumer. A [`Taker`] receives until it gets a stop, and leaves. Its record of its items remains as a [`Stub`]. Once
//! the consumers' threads have ended, the producer joins the stubs one by one. Each join extends the account of all
//! items ([`Putter::join`]). It is proved for every order of the threads' steps.
//!
//! It runs no job and starts no thread. It promises neither that a blocking call returns nor that a consumer gets a
//! fair share.
//!
//! ```
//! fn one_job<W: Wait>(rt: &W, alloc: Global) -> Option<Putter> {
//!     let (mut producer, mut consumers) = Feed::make(alloc, 8, 1).ok()?;
//!     producer.put(rt, 0);                 // waits while there are 8 in it
//!     producer.stop(rt);
//!     let mut consumer = consumers.pop()?;     // often in a thread of its own
//!     consumer.take(rt);                    // Job(0)
//!     consumer.take(rt);                    // Stop
//!     Some(producer.join(consumer.leave()))
//! }
//! ```
#![tactic(auto)]

mod consumer;
mod errors;
mod fifo;
mod item;
mod log;
mod producer;
mod queue;

pub use consumer::{Stub, Take, Taker};
pub use errors::FeedError;
pub use item::Item;
pub use producer::Putter;
pub use queue::{Feed, MOST_CAPACITY, MOST_CONSUMERS, MOST_JOBS};
