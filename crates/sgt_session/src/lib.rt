//! Sessions: threads that share one engine under one lock. Each call has a receipt, and closing compares all receipts
//! with the history.
//!
//! [`Shared`] is an engine under its lock. A [`Session`] is one caller's access to it. Each of its calls holds the lock
//! once and makes one event of the engine. Its [`Receipt`] is appended to the session's receipts before the lock is
//! freed. A commit that has to wait begins to wait in that same hold of the lock, and is repeated after each wait.
//! [`Shared::close`] takes the engine back out. It fails unless all sessions are there, and their receipts are the
//! entries of the history, each once.
//!
//! So what holds for the engine's history holds for the replies that the threads got: its events are theirs, in the
//! order in which they held the lock. This is no scheduler of threads. It does not promise which thread comes next,
//! whether a waiting one is ever woken, or how long anything takes.
//!
//! Each thread should have at most one live transaction, and end it before the thread ends. Otherwise commits may wait
//! for ever ([`Session::commit`]).
//!
//! The type of a session names its engine, by the parameter `N`. So a session fits only its own `Shared`. A function
//! that works with sessions is generic over the name, and is called once with `Brand`. The caller's proof picks what
//! the name stands for: the engine's configuration and the number of sessions (`Named`).
//!
//! ```
//! fn two_threads<N: Named + Send + Sync, R: Threads + Wait + Sync>(
//!     rt: &R,
//!     alloc: Global,
//!     engine: Box<Engine<ListRecords, OneList, PairGraph>>,
//!     blank: Blank,
//! ) -> Option<Box<Engine<ListRecords, OneList, PairGraph>>>
//!     requires configuration { configuration_of engine.value ≡ N.configuration }
//!     requires empty { engine.value.past ≡ [] }
//!     requires blank { (blank.name ≡ N.name) × (blank.parts ≡ N.parts) × (blank.parts ≡ 2) × (N.sessions ≡ 2) }
//!     ensures legal { IfSome result (λ e. Legal N.configuration e.value.past) }
//! {
//!     let (shared, sessions) = Shared::<N, _, _, _>::new(alloc, engine, blank, 2).ok()?;
//!     let lock = &shared;
//!     let sessions = thread::map_vec(rt, sessions, &|session| deposit(rt, lock, session)).ok()?;
//!     Some(shared.close(sessions).ok()?.engine)
//! }
//!
//! /// A deposit of 1.00. If an allocation fails, the transaction is aborted, so that no other waits for it.
//! fn deposit<N: Named, W: Wait>(
//!     rt: &W,
//!     shared: &Shared<N, ListRecords, OneList, PairGraph>,
//!     mut session: Session<N>,
//! ) -> Session<N> {
//!     let args = Args::from_slice(&[1, 100]).unwrap_or(Args::new());
//!     let Ok(receipt) = session.call(rt, shared, Event::Start { procedure: 1, args }) else {
//!         return session;
//!     };
//!     if let Reply::Started(t) = receipt.reply {
//!         if finish(rt, shared, &mut session, t).is_err() {
//!             let _ = session.call(rt, shared, Event::Quit(t));
//!         }
//!     }
//!     session
//! }
//!
//! /// Two reads and a write, then the commit, which waits if it has to.
//! fn finish<N: Named, W: Wait>(
//!     rt: &W,
//!     shared: &Shared<N, ListRecords, OneList, PairGraph>,
//!     session: &mut Session<N>,
//!     t: Tid,
//! ) -> Result<(), NoMemory> {
//!     for _ in 0..3 {
//!         session.call(rt, shared, Event::Step(t))?;
//!     }
//!     session.commit(rt, shared, t)?;
//!     Ok(())
//! }
//! ```
//!
//! A caller that decides on each access itself starts `EMPTY_PROCEDURE`. In place of steps it then calls
//! `Event::Access(t, request)`, with `Request::Read(key)` or `Request::Write(key, value)`, as it likes.
//!
//! A program calls `two_threads::<Brand, _>(&rt, alloc, engine, Blank::new(2))`. The caller's `Invariants.antt` has the picks:
//!
//! ```
//! ghosts-two_threads-N-Ledger g a = record { name = a.blank.name; parts = a.blank.parts }
//! ghosts-two_threads-N-Named g a = record { configuration = configuration_of a.engine.value; sessions = a.blank.parts }
//! ```
//!
//! The history grows with each call. Threads that run for days should cut it from time to time: start no more
//! transactions until all have ended, and close. Then cut the history, and continue from the committed database with
//! new threads and new sessions. Each part has a name of its own, and so a configuration of its own:
//!
//! ```
//! fn part<R: Threads + Wait + Sync>(
//!     rt: &R,
//!     alloc: Global,
//!     engine: Box<Engine<ListRecords, OneList, PairGraph>>,
//! ) -> Option<(Past, Box<Engine<ListRecords, OneList, PairGraph>>)>
//!     requires empty { engine.value.past ≡ [] }
//!     ensures empty { IfSome result (λ r. r.1.value.past ≡ []) }
//! {
//!     let mut engine = two_threads::<Brand, _>(rt, alloc, engine, Blank::new(2))?;
//!     let past = engine.cut(alloc).ok()?;     // an error would leave the engine as it was, with its history
//!     Some((past, engine))
//! }
//! ```
//!
//! The search cannot show by itself that a reference to a `Shared` may cross threads. `shared_sync` of
//! `proofs/Crossing.antt` states it. Give it to the search in an `Answers.antt`, with the same statements about the
//! layers.
#![tactic(auto)]

mod accounts;
mod close;
mod end_signal;
mod lock_policy;
mod named;
mod new;
mod numbers;
mod own;
mod receipt;
mod receipts;
mod round;
mod session;
mod shared;
mod waiters;

pub use close::{CloseError, Closed};
pub use named::Named;
pub use new::NewError;
pub use receipt::Receipt;
pub use receipts::Receipts;
pub use session::Session;
pub use shared::Shared;
