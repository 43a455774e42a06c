//! What a desk needs of its engine.
ghost use Rattle.std.specs.Prelude.{◌≡◌, ℕ, [], true, length, OnOk, OnErr};
ghost use Rattle.std.specs.Result.{IsOk};
ghost use Rattle.sgt_model.specs.declared.event.Event.TheVariants.{Quit};
ghost use Rattle.sgt_model.specs.Fates.{live, live_ones};
ghost use Rattle.sgt_model.specs.Legality.{Legal};
ghost use Rattle.sgt_desk.specs.Engines.{EngineState, Answered, configuration_after};

use sgt_model::{Event, NoMemory, ShortReply, Tid};
use std::alloc::Global;

/// An engine that answers each event with a legal reply, and keeps both as an entry of its history. The contracts are those of the
/// `Engine` of `sgt_engine`, as far as a desk needs them; `Lent` of `sgt_c` implements it.
pub trait Answering: Drop {
    /// Its configuration, and its history, newest entry first.
    ghost state: { Self → EngineState };

    /// Answers an event, and adds both to the history. The reply is written without its lists.
    ///
    /// `NoMemory` if an allocation failed; then nothing has changed. To abort a live transaction allocates nothing.
    fn answer(&mut self, event: &Event, reply: &mut ShortReply) -> Result<(), NoMemory>
        ensures adds { OnOk result
            (Answered (state self.old).configuration event.now (state self.old).past reply.new (state self.new).past) }
        ensures unchanged { OnErr result ((state self.new).past ≡ (state self.old).past) }
        ensures configuration { (state self.new).configuration ≡ (state self.old).configuration }
        ensures legal { Legal (state self.new).configuration (state self.new).past }
        ensures quits { (t : ℕ) → event.now ≡ Quit t → live (state self.old).past t ≡ true → IsOk result };

    /// Whether the transaction is live.
    fn is_live(&self, t: Tid) -> bool
        ensures { result ≡ live (state self.now).past t };

    /// How many transactions are live.
    fn live_count(&self) -> usize
        ensures { result ≡ length (live_ones (state self.now).past) };

    /// Cuts the history off. No transaction is live. The engine continues from what it has committed, with an empty history.
    ///
    /// `NoMemory` if an allocation failed; then nothing has changed.
    fn cut(&mut self, alloc: Global) -> Result<(), NoMemory>
        requires { live_ones (state self.old).past ≡ [] }
        ensures past { OnOk result ((state self.new).past ≡ []) }
        ensures configuration { OnOk result
            ((state self.new).configuration ≡ configuration_after (state self.old).configuration (state self.old).past) }
        ensures unchanged { OnErr result ((state self.new).past ≡ (state self.old).past) }
        ensures kept { OnErr result ((state self.new).configuration ≡ (state self.old).configuration) };
}
