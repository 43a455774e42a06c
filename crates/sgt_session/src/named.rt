//! The name that ties sessions to their engine.
ghost use Rattle.std.specs.Prelude.{ℕ};
ghost use Rattle.sgt_model.specs.Configurations.{Configuration};
ghost use Rattle.sgt_session.specs.Configurations.{none};

use std::marker::Brand;
use std::sync::ledger::Ledger;

/// Which engine the sessions belong to: the name of the ledger of their calls, and the engine's configuration. A
/// program passes `Brand` for it, and the proof of each such call picks what the name stands for.
pub trait Named: Ledger {
    /// The engine's configuration: its initial database, its procedures and its limits.
    ghost configuration: { Configuration };

    /// How many sessions there are. They are the parts of the ledger; `Shared::new` and `close` require that.
    ghost sessions: { ℕ };
}

impl Named for Brand {
    ghost configuration = { none };

    ghost sessions = { 0 };
}
