//! The content of an open handle.
ghost use Rattle.std.specs.Prelude.{◌≡◌, IfOk};

use sgt_assembly::SgtEngine;
use sgt_model::NoMemory;
use std::alloc::Global;

/// The content of an open handle.
#[derive(Drop)]
pub struct Held {
    pub engine: SgtEngine,
    /// How many cuts there were since the engine was opened.
    pub part: u64,
}

impl Held {
    /// A new box with this engine, in its first part.
    pub fn boxed(alloc: Global, engine: SgtEngine) -> Result<Box<Held>, NoMemory>
        ensures engine { IfOk result (λ b. b.value.engine ≡ engine) }
        ensures part { IfOk result (λ b. b.value.part ≡ 0) }
    {
        Ok(Box::new(alloc, Held { engine, part: 0 })?)
    }
}
