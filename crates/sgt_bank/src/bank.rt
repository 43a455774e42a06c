//! The bank that the jobs of an input run on.
ghost use Rattle.std.specs.Prelude.{◌≡◌, IfOk};
ghost use Rattle.sgt_assembly.specs.Openings.{opened_configuration};
ghost use Rattle.sgt_workers.specs.Banks.{engine_configuration};

use sgt_assembly::all_procedures;
use sgt_format::Opening;
use sgt_model::NoMemory;
use sgt_workers::Bank;
use std::alloc::Global;

/// The bank of an opening: its database and its limits, and SmallBank's procedures with those of the opening after
/// them.
///
/// `NoMemory` if an allocation failed.
pub fn bank_of(alloc: Global, opening: Opening) -> Result<Bank, NoMemory>
    ensures configuration { IfOk result (λ b. engine_configuration b ≡ opened_configuration opening) }
    ensures limits { IfOk result (λ b. b.limits ≡ opening.limits) }
{
    let Opening {
        limits,
        database,
        procedures,
    } = opening;
    Ok(Bank {
        opening: database,
        procedures: all_procedures(alloc, procedures)?,
        limits,
    })
}
