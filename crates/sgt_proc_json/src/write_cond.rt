//! Conditions as trees.
ghost use Rattle.std.specs.Prelude.{IfOk};
ghost use Rattle.serde_json.specs.View.{view};
ghost use Rattle.sgt_model.specs.ProcedureTexts.{cond_text};
ghost use Rattle.sgt_proc_json.specs.Spelling.{SpellsTest};

use crate::write_expr::write_pair;
use serde_json::Value;
use sgt_model::{Cond, NoMemory};
use std::alloc::Global;

/// The tree of a condition.
pub(crate) fn write_cond(alloc: Global, cond: &Cond) -> Result<Value, NoMemory>
    ensures { IfOk result (λ v. SpellsTest (cond_text cond.now) (view v)) }
{
    match cond {
        Cond::Less(left, right) => write_pair(alloc, "less", left, right),
        Cond::AtMost(left, right) => write_pair(alloc, "most", left, right),
        Cond::Equal(left, right) => write_pair(alloc, "same", left, right),
    }
}
