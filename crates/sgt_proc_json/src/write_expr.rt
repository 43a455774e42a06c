//! Expressions as trees.
ghost use Rattle.std.specs.Prelude.{[], ◌∷◌, IfOk};
ghost use Rattle.serde_json.specs.View.{view};
ghost use Rattle.sgt_model.specs.ProcedureTexts.{expr_text};
ghost use Rattle.sgt_proc_json.specs.Spelling.{SpellsTerm, WordAnd};

use crate::write_number::write_byte;
use crate::write_row::{row_of_one, row_of_two};
use serde_json::Value;
use sgt_model::{Expr, NoMemory};
use std::alloc::Global;

/// The tree of an expression.
#[cycle(expression)]
pub(crate) fn write_expr(alloc: Global, expr: &Expr) -> Result<Value, NoMemory>
    ensures { IfOk result (λ v. SpellsTerm (expr_text expr.now) (view v)) }
{
    match expr {
        Expr::Num(n) => Ok(Value::from(*n)),
        Expr::Arg(n) => row_of_one(alloc, "arg", write_byte(*n)),
        Expr::Reg(n) => row_of_one(alloc, "reg", write_byte(*n)),
        Expr::Sum(left, right) => write_pair(alloc, "sum", left, right),
        Expr::Diff(left, right) => write_pair(alloc, "diff", left, right),
        Expr::Product(left, right) => write_pair(alloc, "product", left, right),
        Expr::Quotient(left, right) => write_pair(alloc, "quotient", left, right),
    }
}

/// The tree of a word and two expressions.
#[cycle(expression)]
pub(crate) fn write_pair(
    alloc: Global,
    word: &str,
    left: &Expr,
    right: &Expr,
) -> Result<Value, NoMemory>
    ensures { IfOk result (λ v.
        WordAnd word.now (SpellsTerm (expr_text left.now) ∷ SpellsTerm (expr_text right.now) ∷ []) (view v)) }
{
    let left = write_expr(alloc, left)?;
    let right = write_expr(alloc, right)?;
    row_of_two(alloc, word, left, right)
}
