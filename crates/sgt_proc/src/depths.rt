//! The depths of the statements and the expressions of a procedure.
ghost use Rattle.std.specs.Prelude.{◌≡◌, ◌+◌, min, max};
ghost use Rattle.sgt_model.specs.Syntax.{empty};
ghost use Rattle.sgt_model.specs.ProcedureTexts.{expr_text, cond_text, in_front, block_of};
ghost use Rattle.sgt_proc.specs.Flaws.{depth, expr_depth, cond_depth, exprs_depth};

use sgt_model::{Cond, Expr, Statement};

/// The maximum depth of a statement or an expression.
pub const DEEPEST: u8 = 16;

/// The depth of the deepest statement; 17 stands for more than 16.
#[cycle(depth)]
pub fn depth(statements: &[Statement]) -> u8
    ensures { result ≡ min 17 (depth (block_of statements.now)) }
{
    let mut deepest = 0;
    for statement in statements {
        deepest = depth_of(statement).max(deepest);
    }
    deepest
}

#[cycle(depth)]
fn depth_of(statement: &Statement) -> u8
    ensures { result ≡ min 17 (depth (in_front statement.now empty)) }
{
    match statement {
        Statement::If { yes, no, .. } => one_deeper(depth(yes), depth(no)),
        Statement::Look { .. }
        | Statement::Find { .. }
        | Statement::Put { .. }
        | Statement::Remove { .. }
        | Statement::Let { .. }
        | Statement::Ask { .. }
        | Statement::Answer { .. } => 1,
    }
}

/// The depth of the deepest expression; 17 stands for more than 16.
#[cycle(terms)]
pub fn exprs_depth(statements: &[Statement]) -> u8
    ensures { result ≡ min 17 (exprs_depth (block_of statements.now)) }
{
    let mut deepest = 0;
    for statement in statements {
        deepest = exprs_depth_of(statement).max(deepest);
    }
    deepest
}

#[cycle(terms)]
fn exprs_depth_of(statement: &Statement) -> u8
    ensures { result ≡ min 17 (exprs_depth (in_front statement.now empty)) }
{
    match statement {
        Statement::Look { id, .. } | Statement::Remove { id, .. } => expr_depth(id),
        Statement::Find { id, absent, .. } => expr_depth(id).max(expr_depth(absent)),
        Statement::Put { id, value, .. } => expr_depth(id).max(expr_depth(value)),
        Statement::Ask { .. } => 0,
        Statement::If { cond, yes, no } => {
            cond_depth(cond).max(exprs_depth(yes).max(exprs_depth(no)))
        }
        Statement::Let { value, .. } | Statement::Answer { value } => expr_depth(value),
    }
}

fn expr_depth(expr: &Expr) -> u8
    ensures { result ≡ min 17 (expr_depth (expr_text expr.now)) }
{
    match expr {
        Expr::Num(_) | Expr::Arg(_) | Expr::Reg(_) => 1,
        Expr::Sum(left, right)
        | Expr::Diff(left, right)
        | Expr::Product(left, right)
        | Expr::Quotient(left, right) => { one_deeper(expr_depth(left), expr_depth(right)) }
    }
}

fn cond_depth(cond: &Cond) -> u8
    ensures { result ≡ min 17 (cond_depth (cond_text cond.now)) }
{
    match cond {
        Cond::Less(left, right) | Cond::AtMost(left, right) | Cond::Equal(left, right) => {
            expr_depth(left).max(expr_depth(right))
        }
    }
}

/// One more than the greater of two depths.
fn one_deeper(a: u8, b: u8) -> u8
    ensures { result ≡ min 17 (1 + max a b) }
{
    a.max(b).min(DEEPEST) + 1
}
