//! Whether a procedure uses an unset register.
ghost use Rattle.std.specs.Prelude.{◌≡◌, ◌↔◌, IsTrue};
ghost use Rattle.sgt_model.specs.Syntax.{empty};
ghost use Rattle.sgt_model.specs.ProcedureTexts.{expr_text, cond_text, in_front, block_of};
ghost use Rattle.sgt_model.specs.Ways.{onto, end};
ghost use Rattle.sgt_proc.specs.Flaws.{uses, cond_uses, UsesUnset};
ghost use Rattle.sgt_proc.specs.Dataflow.{LiveBefore};

use sgt_model::{Cond, Expr, Statement};

/// Whether an expression on some path uses a register that nothing before it on that path set.
pub fn uses_unset(body: &[Statement]) -> bool
    ensures { IsTrue result ↔ UsesUnset (onto (block_of body.now) end) }
{
    for register in 0..16 {
        if is_live(body, register, false) {
            return true;
        }
    }
    false
}

/// Whether the register is live before the statements: on some path it is used before it is set. `following` says
/// whether it is live after them.
#[cycle(live)]
pub fn is_live(statements: &[Statement], register: u8, following: bool) -> bool
    ensures { LiveBefore register (block_of statements.now) following result }
{
    let mut live = following;
    let mut ahead = statements.len();
    while ahead > 0 {
        ahead -= 1;
        live = is_live_before(&statements[ahead], register, live);
    }
    live
}

#[cycle(live)]
fn is_live_before(statement: &Statement, register: u8, following: bool) -> bool
    ensures { LiveBefore register (in_front statement.now empty) following result }
{
    match statement {
        Statement::Look { reg, id, .. } => uses(id, register) || *reg != register && following,
        Statement::Find {
            reg,
            id,
            absent,
            ..
        } => uses(id, register) || uses(absent, register) || *reg != register && following,
        Statement::Put { id, value, .. } => uses(id, register)
            || uses(value, register)
            || following,
        Statement::Remove { id, .. } => uses(id, register) || following,
        Statement::Let { reg, value } => uses(value, register) || *reg != register && following,
        Statement::Ask { .. } => false,
        Statement::If { cond, yes, no } => {
            cond_uses(cond, register)
                || is_live(yes, register, following)
                || is_live(no, register, following)
        }
        Statement::Answer { value } => uses(value, register) || following,
    }
}

fn uses(expr: &Expr, register: u8) -> bool
    ensures { result ≡ uses register (expr_text expr.now) }
{
    match expr {
        Expr::Num(_) | Expr::Arg(_) => false,
        Expr::Reg(n) => *n == register,
        Expr::Sum(left, right)
        | Expr::Diff(left, right)
        | Expr::Product(left, right)
        | Expr::Quotient(left, right) => { uses(left, register) || uses(right, register) }
    }
}

fn cond_uses(cond: &Cond, register: u8) -> bool
    ensures { result ≡ cond_uses register (cond_text cond.now) }
{
    match cond {
        Cond::Less(left, right) | Cond::AtMost(left, right) | Cond::Equal(left, right) => {
            uses(left, register) || uses(right, register)
        }
    }
}
