//! The statements and expressions of the five procedures.
ghost use Rattle.std.specs.Prelude.{◌≡◌, [], ◌∷◌, IfOk};
ghost use Rattle.sgt_model.specs.ProcedureTexts.{expr_text, cond_text, in_front, block_of};
ghost use Rattle.sgt_model.specs.Syntax.{Block, empty, choose, sum, diff};

use crate::tables::{ACCOUNT, NO_BALANCE, UNKNOWN_NAME};
use sgt_model::{Cond, Expr, NoMemory, Statement};
use std::alloc::Global;

/// Sets the register to the customer of the name in this argument.
pub(crate) fn look_up_customer(reg: u8, name: u8) -> Statement
    ensures { result ≡ Statement.Look reg ACCOUNT (Expr.Arg name) UNKNOWN_NAME }
{
    Statement::Look {
        reg,
        table: ACCOUNT,
        id: Expr::Arg(name),
        absent: UNKNOWN_NAME,
    }
}

/// Sets the register to the balance, in this table, of the customer in another register.
pub(crate) fn look_up_balance(reg: u8, table: u8, customer: u8) -> Statement
    ensures { result ≡ Statement.Look reg table (Expr.Reg customer) NO_BALANCE }
{
    Statement::Look {
        reg,
        table,
        id: Expr::Reg(customer),
        absent: NO_BALANCE,
    }
}

/// Writes the balance, in this table, of the customer in a register.
pub(crate) fn store_balance(table: u8, customer: u8, value: Expr) -> Statement
    ensures { result ≡ Statement.Put table (Expr.Reg customer) value }
{
    Statement::Put {
        table,
        id: Expr::Reg(customer),
        value,
    }
}

/// Sets the register to the value.
pub(crate) fn set_register(reg: u8, value: Expr) -> Statement
    ensures { result ≡ Statement.Let reg value }
{
    Statement::Let { reg, value }
}

/// Answers the value.
pub(crate) fn answer(value: Expr) -> Statement
    ensures { result ≡ Statement.Answer value }
{
    Statement::Answer { value }
}

/// A branch with this one statement.
pub(crate) fn alone(alloc: Global, statement: Statement) -> Result<Vec<Statement>, NoMemory>
    ensures { IfOk result (λ v. v.items ≡ statement ∷ []) }
{
    Ok(vec![in alloc; statement]?)
}

/// Aborts with the code.
pub(crate) fn ask(code: u16) -> Statement
    ensures { result ≡ Statement.Ask code }
{
    Statement::Ask { code }
}

/// Runs the branch if the condition holds, else does nothing.
pub(crate) fn only_where(alloc: Global, cond: Cond, yes: Vec<Statement>) -> Statement
    ensures { (rest : Block) → in_front result rest ≡ choose (cond_text cond) (block_of yes.items) empty rest }
{
    Statement::If {
        cond,
        yes,
        no: Vec::new(alloc),
    }
}

/// The sum of the two.
pub(crate) fn sum_of(alloc: Global, left: Expr, right: Expr) -> Result<Expr, NoMemory>
    ensures { IfOk result (λ e. expr_text e ≡ sum (expr_text left) (expr_text right)) }
{
    let left = Box::new(alloc, left)?;
    let right = Box::new(alloc, right)?;
    Ok(Expr::Sum(left, right))
}

/// The first minus the second.
pub(crate) fn difference_of(alloc: Global, left: Expr, right: Expr) -> Result<Expr, NoMemory>
    ensures { IfOk result (λ e. expr_text e ≡ diff (expr_text left) (expr_text right)) }
{
    let left = Box::new(alloc, left)?;
    let right = Box::new(alloc, right)?;
    Ok(Expr::Diff(left, right))
}
