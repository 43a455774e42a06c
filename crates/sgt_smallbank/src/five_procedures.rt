//! The procedures of SmallBank, as statements, and checked.
ghost use Rattle.std.specs.Prelude.{◌≡◌, IfOk, pos, vec_len};
ghost use Rattle.sgt_model.specs.ProcedureTexts.{expr_text, in_front, procedure_text};
ghost use Rattle.sgt_model.specs.Syntax.{Block, num, arg, reg, diff};
ghost use Rattle.sgt_proc.specs.Flaws.{IsFlawless};
ghost use Rattle.sgt_smallbank.specs.Texts.{amalgamate, balance, charge, deposit_checking, procedures, transact_saving, write_check};

use crate::statements::{
    alone, answer, ask, difference_of, look_up_balance, look_up_customer, only_where, set_register,
    store_balance, sum_of,
};
use crate::tables::{CHECKING, NEGATIVE_AMOUNT, NEGATIVE_SAVING, PENALTY, SAME_NAME, SAVING};
use sgt_model::{Cond, Expr, NoMemory, Procedure, Statement};
use sgt_proc::{Checked, check};
use std::alloc::Global;

/// How many procedures SmallBank has. They are numbered from 0; the procedures of an opening line follow.
pub const PROCEDURES: u16 = 5;

/// The five procedures, by number: Balance, DepositChecking, TransactSaving, Amalgamate and WriteCheck. The only error
/// is a failed allocation.
pub fn procedures(alloc: Global) -> Result<Vec<Checked>, NoMemory>
    ensures texts { IfOk result (λ list. list.items ≡ procedures) }
    ensures count { IfOk result (λ list. vec_len list ≡ PROCEDURES) }
{
    let mut list = Vec::with_capacity(alloc, usize::from(PROCEDURES))?;
    list.push_reserved(checked(balance(alloc)?));
    list.push_reserved(checked(deposit_checking(alloc)?));
    list.push_reserved(checked(transact_saving(alloc)?));
    list.push_reserved(checked(amalgamate(alloc)?));
    list.push_reserved(checked(write_check(alloc)?));
    Ok(list)
}

/// The procedure, which has no shape error, as one that may run.
fn checked(procedure: Procedure) -> Checked
    requires { IsFlawless (procedure_text procedure) }
    ensures { result ≡ procedure_text procedure }
{
    match check(procedure) {
        Ok(checked) => checked,
        Err(_) => unreachable!(),
    }
}

/// Balance(name): answers the sum of the saving and the checking of the name's customer.
fn balance(alloc: Global) -> Result<Procedure, NoMemory>
    ensures { IfOk result (λ p. procedure_text p ≡ balance) }
{
    let sum = sum_of(alloc, Expr::Reg(1), Expr::Reg(2))?;
    let body = vec![in alloc;
        look_up_customer(0, 0),
        look_up_balance(1, SAVING, 0),
        look_up_balance(2, CHECKING, 0),
        answer(sum),
    ]?;
    Ok(Procedure { args: 1, body })
}

/// DepositChecking(name, amount): adds the amount, which may not be negative, to the checking of the name's customer, and
/// answers the new checking.
fn deposit_checking(alloc: Global) -> Result<Procedure, NoMemory>
    ensures { IfOk result (λ p. procedure_text p ≡ deposit_checking) }
{
    let refusal = alone(alloc, ask(NEGATIVE_AMOUNT))?;
    let is_negative = Cond::Less(Expr::Arg(1), Expr::Num(0));
    let sum = sum_of(alloc, Expr::Reg(1), Expr::Arg(1))?;
    let body = vec![in alloc;
        only_where(alloc, is_negative, refusal),
        look_up_customer(0, 0),
        look_up_balance(1, CHECKING, 0),
        set_register(2, sum),
        store_balance(CHECKING, 0, Expr::Reg(2)),
        answer(Expr::Reg(2)),
    ]?;
    Ok(Procedure { args: 2, body })
}

/// TransactSaving(name, amount): adds the amount to the saving of the name's customer, which may not become negative, and
/// answers the new saving. A negative amount is a withdrawal.
fn transact_saving(alloc: Global) -> Result<Procedure, NoMemory>
    ensures { IfOk result (λ p. procedure_text p ≡ transact_saving) }
{
    let sum = sum_of(alloc, Expr::Reg(1), Expr::Arg(1))?;
    let refusal = alone(alloc, ask(NEGATIVE_SAVING))?;
    let is_negative = Cond::Less(Expr::Reg(2), Expr::Num(0));
    let body = vec![in alloc;
        look_up_customer(0, 0),
        look_up_balance(1, SAVING, 0),
        set_register(2, sum),
        only_where(alloc, is_negative, refusal),
        store_balance(SAVING, 0, Expr::Reg(2)),
        answer(Expr::Reg(2)),
    ]?;
    Ok(Procedure { args: 2, body })
}

/// Amalgamate(from, to): moves the saving and the checking of the first name's customer to the checking of the second
/// name's customer, and answers the amount moved.
fn amalgamate(alloc: Global) -> Result<Procedure, NoMemory>
    ensures { IfOk result (λ p. procedure_text p ≡ amalgamate) }
{
    let refusal = alone(alloc, ask(SAME_NAME))?;
    let is_same = Cond::Equal(Expr::Arg(0), Expr::Arg(1));
    let moved = sum_of(alloc, Expr::Reg(2), Expr::Reg(3))?;
    let sum = sum_of(alloc, Expr::Reg(5), Expr::Reg(4))?;
    let body = vec![in alloc;
        only_where(alloc, is_same, refusal),
        look_up_customer(0, 0),
        look_up_customer(1, 1),
        look_up_balance(2, SAVING, 0),
        look_up_balance(3, CHECKING, 0),
        set_register(4, moved),
        store_balance(SAVING, 0, Expr::Num(0)),
        store_balance(CHECKING, 0, Expr::Num(0)),
        look_up_balance(5, CHECKING, 1),
        set_register(6, sum),
        store_balance(CHECKING, 1, Expr::Reg(6)),
        answer(Expr::Reg(4)),
    ]?;
    Ok(Procedure { args: 2, body })
}

/// WriteCheck(name, amount): takes the amount, which may not be negative, from the checking of the name's customer. It
/// takes 100 cents more if saving and checking together are less than the amount. It answers the new checking, which
/// may be negative.
fn write_check(alloc: Global) -> Result<Procedure, NoMemory>
    ensures { IfOk result (λ p. procedure_text p ≡ write_check) }
{
    let refusal = alone(alloc, ask(NEGATIVE_AMOUNT))?;
    let is_negative = Cond::Less(Expr::Arg(1), Expr::Num(0));
    let charged = charge(alloc)?;
    let body = vec![in alloc;
        only_where(alloc, is_negative, refusal),
        look_up_customer(0, 0),
        look_up_balance(1, SAVING, 0),
        look_up_balance(2, CHECKING, 0),
        charged,
        store_balance(CHECKING, 0, Expr::Reg(3)),
        answer(Expr::Reg(3)),
    ]?;
    Ok(Procedure { args: 2, body })
}

/// Sets register 3 to the checking minus the amount, and minus the penalty too if the amount is not covered.
fn charge(alloc: Global) -> Result<Statement, NoMemory>
    ensures { IfOk result (λ s. (rest : Block) → in_front s rest ≡ charge rest) }
{
    let yes = alone(alloc, set_register(3, less_penalty(alloc)?))?;
    let left = difference_of(alloc, Expr::Reg(2), Expr::Arg(1))?;
    let no = alone(alloc, set_register(3, left))?;
    let sum = sum_of(alloc, Expr::Reg(1), Expr::Reg(2))?;
    let cond = Cond::Less(sum, Expr::Arg(1));
    Ok(Statement::If { cond, yes, no })
}

/// The checking minus the amount and the penalty.
fn less_penalty(alloc: Global) -> Result<Expr, NoMemory>
    ensures { IfOk result (λ e. expr_text e ≡ diff (diff (reg 2) (arg 1)) (num (pos 100))) }
{
    let left = difference_of(alloc, Expr::Reg(2), Expr::Arg(1))?;
    difference_of(alloc, left, Expr::Num(PENALTY))
}
