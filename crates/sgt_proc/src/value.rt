//! The values of expressions and conditions.
ghost use Rattle.std.specs.Prelude.{◌≡◌, ◌+ℤ◌, ◌-ℤ◌, ◌*ℤ◌, None, Ok, IfSome, slice_get, slice_index_or};
ghost use Rattle.sgt_model.specs.ProcedureTexts.{expr_text, cond_text};
ghost use Rattle.sgt_model.specs.Meaning.{got, bounded, divided, found_or, value_of, truth_of};
ghost use Rattle.sgt_model.specs.Executions.{in_turn, key_of};
ghost use Rattle.sgt_model.specs.Left.{number_or_code, choice_or_code};

use sgt_model::{Cond, Expr, Key, is_value};

/// The code raised if a result of arithmetic is no value, and at a division by 0.
const OVER: u16 = 1000;

/// The code for what no checked procedure does.
pub const WRONG: u16 = 0;

/// The value of an expression, or the code raised in its place. Most expressions have one part, which needs no call.
#[cycle(value)]
#[inline(always)]
pub fn value(expr: &Expr, args: &[i64], registers: &[Option<i64>; 16]) -> Result<i64, u16>
    ensures { result ≡ number_or_code (value_of (expr_text expr.now) args.now registers.now) }
{
    match expr {
        Expr::Num(number) => Ok(*number),
        Expr::Arg(n) => argument(args, *n),
        Expr::Reg(n) => register(registers, *n),
        Expr::Sum(..) | Expr::Diff(..) | Expr::Product(..) | Expr::Quotient(..) => {
            value_by_parts(expr, args, registers)
        }
    }
}

// The same, by recursion through the parts of arithmetic.
#[cycle(value)]
fn value_by_parts(expr: &Expr, args: &[i64], registers: &[Option<i64>; 16]) -> Result<i64, u16>
    ensures { result ≡ number_or_code (value_of (expr_text expr.now) args.now registers.now) }
{
    match expr {
        Expr::Num(number) => Ok(*number),
        Expr::Arg(n) => argument(args, *n),
        Expr::Reg(n) => register(registers, *n),
        Expr::Sum(left, right) => {
            let (left, right) = numbers(left, right, args, registers)?;
            sum(left, right)
        }
        Expr::Diff(left, right) => {
            let (left, right) = numbers(left, right, args, registers)?;
            difference(left, right)
        }
        Expr::Product(left, right) => {
            let (left, right) = numbers(left, right, args, registers)?;
            product(left, right)
        }
        Expr::Quotient(left, right) => {
            let (left, right) = numbers(left, right, args, registers)?;
            quotient(left, right)
        }
    }
}

/// The values of two expressions, one after the other, or the code of the first that has none.
#[cycle(value)]
#[inline(always)]
pub fn numbers(
    first: &Expr,
    second: &Expr,
    args: &[i64],
    registers: &[Option<i64>; 16],
) -> Result<(i64, i64), u16>
    ensures { result ≡ in_turn (number_or_code (value_of (expr_text first.now) args.now registers.now))
        (number_or_code (value_of (expr_text second.now) args.now registers.now)) (λ x y. Ok (x, y)) }
{
    let first = value(first, args, registers)?;
    let second = value(second, args, registers)?;
    Ok((first, second))
}

fn argument(args: &[i64], n: u8) -> Result<i64, u16>
    ensures { result ≡ number_or_code (got (slice_get args.now n)) }
{
    match args.get(usize::from(n)) {
        Some(number) => Ok(*number),
        None => Err(WRONG),
    }
}

fn register(registers: &[Option<i64>; 16], n: u8) -> Result<i64, u16>
    ensures { result ≡ number_or_code (got (slice_index_or registers.now n None)) }
{
    match registers.get(usize::from(n)) {
        Some(Some(number)) => Ok(*number),
        _ => Err(WRONG),
    }
}

/// The value of a literal, an argument or a register. None if it is no value, and for arithmetic.
#[inline(always)]
pub fn term(expr: &Expr, args: &[i64], registers: &[Option<i64>; 16]) -> Option<i64>
    ensures { IfSome result (λ n. number_or_code (value_of (expr_text expr.now) args.now registers.now) ≡ Ok n) }
{
    if let Expr::Reg(n) = expr {
        return register(registers, *n).ok();
    }
    if let Expr::Arg(n) = expr {
        return argument(args, *n).ok();
    }
    if let Expr::Num(number) = expr {
        return Some(*number);
    }
    None
}

/// The same, also for a sum or difference of two of these. It calls no function, and most expressions are one of these.
#[inline(always)]
pub fn value_of_terms(expr: &Expr, args: &[i64], registers: &[Option<i64>; 16]) -> Option<i64>
    ensures { IfSome result (λ n. number_or_code (value_of (expr_text expr.now) args.now registers.now) ≡ Ok n) }
{
    match expr {
        Expr::Sum(left, right) => {
            sum(term(left, args, registers)?, term(right, args, registers)?).ok()
        }
        Expr::Diff(left, right) => {
            difference(term(left, args, registers)?, term(right, args, registers)?).ok()
        }
        Expr::Num(_) | Expr::Arg(_) | Expr::Reg(_) | Expr::Product(..) | Expr::Quotient(..) => {
            term(expr, args, registers)
        }
    }
}

/// Whether a condition on two terms holds. None for any other condition.
#[inline(always)]
pub fn test_of_terms(cond: &Cond, args: &[i64], registers: &[Option<i64>; 16]) -> Option<bool>
    ensures { IfSome result (λ held. choice_or_code (truth_of (cond_text cond.now) args.now registers.now) ≡ Ok held) }
{
    let (Cond::Less(left, right) | Cond::AtMost(left, right) | Cond::Equal(left, right)) = cond;
    let left = term(left, args, registers)?;
    let right = term(right, args, registers)?;
    Some(match cond {
        Cond::Less(..) => left < right,
        Cond::AtMost(..) => left <= right,
        Cond::Equal(..) => left == right,
    })
}

/// Whether a condition holds, or the code raised in its place.
pub fn test(cond: &Cond, args: &[i64], registers: &[Option<i64>; 16]) -> Result<bool, u16>
    ensures { result ≡ choice_or_code (truth_of (cond_text cond.now) args.now registers.now) }
{
    let (Cond::Less(left, right) | Cond::AtMost(left, right) | Cond::Equal(left, right)) = cond;
    let (left, right) = numbers(left, right, args, registers)?;
    Ok(match cond {
        Cond::Less(..) => left < right,
        Cond::AtMost(..) => left <= right,
        Cond::Equal(..) => left == right,
    })
}

/// The key, or the code raised if it is invalid.
pub fn key(table: u8, id: i64) -> Result<Key, u16>
    ensures { result ≡ key_of table id }
{
    match Key::new(table, id) {
        Some(key) => Ok(key),
        None => Err(WRONG),
    }
}

/// The value read, or the number in its place if there is no record.
pub fn found_or(absent: i64, found: Option<i64>) -> i64
    ensures { result ≡ found_or absent found }
{
    match found {
        Some(number) => number,
        None => absent,
    }
}

fn sum(left: i64, right: i64) -> Result<i64, u16>
    ensures { result ≡ number_or_code (bounded (left +ℤ right)) }
{
    match left.checked_add(right) {
        Some(total) if is_value(total) => Ok(total),
        _ => Err(OVER),
    }
}

fn difference(left: i64, right: i64) -> Result<i64, u16>
    ensures { result ≡ number_or_code (bounded (left -ℤ right)) }
{
    match left.checked_sub(right) {
        Some(rest) if is_value(rest) => Ok(rest),
        _ => Err(OVER),
    }
}

fn product(left: i64, right: i64) -> Result<i64, u16>
    ensures { result ≡ number_or_code (bounded (left *ℤ right)) }
{
    match left.checked_mul(right) {
        Some(whole) if is_value(whole) => Ok(whole),
        _ => Err(OVER),
    }
}

fn quotient(left: i64, right: i64) -> Result<i64, u16>
    ensures { result ≡ number_or_code (divided left right) }
{
    match left.checked_div(right) {
        Some(part) if is_value(part) => Ok(part),
        _ => Err(OVER),
    }
}
