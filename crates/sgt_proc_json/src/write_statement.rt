//! Statements as trees.
ghost use Rattle.std.specs.Prelude.{[], ◌∷◌, codes, IfOk};
ghost use Rattle.serde_json.specs.Data.{Items, item};
ghost use Rattle.serde_json.specs.View.{view};
ghost use Rattle.sgt_model.specs.Syntax.{Block};
ghost use Rattle.sgt_model.specs.ProcedureTexts.{expr_text, cond_text, in_front, block_of};
ghost use Rattle.sgt_proc_json.specs.Spelling.{WordAnd, Byte, Short, SpellsTerm, SpellsTest, Listed, SpellsBlock};

use crate::write_cond::write_cond;
use crate::write_expr::write_expr;
use crate::write_number::{write_byte, write_short};
use crate::write_row::{row_of_one, row_of_two};
use serde_json::Value;
use sgt_model::{Cond, Expr, NoMemory, Statement};
use std::alloc::Global;

/// The tree of a statement.
#[cycle(statement)]
fn write_statement(alloc: Global, statement: &Statement) -> Result<Value, NoMemory>
    ensures { IfOk result (λ v. (b : Block) (items : Items) →
        SpellsBlock b items → SpellsBlock (in_front statement.now b) (item (view v) items)) }
{
    match statement {
        Statement::Look {
            reg,
            table,
            id,
            absent,
        } => write_look(alloc, *reg, *table, id, *absent),
        Statement::Find {
            reg,
            table,
            id,
            absent,
        } => write_find(alloc, *reg, *table, id, absent),
        Statement::Put { table, id, value } => write_put(alloc, *table, id, value),
        Statement::Remove { table, id } => write_number_and(alloc, "remove", *table, id),
        Statement::Let { reg, value } => write_number_and(alloc, "let", *reg, value),
        Statement::Ask { code } => write_ask(alloc, *code),
        Statement::If { cond, yes, no } => {
            let yes = write_block(alloc, yes)?;
            let no = write_block(alloc, no)?;
            write_if(alloc, cond, yes, no)
        }
        Statement::Answer { value } => write_answer(alloc, value),
    }
}

/// The tree of a read (`Look`).
fn write_look(alloc: Global, reg: u8, table: u8, id: &Expr, absent: u16) -> Result<Value, NoMemory>
    ensures { IfOk result (λ v. WordAnd (codes "look")
        (Byte reg ∷ Byte table ∷ SpellsTerm (expr_text id.now) ∷ Short absent ∷ []) (view v)) }
{
    let id = write_expr(alloc, id)?;
    let word = Value::try_from_str(alloc, "look")?;
    let absent = write_short(absent);
    Ok(Value::Array(vec![in alloc; word, write_byte(reg), write_byte(table), id, absent]?))
}

/// The tree of a find.
fn write_find(
    alloc: Global,
    reg: u8,
    table: u8,
    id: &Expr,
    absent: &Expr,
) -> Result<Value, NoMemory>
    ensures { IfOk result (λ v. WordAnd (codes "find")
        (Byte reg ∷ Byte table ∷ SpellsTerm (expr_text id.now) ∷ SpellsTerm (expr_text absent.now) ∷ []) (view v)) }
{
    let id = write_expr(alloc, id)?;
    let absent = write_expr(alloc, absent)?;
    let word = Value::try_from_str(alloc, "find")?;
    Ok(Value::Array(vec![in alloc; word, write_byte(reg), write_byte(table), id, absent]?))
}

/// The tree of a put.
fn write_put(alloc: Global, table: u8, id: &Expr, value: &Expr) -> Result<Value, NoMemory>
    ensures { IfOk result (λ v. WordAnd (codes "put")
        (Byte table ∷ SpellsTerm (expr_text id.now) ∷ SpellsTerm (expr_text value.now) ∷ []) (view v)) }
{
    let id = write_expr(alloc, id)?;
    let value = write_expr(alloc, value)?;
    let word = Value::try_from_str(alloc, "put")?;
    Ok(Value::Array(vec![in alloc; word, write_byte(table), id, value]?))
}

/// The tree of a word, a number from 0 to 255 and an expression: a remove or a Let.
fn write_number_and(alloc: Global, word: &str, number: u8, expr: &Expr) -> Result<Value, NoMemory>
    ensures { IfOk result (λ v. WordAnd word.now
        (Byte number ∷ SpellsTerm (expr_text expr.now) ∷ []) (view v)) }
{
    let expr = write_expr(alloc, expr)?;
    row_of_two(alloc, word, write_byte(number), expr)
}

/// The tree of an Ask.
fn write_ask(alloc: Global, code: u16) -> Result<Value, NoMemory>
    ensures { IfOk result (λ v. WordAnd (codes "ask") (Short code ∷ []) (view v)) }
{
    row_of_one(alloc, "ask", write_short(code))
}

/// The tree of an If with these branches.
fn write_if(alloc: Global, cond: &Cond, yes: Value, no: Value) -> Result<Value, NoMemory>
    ensures { IfOk result (λ v. (ys ns : Block) →
        Listed (SpellsBlock ys) (view yes) → Listed (SpellsBlock ns) (view no) →
        WordAnd (codes "if") (SpellsTest (cond_text cond.now) ∷ Listed (SpellsBlock ys) ∷ Listed (SpellsBlock ns) ∷ []) (view v)) }
{
    let cond = write_cond(alloc, cond)?;
    let word = Value::try_from_str(alloc, "if")?;
    Ok(Value::Array(vec![in alloc; word, cond, yes, no]?))
}

/// The tree of an answer.
fn write_answer(alloc: Global, value: &Expr) -> Result<Value, NoMemory>
    ensures { IfOk result (λ v. WordAnd (codes "answer") (SpellsTerm (expr_text value.now) ∷ []) (view v)) }
{
    let value = write_expr(alloc, value)?;
    row_of_one(alloc, "answer", value)
}

/// The tree of a list of statements.
#[cycle(statement)]
pub(crate) fn write_block(alloc: Global, list: &[Statement]) -> Result<Value, NoMemory>
    ensures { IfOk result (λ v. Listed (SpellsBlock (block_of list.now)) (view v)) }
{
    let mut trees = Vec::with_capacity(alloc, list.len())?;
    for statement in list {
        trees.push(write_statement(alloc, statement)?)?;
    }
    Ok(Value::Array(trees))
}
