//! The statements that trees spell.
ghost use Rattle.std.specs.Prelude.{◌≡◌, ◌≤◌, Ok, IfOk, IfErr, codes, length};
ghost use Rattle.serde_json.specs.Data.{array};
ghost use Rattle.serde_json.specs.Find.{as_str};
ghost use Rattle.serde_json.specs.View.{view, items_view};
ghost use Rattle.sgt_model.specs.ProcedureTexts.{in_front, block_of};
ghost use Rattle.sgt_proc_json.specs.Readings.{at, is_word, statement, block, one_item, two_items, three_items, four_items};
ghost use Rattle.sgt_proc_json.specs.Refusals.{Says, IsList};
ghost use Rattle.sgt_proc_json.specs.declared.errors.ReadError.TheVariants.{NoMemory};
ghost use Rattle.sgt_proc_json.specs.Rows.{is_if, if_row, branches, other_row};

use crate::errors::ReadError;
use crate::read_cond::cond_at;
use crate::read_expr::expr_at;
use crate::read_number::{byte_at, short_at};
use serde_json::Value;
use sgt_model::Statement;
use std::alloc::Global;

/// The statement that the item at this position of a list spells.
#[cycle(statement)]
fn statement_at(alloc: Global, position: u64, tree: &Value) -> Result<Statement, ReadError>
    ensures ok { IfOk result (λ s. at position (statement (view tree.now)) ≡ Ok (in_front s)) }
    ensures err { IfErr result (Says (at position (statement (view tree.now)))) }
{
    let statement = match tree {
        Value::Array(items) => read_row(alloc, items.as_slice()),
        _ => Err(ReadError::here()),
    };
    match statement {
        Ok(statement) => Ok(statement),
        Err(error) => Err(error.under(position)),
    }
}

/// The statement that a list of these items spells.
#[cycle(statement)]
fn read_row(alloc: Global, items: &[Value]) -> Result<Statement, ReadError>
    ensures ok { IfOk result (λ s. statement (array (items_view items.now)) ≡ Ok (in_front s)) }
    ensures err { IfErr result (Says (statement (array (items_view items.now)))) }
{
    if is_if(items) {
        return if_row(alloc, items);
    }
    other_row(alloc, items)
}

/// Whether these are four items, the first of which is the word of an If.
fn is_if(items: &[Value]) -> bool
    ensures { result ≡ is_if (items_view items.now) }
{
    match items {
        [word, _, _, _] => is_word_if(word),
        _ => false,
    }
}

/// Whether an item is the word of an If.
fn is_word_if(word: &Value) -> bool
    ensures { result ≡ is_word (as_str (view word.now)) (codes "if") }
{
    matches!(word.as_str(), Some("if"))
}

/// The If that a list of these items spells. Its first item is its word.
#[cycle(statement)]
fn if_row(alloc: Global, items: &[Value]) -> Result<Statement, ReadError>
    ensures ok { IfOk result (λ s. if_row (items_view items.now) ≡ Ok (in_front s)) }
    ensures err { IfErr result (Says (if_row (items_view items.now))) }
{
    match items {
        [_, cond, _, _] => {
            let cond = cond_at(alloc, 1, cond)?;
            let (yes, no) = branches(alloc, items)?;
            Ok(Statement::If { cond, yes, no })
        }
        _ => Err(ReadError::here()),
    }
}

/// The branches of the If that a list of these items spells, after its condition.
#[cycle(statement)]
fn branches(alloc: Global, items: &[Value]) -> Result<(Vec<Statement>, Vec<Statement>), ReadError>
    ensures ok { IfOk result (λ found. branches (items_view items.now) ≡ Ok (block_of found.0.items, block_of found.1.items)) }
    ensures err { IfErr result (Says (branches (items_view items.now))) }
{
    match items {
        [_, _, yes, no] => {
            let yes = block_at(alloc, 2, yes)?;
            let no = block_at(alloc, 3, no)?;
            Ok((yes, no))
        }
        _ => Err(ReadError::here()),
    }
}

/// The statement that a list of these items spells, if it has no blocks.
fn other_row(alloc: Global, items: &[Value]) -> Result<Statement, ReadError>
    ensures ok { IfOk result (λ s. other_row (items_view items.now) ≡ Ok (in_front s)) }
    ensures err { IfErr result (Says (other_row (items_view items.now))) }
    ensures memory { IfErr result (λ error. error ≡ NoMemory → (2 ≤ length items.now) × (length items.now ≤ 5)) }
{
    match items {
        [word, a] => one_item(alloc, word, a),
        [word, a, b] => two_items(alloc, word, a, b),
        [word, a, b, c] => three_items(alloc, word, a, b, c),
        [word, a, b, c, d] => four_items(alloc, word, a, b, c, d),
        _ => Err(ReadError::here()),
    }
}

/// The statement that a word and one item spell: `ask` or `answer`.
fn one_item(alloc: Global, word: &Value, a: &Value) -> Result<Statement, ReadError>
    ensures ok { IfOk result (λ s.
        one_item (as_str (view word.now)) (view a.now) ≡ Ok (in_front s)) }
    ensures err { IfErr result (Says (one_item (as_str (view word.now)) (view a.now))) }
{
    match word.as_str() {
        Some("ask") => Ok(Statement::Ask {
            code: short_at(1, a)?,
        }),
        Some("answer") => Ok(Statement::Answer {
            value: expr_at(alloc, 1, a)?,
        }),
        _ => Err(ReadError::here()),
    }
}

/// The statement that a word and two items spell: `let` or `remove`.
fn two_items(alloc: Global, word: &Value, a: &Value, b: &Value) -> Result<Statement, ReadError>
    ensures ok { IfOk result (λ s.
        two_items (as_str (view word.now)) (view a.now) (view b.now) ≡ Ok (in_front s)) }
    ensures err { IfErr result
        (Says (two_items (as_str (view word.now)) (view a.now) (view b.now))) }
{
    match word.as_str() {
        Some("let") => Ok(Statement::Let {
            reg: byte_at(1, a)?,
            value: expr_at(alloc, 2, b)?,
        }),
        Some("remove") => Ok(Statement::Remove {
            table: byte_at(1, a)?,
            id: expr_at(alloc, 2, b)?,
        }),
        _ => Err(ReadError::here()),
    }
}

/// The statement that a word and three items spell, unless it has blocks: `put`.
fn three_items(
    alloc: Global,
    word: &Value,
    a: &Value,
    b: &Value,
    c: &Value,
) -> Result<Statement, ReadError>
    ensures ok { IfOk result (λ s.
        three_items (as_str (view word.now)) (view a.now) (view b.now) (view c.now)
        ≡ Ok (in_front s)) }
    ensures err { IfErr result (Says
        (three_items (as_str (view word.now)) (view a.now) (view b.now) (view c.now))) }
{
    match word.as_str() {
        Some("put") => Ok(Statement::Put {
            table: byte_at(1, a)?,
            id: expr_at(alloc, 2, b)?,
            value: expr_at(alloc, 3, c)?,
        }),
        _ => Err(ReadError::here()),
    }
}

/// The statement that a word and four items spell: `look` or `find`.
fn four_items(
    alloc: Global,
    word: &Value,
    a: &Value,
    b: &Value,
    c: &Value,
    d: &Value,
) -> Result<Statement, ReadError>
    ensures ok { IfOk result (λ s.
        four_items (as_str (view word.now)) (view a.now) (view b.now) (view c.now) (view d.now)
        ≡ Ok (in_front s)) }
    ensures err { IfErr result (Says
        (four_items (as_str (view word.now)) (view a.now) (view b.now) (view c.now) (view d.now))) }
{
    match word.as_str() {
        Some("look") => Ok(Statement::Look {
            reg: byte_at(1, a)?,
            table: byte_at(2, b)?,
            id: expr_at(alloc, 3, c)?,
            absent: short_at(4, d)?,
        }),
        Some("find") => Ok(Statement::Find {
            reg: byte_at(1, a)?,
            table: byte_at(2, b)?,
            id: expr_at(alloc, 3, c)?,
            absent: expr_at(alloc, 4, d)?,
        }),
        _ => Err(ReadError::here()),
    }
}

/// The statements that the item at this position of a list spells.
#[cycle(statement)]
pub(crate) fn block_at(
    alloc: Global,
    position: u64,
    tree: &Value,
) -> Result<Vec<Statement>, ReadError>
    ensures ok { IfOk result (λ list. at position (block (view tree.now)) ≡ Ok (block_of list.items)) }
    ensures err { IfErr result (Says (at position (block (view tree.now)))) }
    ensures memory { IfErr result (λ error. error ≡ NoMemory → IsList (view tree.now)) }
{
    let list = match tree {
        Value::Array(items) => read_statements(alloc, items.as_slice()),
        _ => Err(ReadError::here()),
    };
    match list {
        Ok(list) => Ok(list),
        Err(error) => Err(error.under(position)),
    }
}

/// The statements that these items spell.
#[cycle(statement)]
fn read_statements(alloc: Global, items: &[Value]) -> Result<Vec<Statement>, ReadError>
    ensures ok { IfOk result (λ list. block (array (items_view items.now)) ≡ Ok (block_of list.items)) }
    ensures err { IfErr result (Says (block (array (items_view items.now)))) }
{
    let mut list = Vec::with_capacity(alloc, items.len())?;
    for (position, item) in items.iter().enumerate() {
        list.push_reserved(statement_at(alloc, position as u64, item)?);
    }
    Ok(list)
}
