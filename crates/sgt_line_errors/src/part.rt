//! What may be at a position of a procedure or of a request in JSON.
use sgt_model::NoMemory;
use std::alloc::Global;

/// What may be at a position of a procedure or of a request in JSON.
#[derive(Clone, Copy, PartialEq)]
pub(crate) enum Part {
    /// `[args,[statement,..]]`.
    Procedure,
    /// How many arguments a procedure takes.
    Arguments,
    /// A list of statements.
    Block,
    Statement,
    Expression,
    Condition,
    /// The number of a register.
    Register,
    /// The number of an argument.
    Argument,
    Table,
    Code,
    /// The number of a transaction.
    Transaction,
    /// The number of a record in its table.
    Number,
    /// The value of a record.
    Value,
    /// The number of a procedure.
    Called,
    /// A list of the arguments of a call.
    Given,
}

impl Part {
    /// What may be at a position of such a list, which starts with this word, if it starts with one.
    pub(crate) fn at(self, word: Option<&str>, position: usize) -> Option<Part> {
        match (self, position) {
            (Part::Procedure, _) => Some(*PROCEDURE.get(position)?),
            (Part::Block, _) => Some(Part::Statement),
            _ => Some(*self.following(word?)?.get(position.checked_sub(1)?)?),
        }
    }

    /// What follows a word, if a list that starts with it may be this.
    pub(crate) fn following(self, word: &str) -> Option<&'static [Part]> {
        match row(word) {
            Some((part, parts)) if part == self => Some(parts),
            _ => None,
        }
    }

    /// The form of a list that starts with the word and continues with these parts, by the names of the parts.
    pub(crate) fn form(alloc: Global, word: &str, parts: &[Part]) -> Result<String, NoMemory> {
        let mut form = format!(in alloc; "[\"{word}\"")?;
        for part in parts {
            form.push_str(",")?;
            form.push_str(part.names().0)?;
        }
        form.push_str("]")?;
        Ok(form)
    }

    /// Its description in words.
    pub(crate) fn words(self) -> &'static str {
        self.names().1
    }

    /// The words with which a list starts that is this, if this is such a list.
    pub(crate) fn starts(self) -> &'static str {
        match self {
            Part::Statement =>
                "a statement starts with look, find, put, remove, let, ask, if or answer",
            Part::Condition => "a condition starts with less (<), most (<=) or same (=)",
            Part::Expression =>
                "an expression starts with arg, reg, sum, diff, product or quotient",
            _ => "",
        }
    }

    /// How this is written, if it is or may be a list that starts with a word, or is a procedure.
    pub(crate) fn rule(self) -> Option<&'static str> {
        match self {
            Part::Procedure => Some(
                "a procedure is a list in the list of procedures, as [[0,[[\"answer\",7]]]]",
            ),
            Part::Statement => Some(
                "a statement is a list that starts with its word, as [\"ask\",7]",
            ),
            Part::Condition => Some(
                "a condition is a list that starts with its word, as [\"less\",1,2]",
            ),
            Part::Expression => Some(
                "an expression is a whole number, or a list that starts with its word, as [\"arg\",0]",
            ),
            _ => None,
        }
    }

    /// Whether it may be a list.
    pub(crate) fn is_list(self) -> bool {
        matches!(
            self,
            Part::Procedure | Part::Block | Part::Statement | Part::Expression | Part::Condition
        )
    }

    // Its name in such a list, and its description.
    fn names(self) -> (&'static str, &'static str) {
        match self {
            Part::Procedure => ("procedure", "[arguments,[statement,..]]"),
            Part::Arguments => ("arguments", "a number of arguments from 0 to 4"),
            Part::Block => ("[statement,..]", "a list of statements"),
            Part::Statement => ("statement", "a statement"),
            Part::Expression => ("expression", "an expression"),
            Part::Condition => ("condition", "a condition"),
            Part::Register => ("register", "a register from 0 to 15"),
            Part::Argument => ("argument", "an argument from 0 to 3"),
            Part::Table => ("table", "a table from 0 to 7"),
            Part::Code => ("code", "a code from 1 to 999"),
            Part::Transaction => ("transaction", "a transaction from 0 to 4294967295"),
            Part::Number => (
                "number",
                "a whole number of at most 15 digits as the number",
            ),
            Part::Value => ("value", "a whole number of at most 15 digits as the value"),
            Part::Called => ("procedure", "a procedure from 0 to 65535"),
            Part::Given => ("[argument,..]", "a list of arguments"),
        }
    }
}

/// What a list is that starts with the word, and what follows the word.
pub(crate) fn row(word: &str) -> Option<(Part, &'static [Part])> {
    use Part::{Argument, Block, Code, Condition, Expression, Register, Statement, Table};
    match word {
        "look" => Some((Statement, &[Register, Table, Expression, Code])),
        "find" => Some((Statement, &[Register, Table, Expression, Expression])),
        "put" => Some((Statement, &[Table, Expression, Expression])),
        "remove" => Some((Statement, &[Table, Expression])),
        "let" => Some((Statement, &[Register, Expression])),
        "ask" => Some((Statement, &[Code])),
        "if" => Some((Statement, &[Condition, Block, Block])),
        "answer" => Some((Statement, &[Expression])),
        "arg" => Some((Expression, &[Argument])),
        "reg" => Some((Expression, &[Register])),
        "sum" | "diff" | "product" | "quotient" => Some((Expression, &[Expression, Expression])),
        "less" | "most" | "same" => Some((Condition, &[Expression, Expression])),
        _ => None,
    }
}

/// What a procedure is made of.
pub(crate) const PROCEDURE: &[Part] = &[Part::Arguments, Part::Block];
