//! The text of a procedure as a tree: statements, expressions and conditions.

/// The number of the empty procedure, in every engine, whatever its list of procedures: no arguments, no statements, no answers.
/// A start of it begins a transaction whose caller decides each access. A procedure of a list that has this index is not reached.
pub const EMPTY_PROCEDURE: u16 = 65_535;

/// A procedure, as it is written. Check its text before it runs: a check requires the ranges below.
/// It has no loops and calls no other procedure, so it always comes to its end or raises a code.
#[derive(Drop)]
pub struct Procedure {
    /// How many arguments it takes, from 0 to 4.
    pub args: u8,
    /// What it does, one statement after another.
    pub body: Vec<Statement>,
}

/// One statement. Registers, from 0 to 15, hold values; none is set at the start. Tables are from 0 to 7, codes from
/// 1 to 999. Numbers of records and what is written or answered are values.
#[derive(Drop)]
pub enum Statement {
    /// Reads the record of the table whose number is `id`, and sets the register to its value. If the record does not
    /// exist, the procedure ends and raises the code `absent`.
    Look {
        reg: u8,
        table: u8,
        id: Expr,
        absent: u16,
    },
    /// Reads the record of the table whose number is `id`, and sets the register to its value. If the record does not
    /// exist, it sets the register to `absent` and raises no code. `absent` is evaluated before the read.
    Find {
        reg: u8,
        table: u8,
        id: Expr,
        absent: Expr,
    },
    /// Writes the value to the record of the table whose number is `id`. If the record does not exist, it is created.
    Put {
        table: u8,
        id: Expr,
        value: Expr,
    },
    /// Removes the record of the table whose number is `id`: a write of no value. If the record does not exist, it stays
    /// absent, and the access is the same.
    Remove {
        table: u8,
        id: Expr,
    },
    /// Sets the register to the value.
    Let {
        reg: u8,
        value: Expr,
    },
    /// Ends the procedure and raises the code.
    Ask {
        code: u16,
    },
    /// Continues with `yes` if the condition holds, and else with `no`.
    If {
        cond: Cond,
        yes: Vec<Statement>,
        no: Vec<Statement>,
    },
    /// Adds the value to the answers, which are at most 8.
    Answer {
        value: Expr,
    },
}

/// An expression; its left part is evaluated first. If a sum, difference, product or quotient is no value, the procedure
/// ends and raises code 1000. So does a quotient by 0.
#[derive(Drop)]
pub enum Expr {
    /// A literal, which is a value.
    Num(i64),
    /// The argument of this number, counted from 0.
    Arg(u8),
    /// The register of this number.
    Reg(u8),
    /// The left part plus the right part.
    Sum(Box<Expr>, Box<Expr>),
    /// The left part less the right part.
    Diff(Box<Expr>, Box<Expr>),
    /// The left part times the right part.
    Product(Box<Expr>, Box<Expr>),
    /// The left part divided by the right part, rounded towards zero.
    Quotient(Box<Expr>, Box<Expr>),
}

/// A condition on two expressions; the left one is evaluated first.
#[derive(Drop)]
pub enum Cond {
    /// The left one is smaller.
    Less(Expr, Expr),
    /// The left one is smaller, or they are equal.
    AtMost(Expr, Expr),
    /// They are equal.
    Equal(Expr, Expr),
}
