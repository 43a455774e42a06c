//! The numbers in a procedure's text, and the rules that they may break.
ghost use Rattle.std.specs.Prelude.{◌≡◌};
ghost use Rattle.sgt_model.specs.Syntax.{empty};
ghost use Rattle.sgt_model.specs.ProcedureTexts.{expr_text, cond_text, in_front, block_of};
ghost use Rattle.sgt_proc.specs.Flaws.{in_expr, in_cond, in_block};
ghost use Rattle.sgt_proc.specs.NumberFlaws.{is_bad, value_of};

use crate::flaw::{Flaw, MOST_ARGUMENTS};
use sgt_model::{Cond, Expr, LAST_TABLE, Statement, is_value};

/// The greatest number of a register.
pub const LAST_REGISTER: u8 = 15;

/// The greatest code that a procedure of a text aborts with.
pub const LAST_CODE: u16 = 999;

/// A number in the text of a procedure.
#[derive(Clone, Copy)]
pub enum Number {
    Register(u8),
    Argument(u8),
    Table(u8),
    Code(u16),
    Literal(i64),
    /// How many arguments the procedure takes.
    Arguments(u8),
}

impl Number {
    /// The number itself.
    pub fn value(self) -> i64
        ensures { result ≡ value_of self }
    {
        match self {
            Number::Register(n) | Number::Argument(n) | Number::Table(n) | Number::Arguments(n) => {
                i64::from(n)
            }
            Number::Code(n) => i64::from(n),
            Number::Literal(n) => n,
        }
    }
}

/// The rule that no number in a text may break: none has this flaw, in a procedure that takes this many arguments.
#[derive(Clone, Copy)]
pub struct Rule {
    pub flaw: Flaw,
    pub args: u8,
}

impl Rule {
    pub fn is_broken(self, number: Number) -> bool
        ensures { result ≡ is_bad self.flaw self.args number }
    {
        match (self.flaw, number) {
            (Flaw::HighRegister, Number::Register(n)) => n > LAST_REGISTER,
            (Flaw::NoArgument, Number::Argument(n)) => n >= self.args,
            (Flaw::HighTable, Number::Table(n)) => n > LAST_TABLE,
            (Flaw::BadCode, Number::Code(n)) => n == 0 || n > LAST_CODE,
            (Flaw::BadLiteral, Number::Literal(n)) => !is_value(n),
            (Flaw::ManyArguments, Number::Arguments(n)) => n > MOST_ARGUMENTS,
            _ => false,
        }
    }

    fn is_broken_in(self, expr: &Expr) -> bool
        ensures { result ≡ in_expr (is_bad self.flaw self.args) (expr_text expr.now) }
    {
        match expr {
            Expr::Num(n) => self.is_broken(Number::Literal(*n)),
            Expr::Arg(n) => self.is_broken(Number::Argument(*n)),
            Expr::Reg(n) => self.is_broken(Number::Register(*n)),
            Expr::Sum(left, right)
            | Expr::Diff(left, right)
            | Expr::Product(left, right)
            | Expr::Quotient(left, right) => { self.is_broken_in(left) || self.is_broken_in(right) }
        }
    }

    fn is_broken_in_test(self, cond: &Cond) -> bool
        ensures { result ≡ in_cond (is_bad self.flaw self.args) (cond_text cond.now) }
    {
        match cond {
            Cond::Less(left, right) | Cond::AtMost(left, right) | Cond::Equal(left, right) => {
                self.is_broken_in(left) || self.is_broken_in(right)
            }
        }
    }

    #[cycle(text)]
    fn is_broken_by(self, statement: &Statement) -> bool
        ensures { result ≡ in_block (is_bad self.flaw self.args) (in_front statement.now empty) }
    {
        match statement {
            Statement::Look {
                reg,
                table,
                id,
                absent,
            } => {
                self.is_broken(Number::Register(*reg))
                    || self.is_broken(Number::Table(*table))
                    || self.is_broken_in(id)
                    || self.is_broken(Number::Code(*absent))
            }
            Statement::Find {
                reg,
                table,
                id,
                absent,
            } => {
                self.is_broken(Number::Register(*reg))
                    || self.is_broken(Number::Table(*table))
                    || self.is_broken_in(id)
                    || self.is_broken_in(absent)
            }
            Statement::Put { table, id, value } => {
                self.is_broken(Number::Table(*table))
                    || self.is_broken_in(id)
                    || self.is_broken_in(value)
            }
            Statement::Remove { table, id } => {
                self.is_broken(Number::Table(*table)) || self.is_broken_in(id)
            }
            Statement::Let { reg, value } => {
                self.is_broken(Number::Register(*reg)) || self.is_broken_in(value)
            }
            Statement::Ask { code } => self.is_broken(Number::Code(*code)),
            Statement::If { cond, yes, no } => {
                self.is_broken_in_test(cond)
                    || self.is_broken_in_text(yes)
                    || self.is_broken_in_text(no)
            }
            Statement::Answer { value } => self.is_broken_in(value),
        }
    }

    /// Whether a number of the text has the flaw, even one that no path reaches.
    #[cycle(text)]
    pub fn is_broken_in_text(self, statements: &[Statement]) -> bool
        ensures { result ≡ in_block (is_bad self.flaw self.args) (block_of statements.now) }
    {
        for statement in statements {
            if self.is_broken_by(statement) {
                return true;
            }
        }
        false
    }
}
