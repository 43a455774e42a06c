//! The flaws that a procedure can have.
ghost use Rattle.std.specs.Prelude.{◌≡◌, ◌↔◌, IsTrue};
ghost use Rattle.sgt_model.specs.ProcedureTexts.{procedure_text};
ghost use Rattle.sgt_proc.specs.Flaws.{number, HasFlaw};

use crate::answers::{MOST_ANSWERS, most_answers};
use crate::depths::{DEEPEST, depth, exprs_depth};
use crate::numbers::Rule;
use crate::registers::uses_unset;
use crate::sizes::{MOST_STATEMENTS, size};
use sgt_model::Procedure;

/// The maximum number of arguments of a procedure.
pub const MOST_ARGUMENTS: u8 = 4;

/// A flaw in a procedure's text. A path through the text takes either branch of each If, whatever the condition, and
/// stops at an Ask.
#[derive(Clone, Copy, Debug)]
pub enum Flaw {
    /// A register number is over 15.
    HighRegister,
    /// On some path an expression uses a register that no Look, Find or Let before it on that path sets.
    UnsetRegister,
    /// An argument number is not below the number of arguments that the procedure takes.
    NoArgument,
    /// A table number is over 7.
    HighTable,
    /// There are more than 64 statements. Those inside an If count, and so does the If itself.
    TooLong,
    /// A statement or an expression is more than 16 deep. Statements in an If are one deeper than it, and a sum,
    /// difference, product or quotient is one deeper than its deeper part.
    TooDeep,
    /// Some path has more than 8 answers.
    ManyAnswers,
    /// A code is 0 or over 999.
    BadCode,
    /// The procedure takes more than 4 arguments.
    ManyArguments,
    /// A literal is no value.
    BadLiteral,
}

/// A procedure that was refused, and its flaw with the least number.
#[derive(Drop)]
pub struct Flawed {
    pub flaw: Flaw,
    pub procedure: Procedure,
}

impl Flaw {
    /// All flaws, in the order of their numbers.
    pub(crate) const ALL: [Flaw; 10] = [
        Flaw::HighRegister,
        Flaw::UnsetRegister,
        Flaw::NoArgument,
        Flaw::HighTable,
        Flaw::TooLong,
        Flaw::TooDeep,
        Flaw::ManyAnswers,
        Flaw::BadCode,
        Flaw::ManyArguments,
        Flaw::BadLiteral,
    ];

    /// Its number, from 1 to 10.
    pub fn number(&self) -> u8
        ensures value { result ≡ number self.now }
    {
        match self {
            Flaw::HighRegister => 1,
            Flaw::UnsetRegister => 2,
            Flaw::NoArgument => 3,
            Flaw::HighTable => 4,
            Flaw::TooLong => 5,
            Flaw::TooDeep => 6,
            Flaw::ManyAnswers => 7,
            Flaw::BadCode => 8,
            Flaw::ManyArguments => 9,
            Flaw::BadLiteral => 10,
        }
    }

    /// Whether the procedure has this flaw.
    pub(crate) fn is_in(&self, procedure: &Procedure) -> bool
        ensures { IsTrue result ↔ HasFlaw self.now (procedure_text procedure.now) }
    {
        let flaw = *self;
        let args = procedure.args;
        let body = procedure.body.as_slice();
        match flaw {
            Flaw::HighRegister
            | Flaw::NoArgument
            | Flaw::HighTable
            | Flaw::BadCode
            | Flaw::BadLiteral => Rule { flaw, args }.is_broken_in_text(body),
            Flaw::UnsetRegister => uses_unset(body),
            Flaw::TooLong => size(body) > MOST_STATEMENTS,
            Flaw::TooDeep => depth(body).max(exprs_depth(body)) > DEEPEST,
            Flaw::ManyAnswers => most_answers(body, 0) > MOST_ANSWERS,
            Flaw::ManyArguments => args > MOST_ARGUMENTS,
        }
    }
}
