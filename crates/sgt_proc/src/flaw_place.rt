//! The place of a flaw in a procedure.
ghost use Rattle.std.specs.Prelude.{◌≡◌, Option, None, [], IfOk};
ghost use Rattle.sgt_proc.specs.declared.flaw.Flaw.{Flaw};
ghost use Rattle.sgt_proc.specs.declared.flaw_place.Stop.{Stop};
ghost use Rattle.sgt_model.specs.Syntax.{empty};
ghost use Rattle.sgt_model.specs.ProcedureTexts.{expr_text, cond_text, in_front, block_of, procedure_text};
ghost use Rattle.sgt_proc.specs.NumberFlaws.{is_bad};
ghost use Rattle.sgt_proc.specs.FlawPlaces.{
  Finds,
  Found,
  IsCounted,
  IsFirstPlace,
  first_in_block,
  first_in_cond,
  first_in_expr,
  first_in_statement,
  first_number,
  first_place,
  under,
};

use crate::answers::{MOST_ANSWERS, most_answers};
use crate::depths::DEEPEST;
use crate::flaw::{Flaw, Flawed};
use crate::numbers::{Number, Rule};
use crate::registers::is_live;
use crate::sizes::MOST_STATEMENTS;
use sgt_model::{Cond, Expr, NoMemory, Procedure, Statement};
use std::alloc::Global;

/// The first place of a flaw in a procedure, from the top down and from left to right.
#[derive(Drop)]
pub struct FlawPlace {
    /// The indexes that lead there from the top. The procedure has the number of its arguments at index 0, and its
    /// statements at 1. The items of a statement, a condition or an expression have the indexes from 1 on.
    pub place: Vec<u64>,
    /// What breaks the rule there: the number of a register, an argument, a table or a code, a literal, or a count.
    pub number: i64,
}

/// Why a search stops.
#[derive(Drop)]
enum Stop {
    /// A number there has the flaw.
    BadNumber(FlawPlace),
    /// A path to it, its depth or a count there has the flaw.
    Counted(FlawPlace),
    /// An allocation failed.
    NoMemory,
}

/// What a search has passed.
#[derive(Drop)]
struct Passed<'a> {
    /// Of each block around the current item the statements before it, outermost first.
    before: Vec<&'a [Statement]>,
    /// How many statements there are so far.
    statements: u8,
}

impl Flawed {
    /// The first place of its flaw, from the top down and from left to right. None if the procedure does not have it.
    ///
    /// # Errors
    ///
    /// `NoMemory` if an allocation failed.
    pub fn place(&self, alloc: Global) -> Result<Option<FlawPlace>, NoMemory>
        ensures first { IfOk result (IsFirstPlace self.now.flaw (procedure_text self.now.procedure)) }
    {
        let search = Search {
            alloc,
            rule: Rule {
                flaw: self.flaw,
                args: self.procedure.args,
            },
        };
        match search.procedure(&self.procedure) {
            Ok(()) => Ok(None),
            Err(Stop::BadNumber(place) | Stop::Counted(place)) => Ok(Some(place)),
            Err(Stop::NoMemory) => Err(NoMemory),
        }
    }
}

/// A search for the first place of a flaw. Each of its calls finds a place as seen from what it searches.
#[derive(Clone, Copy)]
struct Search {
    alloc: Global,
    rule: Rule,
}

impl Search {
    fn procedure(self, procedure: &Procedure) -> Result<(), Stop>
        requires args { self.rule.args ≡ procedure.now.args }
        ensures { Finds self.rule.flaw (first_place self.rule.flaw (procedure_text procedure.now)) result }
    {
        self.number(0, Number::Arguments(procedure.args))?;
        let mut passed = Passed {
            before: Vec::new(self.alloc),
            statements: 0,
        };
        self.block(&mut passed, 1, procedure.body.as_slice(), 1)
    }

    // A block that has this index. Its statements have this depth.
    #[cycle(block)]
    fn block<'a>(
        self,
        passed: &mut Passed<'a>,
        index: u64,
        list: &'a [Statement],
        depth: u8,
    ) -> Result<(), Stop>
        ensures { Finds self.rule.flaw
            (under index (first_in_block (is_bad self.rule.flaw self.rule.args) 0 (block_of list.now))) result }
    {
        within(index, self.statements(passed, list, depth))
    }

    #[cycle(block)]
    fn statements<'a>(
        self,
        passed: &mut Passed<'a>,
        list: &'a [Statement],
        depth: u8,
    ) -> Result<(), Stop>
        ensures { Finds self.rule.flaw
            (first_in_block (is_bad self.rule.flaw self.rule.args) 0 (block_of list.now)) result }
    {
        for index in 0..list.len() {
            if passed.before.push(&list[..index]).is_err() {
                return Err(Stop::NoMemory);
            }
            self.statement(passed, index as u64, &list[index], depth)?;
            passed.before.pop();
        }
        Ok(())
    }

    // A statement of this depth that has this index.
    #[cycle(block)]
    fn statement<'a>(
        self,
        passed: &mut Passed<'a>,
        index: u64,
        statement: &'a Statement,
        depth: u8,
    ) -> Result<(), Stop>
        ensures { Finds self.rule.flaw
            (under index (first_in_statement (is_bad self.rule.flaw self.rule.args) (in_front statement.now empty)))
            result }
    {
        within(index, self.statement_items(passed, statement, depth))
    }

    #[cycle(block)]
    fn statement_items<'a>(
        self,
        passed: &mut Passed<'a>,
        statement: &'a Statement,
        depth: u8,
    ) -> Result<(), Stop>
        ensures { Finds self.rule.flaw
            (first_in_statement (is_bad self.rule.flaw self.rule.args) (in_front statement.now empty)) result }
    {
        passed.statements = passed.statements.saturating_add(1);
        self.size(passed.statements)?;
        self.depth(depth)?;
        match statement {
            Statement::Look {
                reg,
                table,
                id,
                absent,
            } => {
                self.number(1, Number::Register(*reg))?;
                self.number(2, Number::Table(*table))?;
                self.expr(passed, 3, id, 1)?;
                self.number(4, Number::Code(*absent))
            }
            Statement::Find {
                reg,
                table,
                id,
                absent,
            } => {
                self.number(1, Number::Register(*reg))?;
                self.number(2, Number::Table(*table))?;
                self.expr(passed, 3, id, 1)?;
                self.expr(passed, 4, absent, 1)
            }
            Statement::Put { table, id, value } => {
                self.number(1, Number::Table(*table))?;
                self.expr(passed, 2, id, 1)?;
                self.expr(passed, 3, value, 1)
            }
            Statement::Remove { table, id } => {
                self.number(1, Number::Table(*table))?;
                self.expr(passed, 2, id, 1)
            }
            Statement::Let { reg, value } => {
                self.number(1, Number::Register(*reg))?;
                self.expr(passed, 2, value, 1)
            }
            Statement::Ask { code } => self.number(1, Number::Code(*code)),
            Statement::If { cond, yes, no } => {
                self.cond(passed, 1, cond)?;
                self.block(passed, 2, yes.as_slice(), depth.saturating_add(1))?;
                self.block(passed, 3, no.as_slice(), depth.saturating_add(1))
            }
            Statement::Answer { value } => {
                self.answers(passed)?;
                self.expr(passed, 1, value, 1)
            }
        }
    }

    // A condition that has this index.
    fn cond(self, passed: &Passed<'_>, index: u64, cond: &Cond) -> Result<(), Stop>
        ensures { Finds self.rule.flaw
            (under index (first_in_cond (is_bad self.rule.flaw self.rule.args) (cond_text cond.now))) result }
    {
        within(index, self.cond_items(passed, cond))
    }

    fn cond_items(self, passed: &Passed<'_>, cond: &Cond) -> Result<(), Stop>
        ensures { Finds self.rule.flaw
            (first_in_cond (is_bad self.rule.flaw self.rule.args) (cond_text cond.now)) result }
    {
        let (Cond::Less(left, right) | Cond::AtMost(left, right) | Cond::Equal(left, right)) = cond;
        self.expr(passed, 1, left, 1)?;
        self.expr(passed, 2, right, 1)
    }

    // An expression of this depth that has this index.
    #[cycle(expr)]
    fn expr(self, passed: &Passed<'_>, index: u64, expr: &Expr, depth: u8) -> Result<(), Stop>
        ensures { Finds self.rule.flaw
            (under index (first_in_expr (is_bad self.rule.flaw self.rule.args) (expr_text expr.now))) result }
    {
        within(index, self.expr_items(passed, expr, depth))
    }

    #[cycle(expr)]
    fn expr_items(self, passed: &Passed<'_>, expr: &Expr, depth: u8) -> Result<(), Stop>
        ensures { Finds self.rule.flaw
            (first_in_expr (is_bad self.rule.flaw self.rule.args) (expr_text expr.now)) result }
    {
        self.depth(depth)?;
        match expr {
            Expr::Num(n) => if self.rule.is_broken(Number::Literal(*n)) {
                Err(Stop::BadNumber(self.here(*n)))
            } else {
                Ok(())
            },
            Expr::Arg(n) => self.number(1, Number::Argument(*n)),
            Expr::Reg(n) => {
                self.use_of(passed, *n)?;
                self.number(1, Number::Register(*n))
            }
            Expr::Sum(left, right)
            | Expr::Diff(left, right)
            | Expr::Product(left, right)
            | Expr::Quotient(left, right) => {
                self.expr(passed, 1, left, depth.saturating_add(1))?;
                self.expr(passed, 2, right, depth.saturating_add(1))
            }
        }
    }

    // A number that has this index.
    fn number(self, index: u64, number: Number) -> Result<(), Stop>
        ensures { Finds self.rule.flaw
            (first_number (is_bad self.rule.flaw self.rule.args) index number) result }
    {
        if self.rule.is_broken(number) {
            let mut at = self.here(number.value());
            if at.place.push(index).is_err() {
                return Err(Stop::NoMemory);
            }
            return Err(Stop::BadNumber(at));
        }
        Ok(())
    }

    // Stops if this is one statement too many.
    fn size(self, statements: u8) -> Result<(), Stop>
        ensures { Finds self.rule.flaw None result }
    {
        match self.rule.flaw {
            Flaw::TooLong if statements > MOST_STATEMENTS => self.counted(statements),
            _ => Ok(()),
        }
    }

    // Stops if a statement or an expression of this depth is too deep.
    fn depth(self, depth: u8) -> Result<(), Stop>
        ensures { Finds self.rule.flaw None result }
    {
        match self.rule.flaw {
            Flaw::TooDeep if depth > DEEPEST => self.counted(depth),
            _ => Ok(()),
        }
    }

    // Stops if there are too many answers on a path that has one here.
    fn answers(self, passed: &Passed<'_>) -> Result<(), Stop>
        ensures { Finds self.rule.flaw None result }
    {
        match self.rule.flaw {
            Flaw::ManyAnswers if passed.answers() > MOST_ANSWERS => self.counted(passed.answers()),
            _ => Ok(()),
        }
    }

    // Stops at a use of the register, if some path does not set it before.
    fn use_of(self, passed: &Passed<'_>, register: u8) -> Result<(), Stop>
        ensures { Finds self.rule.flaw None result }
    {
        match self.rule.flaw {
            Flaw::UnsetRegister if passed.may_lack(register) => self.counted(register),
            _ => Ok(()),
        }
    }

    // Stops at what is searched, because of a count or the paths to it.
    fn counted(self, number: u8) -> Result<(), Stop>
        requires { IsCounted self.rule.flaw }
        ensures { Finds self.rule.flaw None result }
    {
        Err(Stop::Counted(self.here(i64::from(number))))
    }

    // The place of what is searched, as seen from itself.
    fn here(self, number: i64) -> FlawPlace
        ensures place { result.place.items ≡ [] }
        ensures number { result.number ≡ number }
    {
        FlawPlace {
            place: Vec::new(self.alloc),
            number,
        }
    }
}

// What is found in an item, as found in the list that has the item at this index.
fn within(index: u64, found: Result<(), Stop>) -> Result<(), Stop>
    ensures { (flaw : Flaw) (first : Option Found)
        → Finds flaw first found → Finds flaw (under index first) result }
{
    match found {
        Err(Stop::BadNumber(mut at)) => {
            if at.place.insert(0, index).is_err() {
                return Err(Stop::NoMemory);
            }
            Err(Stop::BadNumber(at))
        }
        Err(Stop::Counted(mut at)) => {
            if at.place.insert(0, index).is_err() {
                return Err(Stop::NoMemory);
            }
            Err(Stop::Counted(at))
        }
        Ok(()) => Ok(()),
        Err(Stop::NoMemory) => Err(Stop::NoMemory),
    }
}

impl Passed<'_> {
    // Whether some path to the current place does not set the register. Nothing before it uses an unset one.
    fn may_lack(&self, register: u8) -> bool {
        let mut lacks = true;
        for statements in self.before.iter().rev() {
            lacks = is_live(statements, register, lacks);
        }
        lacks
    }

    // The most answers on a path that has one at the current place.
    fn answers(&self) -> u8 {
        let mut most = 1;
        for statements in self.before.iter().rev() {
            most = most_answers(statements, most);
        }
        most
    }
}
