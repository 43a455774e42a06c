//! A position in a procedure, with the registers and answers there.
ghost use Rattle.std.specs.Prelude.{◌≡◌, ◌≤◌, ◌<◌, [], Ok, Some, None, IfSome, cond, IsTrue};
ghost use Rattle.arrayvec.specs.ArrayVec.{array_vec_len};
ghost use Rattle.sgt_model.specs.Syntax.{Block, empty};
ghost use Rattle.sgt_model.specs.ProcedureTexts.{expr_text, in_front, block_of};
ghost use Rattle.sgt_model.specs.Meaning.{fresh, value_of};
ghost use Rattle.sgt_model.specs.Executions.{and_then, in_turn, key_of};
ghost use Rattle.sgt_model.specs.Left.{number_or_code};
ghost use Rattle.sgt_proc.specs.declared.place.Went.TheVariants.{Stopped, On};
ghost use Rattle.sgt_proc.specs.Flaws.{depth, size};
ghost use Rattle.sgt_proc.specs.Paths.{following, branch, inner};
ghost use Rattle.sgt_proc.specs.Places.{with_found_in, IsIn, Steps, Stops, StopsAtValue};

use crate::answers::MOST_ANSWERS;
use crate::value::{WRONG, key, numbers, term, test, test_of_terms, value, value_of_terms};
use arrayvec::ArrayVec;
use sgt_model::{Answers, Args, Expr, Key, Statement, is_value};

/// An If that a position is inside of.
#[derive(Clone, Copy, Default)]
pub struct Turn {
    /// Its index in its list.
    pub at: u8,
    /// Whether its condition held, so the branch `yes` was taken.
    pub held: bool,
}

/// Where a procedure stopped: at an access, at its end or at a code.
#[derive(Clone, Copy)]
pub enum Stop {
    /// At a read, which sets the register, or aborts with the code if there is no record.
    Look { key: Key, reg: u8, absent: u16 },
    /// At a read, which sets the register to the value, or to `absent` if there is no record.
    Find { key: Key, reg: u8, absent: i64 },
    /// At a write: of the value, or of none, which removes the record.
    Put(Key, Option<i64>),
    /// At its end.
    End,
    /// It aborts with the code.
    Asks(u16),
    /// It aborts with the code, because its last read found no record.
    Absent(u16),
}

impl Stop {
    // Writes where a procedure stopped.
    #[inline(always)]
    fn stand(&mut self, stop: Stop) -> Went
        ensures stop { self.new ≡ stop }
        ensures stopped { result ≡ Stopped }
    {
        *self = stop;
        Went::Stopped
    }
}

/// What the execution of a statement led to.
#[derive(Clone, Copy)]
enum Went {
    /// The procedure stopped there.
    Stopped,
    /// It continues in the same list.
    On,
    /// It entered a branch.
    Inside,
}

/// A position in a procedure, and the state of the procedure there.
#[derive(Drop)]
pub struct Place {
    pub args: Args,
    pub registers: [Option<i64>; 16],
    pub answers: Answers,
    /// The Ifs that it is inside of, outermost first.
    pub path: ArrayVec<Turn, 16>,
    /// How many statements of the innermost list are done.
    pub at: u8,
}

impl Place {
    /// Starts a procedure with these arguments: nothing is executed, no register is set, and there are no answers.
    #[inline(always)]
    pub fn restart(&mut self, args: &Args)
        ensures args { self.new.args ≡ args.now }
        ensures registers { self.new.registers ≡ fresh }
        ensures answers { self.new.answers ≡ [] }
        ensures path { self.new.path.items ≡ [] }
        ensures at { self.new.at ≡ 0 }
    {
        self.args = args.copied();
        self.registers = [None; 16];
        self.answers.clear();
        self.path = ArrayVec::new();
        self.at = 0;
    }

    /// Continues to the next access, or to the end or a code, and writes to `stop` which. Most statements have terms alone. From
    /// the first other one on, `advance_by_parts` continues in its place, so that this loop calls nothing.
    pub fn advance(&mut self, body: &[Statement], stop: &mut Stop)
        requires shallow { depth (block_of body.now) ≤ 16 }
        requires short { size (block_of body.now) ≤ 64 }
        requires inside { IsIn (block_of body.now) self.old }
        ensures stops { Stops (block_of body.now) self.old stop.new self.new }
        ensures in_range { StopsAtValue stop.new }
    {
        let mut list = list_at(body, self.path.as_slice());
        loop {
            let at = usize::from(self.at);
            if at < list.len() {
                match self.step_by_terms(&list[at], stop) {
                    Some(Went::Stopped) => return,
                    Some(Went::On) => {}
                    Some(Went::Inside) => list = list_at(body, self.path.as_slice()),
                    None => return self.advance_by_parts(body, stop),
                }
            } else {
                match self.path.pop() {
                    Some(turn) => {
                        self.at = turn.at + 1;
                        list = list_at(body, self.path.as_slice());
                    }
                    None => {
                        *stop = Stop::End;
                        return;
                    }
                }
            }
        }
    }

    // The same, whatever the statements evaluate.
    #[inline(never)]
    fn advance_by_parts(&mut self, body: &[Statement], stop: &mut Stop)
        requires shallow { depth (block_of body.now) ≤ 16 }
        requires short { size (block_of body.now) ≤ 64 }
        requires inside { IsIn (block_of body.now) self.old }
        ensures stops { Stops (block_of body.now) self.old stop.new self.new }
        ensures in_range { StopsAtValue stop.new }
    {
        let mut list = list_at(body, self.path.as_slice());
        loop {
            let at = usize::from(self.at);
            if at < list.len() {
                match self.step(&list[at], stop) {
                    Went::Stopped => return,
                    Went::On => {}
                    Went::Inside => list = list_at(body, self.path.as_slice()),
                }
            } else {
                match self.path.pop() {
                    Some(left) => {
                        self.at = left.at + 1;
                        list = list_at(body, self.path.as_slice());
                    }
                    None => {
                        *stop = Stop::End;
                        return;
                    }
                }
            }
        }
    }

    // Executes the statement there, unless it is an access: then it stops.
    #[inline(always)]
    fn step(&mut self, statement: &Statement, stop: &mut Stop) -> Went
        requires capacity { array_vec_len self.old.path < 16 }
        requires few { self.old.at < 64 }
        ensures steps { (b : Block) → Steps b statement.now self.old result stop.new self.new }
        ensures in_range { result ≡ Stopped → StopsAtValue stop.new }
        ensures same_list { result ≡ On → self.new.path ≡ self.old.path }
    {
        match self.step_by_terms(statement, stop) {
            Some(went) => went,
            None => self.step_by_parts(statement, stop),
        }
    }

    // The same, whatever the statement evaluates.
    #[inline(never)]
    fn step_by_parts(&mut self, statement: &Statement, stop: &mut Stop) -> Went
        requires capacity { array_vec_len self.old.path < 16 }
        requires few { self.old.at < 64 }
        ensures steps { (b : Block) → Steps b statement.now self.old result stop.new self.new }
        ensures in_range { result ≡ Stopped → StopsAtValue stop.new }
        ensures same_list { result ≡ On → self.new.path ≡ self.old.path }
    {
        match statement {
            Statement::Look {
                reg,
                table,
                id,
                absent,
            } => match self.key(*table, id) {
                Ok(key) => stop.stand(Stop::Look {
                    key,
                    reg: *reg,
                    absent: *absent,
                }),
                Err(code) => stop.stand(Stop::Asks(code)),
            },
            Statement::Find {
                reg,
                table,
                id,
                absent,
            } => match self.key_and_value(*table, id, absent) {
                Ok((key, absent)) => stop.stand(Stop::Find {
                    key,
                    reg: *reg,
                    absent,
                }),
                Err(code) => stop.stand(Stop::Asks(code)),
            },
            Statement::Put { table, id, value } => match self.key_and_value(*table, id, value) {
                Ok((key, stored)) => {
                    if !is_value(stored) {
                        return stop.stand(Stop::Asks(WRONG));
                    }
                    stop.stand(Stop::Put(key, Some(stored)))
                }
                Err(code) => stop.stand(Stop::Asks(code)),
            },
            Statement::Remove { table, id } => match self.key(*table, id) {
                Ok(key) => stop.stand(Stop::Put(key, None)),
                Err(code) => stop.stand(Stop::Asks(code)),
            },
            Statement::Let { reg, value } => match self.value(value) {
                Ok(given) => {
                    self.set(*reg, given);
                    self.at += 1;
                    Went::On
                }
                Err(code) => stop.stand(Stop::Asks(code)),
            },
            Statement::Ask { code } => stop.stand(Stop::Asks(*code)),
            Statement::If { cond, yes, no } => match test(
                cond,
                self.args.as_slice(),
                &self.registers,
            ) {
                Ok(held) => {
                    if is_branch_empty(held, yes, no) {
                        self.at += 1;
                        return Went::On;
                    }
                    self.path.push(Turn { at: self.at, held });
                    self.at = 0;
                    Went::Inside
                }
                Err(code) => stop.stand(Stop::Asks(code)),
            },
            Statement::Answer { value } => match self.value(value) {
                Ok(given) => {
                    if self.answers.len() >= usize::from(MOST_ANSWERS) {
                        return stop.stand(Stop::Asks(WRONG));
                    }
                    self.answers.push(given);
                    self.at += 1;
                    Went::On
                }
                Err(code) => stop.stand(Stop::Asks(code)),
            },
        }
    }

    // The same, if all that the statement evaluates are terms. Else it does nothing.
    #[inline(always)]
    fn step_by_terms(&mut self, statement: &Statement, stop: &mut Stop) -> Option<Went>
        requires capacity { array_vec_len self.old.path < 16 }
        requires few { self.old.at < 64 }
        ensures steps { IfSome result (λ went. (b : Block) → Steps b statement.now self.old went stop.new self.new) }
        ensures in_range { result ≡ Some Stopped → StopsAtValue stop.new }
        ensures same_list { result ≡ Some On → self.new.path ≡ self.old.path }
        ensures nothing { result ≡ None → self.new ≡ self.old }
    {
        match statement {
            Statement::Look {
                reg,
                table,
                id,
                absent,
            } => {
                let key = Key::new(*table, self.term(id)?)?;
                Some(stop.stand(Stop::Look {
                    key,
                    reg: *reg,
                    absent: *absent,
                }))
            }
            Statement::Find {
                reg,
                table,
                id,
                absent,
            } => {
                let key = Key::new(*table, self.term(id)?)?;
                let absent = self.term(absent)?;
                Some(stop.stand(Stop::Find {
                    key,
                    reg: *reg,
                    absent,
                }))
            }
            Statement::Put { table, id, value } => {
                let key = Key::new(*table, self.term(id)?)?;
                let stored = self.term(value)?;
                if !is_value(stored) {
                    return None;
                }
                Some(stop.stand(Stop::Put(key, Some(stored))))
            }
            Statement::Let { reg, value } => {
                let given = value_of_terms(value, self.args.as_slice(), &self.registers)?;
                self.set(*reg, given);
                self.at += 1;
                Some(Went::On)
            }
            Statement::If { cond, yes, no } => {
                let held = test_of_terms(cond, self.args.as_slice(), &self.registers)?;
                if is_branch_empty(held, yes, no) {
                    self.at += 1;
                    return Some(Went::On);
                }
                let turn = Turn { at: self.at, held };
                self.path.push(turn);
                self.at = 0;
                Some(Went::Inside)
            }
            Statement::Answer { value } => {
                let given = value_of_terms(value, self.args.as_slice(), &self.registers)?;
                if self.answers.len() >= usize::from(MOST_ANSWERS) {
                    return None;
                }
                self.answers.push(given);
                self.at += 1;
                Some(Went::On)
            }
            Statement::Remove { .. } | Statement::Ask { .. } => None,
        }
    }

    /// Sets a register. If there is no such register, it does nothing.
    pub fn set(&mut self, register: u8, value: i64)
        ensures { self.new ≡ with_found_in self.old register value }
    {
        let place = usize::from(register);
        if place < self.registers.len() {
            self.registers[place] = Some(value);
        }
    }

    // The key of this table's record that an expression names there, or the code raised in its place.
    #[inline(always)]
    fn key(&self, table: u8, id: &Expr) -> Result<Key, u16>
        ensures { result ≡ and_then (number_or_code (value_of (expr_text id.now) self.now.args self.now.registers))
            (λ n. key_of table n) }
    {
        key(table, self.value(id)?)
    }

    // The same key, and the value of another expression. That expression is evaluated before it is known whether
    // there is a key.
    #[inline(always)]
    fn key_and_value(&self, table: u8, id: &Expr, other: &Expr) -> Result<(Key, i64), u16>
        ensures { result ≡ in_turn (number_or_code (value_of (expr_text id.now) self.now.args self.now.registers))
            (number_or_code (value_of (expr_text other.now) self.now.args self.now.registers))
            (λ n v. and_then (key_of table n) (λ k. Ok (k, v))) }
    {
        let (id, other) = numbers(id, other, self.args.as_slice(), &self.registers)?;
        let key = key(table, id)?;
        Ok((key, other))
    }

    // The value of a term there, if it has one.
    #[inline(always)]
    fn term(&self, expr: &Expr) -> Option<i64>
        ensures { IfSome result (λ n. number_or_code (value_of (expr_text expr.now) self.now.args self.now.registers) ≡ Ok n) }
    {
        term(expr, self.args.as_slice(), &self.registers)
    }

    // The value of an expression there, or the code raised in its place.
    fn value(&self, expr: &Expr) -> Result<i64, u16>
        ensures { result ≡ number_or_code (value_of (expr_text expr.now) self.now.args self.now.registers) }
    {
        value(expr, self.args.as_slice(), &self.registers)
    }
}

/// Whether the branch that an If takes has no statements.
#[inline(always)]
fn is_branch_empty(held: bool, yes: &[Statement], no: &[Statement]) -> bool
    ensures { IsTrue result → cond held (block_of yes.now) (block_of no.now) ≡ empty }
{
    if held { yes.is_empty() } else { no.is_empty() }
}

/// The innermost list of a path; empty if the path does not follow Ifs.
fn list_at<'a>(body: &'a [Statement], path: &[Turn]) -> &'a [Statement]
    ensures { block_of result.now ≡ inner path.now (block_of body.now) }
{
    let mut list = body;
    for turn in path {
        list = branch_at(list, *turn);
    }
    list
}

/// The branch of the If at this index of a list; empty if there is no If.
fn branch_at<'a>(list: &'a [Statement], turn: Turn) -> &'a [Statement]
    ensures { block_of result.now ≡ branch turn.held (following turn.at (block_of list.now)) }
{
    let at = usize::from(turn.at);
    if at < list.len() {
        branch_of(&list[at], turn.held)
    } else {
        &[]
    }
}

/// The branch of an If; empty for any other statement.
fn branch_of<'a>(statement: &'a Statement, held: bool) -> &'a [Statement]
    ensures { (rest : Block) → block_of result.now ≡ branch held (in_front statement.now rest) }
{
    match statement {
        Statement::If { yes, no, .. } => { if held { yes.as_slice() } else { no.as_slice() } }
        Statement::Look { .. }
        | Statement::Find { .. }
        | Statement::Put { .. }
        | Statement::Remove { .. }
        | Statement::Let { .. }
        | Statement::Ask { .. }
        | Statement::Answer { .. } => &[],
    }
}
