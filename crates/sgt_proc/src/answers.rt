//! How many answers a procedure can give.
ghost use Rattle.sgt_model.specs.Syntax.{empty};
ghost use Rattle.sgt_model.specs.ProcedureTexts.{in_front, block_of};
ghost use Rattle.sgt_proc.specs.Dataflow.{AnswersFrom};

use sgt_model::Statement;

/// The maximum number of answers of a procedure.
pub const MOST_ANSWERS: u8 = 8;

/// The most answers on one path, if each path after the statements has `following` answers. 9 stands for more than 8.
#[cycle(answers)]
pub fn most_answers(statements: &[Statement], following: u8) -> u8
    ensures { AnswersFrom (block_of statements.now) following result }
{
    let mut most = following;
    let mut ahead = statements.len();
    while ahead > 0 {
        ahead -= 1;
        most = most_answers_from(&statements[ahead], most);
    }
    most
}

#[cycle(answers)]
fn most_answers_from(statement: &Statement, following: u8) -> u8
    ensures { AnswersFrom (in_front statement.now empty) following result }
{
    match statement {
        Statement::Answer { .. } => following.min(MOST_ANSWERS) + 1,
        Statement::Ask { .. } => 0,
        Statement::If { yes, no, .. } => most_answers(yes, following).max(most_answers(
            no, following,
        )),
        Statement::Look { .. }
        | Statement::Find { .. }
        | Statement::Put { .. }
        | Statement::Remove { .. }
        | Statement::Let { .. } => following,
    }
}
