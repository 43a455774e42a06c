//! The number of statements of a procedure.
ghost use Rattle.std.specs.Prelude.{◌≡◌, min};
ghost use Rattle.sgt_model.specs.Syntax.{empty};
ghost use Rattle.sgt_model.specs.ProcedureTexts.{in_front, block_of};
ghost use Rattle.sgt_proc.specs.Flaws.{size};

use sgt_model::Statement;

/// The maximum number of statements of a procedure.
pub const MOST_STATEMENTS: u8 = 64;

/// The number of statements; 65 stands for more than 64.
#[cycle(size)]
pub fn size(statements: &[Statement]) -> u8
    ensures { result ≡ min 65 (size (block_of statements.now)) }
{
    let mut total = 0;
    for statement in statements {
        total = (total + size_of(statement)).min(MOST_STATEMENTS + 1);
    }
    total
}

#[cycle(size)]
fn size_of(statement: &Statement) -> u8
    ensures { result ≡ min 65 (size (in_front statement.now empty)) }
{
    match statement {
        Statement::If { yes, no, .. } => (1 + size(yes) + size(no)).min(MOST_STATEMENTS + 1),
        Statement::Look { .. }
        | Statement::Find { .. }
        | Statement::Put { .. }
        | Statement::Remove { .. }
        | Statement::Let { .. }
        | Statement::Ask { .. }
        | Statement::Answer { .. } => 1,
    }
}
