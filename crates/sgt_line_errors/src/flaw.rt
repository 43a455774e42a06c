//! The flaws of a procedure in words.
use crate::message::Message;
use crate::typed::Typed;
use serde_json::Value;
use sgt_model::{LAST_TABLE, NoMemory};
use sgt_proc::{
    DEEPEST, Flaw, FlawPlace, LAST_CODE, LAST_REGISTER, MOST_ANSWERS, MOST_ARGUMENTS,
    MOST_STATEMENTS, check,
};
use sgt_proc_json::{ReadError, read};

/// The least flaw of a procedure in words, as `code 1000 is not from 1 to 999`. Its first position is appended to
/// `position`.
pub(crate) fn flaw_fault(typed: Typed<'_>, tree: &Value, position: &mut Vec<u64>) -> Message {
    let procedure = match read(typed.alloc, tree) {
        Ok(procedure) => procedure,
        Err(ReadError::Shape(_)) => return Ok(None),
        Err(ReadError::NoMemory) => return Err(NoMemory),
    };
    let Err(flawed) = check(procedure) else {
        return Ok(None);
    };
    let Some(FlawPlace { place, number }) = flawed.place(typed.alloc)? else {
        return Ok(None);
    };
    position.extend_from_slice(place.as_slice())?;
    Ok(Some(words_of(typed, flawed.flaw, number, flawed.procedure.args)?))
}

// What is wrong with this number, in a procedure that takes this many arguments.
fn words_of(typed: Typed<'_>, flaw: Flaw, number: i64, arguments: u8) -> Result<String, NoMemory> {
    let words = match flaw {
        Flaw::HighRegister => format!(in typed.alloc; "register {number} is over {LAST_REGISTER}"),
        Flaw::UnsetRegister => format!(in typed.alloc;
            "register {number} is not set on every path that leads here"
        ),
        Flaw::NoArgument => format!(in typed.alloc;
            "argument {number} is not below {arguments}, the number of arguments"
        ),
        Flaw::HighTable => format!(in typed.alloc; "table {number} is over {LAST_TABLE}"),
        Flaw::TooLong => format!(in typed.alloc;
            "this is statement {number}, and at most {MOST_STATEMENTS} may be"
        ),
        Flaw::TooDeep => format!(in typed.alloc;
            "this is {number} deep, and at most {DEEPEST} may be"
        ),
        Flaw::ManyAnswers => format!(in typed.alloc;
            "a path has answer {number} here, and at most {MOST_ANSWERS} may be"
        ),
        Flaw::BadCode => format!(in typed.alloc; "code {number} is not from 1 to {LAST_CODE}"),
        Flaw::ManyArguments => format!(in typed.alloc;
            "{number} arguments are taken, and at most {MOST_ARGUMENTS} may be"
        ),
        Flaw::BadLiteral => format!(in typed.alloc; "{number} has more than fifteen digits"),
    };
    Ok(words?)
}
