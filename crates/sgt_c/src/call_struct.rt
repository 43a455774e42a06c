//! The struct of a call for C: what ran, and its result.
ghost use Rattle.std.specs.Prelude.{◌≡◌, ◌≤◌, length};
ghost use Rattle.sgt_model.specs.Questions.{called};
ghost use Rattle.sgt_model.specs.Replay.{GaveAnswers, RaisedCode};
ghost use Rattle.sgt_c.specs.ManyRuns.{IsStartable};
ghost use Rattle.sgt_c.specs.ReplayedCalls.{bare_call, ends_in, result_in};

use crate::event_struct::write_args;
use crate::reply_struct::write_answers;
use sgt_model::{Call, Tid};

/// A call of a committed or refused transaction, with its result, for C.
#[repr(C)]
#[derive(Clone, Copy)]
pub struct SgtCall {
    /// The kind of the reply: 13 with answers, or 15 with a code.
    pub kind: u32,
    pub tid: u32,
    pub procedure: u32,
    pub code: u32,
    /// How many items `arg` and `answer` have.
    pub args: u32,
    pub answers: u32,
    pub arg: [i64; 4],
    pub answer: [i64; 8],
    /// How many accesses its caller decided on.
    pub accesses: u64,
}

impl SgtCall {
    /// The call of a transaction that was committed with these answers.
    pub fn committed(t: Tid, started: &Call, accesses: usize, answers: &[i64]) -> SgtCall
        requires { length answers.now ≤ 8 }
        ensures startable { IsStartable result }
        ensures ends { ends_in result ≡ (t, 13) }
        ensures call { bare_call result ≡ called started.now }
        ensures accesses { result.accesses ≡ accesses }
        ensures reported { result_in result ≡ GaveAnswers answers.now }
    {
        let mut call = SgtCall::without_result(13, t, started, accesses);
        call.answers = write_answers(&mut call.answer, answers);
        call
    }

    /// The call of a transaction that was refused with this code.
    pub fn refused(t: Tid, started: &Call, accesses: usize, code: u16) -> SgtCall
        ensures startable { IsStartable result }
        ensures ends { ends_in result ≡ (t, 15) }
        ensures call { bare_call result ≡ called started.now }
        ensures accesses { result.accesses ≡ accesses }
        ensures reported { result_in result ≡ RaisedCode code }
    {
        let mut call = SgtCall::without_result(15, t, started, accesses);
        call.code = u32::from(code);
        call
    }

    fn without_result(kind: u32, t: Tid, started: &Call, accesses: usize) -> SgtCall
        ensures startable { IsStartable result }
        ensures ends { ends_in result ≡ (t, kind) }
        ensures call { bare_call result ≡ called started.now }
        ensures accesses { result.accesses ≡ accesses }
    {
        let mut call = SgtCall {
            kind,
            tid: t.0,
            procedure: u32::from(started.procedure),
            code: 0,
            args: 0,
            answers: 0,
            arg: [0; 4],
            answer: [0; 8],
            accesses: accesses as u64,
        };
        call.args = write_args(&mut call.arg, &started.args);
        call
    }
}
