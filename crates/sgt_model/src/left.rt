//! Laws of the remainder of a procedure. The function bodies are empty: each law is its function's contract.
ghost use Rattle.sgt_model.specs.Left.{LeftAfterLook, LeftAfterStore, NextIsOfLeft};

/// What a procedure does next is a function of its remainder.
pub fn next_is_of_left()
    ensures { NextIsOfLeft }
{}

/// The remainder after one more access is a function of the remainder before it and, after a read, of the value that
/// was read.
pub fn left_goes_on()
    ensures look { LeftAfterLook }
    ensures store { LeftAfterStore }
{}
