//! The position of a procedure's first shape error, stored on the heap.
ghost use Rattle.std.specs.Prelude.{◌≡◌, IfOk};

use sgt_proc_json::Place;
use std::alloc::{AllocError, Global};
use std::fmt;
use std::marker::Model;

/// The position of a procedure's first shape error, stored on the heap. A position may have 128 numbers, and the type
/// that reports how a line ended should be small. It displays as the position does.
#[derive(Debug, Drop)]
pub struct ShapeError {
    place: Box<Place>,
}

impl Model for ShapeError {
    ghost use Rattle.std.specs.Prelude.{ℕ, List};

    ghost Value = { List ℕ };

    ghost view = { λ m. m.place.value };
}

impl ShapeError {
    /// A shape error at this position.
    ///
    /// # Errors
    ///
    /// `AllocError` if the allocation failed.
    pub(crate) fn at(alloc: Global, place: Place) -> Result<Self, AllocError>
        ensures { IfOk result (λ m. m ≡ place) }
    {
        Ok(ShapeError {
            place: Box::new(alloc, place)?,
        })
    }

    /// The position.
    pub fn place(&self) -> &Place
        ensures { result.now ≡ self.now }
    {
        &self.place
    }
}

impl fmt::Display for ShapeError {
    fn fmt<W: fmt::Write>(&self, f: &mut fmt::Formatter<W>) -> fmt::Result {
        self.place.fmt(f)
    }
}
