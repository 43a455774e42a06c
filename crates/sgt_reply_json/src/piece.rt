//! Texts made of pieces.
ghost use Rattle.std.specs.Prelude.{◌≡◌, ◌++◌, OnOk};
ghost use Rattle.std.specs.List.{flat_map};
ghost use Rattle.sgt_reply_json.specs.Pieces.{piece_text};

use crate::list::append_list;
use crate::number::append_number;
use sgt_model::Tid;
use std::alloc::AllocError;

/// A piece of a text.
#[derive(Clone, Copy)]
pub enum Piece<'a> {
    /// These words.
    Words(&'a [u8]),
    /// The number.
    Number(u64),
    /// The value.
    Value(i64),
    /// The list of these transactions.
    Transactions(&'a [Tid]),
    /// The list of these values.
    Values(&'a [i64]),
}

/// Appends the pieces in order.
///
/// # Errors
///
/// `AllocError` if an allocation failed. A part of the pieces may have been appended then.
pub fn append_pieces(text: &mut Vec<u8>, pieces: &[Piece<'_>]) -> Result<(), AllocError>
    ensures { OnOk result (text.new.items ≡ text.old.items ++ flat_map piece_text pieces.now) }
{
    for piece in pieces {
        append_piece(text, piece)?;
    }
    Ok(())
}

/// Appends the piece.
fn append_piece(text: &mut Vec<u8>, piece: &Piece<'_>) -> Result<(), AllocError>
    ensures { OnOk result (text.new.items ≡ text.old.items ++ piece_text piece.now) }
{
    match piece {
        Piece::Words(words) => text.extend_from_slice(words),
        Piece::Number(number) => append_number(text, *number),
        Piece::Value(value) => append_number(text, *value),
        Piece::Transactions(list) => append_list(text, list),
        Piece::Values(list) => append_list(text, list),
    }
}
