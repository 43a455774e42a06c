//! The layout of a picture: where each row, mark and line stands.
ghost use Rattle.std.specs.Prelude.{◌≡◌, ◌<◌, ◌∷◌, [], ◌++◌, length, min, IfOk, OnOk, IfSome};
ghost use Rattle.sgt_timeline.specs.Drawn.{IsDrawnFrom, IsDrawnUpTo, AreDrawn, marked};

use crate::drawn::{Drawn, MOST, Pairs};
use crate::legend::legend_parts;
use crate::lines::lines_between;
use crate::notes::notes_below;
use crate::picture::{Highlight, LineKind, Mark, Picture, Row};
use sgt_classes::{Action, Operation};
use sgt_model::NoMemory;
use sgt_notation::History;
use std::alloc::Global;

/// The height of a row.
const ROW: usize = 92;

/// The upper edge of the boxes of the first row.
const TOP: usize = 40;

/// The least width of a picture.
const LEAST_WIDTH: usize = 760;

/// The width of a letter.
const LETTER: usize = 8;

/// Lays out the picture of a history: of one of up to 400 operations whole, of a longer one the transactions of what stands out, or
/// its first operations where nothing does. The caption stands below it, with what was left out.
///
/// It costs a pass over the history for each read that is drawn.
///
/// # Errors
///
/// `NoMemory` if a growth failed.
pub fn draw(
    alloc: Global,
    history: &History,
    highlight: Highlight<'_>,
    caption: &[u8],
) -> Result<Picture, NoMemory>
    ensures { IfOk result (IsDrawnFrom history.now.operations.items) }
{
    draw_up_to(alloc, history, highlight, caption, MOST)
}

/// The same. A history of up to `whole` operations is drawn whole, and at most 400 are drawn.
///
/// # Errors
///
/// `NoMemory` if an allocation failed.
pub fn draw_up_to(
    alloc: Global,
    history: &History,
    highlight: Highlight<'_>,
    caption: &[u8],
    whole: usize,
) -> Result<Picture, NoMemory>
    ensures { IfOk result (IsDrawnUpTo (min whole 400) history.now.operations.items) }
{
    let operations = history.operations.as_slice();
    let pairs = Pairs::of(alloc, highlight)?;
    let drawn = Drawn::of(alloc, operations, &pairs, whole.min(MOST))?;
    let layout = Layout::of(alloc, history, drawn.places.as_slice(), &pairs)?;
    let lines = lines_between(alloc, operations, layout.marks.as_slice(), &pairs)?;
    let parts = legend_parts(alloc, operations, layout.marks.as_slice(), lines.as_slice())?;
    let legend = layout.rows.len().saturating_mul(ROW).saturating_add(8);
    let notes = notes_below(
        alloc,
        caption,
        &drawn,
        operations.len(),
        legend.saturating_add(82),
    )?;
    let below = notes.len().saturating_mul(19);
    Ok(Picture {
        operations: operations.len(),
        width: layout.right.saturating_add(8).max(LEAST_WIDTH),
        height: legend.saturating_add(76).saturating_add(below),
        rows: layout.rows,
        lines,
        marks: layout.marks,
        legend,
        parts,
        notes,
    })
}

/// Rows and marks, as far as they are laid out.
#[derive(Drop)]
pub(crate) struct Layout {
    pub rows: Vec<Row>,
    pub marks: Vec<Mark>,
    /// Where the next mark may begin.
    pub right: usize,
}

impl Layout {
    /// A mark for each of the places, and the rows that they need.
    fn of(
        alloc: Global,
        history: &History,
        places: &[usize],
        pairs: &Pairs,
    ) -> Result<Self, NoMemory>
        ensures { IfOk result (λ layout. marked layout.marks.items ≡ places.now) }
    {
        let mut layout = Layout {
            rows: Vec::new(alloc),
            marks: Vec::new(alloc),
            right: margin(history.operations.as_slice(), places),
        };
        for place in places {
            layout.add(history, *place, pairs.ends_at(*place))?;
        }
        Ok(layout)
    }

    /// Adds the mark of the operation at the place.
    fn add(
        &mut self,
        history: &History,
        place: usize,
        ends: Option<LineKind>,
    ) -> Result<(), NoMemory>
        ensures { OnOk result (marked self.new.marks.items ≡ marked self.old.marks.items ++ place ∷ []) }
    {
        let width = width_of(history, place);
        let left = self.right;
        let middle = left.saturating_add(width / 2);
        let top = match history.operations.get(place) {
            Some(operation) => self.row_top(operation.transaction, middle)?,
            None => TOP,
        };
        self.marks.push(Mark {
            place,
            ends,
            left,
            middle,
            width,
            top,
            base: top.saturating_add(18),
        })?;
        self.right = left.saturating_add(width).saturating_add(16);
        Ok(())
    }

    /// The upper edge of the transaction's row, which now reaches to a mark with this middle.
    fn row_top(&mut self, transaction: u32, middle: usize) -> Result<usize, NoMemory>
        ensures { self.new.marks ≡ self.old.marks }
    {
        if let Some(at) = row_of(self.rows.as_slice(), transaction) {
            self.rows[at].last = middle;
            return Ok(self.rows[at].y.saturating_sub(13));
        }
        let top = self.rows.len().saturating_mul(ROW).saturating_add(TOP);
        self.rows.push(Row {
            transaction,
            y: top.saturating_add(13),
            base: top.saturating_add(18),
            first: middle,
            last: middle,
        })?;
        Ok(top)
    }
}

/// The row of the transaction, if it has one.
fn row_of(rows: &[Row], transaction: u32) -> Option<usize>
    ensures { IfSome result (λ at. at < length rows.now) }
{
    rows.iter().position(|row| row.transaction == transaction)
}

/// The width that the numbers of the transactions take on the left.
fn margin(history: &[Operation], places: &[usize]) -> usize {
    let mut operations = places.iter().filter_map(|place| history.get(*place));
    if operations.any(|operation| operation.transaction > 999) {
        116
    } else {
        60
    }
}

/// The width of the box of the operation at the place.
fn width_of(history: &History, place: usize) -> usize {
    let letters = match history.operations.get(place) {
        Some(operation) => letters(history, operation.action),
        None => 0,
    };
    letters.saturating_mul(LETTER).saturating_add(12).max(30)
}

/// How many letters the operation has in its box.
fn letters(history: &History, action: Action) -> usize {
    match action {
        Action::Read(item) | Action::Write(item) => match history.items.get(item as usize) {
            Some(name) => name.len().saturating_add(3),
            None => 3,
        },
        Action::Commit | Action::Abort => 1,
    }
}
