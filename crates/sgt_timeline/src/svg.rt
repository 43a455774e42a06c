//! The text of a picture, as SVG 1.1.
ghost use Rattle.std.specs.Prelude.{◌≡◌, ◌++◌, OnOk};
ghost use Rattle.std.specs.List.{flat_map};
ghost use Rattle.sgt_notation.specs.Readings.{texts};
ghost use Rattle.sgt_notation.specs.Spellings.{text_at};
ghost use Rattle.sgt_timeline.specs.PictureText.{title_text, description_text, paper_text, row_text, line_text, mark_head, box_text, item_text, label_text, operation_mark, mark_text, legend_start, part_text, legend_text, note_text, picture_text, letter_text, class_text, ends_text, kind_text};

use crate::escape::append_escaped;
use crate::picture::{Line, LineKind, Mark, Note, Part, Picture, Row};
use crate::style::{
    ABORTS, COMMITS, CYCLE, READS, READS_FROM, READS_FROM_ABORTED, STYLE, VIOLATION, WRITES,
};
use sgt_classes::{Action, Operation};
use sgt_format::{append_filled, append_number};
use sgt_model::NoMemory;
use sgt_notation::History;

/// Adds the picture as SVG 1.1: the rows, the lines, the marks above them, the legend, and the words below.
///
/// # Errors
///
/// `NoMemory` if a growth failed. A part of the text may have been added then.
pub fn append_picture(
    text: &mut Vec<u8>,
    history: &History,
    picture: &Picture,
) -> Result<(), NoMemory>
    ensures { OnOk result (text.new.items ≡ text.old.items ++ picture_text history.now picture.now) }
{
    append_title(text, picture)?;
    append_description(text, picture.notes.as_slice())?;
    append_paper(text, picture)?;
    append_rows(text, picture.rows.as_slice(), picture.width)?;
    append_lines(text, picture.lines.as_slice())?;
    append_marks(text, history, picture.marks.as_slice())?;
    append_legend(text, picture)?;
    append_notes(text, picture.notes.as_slice())?;
    text.extend_from_slice(b"</svg>\n")?;
    Ok(())
}

/// Adds the size and the title.
#[tactic(auto, unfolding(crate::specs::PictureText::title_text))]
fn append_title(text: &mut Vec<u8>, picture: &Picture) -> Result<(), NoMemory>
    ensures { OnOk result (text.new.items ≡ text.old.items ++ title_text picture.now) }
{
    append_filled(
        text,
        b"<svg xmlns=\"http://www.w3.org/2000/svg\" version=\"1.1\" role=\"img\" width=\"#\" height=\"#\" viewBox=\"0 0 # #\">\n",
        &[picture.width, picture.height, picture.width, picture.height],
    )?;
    append_filled(
        text,
        b"<title>A history of # operations</title>\n<desc>",
        &[picture.operations],
    )
}

/// Adds the words of the description.
#[tactic(auto, unfolding(crate::specs::PictureText::description_text))]
fn append_description(text: &mut Vec<u8>, notes: &[Note]) -> Result<(), NoMemory>
    ensures { OnOk result (text.new.items ≡ text.old.items ++ flat_map description_text notes.now) }
{
    for note in notes {
        append_escaped(text, note.words.as_slice())?;
        text.extend_from_slice(b"\n")?;
    }
    Ok(())
}

/// Adds the style and the paper.
#[tactic(auto, unfolding(crate::specs::PictureText::paper_text))]
fn append_paper(text: &mut Vec<u8>, picture: &Picture) -> Result<(), NoMemory>
    ensures { OnOk result (text.new.items ≡ text.old.items ++ paper_text picture.now) }
{
    text.extend_from_slice(b"</desc>\n")?;
    text.extend_from_slice(STYLE)?;
    append_filled(
        text,
        b"<rect class=\"paper\" width=\"#\" height=\"#\"/>\n",
        &[picture.width, picture.height],
    )
}

/// Adds the rows, in a picture of this width.
fn append_rows(text: &mut Vec<u8>, rows: &[Row], width: usize) -> Result<(), NoMemory>
    ensures { OnOk result (text.new.items ≡ text.old.items ++ flat_map (row_text width) rows.now) }
{
    for row in rows {
        append_row(text, row, width)?;
    }
    Ok(())
}

/// Adds a row: the transaction, a guide across the picture, and the span from the first operation to the last.
#[tactic(auto, unfolding(crate::specs::PictureText::row_text))]
fn append_row(text: &mut Vec<u8>, row: &Row, width: usize) -> Result<(), NoMemory>
    ensures { OnOk result (text.new.items ≡ text.old.items ++ row_text width row.now) }
{
    append_filled(
        text,
        b"<text class=\"name\" x=\"12\" y=\"#\">T<tspan class=\"sub\" dy=\"3\">#</tspan></text>",
        &[row.base, row.transaction as usize],
    )?;
    append_filled(
        text,
        b"<path class=\"guide\" d=\"M#,# H#\"/><path class=\"span\" d=\"M#,# H#\"/>\n",
        &[row.first, row.y, width, row.first, row.y, row.last],
    )
}

/// Adds the lines.
fn append_lines(text: &mut Vec<u8>, lines: &[Line]) -> Result<(), NoMemory>
    ensures { OnOk result (text.new.items ≡ text.old.items ++ flat_map line_text lines.now) }
{
    for line in lines {
        append_line(text, line)?;
    }
    Ok(())
}

/// Adds a line.
#[tactic(auto, unfolding(crate::specs::PictureText::line_text))]
fn append_line(text: &mut Vec<u8>, line: &Line) -> Result<(), NoMemory>
    ensures { OnOk result (text.new.items ≡ text.old.items ++ line_text line.now) }
{
    text.extend_from_slice(b"<polyline class=\"")?;
    text.extend_from_slice(kind_name(line.kind))?;
    append_filled(
        text,
        b"\" points=\"#,# #,# #,# #,#\"/>\n",
        &[
            line.from_x,
            line.from_y,
            line.from_x,
            line.lane,
            line.to_x,
            line.lane,
            line.to_x,
            line.to_y,
        ],
    )
}

/// Adds the marks.
fn append_marks(text: &mut Vec<u8>, history: &History, marks: &[Mark]) -> Result<(), NoMemory>
    ensures { OnOk result (text.new.items ≡ text.old.items ++ flat_map (mark_text history.now) marks.now) }
{
    for mark in marks {
        append_mark(text, history, mark)?;
    }
    Ok(())
}

/// Adds a mark: its place above the rows, and a box with the operation. The operation in full is its title.
fn append_mark(text: &mut Vec<u8>, history: &History, mark: &Mark) -> Result<(), NoMemory>
    ensures { OnOk result (text.new.items ≡ text.old.items ++ mark_text history.now mark.now) }
{
    let Some(operation) = history.operations.get(mark.place) else {
        return Ok(());
    };
    append_operation_mark(text, history, mark, mark.place + 1, operation)
}

/// Adds the mark of this operation, the one of this number.
#[tactic(auto, unfolding(crate::specs::PictureText::operation_mark))]
fn append_operation_mark(
    text: &mut Vec<u8>,
    history: &History,
    mark: &Mark,
    number: usize,
    operation: &Operation,
) -> Result<(), NoMemory>
    ensures { OnOk result (text.new.items ≡ text.old.items ++ operation_mark history.now mark.now number operation.now) }
{
    append_mark_head(text, mark, operation)?;
    append_label(text, history, operation.action)?;
    append_box(text, mark, number)?;
    text.extend_from_slice(letter(operation.action))?;
    append_label(text, history, operation.action)?;
    text.extend_from_slice(b"</text></g>\n")?;
    Ok(())
}

/// Adds the beginning of a mark: its class, and the letter and the transaction of its operation.
#[tactic(auto, unfolding(crate::specs::PictureText::mark_head))]
fn append_mark_head(text: &mut Vec<u8>, mark: &Mark, operation: &Operation) -> Result<(), NoMemory>
    ensures { OnOk result (text.new.items ≡ text.old.items ++ mark_head mark.now operation.now) }
{
    text.extend_from_slice(b"<g class=\"")?;
    text.extend_from_slice(class_name(operation.action))?;
    text.extend_from_slice(ends_name(mark.ends))?;
    text.extend_from_slice(b"\"><title>")?;
    text.extend_from_slice(letter(operation.action))?;
    append_number(text, operation.transaction)?;
    Ok(())
}

/// Adds the number of a mark, and its box.
#[tactic(auto, unfolding(crate::specs::PictureText::box_text))]
fn append_box(text: &mut Vec<u8>, mark: &Mark, number: usize) -> Result<(), NoMemory>
    ensures { OnOk result (text.new.items ≡ text.old.items ++ box_text mark.now number) }
{
    append_filled(
        text,
        b"</title><text class=\"place\" x=\"#\" y=\"22\">#</text><rect x=\"#\" y=\"#\" width=\"#\" height=\"26\" rx=\"5\"/>",
        &[mark.middle, number, mark.left, mark.top, mark.width],
    )?;
    append_filled(text, b"<text x=\"#\" y=\"#\">", &[mark.middle, mark.base])
}

/// Adds the item of a read or a write in brackets.
fn append_label(text: &mut Vec<u8>, history: &History, action: Action) -> Result<(), NoMemory>
    ensures { OnOk result (text.new.items ≡ text.old.items ++ label_text history.now action) }
{
    match action {
        Action::Read(item) | Action::Write(item) => append_item(text, history, item),
        Action::Commit | Action::Abort => Ok(()),
    }
}

/// Adds the item in brackets.
#[tactic(auto, unfolding(crate::specs::PictureText::item_text))]
fn append_item(text: &mut Vec<u8>, history: &History, item: u32) -> Result<(), NoMemory>
    ensures { OnOk result (text.new.items ≡ text.old.items ++ item_text history.now item) }
{
    text.extend_from_slice(b"[")?;
    append_escaped(text, name_of(history, item))?;
    text.extend_from_slice(b"]")?;
    Ok(())
}

/// The text of the item.
fn name_of<'a>(history: &'a History, item: u32) -> &'a [u8]
    ensures { result.now ≡ text_at (texts history.now) item }
{
    match history.items.get(item as usize) {
        Some(name) => name.as_slice(),
        None => b"",
    }
}

/// Adds the legend.
fn append_legend(text: &mut Vec<u8>, picture: &Picture) -> Result<(), NoMemory>
    ensures { OnOk result (text.new.items ≡ text.old.items ++ legend_text picture.now) }
{
    append_legend_start(text, picture.legend)?;
    append_parts(text, picture.parts.as_slice())?;
    text.extend_from_slice(b"</g>\n")?;
    Ok(())
}

/// Adds the start of the legend, which stands here.
#[tactic(auto, unfolding(crate::specs::PictureText::legend_start))]
fn append_legend_start(text: &mut Vec<u8>, legend: usize) -> Result<(), NoMemory>
    ensures { OnOk result (text.new.items ≡ text.old.items ++ legend_start legend) }
{
    append_filled(text, b"<g transform=\"translate(12,#)\">\n", &[legend])
}

/// Adds the parts of the legend.
fn append_parts(text: &mut Vec<u8>, parts: &[Part]) -> Result<(), NoMemory>
    ensures { OnOk result (text.new.items ≡ text.old.items ++ flat_map part_text parts.now) }
{
    for part in parts {
        text.extend_from_slice(part_words(*part))?;
    }
    Ok(())
}

/// The text of a part of the legend.
fn part_words(part: Part) -> &'static [u8]
    ensures { result.now ≡ part_text part }
{
    match part {
        Part::Reads => READS,
        Part::Writes => WRITES,
        Part::Commits => COMMITS,
        Part::Aborts => ABORTS,
        Part::ReadsFrom => READS_FROM,
        Part::ReadsFromAborted => READS_FROM_ABORTED,
        Part::Cycle => CYCLE,
        Part::Violation => VIOLATION,
    }
}

/// Adds the words below the picture.
fn append_notes(text: &mut Vec<u8>, notes: &[Note]) -> Result<(), NoMemory>
    ensures { OnOk result (text.new.items ≡ text.old.items ++ flat_map note_text notes.now) }
{
    for note in notes {
        append_note(text, note)?;
    }
    Ok(())
}

/// Adds a line of words.
#[tactic(auto, unfolding(crate::specs::PictureText::note_text))]
fn append_note(text: &mut Vec<u8>, note: &Note) -> Result<(), NoMemory>
    ensures { OnOk result (text.new.items ≡ text.old.items ++ note_text note.now) }
{
    append_filled(text, b"<text x=\"12\" y=\"#\">", &[note.base])?;
    append_escaped(text, note.words.as_slice())?;
    text.extend_from_slice(b"</text>\n")?;
    Ok(())
}

/// The class of a line.
fn kind_name(kind: LineKind) -> &'static [u8]
    ensures { result.now ≡ kind_text kind }
{
    match kind {
        LineKind::ReadsFrom => b"reads",
        LineKind::ReadsFromAborted => b"undone",
        LineKind::Cycle => b"cycle",
        LineKind::Violation => b"violation",
    }
}

/// The class of a mark that stands out, after its own.
fn ends_name(ends: Option<LineKind>) -> &'static [u8]
    ensures { result.now ≡ ends_text ends }
{
    match ends {
        Some(LineKind::Cycle) => b" in-cycle",
        Some(LineKind::Violation) => b" in-violation",
        _ => b"",
    }
}

/// The class of a mark.
fn class_name(action: Action) -> &'static [u8]
    ensures { result.now ≡ class_text action }
{
    match action {
        Action::Read(_) => b"read",
        Action::Write(_) => b"write",
        Action::Commit => b"commit",
        Action::Abort => b"abort",
    }
}

/// The letter of an operation.
fn letter(action: Action) -> &'static [u8]
    ensures { result.now ≡ letter_text action }
{
    match action {
        Action::Read(_) => b"r",
        Action::Write(_) => b"w",
        Action::Commit => b"c",
        Action::Abort => b"a",
    }
}
