//! Draws records piece by piece.

ghost use Rattle.std.specs.Prelude.{◌≡◌, ◌==◌, ◌<◌, ◌≤◌, ◌+◌, ◌++◌, ◌^◌, [], IfNone, IfOk, IfSome, None, OnErr, OnOk, Ok, Some, false, length, map, string_bytes, true};
ghost use Rattle.std.specs.List.{All};
ghost use Rattle.comfy_parts.specs.CellValue.{IsRow};
ghost use Rattle.comfy_table.specs.Drawing.{part_of_drawing, terminated_text_of};
ghost use Rattle.comfy_table.specs.RowCells.{cell_of};
ghost use Rattle.csv_tables.specs.Contents.{drawn_next, expanded_from, fields_text, pairs_by, rows_from};
ghost use Rattle.csv_tables.specs.LazyRows.{AreNamed};
ghost use Rattle.csv_tables.specs.Pieces.{rest_of};
ghost use Rattle.comfy_parts.specs.TextPieces.{text_left};

use crate::expanded::push_record_line;
use crate::lazy_table::LazyTable;
use crate::rows::RecordRows;
use comfy_parts::pieces::Pieces;
use comfy_table::for_records::RowCell;
use comfy_table::{ArrangedTable, PartEnds, Result, RowWriter};
use csv_records::{Record, Rows};
use std::alloc::{AllocError, Global};
use std::marker::Model;
use std::mem;

// The greatest number of records in a piece of a drawing.
const RECORDS: usize = 256;

// The number of bytes that a piece has room for at first.
const ROOM: usize = 32768;

/// A drawing of records, whose text is made piece by piece. Each call of `next_piece` (trait
/// `Pieces`) returns the next piece of the text, and `None` after the last piece. The drawing needs
/// memory for the cells of few records at a time.
#[derive(Drop)]
pub struct RecordDrawing {
    // the next piece, which is made before the caller wants it: memory runs out only before a piece
    ready: Option<String>,
    // the rest of the drawing after it
    rest: Option<Remaining>,
}

impl Model for RecordDrawing {
    ghost use Rattle.std.specs.Prelude.{◌≡◌, ◌<◌, ◌≤◌, ◌++◌, [], ℕ, List, IfNone, IfSome, length, string_bytes};
    ghost use Rattle.csv_tables.specs.Pieces.{rest_of};
    ghost use Rattle.comfy_parts.specs.TextPieces.{text_left};

    ghost Value = { List ℕ };

    ghost invariant = { λ d. IfNone d.ready (rest_of d.rest ≡ [])
        × IfSome d.ready (λ piece. 0 < length (string_bytes piece))
        × IfSome d.rest (λ left. left.place ≤ length left.arranged.contents.rows.selected.rows) };

    ghost view = { λ d. text_left d.ready ++ rest_of d.rest };
}

impl RecordDrawing {
    /// A drawing without any text.
    pub fn nothing() -> RecordDrawing
        ensures { result ≡ [] }
    {
        RecordDrawing {
            ready: None,
            rest: None,
        }
    }

    /// A drawing that begins with the text `beginning`. All records of `left` and its note come
    /// after this text. The only error is `OutOfMemory`.
    pub(crate) fn of_records(beginning: String, left: Remaining) -> Result<RecordDrawing>
        requires { left.place ≡ 0 }
        ensures { IfOk result (λ drawn. drawn
            ≡ string_bytes beginning ++ rest_of (Some left)) }
    {
        if beginning.is_empty() {
            let (ready, rest) = piece_of(Some(left))?;
            return Ok(RecordDrawing { ready, rest });
        }
        Ok(RecordDrawing {
            ready: Some(beginning),
            rest: Some(left),
        })
    }
}

impl Pieces for RecordDrawing {
    ghost rest = { λ drawn. drawn };

    ghost is_whole = { false };

    fn next_piece(&mut self) -> Result<Option<String>, AllocError> {
        if self.ready.is_none() {
            return Ok(None);
        }
        let Ok((next, rest)) = piece_of(mem::replace(&mut self.rest, None)) else {
            self.ready = None;
            return Err(AllocError);
        };
        self.rest = rest;
        Ok(mem::replace(&mut self.ready, next))
    }
}

/// The part of a drawing that isn't made yet: records, and the note that is written after them.
#[derive(Drop)]
pub(crate) struct Remaining {
    pub arranged: ArrangedTable<LazyTable>,
    // the place of the record that is drawn next, counted from 0
    pub place: usize,
    // true if the lines above the rows, such as the header, are drawn before this record
    pub is_first: bool,
    pub note: String,
}

// The next piece of a drawing, and the rest after it.
fn piece_of(rest: Option<Remaining>) -> Result<(Option<String>, Option<Remaining>)>
    requires { IfSome rest (λ left.
        left.place ≤ length left.arranged.contents.rows.selected.rows) }
    ensures all { IfOk result (λ x. rest_of rest ≡ text_left x.0 ++ rest_of x.1) }
    ensures none { IfOk result (λ x. IfNone x.0 (rest_of x.1 ≡ [])) }
    ensures some { IfOk result (λ x. IfSome x.0 (λ piece. 0 < length (string_bytes piece))) }
    ensures place { IfOk result (λ x. IfSome x.1 (λ left.
        left.place ≤ length left.arranged.contents.rows.selected.rows)) }
{
    let mut left = rest;
    while let Some(drawing) = left {
        let mut text = String::with_capacity(*drawing.note.allocator(), ROOM)?;
        left = push_next(drawing, &mut text)?;
        if !text.is_empty() {
            return Ok((Some(text), left));
        }
    }
    Ok((None, None))
}

// Appends the lines of the next records, and the note after the last record. Returns the rest of
// the drawing, or `None` after the last record.
fn push_next(left: Remaining, text: &mut String) -> Result<Option<Remaining>>
    requires { left.place ≤ length left.arranged.contents.rows.selected.rows }
    ensures text { IfOk result (λ rest. string_bytes text.old ++ rest_of (Some left)
        ≡ string_bytes text.new ++ rest_of rest) }
    ensures place { IfOk result (λ rest. IfSome rest (λ more. (left.place < more.place)
        × (more.place ≤ length more.arranged.contents.rows.selected.rows)
        × (length more.arranged.contents.rows.selected.rows
        ≡ length left.arranged.contents.rows.selected.rows))) }
{
    let Remaining {
        arranged,
        place,
        is_first,
        note,
    } = left;
    let rows = arranged.contents().rows.selected.rows().rows_after(place);
    let next = rows.first_rows(RECORDS);
    let count = next.len();
    let is_last = count == rows.len();
    let extent = PartEnds { is_first, is_last };
    push_records(text, &arranged, place, &next, extent)?;
    if is_last {
        text.push_str(note.as_str())?;
        return Ok(None);
    }
    Ok(Some(Remaining {
        arranged,
        place: place + count,
        is_first: false,
        note,
    }))
}

/// Appends the lines of the records `next` to `text`. The first of these records is at the place
/// `place`, counted from 0. In a table of rows, `extent` decides whether the lines above and below
/// all rows are appended too.
pub(crate) fn push_records(
    text: &mut String,
    arranged: &ArrangedTable<LazyTable>,
    place: usize,
    next: &Rows<'_>,
    extent: PartEnds,
) -> Result<()>
    requires { place + length next.now < 2 ^ 64 }
    ensures { OnOk result (string_bytes text.new ≡ string_bytes text.old
        ++ drawn_next arranged.now.contents.rows arranged.now.contents.table arranged.now.infos
        place extent.is_first extent.is_last next.now) }
{
    if arranged.contents().rows.is_expanded {
        push_expanded(text, arranged, place, next)
    } else {
        push_rows(text, arranged, place, next, extent)
    }
}

// Appends the lines of the rows of some records, the first of which is at a place.
fn push_rows(
    text: &mut String,
    arranged: &ArrangedTable<LazyTable>,
    place: usize,
    next: &Rows<'_>,
    extent: PartEnds,
) -> Result<()>
    requires rows { arranged.now.contents.rows.is_expanded ≡ false }
    requires places { place + length next.now < 2 ^ 64 }
    ensures { OnOk result (string_bytes text.new ≡ string_bytes text.old ++ terminated_text_of
        (part_of_drawing arranged.now.contents.table arranged.now.infos extent.is_first
        extent.is_last (rows_from arranged.now.contents.rows place next.now))) }
{
    let contents = arranged.contents();
    let mut writer = arranged.row_writer()?;
    let mut cells = Vec::new(contents.rows.selected.alloc);
    let mut at = place;
    let mut is_first = extent.is_first;
    for fields in next.iter() {
        let rows = &contents.rows;
        rows.push_row(text, &mut writer, &mut cells, at, &fields, is_first)?;
        at += 1;
        is_first = false;
    }
    let end = PartEnds {
        is_first,
        is_last: extent.is_last,
    };
    writer.push_rows(text, &[], end)
}

// Appends some expanded records, the first of which is at a place.
fn push_expanded(
    text: &mut String,
    arranged: &ArrangedTable<LazyTable>,
    place: usize,
    next: &Rows<'_>,
) -> Result<()>
    requires expanded { arranged.now.contents.rows.is_expanded ≡ true }
    requires places { place + length next.now < 2 ^ 64 }
    ensures { OnOk result (string_bytes text.new ≡ string_bytes text.old
        ++ expanded_from arranged.now.contents.rows arranged.now.contents.table arranged.now.infos
        place next.now) }
{
    let rows = &arranged.contents().rows;
    let mut writer = arranged.row_writer()?;
    let mut cells = Vec::new(rows.selected.alloc);
    let mut at = place;
    for fields in next.iter() {
        let selected = &rows.selected;
        push_record_line(text, selected.noun, at, selected.count())?;
        push_fields(text, rows, &fields, &mut writer, &mut cells)?;
        at += 1;
    }
    Ok(())
}

// Appends the rows of an expanded record as a table, or nothing if it has none.
fn push_fields<'r>(
    text: &mut String,
    rows: &'r RecordRows,
    fields: &Record<'r>,
    writer: &mut RowWriter<'_>,
    cells: &mut Vec<RowCell<'r>>,
) -> Result<()>
    requires { AreNamed rows.now (map cell_of cells.old.items) }
    ensures text { OnOk result (string_bytes text.new ≡ string_bytes text.old
        ++ fields_text writer.old.table writer.old.infos (pairs_by rows.now fields.now)) }
    ensures kept { writer.new ≡ writer.old }
    ensures named { OnOk result (AreNamed rows.now (map cell_of cells.new.items)) }
{
    let mut is_first = true;
    for (place, column) in rows.selected.columns_within(fields).iter().enumerate() {
        if let Some(field) = fields.get(column.position) {
            rows.push_pair(text, writer, cells, place, field, is_first)?;
            is_first = false;
        }
    }
    if is_first {
        return Ok(());
    }
    let end = PartEnds {
        is_first: false,
        is_last: true,
    };
    writer.push_rows(text, &[], end)
}
