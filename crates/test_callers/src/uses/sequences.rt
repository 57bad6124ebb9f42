//! Callers that draw and inspect cells whose texts have sequences.

ghost use Rattle.std.specs.Prelude.{◌==◌, ◌≡◌, ◌<◌, All, IfOk, List, Some, ℕ, length, map, not, slice_get, string_bytes, true};
ghost use Rattle.std.specs.List.{list_any, slice_split};
ghost use Rattle.comfy_parts.specs.Text.{measure};
ghost use Rattle.comfy_parts.specs.VisibleLines.{line_texts};
ghost use Rattle.comfy_parts.specs.VisibleText.{closed, has_escape, visible_text};
ghost use Rattle.comfy_table.specs.Laws.{CutLinesAreClosed, HasNoControl, IsFreeOfControls, IsFreeOfEscapes, LeavesNoneOpen, LinesAreResumedInRow, NoneIsOpenAtTheEnd};
ghost use Rattle.comfy_table.specs.NewTables.{AreEquallyWide};
ghost use Rattle.comfy_table.specs.Straight.{IsStraightTable};
ghost use Rattle.test_callers.specs.Uses.{IsDrawnWithCells, IsUnstyledDrawing, table_of_two};

use comfy_parts::content_split::leaves_sequence_open;
use comfy_parts::for_tables::{has_escape, measured_lines, written_lines};
use comfy_table::laws::{
    lines_are_found_in_their_texts, new_tables_leave_no_sequence_open,
    tables_without_controls_have_no_escape,
};
use comfy_table::utils::formatting::content_split::ColumnDisplayInfo;
use comfy_table::{Cell, Lines, Result, Row, Table};
use std::alloc::Global;

/// Draws a table with SGR sequences inside its cells. No text that is written for a line of a cell
/// leaves a sequence open. Lines that aren't cut resume the sequences of the cell, and cut lines
/// are closed. If nothing else has ESC, the drawing without its sequences is the drawing without
/// colours and attributes.
pub fn drawn_with_sequences(table: &mut Table) -> Result<Lines>
    ensures set { table.new ≡ record table.old { custom_styling = true } }
    ensures closed { IfOk result (IsDrawnWithCells (NoneIsOpenAtTheEnd table.new) table.new) }
    ensures resumed { IfOk result (IsDrawnWithCells (LinesAreResumedInRow table.new) table.new) }
    ensures cut { IfOk result (IsDrawnWithCells (CutLinesAreClosed table.new) table.new) }
    ensures visible { IfOk result (λ lines. IsFreeOfEscapes table.new
        → IsUnstyledDrawing table.new (map visible_text lines)) }
{
    table.custom_styling();
    table.lines()
}

/// Draws a table, with colours or without. Its lines without SGR sequences are equally wide if the
/// table is straight over any widths of columns (`IsStraightTable`), and neither its texts nor its
/// truncation indicator and style have ESC.
pub fn drawn_in_colour(table: &Table) -> Result<Lines>
    ensures { IfOk result (λ lines. IsFreeOfEscapes table.now
        → ((widths : List ℕ) → IsStraightTable table.now widths)
        → AreEquallyWide (map visible_text lines)) }
{
    table.lines()
}

/// Draws a table of a header and a row with SGR sequences inside their cells, and returns its text.
/// No line of the text leaves a sequence open.
pub fn printed_closed(alloc: Global, header: Row, row: Row) -> Result<String>
    ensures { IfOk result (λ text. All LeavesNoneOpen
        (slice_split (λ b. b == 10) (string_bytes text))) }
{
    new_tables_leave_no_sequence_open();
    lines_are_found_in_their_texts();
    let mut table = Table::new(alloc);
    table.custom_styling().set_header(header)?.add_row(row)?;
    table.to_terminated_text()
}

/// Draws a table of a header and a row, and returns its text. If the cells have no control
/// character, line feeds are the only control characters of the text.
pub fn printed_without_controls(alloc: Global, header: Row, row: Row) -> Result<String>
    ensures { IfOk result (λ text. IsFreeOfControls (table_of_two header row)
        → All HasNoControl (slice_split (λ b. b == 10) (string_bytes text))) }
{
    tables_without_controls_have_no_escape();
    lines_are_found_in_their_texts();
    let mut table = Table::new(alloc);
    table.set_header(header)?.add_row(row)?;
    table.to_terminated_text()
}

/// Turns on `custom_styling` for a table, and returns true if it was on already.
pub fn turned_on(table: &mut Table) -> bool
    ensures was { result ≡ table.old.custom_styling }
    ensures on { table.new ≡ record table.old { custom_styling = true } }
{
    let was = table.has_custom_styling();
    table.custom_styling();
    was
}

/// Returns a copy of a text, with the sequence `ESC[0m` after it if the text leaves an SGR sequence
/// open.
pub fn closed_text(alloc: Global, text: &str) -> Result<String>
    ensures { IfOk result (λ whole. string_bytes whole ≡ closed text.now) }
{
    let mut whole = String::from_str(alloc, text)?;
    if leaves_sequence_open(text) {
        whole.push_str("\u{1b}[0m")?;
    }
    Ok(whole)
}

/// Returns the width of the first text line of a cell in terminal columns, without its SGR
/// sequences. `None` if the cell has no text line.
pub fn first_visible_width(cell: &Cell) -> Option<usize>
    ensures { result ≡ slice_get (map measure (map visible_text cell.now.text_lines)) 0 }
{
    let (_, widths) = measured_lines(cell, true);
    widths.first().copied()
}

/// Returns a copy of a cell's text line at a position, without its SGR sequences.
pub fn visible_line(alloc: Global, cell: &Cell, position: usize) -> Result<String>
    requires { position < length cell.now.text_lines }
    ensures { IfOk result (λ text. slice_get (map visible_text cell.now.text_lines) position
        ≡ Some (string_bytes text)) }
{
    let (texts, _) = measured_lines(cell, true);
    Ok(String::from_str(alloc, texts[position].as_str())?)
}

/// Returns true if a cell's text has no ESC, so that it is written without changes.
pub fn is_written_as_it_is(cell: &Cell) -> bool
    ensures { result ≡ not (list_any has_escape cell.now.text_lines) }
{
    !has_escape(cell)
}

/// Returns the number of lines that are written for a cell in a column, if texts break at commas.
pub fn written_height(cell: &Cell, info: &ColumnDisplayInfo) -> Result<usize>
    ensures { IfOk result (λ height. height
        ≡ length (line_texts info.now.content_width 44 cell.now.text_lines)) }
{
    Ok(written_lines(cell, info, ',')?.len())
}
