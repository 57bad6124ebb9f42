//! The rows of a table of cells, from numbers and from texts in one block of bytes.

ghost use Rattle.std.specs.Prelude.{◌≡◌, All, IfErr, IfOk, IfSome, IsUtf8, None, length, map, option_map};
ghost use Rattle.comfy_table.specs.RowCells.{cell_of};
ghost use Rattle.comfy_table.specs.TextStyles.{text_cell};
ghost use Rattle.csv_records.specs.CutLists.{cut_by, total};
ghost use Rattle.comfy_c.specs.CellCalls.{cells_by, cells_with, counts_of, lengths_of, rows_with};
ghost use Rattle.comfy_c.specs.Numbers.{alignment_of, cell_with, height_of, row_with};
ghost use Rattle.comfy_c.specs.Texts.{AddUp, IsTextsRefusal};

use crate::cells_numbers::{LookNumbers, alignment_of, char_of, look_settings};
use crate::cells_styles::{KnownLook, style_among};
use crate::refusal::DrawRefusal;
use crate::rows_settings::limit_of;
use crate::texts::texts_of;
use comfy_parts::style::CellAlignment;
use comfy_parts::{Cell, Cells, IntoRow, Row, TableError};
use comfy_table::for_records::{LinesCell, RowCell, TextCell, TextStyle};
use std::alloc::{AllocError, Global};

/// The length of a cell's text, and the settings of the cell. The text itself is in the parameter
/// `texts` of `comfy_cells_draw`.
#[derive(Clone, Copy, Debug)]
#[repr(C)]
pub struct CellNumbers {
    /// The length of the cell's text in bytes.
    pub length: usize,
    /// The code point of the character at which the text may break; 0 for the delimiter of the
    /// column.
    pub delimiter: u32,
    /// The alignment, the colours and the attributes of the text.
    pub look: LookNumbers,
}

/// The settings of a row of a table that `comfy_cells_draw` draws.
#[derive(Clone, Copy, Debug)]
#[repr(C)]
pub struct RowNumbers {
    /// The number of cells in the row.
    pub cells: usize,
    /// The greatest number of lines of the row; texts with more lines are cut. 0 and `usize::MAX`
    /// set no limit.
    pub max_height: usize,
}

/// The rows that `rows`, `cells` and `texts` describe. Cells and texts are in the order of the
/// rows. The errors are those of `texts_of`.
pub(crate) fn rows_of(
    alloc: Global,
    rows: &[RowNumbers],
    cells: &[CellNumbers],
    texts: &[u8],
) -> Result<Vec<Row>, DrawRefusal>
    ensures rows { IfOk result (λ made. made.items
        ≡ rows_with rows.now (cells_with cells.now texts.now)) }
    ensures all { IfOk result (λ _.
        AddUp texts.now (lengths_of cells.now) (counts_of rows.now)) }
    ensures refused { IfErr result
        (IsTextsRefusal texts.now (lengths_of cells.now) (counts_of rows.now)) }
{
    let texts = cell_texts(alloc, rows, cells, texts)?;
    Ok(rows_by(alloc, rows, cells, texts.as_slice())?)
}

/// The text of each cell, from the block of all texts. The errors are those of `texts_of`.
pub(crate) fn cell_texts<'a>(
    alloc: Global,
    rows: &[RowNumbers],
    cells: &[CellNumbers],
    texts: &'a [u8],
) -> Result<Vec<&'a str>, DrawRefusal>
    ensures cut { IfOk result (λ found. map (λ text. text.now) found.items
        ≡ cut_by (lengths_of cells.now) texts.now) }
    ensures count { IfOk result (λ found. length found.items ≡ length cells.now) }
    ensures all { IfOk result (λ _.
        AddUp texts.now (lengths_of cells.now) (counts_of rows.now)) }
    ensures counted { IfOk result (λ _. total (counts_of rows.now) ≡ length cells.now) }
    ensures texts { IfOk result (λ _. All IsUtf8 (cut_by (lengths_of cells.now) texts.now)) }
    ensures refused { IfErr result
        (IsTextsRefusal texts.now (lengths_of cells.now) (counts_of rows.now)) }
{
    let lengths = lengths_of(alloc, cells)?;
    let counts = counts_of(alloc, rows)?;
    let found = texts_of(alloc, texts, lengths.as_slice(), counts.as_slice())?;
    Ok(found)
}

// The length of the text of each cell, in bytes.
fn lengths_of(alloc: Global, cells: &[CellNumbers]) -> Result<Vec<usize>, AllocError>
    ensures { IfOk result (λ lengths. lengths.items ≡ lengths_of cells.now) }
{
    cells.iter().map(|cell| cell.length).collect(alloc)
}

// The number of cells of each row.
fn counts_of(alloc: Global, rows: &[RowNumbers]) -> Result<Vec<usize>, AllocError>
    ensures { IfOk result (λ counts. counts.items ≡ counts_of rows.now) }
{
    rows.iter().map(|row| row.cells).collect(alloc)
}

// The rows of cells that have these texts.
fn rows_by(
    alloc: Global,
    rows: &[RowNumbers],
    cells: &[CellNumbers],
    texts: &[&str],
) -> Result<Vec<Row>, TableError>
    requires counted { total (counts_of rows.now) ≡ length cells.now }
    requires paired { length texts.now ≡ length cells.now }
    ensures { IfOk result (λ made. made.items
        ≡ rows_with rows.now (cells_by cells.now (map (λ text. text.now) texts.now))) }
{
    let mut made = Vec::with_capacity(alloc, rows.len())?;
    let mut start = 0;
    for row in rows {
        let end = start + row.cells;
        made.push(row_of(alloc, row, &cells[start..end], &texts[start..end])?)?;
        start = end;
    }
    Ok(made)
}

/// The row with these settings, whose cells have `texts` and the settings in `cells`. The only
/// error is that memory ran out.
pub(crate) fn row_of(
    alloc: Global,
    row: &RowNumbers,
    cells: &[CellNumbers],
    texts: &[&str],
) -> Result<Row, TableError>
    ensures { IfOk result (λ made. made
        ≡ row_with row.now (cells_by cells.now (map (λ text. text.now) texts.now))) }
{
    let mut made = Cells(cells_by(alloc, cells, texts)?).into_row(alloc)?;
    if let Some(height) = height_of(row.max_height) {
        made.max_height(height);
    }
    Ok(made)
}

/// The greatest number of lines of a row, which `number` sets. `None` for 0 and for `usize::MAX`,
/// which set no limit.
pub(crate) fn height_of(number: usize) -> Option<usize>
    ensures { result ≡ height_of number }
{
    if number == 0 { None } else { limit_of(number) }
}

// The cells that have these texts.
fn cells_by(alloc: Global, cells: &[CellNumbers], texts: &[&str]) -> Result<Vec<Cell>, TableError>
    ensures { IfOk result (λ made. made.items
        ≡ cells_by cells.now (map (λ text. text.now) texts.now)) }
{
    let mut made = Vec::with_capacity(alloc, cells.len())?;
    for (cell, text) in cells.iter().zip(texts) {
        made.push(cell_of(alloc, cell, text)?)?;
    }
    Ok(made)
}

// The cell of a text.
fn cell_of(alloc: Global, numbers: &CellNumbers, text: &str) -> Result<Cell, TableError>
    ensures { IfOk result (λ cell. cell ≡ cell_with numbers.now text.now) }
{
    let mut cell = Cell::new_owned(alloc, String::from_str(alloc, text)?)?;
    if let Some(delimiter) = char_of(numbers.delimiter) {
        cell = cell.set_delimiter(delimiter);
    }
    if numbers.look.is_plain() {
        return Ok(aligned(cell, alignment_of(numbers.look.alignment)));
    }
    look_settings(alloc, &numbers.look)?.dressed(cell)
}

// The cell with this alignment; unchanged if there is none.
fn aligned(cell: Cell, alignment: Option<CellAlignment>) -> Cell
    requires { cell.alignment ≡ None }
    ensures { result ≡ record cell { alignment = alignment } }
{
    match alignment {
        Some(alignment) => cell.set_alignment(alignment),
        None => cell,
    }
}

/// The cells that have `texts` and the settings in `cells`. A cell borrows its text from the
/// caller, except in three cases. It has a copy of the text if the text has ESC, if the cell has a
/// delimiter, or if it has colours or attributes that aren't in `looks`.
pub(crate) fn lent_cells<'a>(
    alloc: Global,
    cells: &[CellNumbers],
    texts: &[&'a str],
    looks: &'a [KnownLook],
) -> Result<Vec<RowCell<'a>>, TableError>
    ensures { IfOk result (λ made. map cell_of made.items
        ≡ cells_by cells.now (map (λ text. text.now) texts.now)) }
{
    let mut made = Vec::with_capacity(alloc, cells.len())?;
    for (cell, text) in cells.iter().zip(texts) {
        made.push(row_cell(alloc, cell, text, looks)?)?;
    }
    Ok(made)
}

// The cell of a text. The cell borrows the text if `lent_cell` can make it, and otherwise copies
// it.
#[inline(always)]
fn row_cell<'a>(
    alloc: Global,
    numbers: &CellNumbers,
    text: &'a str,
    looks: &'a [KnownLook],
) -> Result<RowCell<'a>, TableError>
    ensures { IfOk result (λ cell. cell_of cell ≡ cell_with numbers.now text.now) }
{
    if let Some(cell) = lent_cell(numbers, text, looks) {
        return Ok(cell);
    }
    made_cell(alloc, numbers, text)
}

// A cell with its own copy of a text.
#[inline(never)]
fn made_cell<'a>(
    alloc: Global,
    numbers: &CellNumbers,
    text: &str,
) -> Result<RowCell<'a>, TableError>
    ensures { IfOk result (λ cell. cell_of cell ≡ cell_with numbers.now text.now) }
{
    Ok(RowCell::Made(Box::new(alloc, cell_of(alloc, numbers, text)?)?))
}

// The cell that borrows a text from the caller. `None` if the text has ESC, or if the cell has a
// delimiter, or colours or attributes that aren't in `looks`.
#[inline(always)]
fn lent_cell<'a>(
    numbers: &CellNumbers,
    text: &'a str,
    looks: &'a [KnownLook],
) -> Option<RowCell<'a>>
    ensures { IfSome result (λ cell. cell_of cell ≡ cell_with numbers.now text.now) }
{
    if numbers.delimiter != 0 {
        return None;
    }
    if numbers.look.is_plain() {
        return text_cell(numbers, text, None);
    }
    let style = style_among(looks, &numbers.look)?;
    text_cell(numbers, text, Some(style))
}

// The cell that borrows a text and has this style; `None` if the text has ESC. Printable ASCII is
// tried first, because most texts are.
#[inline(always)]
fn text_cell<'a>(
    numbers: &CellNumbers,
    text: &'a str,
    style: Option<&'a TextStyle<'a>>,
) -> Option<RowCell<'a>>
    ensures { IfSome result (λ cell. cell_of cell
        ≡ text_cell (alignment_of numbers.now.look.alignment)
        (option_map (λ style. style.now) style.entry) text.now) }
{
    let alignment = alignment_of(numbers.look.alignment);
    if let Some(cell) = TextCell::of_printable(text, 0, alignment, style) {
        return Some(RowCell::Lent(cell));
    }
    if let Some(cell) = TextCell::of_line(text, alignment, style) {
        return Some(RowCell::Lent(cell));
    }
    Some(RowCell::Several(LinesCell::of_lines(text, alignment, style)?))
}
