//! The lines of a row, as pieces side by side.

ghost use Rattle.std.specs.Prelude.{◌≡◌, [], IfOk, map, option_to_list, string_bytes};
ghost use Rattle.comfy_table.specs.Lines.{cell_delimiter};
ghost use Rattle.comfy_table.specs.Pieces.{content_lines, row_lines};
ghost use Rattle.comfy_table.specs.DrawnCells.{piece_at};

use crate::table::Table;
use crate::utils::formatting::drawn_cell::{DrawnCell, drawn_cells, greatest_height};
use crate::utils::formatting::gap::{Gap, push_spaces};
use crate::utils::formatting::shown_column::shown_infos;
use comfy_parts::content_split::ColumnDisplayInfo;
use comfy_parts::{Cell, Result, Row};
use std::alloc::Global;

/// The lines of a row, from the top. Each line is the list of its pieces, from the left: for each
/// shown column a text with its paddings, as wide as the column, without borders. The i-th item of
/// `display_infos` is for the i-th cell, and cells after its last item are left out. The only error
/// is `OutOfMemory`.
///
/// ```text
/// | one   | two | => [[" one   ", " two "],
/// | lines |     | =>  [" lines ", "     "]]
/// ```
pub fn format_row(
    row: &Row,
    display_infos: &[ColumnDisplayInfo],
    table: &Table,
) -> Result<Vec<Vec<String>>>
    ensures { IfOk result (λ lines. map (λ pieces. map string_bytes pieces.items) lines.items
        ≡ row_lines table.now display_infos.now row.now) }
{
    let alloc = *table.columns.allocator();
    let columns = shown_infos(alloc, display_infos)?;
    let cells = drawn_cells(row, columns.as_slice(), table)?;
    let cells = cells.as_slice();
    let none = Gap::new(alloc, false, None)?;
    let mut text = String::new(alloc);
    let mut lines = Vec::new(alloc);
    for line in 0..greatest_height(cells) {
        lines.push(row_line(&mut text, &none, cells, line)?)?;
    }
    Ok(lines)
}

/// The lines of the header, if there is one, and then the lines of each row. Header and rows have
/// one item each: the list of lines that `format_row` returns for them and `display_infos`, each
/// line as its pieces. The only error is `OutOfMemory`.
pub fn format_content(
    table: &Table,
    display_infos: &[ColumnDisplayInfo],
) -> Result<Vec<Vec<Vec<String>>>>
    ensures { IfOk result (λ content.
        map (λ lines. map (λ pieces. map string_bytes pieces.items) lines.items) content.items
        ≡ content_lines table.now display_infos.now) }
{
    let mut content = header_content(table, display_infos)?;
    let rows = table.rows.as_slice();
    for row in rows {
        content.push(format_row(row, display_infos, table)?)?;
    }
    Ok(content)
}

// The lines of the header, if there is one.
fn header_content(
    table: &Table,
    display_infos: &[ColumnDisplayInfo],
) -> Result<Vec<Vec<Vec<String>>>>
    ensures { IfOk result (λ content.
        map (λ lines. map (λ pieces. map string_bytes pieces.items) lines.items) content.items
        ≡ map (row_lines table.now display_infos.now) (option_to_list table.now.header)) }
{
    let mut content = Vec::new(*table.columns.allocator());
    if let Some(header) = &table.header {
        content.push(format_row(header, display_infos, table)?)?;
    }
    Ok(content)
}

/// The character at which the texts of a cell may break: its own delimiter, else its column's, else
/// the table's, else a space.
pub fn delimiter(cell: &Cell, info: &ColumnDisplayInfo, table: &Table) -> char
    ensures { result ≡ cell_delimiter table.now info.now.delimiter cell.now }
{
    table.delimiter_of(cell, info.delimiter)
}

// The pieces of one line of a row, without gaps between them. Each piece is drawn into `text`
// first, so that its own memory is allocated once, with its exact length.
fn row_line(text: &mut String, none: &Gap, cells: &[DrawnCell], line: usize) -> Result<Vec<String>>
    requires { none.now ≡ [] }
    ensures { IfOk result (λ pieces. map string_bytes pieces.items
        ≡ map (piece_at line) cells.now) }
{
    let alloc = *text.allocator();
    let mut pieces = Vec::with_capacity(alloc, cells.len())?;
    for cell in cells {
        text.clear();
        let free = cell.piece_at(line).push(text, none, 0)?;
        push_spaces(text, free)?;
        pieces.push(String::from_str(alloc, text.as_str())?)?;
    }
    Ok(pieces)
}
