//! The cells of a row in the shown columns, with the lines that are drawn of them.

ghost use Rattle.std.specs.Prelude.{◌≡◌, ◌∷◌, [], IfOk, IfSome, length, map};
ghost use Rattle.comfy_table.specs.DrawnCells.{drawn_cell, greatest_height, piece_at, styles_of};
ghost use Rattle.comfy_table.specs.Pieces.{pieces_at};
ghost use Rattle.comfy_table.specs.RowCells.{row_in};

use crate::table::Table;
use crate::utils::formatting::cell_lines::{CellLines, Line, only_line, row_cell_lines};
use crate::utils::formatting::piece::{Piece, Styles};
use crate::utils::formatting::row_cell::{CellSource, RowSource};
use crate::utils::formatting::shown_column::{ShownColumn, shown_infos};
use comfy_parts::content_split::ColumnDisplayInfo;
use comfy_parts::{Result, Row};
use std::alloc::Global;
use std::marker::Model;

// The greatest capacity, in lines, of a list that is kept for later rows. Larger lists are dropped,
// so that a tall cell's memory is returned before the next row.
const KEPT_LINES: usize = 256;

/// A cell of a row in a shown column, with the lines that are drawn of the cell.
#[derive(Drop)]
pub struct DrawnCell<'a, 'r> {
    styles: Styles,
    info: &'a ColumnDisplayInfo,
    // the cell and its lines; `None` if the row has no cell in this column
    cell: Option<(CellSource<'r>, CellLines<'r>)>,
}

impl<'a, 'r> Model for DrawnCell<'a, 'r> {
    ghost use Rattle.comfy_table.specs.CellLines.{cell_with_lines};
    ghost use Rattle.comfy_table.specs.DrawnCells.{DrawnCell, pieces_of_content};

    ghost Value = { DrawnCell };

    ghost view = { λ d. record {
      info = d.info.now;
      pieces = pieces_of_content d.styles d.info.now (cell_with_lines d.cell);
    } };
}

impl<'a, 'r> DrawnCell<'a, 'r> {
    /// The number of lines of the cell in its column. A missing cell has one blank line.
    pub fn height(&self) -> usize
        ensures { result ≡ length self.now.pieces }
    {
        match &self.cell {
            Some((_, lines)) => lines.len(),
            None => 1,
        }
    }

    /// The piece (`Piece`) of the cell in the line number `line` of its row, counted from 0. After
    /// the cell's last line the piece has only spaces.
    #[inline(always)]
    pub fn piece_at(&self, line: usize) -> Piece<'_>
        ensures { result ≡ piece_at line self.now }
    {
        let Some((cell, lines)) = &self.cell else {
            return Piece::blank(self.info);
        };
        let Some(line) = lines.get(line) else {
            return Piece::blank(self.info);
        };
        let (columns, text, end) = line.parts();
        Piece::new(self.styles, *cell, self.info, columns, text, end)
    }
}

/// Takes a cell that has been drawn, and moves the list of its lines to `spare` for later cells. A
/// list with room for more than 256 lines is dropped. A cell without a list leaves `spare`
/// unchanged. The only error is `OutOfMemory`.
#[inline(always)]
pub fn take_list<'r>(cell: DrawnCell<'_, 'r>, spare: &mut Vec<Vec<Line<'r>>>) -> Result<()> {
    let Some((_, lines)) = cell.cell else {
        return Ok(());
    };
    match lines {
        CellLines::Multiple(lines) => {
            if lines.capacity() <= KEPT_LINES {
                spare.push(lines)?;
            }
        }
        CellLines::Single(_line) => {}
    }
    Ok(())
}

/// The cells of a row in these columns, in the order of the columns. If the row has no cell in a
/// column, the item for this column is a blank cell of one line. The only error is `OutOfMemory`.
pub fn drawn_cells<'a, 'r>(
    row: &'r Row,
    columns: &[ShownColumn<'a>],
    table: &'r Table,
) -> Result<Vec<DrawnCell<'a, 'r>>>
    ensures { IfOk result (λ cells. cells.items
        ≡ map (drawn_cell table.now row.now) columns.now) }
{
    let source = RowSource::Whole(row);
    let alloc = *table.columns.allocator();
    let styles = Styles::of(table);
    let mut spare = Vec::new(alloc);
    let mut cells = Vec::new(alloc);
    for column in columns {
        cells.push(drawn_cell(source, column, table, styles, &mut spare)?)?;
    }
    Ok(cells)
}

/// The height of a row in lines: the greatest height of `cells`, or 0 without cells.
pub fn greatest_height(cells: &[DrawnCell]) -> usize
    ensures { result ≡ greatest_height cells.now }
{
    let mut height = 0;
    for cell in cells {
        height = cell.height().max(height);
    }
    height
}

/// The height of a row in lines: the greatest height of its cells in these columns; 0 without
/// columns. The only error is `OutOfMemory`.
pub fn row_height(row: RowSource<'_>, columns: &[ShownColumn<'_>], table: &Table) -> Result<usize>
    ensures { IfOk result (λ height. height
        ≡ greatest_height (map (drawn_cell table.now (row_in row.entry)) columns.now)) }
{
    let styles = Styles::of(table);
    let mut spare = Vec::new(*table.columns.allocator());
    let mut height = 0;
    for column in columns {
        if only_piece(row, column, table, styles).is_some() {
            height = height.max(1);
        } else {
            let cell = drawn_cell(row, column, table, styles, &mut spare)?;
            height = cell.height().max(height);
            take_list(cell, &mut spare)?;
        }
    }
    Ok(height)
}

/// The only piece (`Piece`) of the row's cell in `column`, if `only_line` returns the cell's only
/// line. If the row has no cell in this column, the piece is blank. For any other cell the result
/// is `None`. `styles` says where colours and attributes are written. Most cells are drawn this
/// way, without a list and without a `DrawnCell`.
#[inline(always)]
pub fn only_piece<'r>(
    row: RowSource<'r>,
    column: &ShownColumn<'_>,
    table: &'r Table,
    styles: Styles,
) -> Option<Piece<'r>>
    requires { styles ≡ styles_of table.now }
    ensures { IfSome result (λ piece. piece ∷ []
        ≡ pieces_at table.now (row_in row.entry) column.now) }
{
    let info = column.info;
    // Proof only: reading the limit shows that it is at least 1.
    let _limit = row.height_limit();
    let Some(cell) = row.cell_at(column.position) else {
        return Some(Piece::blank(info));
    };
    let (columns, text, end) = only_line(table, cell, info)?;
    Some(Piece::new(styles, cell, info, columns, text, end))
}

/// The cell of `row` in a shown column, with the lines that are drawn of the cell. If the row has
/// no cell there, the result is a blank cell of one line. If the lines need a list, it is taken
/// from `spare`, or is a new list if `spare` is empty. `styles` says where colours and attributes
/// are written. The only error is `OutOfMemory`.
pub fn drawn_cell<'a, 'r>(
    row: RowSource<'r>,
    column: &ShownColumn<'a>,
    table: &'r Table,
    styles: Styles,
    spare: &mut Vec<Vec<Line<'r>>>,
) -> Result<DrawnCell<'a, 'r>>
    requires { styles ≡ styles_of table.now }
    ensures { IfOk result (λ cell. cell ≡ drawn_cell table.now (row_in row.entry) column.now) }
{
    let info = column.info;
    let Some(cell) = row.cell_at(column.position) else {
        return Ok(DrawnCell {
            styles,
            info,
            cell: None,
        });
    };
    let lines = row_cell_lines(table, row.height_limit(), cell, info, spare)?;
    Ok(DrawnCell {
        styles,
        info,
        cell: Some((cell, lines)),
    })
}
