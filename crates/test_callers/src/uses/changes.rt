//! Callers that change tables, their rows and their columns.

ghost use Rattle.std.specs.Prelude.{IfOk, OnErr, OnOk, Some, [], false, if◌then◌else◌, length, max, nat_lt, take, true, ◌∷◌, ◌≡◌, ◌≤◌};
ghost use Rattle.comfy_parts.specs.Presets.{ascii_markdown};
ghost use Rattle.comfy_parts.specs.declared.style.table.ContentArrangement.TheVariants.{Dynamic};
ghost use Rattle.comfy_table.specs.TableValue.{new_table, with_row, with_rows};

use comfy_table::laws::columns_only_grow;
use comfy_table::presets::ASCII_MARKDOWN;
use comfy_table::{Cell, Column, ContentArrangement, Result, Row, Table, Terminal};
use std::alloc::Global;

/// Appends a row if it has a cell. After `OutOfMemory` the table is unchanged.
pub fn append_unless_empty(table: &mut Table, row: Row) -> Result<()>
    ensures ok { OnOk result (table.new
        ≡ (if nat_lt 0 (length row.cells) then with_row row table.old else table.old)) }
    ensures err { OnErr result (table.new ≡ table.old) }
{
    table.try_add_row_if(|_count, row| row.cell_count() > 0, row)
}

/// Appends rows until all are appended or memory runs out. Returns the number of rows that were
/// appended.
pub fn added_count(table: &mut Table, rows: Vec<Row>) -> usize
    ensures { (result ≤ length rows.items)
        × (table.new ≡ with_rows (take result rows.items) table.old) }
{
    let count = rows.len();
    let mut rows = rows.into_iter();
    match table.try_add_rows(&mut rows) {
        Ok(()) => count,
        Err(_) => count - rows.len() - 1,
    }
}

/// Returns a copy of a table, with one more row.
pub fn copied_with(table: &Table, row: Row) -> Result<Table>
    ensures { IfOk result (λ copy. copy ≡ with_row row table.now) }
{
    let mut copy = table.clone()?;
    copy.add_row(row)?;
    Ok(copy)
}

/// Appends a cell to the first row. The columns don't change, and the table doesn't change if it
/// has no row.
pub fn append_to_first(table: &mut Table, cell: Cell) -> Result<()>
    ensures columns { table.new.columns ≡ table.old.columns }
    ensures none { length table.old.rows ≡ 0 → table.new ≡ table.old }
{
    if let Some(row) = table.row_mut(0) {
        row.try_add_cell(cell)?;
    }
    Ok(())
}

/// Sets the header. The number of columns is then the greater of two numbers: the number before,
/// and the number of cells in the header.
pub fn widen(table: &mut Table, header: Row) -> Result<()>
    ensures { OnOk result (length table.new.columns
        ≡ max (length header.cells) (length table.old.columns)) }
{
    columns_only_grow();
    table.try_set_header(header)
}

/// Gives the column `to` the padding of the column `from`.
pub fn copy_padding(from: &Column, to: &mut Column)
    ensures { to.new ≡ record to.old { padding = from.now.padding } }
{
    to.set_padding(from.padding());
}

/// Sets the padding of the second column, if there is one. Neither the rows nor the number of
/// columns change.
pub fn pad_second(table: &mut Table)
    ensures rows { table.new.rows ≡ table.old.rows }
    ensures count { length table.new.columns ≡ length table.old.columns }
{
    if let Some(column) = table.column_mut(1) {
        column.set_padding((0, 0));
    }
}

/// Returns a new table with this width in terminal columns. Standard output is a terminal of 80
/// terminal columns, and most other settings are set too.
pub fn table_for_terminal(alloc: Global, width: u16) -> Result<Table>
    ensures { IfOk result (λ table. table
        ≡ record (new_table ascii_markdown) {
          delimiter = Some 45;
          indicator = 126 ∷ [];
          arrangement = Dynamic;
          set_width = Some width;
          terminal = record { stdout_is_tty = true; stderr_is_tty = false; width = Some 80 };
          no_tty = true;
          use_stderr = true;
          enforce_styling = true;
          style_text_only = true;
        }) }
{
    let mut table = Table::new(alloc);
    table
        .load_style(ASCII_MARKDOWN)
        .set_delimiter('-')
        .set_truncation_indicator("~")?
        .set_content_arrangement(ContentArrangement::Dynamic)
        .set_width(width)
        .set_terminal(Terminal {
            stdout_is_tty: true,
            stderr_is_tty: false,
            width: Some(80),
        })
        .force_no_tty()
        .use_stderr()
        .enforce_styling()
        .style_text_only();
    Ok(table)
}
