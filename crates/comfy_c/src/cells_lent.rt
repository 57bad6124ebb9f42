//! A table of cells that borrow their texts from the caller.

ghost use Rattle.std.specs.Prelude.{◌≡◌, ◌≤◌, ◌+◌, ◌++◌, ◌==◌, [], ℕ, IfOk, OnOk, if◌then◌else◌, length, map, max, slice_get, string_bytes, true};
ghost use Rattle.std.specs.List.{slice_index_or};
ghost use Rattle.comfy_table.specs.Drawing.{drawing_of_infos, part_of_drawing, terminated_text_of};
ghost use Rattle.comfy_table.specs.LongestLine.{cell_longest_line};
ghost use Rattle.comfy_table.specs.RowCells.{cell_of};
ghost use Rattle.comfy_table.specs.TableValue.{cell_content_width, with_other_rows};
ghost use Rattle.csv_records.specs.CutLists.{total};
ghost use Rattle.csv_tables.specs.Contents.{greatest_at, measured_at};
ghost use Rattle.comfy_c.specs.CellCalls.{counts_of, rows_with};

use crate::cells_rows::{RowNumbers, height_of};
use comfy_parts::content_split::ColumnDisplayInfo;
use comfy_table::for_records::{RowCell, TableSource};
use comfy_table::{ArrangedTable, PartEnds, Result, RowWriter, Table};
use std::alloc::{AllocError, Global};
use std::marker::Model;

/// A table that is drawn without a `Row` for each row. The cells of the table borrow their texts
/// from the caller.
#[derive(Drop)]
pub(crate) struct LentTable<'a> {
    // its header, its columns and its settings, without rows
    table: Table,
    rows: &'a [RowNumbers],
    // the cells of all rows
    cells: Vec<RowCell<'a>>,
    // the greatest content width of the cells at each position, without the header
    widths: Vec<u16>,
}

impl<'a> Model for LentTable<'a> {
    ghost use Rattle.std.specs.Prelude.{◌≡◌, [], ℕ, length, map};
    ghost use Rattle.std.specs.List.{slice_index_or};
    ghost use Rattle.comfy_table.specs.RowCells.{cell_of};
    ghost use Rattle.comfy_table.specs.TableValue.{TableValue, cell_content_width, with_other_rows};
    ghost use Rattle.csv_records.specs.CutLists.{total};
    ghost use Rattle.csv_tables.specs.Contents.{greatest_at};
    ghost use Rattle.comfy_c.specs.CellCalls.{counts_of, rows_with};

    ghost Value = { TableValue };

    ghost invariant = { λ c. (c.table.rows ≡ [])
        × (total (counts_of c.rows.now) ≡ length c.cells.items)
        × ((i : ℕ) → slice_index_or c.widths.items i 0 ≡ greatest_at c.table cell_content_width
        (rows_with c.rows.now (map cell_of c.cells.items)) i) };

    ghost view = { λ c. with_other_rows
        (rows_with c.rows.now (map cell_of c.cells.items)) c.table };
}

impl<'a> LentTable<'a> {
    /// Returns `table` with the rows `rows` below its header. `table` itself must have no rows.
    /// `cells` has the cells of all `rows`, in the order of the rows. The only error is
    /// `OutOfMemory`.
    pub fn new(
        alloc: Global,
        table: Table,
        rows: &'a [RowNumbers],
        cells: Vec<RowCell<'a>>,
    ) -> Result<LentTable<'a>>
        requires bare { table.rows ≡ [] }
        requires counted { total (counts_of rows.now) ≡ length cells.items }
        ensures { IfOk result (λ lent. lent
            ≡ with_other_rows (rows_with rows.now (map cell_of cells.entry.items)) table) }
    {
        let mut widths = Vec::new(alloc);
        widen_rows(&mut widths, &table, rows, cells.as_slice())?;
        Ok(LentTable {
            table,
            rows,
            cells,
            widths,
        })
    }

    // Appends the lines of all rows, with the header and all borders.
    fn push_lines(&self, text: &mut String, writer: &mut RowWriter<'_>) -> Result<()>
        ensures { OnOk result (string_bytes text.new ≡ string_bytes text.old ++ terminated_text_of
            (part_of_drawing writer.old.table writer.old.infos true true self.now.rows)) }
    {
        push_rows(text, writer, self.rows, self.cells.as_slice())
    }
}

impl<'a> TableSource for LentTable<'a> {
    ghost whole = { λ lent. lent };

    fn table(&self) -> &Table {
        &self.table
    }

    fn content_width(&self, position: usize) -> Result<u16> {
        let below = self.widths.get(position).copied().unwrap_or(0);
        Ok(self.table.content_width(position)?.max(below))
    }

    fn longest_line(
        &self,
        position: usize,
        info: &ColumnDisplayInfo,
        limit: usize,
    ) -> Result<usize> {
        let header = self.table.longest_line(position, info, usize::MAX)?;
        let cells = self.cells.as_slice();
        let below = longest_in_rows(&self.table, self.rows, cells, position, info, limit)?;
        Ok(header.max(below))
    }
}

/// Appends the lines of a table, each with a line feed after it. The only error is `OutOfMemory`.
pub(crate) fn push_table(text: &mut String, arranged: &ArrangedTable<LentTable<'_>>) -> Result<()>
    ensures { OnOk result (string_bytes text.new ≡ string_bytes text.old
        ++ terminated_text_of (drawing_of_infos arranged.now.contents arranged.now.infos)) }
{
    let mut writer = arranged.row_writer()?;
    arranged.contents().push_lines(text, &mut writer)
}

// Appends the lines of all rows of a table, with the header and all borders.
fn push_rows(
    text: &mut String,
    writer: &mut RowWriter<'_>,
    rows: &[RowNumbers],
    cells: &[RowCell<'_>],
) -> Result<()>
    requires { total (counts_of rows.now) ≡ length cells.now }
    ensures { OnOk result (string_bytes text.new ≡ string_bytes text.old ++ terminated_text_of
        (part_of_drawing writer.old.table writer.old.infos true true
        (rows_with rows.now (map cell_of cells.now)))) }
{
    let mut is_first = true;
    let mut start = 0;
    for row in rows {
        let end = start + row.cells;
        let extent = PartEnds {
            is_first,
            is_last: false,
        };
        let limit = height_of(row.max_height);
        writer.push_cells(text, &cells[start..end], limit, extent)?;
        is_first = false;
        start = end;
    }
    let end = PartEnds {
        is_first,
        is_last: true,
    };
    writer.push_rows(text, &[], end)
}

// Raises the widths of columns until each has room for its cells in these rows.
fn widen_rows(
    widths: &mut Vec<u16>,
    table: &Table,
    rows: &[RowNumbers],
    cells: &[RowCell<'_>],
) -> Result<(), AllocError>
    requires { total (counts_of rows.now) ≡ length cells.now }
    ensures { OnOk result ((i : ℕ) → slice_index_or widths.new.items i 0
        ≡ max (slice_index_or widths.old.items i 0) (greatest_at table.now cell_content_width
        (rows_with rows.now (map cell_of cells.now)) i)) }
{
    let mut start = 0;
    for row in rows {
        let end = start + row.cells;
        widen_row(widths, table, &cells[start..end])?;
        start = end;
    }
    Ok(())
}

// Raises the widths of columns until each has room for its cell in a row.
fn widen_row(widths: &mut Vec<u16>, table: &Table, cells: &[RowCell<'_>]) -> Result<(), AllocError>
    ensures { OnOk result ((i : ℕ) → slice_index_or widths.new.items i 0
        ≡ max (slice_index_or widths.old.items i 0) (measured_at table.now cell_content_width
        (slice_get (map cell_of cells.now) i))) }
{
    for (position, cell) in cells.iter().enumerate() {
        widen_at(widths, position, cell.content_width(table))?;
    }
    Ok(())
}

// Raises the width at a position to at least `least`. Missing widths before it become 0.
#[inline(always)]
fn widen_at(widths: &mut Vec<u16>, position: usize, least: u16) -> Result<(), AllocError>
    ensures { OnOk result ((i : ℕ) → slice_index_or widths.new.items i 0
        ≡ max (slice_index_or widths.old.items i 0) (if i == position then least else 0)) }
{
    lengthen(widths, position)?;
    if let Some(width) = widths.get_mut(position) {
        *width = (*width).max(least);
    }
    Ok(())
}

// Appends zeros until a list has a width at a position.
#[inline(always)]
fn lengthen(widths: &mut Vec<u16>, position: usize) -> Result<(), AllocError>
    ensures each { OnOk result ((i : ℕ) → slice_index_or widths.new.items i 0
        ≡ slice_index_or widths.old.items i 0) }
    ensures count { OnOk result (position + 1 ≤ length widths.new.items) }
{
    while widths.len() <= position {
        widths.push(0)?;
    }
    Ok(())
}

// The longest line of the cells at a position of these rows, as they are wrapped in a column, in
// terminal columns. If it is above `limit`, the result is some number above `limit`, which may be
// less than the longest line.
fn longest_in_rows(
    table: &Table,
    rows: &[RowNumbers],
    cells: &[RowCell<'_>],
    position: usize,
    info: &ColumnDisplayInfo,
    limit: usize,
) -> Result<usize>
    requires { total (counts_of rows.now) ≡ length cells.now }
    ensures at_most { IfOk result (λ longest. longest ≤ greatest_at table.now
        (cell_longest_line table.now info.now) (rows_with rows.now (map cell_of cells.now))
        position) }
    ensures exact { IfOk result (λ longest. longest ≤ limit → longest ≡ greatest_at table.now
        (cell_longest_line table.now info.now) (rows_with rows.now (map cell_of cells.now))
        position) }
{
    let mut longest = 0;
    let mut start = 0;
    for row in rows {
        let end = start + row.cells;
        longest = longest_at(table, &cells[start..end], position, info)?.max(longest);
        if longest > limit {
            return Ok(longest);
        }
        start = end;
    }
    Ok(longest)
}

// The longest line of the cell at a position, as it is wrapped in a column, in terminal columns. 0
// if there is no such cell.
fn longest_at(
    table: &Table,
    cells: &[RowCell<'_>],
    position: usize,
    info: &ColumnDisplayInfo,
) -> Result<usize>
    ensures { IfOk result (λ longest. longest ≡ measured_at table.now
        (cell_longest_line table.now info.now) (slice_get (map cell_of cells.now) position)) }
{
    match cells.get(position) {
        Some(cell) => cell.longest_line(table, info),
        None => Ok(0),
    }
}
