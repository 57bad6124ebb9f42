//! The table of records whose rows are made only when they are drawn.

ghost use Rattle.std.specs.Prelude.{◌≡◌, ℕ, All, IfOk, false, length, map, max, nat_lt, true};
ghost use Rattle.std.specs.List.{list_any, slice_index_or};
ghost use Rattle.comfy_table.specs.Pieces.{row_height};
ghost use Rattle.comfy_table.specs.TableValue.{cell_content_width, column_content_width, max_content_widths, with_other_rows};
ghost use Rattle.csv_tables.specs.Contents.{greatest_at, headed_by, most_cells, rows_from, table_by};
ghost use Rattle.csv_tables.specs.LazyRows.{AreWithin, IsFlat};

use crate::rows::RecordRows;
use comfy_parts::content_split::ColumnDisplayInfo;
use comfy_table::for_records::TableSource;
use comfy_table::{Result, Table};
use std::marker::Model;

/// The table of records, whose rows are made only when they are drawn.
#[derive(Drop)]
pub(crate) struct LazyTable {
    // the header and the columns of the table, without its rows
    pub table: Table,
    pub rows: RecordRows,
    // the content width of each column
    widths: Vec<u16>,
    // if true, each cell of each row has at most one text line
    is_flat: bool,
}

impl Model for LazyTable {
    ghost use Rattle.std.specs.Prelude.{◌≡◌, [], ℕ, All, length, true};
    ghost use Rattle.std.specs.List.{slice_index_or};
    ghost use Rattle.comfy_table.specs.TableValue.{column_content_width, with_other_rows};
    ghost use Rattle.csv_tables.specs.Contents.{rows_from};
    ghost use Rattle.csv_tables.specs.LazyTableValue.{LazyTableValue};
    ghost use Rattle.csv_tables.specs.LazyRows.{IsFlat};

    ghost Value = { LazyTableValue };

    ghost invariant = { λ c. (c.table.rows ≡ [])
        × (length c.widths.items ≡ length c.table.columns)
        × ((i : ℕ) → slice_index_or c.widths.items i 0 ≡ column_content_width
        (with_other_rows (rows_from c.rows 0 c.rows.selected.rows) c.table) i)
        × (c.is_flat ≡ true → All IsFlat (rows_from c.rows 0 c.rows.selected.rows)) };

    ghost view = { λ c. record {
      table = with_other_rows (rows_from c.rows 0 c.rows.selected.rows) c.table;
      rows = c.rows;
    } };
}

impl LazyTable {
    /// Makes the table of `rows` with the style of their look, and measures the content of each
    /// column. The rule `Look::separators` isn't applied yet: the style still has its lines between
    /// rows. The only error is `OutOfMemory`.
    pub fn new(rows: RecordRows) -> Result<LazyTable>
        ensures table { IfOk result (λ contents. contents.table ≡ table_by rows) }
        ensures rows { IfOk result (λ contents. contents.rows ≡ rows) }
    {
        let mut table = rows.headed_table()?;
        let (widths, is_flat) = content_widths(&rows, &table)?;
        table.grow_columns(widths.len())?;
        Ok(LazyTable {
            table,
            rows,
            widths,
            is_flat,
        })
    }

    /// Returns the rows from which the table was made, and drops the table.
    pub fn into_rows(self) -> RecordRows
        ensures { result ≡ self.rows }
    {
        let LazyTable { rows, .. } = self;
        rows
    }

    /// Returns true only if each row is drawn in at most one line, if the columns have the widths
    /// in `infos`. The result may be false even if each row is drawn in at most one line.
    pub fn is_flat_within(&self, infos: &[ColumnDisplayInfo]) -> bool
        ensures { result ≡ true → list_any (nat_lt 1) (map (row_height self.now.table infos.now)
            self.now.table.rows) ≡ false }
    {
        self.is_flat && are_within(self.widths.as_slice(), infos)
    }

    /// The content width of each column, in terminal columns, in the order of the columns. A
    /// content width is the width of the widest text line in the column, at most 65535.
    pub fn widths(&self) -> &[u16]
        ensures { result.now ≡ max_content_widths self.now.table }
    {
        self.widths.as_slice()
    }
}

// The content width of each column of a table with these rows, in terminal columns. `table` has the
// header, but no rows. The second value is true only if no cell of the rows has several text lines.
fn content_widths(rows: &RecordRows, table: &Table) -> Result<(Vec<u16>, bool)>
    requires { table.now ≡ headed_by rows.now }
    ensures each { IfOk result (λ found. (i : ℕ)
        → slice_index_or found.0.items i 0 ≡ column_content_width
        (with_other_rows (rows_from rows.now 0 rows.now.selected.rows) table.now) i) }
    ensures count { IfOk result (λ found. length found.0.items ≡ max (length table.now.columns)
        (most_cells (rows_from rows.now 0 rows.now.selected.rows))) }
    ensures flat { IfOk result (λ found. found.1 ≡ true
        → All IsFlat (rows_from rows.now 0 rows.now.selected.rows)) }
{
    if rows.is_expanded {
        return Ok((pair_widths(rows, table)?, false));
    }
    let mut widths = table.column_max_content_widths()?;
    let mut is_flat = true;
    for (at, fields) in rows.selected.rows().enumerate() {
        is_flat &= rows.widen(&mut widths, table, at, &fields)?;
    }
    Ok((widths, is_flat))
}

// The content widths of the column of names and the column of fields of expanded records. The list
// is empty if no record has a field.
fn pair_widths(rows: &RecordRows, table: &Table) -> Result<Vec<u16>>
    requires { rows.now.is_expanded ≡ true }
    ensures each { IfOk result (λ widths. (i : ℕ) → slice_index_or widths.items i 0
        ≡ greatest_at table.now cell_content_width
        (rows_from rows.now 0 rows.now.selected.rows) i) }
    ensures count { IfOk result (λ widths. length widths.items
        ≡ most_cells (rows_from rows.now 0 rows.now.selected.rows)) }
{
    let mut longest = 0;
    let mut field = 0;
    for fields in rows.selected.rows() {
        longest = fields.len().max(longest);
        field = rows.field_width(table, &fields)?.max(field);
    }
    let name = rows.name_width(table, longest)?;
    let mut widths = Vec::new(rows.selected.alloc);
    if name > 0 {
        widths.push(name)?;
        widths.push(field)?;
    }
    Ok(widths)
}

// Returns true if each column has room for its content. Returns false for a content width of 65535,
// because the content may be wider.
fn are_within(widths: &[u16], infos: &[ColumnDisplayInfo]) -> bool
    ensures { result ≡ true → AreWithin widths.now infos.now }
{
    for (position, info) in infos.iter().enumerate() {
        let width = widths.get(position).copied().unwrap_or(0);
        if width > info.content_width || width >= u16::MAX {
            return false;
        }
    }
    true
}

impl TableSource for LazyTable {
    ghost whole = { λ contents. contents.table };

    fn table(&self) -> &Table {
        &self.table
    }

    fn content_width(&self, position: usize) -> Result<u16> {
        Ok(self.widths.get(position).copied().unwrap_or(0))
    }

    fn longest_line(
        &self,
        position: usize,
        info: &ColumnDisplayInfo,
        limit: usize,
    ) -> Result<usize> {
        let mut longest = self.table.longest_line(position, info, usize::MAX)?;
        let rows = &self.rows;
        for (at, fields) in rows.selected.rows().enumerate() {
            longest = rows
                .longest_line(&self.table, at, &fields, position, info)?
                .max(longest);
            if longest > limit {
                return Ok(longest);
            }
        }
        Ok(longest)
    }
}
