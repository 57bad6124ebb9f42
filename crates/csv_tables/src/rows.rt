//! The rows of records. Cells are made or lent only when they are measured or drawn.

ghost use Rattle.std.specs.Prelude.{◌≡◌, ◌<◌, ◌≤◌, ◌+◌, ◌++◌, ◌==◌, ◌∷◌, [], ℕ, false, IfOk, List, OnOk, Some, if◌then◌else◌, length, map, max, nat_lt, option_map, slice_get, string_bytes, true};
ghost use Rattle.std.specs.List.{slice_index_or};
ghost use Rattle.comfy_parts.specs.CellValue.{CellValue};
ghost use Rattle.comfy_parts.specs.Text.{Text};
ghost use Rattle.comfy_table.specs.Drawing.{part_of_drawing, terminated_text_of};
ghost use Rattle.comfy_table.specs.LongestLine.{cell_longest_line};
ghost use Rattle.comfy_table.specs.Pieces.{row_height};
ghost use Rattle.comfy_table.specs.RowCells.{cell_of};
ghost use Rattle.comfy_table.specs.TableValue.{cell_content_width};
ghost use Rattle.csv_tables.specs.Cells.{columns_within};
ghost use Rattle.csv_tables.specs.Contents.{field_cells, greatest_at, headed_by, made_by, measured_at, plain_by, rows_at, settings_by};
ghost use Rattle.csv_tables.specs.LazyRows.{IsFlat};
ghost use Rattle.csv_tables.specs.NoWrap.{cell_need};

use crate::cells::{field_cell, number_cell, push_field};
use crate::needs::cell_need;
use crate::options::{ColumnPlan, Look};
use crate::selected::SelectedRecords;
use crate::settings::{CellSettings, RowSettings, Settings, cell_settings, limit_by, settings_of};
use crate::table::empty_table;
use comfy_parts::content_split::ColumnDisplayInfo;
use comfy_table::for_records::RowCell;
use comfy_table::{PartEnds, Result, RowWriter, Table};
use csv_records::Record;
use std::alloc::{AllocError, Global};

/// The rows of records: one row for each record, or one row for each field of expanded records. An
/// expanded record is drawn as a table of its own (`Expansion`). The only error of the functions is
/// `OutOfMemory`.
///
/// In the parameters of the functions, `fields` is a record, and `at` is its place among the drawn
/// records, counted from 0. `table` is the table of the rows; it decides whether SGR sequences
/// count when texts are measured.
#[derive(Drop)]
pub(crate) struct RecordRows {
    pub selected: SelectedRecords,
    // the settings of columns, rows and cells; none if records are expanded
    pub settings: Settings,
    pub look: Look,
    // true if each field has a row of its own, with the name of its column
    pub is_expanded: bool,
    // true if decimal marks are lined up; false if records are expanded
    pub is_aligned: bool,
}

impl RecordRows {
    /// A table with the frame and the width of the look, and with the header, but without rows.
    /// There is no header if records are expanded, or if no record is the header. The only error is
    /// `OutOfMemory`.
    pub fn headed_table(&self) -> Result<Table>
        ensures { IfOk result (λ table. table ≡ headed_by self.now) }
    {
        let selected = &self.selected;
        if self.is_expanded {
            Ok(empty_table(selected.alloc, false, &self.look))
        } else {
            let settings = &self.settings;
            selected.headed_table(selected.names(), settings.of_rows(), &self.look)
        }
    }

    /// Raises the content widths in `widths` until each column has room for its cell in the row of
    /// the record `fields`. The widths are counted in terminal columns, and missing widths are
    /// appended. `at` is the record's place, counted from 0. Returns true only if each cell of the
    /// row has at most one text line. The settings of rows and cells change neither the widths nor
    /// the result. The only error is `OutOfMemory`; some widths may then be raised.
    pub fn widen(
        &self,
        widths: &mut Vec<u16>,
        table: &Table,
        at: usize,
        fields: &Record<'_>,
    ) -> Result<bool>
        ensures each { OnOk result ((i : ℕ) → slice_index_or widths.new.items i 0
            ≡ max (slice_index_or widths.old.items i 0) (measured_at table.now
            cell_content_width (slice_get (made_by self.now at fields.now).cells i))) }
        ensures count { OnOk result (length widths.new.items
            ≡ max (length widths.old.items) (length (made_by self.now at fields.now).cells)) }
        ensures flat { IfOk result (λ is. is ≡ true → IsFlat (made_by self.now at fields.now)) }
    {
        let mut is_flat = self.widen_number(widths, table, at)?;
        let first = self.number_count();
        for (place, column) in self.selected.columns_within(fields).iter().enumerate() {
            let field = fields.get(column.position).unwrap_or("");
            let cell = field_cell(self.alloc(), field, column, self.is_aligned, &self.look)?;
            is_flat &= has_one_line(&cell);
            widen_at(widths, first + place, cell.content_width(table))?;
        }
        Ok(is_flat)
    }

    // Raises the first content width until it has room for the number of the row at the place `at`,
    // if rows are numbered. Returns true only if the number has at most one text line.
    #[inline(always)]
    fn widen_number(&self, widths: &mut Vec<u16>, table: &Table, at: usize) -> Result<bool>
        ensures each { (fields : List Text) → OnOk result ((i : ℕ)
            → slice_index_or widths.new.items i 0 ≡ max (slice_index_or widths.old.items i 0)
            (if nat_lt i (if self.now.selected.is_numbered then 1 else 0)
            then measured_at table.now cell_content_width
            (slice_get (plain_by self.now at fields).cells i) else 0)) }
        ensures count { OnOk result (length widths.new.items ≡ max (length widths.old.items)
            (if self.now.selected.is_numbered then 1 else 0)) }
        ensures flat { (fields : List Text) (cell : CellValue) (i : ℕ)
            → i < (if self.now.selected.is_numbered then 1 else 0)
            → slice_get (plain_by self.now at fields).cells i ≡ Some cell
            → IfOk result (λ is. is ≡ true → length cell.text_lines ≤ 1) }
    {
        let selected = &self.selected;
        let Some(number) = selected.number_at(at) else {
            return Ok(true);
        };
        let cell = number_cell(selected.alloc, number, &self.look)?;
        widen_at(widths, 0, cell.content_width(table))?;
        Ok(has_one_line(&cell))
    }

    /// Appends the lines of the row of the record `fields` to `text`. `at` is the record's place,
    /// counted from 0. If `is_first` is true, the top border and the header come above these lines,
    /// and otherwise the row separator. `cells` may have any content, and has the cells of the row
    /// after the call. The only error is `OutOfMemory`; `text` is then unchanged.
    pub fn push_row<'r>(
        &'r self,
        text: &mut String,
        writer: &mut RowWriter<'_>,
        cells: &mut Vec<RowCell<'r>>,
        at: usize,
        fields: &Record<'r>,
        is_first: bool,
    ) -> Result<()>
        ensures text { OnOk result (string_bytes text.new ≡ string_bytes text.old
            ++ terminated_text_of (part_of_drawing writer.old.table writer.old.infos is_first false
            (made_by self.now at fields.now ∷ []))) }
        ensures kept { writer.new ≡ writer.old }
    {
        let extent = PartEnds {
            is_first,
            is_last: false,
        };
        self.list_cells(cells, at, fields)?;
        let limit = limit_by(self.settings_at(at), &self.look);
        writer.push_cells(text, cells.as_slice(), limit, extent)
    }

    /// Returns true if the row of the record `fields` is drawn in more than one line. `at` is the
    /// record's place, counted from 0. `cells` may have any content, and has the cells of the row
    /// after the call. The only error is `OutOfMemory`.
    pub fn is_tall<'r>(
        &'r self,
        writer: &RowWriter<'_>,
        cells: &mut Vec<RowCell<'r>>,
        at: usize,
        fields: &Record<'r>,
    ) -> Result<bool>
        ensures { IfOk result (λ is. is ≡ nat_lt 1
            (row_height writer.now.table writer.now.infos (made_by self.now at fields.now))) }
    {
        self.list_cells(cells, at, fields)?;
        let limit = limit_by(self.settings_at(at), &self.look);
        let height = writer.height_of_cells(cells.as_slice(), limit)?;
        Ok(height > 1)
    }

    /// The width, in terminal columns, of the longest line that the record `fields` has in a column
    /// of the table. `position` is the index of this column, counted from 0; a column of record
    /// numbers is counted too. `at` is the record's place, counted from 0. Texts are wrapped as in
    /// the column `info`. The width is 0 if the record has no cell in this column. The only error
    /// is `OutOfMemory`.
    pub fn longest_line(
        &self,
        table: &Table,
        at: usize,
        fields: &Record<'_>,
        position: usize,
        info: &ColumnDisplayInfo,
    ) -> Result<usize>
        ensures { IfOk result (λ longest. longest ≡ greatest_at table.now
            (cell_longest_line table.now info.now) (rows_at self.now at fields.now) position) }
    {
        if self.is_expanded {
            return self.longest_in_pairs(table, fields, position, info);
        }
        let columns = self.selected.columns_within(fields);
        if position >= self.cell_count(columns) {
            return Ok(0);
        }
        let cell = self.cell_in(at, fields, columns, position)?;
        cell.longest_line(table, info)
    }

    /// The width, in terminal columns, that a column of the table needs for its cell in the row of
    /// the record `fields`. `position` is the index of the column, counted from 0; a column of
    /// record numbers is counted too. `at` is the record's place, counted from 0. The width is that
    /// of the whole cell if `is_nowrap` is true, and otherwise that of the cell's widest word. The
    /// width is 0 if the record has no cell in this column. The only error is `OutOfMemory`.
    pub fn cell_need(
        &self,
        table: &Table,
        at: usize,
        fields: &Record<'_>,
        position: usize,
        is_nowrap: bool,
    ) -> Result<usize>
        requires { self.now.is_expanded ≡ false }
        ensures { IfOk result (λ need. need ≡ greatest_at table.now (cell_need is_nowrap)
            (rows_at self.now at fields.now) position) }
    {
        let columns = self.selected.columns_within(fields);
        if position >= self.cell_count(columns) {
            return Ok(0);
        }
        let cell = self.cell_in(at, fields, columns, position)?;
        cell_need(self.alloc(), table, &cell, is_nowrap)
    }

    /// The allocator with which cells are made.
    pub(crate) fn alloc(&self) -> Global {
        let selected = &self.selected;
        selected.alloc
    }

    // The number of cells before the cells of fields: 1 if rows are numbered, else 0.
    #[inline(always)]
    fn number_count(&self) -> usize
        ensures { result ≡ (if self.now.selected.is_numbered then 1 else 0) }
    {
        let selected = &self.selected;
        usize::from(selected.is_numbered)
    }

    // The number of cells in the row of a record that has fields of these columns.
    #[inline(always)]
    fn cell_count(&self, columns: &[ColumnPlan]) -> usize
        ensures { result
            ≡ length columns.now + (if self.now.selected.is_numbered then 1 else 0) }
    {
        columns.len() + self.number_count()
    }

    // The cell at a position in the row of the record at the place `at`, without settings: its
    // number, or a field.
    #[inline(always)]
    fn cell_in<'r>(
        &'r self,
        at: usize,
        fields: &Record<'r>,
        columns: &[ColumnPlan],
        position: usize,
    ) -> Result<RowCell<'r>>
        requires columns { columns.now ≡ columns_within fields.now self.now.selected.columns }
        requires within { position
            < length columns.now + (if self.now.selected.is_numbered then 1 else 0) }
        ensures { IfOk result (λ cell. slice_get (plain_by self.now at fields.now).cells position
            ≡ Some (cell_of cell)) }
    {
        let selected = &self.selected;
        let mut place = position;
        if let Some(number) = selected.number_at(at) {
            if position == 0 {
                return number_cell(selected.alloc, number, &self.look);
            }
            place = position - 1;
        }
        let column = &columns[place];
        let field = fields.get(column.position).unwrap_or("");
        field_cell(selected.alloc, field, column, self.is_aligned, &self.look)
    }

    // The settings of the row of the record at the place `at`, if there are any.
    #[inline(always)]
    fn settings_at(&self, at: usize) -> Option<&RowSettings>
        ensures { option_map (λ row. row.now) result ≡ settings_by self.now at }
    {
        let settings = &self.settings;
        let rows = settings.of_rows();
        if at < rows.len() {
            rows.get(at + 1)
        } else {
            None
        }
    }

    // Replaces the list by the cells of the row of the record at the place `at`.
    fn list_cells<'r>(
        &'r self,
        cells: &mut Vec<RowCell<'r>>,
        at: usize,
        fields: &Record<'r>,
    ) -> Result<()>
        ensures { OnOk result (map cell_of cells.new.items
            ≡ (made_by self.now at fields.now).cells) }
    {
        cells.clear();
        let selected = &self.selected;
        if let Some(number) = selected.number_at(at) {
            cells.push(number_cell(selected.alloc, number, &self.look)?)?;
        }
        let settings = cell_settings(self.settings_at(at));
        self.push_fields(cells, fields, selected.columns_within(fields), settings)
    }

    // Appends the cells of the fields of these columns. The settings at a position are for the
    // field at this position of the record.
    #[inline(always)]
    fn push_fields<'r>(
        &'r self,
        cells: &mut Vec<RowCell<'r>>,
        fields: &Record<'r>,
        columns: &[ColumnPlan],
        settings: &[CellSettings],
    ) -> Result<()>
        ensures { OnOk result (map cell_of cells.new.items ≡ map cell_of cells.old.items
            ++ field_cells self.now.look false self.now.is_aligned settings.now columns.now
            fields.now) }
    {
        let alloc = self.alloc();
        for column in columns {
            let field = fields.get(column.position).unwrap_or("");
            let own = settings_of(settings, column.position);
            push_field(
                cells,
                alloc,
                field,
                column,
                own,
                self.is_aligned,
                &self.look,
            )?;
        }
        Ok(())
    }
}

// Returns true only if a cell has at most one text line.
#[inline(always)]
fn has_one_line(cell: &RowCell<'_>) -> bool
    ensures { result ≡ true → length (cell_of cell.now).text_lines ≤ 1 }
{
    match cell {
        RowCell::Lent(cell) => {
            // this is for the proof: the call's clause states that the cell has one line
            let _ = cell.columns();
            true
        }
        RowCell::Several(_) => false,
        RowCell::Made(cell) => cell.text_lines().len() <= 1,
    }
}

// Raises the width at a position to at least `least`. Missing widths before it become 0.
fn widen_at(widths: &mut Vec<u16>, position: usize, least: u16) -> Result<(), AllocError>
    ensures each { OnOk result ((i : ℕ) → slice_index_or widths.new.items i 0
        ≡ max (slice_index_or widths.old.items i 0) (if i == position then least else 0)) }
    ensures count { OnOk result (length widths.new.items
        ≡ max (length widths.old.items) (position + 1)) }
{
    lengthen(widths, position)?;
    if let Some(width) = widths.get_mut(position) {
        *width = (*width).max(least);
    }
    Ok(())
}

// Appends zeros until a list has a width at a position.
fn lengthen(widths: &mut Vec<u16>, position: usize) -> Result<(), AllocError>
    ensures each { OnOk result ((i : ℕ) → slice_index_or widths.new.items i 0
        ≡ slice_index_or widths.old.items i 0) }
    ensures count { OnOk result (length widths.new.items
        ≡ max (length widths.old.items) (position + 1)) }
{
    while widths.len() <= position {
        widths.push(0)?;
    }
    Ok(())
}
