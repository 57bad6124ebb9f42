//! The rows of expanded records: each field has a row, with the name of its column. The only error
//! of the functions is that memory runs out.

ghost use Rattle.std.specs.Prelude.{◌≡◌, ◌<◌, ◌≤◌, ◌+◌, ◌*◌, ◌++◌, ◌∷◌, [], IfOk, None, OnOk, Some, false, length, map, max, option_map, slice_get, string_bytes};
ghost use Rattle.comfy_table.specs.Drawing.{part_of_drawing, terminated_text_of};
ghost use Rattle.comfy_table.specs.LongestLine.{cell_longest_line};
ghost use Rattle.comfy_table.specs.RowCells.{cell_of};
ghost use Rattle.comfy_table.specs.TableValue.{cell_content_width, measured_cell};
ghost use Rattle.csv_tables.specs.Cells.{cell_for, pair_for};
ghost use Rattle.csv_tables.specs.Columns.{name_or_number};
ghost use Rattle.csv_tables.specs.Contents.{greatest_at, measured_at, pairs_by};
ghost use Rattle.csv_tables.specs.LazyRows.{AreNamed, name_cell, names_width, pair_in};
ghost use Rattle.csv_tables.specs.NoWrap.{cell_nowrap_width};
ghost use Rattle.csv_tables.specs.declared.options.ColumnPlan.{ColumnPlan};

use crate::cells::{name_cell, push_name, push_text, row_cell};
use crate::nowrap::cell_nowrap_width;
use crate::options::ColumnPlan;
use crate::rows::RecordRows;
use comfy_parts::content_split::ColumnDisplayInfo;
use comfy_table::for_records::RowCell;
use comfy_table::{PartEnds, Result, RowWriter, Table};
use csv_records::Record;

impl RecordRows {
    /// The content width of the widest drawn field of the expanded record `fields`, in terminal
    /// columns. The width is 0 if the record has no drawn field. The only error is `OutOfMemory`.
    pub fn field_width(&self, table: &Table, fields: &Record<'_>) -> Result<u16>
        ensures { IfOk result (λ width. width
            ≡ greatest_at table.now cell_content_width (pairs_by self.now fields.now) 1) }
    {
        let mut widest = 0;
        for column in self.selected.columns_within(fields) {
            if let Some(field) = fields.get(column.position) {
                widest = self.width_of_field(table, field)?.max(widest);
            }
        }
        Ok(widest)
    }

    // The content width of a field of an expanded record, in terminal columns.
    #[inline(always)]
    fn width_of_field(&self, table: &Table, field: &str) -> Result<u16>
        ensures { IfOk result (λ width. width ≡ cell_content_width
            (measured_cell table.now (cell_for self.now.look None field.now))) }
    {
        let cell = row_cell(self.alloc(), field, 0, None, false, &self.look)?;
        Ok(cell.content_width(table))
    }

    /// The content width of the widest column name in the rows of an expanded record that has
    /// `count` fields, in terminal columns. A column without a name is named by its number. The
    /// width is 0 if no column that is drawn is among the first `count` columns. The only error is
    /// `OutOfMemory`.
    pub fn name_width(&self, table: &Table, count: usize) -> Result<u16>
        ensures { IfOk result (λ width. width ≡ names_width table.now self.now count) }
    {
        let names = self.selected.names_or_blank();
        let mut widest = 0;
        for column in &self.selected.columns {
            if column.position < count {
                let position = column.position;
                let cell = name_cell(self.alloc(), names.get(position), position, &self.look)?;
                widest = cell.content_width(table).max(widest);
            }
        }
        Ok(widest)
    }

    // Appends cells to a list until it has a name and a field for each column up to the one at a
    // place. Two cells in the list belong to each column.
    #[inline(always)]
    fn list_names<'r>(&'r self, cells: &mut Vec<RowCell<'r>>, place: usize) -> Result<()>
        requires named { AreNamed self.now (map cell_of cells.old.items) }
        requires place { place < length self.now.selected.columns }
        ensures named { OnOk result (AreNamed self.now (map cell_of cells.new.items)) }
        ensures there { OnOk result (2 * place + 1 < length cells.new.items) }
    {
        let listed = cells.len() / 2;
        if listed > place {
            return Ok(());
        }
        self.push_names(cells, listed, place)
    }

    // Appends a name and an empty field for each column from the place `first` to the place `last`.
    #[inline(never)]
    fn push_names<'r>(
        &'r self,
        cells: &mut Vec<RowCell<'r>>,
        first: usize,
        last: usize,
    ) -> Result<()>
        requires named { AreNamed self.now (map cell_of cells.old.items) }
        requires first { length cells.old.items ≡ 2 * first }
        requires places { (first ≤ last) × (last < length self.now.selected.columns) }
        ensures named { OnOk result (AreNamed self.now (map cell_of cells.new.items)) }
        ensures count { OnOk result (length cells.new.items ≡ 2 * (last + 1)) }
    {
        let columns = self.selected.columns.as_slice();
        for place in first..last + 1 {
            self.push_pair_of(cells, &columns[place])?;
        }
        Ok(())
    }

    // Appends the name of a column, and an empty cell for its field.
    #[inline(always)]
    fn push_pair_of<'r>(&'r self, cells: &mut Vec<RowCell<'r>>, column: &ColumnPlan) -> Result<()>
        ensures { OnOk result (map cell_of cells.new.items ≡ map cell_of cells.old.items
            ++ name_cell self.now column.now ∷ cell_for self.now.look None [] ∷ []) }
    {
        let names = self.selected.names_or_blank();
        let position = column.position;
        let name = names.get(position);
        push_name(cells, self.alloc(), name, position, &self.look)?;
        push_text(cells, self.alloc(), "", 0, None, false, &self.look)
    }

    /// Appends the row of one field of an expanded record to `text`: the name of the column, and
    /// the field. `place` is the column's place among the drawn columns, counted from 0. If
    /// `is_first` is true, the top border comes before the row, and otherwise the row separator.
    /// Pass an empty list `cells` first, and then the same list again: it keeps the cells of the
    /// names. The only error is `OutOfMemory`; `text` is then unchanged.
    pub fn push_pair<'r>(
        &'r self,
        text: &mut String,
        writer: &mut RowWriter<'_>,
        cells: &mut Vec<RowCell<'r>>,
        place: usize,
        field: &'r str,
        is_first: bool,
    ) -> Result<()>
        requires named { AreNamed self.now (map cell_of cells.old.items) }
        requires place { place < length self.now.selected.columns }
        ensures text { (column : ColumnPlan)
            → slice_get self.now.selected.columns place ≡ Some column
            → OnOk result (string_bytes text.new ≡ string_bytes text.old
            ++ terminated_text_of (part_of_drawing writer.old.table writer.old.infos is_first false
            (pair_in self.now column field.now ∷ []))) }
        ensures kept { writer.new ≡ writer.old }
        ensures named { OnOk result (AreNamed self.now (map cell_of cells.new.items)) }
    {
        self.list_names(cells, place)?;
        let name = 2 * place;
        cells[name + 1] = row_cell(self.alloc(), field, 0, None, false, &self.look)?;
        let extent = PartEnds {
            is_first,
            is_last: false,
        };
        let pair = &cells[name..name + 2];
        writer.push_cells(text, pair, self.look.max_height, extent)
    }

    /// The width, in terminal columns, of the widest number or date in the drawn fields of the
    /// record `fields`. A text line counts if `is_nowrap` is true for it, and if it takes at most
    /// `room` terminal columns. The width is 0 if there is no such text line. The only error is
    /// `OutOfMemory`.
    pub fn nowrap_width(&self, table: &Table, fields: &Record<'_>, room: u16) -> Result<u16>
        ensures value { IfOk result (λ width. width ≡ greatest_at table.now
            (cell_nowrap_width room) (pairs_by self.now fields.now) 1) }
        ensures within { IfOk result (λ width. width ≤ room) }
    {
        let mut widest = 0;
        for column in self.selected.columns_within(fields) {
            if let Some(field) = fields.get(column.position) {
                widest = self.nowrap_width_of(table, field, room)?.max(widest);
            }
        }
        Ok(widest)
    }

    // The width of the widest number or date, in terminal columns, among the lines of a field that
    // take at most `room` terminal columns; 0 if there is none.
    fn nowrap_width_of(&self, table: &Table, field: &str, room: u16) -> Result<u16>
        ensures value { IfOk result (λ width. width ≡ cell_nowrap_width room
            (measured_cell table.now (cell_for self.now.look None field.now))) }
        ensures within { IfOk result (λ width. width ≤ room) }
    {
        let cell = row_cell(self.alloc(), field, 0, None, false, &self.look)?;
        cell_nowrap_width(self.alloc(), table, &cell, room)
    }

    /// The width, in terminal columns, of the longest line in a column of the table of the expanded
    /// record `fields`. If `position` is 0, this is the column of names, and if it is 1, the column
    /// of fields. Texts are wrapped as in the column `info`. The width is 0 for any other
    /// `position`, or if the record has no drawn field. The only error is `OutOfMemory`.
    pub fn longest_in_pairs(
        &self,
        table: &Table,
        fields: &Record<'_>,
        position: usize,
        info: &ColumnDisplayInfo,
    ) -> Result<usize>
        ensures { IfOk result (λ longest. longest ≡ greatest_at table.now
            (cell_longest_line table.now info.now) (pairs_by self.now fields.now) position) }
    {
        let names = self.selected.names_or_blank();
        let mut longest = 0;
        for column in self.selected.columns_within(fields) {
            if let Some(field) = fields.get(column.position) {
                let name = names.get(column.position);
                longest = self
                    .longest_of_pair(table, column.position, name, field, position, info)?
                    .max(longest);
            }
        }
        Ok(longest)
    }

    // The width of the longest line of the cell at a position in the row of a field, in terminal
    // columns; 0 if there is no such cell.
    fn longest_of_pair(
        &self,
        table: &Table,
        column: usize,
        name: Option<&str>,
        field: &str,
        position: usize,
        info: &ColumnDisplayInfo,
    ) -> Result<usize>
        ensures { IfOk result (λ longest. longest ≡ measured_at table.now
            (cell_longest_line table.now info.now) (slice_get (pair_for self.now.look
            (name_or_number (option_map (λ s. s.now) name.entry) column) field.now).cells
            position)) }
    {
        if position < 2 {
            let cell = self.cell_of_pair(column, name, field, position)?;
            cell.longest_line(table, info)
        } else {
            Ok(0)
        }
    }

    // The cell at a position of the row of one field: the name of its column, or the field.
    fn cell_of_pair<'r>(
        &'r self,
        column: usize,
        name: Option<&'r str>,
        field: &'r str,
        position: usize,
    ) -> Result<RowCell<'r>>
        requires { position < 2 }
        ensures { IfOk result (λ cell. slice_get (pair_for self.now.look
            (name_or_number (option_map (λ s. s.now) name.entry) column) field.now).cells position
            ≡ Some (cell_of cell)) }
    {
        if position == 0 {
            name_cell(self.alloc(), name, column, &self.look)
        } else {
            row_cell(self.alloc(), field, 0, None, false, &self.look)
        }
    }
}
