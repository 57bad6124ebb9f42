//! Drawing rows of a table one after another.

ghost use Rattle.std.specs.Prelude.{◌≡◌, ◌++◌, ◌∷◌, [], IfOk, OnErr, OnOk, map, string_bytes};
ghost use Rattle.comfy_table.specs.Drawing.{outer_widths, part_of_drawing, terminated_text_of};
ghost use Rattle.comfy_table.specs.Gaps.{frame_of};
ghost use Rattle.comfy_table.specs.Pieces.{row_height};
ghost use Rattle.comfy_table.specs.RowCells.{cell_of, row_with};

use crate::table::Table;
use crate::utils::formatting::row_cell::RowCell;
use crate::utils::formatting::{FrameLines, PartEnds, Writer};
use comfy_parts::content_split::ColumnDisplayInfo;
use comfy_parts::{Result, Row};
use std::marker::Model;

/// A writer that draws rows of a table one after another, and reuses its memory from row to row.
/// `ArrangedTable::row_writer` makes a `RowWriter`.
///
/// ```
/// let mut writer = arranged.row_writer()?;
/// writer.push_rows(&mut text, &[row], PartEnds { is_first: false, is_last: false })?;
/// ```
#[derive(Drop)]
pub struct RowWriter<'a> {
    writer: Writer<'a>,
}

impl<'a> Model for RowWriter<'a> {
    ghost use Rattle.comfy_table.specs.Parts.{ArrangedValue};

    ghost Value = { ArrangedValue };

    ghost view = { λ w. w.writer };
}

impl<'a> RowWriter<'a> {
    pub(crate) fn new(
        table: &'a Table,
        infos: &'a [ColumnDisplayInfo],
        frame: &'a FrameLines,
    ) -> Result<RowWriter<'a>>
        requires { frame.now ≡ frame_of table.now.style (outer_widths infos.now) }
        ensures { IfOk result (λ writer. writer
            ≡ record { table = table.now; infos = infos.now }) }
    {
        let writer = Writer::new(table, infos, frame)?;
        Ok(RowWriter { writer })
    }

    /// The width and settings of each column, hidden ones included, in the order of the table's
    /// columns.
    pub fn infos(&self) -> &[ColumnDisplayInfo]
        ensures { result.now ≡ self.now.infos }
    {
        self.writer.infos()
    }

    /// Appends the lines of `rows`, each followed by a line feed. If `extent.is_first` is true, the
    /// top border and the header come before the first of these rows, and the row separator before
    /// each other row. If `extent.is_first` is false, the row separator comes before each row. If
    /// `extent.is_last` is true, the bottom border comes last. The only error is `OutOfMemory`;
    /// `text` is then unchanged.
    pub fn push_rows(&mut self, text: &mut String, rows: &[Row], extent: PartEnds) -> Result<()>
        ensures ok { OnOk result (string_bytes text.new
            ≡ string_bytes text.old ++ terminated_text_of
            (part_of_drawing self.old.table self.old.infos extent.is_first extent.is_last
            rows.now)) }
        ensures err { OnErr result (string_bytes text.new ≡ string_bytes text.old) }
        ensures kept { self.new ≡ self.old }
    {
        let had = text.len();
        let drawn = self.writer.draw(rows, extent, text);
        if drawn.is_err() {
            text.truncate(had);
        }
        drawn
    }

    /// Appends the lines of a row that consists of `cells`, as `push_rows` does for one row.
    /// `extent` has the same effect as there. At most `limit` lines of the row are drawn. A limit
    /// of 0 counts as 1, and with `None` all lines are drawn. The only error is `OutOfMemory`;
    /// `text` is then unchanged.
    #[inline(always)]
    pub fn push_cells(
        &mut self,
        text: &mut String,
        cells: &[RowCell<'_>],
        limit: Option<usize>,
        extent: PartEnds,
    ) -> Result<()>
        ensures ok { OnOk result (string_bytes text.new
            ≡ string_bytes text.old ++ terminated_text_of
            (part_of_drawing self.old.table self.old.infos extent.is_first extent.is_last
            (row_with (map cell_of cells.now) limit ∷ []))) }
        ensures err { OnErr result (string_bytes text.new ≡ string_bytes text.old) }
        ensures kept { self.new ≡ self.old }
    {
        let had = text.len();
        let drawn = self.writer.draw_cells(cells, limit, extent, text);
        if drawn.is_err() {
            text.truncate(had);
        }
        drawn
    }

    /// The number of lines, without borders, of a row that consists of `cells`, if at most `limit`
    /// lines of the row are drawn. A limit of 0 counts as 1, and with `None` all lines are drawn.
    /// In a table without visible columns a row has no lines. The only error is `OutOfMemory`.
    pub fn height_of_cells(&self, cells: &[RowCell<'_>], limit: Option<usize>) -> Result<usize>
        ensures { IfOk result (λ height. height ≡ row_height self.now.table self.now.infos
            (row_with (map cell_of cells.now) limit)) }
    {
        self.writer.height_of_cells(cells, limit)
    }
}
