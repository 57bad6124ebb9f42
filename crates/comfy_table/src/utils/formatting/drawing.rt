//! Draws the lines of a table in their order.

ghost use Rattle.std.specs.Prelude.{◌≡◌, ◌<◌, ◌≤◌, ◌-◌, ◌∷◌, [], IfOk, OnErr, OnOk, Some, if◌then◌else◌, length, map, string_bytes, option_to_list};
ghost use Rattle.std.specs.List.{range_with_len};
ghost use Rattle.comfy_table.specs.DrawnCells.{filled, piece_at};
ghost use Rattle.comfy_table.specs.Drawing.{drawn_header, drawn_row, drawn_rows, further_rows, lines_above, outer_widths, part_of_drawing, rows_below};
ghost use Rattle.comfy_table.specs.Gaps.{frame_of, gap_line, row_between};
ghost use Rattle.comfy_table.specs.Frame.{optional_frame_line};
ghost use Rattle.comfy_table.specs.Output.{BeginsWith, with_lines};
ghost use Rattle.comfy_table.specs.Pieces.{row_height, shown_infos};
ghost use Rattle.comfy_table.specs.RowCells.{cell_of, row_in, row_with};

use crate::table::Table;
use crate::utils::formatting::borders::{optional_frame_line, room_for};
use crate::utils::formatting::drawn_cell::row_height;
use crate::utils::formatting::frame_lines::FrameLines;
use crate::utils::formatting::output::Output;
use crate::utils::formatting::row_cell::{RowCell, RowSource};
use crate::utils::formatting::row_cursor::RowCursor;
use crate::utils::formatting::row_gaps::RowGaps;
use crate::utils::formatting::shown_column::{ShownColumn, shown_infos};
use comfy_parts::content_split::ColumnDisplayInfo;
use comfy_parts::{Result, Row};
use std::marker::Model;

/// The ends of a part of a table: whether the part includes the first and the last row of the
/// table. A part is some rows of the table, one after another.
#[derive(Clone, Copy)]
pub struct PartEnds {
    /// True if the rows of the part include the first row of the table. The top border and the
    /// header are then drawn above the first row.
    pub is_first: bool,
    /// True if the rows of the part include the last row of the table. The bottom border is then
    /// drawn below the last row.
    pub is_last: bool,
}

impl PartEnds {
    /// The ends of the part that has all rows of the table. This part is drawn with the top border,
    /// the header and the bottom border.
    pub const WHOLE: PartEnds = PartEnds {
        is_first: true,
        is_last: true,
    };
}

/// A writer that draws the rows of a table and the lines around them, line by line.
#[derive(Drop)]
pub struct Writer<'a> {
    table: &'a Table,
    infos: &'a [ColumnDisplayInfo],
    frame: &'a FrameLines,
    columns: Vec<ShownColumn<'a>>,
    // the line that is being drawn
    line: String,
}

impl<'a> Model for Writer<'a> {
    ghost use Rattle.std.specs.Prelude.{◌≡◌};
    ghost use Rattle.comfy_table.specs.Drawing.{outer_widths};
    ghost use Rattle.comfy_table.specs.Gaps.{frame_of};
    ghost use Rattle.comfy_table.specs.Parts.{ArrangedValue};
    ghost use Rattle.comfy_table.specs.Pieces.{shown_infos};

    ghost Value = { ArrangedValue };

    ghost invariant = { λ w. (w.columns.items ≡ shown_infos w.infos.now)
        × (w.frame.now ≡ frame_of w.table.now.style (outer_widths w.infos.now)) };

    ghost view = { λ w. record { table = w.table.now; infos = w.infos.now } };
}

impl<'a> Writer<'a> {
    /// A writer of `table`, with the frame lines and gaps in `frame`. `infos` has the width and
    /// settings of each column, hidden ones included. The only error is `OutOfMemory`.
    pub fn new(
        table: &'a Table,
        infos: &'a [ColumnDisplayInfo],
        frame: &'a FrameLines,
    ) -> Result<Writer<'a>>
        requires { frame.now ≡ frame_of table.now.style (outer_widths infos.now) }
        ensures { IfOk result (λ writer. writer
            ≡ record { table = table.now; infos = infos.now }) }
    {
        let alloc = *table.columns.allocator();
        let columns = shown_infos(alloc, infos)?;
        let line = String::with_capacity(alloc, room_for(columns.as_slice(), ' '))?;
        Ok(Writer {
            table,
            infos,
            frame,
            columns,
            line,
        })
    }

    /// The width and settings of each column, hidden ones included, in the order of the table's
    /// columns.
    pub fn infos(&self) -> &[ColumnDisplayInfo]
        ensures { result.now ≡ self.now.infos }
    {
        self.infos
    }

    /// Appends the lines of `rows` to `output`, with the frame lines and the header that `extent`
    /// requires. After `OutOfMemory`, `output` still begins with its old content.
    pub fn draw<'r, O: Output>(
        &mut self,
        rows: &'r [Row],
        extent: PartEnds,
        output: &mut O,
    ) -> Result<()>
    where
        'a: 'r,
        ensures ok { OnOk result (O.kept output.new
            ≡ with_lines O.kept_of (part_of_drawing self.old.table self.old.infos extent.is_first
            extent.is_last rows.now) (O.kept output.old)) }
        ensures err { OnErr result (BeginsWith (O.kept output.new) (O.kept output.old)) }
        ensures kept { self.new ≡ self.old }
    {
        self.write_rows_below(rows, extent.is_first, output)?;
        self.write_below(extent.is_last, output)
    }

    /// Appends the lines of a row that consists of `cells` to `output`, with the frame lines and
    /// the header that `extent` requires. At most `limit` lines of the row are drawn. A limit of 0
    /// counts as 1, and with `None` all lines are drawn. After `OutOfMemory` the output still
    /// begins with its old content.
    #[inline(always)]
    pub fn draw_cells<'r, O: Output>(
        &mut self,
        cells: &'r [RowCell<'r>],
        limit: Option<usize>,
        extent: PartEnds,
        output: &mut O,
    ) -> Result<()>
    where
        'a: 'r,
        ensures ok { OnOk result (O.kept output.new
            ≡ with_lines O.kept_of (part_of_drawing self.old.table self.old.infos extent.is_first
            extent.is_last (row_with (map cell_of cells.now) limit ∷ [])) (O.kept output.old)) }
        ensures err { OnErr result (BeginsWith (O.kept output.new) (O.kept output.old)) }
        ensures kept { self.new ≡ self.old }
    {
        self.write_row_below(RowSource::Listed(cells, limit), extent.is_first, output)?;
        self.write_below(extent.is_last, output)
    }

    /// The number of lines, without borders, of a row that consists of `cells`, if at most `limit`
    /// lines of the row are drawn. A limit of 0 counts as 1, and with `None` all lines are drawn.
    /// Without shown columns the row has no lines. The only error is `OutOfMemory`.
    pub fn height_of_cells(&self, cells: &[RowCell<'_>], limit: Option<usize>) -> Result<usize>
        ensures { IfOk result (λ height. height ≡ row_height self.now.table self.now.infos
            (row_with (map cell_of cells.now) limit)) }
    {
        let row = RowSource::Listed(cells, limit);
        row_height(row, self.columns.as_slice(), self.table)
    }

    // Appends the lines of a row, below the top border and the header, or below another row.
    #[inline(always)]
    fn write_row_below<'r, O: Output>(
        &mut self,
        row: RowSource<'r>,
        is_first: bool,
        output: &mut O,
    ) -> Result<()>
    where
        'a: 'r,
        ensures ok { OnOk result (O.kept output.new
            ≡ with_lines O.kept_of (rows_below self.old.table self.old.infos is_first
            (row_in row.entry ∷ [])) (O.kept output.old)) }
        ensures err { OnErr result (BeginsWith (O.kept output.new) (O.kept output.old)) }
        ensures kept { self.new ≡ self.old }
    {
        let frame = self.frame;
        let table = self.table;
        let mut drawn: RowCursor<'a, 'r> = RowCursor::new(*table.columns.allocator());
        if is_first {
            self.write_above(&mut drawn, output)?;
        } else {
            push_frame_line(output, &frame.separator)?;
        }
        self.write_row(&mut drawn, &frame.gaps, row, output)
    }

    // Appends the lines of these rows, below the top border and the header, or below other rows.
    fn write_rows_below<'r, O: Output>(
        &mut self,
        rows: &'r [Row],
        is_first: bool,
        output: &mut O,
    ) -> Result<()>
    where
        'a: 'r,
        ensures ok { OnOk result (O.kept output.new
            ≡ with_lines O.kept_of (rows_below self.old.table self.old.infos is_first rows.now)
            (O.kept output.old)) }
        ensures err { OnErr result (BeginsWith (O.kept output.new) (O.kept output.old)) }
        ensures kept { self.new ≡ self.old }
    {
        let table = self.table;
        let mut drawn: RowCursor<'a, 'r> = RowCursor::new(*table.columns.allocator());
        if is_first {
            self.write_above(&mut drawn, output)?;
            self.write_rows(&mut drawn, rows, output)
        } else {
            self.write_further_rows(&mut drawn, rows, output)
        }
    }

    // Appends the bottom border, if the last row was drawn.
    fn write_below<O: Output>(&self, is_last: bool, output: &mut O) -> Result<()>
        ensures ok { OnOk result (O.kept output.new
            ≡ with_lines O.kept_of (if is_last
            then optional_frame_line self.now.table.style self.now.table.style.bottom_border
            (outer_widths self.now.infos)
            else []) (O.kept output.old)) }
        ensures err { OnErr result (BeginsWith (O.kept output.new) (O.kept output.old)) }
    {
        let frame = self.frame;
        if is_last {
            push_frame_line(output, &frame.bottom)
        } else {
            Ok(())
        }
    }

    // Appends the top border and the header.
    fn write_above<'r, O: Output>(
        &mut self,
        drawn: &mut RowCursor<'a, 'r>,
        output: &mut O,
    ) -> Result<()>
    where
        'a: 'r,
        ensures ok { OnOk result (O.kept output.new
            ≡ with_lines O.kept_of (lines_above self.old.table self.old.infos)
            (O.kept output.old)) }
        ensures err { OnErr result (BeginsWith (O.kept output.new) (O.kept output.old)) }
        ensures kept { self.new ≡ self.old }
    {
        let frame = self.frame;
        push_frame_line(output, &frame.top)?;
        self.write_header(drawn, output)
    }

    // Appends the header's lines and the header separator, if there is a header.
    fn write_header<'r, O: Output>(
        &mut self,
        drawn: &mut RowCursor<'a, 'r>,
        output: &mut O,
    ) -> Result<()>
    where
        'a: 'r,
        ensures ok { OnOk result (O.kept output.new
            ≡ with_lines O.kept_of (drawn_header self.old.table self.old.infos
            self.old.table.header) (O.kept output.old)) }
        ensures err { OnErr result (BeginsWith (O.kept output.new) (O.kept output.old)) }
        ensures kept { self.new ≡ self.old }
    {
        let table = self.table;
        match &table.header {
            Some(header) => self.write_header_lines(drawn, header, output),
            None => Ok(()),
        }
    }

    // Appends the lines of this header, and the header separator.
    fn write_header_lines<'r, O: Output>(
        &mut self,
        drawn: &mut RowCursor<'a, 'r>,
        header: &'r Row,
        output: &mut O,
    ) -> Result<()>
    where
        'a: 'r,
        ensures ok { OnOk result (O.kept output.new
            ≡ with_lines O.kept_of (drawn_header self.old.table self.old.infos (Some header.now))
            (O.kept output.old)) }
        ensures err { OnErr result (BeginsWith (O.kept output.new) (O.kept output.old)) }
        ensures kept { self.new ≡ self.old }
    {
        let table = self.table;
        let style = &table.style;
        let gaps = RowGaps::new(table, &style.header_lines)?;
        let columns = self.columns.as_slice();
        let separator = optional_frame_line(table, &style.header_separator, columns)?;
        self.write_row(drawn, &gaps, RowSource::Whole(header), output)?;
        push_frame_line(output, &separator)
    }

    // Appends the lines of these rows, with the row separator between them.
    fn write_rows<'r, O: Output>(
        &mut self,
        drawn: &mut RowCursor<'a, 'r>,
        rows: &'r [Row],
        output: &mut O,
    ) -> Result<()>
    where
        'a: 'r,
        ensures ok { OnOk result (O.kept output.new
            ≡ with_lines O.kept_of (drawn_rows self.old.table self.old.infos rows.now)
            (O.kept output.old)) }
        ensures err { OnErr result (BeginsWith (O.kept output.new) (O.kept output.old)) }
        ensures kept { self.new ≡ self.old }
    {
        let frame = self.frame;
        match rows.split_first() {
            Some((first, rest)) => {
                self.write_row(drawn, &frame.gaps, RowSource::Whole(first), output)?;
                self.write_further_rows(drawn, rest, output)
            }
            None => Ok(()),
        }
    }

    // Appends the lines of these rows, with the row separator above each of them.
    fn write_further_rows<'r, O: Output>(
        &mut self,
        drawn: &mut RowCursor<'a, 'r>,
        rows: &'r [Row],
        output: &mut O,
    ) -> Result<()>
    where
        'a: 'r,
        ensures ok { OnOk result (O.kept output.new
            ≡ with_lines O.kept_of (further_rows self.old.table self.old.infos rows.now)
            (O.kept output.old)) }
        ensures err { OnErr result (BeginsWith (O.kept output.new) (O.kept output.old)) }
        ensures kept { self.new ≡ self.old }
    {
        let frame = self.frame;
        for row in rows {
            push_frame_line(output, &frame.separator)?;
            self.write_row(drawn, &frame.gaps, RowSource::Whole(row), output)?;
        }
        Ok(())
    }

    // Appends the lines of a row, and reuses the memory of rows before it.
    fn write_row<'r, O: Output>(
        &mut self,
        drawn: &mut RowCursor<'a, 'r>,
        gaps: &RowGaps,
        row: RowSource<'r>,
        output: &mut O,
    ) -> Result<()>
    where
        'a: 'r,
        ensures ok { OnOk result (O.kept output.new
            ≡ with_lines O.kept_of
            (row_between gaps.now self.old.table self.old.infos (row_in row.entry))
            (O.kept output.old)) }
        ensures err { OnErr result (BeginsWith (O.kept output.new) (O.kept output.old)) }
        ensures kept { self.new ≡ self.old }
    {
        self.line.clear();
        let columns = self.columns.as_slice();
        let height = drawn.push_first_line(&mut self.line, gaps, row, columns, self.table)?;
        if height == 0 {
            return Ok(());
        }
        push_row(output, &mut self.line, gaps, drawn, columns, height)
    }
}

// Appends a frame line, if it is drawn.
fn push_frame_line<O: Output>(output: &mut O, line: &Option<String>) -> Result<()>
    ensures ok { OnOk result (O.kept output.new
        ≡ with_lines O.kept_of (map string_bytes (option_to_list line.now)) (O.kept output.old)) }
    ensures err { OnErr result (BeginsWith (O.kept output.new) (O.kept output.old)) }
{
    match line {
        Some(line) => output.push_line(line.as_str()),
        None => Ok(()),
    }
}

// Appends the first `height` lines of a row. The first line is in `text` already, and the others
// are drawn there.
#[inline(always)]
fn push_row<'a, O: Output>(
    output: &mut O,
    text: &mut String,
    gaps: &RowGaps,
    row: &RowCursor<'a, '_>,
    columns: &[ShownColumn<'a>],
    height: usize,
) -> Result<()>
    requires height { 0 < height }
    requires some { 0 < length columns.now }
    requires columns { length row.now ≤ length columns.now }
    ensures ok { OnOk result (O.kept output.new ≡ with_lines O.kept_of (string_bytes text.old
        ∷ map (λ k. gap_line gaps.now (map (piece_at k) (filled columns.now row.now)))
        (range_with_len 1 (height - 1))) (O.kept output.old)) }
    ensures err { OnErr result (BeginsWith (O.kept output.new) (O.kept output.old)) }
{
    output.push_line(text.as_str())?;
    for line in 1..height {
        text.clear();
        row.push_further_line(text, gaps, columns, line)?;
        output.push_line(text.as_str())?;
    }
    Ok(())
}
