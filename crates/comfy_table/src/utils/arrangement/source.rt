//! Tables whose rows may be stored outside of the `Table`, and the measurements from which the
//! widths of columns are found.

ghost use Rattle.std.specs.Prelude.{◌≡◌, ◌≤◌, IfOk};
ghost use Rattle.comfy_table.specs.Lines.{longest_line};
ghost use Rattle.comfy_table.specs.TableValue.{TableValue, column_content_width, with_other_rows};

use crate::table::Table;
use crate::table::content::column_content_width;
use crate::utils::arrangement::longest::column_longest_line;
use comfy_parts::Result;
use comfy_parts::content_split::ColumnDisplayInfo;

/// A table whose rows may be stored outside of the `Table`, with the measurements from which the
/// widths of its columns are found.
pub trait TableSource: Drop {
    /// The table with all of its rows.
    ghost whole: { Self → TableValue };

    /// A `Table` that has the settings, the columns and the header of the whole table. Rows of this
    /// `Table` are ignored.
    fn table(&self) -> &Table
        ensures { with_other_rows (whole self.now).rows result.now ≡ whole self.now };

    /// The content width of the column at position `position`, counted from 0: the width of the
    /// widest text line in its cells and header, in terminal columns. Each cell counts at least 1
    /// and at most 65535, and a column without cells gives 0. The only error is `OutOfMemory`.
    fn content_width(&self, position: usize) -> Result<u16>
        ensures { IfOk result (λ width. width ≡ column_content_width (whole self.now) position) };

    /// The width of the widest line in the column at position `position`, in terminal columns, if
    /// its cells and its header are wrapped for the content width of `info`. The delimiter of a
    /// cell is its own, or else that of `info`, or else that of the table. Greatest heights of rows
    /// aren't applied. If this width is above `limit`, the result may be less than this width, but
    /// is above `limit` too. The only error is `OutOfMemory`.
    fn longest_line(&self, position: usize, info: &ColumnDisplayInfo, limit: usize) -> Result<usize>
        ensures at_most { IfOk result (λ longest. longest
            ≤ longest_line (whole self.now) position info.now.delimiter info.now.content_width) }
        ensures exact { IfOk result (λ longest. longest ≤ limit
            → longest ≡ longest_line (whole self.now) position info.now.delimiter
            info.now.content_width) };
}

impl TableSource for Table {
    ghost whole = { λ table. table };

    fn table(&self) -> &Table {
        self
    }

    fn content_width(&self, position: usize) -> Result<u16> {
        Ok(column_content_width(self, position))
    }

    fn longest_line(
        &self,
        position: usize,
        info: &ColumnDisplayInfo,
        limit: usize,
    ) -> Result<usize> {
        Ok(column_longest_line(self, position, info, limit))
    }
}

/// A reference to a table source is a table source too.
impl<C: TableSource> TableSource for &C {
    ghost whole = { λ contents. C.whole contents.now };

    fn table(&self) -> &Table {
        (**self).table()
    }

    fn content_width(&self, position: usize) -> Result<u16> {
        (**self).content_width(position)
    }

    fn longest_line(
        &self,
        position: usize,
        info: &ColumnDisplayInfo,
        limit: usize,
    ) -> Result<usize> {
        (**self).longest_line(position, info, limit)
    }
}
