//! The settings and the width that a column is drawn with.

ghost use Rattle.std.specs.Prelude.{◌≡◌};
ghost use Rattle.comfy_parts.specs.CellValue.{info_of, info_width};

use crate::column::Column;
use crate::style::CellAlignment;
use std::marker::Model;

/// The settings of a column and the width of its content, with which the cells of the column are
/// drawn.
///
/// ```
/// let info = ColumnDisplayInfo::new(&Column::new(0), 12);
/// let lines = split_line(alloc, "Now add some text", &info, ' ')?;
/// ```
#[derive(Debug, Drop)]
pub struct ColumnDisplayInfo {
    /// The paddings of the column: the numbers of free terminal columns on the left and on the
    /// right of the content, in this order.
    pub padding: (u16, u16),
    /// The character at which texts of the column's cells may break. A cell's own delimiter takes
    /// precedence. `None` if the delimiter of the table applies.
    pub delimiter: Option<char>,
    /// The width of the column without its paddings, in terminal columns.
    pub content_width: u16,
    /// The alignment of the lines in the column's cells. A cell's own alignment takes precedence.
    /// `None` if the lines are left-aligned.
    pub cell_alignment: Option<CellAlignment>,
    is_hidden: bool,
}

impl Model for ColumnDisplayInfo {
    ghost use Rattle.comfy_parts.specs.CellValue.{ColumnInfo};

    ghost Value = { ColumnInfo };

    ghost view = { λ i. record {
      padding = i.padding;
      delimiter = i.delimiter;
      alignment = i.cell_alignment;
      content_width = i.content_width;
      is_hidden = i.is_hidden;
    } };

    ghost inverse = { λ i. record {
      padding = i.padding;
      delimiter = i.delimiter;
      content_width = i.content_width;
      cell_alignment = i.alignment;
      is_hidden = i.is_hidden;
    } };
}

impl ColumnDisplayInfo {
    /// Makes a `ColumnDisplayInfo` of the settings of a column and the width of its content in
    /// terminal columns, without paddings. A width of 0 becomes 1.
    pub fn new(column: &Column, content_width: u16) -> ColumnDisplayInfo
        ensures { result ≡ info_of column.now content_width }
    {
        ColumnDisplayInfo {
            padding: column.padding(),
            delimiter: column.column_delimiter(),
            content_width: content_width.max(1),
            cell_alignment: column.column_alignment(),
            is_hidden: column.is_hidden(),
        }
    }

    /// The whole width of the column in terminal columns: the content width and both paddings.
    pub fn width(&self) -> usize
        ensures { result ≡ info_width self.now }
    {
        self.padding.0 as usize + self.content_width as usize + self.padding.1 as usize
    }

    /// Returns true if the column isn't drawn, because its constraint is `Hidden`.
    pub fn is_hidden(&self) -> bool
        ensures { result ≡ self.now.is_hidden }
    {
        self.is_hidden
    }
}
