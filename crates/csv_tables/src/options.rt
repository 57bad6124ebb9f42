//! Settings that a caller may choose for the drawing of records.

use crate::selection::{Columns, Selection};
use comfy_parts::style::{CellAlignment, TableStyle};
use csv_records::Points;

/// The choice of the records and columns that are drawn, and the look of the drawing. The records
/// themselves aren't part of a `Layout`.
#[derive(Debug)]
pub struct Layout {
    /// The selection of the header and of the records that are drawn.
    pub selection: Selection,
    /// The columns that are drawn, and their alignment.
    pub columns: Columns,
    /// The look of the drawing: its frame, its width, and the way in which texts are drawn.
    pub look: Look,
}

impl Drop for Layout {
    fn drop(self) {
        let Layout {
            selection: _,
            columns: _,
            look: _,
        } = self;
    }
}

/// The look of a drawing of records: its frame, its width, and the way in which texts are drawn.
#[derive(Clone, Copy, Debug)]
pub struct Look {
    /// The characters of the frame, and of the lines between rows and columns.
    pub style: TableStyle,
    /// The rule that decides whether lines between rows are drawn.
    pub separators: RowSeparators,
    /// The rule that decides whether records are expanded. Each expanded record is drawn as a table
    /// of its own, with one row for each drawn field: the name of the column, and the field.
    pub expansion: Expansion,
    /// The greatest width of the table, in terminal columns. `None` sets no width. If the width has
    /// no room for the frame, the paddings and one terminal column for each column, the table is
    /// wider.
    pub width: Option<u16>,
    /// True if the table is made as wide as `width`, even if its texts need less. The flag has no
    /// effect if `width` is `None`.
    pub fills_width: bool,
    /// The greatest number of lines of a row below the header. Longer rows are cut. `None` sets no
    /// limit, and 0 counts as 1.
    pub max_height: Option<usize>,
    /// True if the header is written in bold.
    pub has_bold_header: bool,
    /// True if the decimal points of a column of numbers are put below each other, by spaces after
    /// the column's fields. The flag has no effect in Markdown, in expanded records, and if the
    /// width has no room for these spaces.
    pub aligns_decimals: bool,
    /// True if SGR sequences in fields are written as they are, and take no terminal columns. If
    /// false, the ESC of each sequence is drawn as U+FFFD.
    pub has_sequences: bool,
    /// True if the table is for Markdown. Each record is then one line in Markdown's frame,
    /// whatever `style`, `width` and `max_height` are. Nothing is bold or expanded. The ESC of SGR
    /// sequences is drawn as U+FFFD.
    pub is_markdown: bool,
}

/// A rule that decides whether the lines that a style has between rows are drawn.
#[derive(Clone, Copy, Debug, PartialEq, Eq)]
pub enum RowSeparators {
    /// Lines are drawn if the style has them, also between the fields of expanded records.
    Styled,
    /// Lines are drawn if the style has them and a drawn row has more than one line. No lines are
    /// drawn between the fields of expanded records.
    Needed,
    /// No lines are drawn between rows.
    Never,
}

/// A rule that decides whether records are *expanded*. Each expanded record is drawn as a table of
/// its own, with one row for each drawn field: the name of the column, and the field.
#[derive(Clone, Copy, Debug, PartialEq, Eq)]
pub enum Expansion {
    /// Records are expanded if a width is set that has no room for a table with a row for each
    /// record. In such a table, each column needs its content, or as much of it as the longest word
    /// of its name takes. This word counts as at least 8 and at most 20 terminal columns. It counts
    /// as 8 if `max_height` allows only one line. A column of numbers and dates also needs its
    /// widest field. There is always room if no record is drawn.
    Auto,
    /// Records are always expanded.
    Always,
    /// Records are never expanded.
    Never,
}

/// The plan of a column that is drawn: the position of its fields in the records, and the way in
/// which the fields are aligned and wrapped.
#[derive(Clone, Copy, Debug)]
pub struct ColumnPlan {
    /// The position of the column's field in each record, counted from 0.
    pub position: usize,
    /// The alignment of the column's cells. With `None`, a cell is left-aligned, unless the
    /// settings of the cell set an alignment.
    pub alignment: Option<CellAlignment>,
    /// The decimal mark of the column and the length of its longest fraction, with which decimal
    /// marks can be put below each other. `None` if the column isn't right-aligned, or has no
    /// decimal mark.
    pub points: Option<Points>,
    /// True if each drawn field of the column is a number, a date or a time of at most 25
    /// characters, or a time stamp of at most 35. A field of at most 25 characters may also be
    /// neutral (`csv_records::is_neutral`): empty, a dash, or a word such as `n/a`. Fields of such
    /// a column aren't broken over lines if the width has room for them.
    pub is_nowrap: bool,
}
