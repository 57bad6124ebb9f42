//! The settings of a table of rows, as numbers.

ghost use Rattle.std.specs.Prelude.{◌≡◌, slice_get};
ghost use Rattle.comfy_c.specs.Calls.{limit_of};
ghost use Rattle.comfy_c.specs.RowCalls.{can_have, expansions, has_sides_alone, is_table_of_rows, look_for, selection_for, separators};

use crate::cells_numbers::LookNumbers;
use crate::frame::{FrameNumbers, style_for};
use crate::rows_columns::{RowsColumn, are_unset, have_sides};
use csv_tables::{Expansion, Look, Noun, RowSeparators, Selection};

/// The settings of a table that `comfy_rows_draw` draws. A flag is set if it isn't 0.
#[derive(Clone, Copy, Debug)]
#[repr(C)]
pub struct RowsSettings {
    /// The greatest number of lines of a row below the header; rows with more lines are cut. 0
    /// counts as 1, and `usize::MAX` sets no limit.
    pub max_height: usize,
    /// The greatest number of rows below the header that are drawn. `usize::MAX` draws all rows.
    pub limit: usize,
    /// The frame: a preset by its position for `presets::by_position`, 13 for `UTF8_FULL` with
    /// round corners, or `u32::MAX` for a frame of the caller's own, in the field `frame`.
    pub style: u32,
    /// The width of the table in terminal columns. Texts are wrapped so that the table isn't wider,
    /// if this width has room for its columns. A number above 65535 sets no width.
    pub width: u32,
    /// A flag: the table is made as wide as `width`, even if its texts need less. The flag has no
    /// effect if no width is set, and in a table for Markdown.
    pub fills_width: u32,
    /// The rule for the style's lines between rows: 0 draws them always, 1 only if a drawn row has
    /// more than one line, 2 never.
    pub row_lines: u32,
    /// The rule for drawing each row as a table of its own: 0 never, 1 if the width has no room for
    /// all columns, 2 always.
    pub expansion: u32,
    /// A flag: the first row is the header.
    pub has_header: u32,
    /// A flag: the header is written in bold.
    pub has_bold_header: u32,
    /// A flag: a first column `#` shows the number of each row below the header, counted from 1.
    /// Rows that are drawn as tables of their own don't have this column: the line above each of
    /// them, such as `row 1 of 2`, has the number.
    pub is_numbered: u32,
    /// A flag: the decimal points of a column of numbers are put below each other, by spaces after
    /// the column's texts. The flag has no effect in Markdown, in expanded rows (each row is a
    /// table of its own), and if the width has no room for these spaces.
    pub aligns_decimals: u32,
    /// A flag: SGR sequences in texts are written as they are, and take no terminal columns. If the
    /// flag isn't set, the ESC of each sequence is drawn as U+FFFD.
    pub has_sequences: u32,
    /// A flag: the table is for Markdown. `max_height`, `style`, `width`, `fills_width`,
    /// `row_lines`, `expansion`, `has_bold_header`, `aligns_decimals`, `has_sequences` and `frame`
    /// then have no effect. However, a number without a meaning in `style`, `row_lines` or
    /// `expansion` is still refused. `comfy_rows_draw` also refuses looks, heights, centred
    /// columns, and columns with a width or with paddings other than 1.
    pub is_markdown: u32,
    /// The caller's own frame, which is drawn if `style` is `u32::MAX`. Otherwise this field has no
    /// effect.
    pub frame: FrameNumbers,
}

impl RowsSettings {
    /// The selection of the rows that are drawn, as `csv_tables` takes it.
    pub(crate) fn selection(&self) -> Selection
        ensures { result ≡ selection_for self.now }
    {
        Selection {
            has_header: self.has_header != 0,
            limit: limit_of(self.limit),
            is_numbered: self.is_numbered != 0,
            noun: Noun::Row,
        }
    }

    /// Returns true if the number `side` of each column has a meaning, and if these settings can be
    /// combined. Looks, heights, centred columns, and columns with a width or with paddings other
    /// than 1 can't be combined with Markdown, or with rows that are or may be expanded.
    pub(crate) fn can_have(
        &self,
        looks: &[LookNumbers],
        heights: &[usize],
        columns: &[RowsColumn],
    ) -> bool
        ensures { result ≡ can_have self.now looks.now heights.now columns.now }
    {
        have_sides(columns) && (has_sides_alone(looks, heights, columns) || self.is_table_of_rows())
    }

    // Returns true if rows are drawn as one table that isn't for Markdown, whatever the width.
    fn is_table_of_rows(&self) -> bool
        ensures { result ≡ is_table_of_rows self.now }
    {
        self.expansion == 0 && self.is_markdown == 0
    }

    /// The look of the table: its frame, its width, and the way in which rows are drawn. `None` if
    /// `style`, `row_lines` or `expansion` has no meaning.
    pub(crate) fn look(&self) -> Option<Look>
        ensures { result ≡ look_for self.now }
    {
        Some(Look {
            style: style_for(self.style, &self.frame)?,
            separators: separators_at(self.row_lines)?,
            expansion: expansion_at(self.expansion)?,
            width: u16::try_from(self.width).ok(),
            fills_width: self.fills_width != 0,
            max_height: limit_of(self.max_height),
            has_bold_header: self.has_bold_header != 0,
            aligns_decimals: self.aligns_decimals != 0,
            has_sequences: self.has_sequences != 0,
            is_markdown: self.is_markdown != 0,
        })
    }
}

// Returns true if there are no looks and no heights, and no column is centred or has a width or
// paddings other than 1.
fn has_sides_alone(looks: &[LookNumbers], heights: &[usize], columns: &[RowsColumn]) -> bool
    ensures { result ≡ has_sides_alone looks.now heights.now columns.now }
{
    looks.is_empty() && heights.is_empty() && are_unset(columns)
}

/// The rule for lines between rows that a number means; `None` if the number has no meaning.
pub(crate) fn separators_at(number: u32) -> Option<RowSeparators>
    ensures { result ≡ slice_get separators number }
{
    match number {
        0 => Some(RowSeparators::Styled),
        1 => Some(RowSeparators::Needed),
        2 => Some(RowSeparators::Never),
        _ => None,
    }
}

/// The rule for expanding rows that a number means; `None` if the number has no meaning.
pub(crate) fn expansion_at(number: u32) -> Option<Expansion>
    ensures { result ≡ slice_get expansions number }
{
    match number {
        0 => Some(Expansion::Never),
        1 => Some(Expansion::Auto),
        2 => Some(Expansion::Always),
        _ => None,
    }
}

/// The limit that a number means; `None` for `usize::MAX`, which sets no limit.
pub(crate) fn limit_of(number: usize) -> Option<usize>
    ensures { result ≡ limit_of number }
{
    (number != usize::MAX).then_some(number)
}
