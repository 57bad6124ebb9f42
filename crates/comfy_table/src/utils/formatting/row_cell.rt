//! Cells that are drawn without making a row of them.

ghost use Rattle.std.specs.Prelude.{◌≡◌, ◌≤◌, ◌++◌, ◌∷◌, [], IfOk, IfSome, None, false, map, option_map, slice_get, string_bytes, true};
ghost use Rattle.std.specs.List.{list_any};
ghost use Rattle.comfy_parts.specs.CellValue.{plain_cell};
ghost use Rattle.comfy_parts.specs.Text.{greatest, is_printable_ascii, measure, spaces};
ghost use Rattle.comfy_parts.specs.VisibleText.{has_escape};
ghost use Rattle.comfy_table.specs.RowCells.{cell_in, cell_of, row_in};
ghost use Rattle.comfy_table.specs.TableValue.{cell_content_width, measured_cell};
ghost use Rattle.comfy_table.specs.TextStyles.{style_alone, styling, text_cell};

use crate::table::Table;
use crate::table::column_cells::cell_at;
use crate::utils::formatting::gap::push_spaces;
use crate::utils::formatting::text_style::TextStyle;
use comfy_parts::content_split::{is_printable, measure_text_width};
use comfy_parts::style::CellAlignment;
use comfy_parts::{Cell, Result, Row};
use std::alloc::Global;
use std::marker::Model;

/// A borrowed text of one line, with a number of spaces after it, that is drawn as a cell. The text
/// has no escape sequence, and the cell takes no memory.
#[derive(Drop)]
pub struct TextCell<'a> {
    text: &'a str,
    // the number of spaces after the text
    after: usize,
    // the terminal columns of the text and the spaces
    columns: usize,
    alignment: Option<CellAlignment>,
    style: Option<&'a TextStyle<'a>>,
}

impl<'a> Model for TextCell<'a> {
    ghost use Rattle.std.specs.Prelude.{◌≡◌, ◌≤◌, ◌++◌, ◌∷◌, [], false, option_map};
    ghost use Rattle.comfy_parts.specs.CellValue.{CellValue, plain_cell};
    ghost use Rattle.comfy_parts.specs.Text.{measure, spaces};
    ghost use Rattle.comfy_parts.specs.VisibleText.{has_escape};
    ghost use Rattle.comfy_table.specs.TextStyles.{text_cell};

    ghost Value = { CellValue };

    ghost invariant = { λ c. ((plain_cell (c.text.now ++ spaces c.after)).text_lines
        ≡ (c.text.now ++ spaces c.after) ∷ [])
        × (has_escape (c.text.now ++ spaces c.after) ≡ false)
        × (c.columns ≡ measure (c.text.now ++ spaces c.after))
        × (c.after ≤ c.columns) };

    ghost view = { λ c. text_cell c.alignment (option_map (λ style. style.now) c.style)
        (c.text.now ++ spaces c.after) };
}

impl<'a> TextCell<'a> {
    /// The cell of a text of printable ASCII with `after` spaces after the text. The result is
    /// `None` if the text has another character, or if the length of text and spaces is above
    /// `usize::MAX`. If `alignment` is `None`, the alignment of the column applies. If `style` is
    /// `None`, no colour and no attribute is set.
    #[inline(always)]
    pub fn of_printable(
        text: &'a str,
        after: usize,
        alignment: Option<CellAlignment>,
        style: Option<&'a TextStyle<'a>>,
    ) -> Option<TextCell<'a>>
        ensures cell { IfSome result (λ cell. cell ≡ text_cell alignment
            (option_map (λ style. style.now) style.entry) (text.now ++ spaces after)) }
        ensures printable { IfSome result (λ cell. is_printable_ascii text.now ≡ true) }
    {
        if !is_printable(text.as_bytes()) {
            return None;
        }
        let columns = text.len().checked_add(after)?;
        Some(TextCell {
            text,
            after,
            columns,
            alignment,
            style,
        })
    }

    /// The cell of a text without spaces after it. The result is `None` if the text has a line feed
    /// or ESC. If `alignment` is `None`, the alignment of the column applies. If `style` is `None`,
    /// no colour and no attribute is set.
    pub fn of_line(
        text: &'a str,
        alignment: Option<CellAlignment>,
        style: Option<&'a TextStyle<'a>>,
    ) -> Option<TextCell<'a>>
        ensures { IfSome result (λ cell. cell ≡ text_cell alignment
            (option_map (λ style. style.now) style.entry) text.now) }
    {
        let bytes = text.as_bytes();
        if bytes.contains(&b'\n') || bytes.contains(&0x1B) {
            return None;
        }
        Some(TextCell {
            text,
            after: 0,
            columns: measure_text_width(text),
            alignment,
            style,
        })
    }

    /// The text, and the number of spaces after it.
    #[inline(always)]
    pub fn line(&self) -> (&'a str, usize)
        ensures line { self.now.text_lines ≡ (result.0.now ++ spaces result.1) ∷ [] }
        ensures delimiter { self.now.delimiter ≡ None }
        ensures clear { list_any has_escape self.now.text_lines ≡ false }
    {
        (self.text, self.after)
    }

    /// The text and the spaces after it, as one new text. The only error is `OutOfMemory`.
    pub fn spaced(&self, alloc: Global) -> Result<String>
        ensures { IfOk result (λ text. self.now.text_lines ≡ string_bytes text ∷ []) }
    {
        let mut spaced = String::from_str(alloc, self.text)?;
        push_spaces(&mut spaced, self.after)?;
        Ok(spaced)
    }

    /// The width of the text and the spaces after it, in terminal columns.
    #[inline(always)]
    pub fn columns(&self) -> usize
        ensures columns { map measure self.now.text_lines ≡ result ∷ [] }
        ensures clear { list_any has_escape self.now.text_lines ≡ false }
    {
        self.columns
    }

    // The alignment of the cell; `None` if it isn't set.
    #[inline(always)]
    fn alignment(&self) -> Option<CellAlignment>
        ensures { result ≡ self.now.alignment }
    {
        self.alignment
    }

    // The colours and attributes of the cell.
    fn style(&self) -> TextStyle<'a>
        ensures { styling result ≡ style_alone self.now }
    {
        match self.style {
            Some(style) => *style,
            None => TextStyle::none(),
        }
    }
}

/// A borrowed text of several lines that is drawn as a cell. The text has no ESC, so it has no
/// escape sequence, and the cell takes no memory.
#[derive(Drop)]
pub struct LinesCell<'a> {
    text: &'a str,
    // the terminal columns of the widest line
    columns: usize,
    alignment: Option<CellAlignment>,
    style: Option<&'a TextStyle<'a>>,
}

impl<'a> Model for LinesCell<'a> {
    ghost use Rattle.std.specs.Prelude.{◌≡◌, false, map, option_map};
    ghost use Rattle.std.specs.List.{list_any};
    ghost use Rattle.comfy_parts.specs.CellValue.{CellValue, plain_cell};
    ghost use Rattle.comfy_parts.specs.Text.{greatest, measure};
    ghost use Rattle.comfy_parts.specs.VisibleText.{has_escape};
    ghost use Rattle.comfy_table.specs.TextStyles.{text_cell};

    ghost Value = { CellValue };

    ghost invariant = { λ c. (list_any has_escape (plain_cell c.text.now).text_lines ≡ false)
        × (c.columns ≡ greatest (map measure (plain_cell c.text.now).text_lines)) };

    ghost view = { λ c. text_cell c.alignment (option_map (λ style. style.now) c.style)
        c.text.now };
}

impl<'a> LinesCell<'a> {
    /// The cell of a text, whose text lines are separated by its line feeds. The result is `None`
    /// if the text has ESC. If `alignment` is `None`, the alignment of the column applies. If
    /// `style` is `None`, no colour and no attribute is set.
    pub fn of_lines(
        text: &'a str,
        alignment: Option<CellAlignment>,
        style: Option<&'a TextStyle<'a>>,
    ) -> Option<LinesCell<'a>>
        ensures { IfSome result (λ cell. cell ≡ text_cell alignment
            (option_map (λ style. style.now) style.entry) text.now) }
    {
        if text.as_bytes().contains(&0x1B) {
            return None;
        }
        Some(LinesCell {
            text,
            columns: widest_line(text),
            alignment,
            style,
        })
    }

    /// The text. Its line feeds separate the text lines of the cell.
    #[inline(always)]
    pub fn text(&self) -> &'a str
        ensures lines { self.now.text_lines ≡ (plain_cell result.now).text_lines }
        ensures delimiter { self.now.delimiter ≡ None }
        ensures clear { list_any has_escape self.now.text_lines ≡ false }
    {
        self.text
    }

    // The terminal columns of the widest line.
    #[inline(always)]
    fn columns(&self) -> usize
        ensures columns { result ≡ greatest (map measure self.now.text_lines) }
        ensures clear { list_any has_escape self.now.text_lines ≡ false }
    {
        self.columns
    }

    // The alignment of the cell; `None` if it isn't set.
    #[inline(always)]
    fn alignment(&self) -> Option<CellAlignment>
        ensures { result ≡ self.now.alignment }
    {
        self.alignment
    }

    // The colours and attributes of the cell.
    fn style(&self) -> TextStyle<'a>
        ensures { styling result ≡ style_alone self.now }
    {
        match self.style {
            Some(style) => *style,
            None => TextStyle::none(),
        }
    }
}

// The terminal columns of the widest line of a text.
fn widest_line(text: &str) -> usize
    ensures { result ≡ greatest (map measure (plain_cell text.now).text_lines) }
{
    let mut widest = 0;
    for line in text.split('\n') {
        widest = measure_text_width(line).max(widest);
    }
    widest
}

/// A cell of a row that is drawn without a `Row` (`RowWriter::push_cells`).
#[derive(Drop)]
pub enum RowCell<'a> {
    /// A borrowed text of one line, without escape sequences.
    Lent(TextCell<'a>),
    /// A borrowed text of several lines, without escape sequences.
    Several(LinesCell<'a>),
    /// A `Cell`, for a text that has escape sequences, or that the program has to build first.
    Made(Box<Cell>),
}

impl<'a> RowCell<'a> {
    /// The width of the cell's widest text line, in terminal columns, at least 1 and at most 65535.
    /// If the table has `custom_styling`, SGR sequences aren't counted.
    #[inline(always)]
    pub fn content_width(&self, table: &Table) -> u16
        ensures { result ≡ cell_content_width (measured_cell table.now (cell_of self.now)) }
    {
        match self {
            RowCell::Lent(cell) => cell.columns().clamp(1, 65535) as u16,
            RowCell::Several(cell) => cell.columns().clamp(1, 65535) as u16,
            RowCell::Made(cell) => table.cell_content_width(cell),
        }
    }
}

/// A reference to a cell that is drawn: a `TextCell`, a `LinesCell` or a `Cell`.
#[derive(Clone, Copy)]
pub(crate) enum CellSource<'r> {
    Line(&'r TextCell<'r>),
    Lines(&'r LinesCell<'r>),
    Own(&'r Cell),
}

impl<'r> CellSource<'r> {
    /// The alignment of the cell; `None` if it isn't set.
    #[inline(always)]
    pub fn alignment(self) -> Option<CellAlignment>
        ensures { result ≡ (cell_in self.entry).alignment }
    {
        match self {
            CellSource::Line(cell) => cell.alignment(),
            CellSource::Lines(cell) => cell.alignment(),
            CellSource::Own(cell) => cell.cell_alignment(),
        }
    }

    /// The colours and attributes of the cell.
    pub fn style(self) -> TextStyle<'r>
        ensures { styling result ≡ style_alone (cell_in self.entry) }
    {
        match self {
            CellSource::Line(cell) => cell.style(),
            CellSource::Lines(cell) => cell.style(),
            CellSource::Own(cell) => TextStyle::of(cell),
        }
    }

    /// Returns false only if the cell has neither a colour nor an attribute.
    pub fn has_style(self) -> bool
        ensures background { result ≡ false → (cell_in self.entry).background ≡ None }
        ensures foreground { result ≡ false → (cell_in self.entry).foreground ≡ None }
        ensures attributes { result ≡ false → (cell_in self.entry).attributes ≡ [] }
    {
        let style = self.style();
        style.background.is_some() || style.foreground.is_some() || !style.attributes.is_empty()
    }
}

/// A row that is drawn: a `Row`, or some cells and the greatest number of lines that are drawn of
/// each cell.
#[derive(Clone, Copy)]
pub(crate) enum RowSource<'r> {
    Whole(&'r Row),
    Listed(&'r [RowCell<'r>], Option<usize>),
}

impl<'r> RowSource<'r> {
    /// The cell at a position, or `None` if the row has fewer cells.
    #[inline(always)]
    pub fn cell_at(self, position: usize) -> Option<CellSource<'r>>
        ensures { option_map cell_in result ≡ slice_get (row_in self.entry).cells position }
    {
        match self {
            RowSource::Whole(row) => Some(CellSource::Own(cell_at(row, position)?)),
            RowSource::Listed(cells, _) => Some(match cells.get(position)? {
                RowCell::Lent(cell) => CellSource::Line(cell),
                RowCell::Several(cell) => CellSource::Lines(cell),
                RowCell::Made(cell) => CellSource::Own(cell),
            }),
        }
    }

    /// The greatest number of lines that are drawn of each cell of the row, at least 1; `None` if
    /// all lines are drawn.
    #[inline(always)]
    pub fn height_limit(self) -> Option<usize>
        ensures limit { result ≡ (row_in self.entry).max_height }
        ensures at_least_one { IfSome result (λ lines. 1 ≤ lines) }
    {
        match self {
            RowSource::Whole(row) => row.height_limit(),
            RowSource::Listed(_, limit) => limit.map(|lines| lines.max(1)),
        }
    }
}
