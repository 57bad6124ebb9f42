//! The lines of cells, aligned and padded in their columns.

ghost use Rattle.std.specs.Prelude.{◌≡◌, ◌+◌, ◌-◌, ◌^◌, ◌≤◌, ◌++◌, [], IfOk, None, OnOk, false, string_bytes, unwrap_or};
ghost use Rattle.comfy_parts.specs.Text.{spaces};
ghost use Rattle.comfy_parts.specs.declared.style.cell.CellAlignment.TheVariants.{Left};
ghost use Rattle.comfy_table.specs.DrawnCells.{piece_with, styles_of};
ghost use Rattle.comfy_table.specs.Gaps.{spaced};
ghost use Rattle.comfy_table.specs.Pieces.{blank_piece, cell_alignment, free_before};
ghost use Rattle.comfy_table.specs.RowCells.{cell_in};
ghost use Rattle.comfy_table.specs.Styling.{styled};
ghost use Rattle.comfy_table.specs.TextStyles.{styling};

use crate::table::Table;
use crate::utils::formatting::gap::{Gap, push_spaces};
use crate::utils::formatting::row_cell::CellSource;
use crate::utils::formatting::styling::{push_style_begin, push_style_end};
use crate::utils::formatting::text_style::TextStyle;
use comfy_parts::Result;
use comfy_parts::content_split::ColumnDisplayInfo;
use comfy_parts::style::CellAlignment;
use std::marker::Model;

/// The places where a table writes the colours and attributes of its cells.
#[derive(Clone, Copy)]
pub enum Styles {
    /// No colours and attributes are written.
    Nowhere,
    /// Colours and attributes are written around the text of each piece, without paddings and
    /// spaces.
    RoundTexts,
    /// Colours and attributes are written around each whole piece, with its paddings and spaces.
    RoundPieces,
}

impl Styles {
    /// The places where a table writes the colours and attributes of its cells. The value is
    /// `Nowhere` if `Table::should_style` returns false.
    pub fn of(table: &Table) -> Styles
        ensures { result ≡ styles_of table.now }
    {
        if !table.should_style() {
            return Styles::Nowhere;
        }
        if table.style_text_only {
            Styles::RoundTexts
        } else {
            Styles::RoundPieces
        }
    }
}

/// A line of a cell in its column: a text between spaces. If colours and attributes are written,
/// they surround the whole piece or only the text.
#[derive(Drop)]
pub struct Piece<'a> {
    left: usize,
    text: &'a str,
    // a second text directly after the first
    end: &'a str,
    right: usize,
    // the cell whose styles are written, and the spaces between the styles and the text
    styles: Option<(CellSource<'a>, (usize, usize))>,
}

impl<'a> Model for Piece<'a> {
    ghost use Rattle.std.specs.Prelude.{◌++◌, option_map};
    ghost use Rattle.comfy_parts.specs.Text.{Text};
    ghost use Rattle.comfy_table.specs.Gaps.{spaced, styled_text};
    ghost use Rattle.comfy_table.specs.RowCells.{cell_in};

    ghost Value = { Text };

    ghost view = { λ p. spaced (p.left, p.right)
        (styled_text (option_map (λ s. (cell_in s.0, s.1)) p.styles)
        (p.text.now ++ p.end.now)) };
}

impl<'a> Piece<'a> {
    /// The piece of a line of `cell` in the column of `info`. The line is written as the texts
    /// `text` and `end`, one directly after the other, and is aligned as a line that takes
    /// `columns` terminal columns. `styles` says where colours and attributes are written.
    #[inline(always)]
    pub fn new(
        styles: Styles,
        cell: CellSource<'a>,
        info: &ColumnDisplayInfo,
        columns: usize,
        text: &'a str,
        end: &'a str,
    ) -> Piece<'a>
        ensures { result ≡ piece_with styles (cell_in cell.entry) info.now
            (record { columns = columns; written = text.now ++ end.now }) }
    {
        let (left, right) = spaces_around(cell.alignment(), info, columns);
        match styles {
            Styles::RoundTexts if cell.has_style() => Piece {
                left,
                text,
                end,
                right,
                styles: Some((cell, (0, 0))),
            },
            Styles::RoundPieces if cell.has_style() => Piece {
                left: 0,
                text,
                end,
                right: 0,
                styles: Some((cell, (left, right))),
            },
            _ => Piece {
                left,
                text,
                end,
                right,
                styles: None,
            },
        }
    }

    /// A piece of a text with `left` spaces before it and `right` spaces after it, without colours
    /// and attributes.
    pub fn bare(left: usize, text: &'a str, right: usize) -> Piece<'a>
        ensures { result ≡ spaced (left, right) text.now }
    {
        Piece {
            left,
            text,
            end: "",
            right,
            styles: None,
        }
    }

    /// A piece of spaces alone, as wide as the column, for a line of a row in which the column has
    /// no text.
    pub fn blank(info: &ColumnDisplayInfo) -> Piece<'a>
        ensures { result ≡ blank_piece info.now }
    {
        Piece::bare(info.width(), "", 0)
    }

    /// Appends `free` spaces, the border of `gap`, and the piece to `line`, but leaves out the
    /// spaces after the piece's text. Returns the number of spaces that are left out: pass it as
    /// `free` to the next call, which appends them. Spaces that belong to the text, and spaces in
    /// colours and attributes, aren't left out. The only error is `OutOfMemory`; `line` may then
    /// have a part of these texts.
    #[inline(always)]
    pub fn push(&self, line: &mut String, gap: &Gap, free: usize) -> Result<usize>
        ensures { IfOk result (λ right. string_bytes line.new ++ spaces right
            ≡ string_bytes line.old ++ (spaces free ++ (gap.now ++ self.now))) }
    {
        if let Some((cell, beside)) = self.styles {
            gap.push(line, free, self.left)?;
            push_styled(line, self.text, self.end, &cell.style(), beside)?;
            return Ok(self.right);
        }
        gap.push(line, free, self.left)?;
        line.push_str(self.text)?;
        if !self.end.is_empty() {
            line.push_str(self.end)?;
        }
        Ok(self.right)
    }
}

// Appends two texts between spaces, in styles. Most tables have no styles.
#[inline(never)]
fn push_styled(
    line: &mut String,
    text: &str,
    end: &str,
    style: &TextStyle<'_>,
    beside: (usize, usize),
) -> Result<()>
    ensures { OnOk result (string_bytes line.new
        ≡ string_bytes line.old
        ++ styled (styling style.now) (spaced beside (text.now ++ end.now))) }
{
    let (left, right) = beside;
    push_style_begin(line, style)?;
    push_spaces(line, left)?;
    line.push_str(text)?;
    line.push_str(end)?;
    push_spaces(line, right)?;
    push_style_end(line, style)
}

/// The numbers of spaces before and after a line of `width` terminal columns, in this order. They
/// are the paddings and the terminal columns that the line leaves free. A line that is wider than
/// the column leaves none free. The alignment is that of the cell (`own`), or else that of the
/// column, or else left.
pub fn spaces_around(
    own: Option<CellAlignment>,
    info: &ColumnDisplayInfo,
    width: usize,
) -> (usize, usize)
    ensures left { result.0 ≡ info.now.padding.0 + free_before
        (unwrap_or own (unwrap_or info.now.alignment Left)) (info.now.content_width - width) }
    ensures right { result.1 ≡ info.now.content_width - width - free_before
        (unwrap_or own (unwrap_or info.now.alignment Left)) (info.now.content_width - width)
        + info.now.padding.1 }
    ensures bound { result.1 + info.now.content_width ≤ 2 ^ 20 }
{
    let free = (info.content_width as usize).saturating_sub(width);
    let before = free_before(alignment_in(own, info), free);
    let (left, right) = info.padding;
    (left as usize + before, free - before + right as usize)
}

// The cell's alignment, or else the column's, or else left.
fn alignment_in(own: Option<CellAlignment>, info: &ColumnDisplayInfo) -> CellAlignment
    ensures { result ≡ unwrap_or own (unwrap_or info.now.alignment Left) }
{
    match own {
        Some(alignment) => alignment,
        None => info.cell_alignment.unwrap_or(CellAlignment::Left),
    }
}

// The part of the free terminal columns before the line. If the line is centred, half of them,
// rounded up.
fn free_before(alignment: CellAlignment, free: usize) -> usize
    ensures value { result ≡ free_before alignment free }
    ensures bound { result ≤ free }
{
    match alignment {
        CellAlignment::Left => 0,
        CellAlignment::Right => free,
        CellAlignment::Center => free - free / 2,
    }
}
