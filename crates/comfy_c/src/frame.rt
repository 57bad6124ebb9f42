//! The frame of a table: a preset, or lines of the caller's own.

ghost use Rattle.std.specs.Prelude.{◌≡◌};
ghost use Rattle.comfy_c.specs.Frames.{content_line_with, line_with, own_style, style_at, style_for};

use crate::cells_numbers::char_of;
use comfy_parts::style::presets::{UTF8_FULL, by_position};
use comfy_parts::style::{ContentLineStyle, LineStyle, TableStyle};

/// The characters of a frame line, as code points. 0 means that there is no character. If all four
/// numbers are 0, the line isn't drawn. In a drawn line, a missing `fill` is drawn as spaces. A
/// missing `left`, `junction` or `right` is drawn as a space if another line of the frame has a
/// character there. If no line has a character there, a missing character takes no terminal column.
#[derive(Clone, Copy, Debug)]
#[repr(C)]
pub struct LineNumbers {
    /// The code point of the character at the left end of the line; 0 for none.
    pub left: u32,
    /// The code point of the character that fills the widths of the columns; 0 for none.
    pub fill: u32,
    /// The code point of the character between two columns; 0 for none.
    pub junction: u32,
    /// The code point of the character at the right end of the line; 0 for none.
    pub right: u32,
}

/// The borders in a line of texts, as code points. 0 means that there is no character. A missing
/// `left`, `junction` or `right` is drawn as a space if another line of the frame has a character
/// there. If no line has a character there, a missing character takes no terminal column. Even if
/// all three numbers are 0, the texts are drawn.
#[derive(Clone, Copy, Debug)]
#[repr(C)]
pub struct ContentLineNumbers {
    /// The code point of the left border; 0 for none.
    pub left: u32,
    /// The code point of the border between two columns; 0 for none.
    pub junction: u32,
    /// The code point of the right border; 0 for none.
    pub right: u32,
}

/// A frame of the caller's own: four frame lines, and the borders in lines of texts. A frame line
/// whose numbers are all 0 isn't drawn.
#[derive(Clone, Copy, Debug)]
#[repr(C)]
pub struct FrameNumbers {
    /// The frame line above all rows.
    pub top_border: LineNumbers,
    /// The borders in the header's lines of texts.
    pub header_lines: ContentLineNumbers,
    /// The frame line below the header.
    pub header_separator: LineNumbers,
    /// The borders in the lines of texts of the rows below the header.
    pub content_lines: ContentLineNumbers,
    /// The frame line between two rows below the header.
    pub row_separator: LineNumbers,
    /// The frame line below all rows.
    pub bottom_border: LineNumbers,
}

const ROUNDED: u32 = 13;

const OWN_STYLE: u32 = u32::MAX;

impl FrameNumbers {
    /// The `TableStyle` with the characters of this frame.
    pub(crate) fn style(&self) -> TableStyle
        ensures { result ≡ own_style self.now }
    {
        TableStyle {
            top_border: line_of(self.top_border),
            header_lines: content_line_of(self.header_lines),
            header_separator: line_of(self.header_separator),
            content_lines: content_line_of(self.content_lines),
            row_separator: line_of(self.row_separator),
            bottom_border: line_of(self.bottom_border),
        }
    }
}

/// The style that `number` means: a preset by its position for `presets::by_position`, `UTF8_FULL`
/// with round corners for 13, or `frame` for `u32::MAX`. `None` for any other number.
pub(crate) fn style_for(number: u32, frame: &FrameNumbers) -> Option<TableStyle>
    ensures { result ≡ style_for number frame.now }
{
    if number == OWN_STYLE {
        return Some(frame.style());
    }
    style_at(number)
}

fn style_at(position: u32) -> Option<TableStyle>
    ensures { result ≡ style_at position }
{
    if position == ROUNDED {
        return Some(UTF8_FULL.with_rounded_corners());
    }
    by_position(position as usize)
}

fn line_of(line: LineNumbers) -> LineStyle
    ensures { result ≡ line_with line }
{
    LineStyle {
        left: char_of(line.left),
        fill: char_of(line.fill),
        junction: char_of(line.junction),
        right: char_of(line.right),
    }
}

fn content_line_of(line: ContentLineNumbers) -> ContentLineStyle
    ensures { result ≡ content_line_with line }
{
    ContentLineStyle {
        left: char_of(line.left),
        junction: char_of(line.junction),
        right: char_of(line.right),
    }
}
