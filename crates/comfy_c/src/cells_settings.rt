//! The settings of a table of cells, as numbers.

ghost use Rattle.std.specs.Prelude.{◌≡◌, slice_get};
ghost use Rattle.comfy_c.specs.Numbers.{arrangements};

use crate::frame::FrameNumbers;
use comfy_parts::style::ContentArrangement;

/// The settings of a table that `comfy_cells_draw` draws. A flag is set if it isn't 0.
#[derive(Clone, Copy, Debug)]
#[repr(C)]
pub struct CellsSettings {
    /// The form of the output. With 0 the output is the lines of the table, each with a line feed
    /// after it. With 1 it is the lines without the white space at their ends, and with line feeds
    /// only between lines. With 2 it is a line for each column: the width of the column's widest
    /// text in terminal columns, in decimal.
    pub form: u32,
    /// The frame: a preset by its position for `presets::by_position`, 13 for `UTF8_FULL` with
    /// round corners, or `u32::MAX` for a frame of the caller's own, in the field `frame`.
    pub style: u32,
    /// The rule by which columns get their widths, a `ContentArrangement`: 0 for `Disabled`, 1 for
    /// `Dynamic`, 2 for `DynamicFullWidth`.
    pub arrangement: u32,
    /// The width of the table in terminal columns. `Dynamic` wraps texts so that the table isn't
    /// wider, and `DynamicFullWidth` also fills this width. The table may be wider if borders,
    /// paddings and constraints leave too little room for its columns. `Disabled` uses the width
    /// only for constraints in percent. A number above 65535 sets no width.
    pub width: u32,
    /// The code point of the character at which texts may break; 0 for a space.
    pub delimiter: u32,
    /// A flag: the first row is the header.
    pub has_header: u32,
    /// A flag: colours and attributes are written. If the flag isn't set, they have no effect.
    pub enforce_styling: u32,
    /// A flag: colours and attributes apply to the texts alone, without the paddings.
    pub style_text_only: u32,
    /// A flag: SGR sequences in texts take no terminal columns. If the flag isn't set, the
    /// characters of the sequences take terminal columns as any others do.
    pub custom_styling: u32,
    /// The caller's own frame, which is drawn if `style` is `u32::MAX`. Otherwise this field has no
    /// effect.
    pub frame: FrameNumbers,
}

impl CellsSettings {
    /// The arrangement of widths; `None` if the number `arrangement` has no meaning.
    pub(crate) fn content_arrangement(&self) -> Option<ContentArrangement>
        ensures { result ≡ slice_get arrangements self.now.arrangement }
    {
        match self.arrangement {
            0 => Some(ContentArrangement::Disabled),
            1 => Some(ContentArrangement::Dynamic),
            2 => Some(ContentArrangement::DynamicFullWidth),
            _ => None,
        }
    }
}
