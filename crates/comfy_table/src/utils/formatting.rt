//! Turns the contents of cells into lines of text.

pub mod borders;
mod cell_lines;
pub mod content_format;
pub(crate) mod drawing;
pub(crate) mod drawn_cell;
mod frame_lines;
mod gap;
mod output;
mod piece;
pub(crate) mod row_cell;
mod row_cursor;
mod row_gaps;
mod shown_column;
mod styling;
pub(crate) mod text_style;

pub(crate) use drawing::{PartEnds, Writer};
pub(crate) use frame_lines::FrameLines;
pub(crate) use output::{Output, TrimmedText};

/// Functions that measure, cut and wrap texts.
pub mod content_split {
    pub use comfy_parts::content_split::{
        ColumnDisplayInfo, adds_one_column, characters_fit, measure_text_width, split_line,
        split_line_by_delimiter, split_line_ref, split_long_word, visible_text,
    };
}
