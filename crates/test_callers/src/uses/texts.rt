//! Callers that measure, cut and wrap texts.

ghost use Rattle.std.specs.Prelude.{◌≡◌, ◌≤◌, ◌+◌, ◌*◌, ◌/◌, IfOk, length, true};
ghost use Rattle.comfy_parts.specs.Columns.{IsOneColumnStyle, TextFits};
ghost use Rattle.comfy_parts.specs.Text.{is_printable_ascii};

use comfy_table::laws::{
    lines_are_few, lines_of_fitting_texts_fit, preset_characters_take_one_column,
};
use comfy_table::presets::UTF8_FULL;
use comfy_table::utils::formatting::content_split::{
    ColumnDisplayInfo, adds_one_column, characters_fit, split_line_ref,
};
use comfy_table::{Column, Result, TableStyle};
use std::alloc::Global;

/// Returns the number of lines of a text that is wrapped at a width in terminal columns. A text of
/// n printable ASCII characters has at most 2 n / width + 1 lines.
pub fn height_at(alloc: Global, text: &str, width: u16) -> Result<usize>
    ensures { IfOk result (λ height. 1 ≤ width → is_printable_ascii text.now ≡ true
        → height ≤ 2 * (length text.now / width) + 1) }
{
    lines_are_few();
    let info = ColumnDisplayInfo::new(&Column::new(0), width);
    Ok(split_line_ref(alloc, text, &info, ' ')?.len())
}

/// Returns true only if the wrapped lines of a text fit a column of this width in terminal columns.
/// This is so if each character fits the width, and the delimiter adds one terminal column.
pub fn is_sure_to_fit(text: &str, delimiter: char, width: usize) -> bool
    ensures { result ≡ true → TextFits width delimiter text.now }
{
    lines_of_fitting_texts_fit();
    adds_one_column(delimiter) && characters_fit(text, width)
}

/// Returns the style if each of its characters takes one terminal column. Otherwise returns a
/// preset, whose characters do so.
pub fn straight_style(style: TableStyle) -> TableStyle
    ensures { IsOneColumnStyle result }
{
    preset_characters_take_one_column();
    if style.is_one_column() {
        style
    } else {
        UTF8_FULL
    }
}
