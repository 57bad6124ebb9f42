//! The cutting of texts: their widths in terminal columns, the longest prefixes that fit a width,
//! and the lines into which texts are wrapped.

ghost use Rattle.std.specs.Prelude.{◌≡◌, [], map, IfOk, IsOk, string_bytes};
ghost use Rattle.comfy_parts.specs.Text.{elements};
ghost use Rattle.comfy_parts.specs.Wrapping.{IsWrapped, wrapped};

mod bytes;
pub mod display_info;
mod ends;
mod fitting;
mod joining;
mod lines;
mod own_width;
mod prefix;
mod printable;
mod sequences;
mod width;

use crate::error::Result;
pub use bytes::{are_digits, has_control, is_printable};
pub use display_info::ColumnDisplayInfo;
pub use fitting::characters_fit;
pub use joining::adds_one_column;
pub use lines::{WrappedLines, wrapped_lines};
pub use prefix::split_long_word;
pub(crate) use sequences::cursor::Cursor;
pub(crate) use sequences::has_escape;
pub(crate) use sequences::written::{needs_no_rewrite, push_lines};
pub use sequences::{leaves_sequence_open, sequence_len, visible_text};
use std::alloc::Global;
pub use width::measure_text_width;
pub(crate) use width::{joined_columns, summed_columns};

/// Splits a line at each `delimiter`, and returns the parts in order, without delimiters. A part
/// may be empty. An empty line has one part, which is empty. The only error is `OutOfMemory`.
pub fn split_line_by_delimiter(alloc: Global, line: &str, delimiter: char) -> Result<Vec<&str>>
    ensures { IfOk result (λ v. map (λ x. x.now) v.items ≡ elements delimiter line.now) }
{
    let mut parts: Vec<&str> = Vec::new(alloc);
    let mut rest = line;
    while let Some((part, after)) = rest.split_once(delimiter) {
        parts.push(part)?;
        rest = after;
    }
    parts.push(rest)?;
    Ok(parts)
}

/// Wraps a text line into lines for the content width of `info`, in terminal columns. Texts break
/// at `delimiter`; the delimiter in `info` isn't used. Delimiters at the front of the text and
/// directly after a line are left out, and nothing else is left out. If the next grapheme cluster
/// is wider than the width, the line is only the first character of the cluster, which may be too
/// wide too. So every width is allowed, even 0. A text that is empty or has only delimiters has no
/// lines. The only error is `OutOfMemory`.
pub fn split_line(
    alloc: Global,
    line: &str,
    info: &ColumnDisplayInfo,
    delimiter: char,
) -> Result<Vec<String>>
    ensures lines { IfOk result (λ v. map string_bytes v.items
        ≡ wrapped info.now.content_width delimiter line.now) }
    ensures slices { IfOk result (λ v.
        IsWrapped info.now.content_width delimiter line.now (map string_bytes v.items)) }
{
    let mut lines = Vec::new(alloc);
    for part in wrapped_lines(line, info, delimiter) {
        lines.push(String::from_str(alloc, part)?)?;
    }
    Ok(lines)
}

/// The lines that `split_line` returns for these arguments, borrowed from the text `line`. The only
/// error is `OutOfMemory`. A text that is empty or has only delimiters gives no lines and no error.
pub fn split_line_ref<'a>(
    alloc: Global,
    line: &'a str,
    info: &ColumnDisplayInfo,
    delimiter: char,
) -> Result<Vec<&'a str>>
    ensures lines { IfOk result (λ v. map (λ x. x.now) v.items
        ≡ wrapped info.now.content_width delimiter line.now) }
    ensures slices { IfOk result (λ v.
        IsWrapped info.now.content_width delimiter line.now (map (λ x. x.now) v.items)) }
    ensures succeeds { wrapped info.now.content_width delimiter line.now ≡ [] → IsOk result }
{
    let mut lines = Vec::new(alloc);
    for part in wrapped_lines(line, info, delimiter) {
        lines.push(part)?;
    }
    Ok(lines)
}
