//! The texts that are written for the lines of a cell whose text has sequences.

ghost use Rattle.std.specs.Prelude.{◌≡◌, ◌++◌, [], length, map, true, OnOk, string_bytes};
ghost use Rattle.comfy_parts.specs.Cursor.{open_at_end, visible_ahead};
ghost use Rattle.comfy_parts.specs.Text.{measure};
ghost use Rattle.comfy_parts.specs.VisibleText.{line_text, visible_text};
ghost use Rattle.comfy_parts.specs.Written.{wrapped_positions, written_at, written_of_text};

use crate::content_split::display_info::ColumnDisplayInfo;
use crate::content_split::lines::wrapped_lines;
use crate::content_split::sequences::cursor::Cursor;
use crate::content_split::sequences::{RESET, TextPart, TextParts};
use crate::error::Result;

/// Appends to `lines` the texts that are written for the lines of one text line. The cursor has to
/// be at the front of this text line, whose visible text and width are `visible` and `width`. Each
/// written text begins with the sequences that are open at the start of its line. It ends with
/// `ESC[0m` if a sequence is then open. The only error is `OutOfMemory`.
pub(crate) fn push_lines(
    lines: &mut Vec<String>,
    cursor: &mut Cursor<'_>,
    visible: &str,
    width: usize,
    info: &ColumnDisplayInfo,
    delimiter: char,
) -> Result<()>
    requires visible { visible.now ≡ visible_ahead cursor.old }
    requires width { width ≡ measure visible.now }
    ensures lines { OnOk result (map string_bytes lines.new.items
        ≡ map string_bytes lines.old.items
        ++ written_of_text info.now.content_width delimiter cursor.old) }
    ensures stays { OnOk result (open_at_end cursor.new ≡ open_at_end cursor.old) }
{
    if width <= usize::from(info.content_width) {
        lines.push(cursor.take_line(visible.len())?)?;
        return Ok(());
    }
    push_wrapped(lines, cursor, visible, info, delimiter)
}

// Appends the texts that are written for the lines of a text line that is wrapped.
fn push_wrapped(
    lines: &mut Vec<String>,
    cursor: &mut Cursor<'_>,
    visible: &str,
    info: &ColumnDisplayInfo,
    delimiter: char,
) -> Result<()>
    requires { visible.now ≡ visible_ahead cursor.old }
    ensures lines { OnOk result (map string_bytes lines.new.items
        ≡ map string_bytes lines.old.items
        ++ written_at cursor.old (wrapped_positions info.now.content_width delimiter visible.now)) }
    ensures stays { OnOk result (open_at_end cursor.new ≡ open_at_end cursor.old) }
{
    for line in wrapped_lines(visible, info, delimiter) {
        cursor.pass_gap(delimiter)?;
        lines.push(cursor.take_line(line.len())?)?;
    }
    Ok(())
}

/// Returns true only if a text, as the only line of its cell, is written unchanged. Each `ESC[0m`
/// in such a text follows visible text and closes a sequence, and no sequence is open at the end.
/// If the result is false, the text may still be written unchanged.
pub(crate) fn needs_no_rewrite(text: &str) -> bool
    ensures { result ≡ true → line_text [] text.now 0 (length (visible_text text.now)) ≡ text.now }
{
    let mut is_open = false;
    let mut follows_visible = false;
    for part in TextParts(text) {
        let TextPart::Sequence(sequence) = part else {
            follows_visible = true;
            continue;
        };
        let is_reset = sequence == RESET;
        if is_reset && !(is_open && follows_visible) {
            return false;
        }
        is_open = !is_reset;
        follows_visible = false;
    }
    !is_open
}
