//! The frame of a table.

ghost use Rattle.std.specs.Prelude.{◌≡◌, ◌++◌, ◌&&◌, ℕ, nat_lt, [], IfOk, OnOk, map, string_bytes, option_to_list, encode_utf8, if◌then◌else◌};
ghost use Rattle.std.specs.List.{repeat};
ghost use Rattle.comfy_parts.specs.CellValue.{ColumnInfo, info_width};
ghost use Rattle.comfy_table.specs.Frame.{character, draws_left_border, draws_right_border, draws_vertical_lines, frame_line, is_drawn, optional_frame_line};

use crate::table::Table;
use crate::utils::formatting::shown_column::ShownColumn;
use comfy_parts::Result;
use comfy_parts::style::LineStyle;

/// Returns true if lines begin with a border: if any of the six kinds of lines of the style has a
/// left character.
pub fn should_draw_left_border(table: &Table) -> bool
    ensures { result ≡ draws_left_border table.now.style }
{
    table.style.draws_left_border()
}

/// Returns true if lines end with a border: if any of the six kinds of lines of the style has a
/// right character.
pub fn should_draw_right_border(table: &Table) -> bool
    ensures { result ≡ draws_right_border table.now.style }
{
    table.style.draws_right_border()
}

/// Returns true if vertical lines are drawn between the columns: if any of the six kinds of lines
/// of the style has a junction.
pub fn should_draw_vertical_lines(table: &Table) -> bool
    ensures { result ≡ draws_vertical_lines table.now.style }
{
    table.style.draws_vertical_lines()
}

/// The frame line over these columns with the characters of `line`. The result is `None` if the
/// frame line isn't drawn, because `line` has no character. The only error is `OutOfMemory`.
pub(crate) fn optional_frame_line(
    table: &Table,
    line: &LineStyle,
    columns: &[ShownColumn],
) -> Result<Option<String>>
    ensures { IfOk result (λ drawn. map string_bytes (option_to_list drawn)
        ≡ optional_frame_line table.now.style line.now
        (map (λ (p : ℕ × ColumnInfo). info_width p.1) columns.now)) }
{
    if !is_drawn(line) {
        return Ok(None);
    }
    let room = room_for(columns, line.fill.unwrap_or(' '));
    let mut text = String::with_capacity(*table.columns.allocator(), room)?;
    push_frame_line(&mut text, table, line, columns)?;
    Ok(Some(text))
}

/// Appends the frame line over these columns with the characters of `line`, even if `line` has no
/// character. The only error is `OutOfMemory`; `text` may then have a part of the frame line.
pub(crate) fn push_frame_line(
    text: &mut String,
    table: &Table,
    line: &LineStyle,
    columns: &[ShownColumn],
) -> Result<()>
    ensures { OnOk result (string_bytes text.new
        ≡ string_bytes text.old ++ frame_line table.now.style line.now
        (map (λ (p : ℕ × ColumnInfo). info_width p.1) columns.now)) }
{
    let vertical = table.style.draws_vertical_lines();
    push_border(text, table.style.draws_left_border(), line.left)?;
    for (position, column) in columns.iter().enumerate() {
        push_border(text, needs_junction(vertical, position), line.junction)?;
        push_repeated(text, line.fill.unwrap_or(' '), column.info.width())?;
    }
    push_border(text, table.style.draws_right_border(), line.right)
}

/// Returns true if a frame line with these characters is drawn: if any of the four characters is
/// set.
pub(crate) fn is_drawn(line: &LineStyle) -> bool
    ensures { result ≡ is_drawn line.now }
{
    line.left.is_some() || line.fill.is_some() || line.junction.is_some() || line.right.is_some()
}

// Returns true if there is a junction before the column at a position: if vertical lines are drawn,
// before each column but the first.
fn needs_junction(vertical: bool, position: usize) -> bool
    ensures { result ≡ (vertical && nat_lt 0 position) }
{
    vertical && position > 0
}

/// Appends a border if `drawn` is true: the character `part` of the style, or a space if `part` is
/// `None`. The only error is `OutOfMemory`.
pub(crate) fn push_border(text: &mut String, drawn: bool, part: Option<char>) -> Result<()>
    ensures { OnOk result (string_bytes text.new
        ≡ string_bytes text.old ++ (if drawn then character part else [])) }
{
    if drawn {
        text.push(part.unwrap_or(' '))?;
    }
    Ok(())
}

// Appends a character `count` times.
fn push_repeated(text: &mut String, fill: char, count: usize) -> Result<()>
    ensures { OnOk result (string_bytes text.new
        ≡ string_bytes text.old ++ repeat count (encode_utf8 fill)) }
{
    for _ in 0..count {
        text.push(fill)?;
    }
    Ok(())
}

/// The bytes to reserve for a line over these columns. A frame line needs no more, if none of its
/// borders has more bytes than `fill`.
pub(crate) fn room_for(columns: &[ShownColumn], fill: char) -> usize {
    let mut room = columns.len().saturating_add(1);
    for column in columns {
        room = room.saturating_add(column.info.width());
    }
    room.saturating_mul(fill.len_utf8())
}
