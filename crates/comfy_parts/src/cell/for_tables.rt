//! Functions with which a table makes and draws its cells. They return the widths of text lines,
//! their visible texts (the texts without colour sequences), and the texts that are written for the
//! lines of a cell. The module is public only for the crates that draw tables; programs don't need
//! it.

ghost use Rattle.std.specs.Prelude.{◌≡◌, [], IfOk, None, Some, if◌then◌else◌, length, map, string_bytes, true};
ghost use Rattle.std.specs.List.{list_any};
ghost use Rattle.comfy_parts.specs.CellValue.{plain_cell};
ghost use Rattle.comfy_parts.specs.Text.{is_printable_ascii, measure};
ghost use Rattle.comfy_parts.specs.VisibleLines.{CellLine, line_texts};
ghost use Rattle.comfy_parts.specs.VisibleText.{has_escape, line_text, visible_text};

use crate::cell::Cell;
use crate::cell::text_lines::TextLines;
use crate::content_split::{ColumnDisplayInfo, Cursor, is_printable, push_lines};
use crate::error::Result;
use crate::style::CellAlignment;
use std::alloc::Global;

/// Makes a cell of a printable ASCII text, with `alignment` as its alignment and no other setting.
/// The result is `None` if the text isn't printable ASCII. A caller needs no test of its own, so
/// the bytes are read only once. The only error is `OutOfMemory`.
pub fn printable_cell(
    alloc: Global,
    text: &str,
    alignment: Option<CellAlignment>,
) -> Result<Option<Cell>>
    ensures { IfOk result (λ cell. cell
        ≡ (if is_printable_ascii text.now
        then Some (record (plain_cell text.now) { alignment = alignment })
        else None)) }
{
    if !is_printable(text.as_bytes()) {
        return Ok(None);
    }
    let text_lines = TextLines::of_printable(alloc, text)?;
    Ok(Some(Cell::of_lines(alloc, text_lines, alignment)))
}

/// The text lines of the cell in order, and the width of each text line in terminal columns. If
/// `without_sequences` is true, colour sequences are left out of the text lines and the widths. The
/// texts and widths were computed when the cell was made.
pub fn measured_lines(cell: &Cell, without_sequences: bool) -> (&[String], &[usize])
    ensures texts { map string_bytes result.0.now
        ≡ (if without_sequences
        then map visible_text cell.now.text_lines
        else cell.now.text_lines) }
    ensures widths { result.1.now ≡ map measure
        (if without_sequences then map visible_text cell.now.text_lines else cell.now.text_lines) }
{
    if without_sequences {
        cell.text_lines.visible()
    } else {
        cell.text_lines.raw()
    }
}

/// Returns true if the cell's text contains ESC. A text without ESC has no colour sequence.
pub fn has_escape(cell: &Cell) -> bool
    ensures { result ≡ list_any has_escape cell.now.text_lines }
{
    cell.text_lines.has_escape()
}

/// Returns true only if this text, as the only line of a cell, is written unchanged after a call of
/// `Table::custom_styling`. If the result is false, the text may still be written unchanged. The
/// test is faster than a copy of the text.
pub fn needs_no_rewrite(text: &str) -> bool
    ensures { result ≡ true → line_text [] text.now 0 (length (visible_text text.now)) ≡ text.now }
{
    crate::content_split::needs_no_rewrite(text)
}

/// The texts that are written for the lines of the cell after a call of `Table::custom_styling`,
/// from the top.
///
/// Colour sequences don't change where lines end: the visible text of each text line breaks at
/// `delimiter`, and is wrapped for the content width of `info`. A written text begins with the
/// sequences that are open at the start of its line. Then it has the line's characters with the
/// sequences between them, and `ESC[0m` if a sequence is open at the end. A sequence is open until
/// the next `ESC[0m`, even in later text lines. The only error is `OutOfMemory`.
pub fn written_lines(cell: &Cell, info: &ColumnDisplayInfo, delimiter: char) -> Result<Vec<String>>
    ensures { IfOk result (λ texts. map string_bytes texts.items
        ≡ map (λ (line : CellLine). line.written)
        (line_texts info.now.content_width delimiter cell.now.text_lines)) }
{
    let alloc = *cell.attributes.allocator();
    let texts = cell.text_lines();
    let (visible, widths) = cell.text_lines.visible();
    let mut lines = Vec::new(alloc);
    let mut cursor = Cursor::new(alloc);
    for position in 0..texts.len() {
        cursor.begin(texts[position].as_str())?;
        let visible = visible[position].as_str();
        push_lines(
            &mut lines,
            &mut cursor,
            visible,
            widths[position],
            info,
            delimiter,
        )?;
    }
    Ok(lines)
}
