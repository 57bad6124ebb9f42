//! The row of an input line: TABs separate its cells.

ghost use Rattle.std.specs.Prelude.{◌≡◌, IfOk, false, map, nat_lt, string_bytes, take, if◌then◌else◌};
ghost use Rattle.std.specs.List.{list_any};
ghost use Rattle.comfy_parts.specs.CellValue.{plain_cell};
ghost use Rattle.comfy_run.specs.Rows.{break_of, row_of_line};
ghost use Rattle.comfy_run.specs.Parts.{IsClearFront, IsFirstPart};

use comfy_parts::content_split::has_control;
use comfy_parts::{Cell, Cells, IntoRow, Result, Row};
use std::alloc::Global;

// The character of the input that means a line feed inside a cell.
const BREAK: char = '\u{b}';

// The number of bytes that are tested together.
const BLOCK: usize = 16;

/// Makes the row of an input line. TABs separate the cells of the line, and U+000B inside a cell
/// means a line feed. An empty line gives one empty cell. `count` is an estimate of the number of
/// cells, such as their number in the line before: memory for `count` cells is taken first. Any
/// `count` gives the same row. If the line has exactly `count` cells, the row takes no more memory
/// than it needs. The only error is `OutOfMemory`.
pub fn row_of(alloc: Global, line: &str, count: usize) -> Result<Row>
    ensures { IfOk result (λ row. row ≡ row_of_line line.now) }
{
    let mut row = Cells(Vec::with_capacity(alloc, count)?).into_row(alloc)?;
    let mut rest = line;
    loop {
        let (len, has_breaks) = first_part(rest.as_bytes());
        let (part, others) = rest.split_at(len);
        row.try_add_cell(cell_of(alloc, part, has_breaks)?)?;
        if others.is_empty() {
            return Ok(row);
        }
        let (_tab, next) = others.split_at(1);
        rest = next;
    }
}

// The number of bytes before the first TAB, or of all bytes if there is no TAB, and true if U+000B
// may be among these bytes.
fn first_part(bytes: &[u8]) -> (usize, bool)
    ensures part { IsFirstPart bytes.now result.0 }
    ensures breaks { result.1 ≡ false
        → map break_of (take result.0 bytes.now) ≡ take result.0 bytes.now }
{
    let clear = clear_run(bytes);
    let mut len = clear;
    while len < bytes.len() && bytes[len] != b'\t' {
        len += 1;
    }
    (len, len > clear)
}

// The number of bytes before the first control character (a byte below 0x20), or of all bytes if
// there is none.
fn clear_run(bytes: &[u8]) -> usize
    ensures { IsClearFront bytes.now result }
{
    let mut run = clear_blocks(bytes);
    while run < bytes.len() && bytes[run] >= 0x20 {
        run += 1;
    }
    run
}

// The number of bytes at the beginning that are in whole blocks without a control character. The
// bytes of a block are read without a test between them, which is faster in long texts.
fn clear_blocks(bytes: &[u8]) -> usize
    ensures { IsClearFront bytes.now result }
{
    let mut run = 0;
    while bytes.len() - run >= BLOCK && !has_control(&bytes[run..run + BLOCK]) {
        run += BLOCK;
    }
    run
}

// Makes the cell of a text between TABs. If `has_breaks` is true, each U+000B of the text becomes a
// line feed.
fn cell_of(alloc: Global, part: &str, has_breaks: bool) -> Result<Cell>
    ensures { IfOk result (λ cell. cell
        ≡ plain_cell (if has_breaks then map break_of part.now else part.now)) }
{
    let text = if has_breaks {
        with_line_feeds(alloc, part)?
    } else {
        String::from_str(alloc, part)?
    };
    Cell::new_owned(alloc, text)
}

// A text between TABs, with a line feed for each U+000B.
fn with_line_feeds(alloc: Global, part: &str) -> Result<String>
    ensures { IfOk result (λ text. string_bytes text ≡ map break_of part.now) }
{
    let mut text = String::new(alloc);
    let mut is_first = true;
    for piece in part.split(BREAK) {
        if !is_first {
            text.push('\n')?;
        }
        text.push_str(piece)?;
        is_first = false;
    }
    Ok(text)
}
