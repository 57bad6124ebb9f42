//! Promises to a caller in C.

ghost use Rattle.std.specs.Prelude.{◌≡◌, ◌≢◌, take};
ghost use Rattle.comfy_c.specs.Promised.{ShowTable};
ghost use Rattle.comfy_c.specs.PromisedRows.{ShowRows};

use crate::cells_columns::ColumnNumbers;
use crate::cells_draw::comfy_cells_draw;
use crate::cells_numbers::LookNumbers;
use crate::cells_rows::{CellNumbers, RowNumbers};
use crate::cells_settings::CellsSettings;
use crate::rows_columns::RowsColumn;
use crate::rows_draw::comfy_rows_draw;
use crate::rows_settings::RowsSettings;
use promises::laws::drawings_keep_the_promises;
use std::alloc::Global;

/// Draws a table of cells, as `comfy_cells_draw` does. If 0 is returned and `settings.form` isn't
/// 2, which requests widths of columns, the first `needed` bytes of `output` are UTF-8. They are
/// the lines of the table that the caller's numbers and texts describe. If `settings.form` is 0,
/// each line has a line feed after it. If it is 1, the lines have no white space at their ends, and
/// line feeds are only between lines.
///
/// The lines keep each promise of the crate `promises` on the lines of a table. If the form is 1,
/// this holds for the lines before the white space at their ends is removed. For example, take a
/// table with `Dynamic`, a width, and no constraint except `Hidden`. Its frame lines have at most
/// as many characters as the greater of two numbers. One is the width. The other is the number of
/// characters of borders and paddings, plus one for each column that isn't hidden.
pub fn drawn_cells(
    alloc: Global,
    texts: &[u8],
    cells: &[CellNumbers],
    rows: &[RowNumbers],
    columns: &[ColumnNumbers],
    indicator: &[u8],
    settings: &CellsSettings,
    output: &mut [u8],
    needed: &mut usize,
) -> u32
    ensures { result ≡ 0 → settings.now.form ≢ 2
        → ShowTable texts.now cells.now rows.now columns.now indicator.now settings.now
        (take needed.new output.new) }
{
    drawings_keep_the_promises();
    comfy_cells_draw(
        alloc, texts, cells, rows, columns, indicator, settings, output, needed,
    )
}

/// Draws a table of rows, as `comfy_rows_draw` does. If 0 is returned, the first `needed` bytes of
/// `output` are UTF-8. They are the table that the settings, looks, heights and columns describe,
/// as `csvtable` draws records of these texts.
///
/// The visible text, which is the output without its SGR sequences, has no control character except
/// line feeds, and no character that turns the direction of text. The only SGR sequences begin bold
/// and end it, unless `has_sequences` keeps those of the texts.
///
/// The promises on the visible text and in the list below are for a preset, or for a frame of the
/// caller's own. Such a frame must have no control characters, and no characters that turn the
/// direction of text. The promises on terminal columns also require that each character of the
/// frame takes one terminal column, as in all presets.
///
/// For a table that isn't for Markdown, and without the flag `has_sequences`:
///
/// - If no greatest height is set, all drawn texts are shown, each in its row and column. Control
///   characters of the texts are replaced. If not all rows are drawn, a line counts the rows.
/// - All lines show the same number of terminal columns, except lines that count rows. This promise
///   holds if each character takes at most one terminal column, and none is U+FE01. The promise
///   also holds if no width and no greatest height is set, and each text is at most 65535 terminal
///   columns wide. No text may then have a control character, or a character that turns the
///   direction of text. Last, the promise holds if each character has room in its column.
///   Characters of at most two terminal columns, other than U+FE01 and U+FE0E, have room if the
///   width is at least 1 + 5 n. Here n is 2 if rows are always drawn as tables of their own, or if
///   they may be and a row is drawn. Otherwise n is the number of drawn columns, including that of
///   row numbers.
/// - If a width is set, no line except lines that count rows shows more terminal columns than the
///   width, or than 1 + 4 n if that is greater. This promise holds if each character takes at most
///   one terminal column, and none is U+FE01. The promise also holds if each character takes at
///   most two, none is U+FE01 or U+FE0E, and the width is at least 1 + 5 n. If the width is filled
///   and has room for the frame, each of these lines shows exactly as many terminal columns as the
///   width.
///
/// The promises on the visible text and in the list hold if there are no looks and no heights.
/// Columns may then be hidden or have a left or right side, but must have no other settings. With
/// any looks, heights and columns, another promise holds for a table that isn't for Markdown and
/// whose rows are never expanded. An expanded row is a table of its own. If there is a row, the
/// lines of the table keep each promise on the lines of a table, as those of `drawn_cells` do. The
/// line below the table that counts rows isn't one of these lines. The table is the one that
/// `csvtable` draws of such rows, with the settings of columns, rows and cells.
pub fn drawn_rows(
    alloc: Global,
    texts: &[u8],
    lengths: &[usize],
    counts: &[usize],
    looks: &[LookNumbers],
    heights: &[usize],
    columns: &[RowsColumn],
    settings: &RowsSettings,
    output: &mut [u8],
    needed: &mut usize,
) -> u32
    ensures { result ≡ 0
        → ShowRows texts.now lengths.now counts.now looks.now heights.now columns.now settings.now
        (take needed.new output.new) }
{
    drawings_keep_the_promises();
    comfy_rows_draw(
        alloc, texts, lengths, counts, looks, heights, columns, settings, output, needed,
    )
}
