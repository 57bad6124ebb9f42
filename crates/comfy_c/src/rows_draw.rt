//! Draws tables of rows.

ghost use Rattle.std.specs.Prelude.{◌≡◌, ◌≢◌, ◌≤◌, ◌<◌, IfErr, IfOk, List, ℕ, drop, length, string_bytes, take};
ghost use Rattle.comfy_c.specs.RowCalls.{AllAddUp, HasNoText, IsRowsDrawing, IsRowsRefusal, IsSettingRefused};
ghost use Rattle.comfy_c.specs.Texts.{rows_of};

use crate::buffer::hand_over;
use crate::cells_numbers::LookNumbers;
use crate::refusal::DrawRefusal;
use crate::rows_columns::{RowsColumn, columns_of};
use crate::rows_looks::{are_each, table_settings};
use crate::rows_settings::RowsSettings;
use crate::texts::records_of;
use csv_tables::{Layout, output_of_styled_records};
use std::alloc::Global;

/// Draws the table of rows into the caller's buffer, as `csvtable` draws records of these texts.
/// Lines that count rows have the word "row", as in `row 2 of 3` above an expanded row, and in `2
/// of 3 rows` if `limit` leaves rows out.
///
/// `texts` has the texts of all cells in their order, without anything between them. `lengths` has
/// the length of each text in bytes, and `counts` the number of cells of each row. The first row is
/// the header if `has_header` is set. `looks` has the alignment, the colours and the attributes of
/// each text, and `heights` the greatest height of each row in lines. Both may be empty. With a
/// height of 0 or `usize::MAX`, the `max_height` of the settings counts. The header's height has no
/// effect. `columns` has the settings of the first columns, or of all.
///
/// | Returned | Meaning | `needed` |
/// |---|---|---|
/// | 0 | the drawing is at the front of the buffer | its length in bytes |
/// | 1 | the buffer is too small | the length of the drawing in bytes |
/// | 2 | lengths, counts, looks and heights add up, but a text isn't UTF-8 | unchanged |
/// | 3 | memory ran out | unchanged |
/// | 4 | settings or columns are refused | unchanged |
/// | 5 | lengths, counts, looks or heights don't add up | unchanged |
///
/// Settings and columns are checked first. 4 is returned if a number has no meaning, or if settings
/// can't be combined. A table for Markdown can't have looks, heights, centred columns, or columns
/// with a width or with paddings other than 1. Nor can a table whose rows are expanded (each row is
/// a table of its own), or may be expanded. Then lengths, counts, looks and heights are checked,
/// and after them the texts. Last, 4 is returned if settings are given for a column that no row
/// has, or if no column is left to draw.
///
/// Lengths add up if their sum is the length of `texts`. Counts add up if their sum is the number
/// of lengths. Looks add up if there are no looks, or one for each text. Heights add up if there
/// are no heights, or one for each row.
///
/// With 1 to 5 the buffer is unchanged. With 0 it is unchanged after the drawing.
#[unsafe(no_mangle)]
pub extern "C" fn comfy_rows_draw(
    alloc: Global,
    texts: &[u8],
    lengths: &[usize],
    counts: &[usize],
    looks: &[LookNumbers],
    heights: &[usize],
    columns: &[RowsColumn],
    settings: &RowsSettings,
    output: &mut [u8],
    needed: &mut usize,
) -> u32
    ensures drawn { result ≡ 0
        → (needed.new ≤ length output.old)
        × IsRowsDrawing texts.now lengths.now counts.now looks.now heights.now columns.now
        settings.now (take needed.new output.new) }
    ensures room_too_small { result ≡ 1
        → (length output.old < needed.new) × (drawing : List ℕ) × (needed.new ≡ length drawing)
        × IsRowsDrawing texts.now lengths.now counts.now looks.now heights.now columns.now
        settings.now drawing }
    ensures input_refused { result ≡ 2
        → HasNoText texts.now lengths.now counts.now looks.now heights.now }
    ensures settings_refused { result ≡ 4
        → IsSettingRefused (rows_of texts.now lengths.now counts.now) looks.now heights.now
        columns.now settings.now }
    ensures lengths_refused { result ≡ 5
        → ¬ (AllAddUp texts.now lengths.now counts.now looks.now heights.now) }
    ensures no_other { result ≤ 5 }
    ensures rest { drop needed.new output.new ≡ drop needed.new output.old }
    ensures untouched { result ≢ 0 → output.new ≡ output.old }
    ensures needed_kept { result ≢ 0 → result ≢ 1 → needed.new ≡ needed.old }
{
    let made = rows_drawing(
        alloc, texts, lengths, counts, looks, heights, columns, settings,
    );
    hand_over(made, output, needed)
}

// The drawing of rows, or the reason why there is none.
fn rows_drawing(
    alloc: Global,
    texts: &[u8],
    lengths: &[usize],
    counts: &[usize],
    looks: &[LookNumbers],
    heights: &[usize],
    columns: &[RowsColumn],
    settings: &RowsSettings,
) -> Result<String, DrawRefusal>
    ensures drawn { IfOk result (λ drawing.
        IsRowsDrawing texts.now lengths.now counts.now looks.now heights.now columns.now
        settings.now (string_bytes drawing)) }
    ensures refused { IfErr result (λ refusal.
        IsRowsRefusal texts.now lengths.now counts.now looks.now heights.now columns.now
        settings.now refusal) }
{
    let Some(look) = settings.look() else {
        return Err(DrawRefusal::Settings);
    };
    if !settings.can_have(looks, heights, columns) {
        return Err(DrawRefusal::Settings);
    }
    if !are_each(looks, lengths, heights, counts) {
        return Err(DrawRefusal::Lengths);
    }
    let records = records_of(alloc, texts, lengths, counts)?;
    let selection = settings.selection();
    let has_header = selection.has_header;
    let own = table_settings(alloc, has_header, counts, looks, heights, columns)?;
    let Some(columns) = columns_of(alloc, columns, selection, &records.rows())? else {
        return Err(DrawRefusal::Settings);
    };
    let layout = Layout {
        selection,
        columns,
        look,
    };
    Ok(output_of_styled_records(alloc, records, &layout, own)?)
}
