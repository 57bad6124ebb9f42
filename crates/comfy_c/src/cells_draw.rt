//! Draws tables of cells that have settings of their own.

ghost use Rattle.std.specs.Prelude.{◌≡◌, ◌≢◌, ◌≤◌, ◌<◌, ◌+◌, All, IfErr, IfOk, List, Some, ℕ, drop, length, map, slice_get, string_bytes, take};
ghost use Rattle.comfy_parts.specs.CellValue.{CellValue, IsRow};
ghost use Rattle.csv_records.specs.CutLists.{total};
ghost use Rattle.comfy_c.specs.CellCalls.{AreNotTexts, DoNotAddUp, IsCellsDrawing, IsCellsRefusal, IsDescribed, IsIndicatorRefusal, IsUnknown, below_header, cells_by, counts_of, header_among, listed, rows_with, table_by};
ghost use Rattle.comfy_c.specs.Frames.{style_for};
ghost use Rattle.comfy_c.specs.Numbers.{arrangements};
ghost use Rattle.comfy_c.specs.declared.refusal.DrawRefusal.TheVariants as refusal;

use crate::buffer::hand_over;
use crate::cells_columns::{ColumnNumbers, columns_of};
use crate::cells_lent::{LentTable, push_table};
use crate::cells_numbers::char_of;
use crate::cells_rows::{CellNumbers, RowNumbers, cell_texts, lent_cells, row_of, rows_of};
use crate::cells_settings::CellsSettings;
use crate::cells_styles::{KnownLook, known_looks};
use crate::frame::style_for;
use crate::refusal::DrawRefusal;
use comfy_parts::style::{ContentArrangement, TableStyle};
use comfy_table::{ArrangedTable, Row, Table, TableParts, Terminal};
use simdutf8::basic::from_utf8;
use std::alloc::{AllocError, Global};

// The values of `CellsSettings::form`.

const LINES: u32 = 0;

const TRIMMED: u32 = 1;

pub(crate) const CONTENT_WIDTHS: u32 = 2;

/// Draws a table of cells into the caller's buffer, as `comfy_table::Table` draws a table with
/// these cells, rows, columns and settings.
///
/// `texts` has the texts of all cells in their order, without anything between them. `cells` has
/// the length and the settings of each text, `rows` the number of cells of each row, and `columns`
/// the settings of each column. A cell that has no column isn't drawn. `indicator` is the
/// truncation indicator, which is drawn at the end of a text that the greatest height of its row
/// cuts.
///
/// | Returned | Meaning | `needed` |
/// |---|---|---|
/// | 0 | the drawing is at the front of the buffer | its length in bytes |
/// | 1 | the buffer is too small | the length of the drawing in bytes |
/// | 2 | lengths and counts add up, but a text or `indicator` isn't UTF-8 | unchanged |
/// | 3 | memory ran out | unchanged |
/// | 4 | `form`, `style` or `arrangement` has no meaning | unchanged |
/// | 5 | lengths don't add up to all texts, or counts don't add up to all cells | unchanged |
///
/// Settings are checked first, then lengths and counts, and last the texts and `indicator`.
///
/// With 1 to 5 the buffer is unchanged. With 0 it is unchanged after the drawing.
#[unsafe(no_mangle)]
pub extern "C" fn comfy_cells_draw(
    alloc: Global,
    texts: &[u8],
    cells: &[CellNumbers],
    rows: &[RowNumbers],
    columns: &[ColumnNumbers],
    indicator: &[u8],
    settings: &CellsSettings,
    output: &mut [u8],
    needed: &mut usize,
) -> u32
    ensures drawn { result ≡ 0
        → (needed.new ≤ length output.old)
        × IsCellsDrawing texts.now cells.now rows.now columns.now indicator.now settings.now
        (take needed.new output.new) }
    ensures room_too_small { result ≡ 1
        → (length output.old < needed.new) × (drawing : List ℕ) × (needed.new ≡ length drawing)
        × IsCellsDrawing texts.now cells.now rows.now columns.now indicator.now settings.now
        drawing }
    ensures input_refused { result ≡ 2
        → AreNotTexts texts.now cells.now rows.now indicator.now }
    ensures settings_refused { result ≡ 4 → IsUnknown settings.now }
    ensures lengths_refused { result ≡ 5 → DoNotAddUp texts.now cells.now rows.now }
    ensures no_other { result ≤ 5 }
    ensures rest { drop needed.new output.new ≡ drop needed.new output.old }
    ensures untouched { result ≢ 0 → output.new ≡ output.old }
    ensures needed_kept { result ≢ 0 → result ≢ 1 → needed.new ≡ needed.old }
{
    let made = cells_drawing(alloc, texts, cells, rows, columns, indicator, settings);
    hand_over(made, output, needed)
}

// The output that `form` chooses, or the reason why there is none.
fn cells_drawing(
    alloc: Global,
    texts: &[u8],
    cells: &[CellNumbers],
    rows: &[RowNumbers],
    columns: &[ColumnNumbers],
    indicator: &[u8],
    settings: &CellsSettings,
) -> Result<String, DrawRefusal>
    ensures drawn { IfOk result (λ drawing.
        IsCellsDrawing texts.now cells.now rows.now columns.now indicator.now settings.now
        (string_bytes drawing)) }
    ensures refused { IfErr result (λ refusal.
        IsCellsRefusal texts.now cells.now rows.now indicator.now settings.now refusal) }
{
    if settings.form > CONTENT_WIDTHS {
        return Err(DrawRefusal::Settings);
    }
    if settings.form == LINES {
        return lines_of(alloc, texts, cells, rows, columns, indicator, settings);
    }
    other_drawing(alloc, texts, cells, rows, columns, indicator, settings)
}

// The lines of the table without the white space at their ends, or the widths of its contents. This
// function is never inlined, because each drawing would then pay for the size of the table in it.
#[inline(never)]
fn other_drawing(
    alloc: Global,
    texts: &[u8],
    cells: &[CellNumbers],
    rows: &[RowNumbers],
    columns: &[ColumnNumbers],
    indicator: &[u8],
    settings: &CellsSettings,
) -> Result<String, DrawRefusal>
    requires some { 0 < settings.now.form }
    requires known { settings.now.form ≤ 2 }
    ensures drawn { IfOk result (λ drawing.
        IsCellsDrawing texts.now cells.now rows.now columns.now indicator.now settings.now
        (string_bytes drawing)) }
    ensures refused { IfErr result (λ refusal.
        IsCellsRefusal texts.now cells.now rows.now indicator.now settings.now refusal) }
{
    let table = table_of(alloc, texts, cells, rows, columns, indicator, settings)?;
    if settings.form == TRIMMED {
        return Ok(table.trim_fmt()?);
    }
    Ok(listed(alloc, table.column_max_content_widths()?.as_slice())?)
}

// The lines of the table that numbers and texts describe, each with a line feed after it.
fn lines_of(
    alloc: Global,
    texts: &[u8],
    cells: &[CellNumbers],
    rows: &[RowNumbers],
    columns: &[ColumnNumbers],
    indicator: &[u8],
    settings: &CellsSettings,
) -> Result<String, DrawRefusal>
    requires { settings.now.form ≡ 0 }
    ensures drawn { IfOk result (λ drawing.
        IsCellsDrawing texts.now cells.now rows.now columns.now indicator.now settings.now
        (string_bytes drawing)) }
    ensures refused { IfErr result (λ refusal.
        IsCellsRefusal texts.now cells.now rows.now indicator.now settings.now refusal) }
{
    let looks = known_looks(alloc, cells)?;
    let looks = looks.as_slice();
    let lent = lent_table(
        alloc, texts, cells, rows, columns, indicator, settings, looks,
    )?;
    let arranged = ArrangedTable::of_contents(lent)?;
    let mut text = String::new(alloc);
    // Most drawings fit into this room. If there is no memory for it, the text grows as it is
    // needed.
    let _ = text.reserve(room_for(texts.len(), cells.len()));
    push_table(&mut text, &arranged)?;
    Ok(text)
}

// A number of bytes that is enough for most drawings. `bytes` is the length of all texts, and
// `cells` the number of cells.
fn room_for(bytes: usize, cells: usize) -> usize {
    bytes
        .saturating_mul(3)
        .saturating_add(cells.saturating_mul(16))
}

// The table that numbers and texts describe. Its cells borrow their texts from the caller.
fn lent_table<'a>(
    alloc: Global,
    texts: &'a [u8],
    cells: &[CellNumbers],
    rows: &'a [RowNumbers],
    columns: &[ColumnNumbers],
    indicator: &[u8],
    settings: &CellsSettings,
    looks: &'a [KnownLook],
) -> Result<LentTable<'a>, DrawRefusal>
    ensures table { IfOk result (IsDescribed texts.now cells.now rows.now columns.now
        indicator.now settings.now) }
    ensures rows { IfOk result (λ lent. All IsRow lent.rows) }
    ensures refused { IfErr result (λ refusal. IsCellsRefusal texts.now cells.now
        rows.now indicator.now settings.now refusal) }
{
    let (style, arrangement) = chosen_by(settings)?;
    let found = cell_texts(alloc, rows, cells, texts)?;
    let found = found.as_slice();
    let header = header_of(alloc, settings, rows, cells, found)?;
    let none = Vec::new(alloc);
    let table = table_by(
        alloc,
        header,
        none,
        columns,
        indicator,
        settings,
        style,
        arrangement,
    )?;
    let (skipped, below) = rows_below(settings, rows);
    let own = cells.split_at(skipped).1;
    let texts = found.split_at(skipped).1;
    let cells = lent_cells(alloc, own, texts, looks)?;
    Ok(LentTable::new(alloc, table, below, cells)?)
}

// The table that numbers and texts describe.
fn table_of(
    alloc: Global,
    texts: &[u8],
    cells: &[CellNumbers],
    rows: &[RowNumbers],
    columns: &[ColumnNumbers],
    indicator: &[u8],
    settings: &CellsSettings,
) -> Result<Table, DrawRefusal>
    ensures table { IfOk result
        (IsDescribed texts.now cells.now rows.now columns.now indicator.now settings.now) }
    ensures refused { IfErr result (λ refusal.
        IsCellsRefusal texts.now cells.now rows.now indicator.now settings.now refusal) }
{
    let (style, arrangement) = chosen_by(settings)?;
    let (header, rows) = parted(settings, rows_of(alloc, rows, cells, texts)?);
    let table = table_by(
        alloc,
        header,
        rows,
        columns,
        indicator,
        settings,
        style,
        arrangement,
    )?;
    Ok(table)
}

// The style and the arrangement that settings choose. The settings are refused if one of these two
// numbers has no meaning.
fn chosen_by(settings: &CellsSettings) -> Result<(TableStyle, ContentArrangement), DrawRefusal>
    ensures style { IfOk result (λ chosen.
        style_for settings.now.style settings.now.frame ≡ Some chosen.0) }
    ensures arrangement { IfOk result (λ chosen.
        slice_get arrangements settings.now.arrangement ≡ Some chosen.1) }
    ensures refused { IfErr result (λ r. (r ≡ refusal.Settings)
        × IsUnknown settings.now) }
{
    let Some(style) = style_for(settings.style, &settings.frame) else {
        return Err(DrawRefusal::Settings);
    };
    let Some(arrangement) = settings.content_arrangement() else {
        return Err(DrawRefusal::Settings);
    };
    Ok((style, arrangement))
}

// The table of this header and these rows.
fn table_by(
    alloc: Global,
    header: Option<Row>,
    rows: Vec<Row>,
    columns: &[ColumnNumbers],
    indicator: &[u8],
    settings: &CellsSettings,
    style: TableStyle,
    arrangement: ContentArrangement,
) -> Result<Table, DrawRefusal>
    ensures table { IfOk result (λ table. table ≡ table_by header rows.items columns.now
        indicator.now settings.now style arrangement) }
    ensures refused { IfErr result (IsIndicatorRefusal indicator.now) }
{
    let Ok(indicator) = from_utf8(indicator) else {
        return Err(DrawRefusal::NotUtf8);
    };
    Ok(Table::from_parts(TableParts {
        columns: columns_of(alloc, columns)?,
        header,
        rows,
        style,
        arrangement,
        delimiter: char_of(settings.delimiter),
        indicator: Some(String::from_str(alloc, indicator)?),
        set_width: u16::try_from(settings.width).ok(),
        terminal: Terminal::UNKNOWN,
        no_tty: false,
        use_stderr: false,
        enforce_styling: settings.enforce_styling != 0,
        style_text_only: settings.style_text_only != 0,
        custom_styling: settings.custom_styling != 0,
    }))
}

// The first row, if it is the header.
fn header_of(
    alloc: Global,
    settings: &CellsSettings,
    rows: &[RowNumbers],
    cells: &[CellNumbers],
    texts: &[&str],
) -> Result<Option<Row>, DrawRefusal>
    requires counted { total (counts_of rows.now) ≡ length cells.now }
    requires paired { length texts.now ≡ length cells.now }
    ensures header { IfOk result (λ header. header ≡ header_among settings.now (rows_with rows.now
        (cells_by cells.now (map (λ text. text.now) texts.now)))) }
    ensures refused { IfErr result (λ r. r ≡ refusal.OutOfMemory) }
{
    if settings.has_header == 0 {
        return Ok(None);
    }
    let Some(row) = rows.first() else {
        return Ok(None);
    };
    let header = row_of(alloc, row, &cells[..row.cells], &texts[..row.cells])?;
    Ok(Some(header))
}

// The number of cells in the header, and the rows below it. Without a header, 0 and all rows.
fn rows_below<'a>(settings: &CellsSettings, rows: &'a [RowNumbers]) -> (usize, &'a [RowNumbers])
    ensures rows { (cells : List CellValue)
        → below_header settings.now (rows_with rows.now cells)
        ≡ rows_with result.1.now (drop result.0 cells) }
    ensures count { total (counts_of rows.now) ≡ result.0 + total (counts_of result.1.now) }
{
    if settings.has_header == 0 {
        return (0, rows);
    }
    match rows.split_first() {
        Some((header, below)) => (header.cells, below),
        None => (0, rows),
    }
}

// The first row, if it is the header, and the rows below it.
fn parted(settings: &CellsSettings, mut rows: Vec<Row>) -> (Option<Row>, Vec<Row>)
    ensures header { result.0 ≡ header_among settings.now rows.items }
    ensures below { result.1.items ≡ below_header settings.now rows.items }
{
    if settings.has_header == 0 || rows.is_empty() {
        return (None, rows);
    }
    let header = rows.remove(0);
    (Some(header), rows)
}

// Numbers in decimal, each with a line feed after it.
fn listed(alloc: Global, numbers: &[u16]) -> Result<String, AllocError>
    ensures { IfOk result (λ text. string_bytes text ≡ listed numbers.now) }
{
    let mut text = String::new(alloc);
    for number in numbers {
        text.push_str(format!(in alloc; "{number}\n")?.as_str())?;
    }
    Ok(text)
}
