//! Callers that draw a whole table, or draw it step by step.

ghost use Rattle.std.specs.Prelude.{◌≡◌, ◌++◌, All, IfOk, List, length, string_bytes};
ghost use Rattle.comfy_parts.specs.Presets.{utf8_full};
ghost use Rattle.comfy_parts.specs.Text.{Text};
ghost use Rattle.comfy_table.specs.Arrangement.{IsDrawingOf};
ghost use Rattle.comfy_table.specs.Headline.{JoinsLines};
ghost use Rattle.comfy_table.specs.NewTables.{AreEquallyWide, IsShortRow};
ghost use Rattle.comfy_table.specs.TableValue.{new_table, with_header, with_rows};
ghost use Rattle.test_callers.specs.Uses.{IsDrawnWhole, IsPrintedWithin, table_within, text_within};

use comfy_table::laws::{
    cells_keep_their_text, lines_are_found_in_their_texts, new_tables_are_straight,
    preset_characters_take_one_column,
};
use comfy_table::presets::UTF8_FULL;
use comfy_table::utils::build_table;
use comfy_table::{ContentArrangement, Lines, Result, Row, Table};
use std::alloc::Global;

/// Draws a table, and returns the number of lines of the drawing.
pub fn drawn_height(table: &Table) -> Result<usize>
    ensures { IfOk result (λ height. (lines : List Text) × IsDrawingOf table.now lines
        × (height ≡ length lines)) }
{
    Ok(build_table(table)?.count())
}

/// Returns a title, and after it the drawing of a table.
pub fn titled(alloc: Global, title: &str, table: &Table) -> Result<String>
    ensures { IfOk result (λ text. (drawn : Text) × JoinsLines table.now drawn
        × (string_bytes text ≡ title.now ++ drawn)) }
{
    let mut text = String::from_str(alloc, title)?;
    text.push_str(table.to_text()?.as_str())?;
    Ok(text)
}

/// Draws a table of a header and a row within a width, with a line feed after each line. No line
/// has more characters than the width, if the texts are printable ASCII, and the width is enough
/// for borders, paddings and one character for each column.
pub fn printed_within(alloc: Global, header: Row, row: Row, width: u16) -> Result<String>
    ensures { IfOk result (λ text. IsPrintedWithin width (table_within width header row)
        (string_bytes text)) }
{
    lines_are_found_in_their_texts();
    let mut table = Table::new(alloc);
    table
        .set_width(width)
        .set_content_arrangement(ContentArrangement::Dynamic)
        .set_header(header)?
        .add_row(row)?;
    table.to_terminated_text()
}

/// Draws a text in a table of one cell, within a width. The wrapped lines, one after another, have
/// all characters of the text in order, except spaces and line feeds.
pub fn drawn_whole(alloc: Global, text: &str, width: u16) -> Result<Lines>
    ensures { IfOk result (λ lines. IsDrawnWhole (text_within width text.now) text.now lines) }
{
    cells_keep_their_text();
    let mut table = Table::new(alloc);
    table
        .set_width(width)
        .set_content_arrangement(ContentArrangement::Dynamic)
        .add_row([text])?;
    table.lines()
}

/// Draws a report, for example of Chinese names and counts. All lines take the same number of
/// terminal columns, for every script, if the rows are short (`IsShortRow`).
pub fn report(alloc: Global, header: Row, rows: Vec<Row>) -> Result<Lines>
    ensures { IfOk result (λ lines. IsShortRow header → All IsShortRow rows.items
        → AreEquallyWide lines) }
{
    let table = report_table(alloc, header, rows)?;
    new_tables_are_straight();
    preset_characters_take_one_column();
    table.lines()
}

fn report_table(alloc: Global, header: Row, rows: Vec<Row>) -> Result<Table>
    ensures { IfOk result (λ table. table
        ≡ with_rows rows.items (with_header header (new_table utf8_full))) }
{
    let mut table = Table::new(alloc);
    table
        .load_style(UTF8_FULL)
        .set_header(header)?
        .add_rows(rows)?;
    Ok(table)
}
