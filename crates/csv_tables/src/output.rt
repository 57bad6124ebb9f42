//! Draws records as text: as a table of rows, as expanded records, or for Markdown.

ghost use Rattle.std.specs.Prelude.{◌≡◌, ◌++◌, ◌∷◌, [], List, IfOk, OnOk, false, string_bytes, true};
ghost use Rattle.std.specs.List.{All};
ghost use Rattle.comfy_parts.specs.Text.{Text};
ghost use Rattle.comfy_table.specs.Drawing.{part_of_drawing, terminated_text_of};
ghost use Rattle.comfy_table.specs.Laws.{HasNoBreak};
ghost use Rattle.comfy_table.specs.TableValue.{max_content_widths};
ghost use Rattle.comfy_table.specs.Parts.{IsArrangedTable};
ghost use Rattle.csv_tables.specs.Markdown.{rule_line};
ghost use Rattle.csv_tables.specs.Contents.{AreContentsOf, AreDrawnAs, AreDrawnContents, rows_from, table_by};
ghost use Rattle.csv_tables.specs.Drawn.{RendersAnyRecords, RendersAsMarkdown, RendersRecords, are_more, below_first, note_text, note_for, output_table, sides, wanted_in};
ghost use Rattle.csv_tables.specs.Limits.{has_room_in, limited_by};
ghost use Rattle.csv_tables.specs.Styled.{RendersAnyStyledRecords, RendersStyledRecords, has_room_by, is_aligned_by, limits_in, styled_table};

use crate::decimals::has_points;
use crate::drawn::{RecordDrawing, Remaining, push_records};
use crate::expanded::is_expanded;
use crate::lazy_table::LazyTable;
use crate::markdown::push_rule;
use crate::nowrap::{keep_nowrap, keep_nowrap_fields};
use crate::options::{Expansion, Layout, Look};
use crate::rows::RecordRows;
use crate::selected::SelectedRecords;
use crate::selection::{Noun, Selection};
use crate::separators::{separate_fields, separate_rows};
use crate::settings::Settings;
use crate::table::markdown_look;
use comfy_parts::pieces::joined;
use comfy_table::{ArrangedTable, PartEnds, Result};
use csv_records::Records;
use std::alloc::{AllocError, Global};
use std::fmt::Write;

/// Draws `records` as `layout` describes. The result returns the text of the drawing piece by
/// piece. `count` is the number of records below the header, or `None` if this number isn't known.
/// The only error is `OutOfMemory`.
///
/// If `layout` has a limit, pass `None` only if there are more records than the limit, because this
/// isn't checked. With a limit below `count`, the last line of the drawing is, for example,
/// `2 of 3 records`. With a limit and `None`, the last line is, for example,
/// `first 2 records; there are more`. The line above an expanded record is `record 1 of 3`, or
/// `record 1` with `None`.
pub fn drawn_records(
    alloc: Global,
    records: Records,
    count: Option<usize>,
    layout: &Layout,
) -> Result<RecordDrawing>
    ensures { IfOk result (λ drawn. RendersRecords count layout.now records drawn) }
{
    drawn_styled_records(alloc, records, count, layout, Settings::none(alloc))
}

/// Draws `records` as `drawn_records` does, with the settings of columns, rows and cells in
/// `settings`. The settings have no effect in Markdown, nor in expanded records (`Expansion`). If
/// there are settings of rows, colours and attributes are written even if the output isn't a
/// terminal. The only error is `OutOfMemory`.
///
/// Columns keep numbers, dates and words whole as far as the look's width allows, but no column
/// exceeds its greatest width (`ColumnSettings::greatest`). A column with a greatest width is no
/// wider than its longest wrapped line, unless its least width is greater. If a greatest width
/// would wrap texts of a column with decimal points, no column of the table has its decimal points
/// below each other.
pub fn drawn_styled_records(
    alloc: Global,
    records: Records,
    count: Option<usize>,
    layout: &Layout,
    settings: Settings,
) -> Result<RecordDrawing>
    ensures { IfOk result (λ drawn.
        RendersStyledRecords settings count layout.now records drawn) }
{
    let look = &layout.look;
    let note = note_of(alloc, look.is_markdown, &layout.selection, count)?;
    let selected = SelectedRecords::new(alloc, records, count, layout)?;
    if look.is_markdown {
        return markdown_records(selected, look, note);
    }
    let selected = selected.with_centers(settings.of_columns())?;
    let left = Remaining {
        arranged: arranged_contents(drawn_contents(selected, look, settings)?)?,
        place: 0,
        is_first: true,
        note,
    };
    RecordDrawing::of_records(String::new(alloc), left)
}

/// Draws `records` as `drawn_records` does, but returns the whole drawing as one text. The only
/// error is `OutOfMemory`.
pub fn text_of_records(
    alloc: Global,
    records: Records,
    count: Option<usize>,
    layout: &Layout,
) -> Result<String>
    ensures { IfOk result (λ output.
        RendersRecords count layout.now records (string_bytes output)) }
{
    let drawn = drawn_records(alloc, records, count, layout)?;
    Ok(joined(alloc, drawn)?)
}

/// Draws `records` as `drawn_records` does, but returns one text. `records` has to be all records
/// of the input: its number of records, less 1 for a header, is the `count` that `drawn_records`
/// takes. The text is empty if `records` is empty. The only error is `OutOfMemory`.
pub fn output_of_records(alloc: Global, records: Records, layout: &Layout) -> Result<String>
    ensures { IfOk result (λ output.
        RendersAnyRecords layout.now records (string_bytes output)) }
{
    output_of_styled_records(alloc, records, layout, Settings::none(alloc))
}

/// Draws `records` as `drawn_styled_records` does, but returns one text. `records` has to be all
/// records of the input: its number of records, less 1 for a header, is the `count` that
/// `drawn_styled_records` takes. The text is empty if `records` is empty. The only error is
/// `OutOfMemory`.
pub fn output_of_styled_records(
    alloc: Global,
    records: Records,
    layout: &Layout,
    settings: Settings,
) -> Result<String>
    ensures { IfOk result (λ output.
        RendersAnyStyledRecords settings layout.now records (string_bytes output)) }
{
    let count = records.rows().len();
    if count == 0 {
        return Ok(String::new(alloc));
    }
    let below = count - usize::from(layout.selection.has_header);
    let drawn = drawn_styled_records(alloc, records, Some(below), layout, settings)?;
    Ok(joined(alloc, drawn)?)
}

// The table that is drawn of records, with the widths of its columns.
fn arranged_contents(contents: LazyTable) -> Result<ArrangedTable<LazyTable>>
    ensures contents { IfOk result (λ arranged. arranged.contents ≡ contents) }
    ensures rows { contents.table.rows
        ≡ rows_from contents.rows 0 contents.rows.selected.rows }
    ensures infos { IfOk result (λ arranged. IsArrangedTable contents.table
        (record { table = contents.table; infos = arranged.infos })) }
{
    // This is for the proof: rows are made of whole characters.
    contents.rows.selected.hold_texts();
    ArrangedTable::of_contents(contents)
}

// The table that is drawn of records: one of rows, or one of expanded records.
fn drawn_contents(selected: SelectedRecords, look: &Look, settings: Settings) -> Result<LazyTable>
    ensures { IfOk result (λ contents.
        AreDrawnContents settings look.now selected contents) }
{
    // The table of rows isn't needed for this decision.
    if look.expansion == Expansion::Always {
        return expanded_contents(selected, look);
    }
    let (mut contents, has_room) = fitting_contents(selected, look, settings)?;
    let selected = &contents.rows.selected;
    if is_expanded(look.expansion, selected.rows().is_empty() || has_room) {
        let RecordRows { selected, .. } = contents.into_rows();
        return expanded_contents(selected, look);
    }
    separate_rows(&mut contents, look.separators)?;
    Ok(contents)
}

// The table of rows, and true if there is room for it. Decimal points are below each other if there
// is room for that.
fn fitting_contents(
    selected: SelectedRecords,
    look: &Look,
    settings: Settings,
) -> Result<(LazyTable, bool)>
    ensures table { IfOk result (λ x.
        x.0.table ≡ styled_table settings false look.now selected) }
    ensures rows { IfOk result (λ x. AreContentsOf false look.now selected x.0) }
    ensures has_room { IfOk result (λ x. x.1 ≡ has_room_by settings look.now selected
        (is_aligned_by settings look.now selected)) }
{
    let is_aligned = look.aligns_decimals && has_points(selected.columns.as_slice());
    let rows = RecordRows {
        selected,
        settings,
        look: *look,
        is_expanded: false,
        is_aligned,
    };
    let (contents, has_room) = nowrap_contents(rows)?;
    if has_room || !is_aligned {
        return Ok((contents, has_room));
    }
    nowrap_contents(unaligned(contents.into_rows()))
}

// Rows whose decimal points aren't below each other.
fn unaligned(rows: RecordRows) -> RecordRows
    ensures { result ≡ record rows { is_aligned = false } }
{
    let mut rows = rows;
    rows.is_aligned = false;
    rows
}

// The table of these rows, and true if there is room for it.
fn nowrap_contents(rows: RecordRows) -> Result<(LazyTable, bool)>
    requires { rows.is_expanded ≡ false }
    ensures table { IfOk result (λ x. x.0.table
        ≡ limited_by (limits_in rows.settings.columns rows.selected) rows.look.width
        (wanted_in rows.look rows.selected) (table_by rows)) }
    ensures rows { IfOk result (λ x. x.0.rows ≡ rows) }
    ensures has_room { IfOk result (λ x. x.1
        ≡ has_room_in (limits_in rows.settings.columns rows.selected) rows.look.width
        rows.is_aligned (wanted_in rows.look rows.selected) (table_by rows)) }
{
    let mut contents = LazyTable::new(rows)?;
    let has_room = keep_nowrap(&mut contents)?;
    Ok((contents, has_room))
}

// The table of expanded records.
fn expanded_contents(selected: SelectedRecords, look: &Look) -> Result<LazyTable>
    ensures { IfOk result (λ contents.
        AreDrawnAs true look.now selected (output_table true look.now selected) contents) }
{
    let settings = Settings::none(selected.alloc);
    let mut contents = LazyTable::new(RecordRows {
        selected,
        settings,
        look: *look,
        is_expanded: true,
        is_aligned: false,
    })?;
    keep_nowrap_fields(&mut contents)?;
    separate_fields(&mut contents, look.separators);
    Ok(contents)
}

// The drawing of a table for Markdown, which begins with its header.
fn markdown_records(selected: SelectedRecords, look: &Look, note: String) -> Result<RecordDrawing>
    ensures { IfOk result (λ drawn. (text : Text) × RendersAsMarkdown look.now selected text
        × (drawn ≡ text ++ string_bytes note)) }
{
    let settings = Settings::none(selected.alloc);
    let contents = LazyTable::new(RecordRows {
        selected: selected.with_header(),
        settings,
        look: markdown_look(*look),
        is_expanded: false,
        is_aligned: false,
    })?;
    let arranged = arranged_contents(contents)?;
    let beginning = markdown_beginning(&arranged)?;
    let left = Remaining {
        arranged,
        place: 0,
        is_first: false,
        note,
    };
    RecordDrawing::of_records(beginning, left)
}

// The header of a table for Markdown, with the line below it.
fn markdown_beginning(arranged: &ArrangedTable<LazyTable>) -> Result<String>
    requires { arranged.now.contents.rows.is_expanded ≡ false }
    ensures { IfOk result (λ text. All HasNoBreak
        (part_of_drawing arranged.now.contents.table arranged.now.infos true false [])
        → string_bytes text ≡ terminated_text_of
        (below_first (rule_line (sides arranged.now.contents.rows.selected)
        (max_content_widths arranged.now.contents.table))
        (part_of_drawing arranged.now.contents.table arranged.now.infos true false []))) }
{
    let contents = arranged.contents();
    let selected = &contents.rows.selected;
    let mut header = String::new(selected.alloc);
    let none = selected.rows().first_rows(0);
    let above = PartEnds {
        is_first: true,
        is_last: false,
    };
    push_records(&mut header, arranged, 0, &none, above)?;
    with_rule(contents, header.as_str())
}

// Inserts the line of dashes below the first line of a header.
fn with_rule(contents: &LazyTable, header: &str) -> Result<String>
    ensures { IfOk result (λ text. (lines : List Text) → All HasNoBreak lines
        → header.now ≡ terminated_text_of lines → string_bytes text ≡ terminated_text_of
        (below_first (rule_line (sides contents.now.rows.selected)
        (max_content_widths contents.now.table)) lines)) }
{
    match header.split_once('\n') {
        Some((first, below)) => with_rule_between(contents, first, below),
        None => Ok(String::new(contents.rows.selected.alloc)),
    }
}

// Writes the line of dashes between the header's first line and the lines below that.
fn with_rule_between(contents: &LazyTable, first: &str, below: &str) -> Result<String>
    ensures { IfOk result (λ text. string_bytes text ≡ first.now
        ++ 0x0A ∷ (rule_line (sides contents.now.rows.selected)
        (max_content_widths contents.now.table) ++ 0x0A ∷ below.now)) }
{
    let selected = &contents.rows.selected;
    let mut text = String::new(selected.alloc);
    text.push_str(first)?;
    text.push('\n')?;
    let sides = selected.sides()?;
    push_rule(&mut text, sides.as_slice(), contents.widths())?;
    text.push_str(below)?;
    Ok(text)
}

// The line that reports records that aren't drawn; empty if all are drawn. In Markdown an empty
// line comes before it.
fn note_of(
    alloc: Global,
    is_markdown: bool,
    selection: &Selection,
    count: Option<usize>,
) -> std::result::Result<String, AllocError>
    ensures { IfOk result (λ note. string_bytes note
        ≡ note_for selection.now.noun is_markdown selection.now.limit count) }
{
    let mut note = String::new(alloc);
    match selection.limit {
        Some(limit) if are_more(limit, count) => {
            note.push_str(if is_markdown { "\n" } else { "" })?;
            push_note(&mut note, selection.noun, limit, count)?;
            note.push('\n')?;
        }
        _ => {}
    }
    Ok(note)
}

// Returns true if there are more records than `limit`. A count that isn't known counts as more.
fn are_more(limit: usize, count: Option<usize>) -> bool
    ensures { result ≡ are_more limit count }
{
    match count {
        Some(count) => limit < count,
        None => true,
    }
}

// Appends a note such as `2 of 3 rows`, or `first 2 rows; there are more` if the count isn't known.
fn push_note(
    note: &mut String,
    noun: Noun,
    limit: usize,
    count: Option<usize>,
) -> std::result::Result<(), AllocError>
    ensures { OnOk result (string_bytes note.new
        ≡ string_bytes note.old ++ note_text noun limit count) }
{
    match count {
        Some(count) => write!(note, "{limit} of {count} {}", noun.several()),
        None => {
            let drawn = if limit == 1 {
                noun.one()
            } else {
                noun.several()
            };
            write!(note, "first {limit} {drawn}; there are more")
        }
    }
}
