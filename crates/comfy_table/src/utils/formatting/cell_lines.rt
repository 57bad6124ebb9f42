//! The lines of a cell in its row: its text lines, wrapped at the column's width and cut to the
//! row's greatest height.

ghost use Rattle.std.specs.Prelude.{◌≡◌, ◌≤◌, ◌++◌, ◌∷◌, ◌&&◌, [], false, IfOk, IfSome, OnOk, length, map, option_map, slice_get, string_bytes};
ghost use Rattle.std.specs.List.{list_any};
ghost use Rattle.comfy_parts.specs.Columns.{IsApart};
ghost use Rattle.comfy_parts.specs.Text.{measure};
ghost use Rattle.comfy_parts.specs.VisibleText.{has_escape};
ghost use Rattle.comfy_parts.specs.Wrapping.{lines_of_text, wrapped};
ghost use Rattle.comfy_table.specs.CellLines.{lines_of};
ghost use Rattle.comfy_table.specs.DrawnLines.{drawn_line, drawn_text, with_texts};
ghost use Rattle.comfy_table.specs.Lines.{as_measured, cell_delimiter, cell_lines, cut_line, cut_text, fitting_indicator, uncut_lines};
ghost use Rattle.comfy_table.specs.RowCells.{cell_in, lines_within};
ghost use Rattle.comfy_table.specs.TableValue.{TableValue, measured_cell};

use crate::table::Table;
use crate::utils::formatting::gap::few_spaces;
use crate::utils::formatting::row_cell::{CellSource, LinesCell, TextCell};
use crate::utils::formatting::styling::push_reset;
use comfy_parts::content_split::{
    ColumnDisplayInfo, adds_one_column, leaves_sequence_open, measure_text_width, split_long_word,
    wrapped_lines,
};
use comfy_parts::for_tables::{has_escape, needs_no_rewrite, written_lines};
use comfy_parts::{Cell, Result};
use std::alloc::Global;
use std::borrow::CowStr;
use std::marker::Model;

// The capacity of a new list of lines, which is enough for most cells.
const MOST_LINES: usize = 8;

/// A line of a cell: its width in terminal columns, and the text that is written for the line.
#[derive(Drop)]
pub struct Line<'a> {
    columns: usize,
    text: CowStr<'a>,
    // written directly after `text`: the truncation indicator if the line is cut, or the spaces
    // after the text of a `TextCell`, or nothing
    end: &'a str,
}

impl<'a> Model for Line<'a> {
    ghost use Rattle.std.specs.Prelude.{◌++◌};
    ghost use Rattle.std.specs.Cow.{cow_str_bytes};
    ghost use Rattle.comfy_table.specs.DrawnLines.{DrawnLine};

    ghost Value = { DrawnLine };

    ghost view = { λ l. record {
      columns = l.columns;
      written = cow_str_bytes l.text ++ l.end.now;
    } };
}

impl<'a> Line<'a> {
    /// A line whose text is a slice of its cell's text, and takes `columns` terminal columns.
    fn of_text(columns: usize, text: &'a str) -> Line<'a>
        ensures { result ≡ record { columns = columns; written = text.now } }
    {
        Line {
            columns,
            text: CowStr::Borrowed(text),
            end: "",
        }
    }

    /// The width of the line in terminal columns, and the two texts that are written for the line:
    /// the first text, and directly after it the second. The second text is the truncation
    /// indicator if the line is cut, or spaces, or empty.
    #[inline(always)]
    pub fn parts(&self) -> (usize, &str, &str)
        ensures { record {
          columns = result.0;
          written = result.1.now ++ result.2.now;
        } ≡ self.now }
    {
        (self.columns, self.text.as_str(), self.end)
    }

    // A copy of the line, with its text in memory of its own.
    fn copied<'b>(&self, alloc: Global) -> Result<Line<'b>>
        ensures { IfOk result (λ line. line ≡ self.now) }
    {
        Ok(Line {
            columns: self.columns,
            text: CowStr::Owned(self.written(alloc)?),
            end: "",
        })
    }

    // The whole text that is written for the line.
    fn written(&self, alloc: Global) -> Result<String>
        ensures { IfOk result (λ text. string_bytes text ≡ self.now.written) }
    {
        joined(alloc, self.text.as_str(), self.end)
    }
}

/// The lines of a cell of a row, from the top.
#[derive(Drop)]
pub enum CellLines<'a> {
    // one line that fits
    Single(Line<'a>),
    Multiple(Vec<Line<'a>>),
}

impl<'a> CellLines<'a> {
    /// The number of lines of the cell.
    pub fn len(&self) -> usize
        ensures { result ≡ length (lines_of self.now) }
    {
        match self {
            CellLines::Single(_) => 1,
            CellLines::Multiple(lines) => lines.len(),
        }
    }

    /// The line at position `position`, counted from 0; `None` after the last line.
    #[inline(always)]
    pub fn get(&self, position: usize) -> Option<&Line<'a>>
        ensures { option_map (λ line. line.now) result
            ≡ slice_get (lines_of self.now) position }
    {
        match self {
            CellLines::Single(line) => (position == 0).then_some(line),
            CellLines::Multiple(lines) => lines.get(position),
        }
    }
}

/// The lines of a cell in a row of which at most `limit` lines are drawn, or all lines if `limit`
/// is `None`. The cell is in the column of `info`. If `only_line` returns the cell's only line, no
/// list is used. Otherwise the lines are in a list that is taken from `spare`, or in a new list if
/// `spare` is empty. The only error is `OutOfMemory`.
pub fn row_cell_lines<'a>(
    table: &'a Table,
    limit: Option<usize>,
    cell: CellSource<'a>,
    info: &ColumnDisplayInfo,
    spare: &mut Vec<Vec<Line<'a>>>,
) -> Result<CellLines<'a>>
    requires { IfSome limit (λ lines. 1 ≤ lines) }
    ensures { IfOk result (λ lines. lines_of lines
        ≡ map drawn_line (lines_within table.now limit info.now (cell_in cell.entry))) }
{
    if let Some((columns, text, end)) = only_line(table, cell, info) {
        return Ok(CellLines::Single(Line {
            columns,
            text: CowStr::Borrowed(text),
            end,
        }));
    }
    let lines = listed_lines(table, limit, cell, info, empty_list(spare)?)?;
    Ok(CellLines::Multiple(lines))
}

// An empty list: a spare one, or else a new one with room for the lines of most cells.
fn empty_list<'a>(spare: &mut Vec<Vec<Line<'a>>>) -> Result<Vec<Line<'a>>>
    ensures { IfOk result (λ list. list.items ≡ []) }
{
    let Some(mut list) = spare.pop() else {
        return Ok(Vec::with_capacity(*spare.allocator(), MOST_LINES)?);
    };
    list.clear();
    Ok(list)
}

/// The only line of a cell, if the cell has one text line, which fits the column of `info` and is
/// written unchanged. The tuple has the width of the line in terminal columns, and the two texts
/// that are written for the line, one directly after the other. The result is `None` for any other
/// cell, and for a text with more than 64 spaces after it.
#[inline(always)]
pub fn only_line<'a>(
    table: &Table,
    cell: CellSource<'a>,
    info: &ColumnDisplayInfo,
) -> Option<(usize, &'a str, &'a str)>
    ensures { IfSome result (λ line. record {
      columns = line.0;
      written = line.1.now ++ line.2.now;
    } ∷ [] ≡ map drawn_line (uncut_lines table.now.custom_styling info.now.content_width
        (cell_delimiter table.now info.now.delimiter (cell_in cell.entry)) (cell_in cell.entry))) }
{
    match cell {
        CellSource::Line(cell) => fitting_text(cell, info),
        CellSource::Lines(_) => None,
        CellSource::Own(cell) => {
            let (columns, text) = fitting_line(table, cell, info)?;
            Some((columns, text, ""))
        }
    }
}

// The width of a text that fits, in terminal columns, the text, and the spaces after it. `None` if
// text and spaces don't fit, or if there are more spaces than are copied at once.
#[inline(always)]
fn fitting_text<'a>(
    cell: &TextCell<'a>,
    info: &ColumnDisplayInfo,
) -> Option<(usize, &'a str, &'static str)>
    ensures { IfSome result (λ line. (table : TableValue) → record {
      columns = line.0;
      written = line.1.now ++ line.2.now;
    } ∷ [] ≡ map drawn_line (uncut_lines table.custom_styling info.now.content_width
        (cell_delimiter table info.now.delimiter cell.now) cell.now)) }
{
    let (text, after) = cell.line();
    if cell.columns() > usize::from(info.content_width) {
        return None;
    }
    let end = few_spaces(after)?;
    Some((cell.columns(), text, end))
}

// The width of a cell's only text line, in terminal columns, and the text, if it fits and is
// written as it is. Otherwise `None`.
#[inline(always)]
fn fitting_line<'a>(
    table: &Table,
    cell: &'a Cell,
    info: &ColumnDisplayInfo,
) -> Option<(usize, &'a str)>
    ensures { IfSome result (λ line. record {
      columns = line.0;
      written = line.1.now;
    } ∷ [] ≡ map drawn_line (uncut_lines table.now.custom_styling info.now.content_width
        (cell_delimiter table.now info.now.delimiter cell.now) cell.now)) }
{
    let texts = cell.text_lines();
    let (_, widths) = table.measured_lines(cell);
    if texts.len() != 1 || widths[0] > usize::from(info.content_width) {
        return None;
    }
    let text = texts[0].as_str();
    if is_custom_styled(table, cell) && !needs_no_rewrite(text) {
        return None;
    }
    Some((widths[0], text))
}

// Returns true if the written lines of the cell may differ from its measured lines.
fn is_custom_styled(table: &Table, cell: &Cell) -> bool
    ensures { result ≡ (table.now.custom_styling && list_any has_escape cell.now.text_lines) }
{
    table.custom_styling && has_escape(cell)
}

// The lines of a cell in its row, in the empty list `list`. Most cells need no list.
#[inline(always)]
fn listed_lines<'a>(
    table: &'a Table,
    limit: Option<usize>,
    cell: CellSource<'a>,
    info: &ColumnDisplayInfo,
    list: Vec<Line<'a>>,
) -> Result<Vec<Line<'a>>>
    requires { list.items ≡ [] }
    ensures { IfOk result (λ lines. lines.items
        ≡ map drawn_line (lines_within table.now limit info.now (cell_in cell.entry))) }
{
    let measured = measured_lines(table, cell, info, list)?;
    let height = limit.unwrap_or(measured.len());
    if measured.len() <= height {
        return uncut_lines(table, cell, info, measured);
    }
    let kept = height.saturating_sub(1);
    let cut = cut_line(table, &measured[kept], info)?;
    let mut lines = uncut_lines(table, cell, info, measured)?;
    lines.truncate(kept);
    lines.push(cut)?;
    Ok(lines)
}

// The lines of a cell in a column as they are measured, in the empty list `list`. Text lines that
// fit stay as they are, and others are wrapped.
fn measured_lines<'a>(
    table: &Table,
    cell: CellSource<'a>,
    info: &ColumnDisplayInfo,
    list: Vec<Line<'a>>,
) -> Result<Vec<Line<'a>>>
    requires { list.items ≡ [] }
    ensures { IfOk result (λ lines. lines.items
        ≡ map drawn_text (cell_lines info.now.content_width
        (cell_delimiter table.now info.now.delimiter (cell_in cell.entry))
        (measured_cell table.now (cell_in cell.entry)))) }
{
    match cell {
        CellSource::Line(cell) => text_lines(table, cell, info, list),
        CellSource::Lines(cell) => several_lines(table, cell, info, list),
        CellSource::Own(cell) => cell_lines(table, cell, info, list),
    }
}

// The lines of a cell with one text line, in the empty list `lines`.
fn text_lines<'a>(
    table: &Table,
    cell: &TextCell<'a>,
    info: &ColumnDisplayInfo,
    mut lines: Vec<Line<'a>>,
) -> Result<Vec<Line<'a>>>
    requires { lines.items ≡ [] }
    ensures { IfOk result (λ lines. lines.items
        ≡ map drawn_text (cell_lines info.now.content_width
        (cell_delimiter table.now info.now.delimiter cell.now)
        (measured_cell table.now cell.now))) }
{
    let delimiter = table.delimiter_in(info.delimiter);
    let (text, after) = cell.line();
    if after == 0 {
        push_lines(&mut lines, text, cell.columns(), info, delimiter)?;
    } else {
        push_spaced(&mut lines, cell, info, delimiter)?;
    }
    Ok(lines)
}

// Appends the lines of a text with spaces after it. Each line has its text in memory of its own.
#[inline(never)]
fn push_spaced<'a>(
    lines: &mut Vec<Line<'a>>,
    cell: &TextCell<'_>,
    info: &ColumnDisplayInfo,
    delimiter: char,
) -> Result<()>
    ensures { OnOk result (lines.new.items
        ≡ lines.old.items ++ map drawn_text
        (cell_lines info.now.content_width delimiter cell.now)) }
{
    let alloc = *lines.allocator();
    let spaced = cell.spaced(alloc)?;
    let mut lent = Vec::new(alloc);
    push_lines(&mut lent, spaced.as_str(), cell.columns(), info, delimiter)?;
    for line in &lent {
        lines.push(line.copied(alloc)?)?;
    }
    Ok(())
}

// The lines of a cell with several text lines, in the empty list `lines`.
fn several_lines<'a>(
    table: &Table,
    cell: &LinesCell<'a>,
    info: &ColumnDisplayInfo,
    mut lines: Vec<Line<'a>>,
) -> Result<Vec<Line<'a>>>
    requires { lines.items ≡ [] }
    ensures { IfOk result (λ lines. lines.items
        ≡ map drawn_text (cell_lines info.now.content_width
        (cell_delimiter table.now info.now.delimiter cell.now)
        (measured_cell table.now cell.now))) }
{
    let delimiter = table.delimiter_in(info.delimiter);
    for line in cell.text().split('\n') {
        push_lines(&mut lines, line, measure_text_width(line), info, delimiter)?;
    }
    Ok(lines)
}

// The lines of a `Cell` in a column, in the empty list `lines`.
fn cell_lines<'a>(
    table: &Table,
    cell: &'a Cell,
    info: &ColumnDisplayInfo,
    mut lines: Vec<Line<'a>>,
) -> Result<Vec<Line<'a>>>
    requires { lines.items ≡ [] }
    ensures { IfOk result (λ lines. lines.items
        ≡ map drawn_text (cell_lines info.now.content_width
        (cell_delimiter table.now info.now.delimiter cell.now)
        (measured_cell table.now cell.now))) }
{
    let (texts, widths) = table.measured_lines(cell);
    let delimiter = table.delimiter_of(cell, info.delimiter);
    for (position, text) in texts.iter().enumerate() {
        push_lines(&mut lines, text.as_str(), widths[position], info, delimiter)?;
    }
    Ok(lines)
}

// Appends the lines of a text line that takes `columns` terminal columns: the text line itself if
// it fits, or else its wrapped lines.
#[inline(always)]
fn push_lines<'a>(
    lines: &mut Vec<Line<'a>>,
    text: &'a str,
    columns: usize,
    info: &ColumnDisplayInfo,
    delimiter: char,
) -> Result<()>
    requires { columns ≡ measure text.now }
    ensures { OnOk result (lines.new.items
        ≡ lines.old.items ++ map drawn_text
        (lines_of_text info.now.content_width delimiter text.now)) }
{
    if columns <= usize::from(info.content_width) {
        lines.push(Line::of_text(columns, text))?;
        return Ok(());
    }
    push_wrapped(lines, text, info, delimiter)
}

// Appends the wrapped lines of a text line.
#[inline(always)]
fn push_wrapped<'a>(
    lines: &mut Vec<Line<'a>>,
    text: &'a str,
    info: &ColumnDisplayInfo,
    delimiter: char,
) -> Result<()>
    ensures { OnOk result (lines.new.items
        ≡ lines.old.items ++ map drawn_text (wrapped info.now.content_width delimiter text.now)) }
{
    let mut wrapped = wrapped_lines(text, info, delimiter);
    while let Some((line, columns)) = wrapped.next_measured() {
        lines.push(Line::of_text(columns, line))?;
    }
    Ok(())
}

// The lines of a cell as they are written, made from its measured lines.
#[inline(always)]
fn uncut_lines<'a>(
    table: &Table,
    cell: CellSource<'_>,
    info: &ColumnDisplayInfo,
    measured: Vec<Line<'a>>,
) -> Result<Vec<Line<'a>>>
    requires { measured.items ≡ map drawn_text
        (cell_lines info.now.content_width
        (cell_delimiter table.now info.now.delimiter (cell_in cell))
        (measured_cell table.now (cell_in cell))) }
    ensures { IfOk result (λ lines. lines.items
        ≡ map drawn_line (uncut_lines table.now.custom_styling info.now.content_width
        (cell_delimiter table.now info.now.delimiter (cell_in cell.entry)) (cell_in cell.entry))) }
{
    match cell {
        CellSource::Line(cell) => {
            // Proof only: the clause of `line` shows that there is no ESC, so each line is written
            // as it is measured.
            let _ = cell.line();
            Ok(measured)
        }
        CellSource::Lines(cell) => {
            // Proof only: as above, for a text of several lines.
            let _ = cell.text();
            Ok(measured)
        }
        CellSource::Own(cell) => written_cell_lines(table, cell, info, measured),
    }
}

// The lines of a `Cell` as they are written, made from its measured lines.
#[inline(always)]
fn written_cell_lines<'a>(
    table: &Table,
    cell: &Cell,
    info: &ColumnDisplayInfo,
    measured: Vec<Line<'a>>,
) -> Result<Vec<Line<'a>>>
    requires { measured.items ≡ map drawn_text
        (cell_lines info.now.content_width (cell_delimiter table.now info.now.delimiter cell.now)
        (measured_cell table.now cell.now)) }
    ensures { IfOk result (λ lines. lines.items
        ≡ map drawn_line (uncut_lines table.now.custom_styling info.now.content_width
        (cell_delimiter table.now info.now.delimiter cell.now) cell.now)) }
{
    if !is_custom_styled(table, cell) {
        return Ok(measured);
    }
    let texts = written_lines(cell, info, table.delimiter_of(cell, info.delimiter))?;
    Ok(with_texts(measured, texts))
}

// The lines, with these texts in place of the texts of the first lines.
fn with_texts<'a>(mut lines: Vec<Line<'a>>, texts: Vec<String>) -> Vec<Line<'a>>
    ensures { result.items ≡ with_texts lines.entry.items (map string_bytes texts.items) }
{
    let mut position = 0;
    for text in texts {
        if let Some(line) = lines.get_mut(position) {
            line.text = CowStr::Owned(text);
            line.end = "";
            position += 1;
        }
    }
    lines
}

// The last line of a cell that is cut by the row's greatest height, made from its measured text.
// Only with `custom_styling` does it need memory of its own: a reset ends the sequences that are
// left open.
fn cut_line<'a>(table: &'a Table, measured: &Line<'a>, info: &ColumnDisplayInfo) -> Result<Line<'a>>
    ensures { IfOk result (λ line. line
        ≡ drawn_line (cut_line table.now.custom_styling info.now.content_width table.now.indicator
        (as_measured measured.now.written))) }
{
    match &measured.text {
        CowStr::Borrowed(text) if !table.custom_styling && measured.end.is_empty() => {
            let (head, indicator) = cut_text(table, *text, info);
            Ok(Line {
                columns: joined_width(*table.columns.allocator(), head, indicator)?,
                text: CowStr::Borrowed(head),
                end: indicator,
            })
        }
        _ => closed_line(table, measured, info),
    }
}

// The last line of a cell that is cut by the row's greatest height, with its text in memory of its
// own.
fn closed_line<'a>(table: &Table, measured: &Line, info: &ColumnDisplayInfo) -> Result<Line<'a>>
    ensures { IfOk result (λ line. line
        ≡ drawn_line (cut_line table.now.custom_styling info.now.content_width table.now.indicator
        (as_measured measured.now.written))) }
{
    let alloc = *table.columns.allocator();
    let measured = measured.written(alloc)?;
    let (head, indicator) = cut_text(table, measured.as_str(), info);
    let mut text = joined(alloc, head, indicator)?;
    let columns = measure_text_width(text.as_str());
    if table.custom_styling && leaves_sequence_open(text.as_str()) {
        push_reset(&mut text)?;
    }
    Ok(Line {
        columns,
        text: CowStr::Owned(text),
        end: "",
    })
}

// The head of a line, and the truncation indicator. The head leaves room for the indicator in the
// column. The indicator is empty if it is wider than the column.
fn cut_text<'a>(table: &'a Table, line: &'a str, info: &ColumnDisplayInfo) -> (&'a str, &'a str)
    ensures { result.0.now ++ result.1.now
        ≡ cut_text info.now.content_width table.now.indicator line.now }
{
    let columns = usize::from(info.content_width);
    let indicator = fitting_indicator(table.truncation_indicator(), columns);
    let left = columns.saturating_sub(measure_text_width(indicator));
    let (head, _) = split_long_word(left, line);
    (head, indicator)
}

// The width of two texts, one directly after the other, in terminal columns. They are measured as
// one text only if the second may join the end of the first.
fn joined_width(alloc: Global, text: &str, end: &str) -> Result<usize>
    ensures { IfOk result (λ columns. columns ≡ measure (text.now ++ end.now)) }
{
    if !may_join(end)
        && let Some(columns) = measure_text_width(text).checked_add(measure_text_width(end))
    {
        return Ok(columns);
    }
    Ok(measure_text_width(joined(alloc, text, end)?.as_str()))
}

// Returns false only if the first character of a text can't join a character before it.
fn may_join(text: &str) -> bool
    ensures { result ≡ false → IsApart text.now }
{
    match text.chars().next() {
        Some(first) => !adds_one_column(first),
        None => false,
    }
}

// The two texts as one.
fn joined(alloc: Global, text: &str, end: &str) -> Result<String>
    ensures { IfOk result (λ joined. string_bytes joined ≡ text.now ++ end.now) }
{
    let mut joined = String::with_capacity(alloc, text.len().saturating_add(end.len()))?;
    joined.push_str(text)?;
    joined.push_str(end)?;
    Ok(joined)
}

// The truncation indicator, or an empty text if the indicator is wider than the column.
fn fitting_indicator(indicator: &str, columns: usize) -> &str
    ensures { result.now ≡ fitting_indicator columns indicator.now }
{
    if measure_text_width(indicator) > columns {
        ""
    } else {
        indicator
    }
}
