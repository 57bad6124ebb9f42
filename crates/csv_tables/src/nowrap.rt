//! Widens columns so that numbers and dates aren't broken over lines, if the width has room for
//! them. Columns share a width up to a *level*: the greatest content width, in terminal columns, of
//! a column that doesn't have to keep more. The only error of the functions is that memory runs
//! out.

ghost use Rattle.std.specs.Prelude.{◌≡◌, ◌==◌, ◌||◌, ◌-◌, Bool, List, ◌≤◌, ◌^◌, All, IfOk, None, OnOk, Some, chars, false, if◌then◌else◌, length, map, max, min, nat_le, nat_lt, option_copied, slice_get, true, unwrap_or};
ghost use Rattle.std.specs.List.{list_all, list_any, slice_split};
ghost use Rattle.comfy_parts.specs.Text.{greatest};
ghost use Rattle.csv_records.specs.Number.{is_neutral, is_number};
ghost use Rattle.comfy_table.specs.RowCells.{cell_of};
ghost use Rattle.comfy_table.specs.TableValue.{TableValue, constrained, measured_cell};
ghost use Rattle.csv_tables.specs.Limits.{bounded_width, has_room_in, has_room_within, level_within, limited_by, most_within, with_own_limits, with_widths};
ghost use Rattle.csv_tables.specs.Decimals.{longest_kept};
ghost use Rattle.csv_tables.specs.NoWrap.{Wanted, least_level, kept_of_fields, kept_of_name, by_columns, cell_nowrap_width, field_width, fields_need, reserved_width, clamped_word, is_of_dates, is_of_stamps, is_nowrap, is_short_value, is_stamp, min_width, with_min_field_width, may_break, name_in, room_beside, room_for_two, shared_content, nowrap_width, wide_word, with_content, with_field_width, word_width};
ghost use Rattle.csv_tables.specs.Cells.{cell_for};
ghost use Rattle.csv_tables.specs.Contents.{greatest_at, pairs_by};
ghost use Rattle.csv_tables.specs.Drawn.{nowrap_in, wanted_in};
ghost use Rattle.csv_tables.specs.Styled.{limits_in};

use crate::decimals::LONGEST_KEPT;
use crate::lazy_table::LazyTable;
use crate::limits::{
    ColumnLimits, hold_points, limits_for, limits_in, pad_contents, reached_limits, taken_at,
};
use crate::needs::{Words, kept_of_fields, kept_of_name, least_words, lines_word_width};
use crate::selected::SelectedRecords;
use comfy_parts::content_split::{is_printable, measure_text_width};
use comfy_parts::for_tables::measured_lines;
use comfy_table::for_records::{LinesCell, RowCell, TextCell};
use comfy_table::utils::arrangement::helper::count_border_columns;
use comfy_table::{Cell, Column, ColumnConstraint, Result, Table, Width};
use csv_records::{is_neutral, is_number};
use std::alloc::{AllocError, Global};

/// The greatest number of terminal columns that a column needs for a word of its name.
pub(crate) const LONGEST_WORD: u16 = 20;

/// The number of terminal columns that each column needs for its content at least. A column whose
/// content is narrower needs only the width of the content.
pub(crate) const LEAST_LEVEL: u16 = 8;

// The greatest number of characters of a time stamp. All of them are ASCII.
const LONGEST_STAMP: usize = 35;

// The greatest number of terminal columns that the names of expanded records need.
const NEEDED_NAMES: u16 = 4;

/// Sets the paddings and limits of columns, and least widths with which no number or date is broken
/// over lines. Returns true if there is room for the table. If the set width has no room for the
/// least widths, none of these widths is set, and the result is false. The result is also false if
/// decimal points are aligned in a column whose greatest width would wrap its texts.
pub(crate) fn keep_nowrap(contents: &mut LazyTable) -> Result<bool>
    requires { contents.old.rows.is_expanded ≡ false }
    ensures contents { OnOk result (contents.new ≡ record contents.old {
      table = limited_by
          (limits_in contents.old.rows.settings.columns contents.old.rows.selected)
          contents.old.rows.look.width
          (wanted_in contents.old.rows.look contents.old.rows.selected) contents.old.table;
    }) }
    ensures has_room { IfOk result (λ has. has
        ≡ has_room_in (limits_in contents.old.rows.settings.columns contents.old.rows.selected)
        contents.old.rows.look.width contents.old.rows.is_aligned
        (wanted_in contents.old.rows.look contents.old.rows.selected) contents.old.table) }
{
    let rows = &contents.rows;
    let limits = limits_in(rows.settings.of_columns(), &rows.selected)?;
    pad_contents(contents, limits.as_slice());
    let hold_points = hold_points(limits.as_slice(), contents)? || !contents.rows.is_aligned;
    let reached = reached_limits(limits.as_slice(), contents)?;
    let has_room = keep_limits(contents, reached.as_slice())?;
    Ok(hold_points && has_room)
}

// Sets the limits of columns, whose paddings were set before. Returns true if no width is set, or
// if the width has room.
fn keep_limits(contents: &mut LazyTable, limits: &[ColumnLimits]) -> Result<bool>
    requires { contents.old.rows.is_expanded ≡ false }
    ensures contents { OnOk result (contents.new ≡ record contents.old {
      table = with_widths limits.now contents.old.rows.look.width
          (wanted_in contents.old.rows.look contents.old.rows.selected) contents.old.table;
    }) }
    ensures has_room { IfOk result (λ has. has
        ≡ has_room_within limits.now contents.old.rows.look.width
        (wanted_in contents.old.rows.look contents.old.rows.selected) contents.old.table) }
{
    match contents.rows.look.width {
        Some(width) => keep_within(contents, limits, width),
        None => {
            keep_contents(contents, limits)?;
            Ok(true)
        }
    }
}

// Lets columns be as wide as their contents, within their limits, if they have limits.
fn keep_contents(
    contents: &mut LazyTable,
    limits: &[ColumnLimits],
) -> std::result::Result<(), AllocError>
    ensures { OnOk result (contents.new ≡ record contents.old {
      table = with_widths limits.now None
          (wanted_in contents.old.rows.look contents.old.rows.selected)
          contents.old.table;
    }) }
{
    if limits.is_empty() {
        return Ok(());
    }
    let alloc = contents.rows.selected.alloc;
    let constraints = limits_for(alloc, limits, contents.widths())?;
    constrain_contents(contents, constraints);
    Ok(())
}

// Sets the limits of columns, if they have limits, and reserves no content width.
fn keep_nothing(
    contents: &mut LazyTable,
    limits: &[ColumnLimits],
) -> std::result::Result<(), AllocError>
    ensures { OnOk result (contents.new ≡ record contents.old {
      table = with_own_limits limits.now contents.old.table;
    }) }
{
    if limits.is_empty() {
        return Ok(());
    }
    let alloc = contents.rows.selected.alloc;
    let constraints = limits_for(alloc, limits, &[])?;
    constrain_contents(contents, constraints);
    Ok(())
}

fn keep_within(contents: &mut LazyTable, limits: &[ColumnLimits], width: u16) -> Result<bool>
    requires { contents.old.rows.is_expanded ≡ false }
    ensures contents { OnOk result (contents.new ≡ record contents.old {
      table = with_widths limits.now (Some width)
          (wanted_in contents.old.rows.look contents.old.rows.selected)
          contents.old.table;
    }) }
    ensures has_room { IfOk result (λ has. has ≡ has_room_within limits.now (Some width)
        (wanted_in contents.old.rows.look contents.old.rows.selected) contents.old.table) }
{
    let nowrap = nowrap_columns(&contents.rows.selected)?;
    let words = least_words(contents.rows.look.max_height);
    let least = kept_contents(contents, nowrap.as_slice(), words)?;
    if !fits(contents, limits, least.as_slice(), LEAST_LEVEL, width) {
        keep_nothing(contents, limits)?;
        return Ok(false);
    }
    let alloc = contents.rows.selected.alloc;
    let kept = most_contents(contents, limits, nowrap.as_slice(), least, width)?;
    let level = level_within(contents, limits, kept.as_slice(), width);
    let given = given_contents(alloc, kept.as_slice(), nowrap.as_slice(), level)?;
    let constraints = limits_for(alloc, limits, given.as_slice())?;
    constrain_contents(contents, constraints);
    Ok(true)
}

// For each drawn column, true if it holds only numbers and dates. All are false if there are no
// rows.
fn nowrap_columns(selected: &SelectedRecords) -> std::result::Result<Vec<bool>, AllocError>
    ensures { IfOk result (λ nowrap. nowrap.items ≡ nowrap_in selected.now) }
{
    let has_rows = !selected.rows().is_empty();
    let mut nowrap = Vec::with_capacity(selected.alloc, selected.columns.len())?;
    if selected.is_numbered {
        nowrap.push(has_rows)?;
    }
    for column in &selected.columns {
        nowrap.push(has_rows && column.is_nowrap)?;
    }
    Ok(nowrap)
}

// The content width that each column of a table of rows keeps, in terminal columns.
fn kept_contents(contents: &LazyTable, nowrap: &[bool], words: Words) -> Result<Vec<u16>>
    requires { contents.now.rows.is_expanded ≡ false }
    ensures { IfOk result (λ kept. kept.items ≡ by_columns
        (min_width (record { nowrap = nowrap.now; words = words }) contents.now.table)
        contents.now.table) }
{
    let widths = contents.widths();
    let mut kept = Vec::with_capacity(contents.rows.selected.alloc, widths.len())?;
    for (at, content) in widths.iter().enumerate() {
        let is_nowrap = may_not_break(nowrap, at);
        kept.push(kept_content(contents, words, is_nowrap, at, *content)?)?;
    }
    Ok(kept)
}

// The content widths that columns keep in a width. `least` are the widths that they keep at least,
// and the width has room for these. If all contents have room, the result is `least`. Otherwise
// words of fields are kept whole if there is room, or else words of names.
fn most_contents(
    contents: &LazyTable,
    limits: &[ColumnLimits],
    nowrap: &[bool],
    least: Vec<u16>,
    width: u16,
) -> Result<Vec<u16>>
    requires { contents.now.rows.is_expanded ≡ false }
    ensures { (words : Words) → least.items ≡ by_columns
        (min_width (record { nowrap = nowrap.now; words = words }) contents.now.table)
        contents.now.table
        → IfOk result (λ kept. kept.items ≡ by_columns
        (min_width (most_within limits.now width
        (record { nowrap = nowrap.now; words = words }) contents.now.table) contents.now.table)
        contents.now.table) }
{
    if fits(contents, limits, least.as_slice(), width, width) {
        return Ok(least);
    }
    let fields = kept_contents(contents, nowrap, Words::OfFields)?;
    if fits(contents, limits, fields.as_slice(), LEAST_LEVEL, width) {
        return Ok(fields);
    }
    let names = kept_contents(contents, nowrap, Words::OfNames)?;
    if fits(contents, limits, names.as_slice(), LEAST_LEVEL, width) {
        return Ok(names);
    }
    Ok(least)
}

// Returns true if a width has room for columns that have their contents up to `level`, but at least
// what they keep.
fn fits(contents: &LazyTable, limits: &[ColumnLimits], kept: &[u16], level: u16, width: u16) -> bool
    ensures { (wanted : Wanted)
        → kept.now ≡ by_columns (min_width wanted contents.now.table) contents.now.table
        → result ≡ nat_le (bounded_width limits.now level wanted contents.now.table) width }
{
    bounded_width(contents, limits, kept, level) <= usize::from(width)
}

// The width of the table, in terminal columns, if each column has its content up to `level`, but at
// least what it keeps, within its limits. Borders and paddings are included. At most `usize::MAX`.
fn bounded_width(contents: &LazyTable, limits: &[ColumnLimits], kept: &[u16], level: u16) -> usize
    ensures { (wanted : Wanted)
        → kept.now ≡ by_columns (min_width wanted contents.now.table) contents.now.table
        → result ≡ min (2 ^ 64 - 1) (bounded_width limits.now level wanted contents.now.table) }
{
    let widths = contents.widths();
    let mut width = count_border_columns(&contents.table, widths.len());
    for (at, content) in widths.iter().enumerate() {
        let keeps = kept.get(at).copied().unwrap_or(0);
        let content = shared_content(level, keeps, *content);
        width = width.saturating_add(taken_at(limits, at, content));
    }
    width
}

fn shared_content(level: u16, kept: u16, content: u16) -> u16
    ensures { result ≡ shared_content level kept content }
{
    content.min(level).max(kept).max(1)
}

// The greatest level for which a width has room; 0 if there is none.
fn level_within(contents: &LazyTable, limits: &[ColumnLimits], kept: &[u16], width: u16) -> u16
    ensures { (wanted : Wanted)
        → kept.now ≡ by_columns (min_width wanted contents.now.table) contents.now.table
        → result ≡ level_within limits.now width wanted contents.now.table }
{
    let mut level = width;
    while level > 0 && bounded_width(contents, limits, kept, level) > usize::from(width) {
        level -= 1;
    }
    level
}

fn may_not_break(nowrap: &[bool], at: usize) -> bool
    ensures { result ≡ unwrap_or (slice_get nowrap.now at) false }
{
    match nowrap.get(at) {
        Some(is_nowrap) => *is_nowrap,
        None => false,
    }
}

// The part of its content width that the column at a position keeps, in terminal columns. A content
// of at most `LEAST_LEVEL` is kept whole.
fn kept_content(
    contents: &LazyTable,
    words: Words,
    is_nowrap: bool,
    at: usize,
    content: u16,
) -> Result<u16>
    requires { contents.now.rows.is_expanded ≡ false }
    ensures { IfOk result (λ kept. kept ≡ (if nat_le content least_level
        then content
        else min content (max
        (kept_of_name words (wide_word contents.now.table (name_in contents.now.table at)))
        (kept_of_fields words is_nowrap
        (min content (fields_need is_nowrap contents.now.table at)))))) }
{
    if content <= LEAST_LEVEL {
        return Ok(content);
    }
    let of_name = kept_of_name(&contents.table, words, at);
    let of_fields = kept_of_fields(contents, words, is_nowrap, at, content)?;
    Ok(of_name.max(of_fields).min(content))
}

/// The cell of the header at the place `at`, counted from 0. `None` if there is no header, or if it
/// ends before this place.
pub(crate) fn name_in(table: &Table, at: usize) -> Option<&Cell>
    ensures { option_copied result ≡ name_in table.now at }
{
    match table.header() {
        Some(header) => header.cell_iter().as_slice().get(at),
        None => None,
    }
}

/// The width of the widest word of `name` in terminal columns, at most `LONGEST_WORD`. 0 if `name`
/// is `None`, or if none of its words takes more than `LEAST_LEVEL` terminal columns.
pub(crate) fn wide_word(table: &Table, name: Option<&Cell>) -> u16
    ensures { result ≡ wide_word table.now (option_copied name.entry) }
{
    let Some(name) = name else {
        return 0;
    };
    clamped_word(lines_word_width(table, name))
}

fn clamped_word(width: usize) -> u16
    ensures { result ≡ clamped_word width }
{
    if width > usize::from(LEAST_LEVEL) {
        width.min(usize::from(LONGEST_WORD)) as u16
    } else {
        0
    }
}

/// The width of the widest word of the text line `line`, in terminal columns. Spaces separate
/// words.
pub(crate) fn word_width(line: &str) -> usize
    ensures { result ≡ word_width line.now }
{
    if is_printable(line.as_bytes()) {
        return longest_word(line.as_bytes());
    }
    let mut widest = 0;
    for word in line.split(' ') {
        widest = measure_text_width(word).max(widest);
    }
    widest
}

// The bytes of the longest word of a text line. In printable ASCII they are its terminal columns,
// and counting them is faster than measuring each word.
fn longest_word(line: &[u8]) -> usize
    ensures { result ≡ greatest (map length (slice_split (λ b. b == 0x20) line.now)) }
{
    let mut longest = 0;
    let mut len = 0;
    for byte in line {
        if *byte == b' ' {
            longest = len.max(longest);
            len = 0;
        } else {
            len += 1;
        }
    }
    len.max(longest)
}

fn constrain_contents(contents: &mut LazyTable, constraints: Vec<ColumnConstraint>)
    ensures { contents.new ≡ record contents.old {
      table = record contents.old.table {
        columns = constrained constraints.items contents.old.table.columns;
      };
    } }
{
    constrain_columns(&mut contents.table, constraints);
}

fn constrain_columns(table: &mut Table, constraints: Vec<ColumnConstraint>)
    ensures { table.new ≡ record table.old {
      columns = constrained constraints.items table.old.columns;
    } }
{
    table.set_constraints(constraints);
}

// The content widths that columns which keep `kept` get before all columns share the rest of a
// width up to a level.
fn given_contents(
    alloc: Global,
    kept: &[u16],
    nowrap: &[bool],
    level: u16,
) -> std::result::Result<Vec<u16>, AllocError>
    ensures { IfOk result (λ given. (words : Words) (table : TableValue)
        → let wanted : Wanted = record { nowrap = nowrap.now; words = words } in
        kept.now ≡ by_columns (min_width wanted table) table
        → given.items ≡ by_columns (reserved_width level wanted table) table) }
{
    let mut given = Vec::with_capacity(alloc, kept.len())?;
    for (at, keeps) in kept.iter().enumerate() {
        given.push(given_content(may_not_break(nowrap, at), level, *keeps))?;
    }
    Ok(given)
}

// The content width that a column gets before all columns share the rest. It is what the column
// keeps, if its fields aren't broken or if it keeps more than the level, and otherwise 0.
fn given_content(is_nowrap: bool, level: u16, kept: u16) -> u16
    ensures { result ≡ (if is_nowrap || nat_lt level kept then kept else 0) }
{
    if is_nowrap || level < kept { kept } else { 0 }
}

/// Makes the column of fields of expanded records as wide as the widest number or date that has
/// room beside the names. The table is unchanged if no width is set, or if no number or date would
/// be broken anyway. The only error is `OutOfMemory`.
pub(crate) fn keep_nowrap_fields(contents: &mut LazyTable) -> Result<()>
    requires expanded { contents.old.rows.is_expanded ≡ true }
    requires header { contents.old.table.header ≡ None }
    ensures { OnOk result (contents.new ≡ record contents.old {
      table = with_min_field_width contents.old.rows.look.width contents.old.table;
    }) }
{
    let Some(width) = contents.rows.look.width else {
        return Ok(());
    };
    let names = contents.widths().first().copied().unwrap_or(0);
    let room = room_for_two(&contents.table, width);
    if !may_break(room, names, contents.widths().get(1).copied().unwrap_or(0)) {
        return Ok(());
    }
    let field = field_width(contents, room_beside(names, room))?;
    if may_break(room, names, field) {
        widen_contents(contents, field);
    }
    Ok(())
}

// The terminal columns that a width leaves for the contents of two columns, beside borders and
// paddings.
fn room_for_two(table: &Table, width: u16) -> u16
    ensures value { result ≡ room_for_two width table.now.style }
    ensures below { result ≤ 65531 }
{
    let beside = count_border_columns(table, 2).saturating_add(4).min(65535) as u16;
    width.saturating_sub(beside)
}

// The terminal columns of a room that are left beside what the names need.
fn room_beside(names: u16, room: u16) -> u16
    ensures { result ≡ room_beside names room }
{
    room.saturating_sub(names.min(NEEDED_NAMES).max(1))
}

// The width of the widest number or date, in terminal columns, among the fields that take at most
// `room` terminal columns; 0 if there is none.
fn field_width(contents: &LazyTable, room: u16) -> Result<u16>
    requires expanded { contents.now.rows.is_expanded ≡ true }
    requires header { contents.now.table.header ≡ None }
    ensures value { IfOk result (λ width. width ≡ field_width room contents.now.table) }
    ensures within { IfOk result (λ width. width ≤ room) }
{
    let rows = &contents.rows;
    let mut widest = 0;
    for fields in rows.selected.rows() {
        widest = rows
            .nowrap_width(&contents.table, &fields, room)?
            .max(widest);
    }
    Ok(widest)
}

/// The width, in terminal columns, of the widest number or date in `cell`. A text line counts if
/// `is_nowrap` is true for it, and if it takes at most `room` terminal columns. The width is 0 if
/// there is no such text line.
pub(crate) fn cell_nowrap_width(
    alloc: Global,
    table: &Table,
    cell: &RowCell<'_>,
    room: u16,
) -> Result<u16>
    ensures value { IfOk result (λ width. width
        ≡ cell_nowrap_width room (measured_cell table.now (cell_of cell.now))) }
    ensures within { IfOk result (λ width. width ≤ room) }
{
    match cell {
        RowCell::Lent(cell) => text_nowrap_width(alloc, cell, room),
        RowCell::Several(cell) => Ok(lent_nowrap_width(cell, room)),
        RowCell::Made(cell) => Ok(lines_nowrap_width(table, cell, room)),
    }
}

// The width of a lent text of one line, if it is a number or a date of at most `room` terminal
// columns; else 0.
fn text_nowrap_width(alloc: Global, cell: &TextCell<'_>, room: u16) -> Result<u16>
    ensures value { (table : TableValue) → IfOk result (λ width. width
        ≡ cell_nowrap_width room (measured_cell table cell.now)) }
    ensures within { IfOk result (λ width. width ≤ room) }
{
    let (text, after) = cell.line();
    if after == 0 {
        return Ok(nowrap_width(text, room));
    }
    let spaced = cell.spaced(alloc)?;
    Ok(nowrap_width(spaced.as_str(), room))
}

// The width of the widest number or date among the lines of a lent text that take at most `room`
// terminal columns; 0 if there is none.
fn lent_nowrap_width(cell: &LinesCell<'_>, room: u16) -> u16
    ensures value { (table : TableValue)
        → result ≡ cell_nowrap_width room (measured_cell table cell.now) }
    ensures within { result ≤ room }
{
    let mut widest = 0;
    for line in cell.text().split('\n') {
        widest = nowrap_width(line, room).max(widest);
    }
    widest
}

// The width of the widest number or date among the lines of a made cell that take at most `room`
// terminal columns; 0 if there is none.
fn lines_nowrap_width(table: &Table, cell: &Cell, room: u16) -> u16
    ensures value { result ≡ cell_nowrap_width room (measured_cell table.now cell.now) }
    ensures within { result ≤ room }
{
    let (lines, _) = measured_lines(cell, table.has_custom_styling());
    let mut widest = 0;
    for line in lines {
        widest = nowrap_width(line.as_str(), room).max(widest);
    }
    widest
}

// The width of a text line, if it is a number or a date of at most `room` terminal columns; else 0.
fn nowrap_width(line: &str, room: u16) -> u16
    ensures value { result ≡ nowrap_width room line.now }
    ensures within { result ≤ room }
{
    if !is_nowrap(line) {
        return 0;
    }
    let width = measure_text_width(line);
    if width <= usize::from(room) {
        width as u16
    } else {
        0
    }
}

// Returns true if a field of this width might be broken beside names of this width. `room` is the
// width that both share.
fn may_break(room: u16, names: u16, field: u16) -> bool
    ensures { result ≡ may_break room names field }
{
    u32::from(room) < u32::from(names.min(field)) + u32::from(field)
}

fn widen_contents(contents: &mut LazyTable, content: u16)
    requires { content ≤ 65531 }
    ensures { contents.new ≡ record contents.old {
      table = with_field_width content contents.old.table;
    } }
{
    widen_fields(&mut contents.table, content);
}

// Sets the width of the column of fields to this content width and its paddings.
fn widen_fields(table: &mut Table, content: u16)
    requires { content ≤ 65531 }
    ensures { table.new ≡ with_field_width content table.old }
{
    if let Some(column) = table.column_mut(1) {
        set_content(column, content);
    }
}

fn set_content(column: &mut Column, content: u16)
    requires { content ≤ 65531 }
    ensures { column.new ≡ with_content content column.old }
{
    column.set_constraint(ColumnConstraint::Absolute(Width::Fixed(content + 2)));
}

/// Returns true if a field isn't broken over lines. Such a field is a time stamp (`is_stamp`), or
/// is short (`is_short`) and is a number, a date, a time or neutral (`csv_records::is_neutral`),
/// such as `n/a`.
pub(crate) fn is_nowrap(field: &str) -> bool
    ensures { result ≡ is_nowrap field.now }
{
    is_short_value(field) || is_stamp(field.as_bytes())
}

// Returns true if a field is short, and is a number, neutral (`csv_records::is_neutral`), or made
// of the characters of dates and times.
fn is_short_value(field: &str) -> bool
    ensures { result ≡ is_short_value field.now }
{
    is_short(field) && (are_of_dates(field.as_bytes()) || is_numeric(field))
}

/// Returns true if a field counts as a time stamp: it has at most `LONGEST_STAMP` characters, all
/// of them characters of time stamps, and one of them is a colon.
pub(crate) fn is_stamp(field: &[u8]) -> bool
    ensures { result ≡ is_stamp field.now }
{
    field.len() <= LONGEST_STAMP && has_colon(field) && are_of_stamps(field)
}

fn has_colon(bytes: &[u8]) -> bool
    ensures { result ≡ list_any (λ c. c == 0x3A) bytes.now }
{
    bytes.iter().any(|byte| *byte == b':')
}

fn are_of_stamps(bytes: &[u8]) -> bool
    ensures { result ≡ list_all is_of_stamps bytes.now }
{
    bytes.iter().all(|byte| is_of_stamps(*byte))
}

// Returns true for a character of dates, and for a letter of `UTC`, `AM` and `PM`.
fn is_of_stamps(byte: u8) -> bool
    ensures { result ≡ is_of_stamps byte }
{
    is_of_dates(byte) || matches!(byte, b'U' | b'C' | b'A' | b'P' | b'M')
}

// Returns true for a number, and for a neutral field (`csv_records::is_neutral`).
fn is_numeric(field: &str) -> bool
    ensures { result ≡ is_number field.now || is_neutral field.now }
{
    is_number(field) || is_neutral(field)
}

/// Returns true if a field has at most `LONGEST_KEPT` characters.
pub(crate) fn is_short(field: &str) -> bool
    ensures { result ≡ nat_le (length (chars field.now)) longest_kept }
{
    field.len() <= LONGEST_KEPT || field.chars().count() <= LONGEST_KEPT
}

fn are_of_dates(bytes: &[u8]) -> bool
    ensures { result ≡ list_all is_of_dates bytes.now }
{
    bytes.iter().all(|byte| is_of_dates(*byte))
}

// Returns true for a digit, a mark of dates and times, and a space.
fn is_of_dates(byte: u8) -> bool
    ensures { result ≡ is_of_dates byte }
{
    byte.is_ascii_digit() || matches!(byte, b'-' | b'/' | b':' | b'.' | b'T' | b'Z' | b'+' | b' ')
}
