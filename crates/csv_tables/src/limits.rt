//! Paddings, and least and greatest widths, that a caller sets for columns. The only error of the
//! functions is that memory runs out.

ghost use Rattle.std.specs.Prelude.{◌≡◌, ◌≤◌, ◌||◌, All, IfOk, [], length, map, max, not, option_map, slice_index};
ghost use Rattle.std.specs.List.{range_with_len};
ghost use Rattle.comfy_table.specs.Lines.{longest_line_at};
ghost use Rattle.csv_tables.specs.Limits.{between, both_paddings, bounded, hold_points, is_within, least_greatest, limit_for, limits_at, limits_for, limits_of, lower_limit, no_limits, padded_at, reached_greatest, reached_limits, settings_at, taken, with_both_paddings, with_paddings};
ghost use Rattle.csv_tables.specs.NoWrap.{lower_bound};
ghost use Rattle.csv_tables.specs.Styled.{limits_in};

use crate::lazy_table::LazyTable;
use crate::selected::SelectedRecords;
use crate::settings::ColumnSettings;
use comfy_parts::content_split::ColumnDisplayInfo;
use comfy_table::for_records::TableSource;
use comfy_table::{Column, ColumnConstraint, Result, Table, Width};
use std::alloc::{AllocError, Global};

/// The paddings of a column, and the content widths that it may have. All of them are counted in
/// terminal columns.
#[derive(Clone, Copy)]
pub(crate) struct ColumnLimits {
    // the terminal columns that stay free to the left and to the right
    pub padding: (u16, u16),
    // 0 if there is no least width
    pub least: u16,
    // at least 1, and at least the least width
    pub greatest: Option<u16>,
    // true if the fields of the column have a decimal mark that may be lined up
    pub has_points: bool,
}

/// The limits (`ColumnLimits`) of each column of the table of rows, in the order of the columns. A
/// column of record numbers is the first one. The list is empty if `settings` is empty.
pub(crate) fn limits_in(
    settings: &[ColumnSettings],
    selected: &SelectedRecords,
) -> std::result::Result<Vec<ColumnLimits>, AllocError>
    ensures { IfOk result (λ limits. limits.items ≡ limits_in settings.now selected.now) }
{
    let mut limits = Vec::new(selected.alloc);
    if settings.is_empty() {
        return Ok(limits);
    }
    if selected.is_numbered {
        limits.push(no_limits())?;
    }
    for column in &selected.columns {
        let own = settings_at(settings, column.position);
        limits.push(limits_of(own, column.points.is_some()))?;
    }
    Ok(limits)
}

/// The settings of the column at `position`, which is counted from 0. The result is
/// `ColumnSettings::none` if `settings` ends before this position.
pub(crate) fn settings_at(settings: &[ColumnSettings], position: usize) -> ColumnSettings
    ensures { result ≡ settings_at settings.now position }
{
    match settings.get(position) {
        Some(own) => *own,
        None => ColumnSettings::none(),
    }
}

fn limits_of(settings: ColumnSettings, has_points: bool) -> ColumnLimits
    ensures { result ≡ limits_of settings has_points }
{
    ColumnLimits {
        padding: settings.padding,
        least: settings.least.unwrap_or(0),
        greatest: greatest_of(settings),
        has_points,
    }
}

// The greatest width of a column with these settings, if it has one: at least 1, and at least the
// least width.
fn greatest_of(settings: ColumnSettings) -> Option<u16>
    ensures { result ≡ option_map (max (least_greatest settings)) settings.greatest }
{
    match settings.greatest {
        Some(greatest) => Some(settings.least.unwrap_or(0).max(1).max(greatest)),
        None => None,
    }
}

fn no_limits() -> ColumnLimits
    ensures { result ≡ no_limits }
{
    limits_of(ColumnSettings::none(), false)
}

fn limits_at(limits: &[ColumnLimits], at: usize) -> ColumnLimits
    ensures { result ≡ limits_at limits.now at }
{
    match limits.get(at) {
        Some(own) => *own,
        None => no_limits(),
    }
}

/// Sets the padding of each column of `contents` to that in `limits`. Columns past the end of
/// `limits` keep their paddings.
pub(crate) fn pad_contents(contents: &mut LazyTable, limits: &[ColumnLimits])
    ensures { contents.new ≡ record contents.old {
      table = with_paddings limits.now contents.old.table;
    } }
{
    pad_columns(&mut contents.table, limits);
}

fn pad_columns(table: &mut Table, limits: &[ColumnLimits])
    ensures { table.new ≡ with_paddings limits.now table.old }
{
    for at in 0..limits.len() {
        pad_column(table, at, limits_at(limits, at).padding);
    }
}

// Sets the padding of the column at a place. Does nothing if there is no such column.
fn pad_column(table: &mut Table, at: usize, padding: (u16, u16))
    ensures { table.new ≡ record table.old {
      columns = padded_at at padding table.old.columns;
    } }
{
    if let Some(column) = table.column_mut(at) {
        set_padding(column, padding);
    }
}

fn set_padding(column: &mut Column, padding: (u16, u16))
    ensures { column.new ≡ record column.old { padding = padding } }
{
    column.set_padding(padding);
}

/// The width that the column at the place `at` takes, in terminal columns, if its content has the
/// width `content`. The width has both paddings, and the content's width is raised or lowered to
/// the column's limits.
pub(crate) fn taken_at(limits: &[ColumnLimits], at: usize, content: u16) -> usize
    ensures { result ≡ taken (limits_at limits.now at) content }
{
    let own = limits_at(limits, at);
    both_paddings(own) + usize::from(bounded(own, content))
}

fn both_paddings(limits: ColumnLimits) -> usize
    ensures value { result ≡ both_paddings limits }
    ensures within { result ≤ 131070 }
{
    usize::from(limits.padding.0) + usize::from(limits.padding.1)
}

// A content width, no greater than the greatest width and no less than the least one.
fn bounded(limits: ColumnLimits, content: u16) -> u16
    ensures { result ≡ bounded limits content }
{
    match limits.greatest {
        Some(greatest) => content.min(greatest).max(limits.least),
        None => content.max(limits.least),
    }
}

/// The constraint for each column that gives it at least its content width in `given`, as far as
/// its limits allow. If `limits` is empty, each column has a padding of one terminal column on both
/// sides.
pub(crate) fn limits_for(
    alloc: Global,
    limits: &[ColumnLimits],
    given: &[u16],
) -> std::result::Result<Vec<ColumnConstraint>, AllocError>
    requires { limits.now ≡ [] → All (λ content. content ≤ 65533) given.now }
    ensures { IfOk result (λ constraints.
        constraints.items ≡ limits_for limits.now given.now) }
{
    if limits.is_empty() {
        lower_bounds(alloc, given)
    } else {
        column_limits(alloc, limits, given)
    }
}

fn lower_bounds(
    alloc: Global,
    given: &[u16],
) -> std::result::Result<Vec<ColumnConstraint>, AllocError>
    requires { All (λ content. content ≤ 65533) given.now }
    ensures { IfOk result (λ constraints.
        constraints.items ≡ map lower_bound given.now) }
{
    let mut constraints = Vec::with_capacity(alloc, given.len())?;
    for content in given {
        let boundary = if *content > 0 { *content + 2 } else { 0 };
        constraints.push(ColumnConstraint::LowerBoundary(Width::Fixed(boundary)))?;
    }
    Ok(constraints)
}

fn column_limits(
    alloc: Global,
    limits: &[ColumnLimits],
    given: &[u16],
) -> std::result::Result<Vec<ColumnConstraint>, AllocError>
    ensures { IfOk result (λ constraints. constraints.items
        ≡ map (λ i. limit_for (limits_at limits.now i) (slice_index given.now i))
        (range_with_len 0 (length limits.now))) }
{
    let mut constraints = Vec::with_capacity(alloc, limits.len())?;
    for at in 0..limits.len() {
        let content = given.get(at).copied().unwrap_or(0);
        constraints.push(limit_for(limits_at(limits, at), content))?;
    }
    Ok(constraints)
}

// The constraint that gives a column at least this content width, within its limits.
fn limit_for(limits: ColumnLimits, given: u16) -> ColumnConstraint
    ensures { result ≡ limit_for limits given }
{
    let lower = lower_limit(limits, given);
    match limits.greatest {
        Some(greatest) => between(lower, with_both_paddings(limits, greatest)),
        None => ColumnConstraint::LowerBoundary(Width::Fixed(lower)),
    }
}

// The lower bound of the width of a column that is given this content, with its paddings. 0 if the
// content and the least width are 0.
fn lower_limit(limits: ColumnLimits, given: u16) -> u16
    ensures { result ≡ lower_limit limits given }
{
    let width = bounded(limits, given);
    if width > 0 {
        with_both_paddings(limits, width)
    } else {
        0
    }
}

fn with_both_paddings(limits: ColumnLimits, width: u16) -> u16
    ensures { result ≡ with_both_paddings limits width }
{
    (usize::from(width) + both_paddings(limits)).min(65535) as u16
}

fn between(lower: u16, upper: u16) -> ColumnConstraint
    ensures { result ≡ between lower upper }
{
    if lower == upper {
        ColumnConstraint::Absolute(Width::Fixed(upper))
    } else {
        ColumnConstraint::Boundaries {
            lower: Width::Fixed(lower),
            upper: Width::Fixed(upper),
        }
    }
}

/// Returns true if no text of a column with a decimal mark is wrapped: the greatest width of each
/// such column has room for the column's content.
pub(crate) fn hold_points(limits: &[ColumnLimits], contents: &LazyTable) -> Result<bool>
    ensures { IfOk result (λ hold. hold ≡ hold_points limits.now contents.now.table) }
{
    let mut hold = true;
    for at in 0..limits.len() {
        hold &= holds_points(limits_at(limits, at), contents.content_width(at)?);
    }
    Ok(hold)
}

// Returns true unless the column has decimal points to line up, and its content is wider than its
// greatest width.
fn holds_points(limits: ColumnLimits, content: u16) -> bool
    ensures { result ≡ not limits.has_points || is_within limits.greatest content }
{
    !limits.has_points || is_within(limits.greatest, content)
}

fn is_within(greatest: Option<u16>, content: u16) -> bool
    ensures { result ≡ is_within greatest content }
{
    match greatest {
        Some(greatest) => content <= greatest,
        None => true,
    }
}

/// A copy of `limits` in which the width of the longest line in a column replaces its greatest
/// width. No column is then wider than its lines need. Texts are wrapped at the greatest width to
/// find their longest line. The result has no greatest width below the least width of the column,
/// and none below 1.
pub(crate) fn reached_limits(
    limits: &[ColumnLimits],
    contents: &LazyTable,
) -> Result<Vec<ColumnLimits>>
    ensures { IfOk result (λ reached.
        reached.items ≡ reached_limits contents.now.table limits.now) }
{
    let alloc = contents.rows.selected.alloc;
    let mut reached = Vec::with_capacity(alloc, limits.len())?;
    for at in 0..limits.len() {
        let own = limits_at(limits, at);
        let greatest = reached_greatest(contents, at, own)?;
        reached.push(ColumnLimits { greatest, ..own })?;
    }
    Ok(reached)
}

// The longest line of the column at a place, as its texts are wrapped at its greatest width. The
// result is at least 1, and at least the least width. `None` if there is no greatest width.
fn reached_greatest(contents: &LazyTable, at: usize, limits: ColumnLimits) -> Result<Option<u16>>
    ensures { IfOk result (λ reached. reached
        ≡ option_map (reached_greatest contents.now.table at limits) limits.greatest) }
{
    let Some(greatest) = limits.greatest else {
        return Ok(None);
    };
    let longest = longest_line_at(contents, at, greatest)?;
    Ok(Some(longest.min(65535).max(usize::from(limits.least.max(1))) as u16))
}

// The longest line of the column at a place, as its texts are wrapped at a width, in terminal
// columns. 0 if there is no such column.
fn longest_line_at(contents: &LazyTable, at: usize, width: u16) -> Result<usize>
    ensures { IfOk result (λ longest.
        longest ≡ longest_line_at contents.now.table at width) }
{
    let Some(column) = contents.table.column(at) else {
        return Ok(0);
    };
    let info = ColumnDisplayInfo::new(column, width);
    contents.longest_line(at, &info, usize::MAX)
}
