//! The settings of rows and texts of a table of rows, from numbers.

ghost use Rattle.std.specs.Prelude.{◌≡◌, ◌++◌, IfOk, OnOk, drop, map, slice_index, take};
ghost use Rattle.csv_records.specs.CutLists.{cut_by};
ghost use Rattle.comfy_c.specs.Looks.{are_each, is_none_or, look_settings, row_settings, rows_by, rows_settings, table_settings, unset_row};

use crate::cells_numbers::{LookNumbers, look_settings};
use crate::cells_rows::height_of;
use crate::rows_columns::{RowsColumn, settings_for};
use csv_tables::{CellSettings, RowSettings, Settings};
use std::alloc::{AllocError, Global};

/// Returns true if there is one look for each text or none at all, and one height for each row or
/// none at all.
pub(crate) fn are_each(
    looks: &[LookNumbers],
    lengths: &[usize],
    heights: &[usize],
    counts: &[usize],
) -> bool
    ensures { result ≡ are_each looks.now lengths.now heights.now counts.now }
{
    is_none_or(looks.len(), lengths.len()) && is_none_or(heights.len(), counts.len())
}

fn is_none_or(given: usize, count: usize) -> bool
    ensures { result ≡ is_none_or given count }
{
    given == 0 || given == count
}

/// The settings of the columns, rows and texts of a table of rows, which the numbers in `looks`,
/// `heights` and `columns` mean. `counts` has the number of texts of each row, and the first row is
/// the header if `has_header` is true. The only error is that memory ran out.
pub(crate) fn table_settings(
    alloc: Global,
    has_header: bool,
    counts: &[usize],
    looks: &[LookNumbers],
    heights: &[usize],
    columns: &[RowsColumn],
) -> Result<Settings, AllocError>
    ensures { IfOk result (λ settings. settings
        ≡ table_settings has_header counts.now looks.now heights.now columns.now) }
{
    Ok(Settings {
        columns: settings_for(alloc, columns)?,
        rows: rows_settings(alloc, has_header, counts, looks, heights)?,
    })
}

// The settings of the header and of the rows below it. If there is no header, the first item is
// unset. The list is empty if there are no looks and no heights.
fn rows_settings(
    alloc: Global,
    has_header: bool,
    counts: &[usize],
    looks: &[LookNumbers],
    heights: &[usize],
) -> Result<Vec<RowSettings>, AllocError>
    ensures { IfOk result (λ rows. rows.items
        ≡ rows_settings has_header counts.now looks.now heights.now) }
{
    let mut rows = Vec::new(alloc);
    if looks.is_empty() && heights.is_empty() {
        return Ok(rows);
    }
    if !has_header {
        rows.push(unset_row(alloc))?;
    }
    push_rows(alloc, &mut rows, counts, looks, heights)?;
    Ok(rows)
}

fn unset_row(alloc: Global) -> RowSettings
    ensures { result ≡ unset_row }
{
    RowSettings {
        max_height: None,
        cells: Vec::new(alloc),
    }
}

// Appends the settings of rows with these counts of texts.
fn push_rows(
    alloc: Global,
    rows: &mut Vec<RowSettings>,
    counts: &[usize],
    looks: &[LookNumbers],
    heights: &[usize],
) -> Result<(), AllocError>
    ensures { OnOk result (rows.new.items
        ≡ rows.old.items ++ rows_by (cut_by counts.now looks.now) heights.now) }
{
    let mut rest = looks;
    for at in 0..counts.len() {
        let (own, others) = parted(rest, counts[at]);
        rows.push(row_settings(alloc, own, height_at(heights, at))?)?;
        rest = others;
    }
    Ok(())
}

// The first `count` looks, or all if there are fewer, and the others.
fn parted(looks: &[LookNumbers], count: usize) -> (&[LookNumbers], &[LookNumbers])
    ensures own { result.0.now ≡ take count looks.now }
    ensures others { result.1.now ≡ drop count looks.now }
{
    looks.split_at(count.min(looks.len()))
}

// The height of the row at position `at`; 0 after the last height.
fn height_at(heights: &[usize], at: usize) -> usize
    ensures { result ≡ slice_index heights.now at }
{
    heights.get(at).copied().unwrap_or(0)
}

fn row_settings(
    alloc: Global,
    looks: &[LookNumbers],
    height: usize,
) -> Result<RowSettings, AllocError>
    ensures { IfOk result (λ row. row ≡ row_settings looks.now height) }
{
    Ok(RowSettings {
        max_height: height_of(height),
        cells: cells_settings(alloc, looks)?,
    })
}

fn cells_settings(alloc: Global, looks: &[LookNumbers]) -> Result<Vec<CellSettings>, AllocError>
    ensures { IfOk result (λ cells. cells.items ≡ map look_settings looks.now) }
{
    let mut cells = Vec::with_capacity(alloc, looks.len())?;
    for look in looks {
        cells.push(look_settings(alloc, look)?)?;
    }
    Ok(cells)
}
