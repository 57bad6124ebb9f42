//! Names, alignment and decimal marks of drawn columns, and the visible text of fields.

ghost use Rattle.std.specs.Prelude.{◌≡◌, IfOk, map, option_map, string_bytes};
ghost use Rattle.std.specs.Cow.{cow_str_bytes};
ghost use Rattle.comfy_parts.specs.VisibleText.{visible_text};
ghost use Rattle.csv_records.specs.Cleaning.{visible_of};
ghost use Rattle.csv_tables.specs.Columns.{alignment_for, column_at, drawn_columns, name_at, name_or_number, points_at, seen};

use crate::markdown::is_right;
use crate::options::ColumnPlan;
use crate::selection::Columns;
use crate::summary::{ColumnSummary, FieldKind, summaries_of, summary_at};
use comfy_parts::content_split::visible_text;
use comfy_parts::style::CellAlignment;
use csv_records::{ColumnMarks, Points, Record, Rows};
use std::alloc::{AllocError, Global};
use std::borrow::CowStr;

/// The plan (`ColumnPlan`) of each drawn column, in the order of `columns`. A plan follows from the
/// column's fields in `rows`, and from the alignment that `columns` sets. If `has_sequences` is
/// true, SGR sequences in fields don't count. The only error is that memory runs out.
pub(crate) fn drawn_columns(
    alloc: Global,
    columns: &Columns,
    rows: &Rows<'_>,
    has_sequences: bool,
) -> Result<Vec<ColumnPlan>, AllocError>
    ensures { IfOk result (λ drawn. drawn.items
        ≡ drawn_columns columns.now (map (seen has_sequences) rows.now)) }
{
    let summaries = summaries_of(alloc, rows, has_sequences)?;
    let mut drawn = Vec::with_capacity(alloc, columns.drawn().len())?;
    for position in columns.drawn() {
        let summary = summary_at(summaries.as_slice(), *position);
        drawn.push(drawn_column(*position, columns, summary))?;
    }
    Ok(drawn)
}

// The plan of the column at a position.
fn drawn_column(position: usize, columns: &Columns, summary: ColumnSummary) -> ColumnPlan
    ensures { result ≡ column_at columns.now summary position }
{
    let has_numbers = matches!(summary.kind, FieldKind::Number);
    let alignment = alignment_of(position, columns.right(), columns.left(), has_numbers);
    ColumnPlan {
        position,
        alignment,
        points: points_at(alignment, summary.marks),
        is_nowrap: summary.are_nowrap,
    }
}

// The decimal mark of a column, if its fields have one. Only right-aligned columns have one.
fn points_at(alignment: Option<CellAlignment>, marks: Option<ColumnMarks>) -> Option<Points>
    ensures { result ≡ points_at alignment marks }
{
    if is_right(alignment) {
        marks?.points()
    } else {
        None
    }
}

/// The name of the column at `position`, which is counted from 0. The name is the field of the
/// header `names` at this position, which may be empty. If `names` has no field there, the result
/// is the column's number, counted from 1. The only error is that memory runs out.
pub fn name_at<'a>(
    alloc: Global,
    names: &Record<'a>,
    position: usize,
) -> Result<CowStr<'a>, AllocError>
    ensures { IfOk result (λ name. cow_str_bytes name ≡ name_at names.now position) }
{
    name_or_number(alloc, names.get(position), position)
}

/// The text `name`, or the number of the column at `position`, counted from 1, if `name` is `None`.
/// The position is counted from 0. The only error is that memory runs out.
pub(crate) fn name_or_number<'a>(
    alloc: Global,
    name: Option<&'a str>,
    position: usize,
) -> Result<CowStr<'a>, AllocError>
    ensures { IfOk result (λ text. cow_str_bytes text
        ≡ name_or_number (option_map (λ s. s.now) name.entry) position) }
{
    match name {
        Some(name) => Ok(CowStr::Borrowed(name)),
        None => Ok(CowStr::Owned(format!(in alloc; "{}", position as u128 + 1)?)),
    }
}

// The alignment of a column: the one that was set for it, else right if its fields are numbers.
// `None` if neither gives an alignment.
fn alignment_of(
    position: usize,
    right: &[usize],
    left: &[usize],
    has_numbers: bool,
) -> Option<CellAlignment>
    ensures { result ≡ alignment_for right.now left.now has_numbers position }
{
    if right.contains(&position) {
        Some(CellAlignment::Right)
    } else if left.contains(&position) {
        Some(CellAlignment::Left)
    } else if has_numbers {
        Some(CellAlignment::Right)
    } else {
        None
    }
}

/// The visible text of `field`: the field without SGR sequences if `has_sequences` is true, and
/// otherwise the whole field. The only error is that memory runs out.
pub(crate) fn seen_text<'a>(
    alloc: Global,
    field: &'a str,
    has_sequences: bool,
) -> Result<CowStr<'a>, AllocError>
    ensures { IfOk result (λ text. cow_str_bytes text ≡ visible_of has_sequences field.now) }
{
    if has_sequences {
        Ok(CowStr::Owned(without_sequences(alloc, field)?))
    } else {
        Ok(CowStr::Borrowed(field))
    }
}

// A field without its SGR sequences.
fn without_sequences(alloc: Global, field: &str) -> Result<String, AllocError>
    ensures { IfOk result (λ text. string_bytes text ≡ visible_text field.now) }
{
    match visible_text(alloc, field) {
        Ok(text) => Ok(text),
        Err(_) => Err(AllocError),
    }
}
