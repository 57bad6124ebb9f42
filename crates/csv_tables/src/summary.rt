//! Summaries of the fields of each column, made in one pass over the records.

ghost use Rattle.std.specs.Prelude.{◌≡◌, ◌<◌, ◌==◌, ◌++◌, ◌∷◌, ℕ, List, [], IfOk, OnOk, if◌then◌else◌, false, length, map, true};
ghost use Rattle.std.specs.List.{slice_index_or};
ghost use Rattle.csv_records.specs.Cleaning.{visible_of};
ghost use Rattle.csv_records.specs.Decimals.{number_of};
ghost use Rattle.csv_tables.specs.Columns.{seen};
ghost use Rattle.csv_tables.specs.Kinds.{is_other_kind, joined_kind, kind_of};
ghost use Rattle.csv_tables.specs.NoWrap.{is_nowrap};
ghost use Rattle.csv_tables.specs.Decimals.{is_narrow, narrow_marks};
ghost use Rattle.csv_tables.specs.Summaries.{AreSummaries, summary_of};

use crate::columns::seen_text;
use crate::decimals::is_narrow;
use crate::nowrap::{is_nowrap, is_short, is_stamp};
use csv_records::{ColumnMarks, FieldNumber, Record, Rows, is_neutral, number_in};
use std::alloc::{AllocError, Global};

/// A summary of the fields of one column.
#[derive(Clone, Copy)]
pub(crate) struct ColumnSummary {
    /// The common kind of the fields: `Other` if a field is of this kind, else `Number` if a field
    /// is a number, else `Neutral`.
    pub(crate) kind: FieldKind,
    /// The summary of decimal marks, from which the decimal mark of the column follows. `None`
    /// unless each field is narrow (`is_narrow`), and is either neutral (`csv_records::is_neutral`)
    /// or a number that ends with a digit and has no exponent.
    pub(crate) marks: Option<ColumnMarks>,
    /// True if no field is to be broken over lines (`is_nowrap`). Each field is then a short
    /// number, date or time, a time stamp, or short and neutral (`csv_records::is_neutral`), such
    /// as `n/a`.
    pub(crate) are_nowrap: bool,
}

/// The kind of a field. The kinds of a column's fields decide how the column is aligned.
#[derive(Clone, Copy)]
pub(crate) enum FieldKind {
    Number,
    // no text, a dash, or a word for a missing value
    Neutral,
    Other,
}

impl ColumnSummary {
    // The summary of no fields.
    fn new() -> ColumnSummary
        ensures { result ≡ summary_of [] }
    {
        ColumnSummary {
            kind: FieldKind::Neutral,
            marks: Some(ColumnMarks::new()),
            are_nowrap: true,
        }
    }

    // Adds a field, by its visible text.
    fn add(&mut self, alloc: Global, field: &str, has_sequences: bool) -> Result<(), AllocError>
        ensures { OnOk result ((fields : List (List ℕ)) → self.old ≡ summary_of fields
            → self.new ≡ summary_of (fields ++ visible_of has_sequences field.now ∷ [])) }
    {
        if self.is_settled() {
            return Ok(());
        }
        if has_sequences {
            let seen = seen_text(alloc, field, has_sequences)?;
            self.add_seen(seen.as_str());
        } else {
            self.add_seen(field);
        }
        Ok(())
    }

    // Adds a field, given its visible text. Many fields are empty, and change nothing.
    fn add_seen(&mut self, field: &str)
        ensures { (fields : List (List ℕ)) → self.old ≡ summary_of fields
            → self.new ≡ summary_of (fields ++ field.now ∷ []) }
    {
        if field.is_empty() {
            return;
        }
        match self.kind {
            FieldKind::Other => self.add_other(field),
            _ => self.add_number(field, number_in(field)),
        }
    }

    // Adds a field, if a field before it is neither a number nor neutral (`is_neutral`).
    fn add_other(&mut self, field: &str)
        ensures { is_other_kind self.old.kind ≡ true → (fields : List (List ℕ))
            → self.old ≡ summary_of fields → self.new ≡ summary_of (fields ++ field.now ∷ []) }
    {
        self.are_nowrap = self.are_nowrap && is_nowrap(field);
    }

    // Adds a field. `number` is the result of reading it as a number.
    fn add_number(&mut self, field: &str, number: FieldNumber)
        ensures { number ≡ number_of field.now → (fields : List (List ℕ))
            → self.old ≡ summary_of fields → self.new ≡ summary_of (fields ++ field.now ∷ []) }
    {
        let kind = kind_of(field, number);
        self.kind = joined_kind(self.kind, kind);
        self.are_nowrap = self.are_nowrap && is_nowrap_of(kind, field);
        add_marks(&mut self.marks, field, number);
    }

    // Returns true only if no further field changes the summary.
    fn is_settled(self) -> bool
        ensures { result ≡ true → (fields : List (List ℕ)) → self ≡ summary_of fields
            → (field : List ℕ) → self ≡ summary_of (fields ++ field ∷ []) }
    {
        matches!(self.kind, FieldKind::Other) && self.marks.is_none() && !self.are_nowrap
    }
}

/// The summary of the visible texts of each column's fields, by the column's position. Columns
/// after the last field of a record aren't examined for this record, because many records may have
/// few of the columns.
pub(crate) fn summaries_of(
    alloc: Global,
    rows: &Rows<'_>,
    has_sequences: bool,
) -> Result<Vec<ColumnSummary>, AllocError>
    ensures { IfOk result (λ summaries.
        AreSummaries (map (seen has_sequences) rows.now) summaries.items) }
{
    let mut summaries = Vec::new(alloc);
    for row in rows.iter() {
        add_record(alloc, &mut summaries, &row, has_sequences)?;
    }
    Ok(summaries)
}

// Adds the fields of a record to the summaries of their columns.
fn add_record(
    alloc: Global,
    summaries: &mut Vec<ColumnSummary>,
    row: &Record<'_>,
    has_sequences: bool,
) -> Result<(), AllocError>
    ensures { OnOk result ((rows : List (List (List ℕ)))
        → AreSummaries rows summaries.old.items
        → AreSummaries (rows ++ seen has_sequences row.now ∷ []) summaries.new.items) }
{
    for (position, field) in row.iter().enumerate() {
        add_field(alloc, summaries, position, field, has_sequences)?;
    }
    Ok(())
}

// Adds a field to the summary of the column at its position. Positions after the end of the list
// have the summary of no fields.
fn add_field(
    alloc: Global,
    summaries: &mut Vec<ColumnSummary>,
    position: usize,
    field: &str,
    has_sequences: bool,
) -> Result<(), AllocError>
    ensures { OnOk result ((fields : List (List ℕ))
        → slice_index_or summaries.old.items position (summary_of []) ≡ summary_of fields
        → (at : ℕ) → slice_index_or summaries.new.items at (summary_of [])
        ≡ if position == at then summary_of (fields ++ visible_of has_sequences field.now ∷ [])
        else slice_index_or summaries.old.items at (summary_of [])) }
{
    widen(summaries, position)?;
    if let Some(summary) = summaries.get_mut(position) {
        summary.add(alloc, field, has_sequences)?;
    }
    Ok(())
}

/// The summary of the fields of the column at `position`, or the summary of no fields if
/// `summaries` ends before this position.
pub(crate) fn summary_at(summaries: &[ColumnSummary], position: usize) -> ColumnSummary
    ensures { result ≡ slice_index_or summaries.now position (summary_of []) }
{
    match summaries.get(position) {
        Some(summary) => *summary,
        None => ColumnSummary::new(),
    }
}

// Appends summaries of no fields until a list has one at a position.
fn widen(summaries: &mut Vec<ColumnSummary>, position: usize) -> Result<(), AllocError>
    ensures long { OnOk result (position < length summaries.new.items) }
    ensures same { OnOk result ((at : ℕ) → slice_index_or summaries.new.items at (summary_of [])
        ≡ slice_index_or summaries.old.items at (summary_of [])) }
{
    while summaries.len() <= position {
        summaries.push(ColumnSummary::new())?;
    }
    Ok(())
}

// ---- one field more

// Returns true if a field isn't broken over lines. A number or a neutral field (`is_neutral`) only
// has to be short, or a time stamp.
fn is_nowrap_of(kind: FieldKind, field: &str) -> bool
    ensures { kind ≡ kind_of field.now → result ≡ is_nowrap field.now }
{
    match kind {
        FieldKind::Other => is_nowrap(field),
        _ => is_short(field) || is_stamp(field.as_bytes()),
    }
}

// The common kind of two fields of one column.
fn joined_kind(one: FieldKind, other: FieldKind) -> FieldKind
    ensures { result ≡ joined_kind one other }
{
    match (one, other) {
        (FieldKind::Other, _) | (_, FieldKind::Other) => FieldKind::Other,
        (FieldKind::Number, _) | (_, FieldKind::Number) => FieldKind::Number,
        _ => FieldKind::Neutral,
    }
}

// The kind of a field. `number` is the result of reading it as a number.
fn kind_of(field: &str, number: FieldNumber) -> FieldKind
    ensures { number ≡ number_of field.now → result ≡ kind_of field.now }
{
    if number.is_number {
        FieldKind::Number
    } else if is_neutral(field) {
        FieldKind::Neutral
    } else {
        FieldKind::Other
    }
}

// Adds a field to the decimal marks of its column, as long as each field is narrow, and is a number
// or neutral (`is_neutral`). Otherwise there are no marks any more.
fn add_marks(marks: &mut Option<ColumnMarks>, field: &str, number: FieldNumber)
    ensures { number ≡ number_of field.now → (fields : List (List ℕ))
        → marks.old ≡ narrow_marks fields → marks.new ≡ narrow_marks (fields ++ field.now ∷ []) }
{
    let are_kept = match marks {
        Some(marks) => {
            marks.add(field, number);
            marks.are_plain && is_narrow_number(field, number)
        }
        None => false,
    };
    if !are_kept {
        *marks = None;
    }
}

// Returns true if a field is narrow. Digits and decimal marks are printable ASCII, so that only the
// length of a bare number is checked.
fn is_narrow_number(field: &str, number: FieldNumber) -> bool
    ensures { number ≡ number_of field.now → result ≡ is_narrow field.now }
{
    if number.is_bare {
        is_short(field)
    } else {
        is_narrow(field)
    }
}
