//! The selection of the records and columns that are drawn.

ghost use Rattle.std.specs.Prelude.{◌≡◌, ◌==◌, fold, length, max};
ghost use Rattle.csv_records.specs.Longer.{filled_len};
ghost use Rattle.csv_tables.specs.Columns.{ColumnsValue, count_of};
ghost use Rattle.csv_tables.specs.Drawn.{column_count, drawn_rows, filled_columns, limited, names_of, names_or_none, one_of, records_below, several_of};

use csv_records::{Record, Rows};
use std::marker::Model;

/// The choice of the records that are drawn: whether the first record is the header, how many
/// records are drawn, and how records are counted.
#[derive(Clone, Copy, Debug)]
pub struct Selection {
    /// True if the first record is the header.
    pub has_header: bool,
    /// The greatest number of records below the header that are drawn; `None` draws all.
    pub limit: Option<usize>,
    /// True if a first column `#` shows the number of each record below the header, counted from 1.
    /// This column isn't counted in positions, so the first field still has position 0. Expanded
    /// records (`Expansion`) don't have this column: the line above each of them, such as `record 1
    /// of 2`, has the number.
    pub is_numbered: bool,
    /// The word for a record in the lines that count records, such as `record 1 of 2`.
    pub noun: Noun,
}

/// The word for a record in the lines that count records, such as `record 1 of 2` and `2 of 3
/// rows`.
#[derive(Clone, Copy, Debug, PartialEq, Eq)]
pub enum Noun {
    /// The word is `record`, as in `record 1 of 2`.
    Record,
    /// The word is `row`, as in `row 1 of 2`.
    Row,
}

impl Noun {
    /// The word for one record.
    pub(crate) fn one(self) -> &'static str
        ensures { result.now ≡ one_of self }
    {
        match self {
            Noun::Record => "record",
            Noun::Row => "row",
        }
    }

    /// The word for several records, and for no record.
    pub(crate) fn several(self) -> &'static str
        ensures { result.now ≡ several_of self }
    {
        match self {
            Noun::Record => "records",
            Noun::Row => "rows",
        }
    }
}

impl Selection {
    /// The header of `records`: the first record, or a record without fields if `has_header` is
    /// false or there are no records.
    pub fn names<'a>(&self, records: &Rows<'a>) -> Record<'a>
        ensures { result ≡ names_or_none self.now records.now }
    {
        names_of(records, self.has_header).unwrap_or(records.blank())
    }

    /// The records that are drawn: the first `limit` of `records`, or all if `limit` is `None`. The
    /// header is neither counted nor returned.
    pub fn rows<'a>(&self, records: &Rows<'a>) -> Rows<'a>
        ensures { result ≡ drawn_rows self.now records.now }
    {
        limited(&records_below(records, self.has_header), self.limit)
    }

    /// The number of columns of `records`: the greatest number of fields in the header or in a
    /// drawn record. 0 if there are no fields.
    pub fn column_count(&self, records: &Rows<'_>) -> usize
        ensures { result ≡ column_count self.now records.now }
    {
        count_of(&self.names(records), &self.rows(records))
    }

    /// The number of columns of `records` without the empty columns at the end. A column is empty
    /// if its name and all its drawn fields are empty or missing. The result is at least 1, unless
    /// `column_count` is 0.
    pub fn filled_columns(&self, records: &Rows<'_>) -> usize
        ensures { result ≡ filled_columns self.now records.now }
    {
        let filled = filled_len(&self.names(records), &self.rows(records));
        filled.max(1).min(self.column_count(records))
    }
}

/// The columns that are drawn, and their alignment. Columns are given by their positions, which are
/// counted from 0.
#[derive(Debug)]
pub struct Columns {
    drawn: Vec<usize>,
    right: Vec<usize>,
    left: Vec<usize>,
}

impl Drop for Columns {
    fn drop(self) {
        let Columns {
            drawn: _,
            right: _,
            left: _,
        } = self;
    }
}

impl Model for Columns {
    ghost use Rattle.csv_tables.specs.Columns.{ColumnsValue};

    ghost Value = { ColumnsValue };

    ghost view = { λ c. record {
      drawn = c.drawn.items;
      right = c.right.items;
      left = c.left.items;
    } };
}

impl Columns {
    /// Selects the columns to draw, in the order of `drawn`, and sets which columns are
    /// right-aligned and left-aligned. The lists have the columns' positions, counted from 0. If
    /// `drawn` is empty, no column is drawn. A position in both `right` and `left` is
    /// right-aligned. A column in neither of these two lists is right-aligned if its fields are
    /// numbers. A position in `drawn` at which no record has a field is a column too.
    pub fn new(drawn: Vec<usize>, right: Vec<usize>, left: Vec<usize>) -> Columns
        ensures { result
            ≡ record { drawn = drawn.items; right = right.items; left = left.items } }
    {
        Columns { drawn, right, left }
    }

    /// Returns true if no column is drawn.
    pub fn is_empty(&self) -> bool
        ensures { result ≡ (length self.now.drawn == 0) }
    {
        self.drawn.is_empty()
    }

    pub(crate) fn drawn(&self) -> &[usize]
        ensures { result.now ≡ self.now.drawn }
    {
        self.drawn.as_slice()
    }

    pub(crate) fn right(&self) -> &[usize]
        ensures { result.now ≡ self.now.right }
    {
        self.right.as_slice()
    }

    pub(crate) fn left(&self) -> &[usize]
        ensures { result.now ≡ self.now.left }
    {
        self.left.as_slice()
    }
}

// The most fields that the header or a row has.
fn count_of(names: &Record<'_>, rows: &Rows<'_>) -> usize
    ensures { result ≡ count_of names.now rows.now }
{
    let mut count = names.len();
    for row in rows.iter() {
        count = count.max(row.len());
    }
    count
}

// The most fields up to the last one that isn't empty, among the header and the rows.
fn filled_len(names: &Record<'_>, rows: &Rows<'_>) -> usize
    ensures { result ≡ fold (λ n fields. max n (filled_len fields)) (filled_len names.now)
        rows.now }
{
    let mut filled = names.filled_len();
    for row in rows.iter() {
        if row.len() > filled {
            filled = row.filled_len().max(filled);
        }
    }
    filled
}

/// The first of `records` as the header, or `None` if `has_header` is false or there are no
/// records.
pub(crate) fn names_of<'a>(records: &Rows<'a>, has_header: bool) -> Option<Record<'a>>
    ensures { result ≡ names_of has_header records.now }
{
    if has_header { records.first() } else { None }
}

/// The records of `records` without the header, which is the first record if `has_header` is true.
pub(crate) fn records_below<'a>(records: &Rows<'a>, has_header: bool) -> Rows<'a>
    ensures { result ≡ records_below has_header records.now }
{
    if has_header {
        records.rows_after(1)
    } else {
        records.iter()
    }
}

/// The first `limit` of `rows`, or all if `limit` is `None`.
pub(crate) fn limited<'a>(rows: &Rows<'a>, limit: Option<usize>) -> Rows<'a>
    ensures { result ≡ limited limit rows.now }
{
    match limit {
        Some(count) => rows.first_rows(count),
        None => rows.iter(),
    }
}
