//! Records, and the selection of what is drawn of them.

ghost use Rattle.std.specs.Prelude.{◌≡◌, All, IfOk, [], map, true, unwrap_or};
ghost use Rattle.csv.specs.Records.{AllText};
ghost use Rattle.csv_tables.specs.Cells.{columns_within};
ghost use Rattle.csv_tables.specs.Drawn.{selected_of, markdown_content, sides};
ghost use Rattle.csv_tables.specs.Leasts.{least_positions};
ghost use Rattle.csv_tables.specs.Styled.{centered, with_centers};

use crate::columns::drawn_columns;
use crate::limits::settings_at;
use crate::options::{ColumnPlan, Layout};
use crate::selection::{Noun, limited, names_of, records_below};
use crate::settings::ColumnSettings;
use comfy_parts::Result;
use comfy_parts::style::CellAlignment;
use csv_records::{Record, Records, Rows};
use std::alloc::{AllocError, Global};
use std::marker::Model;

/// Records, and the choice of what is drawn of them: the header, the rows and the columns.
#[derive(Drop)]
pub struct SelectedRecords {
    pub(crate) alloc: Global,
    records: Records,
    has_header: bool,
    // true if there is a header without fields when no record is the header
    is_headed: bool,
    // the most rows that are drawn; `None` draws all
    limit: Option<usize>,
    // the number of records below the header, if it is known
    count: Option<usize>,
    pub(crate) columns: Vec<ColumnPlan>,
    // for each column, the least position among it and the columns after it
    least_of_last: Vec<usize>,
    // true if a column with the numbers of records comes before the columns
    pub(crate) is_numbered: bool,
    // the word for a record in lines that count records
    pub(crate) noun: Noun,
}

impl Model for SelectedRecords {
    ghost use Rattle.std.specs.Prelude.{◌≡◌, [], Some, if◌then◌else◌, unwrap_or};
    ghost use Rattle.csv_tables.specs.Drawn.{SelectedValue, limited, names_of, records_below};
    ghost use Rattle.csv_tables.specs.Leasts.{least_positions};

    ghost Value = { SelectedValue };

    ghost invariant = { λ c. c.least_of_last.items ≡ least_positions c.columns.items };

    ghost view = { λ c. record {
      names = if c.is_headed
          then Some (unwrap_or (names_of c.has_header c.records) [])
          else names_of c.has_header c.records;
      rows = limited c.limit (records_below c.has_header c.records);
      columns = c.columns.items;
      count = c.count;
      is_numbered = c.is_numbered;
      noun = c.noun;
    } };
}

impl SelectedRecords {
    /// Selects the header, the rows and the columns of `records` that `layout` draws. `count` is
    /// the number of records below the header, or `None` if this number isn't known. The only error
    /// is `OutOfMemory`.
    pub fn new(
        alloc: Global,
        records: Records,
        count: Option<usize>,
        layout: &Layout,
    ) -> Result<SelectedRecords>
        ensures { IfOk result (λ selected. selected ≡ selected_of count layout.now records) }
    {
        let rows = layout.selection.rows(&records.rows());
        let columns = drawn_columns(alloc, &layout.columns, &rows, layout.look.has_sequences)?;
        let least_of_last = least_positions_of(alloc, columns.as_slice())?;
        Ok(SelectedRecords {
            alloc,
            records,
            has_header: layout.selection.has_header,
            is_headed: false,
            limit: layout.selection.limit,
            count,
            columns,
            least_of_last,
            is_numbered: layout.selection.is_numbered,
            noun: layout.selection.noun,
        })
    }

    /// Adds a header without fields if no record is the header.
    pub(crate) fn with_header(self) -> SelectedRecords
        ensures { result ≡ markdown_content self }
    {
        let mut selected = self;
        selected.is_headed = true;
        selected
    }

    /// Centres the columns whose settings centre them. The decimal marks of these columns aren't
    /// put below each other.
    pub(crate) fn with_centers(
        self,
        settings: &[ColumnSettings],
    ) -> std::result::Result<SelectedRecords, AllocError>
        ensures { IfOk result (λ selected. selected ≡ with_centers settings.now self) }
    {
        if settings.is_empty() {
            return Ok(self);
        }
        let columns = centered_columns(self.alloc, self.columns.as_slice(), settings)?;
        let mut selected = self;
        selected.columns = columns;
        Ok(selected)
    }

    /// The header, or `None` if no record is the header. After `with_header` there is always a
    /// header, which may have no fields.
    pub(crate) fn names(&self) -> Option<Record<'_>>
        ensures { result ≡ self.now.names }
    {
        let names = names_of(&self.records.rows(), self.has_header);
        if self.is_headed {
            Some(names.unwrap_or(self.records.rows().blank()))
        } else {
            names
        }
    }

    /// The header, or a record without fields.
    pub(crate) fn names_or_blank(&self) -> Record<'_>
        ensures { result ≡ unwrap_or self.now.names [] }
    {
        self.names().unwrap_or(self.records.rows().blank())
    }

    /// The records below the header that are drawn.
    pub(crate) fn rows(&self) -> Rows<'_>
        ensures { result ≡ self.now.rows }
    {
        let below = records_below(&self.records.rows(), self.has_header);
        limited(&below, self.limit)
    }

    /// Does nothing. For proofs, its clauses state that the names, and the fields that are drawn,
    /// are valid UTF-8.
    pub(crate) fn hold_texts(&self)
        ensures rows { All AllText self.now.rows }
        ensures names { AllText (unwrap_or self.now.names []) }
    {
        self.records.rows().hold_texts();
    }

    /// The drawn columns up to the last one for which the record `row` has a field. Later columns
    /// aren't examined, so that a record of few fields takes little time, however many columns are
    /// drawn.
    pub(crate) fn columns_within(&self, row: &Record<'_>) -> &[ColumnPlan]
        ensures { result.now ≡ columns_within row.now self.now.columns }
    {
        if self.has_last(row) {
            return self.columns.as_slice();
        }
        for (count, least) in self.least_of_last.iter().enumerate() {
            if row.len() <= *least {
                return &self.columns[..count];
            }
        }
        self.columns.as_slice()
    }

    // Returns true if a record has the field of the last column, as most records do.
    #[inline(always)]
    fn has_last(&self, row: &Record<'_>) -> bool
        ensures { result ≡ true → columns_within row.now self.now.columns ≡ self.now.columns }
    {
        match self.columns.last() {
            Some(last) => last.position < row.len(),
            None => false,
        }
    }

    /// The alignment of each drawn column, in their order. If records are numbered, the first
    /// alignment is that of the column of record numbers.
    pub(crate) fn sides(&self) -> Result<Vec<Option<CellAlignment>>, AllocError>
        ensures { IfOk result (λ made. made.items ≡ sides self.now) }
    {
        let mut sides = Vec::with_capacity(self.alloc, self.columns.len())?;
        if self.is_numbered {
            sides.push(Some(CellAlignment::Right))?;
        }
        for column in &self.columns {
            sides.push(column.alignment)?;
        }
        Ok(sides)
    }

    /// The number of records below the header, drawn or not. `None` if this number isn't known.
    pub(crate) fn count(&self) -> Option<usize>
        ensures { result ≡ self.now.count }
    {
        self.count
    }
}

// The columns, centred if their settings centre them.
fn centered_columns(
    alloc: Global,
    columns: &[ColumnPlan],
    settings: &[ColumnSettings],
) -> std::result::Result<Vec<ColumnPlan>, AllocError>
    ensures { IfOk result (λ made. made.items ≡ map (centered settings.now) columns.now) }
{
    let mut made = Vec::with_capacity(alloc, columns.len())?;
    for column in columns {
        made.push(centered(*column, settings))?;
    }
    Ok(made)
}

fn centered(column: ColumnPlan, settings: &[ColumnSettings]) -> ColumnPlan
    ensures { result ≡ centered settings.now column }
{
    if settings_at(settings, column.position).is_centered {
        ColumnPlan {
            alignment: Some(CellAlignment::Center),
            points: None,
            ..column
        }
    } else {
        column
    }
}

// For each column, the least position among it and the columns after it.
fn least_positions_of(alloc: Global, columns: &[ColumnPlan]) -> Result<Vec<usize>, AllocError>
    ensures { IfOk result (λ leasts. leasts.items ≡ least_positions columns.now) }
{
    let mut leasts = Vec::with_capacity(alloc, columns.len())?;
    let mut least = usize::MAX;
    for after in 0..columns.len() {
        least = least.min(columns[columns.len() - 1 - after].position);
        leasts.push(least)?;
    }
    leasts.reverse();
    Ok(leasts)
}
