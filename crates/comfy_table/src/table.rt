//! A table: its header, its rows, its columns and its settings.

ghost use Rattle.std.specs.Prelude.{◌≡◌, ◌≤◌, IfOk, IsOk, OnOk, OnErr, length};
ghost use Rattle.std.specs.Borrow.{sem};
ghost use Rattle.comfy_parts.specs.CellValue.{columns_grown_to};
ghost use Rattle.comfy_parts.specs.Presets.{ascii_full};
ghost use Rattle.comfy_table.specs.TableReference.{reference_of};
ghost use Rattle.comfy_table.specs.TableLoans.{TableStaysIfErr};
ghost use Rattle.comfy_table.specs.TableValue.{new_table, with_header, with_row};

mod access;
pub mod arranged;
pub mod column_cells;
mod columns;
pub(crate) mod content;
pub mod output;
pub mod parts;
pub mod row_writer;
mod rows;
mod settings;
pub mod terminal;

use comfy_parts::style::presets::ASCII_FULL;
use comfy_parts::style::{ContentArrangement, TableStyle};
use comfy_parts::{Column, IntoRow, Result, Row, TableError};
use std::alloc::{AllocError, Global};
use std::marker::Model;
use terminal::Terminal;

/// A table of a header, rows and columns, with its settings. It is built row by row, and drawn by
/// `lines`, `to_text`, `to_terminated_text` or `trim_fmt`.
///
/// ```
/// let mut table = Table::new(alloc);
/// table
///     .set_header(["Bike", "Where it stands"])?
///     .add_row(["17", "dock 3"])?;
/// let text = table.to_text()?;
/// // +------+-----------------+
/// // | Bike | Where it stands |
/// // +========================+
/// // | 17   | dock 3          |
/// // +------+-----------------+
/// ```
#[derive(Debug)]
pub struct Table {
    pub(crate) columns: Vec<Column>,
    pub(crate) header: Option<Row>,
    pub(crate) rows: Vec<Row>,
    pub(crate) style: TableStyle,
    pub(crate) arrangement: ContentArrangement,
    pub(crate) delimiter: Option<char>,
    // `None` for the truncation indicator of a new table, `…` (U+2026)
    pub(crate) indicator: Option<String>,
    pub(crate) set_width: Option<u16>,
    pub(crate) terminal: Terminal,
    pub(crate) no_tty: bool,
    pub(crate) use_stderr: bool,
    pub(crate) enforce_styling: bool,
    pub(crate) style_text_only: bool,
    pub(crate) custom_styling: bool,
}

impl Drop for Table {
    fn drop(self) {
        let Table {
            columns: _,
            header: _,
            rows: _,
            style: _,
            arrangement: _,
            delimiter: _,
            indicator: _,
            set_width: _,
            terminal: _,
            no_tty: _,
            use_stderr: _,
            enforce_styling: _,
            style_text_only: _,
            custom_styling: _,
        } = self;
    }
}

impl Model for Table {
    ghost use Rattle.comfy_parts.specs.CellValue.{IsDelimiter};
    ghost use Rattle.comfy_table.specs.TableValue.{TableValue, indicator_of};

    ghost Value = { TableValue };

    // a delimiter that is set is a character
    ghost invariant = { λ t. IsDelimiter t.delimiter };

    ghost view = { λ t. record {
      columns = t.columns.items;
      header = t.header;
      rows = t.rows.items;
      style = t.style;
      arrangement = t.arrangement;
      delimiter = t.delimiter;
      indicator = indicator_of t.indicator;
      set_width = t.set_width;
      terminal = t.terminal;
      no_tty = t.no_tty;
      use_stderr = t.use_stderr;
      enforce_styling = t.enforce_styling;
      style_text_only = t.style_text_only;
      custom_styling = t.custom_styling;
    } };
}

impl Table {
    /// An empty table in the style `ASCII_FULL`, without header, rows or columns. The call takes no
    /// memory.
    pub fn new(alloc: Global) -> Table
        ensures { result ≡ new_table ascii_full }
    {
        Table {
            columns: Vec::new(alloc),
            header: None,
            rows: Vec::new(alloc),
            style: ASCII_FULL,
            arrangement: ContentArrangement::Disabled,
            delimiter: None,
            indicator: None,
            set_width: None,
            terminal: Terminal::UNKNOWN,
            no_tty: false,
            use_stderr: false,
            enforce_styling: false,
            style_text_only: false,
            custom_styling: false,
        }
    }

    /// Replaces the header. Then appends columns with default settings until the table has at least
    /// as many columns as the header has cells. Returns the table for further calls. After
    /// `OutOfMemory` the table is unchanged and the new header is dropped. If a proof of your own
    /// needs that the table is unchanged, call `try_set_header` instead.
    ///
    /// ```
    /// table
    ///     .set_header(["Day", "Euros"])?
    ///     .add_row(("3 May", 84u32))?;
    /// ```
    pub fn set_header<T: IntoRow>(&mut self, row: T) -> Result<&mut Self>
        ensures* err { sem 𝓛 (TableStaysIfErr self.entry result) }
        ensures same_reference { IfOk result (λ table. table.ghost_name ≡ self.entry.ghost_name) }
        ensures set { IfOk result (λ table. table.now ≡ with_header (T.row_of row) self.old) }
    {
        into_reference(self.with_header_set(row))
    }

    /// Appends a row. Then appends columns with default settings until the table has at least as
    /// many columns as the row has cells. Returns the table for further calls. After `OutOfMemory`
    /// the table is unchanged and the row is dropped. If a proof of your own needs that the table
    /// is unchanged, call `try_add_row` instead.
    ///
    /// ```
    /// table.add_row(["17", "dock 3"])?.add_row((18u32, "rented"))?;
    /// ```
    pub fn add_row<T: IntoRow>(&mut self, row: T) -> Result<&mut Self>
        ensures* err { sem 𝓛 (TableStaysIfErr self.entry result) }
        ensures same_reference { IfOk result (λ table. table.ghost_name ≡ self.entry.ghost_name) }
        ensures added { IfOk result (λ table. table.now ≡ with_row (T.row_of row) self.old) }
    {
        into_reference(self.with_row_added(row))
    }

    /// Replaces the header as `set_header` does, but doesn't return the table. The only error is
    /// `OutOfMemory`. After it the table is unchanged and the new header is dropped. If a proof of
    /// your own needs that the table is unchanged, call `try_set_header` and not `set_header`.
    pub fn try_set_header<T: IntoRow>(&mut self, row: T) -> Result<()>
        ensures ok { OnOk result (self.new ≡ with_header (T.row_of row) self.old) }
        ensures err { OnErr result (self.new ≡ self.old) }
    {
        let header = row.into_row(*self.rows.allocator())?;
        grow_columns(&mut self.columns, header.cell_count())?;
        self.header = Some(header);
        Ok(())
    }

    /// Appends a row as `add_row` does, but doesn't return the table. The only error is
    /// `OutOfMemory`. After it the table is unchanged and the row is dropped. If a proof of your
    /// own needs that the table is unchanged, call `try_add_row` and not `add_row`.
    pub fn try_add_row<T: IntoRow>(&mut self, row: T) -> Result<()>
        ensures ok { OnOk result (self.new ≡ with_row (T.row_of row) self.old) }
        ensures err { OnErr result (self.new ≡ self.old) }
    {
        let added = row.into_row(*self.rows.allocator())?;
        // The row's place is reserved first, so that nothing can fail after the columns have grown.
        self.rows.try_reserve(1)?;
        grow_columns(&mut self.columns, added.cell_count())?;
        self.rows.push(added).unwrap();
        Ok(())
    }

    /// Appends columns with default settings until the table has at least `count` columns. Call
    /// this function for rows that are stored outside of the table: the functions that add rows
    /// append columns themselves. After `OutOfMemory` the table is unchanged.
    pub fn grow_columns(&mut self, count: usize) -> Result<()>
        ensures ok { OnOk result (self.new ≡ record self.old {
          columns = columns_grown_to count self.old.columns;
        }) }
        ensures err { OnErr result (self.new ≡ self.old) }
    {
        grow_columns(&mut self.columns, count)
    }

    // `set_header` with the reference in a struct, so that its clause on `OutOfMemory` can be
    // proved.
    fn with_header_set<T: IntoRow>(&mut self, row: T) -> Result<TableReference<'_>>
        ensures* err { sem 𝓛 (TableStaysIfErr self.entry (reference_of result)) }
        ensures same_reference { IfOk (reference_of result)
            (λ table. table.ghost_name ≡ self.entry.ghost_name) }
        ensures set { IfOk (reference_of result)
            (λ table. table.now ≡ with_header (T.row_of row) self.old) }
    {
        self.try_set_header(row)?;
        Ok(TableReference { table: self })
    }

    // `add_row` with the reference in a struct, so that its clause on `OutOfMemory` can be proved.
    fn with_row_added<T: IntoRow>(&mut self, row: T) -> Result<TableReference<'_>>
        ensures* err { sem 𝓛 (TableStaysIfErr self.entry (reference_of result)) }
        ensures same_reference { IfOk (reference_of result)
            (λ table. table.ghost_name ≡ self.entry.ghost_name) }
        ensures added { IfOk (reference_of result)
            (λ table. table.now ≡ with_row (T.row_of row) self.old) }
    {
        self.try_add_row(row)?;
        Ok(TableReference { table: self })
    }
}

// A clone has the same value, in memory of its own.
impl Clone for Table {
    ghost is_clone = { λ source copy. copy ≡ source };

    fn clone(&self) -> std::result::Result<Table, AllocError> {
        Ok(Table {
            columns: self.columns.clone()?,
            header: self.header.clone()?,
            rows: self.rows.clone()?,
            style: self.style,
            arrangement: self.arrangement,
            delimiter: self.delimiter,
            indicator: self.indicator.clone()?,
            set_width: self.set_width,
            terminal: self.terminal,
            no_tty: self.no_tty,
            use_stderr: self.use_stderr,
            enforce_styling: self.enforce_styling,
            style_text_only: self.style_text_only,
            custom_styling: self.custom_styling,
        })
    }
}

// A mutable reference to a table, in a struct of its own.
struct TableReference<'a> {
    table: &'a mut Table,
}

// Takes the reference out of its struct.
fn into_reference<'a>(changed: Result<TableReference<'a>>) -> Result<&'a mut Table>
    ensures { result ≡ reference_of changed.entry }
{
    match changed {
        Ok(changed) => {
            let TableReference { table } = changed;
            Ok(table)
        }
        Err(error) => Err(error),
    }
}

// Appends columns with default settings until there are at least `count` columns. After
// `OutOfMemory` the columns are unchanged.
fn grow_columns(columns: &mut Vec<Column>, count: usize) -> Result<()>
    ensures ok { OnOk result (columns.new.items ≡ columns_grown_to count columns.old.items) }
    ensures err { OnErr result (columns.new.items ≡ columns.old.items) }
    ensures succeeds { count ≤ length columns.old.items → IsOk result }
{
    let have = columns.len();
    let missing = count.saturating_sub(have);
    columns.try_reserve(missing)?;
    for index in have..count {
        columns.push(Column::new(index)).unwrap();
    }
    Ok(())
}
