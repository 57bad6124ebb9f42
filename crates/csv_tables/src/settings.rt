//! The settings that columns, rows and cells may have in a table that has one row for each record.
//! The settings have no effect in Markdown, nor in *expanded records*, each of which is drawn as a
//! table of its own (`Expansion`).

ghost use Rattle.std.specs.Prelude.{◌≡◌, [], IfOk, None, Some, option_map, slice_get, true};
ghost use Rattle.std.specs.Option.{option_or};
ghost use Rattle.csv_tables.specs.Limits.{unset};
ghost use Rattle.csv_tables.specs.Settings.{cell_settings, dressed, limit_by, no_settings};

use crate::options::Look;
use comfy_parts::style::{Attribute, CellAlignment, Color};
use comfy_parts::{Cell, Result};
use std::alloc::Global;
use std::marker::Model;

/// The settings of a column in a table that has one row for each record. All widths are counted in
/// terminal columns. The settings have no effect in Markdown, nor in expanded records, each of
/// which is drawn as a table of its own (`Expansion`).
#[derive(Clone, Copy, Debug, PartialEq, Eq)]
pub struct ColumnSettings {
    /// The numbers of terminal columns that stay free on the left and on the right of the column's
    /// texts, in this order.
    pub padding: (u16, u16),
    /// The least width of the column without its paddings. `None` sets no least width.
    pub least: Option<u16>,
    /// The greatest width of the column without its paddings. `None` sets no greatest width. A
    /// width below `least` counts as `least`, and 0 counts as 1. Wider texts are wrapped.
    pub greatest: Option<u16>,
    /// True if the column's texts are centred, whatever alignment `Columns` sets. The column's
    /// decimal points then aren't below each other.
    pub is_centered: bool,
}

impl ColumnSettings {
    /// The settings of a column for which nothing is set. One terminal column stays free on each
    /// side of the column's texts, there is no least or greatest width, and texts aren't centred.
    pub fn none() -> ColumnSettings
        ensures { result ≡ unset }
    {
        ColumnSettings {
            padding: (1, 1),
            least: None,
            greatest: None,
            is_centered: false,
        }
    }
}

/// The settings of a cell in a table that has one row for each record. The settings have no effect
/// in Markdown, nor in expanded records, each of which is drawn as a table of its own
/// (`Expansion`).
#[derive(Debug)]
pub struct CellSettings {
    /// The alignment of the cell; `None` keeps the alignment of its column.
    pub alignment: Option<CellAlignment>,
    /// The colour of the cell's text; `None` sets no colour.
    pub foreground: Option<Color>,
    /// The background colour of the cell's text; `None` sets no colour.
    pub background: Option<Color>,
    /// The attributes of the cell's text, such as italic. In a bold header, the attributes are
    /// written after bold.
    pub attributes: Vec<Attribute>,
}

impl Drop for CellSettings {
    fn drop(self) {
        let CellSettings {
            alignment: _,
            foreground: _,
            background: _,
            attributes: _,
        } = self;
    }
}

impl Model for CellSettings {
    ghost use Rattle.csv_tables.specs.Settings.{CellSettingsValue};

    ghost Value = { CellSettingsValue };

    ghost view = { λ c. record {
      alignment = c.alignment;
      foreground = c.foreground;
      background = c.background;
      attributes = c.attributes.items;
    } };
}

impl CellSettings {
    /// The alignment that these settings set, or `alignment` if they set none.
    pub(crate) fn side(&self, alignment: Option<CellAlignment>) -> Option<CellAlignment>
        ensures { result ≡ option_or self.now.alignment alignment }
    {
        self.alignment.or(alignment)
    }

    /// Returns true only if these settings have no colour and no attribute.
    pub(crate) fn is_plain(&self) -> bool
        ensures foreground { result ≡ true → self.now.foreground ≡ None }
        ensures background { result ≡ true → self.now.background ≡ None }
        ensures attributes { result ≡ true → self.now.attributes ≡ [] }
    {
        self.foreground.is_none() && self.background.is_none() && self.attributes.is_empty()
    }

    /// Returns `cell` with these settings. An alignment or a colour in the settings replaces that
    /// of the cell, and `None` keeps that of the cell. The attributes of the settings come after
    /// the cell's own attributes. The only error is `OutOfMemory`.
    pub fn dressed(&self, cell: Cell) -> Result<Cell>
        ensures { IfOk result (λ made. made ≡ dressed (Some self.now) cell) }
    {
        let aligned = aligned(cell, self.alignment);
        let coloured = coloured(aligned, self.foreground, self.background);
        coloured.add_attributes(self.attributes.clone()?)
    }
}

// A cell with an alignment, if there is one.
fn aligned(cell: Cell, alignment: Option<CellAlignment>) -> Cell
    ensures { result ≡ record cell { alignment = option_or alignment cell.alignment } }
{
    match alignment {
        Some(alignment) => cell.set_alignment(alignment),
        None => cell,
    }
}

// A cell with colours, if there are some.
fn coloured(cell: Cell, foreground: Option<Color>, background: Option<Color>) -> Cell
    ensures { result ≡ record cell {
      foreground = option_or foreground cell.foreground;
      background = option_or background cell.background;
    } }
{
    let cell = match foreground {
        Some(color) => cell.fg(color),
        None => cell,
    };
    match background {
        Some(color) => cell.bg(color),
        None => cell,
    }
}

/// The settings of a row in a table that has one row for each record. The settings have no effect
/// in Markdown, nor in expanded records, each of which is drawn as a table of its own
/// (`Expansion`).
#[derive(Debug)]
pub struct RowSettings {
    /// The greatest number of lines of the row; 0 counts as 1. `None` keeps the `max_height` of the
    /// `Look`. The header is never cut, whatever `max_height` is.
    pub max_height: Option<usize>,
    /// The settings of the row's cells. The item at an index is for the field at this position in
    /// the record, both counted from 0. Fields past the last item have no settings, and neither has
    /// the cell with the record's number.
    pub cells: Vec<CellSettings>,
}

impl Drop for RowSettings {
    fn drop(self) {
        let RowSettings {
            max_height: _,
            cells: _,
        } = self;
    }
}

impl Model for RowSettings {
    ghost use Rattle.csv_tables.specs.Settings.{RowSettingsValue};

    ghost Value = { RowSettingsValue };

    ghost view = { λ r. record { max_height = r.max_height; cells = r.cells.items } };
}

impl RowSettings {
    /// The greatest number of lines of the row: `max_height`, or `limit` if `max_height` is `None`.
    /// `None` means that there is no limit.
    pub(crate) fn limit(&self, limit: Option<usize>) -> Option<usize>
        ensures { result ≡ option_or self.now.max_height limit }
    {
        self.max_height.or(limit)
    }

    /// The settings of the row's cells, by the positions of fields in the record.
    pub(crate) fn of_cells(&self) -> &[CellSettings]
        ensures { result.now ≡ self.now.cells }
    {
        self.cells.as_slice()
    }
}

/// The settings of a table that has one row for each record. The settings have no effect in
/// Markdown, nor in expanded records, each of which is drawn as a table of its own (`Expansion`).
#[derive(Debug)]
pub struct Settings {
    /// The settings of the table's columns. The item at an index is for the fields at this position
    /// in the records, both counted from 0. Columns past the last item have no settings, and
    /// neither has the column that shows the numbers of records.
    pub columns: Vec<ColumnSettings>,
    /// The settings of the table's rows. The first item is for the header, and isn't used if there
    /// is no header. The items after it are for the records below the header, in their order.
    /// Records past the last item have no settings.
    pub rows: Vec<RowSettings>,
}

impl Drop for Settings {
    fn drop(self) {
        let Settings {
            columns: _,
            rows: _,
        } = self;
    }
}

impl Model for Settings {
    ghost use Rattle.csv_tables.specs.Settings.{SettingsValue};

    ghost Value = { SettingsValue };

    ghost view = { λ s. record { columns = s.columns.items; rows = s.rows.items } };
}

impl Settings {
    /// The settings of a table for which nothing is set: both lists are empty.
    pub fn none(alloc: Global) -> Settings
        ensures { result ≡ no_settings }
    {
        Settings {
            columns: Vec::new(alloc),
            rows: Vec::new(alloc),
        }
    }

    /// The settings of the table's columns, by the positions of fields in records.
    pub(crate) fn of_columns(&self) -> &[ColumnSettings]
        ensures { result.now ≡ self.now.columns }
    {
        self.columns.as_slice()
    }

    /// The settings of the table's header, and then of its rows.
    pub(crate) fn of_rows(&self) -> &[RowSettings]
        ensures { result.now ≡ self.now.rows }
    {
        self.rows.as_slice()
    }
}

/// The settings of the cells of `row`. The list is empty if `row` is `None`.
#[inline(always)]
pub(crate) fn cell_settings(row: Option<&RowSettings>) -> &[CellSettings]
    ensures { result.now ≡ cell_settings (option_map (λ row. row.now) row.entry) }
{
    match row {
        Some(row) => row.of_cells(),
        None => &[],
    }
}

/// The settings of the cell of the field at `position`, which is counted from 0. `None` if
/// `settings` ends before this position.
#[inline(always)]
pub(crate) fn settings_of(settings: &[CellSettings], position: usize) -> Option<&CellSettings>
    ensures { option_map (λ own. own.now) result ≡ slice_get settings.now position }
{
    settings.get(position)
}

/// The greatest number of lines of a row with the settings `row`: the `max_height` of these
/// settings if they have one, and otherwise the `max_height` of `look`. `None` means that there is
/// no limit.
#[inline(always)]
pub(crate) fn limit_by(row: Option<&RowSettings>, look: &Look) -> Option<usize>
    ensures { result ≡ limit_by (option_map (λ row. row.now) row.entry) look.now }
{
    match row {
        Some(row) => row.limit(look.max_height),
        None => look.max_height,
    }
}
