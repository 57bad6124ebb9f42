//! Lines between rows, which are left out if they aren't wanted. The only error of the functions is
//! that memory runs out.

ghost use Rattle.std.specs.Prelude.{◌≡◌, IfOk, OnOk, false, map, nat_lt, true};
ghost use Rattle.std.specs.List.{list_any};
ghost use Rattle.comfy_table.specs.Pieces.{row_height};
ghost use Rattle.csv_tables.specs.Contents.{rows_from};
ghost use Rattle.csv_tables.specs.Drawn.{HasTallRow, condensed_style, separated_table, separators_in, with_style};
ghost use Rattle.csv_tables.specs.Separators.{AreRowsSeparated, AreTallRowsSeparated};

use crate::lazy_table::LazyTable;
use crate::options::RowSeparators;
use crate::rows::RecordRows;
use comfy_table::{ArrangedTable, LineStyle, Result, RowWriter, TableStyle};

/// Leaves out the lines that the style of `contents` has between rows, unless the rule `separators`
/// draws these lines.
pub(crate) fn separate_rows(contents: &mut LazyTable, separators: RowSeparators) -> Result<()>
    requires { contents.old.rows.is_expanded ≡ false }
    ensures table { OnOk result (AreRowsSeparated separators contents.old.table
        contents.new.table) }
    ensures rows { OnOk result (contents.new.rows ≡ contents.old.rows) }
{
    match separators {
        RowSeparators::Styled => Ok(()),
        RowSeparators::Never => {
            condense(contents);
            Ok(())
        }
        RowSeparators::Needed => separate_tall_rows(contents),
    }
}

/// Leaves out the lines between the fields of expanded records, unless the rule `separators` is
/// `Styled`. With `Needed`, fields of several lines need no lines between them, because names
/// separate the fields.
pub(crate) fn separate_fields(contents: &mut LazyTable, separators: RowSeparators)
    ensures table { AreRowsSeparated (separators_in true separators) contents.old.table
        contents.new.table }
    ensures rows { contents.new.rows ≡ contents.old.rows }
{
    match separators {
        RowSeparators::Styled => {}
        RowSeparators::Needed | RowSeparators::Never => condense(contents),
    }
}

// Leaves out the lines between rows, unless a row is drawn in more than one line without them.
fn separate_tall_rows(contents: &mut LazyTable) -> Result<()>
    requires { contents.old.rows.is_expanded ≡ false }
    ensures table { OnOk result (AreTallRowsSeparated contents.old.table contents.new.table) }
    ensures rows { OnOk result (contents.new.rows ≡ contents.old.rows) }
{
    let style = contents.table.style();
    condense(contents);
    if has_tall_row(contents)? {
        load_style(contents, style);
    }
    Ok(())
}

// Leaves out the lines between rows.
fn condense(contents: &mut LazyTable)
    ensures { contents.new ≡ record contents.old {
      table = separated_table false contents.old.table;
    } }
{
    let style = condensed_style(contents.table.style());
    load_style(contents, style);
}

fn load_style(contents: &mut LazyTable, style: TableStyle)
    ensures { contents.new ≡ record contents.old {
      table = with_style style contents.old.table;
    } }
{
    contents.table.load_style(style);
}

// The style without lines between rows.
fn condensed_style(style: TableStyle) -> TableStyle
    ensures { result ≡ condensed_style style }
{
    style.row_separator(LineStyle::none())
}

// Returns true if a row is drawn in more than one line.
fn has_tall_row(contents: &LazyTable) -> Result<bool>
    requires { contents.now.rows.is_expanded ≡ false }
    ensures { IfOk result (λ is_tall. HasTallRow contents.now.table is_tall) }
{
    let arranged = ArrangedTable::of_contents(contents)?;
    if contents.is_flat_within(arranged.infos()) {
        return Ok(false);
    }
    let writer = arranged.row_writer()?;
    is_any_tall(&contents.rows, &writer)
}

// Returns true if the row of any record is drawn in more than one line.
fn is_any_tall(rows: &RecordRows, writer: &RowWriter<'_>) -> Result<bool>
    requires { rows.now.is_expanded ≡ false }
    ensures { IfOk result (λ is. is ≡ list_any (nat_lt 1)
        (map (row_height writer.now.table writer.now.infos)
        (rows_from rows.now 0 rows.now.selected.rows))) }
{
    let selected = &rows.selected;
    let mut cells = Vec::new(selected.alloc);
    for (at, fields) in selected.rows().enumerate() {
        if rows.is_tall(writer, &mut cells, at, &fields)? {
            return Ok(true);
        }
    }
    Ok(false)
}
