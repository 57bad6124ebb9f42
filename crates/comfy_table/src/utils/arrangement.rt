//! Finds the width of each column.

ghost use Rattle.std.specs.Prelude.{◌≡◌, IfOk};
ghost use Rattle.comfy_table.specs.AllWidths.{all_widths};
ghost use Rattle.comfy_table.specs.Arrangement.{AreInfosOf, width_kept};
ghost use Rattle.comfy_table.specs.DisabledWidths.{width_by_content, widths_by_content};
ghost use Rattle.comfy_table.specs.Drawing.{infos_of};
ghost use Rattle.comfy_table.specs.TableValue.{table_width};
ghost use Rattle.comfy_table.specs.Widths.{shown_count};

pub mod constraint;
mod disabled;
mod dynamic;
mod fixed;
pub mod helper;
mod longest;
pub(crate) mod source;

use crate::table::Table;
use comfy_parts::content_split::ColumnDisplayInfo;
use comfy_parts::style::ContentArrangement;
use comfy_parts::{Column, Result};
use disabled::disabled_width;
use dynamic::dynamic_widths;
use helper::count_visible_columns;
pub use longest::longest_line;
use source::TableSource;

/// The width and settings of each column, hidden ones included, in the order of the table's
/// columns. The only error is `OutOfMemory`.
pub fn arrange_content(table: &Table) -> Result<Vec<ColumnDisplayInfo>>
    ensures { IfOk result (λ infos. AreInfosOf table.now infos.items) }
{
    arrange(table)
}

// The width and settings of each column of a table whose rows may be stored outside of the table.
pub(crate) fn arrange<C: TableSource>(contents: &C) -> Result<Vec<ColumnDisplayInfo>>
    ensures { IfOk result (λ infos. AreInfosOf (C.whole contents.now) infos.items) }
{
    match kept_width(contents.table()) {
        Some(width) => {
            let widths = dynamic_widths(contents, width)?;
            infos_with(contents, widths.as_slice())
        }
        None => infos_by_content(contents),
    }
}

// The width that a dynamic arrangement keeps to; `None` under `Disabled`, or if no width is known.
fn kept_width(table: &Table) -> Option<u16>
    ensures { result ≡ width_kept table.now.arrangement (table_width table.now) }
{
    match table.arrangement {
        ContentArrangement::Disabled => None,
        ContentArrangement::Dynamic | ContentArrangement::DynamicFullWidth => table.width(),
    }
}

// Each column with its width. The visible columns get these widths in the order of the columns, and
// 1 if there are no more widths. A hidden column gets its content's width.
fn infos_with<C: TableSource>(contents: &C, widths: &[u16]) -> Result<Vec<ColumnDisplayInfo>>
    ensures { IfOk result (λ infos. infos.items
        ≡ infos_of (C.whole contents.now) (all_widths (C.whole contents.now) widths.now)) }
{
    let table = contents.table();
    let columns = table.columns.as_slice();
    let mut infos = Vec::new(*table.columns.allocator());
    let mut shown = 0;
    for (position, column) in columns.iter().enumerate() {
        let width = if column.is_hidden() {
            contents.content_width(position)?.max(1)
        } else {
            let given = widths.get(shown).copied().unwrap_or(1);
            shown += 1;
            given
        };
        infos.push(ColumnDisplayInfo::new(column, width))?;
    }
    Ok(infos)
}

// Each column with the width that follows from its content and its constraint alone.
fn infos_by_content<C: TableSource>(contents: &C) -> Result<Vec<ColumnDisplayInfo>>
    ensures { IfOk result (λ infos. infos.items
        ≡ infos_of (C.whole contents.now) (widths_by_content (C.whole contents.now))) }
{
    let table = contents.table();
    let columns = table.columns.as_slice();
    let visible = count_visible_columns(columns);
    let mut infos = Vec::new(*table.columns.allocator());
    for (position, column) in columns.iter().enumerate() {
        let width = width_by_content(contents, position, column, visible)?;
        infos.push(ColumnDisplayInfo::new(column, width))?;
    }
    Ok(infos)
}

// The content width of the column at a position under `Disabled`. A hidden column gets its
// content's width.
fn width_by_content<C: TableSource>(
    contents: &C,
    position: usize,
    column: &Column,
    visible: usize,
) -> Result<u16>
    requires { visible ≡ shown_count (C.whole contents.now) }
    ensures { IfOk result (λ width. width
        ≡ width_by_content (C.whole contents.now) (position, column.now)) }
{
    let content = contents.content_width(position)?;
    if column.is_hidden() {
        Ok(content.max(1))
    } else {
        let table = contents.table();
        Ok(disabled_width(table, column, content, visible))
    }
}
