//! The numbers on which the widths of shown columns depend.

ghost use Rattle.std.specs.Prelude.{◌≡◌, IfOk};
ghost use Rattle.comfy_parts.specs.CellValue.{column_padding};
ghost use Rattle.comfy_table.specs.Deciding.{all_needs, needs_in};
ghost use Rattle.comfy_table.specs.Widths.{needs_of, shown_count, shown_needs};

use crate::utils::arrangement::constraint::{max, min};
use crate::utils::arrangement::fixed::fixed_width;
use crate::utils::arrangement::helper::count_visible_columns;
use crate::utils::arrangement::source::TableSource;
use comfy_parts::{Column, Result};

// A shown column with the numbers on which its width depends, in addition to its cells. All widths
// are in terminal columns.
#[derive(Drop)]
pub struct WidthNeeds<'a> {
    pub column: &'a Column,
    // its position in the table's list of columns
    pub position: usize,
    // the width of its widest text line
    pub content: u16,
    // its content width, if that doesn't depend on the other columns
    pub fixed: Option<u16>,
    // the boundaries of its whole width, with paddings
    pub lower: Option<u16>,
    pub upper: Option<u16>,
}

impl<'a> WidthNeeds<'a> {
    // The needs of the column at a position of a table with `shown_columns` shown columns.
    fn new<C: TableSource>(
        contents: &C,
        position: usize,
        column: &'a Column,
        shown_columns: usize,
    ) -> Result<WidthNeeds<'a>>
        requires { shown_columns ≡ shown_count (C.whole contents.now) }
        ensures { IfOk result (λ needs. needs_in (C.whole contents.now) needs
            ≡ needs_of (C.whole contents.now) (position, column.now)) }
    {
        let table = contents.table();
        let content = contents.content_width(position)?;
        let constraint = column.constraint().copied();
        Ok(WidthNeeds {
            column,
            position,
            content,
            fixed: fixed_width(table, column, content, shown_columns),
            lower: min(table, &constraint, shown_columns),
            upper: max(table, &constraint, shown_columns),
        })
    }

    // The sum of the paddings on both sides.
    pub fn padding(&self) -> usize
        ensures { result ≡ column_padding self.now.column.now }
    {
        let (left, right) = self.column.padding();
        usize::from(left) + usize::from(right)
    }
}

// The needs of the shown columns of a table, in the order of the table's columns.
pub fn shown_needs<C: TableSource>(contents: &C) -> Result<Vec<WidthNeeds<'_>>>
    ensures { IfOk result (λ columns. all_needs (C.whole contents.now) columns.items
        ≡ shown_needs (C.whole contents.now)) }
{
    let table = contents.table();
    let columns = table.columns.as_slice();
    let count = count_visible_columns(columns);
    let mut visible = Vec::new(*table.columns.allocator());
    for (position, column) in columns.iter().enumerate() {
        if column.is_hidden() {
            continue;
        }
        visible.push(WidthNeeds::new(contents, position, column, count)?)?;
    }
    Ok(visible)
}
