//! Widths that don't depend on the other columns.

ghost use Rattle.std.specs.Prelude.{◌≡◌};
ghost use Rattle.comfy_parts.specs.CellValue.{column_padding};
ghost use Rattle.comfy_table.specs.Widths.{fixed_by_constraint};

use crate::table::Table;
use crate::utils::arrangement::constraint::{absolute_value_from_width, min};
use crate::utils::arrangement::helper::absolute_width_with_padding;
use comfy_parts::Column;
use comfy_parts::style::ColumnConstraint;

// The content width that follows from a column's constraint alone: the width of its content, its
// absolute width, or its lower boundary if the content with its paddings isn't wider. `None` if the
// constraint doesn't decide the width.
pub fn fixed_width(
    table: &Table,
    column: &Column,
    content: u16,
    shown_columns: usize,
) -> Option<u16>
    ensures { result ≡ fixed_by_constraint table.now shown_columns content
        (column_padding column.now) column.now.constraint }
{
    let constraint = column.constraint().copied();
    match constraint {
        Some(ColumnConstraint::ContentWidth) => Some(content.max(1)),
        Some(ColumnConstraint::Absolute(width)) => {
            let whole = absolute_value_from_width(table, &width, shown_columns)?;
            Some(absolute_width_with_padding(column, whole))
        }
        _ => {
            let lower = min(table, &constraint, shown_columns)?;
            let (left, right) = column.padding();
            let needed = u32::from(content) + u32::from(left) + u32::from(right);
            if needed <= u32::from(lower) {
                Some(absolute_width_with_padding(column, lower))
            } else {
                None
            }
        }
    }
}
