//! Widths under `Disabled`.

ghost use Rattle.std.specs.Prelude.{◌≡◌, unwrap_or};
ghost use Rattle.comfy_parts.specs.CellValue.{column_padding};
ghost use Rattle.comfy_table.specs.Widths.{capped_content, fixed_by_constraint, upper_boundary};

use crate::table::Table;
use crate::utils::arrangement::constraint::max;
use crate::utils::arrangement::fixed::fixed_width;
use crate::utils::arrangement::helper::absolute_width_with_padding;
use comfy_parts::Column;

// The content width of a shown column: the width that its constraint fixes, if there is one.
// Otherwise the width of its content, or the upper boundary less the paddings if the content alone
// is wider than the boundary.
pub fn disabled_width(table: &Table, column: &Column, content: u16, shown_columns: usize) -> u16
    ensures { result ≡ unwrap_or (fixed_by_constraint table.now shown_columns content
        (column_padding column.now) column.now.constraint)
        (capped_content content (column_padding column.now)
        (upper_boundary table.now shown_columns column.now.constraint)) }
{
    if let Some(width) = fixed_width(table, column, content, shown_columns) {
        return width;
    }
    match max(table, &column.constraint().copied(), shown_columns) {
        Some(upper) if upper < content => absolute_width_with_padding(column, upper),
        _ => content.max(1),
    }
}
