//! The widths and boundaries that constraints set, in terminal columns.

ghost use Rattle.std.specs.Prelude.{◌≡◌};
ghost use Rattle.comfy_table.specs.Widths.{lower_boundary, resolved_width, upper_boundary};

use crate::table::Table;
use crate::utils::arrangement::helper::count_border_columns;
use comfy_parts::style::{ColumnConstraint, Width};

/// The lower boundary that `constraint` sets for the width of a column with its paddings, in
/// terminal columns. `None` if `constraint` is `None` or has no lower boundary, or if the boundary
/// is a percentage and the table's width isn't known. `shown_columns` is the number of columns that
/// aren't hidden; a percentage depends on their borders (`absolute_value_from_width`).
pub fn min(
    table: &Table,
    constraint: &Option<ColumnConstraint>,
    shown_columns: usize,
) -> Option<u16>
    ensures { result ≡ lower_boundary table.now shown_columns constraint.now }
{
    match constraint {
        Some(ColumnConstraint::LowerBoundary(lower))
        | Some(ColumnConstraint::Boundaries { lower, .. }) => {
            absolute_value_from_width(table, lower, shown_columns)
        }
        _ => None,
    }
}

/// The upper boundary that `constraint` sets for the width of a column with its paddings, in
/// terminal columns. `None` if `constraint` is `None` or has no upper boundary, or if the boundary
/// is a percentage and the table's width isn't known. `shown_columns` is the number of columns that
/// aren't hidden; a percentage depends on their borders (`absolute_value_from_width`).
pub fn max(
    table: &Table,
    constraint: &Option<ColumnConstraint>,
    shown_columns: usize,
) -> Option<u16>
    ensures { result ≡ upper_boundary table.now shown_columns constraint.now }
{
    match constraint {
        Some(ColumnConstraint::UpperBoundary(upper))
        | Some(ColumnConstraint::Boundaries { upper, .. }) => {
            absolute_value_from_width(table, upper, shown_columns)
        }
        _ => None,
    }
}

/// The number of terminal columns that `width` means. A percentage is of the table's width less the
/// borders of `shown_columns` columns. The result is rounded down, and a percentage above 100
/// counts as 100. The result is `None` for a percentage if the table's width isn't known.
pub fn absolute_value_from_width(table: &Table, width: &Width, shown_columns: usize) -> Option<u16>
    ensures { result ≡ resolved_width table.now shown_columns width.now }
{
    match width {
        Width::Fixed(width) => Some(*width),
        Width::Percentage(percent) => {
            let whole = table.width()? as usize;
            let room = whole.saturating_sub(count_border_columns(table, shown_columns));
            Some((usize::from((*percent).min(100)) * room / 100) as u16)
        }
    }
}
