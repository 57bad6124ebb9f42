//! The columns of a table of cells, as numbers.

ghost use Rattle.std.specs.Prelude.{◌≡◌, IfOk};
ghost use Rattle.comfy_c.specs.Numbers.{column_with, columns_with, constraint_of, width_with};

use crate::cells_numbers::{alignment_of, char_of};
use comfy_parts::Column;
use comfy_parts::style::{ColumnConstraint, Width};
use std::alloc::{AllocError, Global};

/// A width in the constraint of a column (`ColumnNumbers`).
#[derive(Clone, Copy, Debug)]
#[repr(C)]
pub struct WidthNumbers {
    /// A flag, which is set if it isn't 0: `value` is a percentage of the table's width without its
    /// borders. If the flag isn't set, `value` is in terminal columns.
    pub is_percentage: u16,
    /// The percentage, or the number of terminal columns. A percentage above 100 counts as 100.
    pub value: u16,
}

/// The settings of a column of a table that `comfy_cells_draw` draws.
#[derive(Clone, Copy, Debug)]
#[repr(C)]
pub struct ColumnNumbers {
    /// The number of terminal columns that stay free at the left of the column's texts.
    pub left_padding: u16,
    /// The number of terminal columns that stay free at the right of the column's texts.
    pub right_padding: u16,
    /// The code point of the character at which texts may break; 0 for the delimiter of the table.
    pub delimiter: u32,
    /// The alignment of texts that have none of their own: 1 for left, 2 for right, 3 for centred.
    /// Any other number means left.
    pub alignment: u32,
    /// The constraint on the width of the column, which includes its paddings. With 1 the column
    /// isn't drawn. With 2 it is as wide as its widest text and its paddings, and with 3 its width
    /// is `width`. The width is at least `width` with 4, at most `width` with 5, and from `width`
    /// to `upper` with 6. Any other number sets no constraint. A percentage is no constraint if the
    /// table has no width.
    pub constraint: u32,
    /// The width of the column if `constraint` is 3, its least width for 4 and 6, and its greatest
    /// width for 5. For any other `constraint` this field has no effect.
    pub width: WidthNumbers,
    /// The greatest width of the column if `constraint` is 6. For any other `constraint` this field
    /// has no effect.
    pub upper: WidthNumbers,
}

/// The columns that these numbers describe, in order. The only error is that memory ran out.
pub(crate) fn columns_of(
    alloc: Global,
    numbers: &[ColumnNumbers],
) -> Result<Vec<Column>, AllocError>
    ensures { IfOk result (λ columns. columns.items ≡ columns_with numbers.now) }
{
    numbers
        .iter()
        .enumerate()
        .map(|(index, column)| column_of(index, column))
        .collect(alloc)
}

fn column_of(index: usize, numbers: &ColumnNumbers) -> Column
    ensures { result ≡ column_with index numbers.now }
{
    let mut column = Column::new(index);
    column.set_padding((numbers.left_padding, numbers.right_padding));
    if let Some(delimiter) = char_of(numbers.delimiter) {
        column.set_delimiter(delimiter);
    }
    if let Some(alignment) = alignment_of(numbers.alignment) {
        column.set_cell_alignment(alignment);
    }
    if let Some(constraint) = constraint_of(numbers) {
        column.set_constraint(constraint);
    }
    column
}

fn constraint_of(numbers: &ColumnNumbers) -> Option<ColumnConstraint>
    ensures { result ≡ constraint_of numbers.now }
{
    let width = width_of(numbers.width);
    let upper = width_of(numbers.upper);
    match numbers.constraint {
        1 => Some(ColumnConstraint::Hidden),
        2 => Some(ColumnConstraint::ContentWidth),
        3 => Some(ColumnConstraint::Absolute(width)),
        4 => Some(ColumnConstraint::LowerBoundary(width)),
        5 => Some(ColumnConstraint::UpperBoundary(width)),
        6 => Some(ColumnConstraint::Boundaries {
            lower: width,
            upper,
        }),
        _ => None,
    }
}

fn width_of(numbers: WidthNumbers) -> Width
    ensures { result ≡ width_with numbers }
{
    if numbers.is_percentage != 0 {
        Width::Percentage(numbers.value)
    } else {
        Width::Fixed(numbers.value)
    }
}
