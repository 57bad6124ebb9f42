//! Widths of columns, and constraints on them.

/// The width of a whole column, paddings included.
///
/// ```
/// let third = ColumnConstraint::UpperBoundary(Width::Percentage(33));
/// ```
#[derive(Copy, Clone, Debug, PartialEq, Eq)]
pub enum Width {
    /// A width of this many terminal columns.
    Fixed(u16),
    /// A width of this many percent of the table's width less its border characters, rounded down.
    /// A number above 100 counts as 100. If the table's width isn't known, a constraint with this
    /// width is ignored.
    Percentage(u16),
}

/// A constraint on the width of a column.
///
/// ```
/// let mut table = Table::new(alloc);
/// table
///     .add_row(["three", "columns", "here"])?
///     .set_constraints([
///         ColumnConstraint::LowerBoundary(Width::Fixed(9)),
///         ColumnConstraint::Hidden,
///         ColumnConstraint::Absolute(Width::Fixed(4)),
///     ]);
/// let text = table.to_text()?;
/// // +---------+----+
/// // | three   | he |
/// // |         | re |
/// // +---------+----+
/// ```
#[derive(Copy, Clone, Debug, PartialEq, Eq)]
pub enum ColumnConstraint {
    /// The column isn't drawn.
    Hidden,
    /// The column is as wide as its content and its paddings. `DynamicFullWidth` can make the
    /// column wider.
    ContentWidth,
    /// The column has this width, including its paddings. If the paddings leave no room, the column
    /// is as wide as its paddings and one terminal column. `DynamicFullWidth` can make the column
    /// wider.
    Absolute(Width),
    /// The column is at least this wide, including its paddings. The dynamic arrangements can
    /// still make the column as narrow as its longest line.
    LowerBoundary(Width),
    /// The column is at most this wide, including its paddings, with two exceptions.
    /// `DynamicFullWidth` can make the column wider. Under `Disabled`, or if the table's width
    /// isn't known, the boundary has an effect only if the content without paddings is wider.
    UpperBoundary(Width),
    /// The column is at least as wide as `lower` and at most as wide as `upper`, with the
    /// exceptions of `LowerBoundary` and `UpperBoundary`.
    Boundaries { lower: Width, upper: Width },
}
