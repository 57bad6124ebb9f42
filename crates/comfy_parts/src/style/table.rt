//! Arrangements: the ways to find the widths of a table's columns.

/// The way to find the widths of a table's columns.
///
/// ```
/// let mut table = Table::new(alloc);
/// table
///     .set_content_arrangement(ContentArrangement::Dynamic)
///     .set_width(20)
///     .add_row(["17", "at dock 3 since Monday"])?;
/// let text = table.to_text()?;
/// // +----+-------------+
/// // | 17 | at dock 3   |
/// // |    | since       |
/// // |    | Monday      |
/// // +----+-------------+
/// ```
#[derive(Copy, Clone, Debug, PartialEq, Eq)]
pub enum ContentArrangement {
    /// Each column is as wide as its content, unless its constraint fixes or limits the width.
    Disabled,
    /// Contents are wrapped so that the table isn't wider than its width (`Table::width`), if its
    /// columns can be narrow enough for that. Each column has at least one terminal column, and
    /// constraints can require more. If no width is known, `Dynamic` does the same as `Disabled`.
    Dynamic,
    /// Contents are wrapped as under `Dynamic`, and the table fills its width. Terminal columns
    /// that are left over after each column has a width are divided evenly among all shown columns,
    /// including those with a constraint. If no width is known, `DynamicFullWidth` does the same as
    /// `Disabled`.
    DynamicFullWidth,
}
