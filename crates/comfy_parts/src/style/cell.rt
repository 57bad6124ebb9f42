//! Alignments.

/// The position of a line of a cell within the width of its column.
///
/// ```
/// let mut table = Table::new(alloc);
/// table
///     .set_header(["Position"])?
///     .add_row([Cell::new(alloc, "right")?.set_alignment(CellAlignment::Right)])?
///     .add_row([Cell::new(alloc, "mid")?.set_alignment(CellAlignment::Center)])?;
/// let text = table.to_text()?;
/// // +----------+
/// // | Position |
/// // +==========+
/// // |    right |
/// // |----------|
/// // |    mid   |
/// // +----------+
/// ```
#[derive(Copy, Clone, Debug, PartialEq, Eq, Hash)]
pub enum CellAlignment {
    /// The line is at the left end of the column's content width.
    Left,
    /// The line is at the right end of the column's content width.
    Right,
    /// The line is in the middle of the column's content width. If an odd number of terminal
    /// columns is free, the left side gets one more than the right side.
    Center,
}
