//! The settings of a column.

ghost use Rattle.std.specs.Prelude.{◌≡◌, None, Some, option_copied};
ghost use Rattle.comfy_parts.specs.CellValue.{IsColumn, is_hidden_column, new_column, saturated_padding};

use crate::style::{CellAlignment, ColumnConstraint};
use std::marker::Model;

/// The settings of one column. None of the methods takes memory.
///
/// ```
/// if let Some(column) = table.column_mut(0) {
///     column
///         .set_padding((0, 2))
///         .set_constraint(ColumnConstraint::UpperBoundary(Width::Fixed(30)))
///         .set_cell_alignment(CellAlignment::Right);
/// }
/// ```
#[derive(Clone, Debug, Drop)]
pub struct Column {
    /// A label for the caller's own use. No function reads it: only the position of the column in
    /// the table's list of columns counts.
    pub index: usize,
    padding: (u16, u16),
    delimiter: Option<char>,
    alignment: Option<CellAlignment>,
    constraint: Option<ColumnConstraint>,
}

impl Model for Column {
    ghost use Rattle.comfy_parts.specs.CellValue.{ColumnValue, IsDelimiter};

    ghost Value = { ColumnValue };

    ghost invariant = { λ c. IsDelimiter c.delimiter };

    ghost view = { λ c. record {
      padding = c.padding;
      delimiter = c.delimiter;
      alignment = c.alignment;
      constraint = c.constraint;
      index = c.index;
    } };

    ghost inverse = { λ c. record {
      index = c.index;
      padding = c.padding;
      delimiter = c.delimiter;
      alignment = c.alignment;
      constraint = c.constraint;
    } };
}

impl Column {
    /// A column with a padding of one terminal column on each side, and no other setting. `index`
    /// is only a label for the caller.
    pub fn new(index: usize) -> Column
        ensures { result ≡ new_column index }
    {
        Column {
            index,
            padding: (1, 1),
            delimiter: None,
            alignment: None,
            constraint: None,
        }
    }

    /// The paddings of the column: the numbers of free terminal columns on the left and on the
    /// right of the content, in this order.
    pub fn padding(&self) -> (u16, u16)
        ensures { result ≡ self.now.padding }
    {
        self.padding
    }

    /// The column's delimiter, the character at which texts of its cells may break. `None` if the
    /// delimiter of the table applies.
    pub fn column_delimiter(&self) -> Option<char>
        ensures value { result ≡ self.now.delimiter }
        ensures is_column { IsColumn self.now }
    {
        self.delimiter
    }

    /// The alignment of lines in cells without an alignment of their own. If the result is `None`,
    /// these lines are left-aligned.
    pub fn column_alignment(&self) -> Option<CellAlignment>
        ensures { result ≡ self.now.alignment }
    {
        self.alignment
    }

    /// The alignment of lines in cells without an alignment of their own. If the result is `None`,
    /// these lines are left-aligned. `column_alignment` returns the same value: this second name
    /// goes with the setter `set_cell_alignment`.
    pub fn cell_alignment(&self) -> Option<CellAlignment>
        ensures { result ≡ self.now.alignment }
    {
        self.alignment
    }

    /// The constraint on the column's width. `None` if no constraint is set: then only the content
    /// and the arrangement decide the width.
    pub fn constraint(&self) -> Option<&ColumnConstraint>
        ensures { option_copied result ≡ self.now.constraint }
    {
        self.constraint.as_ref()
    }

    /// Returns true if the column isn't drawn, because its constraint is `Hidden`.
    pub fn is_hidden(&self) -> bool
        ensures { result ≡ is_hidden_column self.now }
    {
        matches!(self.constraint, Some(ColumnConstraint::Hidden))
    }

    /// Sets the paddings of the column: the numbers of free terminal columns on the left and on the
    /// right of the content, in this order.
    pub fn set_padding(&mut self, padding: (u16, u16)) -> &mut Self
        ensures same_reference { result.ghost_name ≡ self.entry.ghost_name }
        ensures value { result.now ≡ record self.old { padding = padding } }
    {
        self.padding = padding;
        self
    }

    /// The sum of both paddings in terminal columns, at most 65535.
    pub fn padding_width(&self) -> u16
        ensures { result ≡ saturated_padding self.now }
    {
        let (left, right) = self.padding;
        left.saturating_add(right)
    }

    /// Sets the column's delimiter, the character at which texts of its cells may break. A cell's
    /// own delimiter takes precedence.
    pub fn set_delimiter(&mut self, delimiter: char) -> &mut Self
        ensures same_reference { result.ghost_name ≡ self.entry.ghost_name }
        ensures value { result.now ≡ record self.old { delimiter = Some delimiter } }
    {
        self.delimiter = Some(delimiter);
        self
    }

    /// Sets the constraint on the column's width. It replaces an earlier constraint.
    ///
    /// ```
    /// column.set_constraint(ColumnConstraint::Absolute(Width::Percentage(33)));
    /// ```
    pub fn set_constraint(&mut self, constraint: ColumnConstraint) -> &mut Self
        ensures same_reference { result.ghost_name ≡ self.entry.ghost_name }
        ensures value { result.now ≡ record self.old { constraint = Some constraint } }
    {
        self.constraint = Some(constraint);
        self
    }

    /// Removes the constraint on the column's width. A hidden column is shown again.
    pub fn remove_constraint(&mut self) -> &mut Self
        ensures same_reference { result.ghost_name ≡ self.entry.ghost_name }
        ensures value { result.now ≡ record self.old { constraint = None } }
    {
        self.constraint = None;
        self
    }

    /// Sets the alignment of the lines in the column's cells. A cell's own alignment takes
    /// precedence.
    ///
    /// ```
    /// column.set_cell_alignment(CellAlignment::Right);
    /// ```
    pub fn set_cell_alignment(&mut self, alignment: CellAlignment)
        ensures { self.new ≡ record self.old { alignment = Some alignment } }
    {
        self.alignment = Some(alignment);
    }
}
