//! Tables drawn as text: made from cells, arranged, and framed.
//!
//! The functions of `laws` have empty bodies and do nothing when they run. Their clauses are laws:
//! facts that hold for all tables, and that no clause of another function states. A law is a
//! function because only a clause of a function can be proved, and because a caller's proof gets a
//! clause by calling its function.
#![tactic(auto)]

pub mod for_records;
pub mod laws;
mod table;
pub mod utils;

pub use comfy_parts::style::{
    Attribute, CellAlignment, Color, ColumnConstraint, ContentArrangement, ContentLineStyle,
    LineStyle, TableStyle, Width, presets,
};
pub use comfy_parts::{
    Cell, Cells, Column, IntoCell, IntoCells, IntoRow, Items, Result, Row, TableError, column,
    style,
};
pub use table::Table;
pub use table::arranged::ArrangedTable;
pub use table::column_cells::ColumnCellIter;
pub use table::output::Lines;
pub use table::parts::TableParts;
pub use table::row_writer::RowWriter;
pub use table::terminal::Terminal;
pub use utils::formatting::drawing::PartEnds;

/// Makes a row of values that may have different types, as an array of cells. The allocator comes
/// first, with a semicolon after it. Each value has a type from which a cell can be made
/// (`IntoCell`). The macro uses `?`, so call it in a function that returns a `Result`. The only
/// error is `OutOfMemory`.
///
/// ```
/// table.add_row(row![alloc; "17", 12u32, true])?;
/// ```
#[macro_export]
macro_rules! row {
    ($alloc:expr; $($value:expr),+ $(,)?) => {
        [$($crate::IntoCell::into_cell($value, $alloc)?),+]
    };
}
