//! Rows that are drawn without making a `Row`, and the trait `TableSource` for tables whose rows
//! are stored outside of the `Table`. This module is public for crates that draw records. Callers
//! who draw a `Table` don't need it.

pub use crate::utils::arrangement::source::TableSource;
pub use crate::utils::formatting::row_cell::{LinesCell, RowCell, TextCell};
pub use crate::utils::formatting::text_style::TextStyle;
