//! Tables for programs in C, and in every language that calls C. `packages/c/comfy_table.h`
//! declares the functions.
#![tactic(auto)]

mod arguments;
mod buffer;
mod cells_columns;
mod cells_draw;
mod cells_lent;
mod cells_numbers;
mod cells_rows;
mod cells_settings;
mod cells_styles;
mod csv_draw;
mod frame;
pub mod promised;
mod refusal;
mod refused;
mod rows_columns;
mod rows_draw;
mod rows_looks;
mod rows_settings;
mod texts;

pub use cells_columns::{ColumnNumbers, WidthNumbers};
pub use cells_draw::comfy_cells_draw;
pub use cells_numbers::{ColorNumbers, LookNumbers};
pub use cells_rows::{CellNumbers, RowNumbers};
pub use cells_settings::CellsSettings;
pub use csv_draw::comfy_csv_draw;
pub use frame::{ContentLineNumbers, FrameNumbers, LineNumbers};
pub use refused::{comfy_cells_refused, comfy_rows_refused};
pub use rows_columns::RowsColumn;
pub use rows_draw::comfy_rows_draw;
pub use rows_settings::RowsSettings;

#[cfg(test)]
mod tests;
