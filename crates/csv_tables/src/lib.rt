//! Makes tables of records, and draws them as rows, as *expanded records*, or for Markdown. Each
//! expanded record is drawn as a table of its own, with one row for each drawn field: the name of
//! the column, and the field (`Expansion`).
//!
//! The *position* of a field is its index in the record, counted from 0. A column has the position
//! of its fields. The *place* of a record is its index among the drawn records, counted from 0.
#![tactic(auto)]

mod cells;
mod columns;
mod decimals;
mod drawn;
mod expanded;
pub mod laws;
mod lazy_table;
mod limits;
mod markdown;
mod needs;
mod nowrap;
mod options;
mod output;
mod pairs;
mod references;
mod rows;
mod selected;
mod selection;
mod separators;
mod settings;
mod summary;
mod table;

pub use columns::name_at;
pub use drawn::RecordDrawing;
pub use markdown::escaped;
pub use options::{ColumnPlan, Expansion, Layout, Look, RowSeparators};
pub use output::{
    drawn_records, drawn_styled_records, output_of_records, output_of_styled_records,
    text_of_records,
};
pub use selection::{Columns, Noun, Selection};
pub use settings::{CellSettings, ColumnSettings, RowSettings, Settings};
