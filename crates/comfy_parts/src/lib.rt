//! The parts of a table: styles, cells, rows, columns, and the cutting of texts into lines.
//!
//! The functions of `laws`, and `presets_are_as_defined`, have empty bodies and do nothing when
//! they run. Their clauses `ensures` are laws, that is proved facts that hold for all values. A
//! clause can be proved only on a function, and another proof uses the clause by a call of that
//! function.
#![tactic(auto)]

pub mod cell;
pub mod column;
pub mod content_split;
pub mod convert;
pub mod error;
pub mod laws;
pub mod pieces;
pub mod row;
pub mod style;

pub use cell::{Cell, for_tables};
pub use column::Column;
pub use convert::{Cells, IntoCell, IntoCells, IntoRow, Items};
pub use error::{Result, TableError};
pub use row::Row;
