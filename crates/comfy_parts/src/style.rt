//! The look of a table: the frame, the widths of columns, and the alignment, colours and attributes
//! of texts. Nothing here takes memory.

pub mod attribute;
pub mod cell;
pub mod color;
pub mod column;
pub mod presets;
pub mod table;
pub mod table_style;

pub use attribute::Attribute;
pub use cell::CellAlignment;
pub use color::Color;
pub use column::{ColumnConstraint, Width};
pub use table::ContentArrangement;
pub use table_style::{ContentLineStyle, LineStyle, TableStyle};
