//! The settings with which the table of an input is drawn.

use comfy_parts::style::{ContentArrangement, TableStyle};

/// The settings with which the table of an input is drawn.
///
/// ```
/// let settings = Settings {
///     width: Some(80),
///     arrangement: ContentArrangement::Dynamic,
///     style: UTF8_FULL,
/// };
/// ```
#[derive(Clone, Copy, Debug)]
pub struct Settings {
    /// The width of the table in terminal columns; `None` if no width is set.
    pub width: Option<u16>,
    /// The rule by which the widths of the columns are found. `Dynamic` and `DynamicFullWidth` wrap
    /// texts so that the table keeps to `width`, and act as `Disabled` if no width is set.
    pub arrangement: ContentArrangement,
    /// The characters of the frame.
    pub style: TableStyle,
}
