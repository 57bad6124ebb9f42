//! Making a table from all its parts at once.

ghost use Rattle.std.specs.Prelude.{◌≡◌};
ghost use Rattle.comfy_table.specs.MadeTable.{table_of_parts};

use crate::table::Table;
use crate::table::terminal::Terminal;
use comfy_parts::style::{ContentArrangement, TableStyle};
use comfy_parts::{Column, Row};

/// All parts of a table: header, rows, columns and settings. `Table::from_parts` makes a table of
/// these parts without taking memory.
#[derive(Debug, Drop)]
pub struct TableParts {
    /// The columns, from left to right. A row may have more cells than there are columns: cells
    /// after the last column aren't drawn.
    pub columns: Vec<Column>,
    /// The header, which is drawn above the rows; `None` for a table without a header.
    pub header: Option<Row>,
    /// The rows, from the top, without the header.
    pub rows: Vec<Row>,
    /// The characters of the frame.
    pub style: TableStyle,
    /// The rule by which the widths of the columns are found.
    pub arrangement: ContentArrangement,
    /// The character at which texts may break, unless a column or a cell has its own; `None` for a
    /// space.
    pub delimiter: Option<char>,
    /// The truncation indicator: the text that follows a line that `Row::max_height` cuts; `None`
    /// for `…`.
    pub indicator: Option<String>,
    /// The width of the table in terminal columns; `None` if no width is set.
    pub set_width: Option<u16>,
    /// Facts about the terminal, such as its width; `Terminal::UNKNOWN` if nothing is known.
    pub terminal: Terminal,
    /// True if the table ignores the facts in `terminal`: `Table::is_tty` is false then. See
    /// `Table::force_no_tty`.
    pub no_tty: bool,
    /// True if the fact `stderr_is_tty` of `terminal` counts, and false if `stdout_is_tty` counts.
    /// See `Table::use_stderr`.
    pub use_stderr: bool,
    /// True if colours and attributes are written even if `Table::is_tty` is false.
    pub enforce_styling: bool,
    /// True if colours and attributes surround only the texts of cells, without paddings and
    /// spaces.
    pub style_text_only: bool,
    /// True if SGR sequences in cells have no influence on widths, on line ends, and on the cuts by
    /// `Row::max_height` (`Table::custom_styling`).
    pub custom_styling: bool,
}

impl Table {
    /// The table that consists of `parts`. The call takes no memory.
    pub fn from_parts(parts: TableParts) -> Table
        ensures { result ≡ table_of_parts parts }
    {
        Table {
            columns: parts.columns,
            header: parts.header,
            rows: parts.rows,
            style: parts.style,
            arrangement: parts.arrangement,
            delimiter: parts.delimiter,
            indicator: parts.indicator,
            set_width: parts.set_width,
            terminal: parts.terminal,
            no_tty: parts.no_tty,
            use_stderr: parts.use_stderr,
            enforce_styling: parts.enforce_styling,
            style_text_only: parts.style_text_only,
            custom_styling: parts.custom_styling,
        }
    }
}
