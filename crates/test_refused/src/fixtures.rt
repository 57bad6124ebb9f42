//! The tables on which calls are made.

use comfy_table::presets::UTF8_FULL;
use comfy_table::{
    Attribute, Cell, CellAlignment, Color, ColumnConstraint, ContentArrangement, IntoRow, Result,
    Table, Terminal, Width,
};
use std::alloc::Global;

/// The drawing of the table of `fill_worked`.
pub const WORKED: &str = "\
+----------------+--------+-------+
| Header1        | Header | Head  |
|                | 2      |       |
+=================================+
| This is a very | This   | smol  |
| long line with | is ano |       |
| a lot of text  | therve |       |
|                | rylon… |       |
|----------------+--------+-------|
| Now let's      | This   | smol  |
| add a really   | is ano |       |
| long line in   | ther   |       |
| the middle of… | text   |       |
+----------------+--------+-------+";

const FIRST: [&str; 3] = [
    "This is a very long line with a lot of text",
    "This is anotherverylongtextwithlongwords text",
    "smol",
];

const SECOND: [&str; 3] = [
    "Now let's\nadd a really long line in the middle of the cell \n and add more multi line stuff",
    "This is another text",
    "smol",
];

/// Fills a table with a header and two rows, whose cells are wrapped and cut at four lines.
pub fn fill_worked(alloc: Global, table: &mut Table) -> Result<()> {
    table.try_set_header(["Header1", "Header2", "Head"])?;
    add_cut_row(alloc, table, FIRST)?;
    add_cut_row(alloc, table, SECOND)?;
    set_widths(table);
    Ok(())
}

/// Fills a table as `fill_worked` does, changes other settings, and adds a cell for which the table
/// has no column yet.
pub fn fill_full(alloc: Global, table: &mut Table) -> Result<()> {
    fill_worked(alloc, table)?;
    table.try_set_truncation_indicator("...")?;
    set_more(table);
    add_late_cell(alloc, table)
}

fn add_cut_row(alloc: Global, table: &mut Table, texts: [&'static str; 3]) -> Result<()> {
    let mut row = texts.into_row(alloc)?;
    row.max_height(4);
    table.try_add_row(row)
}

fn add_late_cell(alloc: Global, table: &mut Table) -> Result<()> {
    let cell = Cell::new(alloc, "late")?
        .fg(Color::Green)
        .add_attribute(Attribute::Bold)?;
    match table.row_mut(0) {
        Some(row) => row.try_add_cell(cell),
        None => Ok(()),
    }
}

fn set_widths(table: &mut Table) {
    table.set_content_arrangement(ContentArrangement::Dynamic);
    table.set_width(35);
    constrain(table, 1, 8);
    constrain(table, 2, 7);
}

fn constrain(table: &mut Table, index: usize, width: u16) {
    if let Some(column) = table.column_mut(index) {
        column.set_constraint(ColumnConstraint::Absolute(Width::Fixed(width)));
    }
}

fn set_more(table: &mut Table) {
    table.load_style(UTF8_FULL);
    table.set_delimiter('e');
    // Only standard error is a terminal.
    table.set_terminal(Terminal {
        stdout_is_tty: false,
        stderr_is_tty: true,
        width: Some(60),
    });
    table.use_stderr();
    if let Some(column) = table.column_mut(0) {
        column.index = 7;
        column.set_padding((2, 0));
        column.set_delimiter('l');
        column.set_cell_alignment(CellAlignment::Right);
    }
}
