//! Tables: the calls that `lines` makes, cells of a column, borrowed parts, and the widest
//! paddings.

use crate::support::{
    README_DRAWN, assert_drawn, assert_given, assert_lines, assert_number, row_of, table_of,
};
use comfy_table::utils::arrangement::arrange_content;
use comfy_table::utils::build_table;
use comfy_table::utils::formatting::content_format::{format_content, format_row};
use comfy_table::{Cell, Column, ColumnCellIter, ContentArrangement, Table};
use std::alloc::{Alloc, Global};
use std::mem;
use std::process::Abort;

// The table of the README.
fn readme_table(rt: &(impl Abort + Alloc<A = Global>)) -> Table {
    let header = ["Header1", "Header2", "Header3"];
    let first = [
        "This is a text",
        "This is another text",
        "This is the third text",
    ];
    let second = [
        "This is another text",
        "Now\nadd some\nmulti line stuff",
        "This is awesome",
    ];
    let mut table = Table::new(rt.alloc());
    table.try_set_header(header).expect(rt, "memory");
    table.try_add_row(first).expect(rt, "memory");
    table.try_add_row(second).expect(rt, "memory");
    table
}

#[test]
fn each_step_of_a_drawing_succeeds(rt: HostRuntime) {
    let table = readme_table(&rt);
    assert_formatted(&rt, &table);
    let lines = build_table(&table).expect(&rt, "memory");
    assert_lines(&rt, lines, README_DRAWN.trim_end());
}

// The header and the first row have one line, and the second row has three. Another row has two
// there, and its fourth cell is after the last column.
fn assert_formatted(rt: &(impl Abort + Alloc<A = Global>), table: &Table) {
    let infos = arrange_content(table).expect(rt, "memory");
    let content = format_content(table, infos.as_slice()).expect(rt, "memory");
    assert_number(rt, content.len(), 3);
    for (lines, wanted) in content.iter().zip([1, 1, 3]) {
        assert_number(rt, lines.len(), wanted);
    }
    let row = row_of(rt, ["a", "b\nc", "d", "behind the last column"]);
    let lines = format_row(&row, infos.as_slice(), table).expect(rt, "memory");
    assert_number(rt, lines.len(), 2);
}

// The second column's cells in the rows. The second row has none.
const SECOND_CELLS: [Option<&str>; 3] = [Some("Second"), None, Some("Fifth")];

#[test]
fn cells_of_a_column_follow_that_of_the_header(rt: HostRuntime) {
    let mut table = table_of(&rt, ["First", "Second"]);
    table.try_add_row(["Third"]).expect(&rt, "memory");
    table.try_add_row(["Fourth", "Fifth"]).expect(&rt, "memory");
    assert_cells(&rt, table.column_cells_iter(1));
    assert_cells_after(&rt, &table, None);
    table.try_set_header(["A", "B"]).expect(&rt, "memory");
    assert_cells_after(&rt, &table, Some("B"));
}

fn assert_cells_after(rt: &impl Abort, table: &Table, header: Option<&str>) {
    let mut cells = table.column_cells_with_header_iter(1);
    assert_cell(rt, cells.next(), header);
    assert_cells(rt, cells);
}

fn assert_cells(rt: &impl Abort, mut cells: ColumnCellIter<'_>) {
    for wanted in SECOND_CELLS {
        assert_cell(rt, cells.next(), wanted);
    }
    assert!(rt; cells.next().is_none());
}

// Fails unless an item is a cell with this content, or no cell.
fn assert_cell(rt: &impl Abort, item: Option<Option<&Cell>>, content: Option<&str>) {
    match (item, content) {
        (Some(Some(cell)), Some(text)) => assert_given(rt, cell.content(), text),
        (Some(None), None) => {}
        _ => panic!(rt; "another item"),
    }
}

// Sets the height of each row, and only the left padding of the first column.
fn set_parts(table: &mut Table) {
    for row in table.row_iter_mut() {
        row.max_height(1);
    }
    let mut left = 2;
    for column in table.column_iter_mut() {
        column.set_padding((left, 0));
        left = 0;
    }
}

#[test]
fn rows_and_columns_are_borrowed_mutably_in_order(rt: HostRuntime) {
    let mut table = table_of(&rt, ["a\nb", "cd"]);
    set_parts(&mut table);
    assert_drawn(&rt, &table, "+---+--+\n|  …|cd|\n+---+--+");
}

// Sets the height of each row, and no padding in any column.
fn set_all_parts(table: &mut Table) {
    for row in table.row_iter_mut() {
        row.max_height(1);
    }
    for column in table.column_iter_mut() {
        column.set_padding((0, 0));
    }
}

#[test]
fn each_row_and_column_is_borrowed_mutably(rt: HostRuntime) {
    let mut table = table_of(&rt, ["a\nb", "cd"]);
    set_all_parts(&mut table);
    assert_drawn(&rt, &table, "+-+--+\n|…|cd|\n+-+--+");
}

// Replaces a column, and returns the old one.
fn replace_column(rt: &impl Abort, table: &mut Table, position: usize, column: Column) -> Column {
    let place = table.column_mut(position).expect(rt, "a column");
    mem::replace(place, column)
}

// Exchanges the first two columns of a table.
fn exchange_columns(rt: &impl Abort, table: &mut Table) {
    let first = replace_column(rt, table, 0, Column::new(0));
    let second = replace_column(rt, table, 1, first);
    let _ = replace_column(rt, table, 0, second);
}

const EXCHANGED: &str = "\
+----+--+
| ab |cd|
+----+--+";

#[test]
fn columns_are_found_by_their_positions(rt: HostRuntime) {
    let mut table = table_of(&rt, ["ab", "cd"]);
    if let Some(column) = table.column_mut(0) {
        column.set_padding((0, 0));
    }
    exchange_columns(&rt, &mut table);
    assert_drawn(&rt, &table, EXCHANGED);
    for column in table.column_iter_mut() {
        column.index = 7;
    }
    assert_drawn(&rt, &table, EXCHANGED);
}

#[test]
fn cells_without_a_column_are_left_out(rt: HostRuntime) {
    let mut table = table_of(&rt, ["a"]);
    let longer = row_of(&rt, ["x", "y", "z"]);
    if let Some(row) = table.row_mut(0) {
        let _ = mem::replace(row, longer);
    }
    assert_drawn(&rt, &table, "+---+\n| x |\n+---+");
}

fn pad_widely(table: &mut Table) {
    for column in table.column_iter_mut() {
        column.set_padding((65535, 65535));
    }
}

// Fails unless each drawn line has this many characters.
fn assert_counts(rt: &impl Abort, table: &Table, count: usize) {
    for line in table.lines().expect(rt, "memory") {
        assert_number(rt, line.chars().count(), count);
    }
}

#[test]
fn the_widest_paddings_are_drawn(rt: HostRuntime) {
    let mut table = table_of(&rt, ["a"]);
    pad_widely(&mut table);
    assert_counts(&rt, &table, 131073);
}

// A border and a padding on each side leave 65531 terminal columns.
#[test]
fn the_widest_table_is_drawn(rt: HostRuntime) {
    let mut table = table_of(&rt, ["a"]);
    table
        .set_content_arrangement(ContentArrangement::DynamicFullWidth)
        .set_width(65535);
    let infos = arrange_content(&table).expect(&rt, "memory");
    assert_number(&rt, infos.len(), 1);
    for info in &infos {
        assert!(rt; info.content_width == 65531);
    }
    assert_counts(&rt, &table, 65535);
}
