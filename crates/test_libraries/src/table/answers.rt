//! Calls that return a number or a truth value.

use crate::support::table_of;
use comfy_table::presets::ASCII_FULL;
use comfy_table::utils::arrangement::constraint::absolute_value_from_width;
use comfy_table::utils::arrangement::helper::{absolute_width_with_padding, count_border_columns};
use comfy_table::utils::arrangement::longest_line;
use comfy_table::{Column, ContentArrangement, IntoRow, Table, Terminal, Width};
use std::alloc::{Alloc, Global};
use std::process::Abort;

// Fails unless the column at this position, wrapped at this content width, has a longest line of
// this width.
fn assert_longest(rt: &impl Abort, table: &Table, position: usize, width: u16, wanted: usize) {
    let longest = longest_line(table, position, width).expect(rt, "memory");
    assert!(rt; longest == wanted);
}

// The two words are separated by two spaces, one of which ends the first line.
#[test]
fn longest_lines_are_those_of_wrapped_cells(rt: HostRuntime) {
    let mut table = table_of(&rt, ["abcd  efghi"]);
    table
        .set_content_arrangement(ContentArrangement::Dynamic)
        .set_width(14);
    assert_longest(&rt, &table, 0, 10, 5);
    assert_longest(&rt, &table, 0, 5, 5);
    assert_longest(&rt, &table, 0, 11, 11);
    assert_longest(&rt, &table, 1, 10, 0);
}

// Fails unless the table has this many columns after this header.
fn assert_columns_after<T: IntoRow>(rt: &impl Abort, table: &mut Table, header: T, wanted: usize) {
    table.try_set_header(header).expect(rt, "memory");
    assert!(rt; table.column_count().expect(rt, "memory") == wanted);
}

#[test]
fn a_shorter_header_removes_no_column(rt: HostRuntime) {
    let mut table = Table::new(rt.alloc());
    assert_columns_after(&rt, &mut table, ["a", "b", "c"], 3);
    assert_columns_after(&rt, &mut table, ["a", "b", "c", "d"], 4);
    assert_columns_after(&rt, &mut table, ["a", "b"], 4);
}

#[test]
fn paddings_are_taken_from_a_width(rt: HostRuntime) {
    let mut column = Column::new(0);
    assert!(rt; absolute_width_with_padding(&column, 8) == 6);
    column.set_padding((65535, 65535));
    assert!(rt; absolute_width_with_padding(&column, 10) == 1);
}

#[test]
fn border_characters_are_counted(rt: HostRuntime) {
    let mut table = Table::new(rt.alloc());
    table.load_style(ASCII_FULL);
    assert!(rt; count_border_columns(&table, 3) == 4);
    assert!(rt; count_border_columns(&table, 0) == 2);
}

// At most 100 percent of the 20 terminal columns between the borders are taken.
#[test]
fn percentages_need_a_known_width(rt: HostRuntime) {
    let mut table = table_of(&rt, ["a"]);
    let width = Width::Percentage(150);
    assert!(rt; absolute_value_from_width(&table, &width, 1).is_none());
    table.set_width(22);
    assert!(rt; absolute_value_from_width(&table, &width, 1) == Some(20));
}

// Compares a table's facts about its terminal.
fn assert_terminal(
    rt: &impl Abort,
    table: &Table,
    is_tty: bool,
    width: Option<u16>,
    should_style: bool,
) {
    assert!(rt; table.is_tty() == is_tty);
    assert!(rt; table.width() == width);
    assert!(rt; table.should_style() == should_style);
}

// A table whose standard output is a terminal of 12 columns, and whose standard error isn't a
// terminal.
fn table_on_stdout(rt: &impl Alloc<A = Global>) -> Table {
    let mut table = Table::new(rt.alloc());
    table.set_terminal(Terminal {
        stdout_is_tty: true,
        stderr_is_tty: false,
        width: Some(12),
    });
    table
}

#[test]
fn each_switch_changes_the_terminal(rt: HostRuntime) {
    let mut table = table_on_stdout(&rt);
    assert_terminal(&rt, &table, true, Some(12), true);
    table.use_stderr();
    assert_terminal(&rt, &table, false, None, false);
    table.enforce_styling();
    assert_terminal(&rt, &table, false, None, true);
    table.set_width(5);
    assert_terminal(&rt, &table, false, Some(5), true);
}

#[test]
fn no_terminal_is_seen_after_force_no_tty(rt: HostRuntime) {
    let mut table = table_on_stdout(&rt);
    table.force_no_tty();
    assert_terminal(&rt, &table, false, None, false);
}
