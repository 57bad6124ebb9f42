//! Each conversion succeeds, and gives the expected texts.

use crate::support::{assert_given, assert_number, row_of};
use comfy_parts::{Cell, Cells, IntoCells, IntoRow, Row};
use std::alloc::{Alloc, Global};
use std::fmt::{self, Display, Formatter, Write};
use std::process::Abort;

// Fails unless the cells of the row that a value becomes have these contents, which bars separate.
fn assert_row<T: IntoRow>(rt: &(impl Abort + Alloc<A = Global>), value: T, wanted: &str) {
    assert_contents(rt, &row_of(rt, value), wanted);
}

fn assert_contents(rt: &impl Abort, row: &Row, wanted: &str) {
    let mut wanted = wanted.split('|');
    for cell in row.cell_iter() {
        assert_given(
            rt,
            cell.content(),
            wanted.next().unwrap_or("no further cell"),
        );
    }
    assert!(rt; wanted.next().is_none());
}

// Fails unless the cells that a list becomes have these contents, which bars separate.
fn assert_cells<T: IntoCells>(rt: &(impl Abort + Alloc<A = Global>), values: T, wanted: &str) {
    let cells = values.into_cells(rt.alloc()).expect(rt, "memory");
    assert_row(rt, cells, wanted);
}

#[test]
fn numbers_are_written_in_digits(rt: HostRuntime) {
    let eight = (
        255u8,
        65535u16,
        5u32,
        u64::MAX,
        0u128,
        1205usize,
        i8::MIN,
        7i16,
    );
    let wanted = "255|65535|5|18446744073709551615|0|1205|-128|7";
    assert_row(&rt, eight, wanted);
    let wanted = "-1|-9223372036854775808|-170141183460469231731687303715884105728|-40";
    assert_row(&rt, (-1i32, i64::MIN, i128::MIN, -40isize), wanted);
}

#[test]
fn texts_and_single_values_are_written_as_they_are(rt: HostRuntime) {
    let text = String::from_str(rt.alloc(), "two\nlines").expect(&rt, "memory");
    let cell = Cell::new(rt.alloc(), 17).expect(&rt, "memory");
    assert_row(&rt, ("dock 3", text, cell), "dock 3|two\nlines|17");
    assert_row(&rt, (true, 'x'), "true|x");
}

#[test]
fn tuples_are_rows(rt: HostRuntime) {
    assert_row(&rt, (1u8, 2u8, "c", 4u8, 5u8), "1|2|c|4|5");
    assert_row(&rt, (1u8, 2u8, 3u8, "d", 5u8, 6u8), "1|2|3|d|5|6");
    let seven = (1u8, 2u8, 3u8, 4u8, "e", 6u8, 7u8);
    assert_row(&rt, seven, "1|2|3|4|e|6|7");
}

#[test]
fn lists_are_rows_in_order(rt: HostRuntime) {
    let list = Vec::from_array(rt.alloc(), ["17", "dock 3"]).expect(&rt, "memory");
    assert_row(&rt, &list, "17|dock 3");
    assert_row(&rt, list.as_slice(), "17|dock 3");
    assert_row(&rt, list, "17|dock 3");
    assert_row(&rt, &[-1i64, 7], "-1|7");
    assert_row(&rt, [-1i64], "-1");
}

// No clause states that the call succeeds.
#[test]
fn long_lists_are_rows(rt: HostRuntime) {
    assert_number(&rt, row_of(&rt, [7u64; 60]).cell_count(), 60);
}

#[test]
fn lists_are_cells_in_order(rt: HostRuntime) {
    let list = Vec::from_array(rt.alloc(), [1u8, 2]).expect(&rt, "memory");
    assert_cells(&rt, list, "1|2");
    assert_cells(&rt, [true, false], "true|false");
    let cells = ['a', 'b'].into_cells(rt.alloc()).expect(&rt, "memory");
    assert_cells(&rt, Cells(cells.0), "a|b");
}

// A value that refuses to be printed.
#[derive(Drop)]
struct Refusing;

impl Display for Refusing {
    fn fmt<W: Write>(&self, _formatter: &mut Formatter<W>) -> fmt::Result {
        Err(fmt::Error)
    }
}

#[test]
fn a_value_that_refuses_to_be_printed_gives_no_cell(rt: HostRuntime) {
    assert!(rt; Cell::new(rt.alloc(), Refusing).is_err());
}
