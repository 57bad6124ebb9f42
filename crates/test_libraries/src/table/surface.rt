//! Several rows at once, and rows on a condition. The calls succeed, and the tests count the calls
//! of a predicate, and compare its argument.

use crate::support::{assert_drawn, row_of};
use comfy_table::{Cell, IntoRow, Items, Result, Row, Table, row};
use std::alloc::{Alloc, Global};
use std::cell;
use std::process::Abort;

const TWO_ROWS: &str = "\
+---+---+
| a | b |
|---+---|
| c | d |
+---+---+";

// The rows that `TWO_ROWS` draws.
fn two_rows(rt: &(impl Abort + Alloc<A = Global>)) -> Vec<Row> {
    let mut rows = Vec::new(rt.alloc());
    rows.push(row_of(rt, ["a", "b"])).expect(rt, "memory");
    rows.push(row_of(rt, ["c", "d"])).expect(rt, "memory");
    rows
}

// Fails unless a new table has two rows after these are added.
fn assert_added<I>(rt: &(impl Abort + Alloc<A = Global>), rows: I)
where
    I: Items,
    I::Item: IntoRow,
    I::IntoIter: Drop,
{
    let mut table = Table::new(rt.alloc());
    table.add_rows(rows).expect(rt, "memory");
    assert_drawn(rt, &table, TWO_ROWS);
}

#[test]
fn rows_of_several_kinds_are_added(rt: HostRuntime) {
    assert_added(&rt, two_rows(&rt));
    assert_added(&rt, [["a", "b"], ["c", "d"]]);
    assert_added(&rt, two_rows(&rt).into_iter());
}

// A table of a header and two rows of mixed values.
fn table_of_bikes(alloc: Global) -> Result<Table> {
    let bikes = [
        row![alloc; "17", 3u32, true],
        row![alloc; "18", 'x', Cell::new(alloc, 1.5)?],
    ];
    Table::from_rows(alloc, ["Bike", "Dock", "Fit"], bikes)
}

#[test]
fn a_table_is_made_of_rows_of_mixed_values(rt: HostRuntime) {
    let table = table_of_bikes(rt.alloc()).expect(&rt, "memory");
    assert_drawn(&rt, &table, BIKES);
}

const BIKES: &str = "\
+------+------+------+
| Bike | Dock | Fit  |
+====================+
| 17   | 3    | true |
|------+------+------|
| 18   | x    | 1.5  |
+------+------+------+";

// The answer of a predicate that is called with a number of rows. It keeps this number, or a
// greater one if it is called again.
fn answer(called: &cell::Cell<Option<usize>>, rows: usize, yes: bool) -> bool {
    called.set(Some(called.get().map_or(rows, |_| usize::MAX)));
    yes
}

// A table of two rows.
fn table_of_two(rt: &(impl Abort + Alloc<A = Global>)) -> Table {
    let mut table = Table::new(rt.alloc());
    table.add_rows(two_rows(rt)).expect(rt, "memory");
    table
}

// Offers a row to a table of two rows. The predicate is called once, with 2.
fn offer_row(rt: &(impl Abort + Alloc<A = Global>), yes: bool, wanted: &str) {
    let called = cell::Cell::new(None);
    let mut table = table_of_two(rt);
    table
        .add_row_if(|rows, _row| answer(&called, rows, yes), ["e", "f"])
        .expect(rt, "memory");
    assert!(rt; called.get() == Some(2));
    assert_drawn(rt, &table, wanted);
}

// Offers the same row in a list.
fn offer_rows(rt: &(impl Abort + Alloc<A = Global>), yes: bool, wanted: &str) {
    let called = cell::Cell::new(None);
    let mut table = table_of_two(rt);
    table
        .add_rows_if(|rows, _rows| answer(&called, rows, yes), [["e", "f"]])
        .expect(rt, "memory");
    assert!(rt; called.get() == Some(2));
    assert_drawn(rt, &table, wanted);
}

const THREE_ROWS: &str = "\
+---+---+
| a | b |
|---+---|
| c | d |
|---+---|
| e | f |
+---+---+";

#[test]
fn a_predicate_is_called_once(rt: HostRuntime) {
    offer_row(&rt, true, THREE_ROWS);
    offer_row(&rt, false, TWO_ROWS);
    offer_rows(&rt, true, THREE_ROWS);
    offer_rows(&rt, false, TWO_ROWS);
}
