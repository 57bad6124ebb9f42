//! The functions of `promises`, each called on a table of two rows. No clause states that they
//! succeed.

use crate::support::{assert_given, assert_lines, row_of};
use comfy_table::{ArrangedTable, ContentArrangement, Lines, Table};
use promises::harmless::harmless_text;
use promises::headline::headline;
use promises::kept::{lines_with_all_texts, lines_with_whole_texts};
use promises::others::{lines_before_and_after, lines_of_both};
use promises::straight::{
    straight_fitting_lines, straight_lines, straight_styled_lines, straight_whole_lines,
};
use promises::width::{fitting_lines_within, lines_over, lines_within};
use std::alloc::{Alloc, Global};
use std::process::Abort;

const WHOLE: &str = "\
+-------+-------------+
| Day   | Count       |
+=====================+
| 1 May | seven eight |
+-------+-------------+";

const WITH_ONE_MORE: &str = "\
+-------+-------------+
| Day   | Count       |
+=====================+
| 1 May | seven eight |
|-------+-------------|
| 2 May | three       |
+-------+-------------+";

// Of 17 terminal columns, three border characters and four spaces leave five for each text.
const IN_17: &str = "\
+-------+-------+
| Day   | Count |
+===============+
| 1 May | seven |
|       | eight |
+-------+-------+";

fn days(rt: &(impl Abort + Alloc<A = Global>)) -> Table {
    let mut table = Table::new(rt.alloc());
    table.try_set_header(["Day", "Count"]).expect(rt, "memory");
    table
        .try_add_row(["1 May", "seven eight"])
        .expect(rt, "memory");
    table
}

// Compares the lines that a call returns with those of a text.
fn assert_drawn(rt: &impl Abort, lines: comfy_table::Result<Lines>, wanted: &str) {
    assert_lines(rt, lines.expect(rt, "memory"), wanted);
}

// Fails unless the table is arranged in 17 terminal columns.
fn assert_arranged(rt: &impl Abort, arranged: comfy_table::Result<(ArrangedTable<&Table>, Lines)>) {
    let (arranged, lines) = arranged.expect(rt, "memory");
    for info in arranged.infos() {
        assert!(rt; info.content_width == 5);
    }
    assert_lines(rt, lines, IN_17);
}

#[test]
fn promised_lines_are_those_of_the_table(rt: HostRuntime) {
    let table = days(&rt);
    assert_drawn(&rt, headline(&table), WHOLE);
    assert_drawn(&rt, straight_lines(&table), WHOLE);
    assert_drawn(&rt, straight_whole_lines(&table), WHOLE);
    assert_drawn(&rt, straight_styled_lines(&table), WHOLE);
    assert_drawn(&rt, lines_with_all_texts(&table), WHOLE);
    assert_drawn(&rt, lines_with_whole_texts(&table), WHOLE);
    assert_given(&rt, harmless_text(&table), WHOLE);
}

#[test]
fn promised_lines_keep_to_a_width(rt: HostRuntime) {
    assert_drawn(&rt, lines_within(&mut days(&rt), 17), IN_17);
    assert_drawn(&rt, lines_over(&mut days(&rt), 17), IN_17);
    let mut table = days(&rt);
    table
        .set_width(17)
        .set_content_arrangement(ContentArrangement::Dynamic);
    assert_arranged(&rt, straight_fitting_lines(&table));
    assert_arranged(&rt, fitting_lines_within(&table));
}

#[test]
fn promised_lines_of_two_tables(rt: HostRuntime) {
    let empty = Table::new(rt.alloc());
    let mut table = days(&rt);
    let (lines, others) = lines_of_both(&table, &empty).expect(&rt, "memory");
    assert_lines(&rt, lines, WHOLE);
    assert_lines(&rt, others, "++\n++");
    let row = row_of(&rt, ["2 May", "three"]);
    let (lines, others) = lines_before_and_after(&mut table, row).expect(&rt, "memory");
    assert_lines(&rt, lines, WHOLE);
    assert_lines(&rt, others, WITH_ONE_MORE);
}
