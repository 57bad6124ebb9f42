//! Tables that are drawn in parts, each at the widths of the whole table, with header and borders.

use crate::support::{assert_given, table_of};
use comfy_table::for_records::{LinesCell, RowCell, TextCell};
use comfy_table::{ColumnConstraint, ContentArrangement, PartEnds, Row, RowWriter, Table};
use std::alloc::{Alloc, Global};
use std::process::Abort;

// Of 17 terminal columns, three border characters and four spaces leave five for each text.
fn fill(rt: &(impl Abort + Alloc<A = Global>), table: &mut Table) {
    table.try_set_header(["Day", "Count"]).expect(rt, "memory");
    table
        .try_add_row(["1 May", "seven eight"])
        .expect(rt, "memory");
    table.try_add_row(["2 May", "three"]).expect(rt, "memory");
    table
        .try_add_row(["3 May", "eight three seven"])
        .expect(rt, "memory");
    table
        .set_width(17)
        .set_content_arrangement(ContentArrangement::Dynamic);
}

fn days(rt: &(impl Abort + Alloc<A = Global>)) -> Table {
    let mut table = Table::new(rt.alloc());
    fill(rt, &mut table);
    table
}

// The text of these rows, drawn alone.
fn part(
    rt: &impl Alloc<A = Global>,
    table: &Table,
    first: usize,
    count: usize,
) -> comfy_table::Result<String> {
    let mut text = String::new(rt.alloc());
    table.arranged()?.push_rows(&mut text, first, count)?;
    Ok(text)
}

fn assert_part(
    rt: &(impl Abort + Alloc<A = Global>),
    table: &Table,
    first: usize,
    count: usize,
    wanted: &str,
) {
    assert_given(rt, part(rt, table, first, count), wanted);
}

#[test]
fn each_part_has_the_widths_of_the_whole(rt: HostRuntime) {
    let table = days(&rt);
    assert_part(
        &rt,
        &table,
        0,
        1,
        "\
+-------+-------+
| Day   | Count |
+===============+
| 1 May | seven |
|       | eight |
+-------+-------+
",
    );
    assert_part(
        &rt,
        &table,
        1,
        1,
        "\
+-------+-------+
| Day   | Count |
+===============+
| 2 May | three |
+-------+-------+
",
    );
    assert_part(
        &rt,
        &table,
        2,
        1,
        "\
+-------+-------+
| Day   | Count |
+===============+
| 3 May | eight |
|       | three |
|       | seven |
+-------+-------+
",
    );
}

#[test]
fn rows_of_a_part_have_separators_between_them(rt: HostRuntime) {
    assert_part(
        &rt,
        &days(&rt),
        1,
        9,
        "\
+-------+-------+
| Day   | Count |
+===============+
| 2 May | three |
|-------+-------|
| 3 May | eight |
|       | three |
|       | seven |
+-------+-------+
",
    );
}

const HEADER_ALONE: &str = "\
+-------+-------+
| Day   | Count |
+===============+
+-------+-------+
";

#[test]
fn rows_beyond_the_last_are_none(rt: HostRuntime) {
    let table = days(&rt);
    assert_part(&rt, &table, 3, 1, HEADER_ALONE);
    assert_part(&rt, &table, usize::MAX, usize::MAX, HEADER_ALONE);
    assert_part(&rt, &table, 1, 0, HEADER_ALONE);
}

// The parts of a table, one after another, are appended to a text.
fn two_parts(rt: &impl Alloc<A = Global>, table: &Table) -> comfy_table::Result<String> {
    let mut text = String::from_str(rt.alloc(), "Days\n")?;
    let arranged = table.arranged()?;
    arranged.push_rows(&mut text, 3, 1)?;
    arranged.push_rows(&mut text, 4, 1)?;
    Ok(text)
}

#[test]
fn parts_follow_what_a_text_has(rt: HostRuntime) {
    let wanted = "\
Days
+-------+-------+
| Day   | Count |
+===============+
+-------+-------+
+-------+-------+
| Day   | Count |
+===============+
+-------+-------+
";
    assert_given(&rt, two_parts(&rt, &days(&rt)), wanted);
}

#[test]
fn a_hidden_column_is_in_no_part(rt: HostRuntime) {
    let mut table = table_of(&rt, ["a", "bc"]);
    table.try_add_row(["def", "g"]).expect(&rt, "memory");
    hide(&mut table, 1);
    assert_part(&rt, &table, 1, 1, "+----+\n| g  |\n+----+\n");
    hide(&mut table, 2);
    assert_part(&rt, &table, 1, 1, "++\n++\n");
    assert_greatest_height(&rt, &table, 0);
}

// Hides the first columns.
fn hide(table: &mut Table, count: usize) {
    for column in table.column_iter_mut().take(count) {
        column.set_constraint(ColumnConstraint::Hidden);
    }
}

// The height of a row that is listed as cells.
fn height_of(rt: &(impl Abort + Alloc<A = Global>), writer: &RowWriter<'_>, row: &Row) -> usize {
    let mut cells = Vec::new(rt.alloc());
    for cell in row.cell_iter() {
        let copy = cell.clone().expect(rt, "memory");
        let boxed = Box::new(rt.alloc(), copy).expect(rt, "memory");
        cells.push(RowCell::Made(boxed)).expect(rt, "memory");
    }
    writer
        .height_of_cells(cells.as_slice(), row.height_limit())
        .expect(rt, "memory")
}

// Fails unless the highest row is drawn in this many lines.
fn assert_greatest_height(rt: &(impl Abort + Alloc<A = Global>), table: &Table, lines: usize) {
    let arranged = table.arranged().expect(rt, "memory");
    let writer = arranged.row_writer().expect(rt, "memory");
    let mut height = 0;
    for row in table.row_iter() {
        height = height_of(rt, &writer, row).max(height);
    }
    assert_eq!(rt; height, lines);
}

#[test]
fn rows_are_as_high_as_their_highest_cells(rt: HostRuntime) {
    assert_greatest_height(&rt, &days(&rt), 3);
    assert_greatest_height(&rt, &Table::new(rt.alloc()), 0);
}

#[test]
fn a_table_without_rows_has_its_borders_in_each_part(rt: HostRuntime) {
    let table = Table::new(rt.alloc());
    assert_part(&rt, &table, 0, 1, "++\n++\n");
}

// The rows of a table, drawn one after another.
fn drawn_one_by_one(
    rt: &impl Alloc<A = Global>,
    table: &Table,
    rows: &[Row],
) -> comfy_table::Result<String> {
    let mut text = String::new(rt.alloc());
    let arranged = table.arranged()?;
    let mut writer = arranged.row_writer()?;
    for at in 0..rows.len() {
        let extent = PartEnds {
            is_first: at == 0,
            is_last: at + 1 == rows.len(),
        };
        writer.push_rows(&mut text, &rows[at..at + 1], extent)?;
    }
    Ok(text)
}

#[test]
fn rows_one_after_another_make_the_whole(rt: HostRuntime) {
    let table = days(&rt);
    let mut rows = Vec::new(rt.alloc());
    for row in table.row_iter() {
        let row = row.clone().expect(&rt, "memory");
        rows.push(row).expect(&rt, "memory");
    }
    let whole = table.to_terminated_text().expect(&rt, "memory");
    assert_given(
        &rt,
        drawn_one_by_one(&rt, &table, rows.as_slice()),
        whole.as_str(),
    );
}

// Draws a row of cells that borrow their texts, below other rows.
fn lent_row(rt: &impl Alloc<A = Global>, table: &Table) -> comfy_table::Result<String> {
    let mut cells = Vec::new(rt.alloc());
    if let Some(day) = TextCell::of_line("4 May", None, None) {
        cells.push(RowCell::Lent(day))?;
    }
    if let Some(counts) = LinesCell::of_lines("one\nthirteen\ntwo", None, None) {
        cells.push(RowCell::Several(counts))?;
    }
    let extent = PartEnds {
        is_first: false,
        is_last: true,
    };
    let mut text = String::new(rt.alloc());
    let arranged = table.arranged()?;
    let mut writer = arranged.row_writer()?;
    writer.push_cells(&mut text, cells.as_slice(), None, extent)?;
    Ok(text)
}

#[test]
fn texts_that_are_lent_are_drawn_as_cells_are(rt: HostRuntime) {
    let wanted = "\
|-------+-------|
| 4 May | one   |
|       | thirt |
|       | een   |
|       | two   |
+-------+-------+
";
    assert_given(&rt, lent_row(&rt, &days(&rt)), wanted);
}
