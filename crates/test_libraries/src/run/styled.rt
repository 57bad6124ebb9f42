//! Drawings of records whose columns, rows and cells have settings of their own.

use super::large::options;
use comfy_parts::style::{Attribute, CellAlignment, Color};
use csv_command::Options;
use csv_records::{Delimiter, read_records};
use csv_tables::{
    CellSettings, ColumnSettings, Columns, Layout, RowSettings, Settings, output_of_styled_records,
};
use std::alloc::{Alloc, Global};
use std::process::Abort;

const TEXT: &str = "name,days\noats and barley,3\nrye,14.25\n";

// A column with these paddings, least width and greatest width.
fn column(padding: (u16, u16), least: Option<u16>, greatest: Option<u16>) -> ColumnSettings {
    ColumnSettings {
        padding,
        least,
        greatest,
        is_centered: false,
    }
}

fn assert_drawn<const N: usize>(
    rt: &(impl Abort + Alloc<A = Global>),
    is_numbered: bool,
    width: Option<u16>,
    columns: [ColumnSettings; N],
    wanted: &str,
) {
    let settings = Settings {
        columns: Vec::from_array(rt.alloc(), columns).expect(rt, "memory"),
        rows: Vec::new(rt.alloc()),
    };
    assert_drawn_with(rt, is_numbered, width, settings, wanted);
}

fn assert_drawn_with(
    rt: &(impl Abort + Alloc<A = Global>),
    is_numbered: bool,
    width: Option<u16>,
    settings: Settings,
    wanted: &str,
) {
    let mut options = options(rt.alloc(), width, false);
    options.input.delimiter = Delimiter::Byte(b',');
    options.look.aligns_decimals = true;
    options.selection.is_numbered = is_numbered;
    let records = read_records(rt.alloc(), TEXT, &options.input).expect(rt, "records");
    let drawn = Vec::from_array(rt.alloc(), [0, 1]).expect(rt, "memory");
    let layout = Layout {
        selection: options.selection,
        columns: Columns::new(drawn, Vec::new(rt.alloc()), Vec::new(rt.alloc())),
        look: options.look,
    };
    let drawing = output_of_styled_records(rt.alloc(), records, &layout, settings).expect(
        rt, "memory",
    );
    assert!(rt; drawing.as_str() == wanted);
}

#[test]
fn columns_have_paddings(rt: HostRuntime) {
    assert_drawn(
        &rt,
        false,
        None,
        [column((0, 2), None, None)],
        "+-----------------+-------+
|name             |  days |
+=========================+
|oats and barley  |  3    |
|-----------------+-------|
|rye              | 14.25 |
+-----------------+-------+
",
    );
}

// A column is as wide as its longest line.
#[test]
fn columns_have_greatest_widths(rt: HostRuntime) {
    assert_drawn(
        &rt,
        false,
        None,
        [column((1, 1), None, Some(9))],
        "+----------+-------+
| name     |  days |
+==================+
| oats and |  3    |
| barley   |       |
|----------+-------|
| rye      | 14.25 |
+----------+-------+
",
    );
}

#[test]
fn columns_have_least_widths(rt: HostRuntime) {
    assert_drawn(
        &rt,
        false,
        None,
        [
            column((1, 1), None, Some(13)),
            column((1, 1), Some(8), None),
        ],
        "+----------+----------+
| name     |     days |
+=====================+
| oats and |     3    |
| barley   |          |
|----------+----------|
| rye      |    14.25 |
+----------+----------+
",
    );
}

// The greatest width is the same as the least one.
#[test]
fn a_width_is_kept(rt: HostRuntime) {
    assert_drawn(
        &rt,
        false,
        Some(40),
        [
            column((1, 1), None, Some(9)),
            column((2, 1), Some(8), Some(3)),
        ],
        "+----------+-----------+
| name     |      days |
+======================+
| oats and |      3    |
| barley   |           |
|----------+-----------|
| rye      |     14.25 |
+----------+-----------+
",
    );
}

// The numbers with their spaces are wider than four terminal columns.
#[test]
fn points_are_not_in_wrapped_texts(rt: HostRuntime) {
    assert_drawn(
        &rt,
        false,
        Some(40),
        [column((1, 1), None, None), column((1, 1), None, Some(4))],
        "+-----------------+------+
| name            | days |
+========================+
| oats and barley |    3 |
|-----------------+------|
| rye             | 14.2 |
|                 |    5 |
+-----------------+------+
",
    );
}

#[test]
fn columns_are_in_the_middle(rt: HostRuntime) {
    let mut centered = ColumnSettings::none();
    centered.is_centered = true;
    assert_drawn(
        &rt,
        false,
        None,
        [centered, centered],
        "+-----------------+-------+
|       name      |  days |
+=========================+
| oats and barley |   3   |
|-----------------+-------|
|       rye       | 14.25 |
+-----------------+-------+
",
    );
}

// The column of numbers has no settings.
#[test]
fn rows_have_numbers(rt: HostRuntime) {
    assert_drawn(
        &rt,
        true,
        None,
        [column((0, 0), None, Some(8))],
        "+---+--------+-------+
| # |name    |  days |
+====================+
| 1 |oats and|  3    |
|   |barley  |       |
|---+--------+-------|
| 2 |rye     | 14.25 |
+---+--------+-------+
",
    );
}

// A cell with this colour and this attribute.
fn cell(
    rt: &(impl Abort + Alloc<A = Global>),
    alignment: Option<CellAlignment>,
    foreground: Option<Color>,
    attribute: Option<Attribute>,
) -> CellSettings {
    let mut attributes = Vec::new(rt.alloc());
    if let Some(attribute) = attribute {
        attributes.push(attribute).expect(rt, "memory");
    }
    CellSettings {
        alignment,
        foreground,
        background: None,
        attributes,
    }
}

// Rows with these settings of the first two cells and this height.
fn add_row(
    rt: &(impl Abort + Alloc<A = Global>),
    rows: &mut Vec<RowSettings>,
    max_height: Option<usize>,
    first: CellSettings,
    second: CellSettings,
) {
    let mut cells = Vec::new(rt.alloc());
    cells.push(first).expect(rt, "memory");
    cells.push(second).expect(rt, "memory");
    rows.push(RowSettings { max_height, cells })
        .expect(rt, "memory");
}

// Red is colour 9 of 256, and 4 is the sequence for an underline. The first settings are those of
// the header, and the number of a row has none.
#[test]
fn cells_have_colours(rt: HostRuntime) {
    let mut rows = Vec::new(rt.alloc());
    let underlined = Some(Attribute::Underlined);
    add_row(
        &rt,
        &mut rows,
        None,
        cell(&rt, None, None, None),
        cell(&rt, None, None, underlined),
    );
    add_row(
        &rt,
        &mut rows,
        None,
        cell(&rt, None, Some(Color::Red), None),
        cell(&rt, None, None, None),
    );
    let settings = Settings {
        columns: Vec::new(rt.alloc()),
        rows,
    };
    assert_drawn_with(
        &rt,
        true,
        None,
        settings,
        "+---+-----------------+-------+
| # | name            |\u{1b}[4m  days \u{1b}[0m|
+=============================+
| 1 |\u{1b}[38;5;9m oats and barley \u{1b}[39m|  3    |
|---+-----------------+-------|
| 2 | rye             | 14.25 |
+---+-----------------+-------+
",
    );
}

// A row with a greatest height is cut, and the other one isn't. A cell has its own alignment.
#[test]
fn rows_have_greatest_heights(rt: HostRuntime) {
    let mut rows = Vec::new(rt.alloc());
    let right = Some(CellAlignment::Right);
    add_row(
        &rt,
        &mut rows,
        Some(5),
        cell(&rt, None, None, None),
        cell(&rt, None, None, None),
    );
    add_row(
        &rt,
        &mut rows,
        Some(0),
        cell(&rt, None, None, None),
        cell(&rt, None, None, None),
    );
    add_row(
        &rt,
        &mut rows,
        None,
        cell(&rt, right, None, None),
        cell(&rt, None, None, None),
    );
    let mut columns = Vec::new(rt.alloc());
    columns
        .push(column((1, 1), None, Some(9)))
        .expect(&rt, "memory");
    let settings = Settings { columns, rows };
    assert_drawn_with(
        &rt,
        false,
        None,
        settings,
        "+----------+-------+
| name     |  days |
+==================+
| oats an… |  3    |
|----------+-------|
|      rye | 14.25 |
+----------+-------+
",
    );
}
