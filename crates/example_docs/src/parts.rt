//! The examples of `comfy_parts`.

use super::{renew, show};
use comfy_table::presets::{ASCII_FULL, UTF8_FULL, by_name, by_position};
use comfy_table::utils::formatting::content_split::{
    ColumnDisplayInfo, characters_fit, split_line,
};
use comfy_table::{
    Attribute, Cell, CellAlignment, Color, Column, ColumnConstraint, ContentArrangement,
    ContentLineStyle, IntoCell, IntoCells, IntoRow, LineStyle, Result, Row, Table, TableError,
    TableStyle, Width,
};
use std::alloc::Global;

/// Calls each example.
pub fn run(rt: &HostRuntime, table: &mut Table, new_table: &mut Table) -> anyhow::Result<()> {
    let alloc = rt.alloc();
    silent_1(alloc, table)?;
    silent_2(alloc, table)?;
    shown_1(rt, table, new_table)
}

fn silent_1(alloc: Global, table: &mut Table) -> Result<()> {
    cell_example(alloc)?;
    cell_new_example(alloc)?;
    cell_fg_example(alloc)?;
    cell_add_attribute_example(alloc)?;
    column_example(table);
    column_set_constraint_example(&mut Column::new(0));
    column_set_cell_alignment_example(&mut Column::new(0));
    column_display_info_example(alloc)?;
    into_cell_example(alloc)?;
    into_cells_example(alloc)
}

fn silent_2(alloc: Global, table: &mut Table) -> Result<()> {
    into_row_example(alloc)?;
    items_example(table);
    row_example(alloc)?;
    color_example(alloc)?;
    width_example();
    presets_example(table);
    by_name_example(table);
    line_style_example();
    content_line_style_example();
    Ok(())
}

fn shown_1(rt: &HostRuntime, table: &mut Table, new_table: &mut Table) -> anyhow::Result<()> {
    let alloc = rt.alloc();
    println!(rt; "{}", characters_fit_example())?;
    table_error_example(rt, table)?;
    renew(alloc, new_table);
    show(rt, row_max_height_example(alloc, new_table))?;
    renew(alloc, new_table);
    show(rt, attribute_example(alloc, new_table))?;
    renew(alloc, new_table);
    show(rt, cell_alignment_example(alloc, new_table))?;
    renew(alloc, new_table);
    show(rt, column_constraint_example(new_table))?;
    println!(rt; "{}", by_position_example())?;
    renew(alloc, new_table);
    show(rt, content_arrangement_example(new_table))?;
    renew(alloc, new_table);
    show(rt, table_style_example(new_table))
}

fn cell_example(alloc: Global) -> Result<()> {
    let cell = Cell::new(alloc, "rent")?
        .fg(Color::Red)
        .set_alignment(CellAlignment::Right);
    Ok(())
}

fn cell_new_example(alloc: Global) -> Result<()> {
    let cells = [Cell::new(alloc, "rent")?, Cell::new(alloc, 1200)?];
    Ok(())
}

fn cell_fg_example(alloc: Global) -> Result<()> {
    let amount = -12;
    let color = if amount < 0 { Color::Red } else { Color::Green };
    let cell = Cell::new(alloc, amount)?.fg(color);
    Ok(())
}

fn cell_add_attribute_example(alloc: Global) -> Result<()> {
    let cell = Cell::new(alloc, "Sum")?.add_attribute(Attribute::Bold)?;
    Ok(())
}

fn column_example(table: &mut Table) {
    if let Some(column) = table.column_mut(0) {
        column
            .set_padding((0, 2))
            .set_constraint(ColumnConstraint::UpperBoundary(Width::Fixed(30)))
            .set_cell_alignment(CellAlignment::Right);
    }
}

fn column_set_constraint_example(column: &mut Column) {
    column.set_constraint(ColumnConstraint::Absolute(Width::Percentage(33)));
}

fn column_set_cell_alignment_example(column: &mut Column) {
    column.set_cell_alignment(CellAlignment::Right);
}

fn column_display_info_example(alloc: Global) -> Result<()> {
    let info = ColumnDisplayInfo::new(&Column::new(0), 12);
    let lines = split_line(alloc, "Now add some text", &info, ' ')?;
    Ok(())
}

fn characters_fit_example() -> bool {
    characters_fit("كتاب 👨‍👩‍👧", 2) && !characters_fit("年度", 1)
}

fn into_cell_example(alloc: Global) -> Result<()> {
    let cell = "dock 3".into_cell(alloc)?.fg(Color::Green);
    Ok(())
}

fn into_cells_example(alloc: Global) -> Result<()> {
    let open = Cell::new(alloc, "open")?.fg(Color::Green);
    let cells = [open, Cell::new(alloc, "dock 3")?].into_cells(alloc)?;
    Ok(())
}

fn into_row_example(alloc: Global) -> Result<()> {
    let row = ("width", 80u16, true).into_row(alloc)?;
    Ok(())
}

fn items_example(table: &mut Table) {
    let constraints = [ColumnConstraint::ContentWidth, ColumnConstraint::Hidden];
    table.set_constraints(constraints);
}

fn table_error_example(rt: &HostRuntime, table: &mut Table) -> anyhow::Result<()> {
    if let Err(TableError::OutOfMemory) = table.try_add_row(["17", "dock 3"]) {
        println!(rt; "the first {} rows fit", table.row_count())?;
    }
    Ok(())
}

fn row_example(alloc: Global) -> Result<()> {
    let mut row = Row::new(alloc);
    row.add_cell(Cell::new(alloc, "dock 3")?)?
        .add_cell(Cell::new(alloc, 17)?)?
        .max_height(2);
    Ok(())
}

fn row_max_height_example(alloc: Global, table: &mut Table) -> Result<String> {
    let mut row = ["17", "rented\nreturned\nrented"].into_row(alloc)?;
    row.max_height(2);
    table.add_row(row)?;
    table.to_text()
}

fn attribute_example(alloc: Global, table: &mut Table) -> Result<String> {
    table
        .enforce_styling()
        .add_row([Cell::new(alloc, "Sum")?.add_attribute(Attribute::Bold)?])?;
    table.to_text()
}

fn cell_alignment_example(alloc: Global, table: &mut Table) -> Result<String> {
    table
        .set_header(["Position"])?
        .add_row([Cell::new(alloc, "right")?.set_alignment(CellAlignment::Right)])?
        .add_row([Cell::new(alloc, "mid")?.set_alignment(CellAlignment::Center)])?;
    table.to_text()
}

fn color_example(alloc: Global) -> Result<()> {
    let late = Cell::new(alloc, "late")?.fg(Color::Black).bg(Color::Yellow);
    let orange = Cell::new(alloc, "door")?.fg(Color::AnsiValue(208));
    Ok(())
}

fn width_example() {
    let third = ColumnConstraint::UpperBoundary(Width::Percentage(33));
}

fn column_constraint_example(table: &mut Table) -> Result<String> {
    table
        .add_row(["three", "columns", "here"])?
        .set_constraints([
            ColumnConstraint::LowerBoundary(Width::Fixed(9)),
            ColumnConstraint::Hidden,
            ColumnConstraint::Absolute(Width::Fixed(4)),
        ]);
    table.to_text()
}

fn presets_example(table: &mut Table) {
    table.load_style(UTF8_FULL.with_rounded_corners());
}

fn by_name_example(table: &mut Table) {
    table.load_style(by_name("UTF8_FULL").unwrap_or(ASCII_FULL));
}

fn by_position_example() -> bool {
    by_position(7) == Some(UTF8_FULL)
}

fn content_arrangement_example(table: &mut Table) -> Result<String> {
    table
        .set_content_arrangement(ContentArrangement::Dynamic)
        .set_width(20)
        .add_row(["17", "at dock 3 since Monday"])?;
    table.to_text()
}

fn line_style_example() {
    let separator = LineStyle::new('├', '╌', '┼', '┤');
    let underline = LineStyle::none().fill('=');
}

fn content_line_style_example() {
    let solid = ContentLineStyle::new('│', '│', '│');
    let open = ContentLineStyle::none().junction('│');
}

fn table_style_example(table: &mut Table) -> Result<String> {
    let style = TableStyle::new()
        .header_separator(LineStyle::none().fill('='))
        .content_lines(ContentLineStyle::none().junction('|'));
    table
        .load_style(style)
        .set_header(["a", "b"])?
        .add_row(["c", "d"])?;
    table.trim_fmt()
}
