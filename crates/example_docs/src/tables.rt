//! The examples of `comfy_table`.

use super::{renew, show};
use comfy_table::presets::UTF8_FULL;
use comfy_table::{ColumnConstraint, ContentArrangement, Result, Table, Terminal, row};
use std::alloc::Global;
use std::env;
use std::io::IsTerminal;

/// Calls each example.
pub fn run(rt: &HostRuntime, table: &mut Table, new_table: &mut Table) -> anyhow::Result<()> {
    let alloc = rt.alloc();
    silent_1(alloc, table)?;
    silent_2(alloc, table)?;
    shown_1(rt, table, new_table)
}

fn silent_1(alloc: Global, table: &mut Table) -> Result<()> {
    row_example(alloc, table)?;
    table_set_header_example(table)?;
    table_add_row_example(table)?;
    table_column_mut_example(table);
    arranged_table_push_rows_example(alloc, table)?;
    column_cell_iter_example(table)?;
    lines_example(table)?;
    table_to_text_example(table)?;
    table_from_rows_example(alloc)?;
    table_add_rows_example(table)
}

fn silent_2(alloc: Global, table: &mut Table) -> Result<()> {
    table_try_add_rows_example(alloc, table)?;
    table_load_style_example(table);
    table_set_width_example(table);
    Ok(())
}

fn shown_1(rt: &HostRuntime, table: &mut Table, new_table: &mut Table) -> anyhow::Result<()> {
    let alloc = rt.alloc();
    renew(alloc, new_table);
    show(rt, table_example(new_table))?;
    renew(alloc, new_table);
    arranged_table_example(rt, alloc, new_table)?;
    renew(alloc, new_table);
    table_lines_example(rt, new_table)?;
    renew(alloc, new_table);
    show(rt, table_custom_styling_example(new_table))?;
    terminal_example(rt, table)
}

fn row_example(alloc: Global, table: &mut Table) -> Result<()> {
    table.add_row(row![alloc; "17", 12u32, true])?;
    Ok(())
}

fn table_example(table: &mut Table) -> Result<String> {
    table
        .set_header(["Bike", "Where it stands"])?
        .add_row(["17", "dock 3"])?;
    table.to_text()
}

fn table_set_header_example(table: &mut Table) -> Result<()> {
    table
        .set_header(["Day", "Euros"])?
        .add_row(("3 May", 84u32))?;
    Ok(())
}

fn table_add_row_example(table: &mut Table) -> Result<()> {
    table.add_row(["17", "dock 3"])?.add_row((18u32, "rented"))?;
    Ok(())
}

fn table_column_mut_example(table: &mut Table) {
    if let Some(column) = table.column_mut(1) {
        column.set_constraint(ColumnConstraint::Hidden);
    }
}

fn arranged_table_example(
    rt: &HostRuntime,
    alloc: Global,
    table: &mut Table,
) -> anyhow::Result<()> {
    table.add_row(["17", "dock 3"])?.add_row(["8", "rented"])?;
    let arranged = table.arranged()?;
    let mut text = String::new(alloc);
    arranged.push_rows(&mut text, 0, 1)?;
    arranged.push_rows(&mut text, 1, 1)?;
    print!(rt; "{text}")?;
    Ok(())
}

fn arranged_table_push_rows_example(alloc: Global, table: &mut Table) -> Result<()> {
    let mut page = String::new(alloc);
    table.arranged()?.push_rows(&mut page, 40, 20)?;
    Ok(())
}

fn column_cell_iter_example(table: &mut Table) -> Result<()> {
    if let Some(Some(cell)) = table.column_cells_iter(1).next() {
        let first = cell.content()?;
    }
    Ok(())
}

fn lines_example(table: &mut Table) -> Result<()> {
    let top = table.lines()?.next();
    Ok(())
}

fn table_lines_example(rt: &HostRuntime, table: &mut Table) -> anyhow::Result<()> {
    table.add_row(["17", "dock 3"])?;
    for line in table.lines()? {
        println!(rt; "{line}")?;
    }
    Ok(())
}

fn table_to_text_example(table: &mut Table) -> Result<()> {
    let drawing = table.to_text()?;
    Ok(())
}

fn table_from_rows_example(alloc: Global) -> Result<()> {
    let bikes = [["17", "dock 3"], ["18", "rented"]];
    let table = Table::from_rows(alloc, ["Bike", "Where it stands"], bikes)?;
    Ok(())
}

fn table_add_rows_example(table: &mut Table) -> Result<()> {
    table.add_rows([["17", "dock 3"], ["18", "rented"]])?;
    Ok(())
}

fn table_try_add_rows_example(alloc: Global, table: &mut Table) -> Result<()> {
    let mut rows = vec![in alloc; ["17", "dock 3"], ["18", "rented"]]?.into_iter();
    let added = table.try_add_rows(&mut rows);
    Ok(())
}

fn table_load_style_example(table: &mut Table) {
    table.load_style(UTF8_FULL.with_solid_inner_borders());
}

fn table_set_width_example(table: &mut Table) {
    table
        .set_content_arrangement(ContentArrangement::DynamicFullWidth)
        .set_width(80);
}

fn table_custom_styling_example(table: &mut Table) -> Result<String> {
    table
        .custom_styling()
        .set_content_arrangement(ContentArrangement::Dynamic)
        .set_width(7)
        .add_row(["\u{1b}[1mabcdef\u{1b}[0m"])?;
    table.to_text()
}

fn terminal_example(rt: &HostRuntime, table: &mut Table) -> anyhow::Result<()> {
    table.set_terminal(Terminal {
        stdout_is_tty: rt.stdout().is_terminal(),
        stderr_is_tty: rt.stderr().is_terminal(),
        width: env::var(rt, "COLUMNS")
            .ok()
            .and_then(|columns| columns.parse().ok()),
    });
    Ok(())
}
