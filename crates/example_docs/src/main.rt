//! The examples of the doc comments, which `tools/make/doc_examples.py` wrote.
#![tactic(auto)]

mod parts;
mod tables;

use comfy_table::{Result, Table};
use std::alloc::Global;

fn main(rt: HostRuntime) -> anyhow::Result<()> {
    let alloc = rt.alloc();
    run(&rt, &mut Table::new(alloc), &mut Table::new(alloc))
}

fn run(rt: &HostRuntime, table: &mut Table, new_table: &mut Table) -> anyhow::Result<()> {
    fill(table)?;
    parts::run(rt, table, new_table)?;
    tables::run(rt, table, new_table)
}

// fills a table for examples that use one without making it
fn fill(table: &mut Table) -> Result<()> {
    table
        .set_header(["Bike", "Place", "Since"])?
        .add_row(["17", "dock 3", "Monday"])?;
    Ok(())
}

// puts a new table in place of the last one
fn renew(alloc: Global, table: &mut Table) {
    *table = Table::new(alloc);
}

fn show(rt: &HostRuntime, text: Result<String>) -> anyhow::Result<()> {
    println!(rt; "{}", text?)?;
    Ok(())
}
