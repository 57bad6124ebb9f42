//! Draws a ledger: titles above the columns, right-aligned amounts, wrapped long texts, and the sum
//! at the end. Then it draws books, whose columns share a width, or have constraints.
#![tactic(auto)]

mod books;

use books::print_books;
use comfy_table::presets::UTF8_FULL;
use comfy_table::{CellAlignment, ContentArrangement, Result, Table};
use std::alloc::Global;

// An entry of the ledger: day, payee, purpose and cents.
type Entry = (&'static str, &'static str, &'static str, u64);

const ENTRIES: [Entry; 4] = [
    ("2 May", "Housing Union", "rent", 120_000),
    ("3 May", "Wheel & Chain", "two tyres and a chain", 18_450),
    ("9 May", "Baker", "rolls", 705),
    ("17 May", "Railways", "two tickets to Lübeck", 12_160),
];

fn main(rt: HostRuntime) -> anyhow::Result<()> {
    let mut ledger = Table::new(rt.alloc());
    fill(&mut ledger, rt.alloc(), &ENTRIES)?;
    println!(rt; "{}", ledger.to_text()?)?;
    print_books(&rt, &mut Table::new(rt.alloc()))
}

fn fill(ledger: &mut Table, alloc: Global, entries: &[Entry]) -> Result<()> {
    ledger
        .load_style(UTF8_FULL.with_rounded_corners())
        .set_content_arrangement(ContentArrangement::Dynamic)
        .set_width(52)
        .set_header(["Day", "Paid to", "For", "Euros"])?;
    let mut sum: u64 = 0;
    for (day, payee, purpose, cents) in entries {
        sum = sum.saturating_add(*cents);
        ledger.add_row((*day, *payee, *purpose, euros(alloc, *cents)?))?;
    }
    ledger.add_row(("", "", "Sum", euros(alloc, sum)?))?;
    if let Some(amounts) = ledger.column_mut(3) {
        amounts.set_cell_alignment(CellAlignment::Right);
    }
    Ok(())
}

fn euros(alloc: Global, cents: u64) -> Result<String> {
    Ok(format!(in alloc; "{}.{:02}", cents / 100, cents % 100)?)
}
