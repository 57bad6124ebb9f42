//! Draws one row below a header.
#![tactic(auto)]

use comfy_table::presets::UTF8_FULL;
use comfy_table::{ContentArrangement, Table};

fn main(rt: HostRuntime) -> anyhow::Result<()> {
    let mut table = Table::new(rt.alloc());
    table
        .load_style(UTF8_FULL.with_rounded_corners())
        .set_content_arrangement(ContentArrangement::Dynamic)
        .set_width(40)
        .set_header(["Day", "Paid to", "Euros"])?
        .add_row(("3 May", "Wheel & Chain, tyres and a chain", 184u32))?;
    println!(rt; "{}", table.to_text()?)?;
    Ok(())
}
