//! Widths under `Dynamic` and `DynamicFullWidth`, if the table's width is known.
//!
//! Each step decides some of the columns that are still undecided, and subtracts their widths from
//! the room that is left. The average is this room divided by the number of undecided columns. The
//! first step takes the columns with a fixed width. The next steps decide columns with lower
//! boundaries above the average, then columns with upper boundaries or contents that fit, then
//! columns whose lines need less than the average. The remaining columns share the remaining room.

ghost use Rattle.std.specs.Prelude.{◌≡◌, IfOk};
ghost use Rattle.comfy_table.specs.Arrangement.{is_full_width, room_beside_borders};
ghost use Rattle.comfy_table.specs.Dynamic.{IsDynamicLayout};
ghost use Rattle.comfy_table.specs.Widths.{shown_needs};

mod budget;
mod level;
mod needs;
mod round_robin;
mod spread;

use crate::table::Table;
use crate::utils::arrangement::source::TableSource;
use budget::Budget;
use comfy_parts::Result;
use comfy_parts::style::ContentArrangement;
use level::settle;
use needs::shown_needs;
use round_robin::{Candidates, Rule};
use spread::final_widths;

// The content widths of the shown columns of a table of this width, in the order of the table's
// columns.
pub fn dynamic_widths<C: TableSource>(contents: &C, width: u16) -> Result<Vec<u16>>
    ensures { IfOk result (λ widths.
        IsDynamicLayout (room_beside_borders (C.whole contents.now) width)
        (shown_needs (C.whole contents.now))
        (is_full_width (C.whole contents.now).arrangement) widths.items) }
{
    let table = contents.table();
    let visible = shown_needs(contents)?;
    let columns = visible.as_slice();
    let mut budget = Budget::new(contents, columns, width)?;
    let lower = Candidates {
        contents,
        columns,
        rule: Rule::Lower,
    };
    lower.go_round(&mut budget)?;
    settle(columns, &mut budget);
    let shrunk = Candidates {
        contents,
        columns,
        rule: Rule::Shrunk,
    };
    shrunk.go_round(&mut budget)?;
    final_widths(&budget, fills_width(table), *table.columns.allocator())
}

// Returns true if room that no column needs is spread over all columns.
fn fills_width(table: &Table) -> bool
    ensures { result ≡ is_full_width table.now.arrangement }
{
    matches!(table.arrangement, ContentArrangement::DynamicFullWidth)
}
