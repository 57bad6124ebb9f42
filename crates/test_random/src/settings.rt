//! Random settings of tables and cells.

use crate::texts::one_of;
use comfy_table::style::{CellAlignment, ContentArrangement};
use rand_pcg::Pcg32;

const ARRANGEMENTS: [ContentArrangement; 3] = [
    ContentArrangement::Disabled,
    ContentArrangement::Dynamic,
    ContentArrangement::DynamicFullWidth,
];

const ALIGNMENTS: [CellAlignment; 3] = [
    CellAlignment::Left,
    CellAlignment::Right,
    CellAlignment::Center,
];

/// Returns a random arrangement for a table.
pub fn arrangement(rng: &mut Pcg32) -> ContentArrangement {
    one_of(rng, &ARRANGEMENTS, ContentArrangement::Disabled)
}

/// Returns a random alignment for a cell.
pub fn alignment(rng: &mut Pcg32) -> CellAlignment {
    one_of(rng, &ALIGNMENTS, CellAlignment::Left)
}
