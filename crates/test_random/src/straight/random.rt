//! Random rows, columns and styles for tables of many scripts.

use crate::scripts::{Words, text};
use crate::settings::alignment;
use crate::texts::{once_in, one_of};
use comfy_table::style::presets::{ALL, UTF8_FULL};
use comfy_table::style::{Color, ColumnConstraint, TableStyle, Width};
use comfy_table::utils::formatting::content_split::{measure_text_width, visible_text};
use comfy_table::{Cell, Column, Result, Row};
use rand::RngExt;
use rand_pcg::Pcg32;
use std::alloc::Global;

// the last padding doesn't keep columns apart that have no line between them
const PADDINGS: [(u16, u16); 4] = [(1, 0), (0, 2), (1, 1), (0, 0)];

const CONSTRAINTS: [ColumnConstraint; 4] = [
    ColumnConstraint::Hidden,
    ColumnConstraint::ContentWidth,
    ColumnConstraint::Absolute(Width::Fixed(7)),
    ColumnConstraint::UpperBoundary(Width::Fixed(9)),
];

/// Returns the width of a line in terminal columns, without its SGR sequences.
pub fn visible_width(alloc: Global, line: &str) -> Result<usize> {
    let visible = visible_text(alloc, line)?;
    Ok(measure_text_width(visible.as_str()))
}

/// Returns a random kind of words for a table. If `is_shown_whole` is true, the table is as wide as
/// its texts, and has words of any width. Otherwise words are often narrow, because columns may be.
pub fn words(rng: &mut Pcg32, is_shown_whole: bool) -> Words {
    let have_sequences = once_in(rng, 3);
    Words {
        are_narrow: !is_shown_whole && once_in(rng, 3),
        are_wild: is_shown_whole || once_in(rng, 2),
        have_sequences,
    }
}

/// Returns true if the next row gets a greatest height, at random. If `is_shown_whole` is true, no
/// row gets one.
pub fn is_cut(rng: &mut Pcg32, is_shown_whole: bool) -> bool {
    !is_shown_whole && once_in(rng, 2)
}

/// Returns a random preset, sometimes with round corners or solid inner borders.
pub fn style(rng: &mut Pcg32) -> TableStyle {
    let (_, mut style) = one_of(rng, &ALL, ("UTF8_FULL", UTF8_FULL));
    if once_in(rng, 3) {
        style = style.with_rounded_corners();
    }
    if once_in(rng, 3) {
        style = style.with_solid_inner_borders();
    }
    style
}

/// Makes a random row of one to three cells. If `is_cut` is true, the row gets a greatest height of
/// one to three lines.
pub fn row(alloc: Global, rng: &mut Pcg32, words: Words, is_cut: bool) -> Result<Row> {
    let mut row = Row::new(alloc);
    add_cells(alloc, rng, &mut row, words)?;
    if is_cut {
        row.max_height(rng.random_range(1usize..4));
    }
    Ok(row)
}

fn add_cells(alloc: Global, rng: &mut Pcg32, row: &mut Row, words: Words) -> Result<()> {
    for _ in 0..rng.random_range(1u32..4) {
        row.try_add_cell(cell(alloc, rng, words)?)?;
    }
    Ok(())
}

fn cell(alloc: Global, rng: &mut Pcg32, words: Words) -> Result<Cell> {
    let cell = Cell::new_owned(alloc, text(alloc, rng, words)?)?;
    Ok(with_looks(rng, cell))
}

fn with_looks(rng: &mut Pcg32, cell: Cell) -> Cell {
    let cell = cell.set_alignment(alignment(rng));
    if once_in(rng, 4) {
        cell.fg(Color::Green)
    } else {
        cell
    }
}

/// Gives all columns the same random padding, and some columns a constraint. If `has_lines_between`
/// is false, the padding keeps columns apart. If `is_shown_whole` is true, `Hidden` is the only
/// constraint.
pub fn set_columns(
    rng: &mut Pcg32,
    columns: &mut [Column],
    has_lines_between: bool,
    is_shown_whole: bool,
) {
    let padding = padding(rng, has_lines_between);
    for column in columns.iter_mut() {
        column.set_padding(padding);
        if once_in(rng, 5) {
            column.set_constraint(constraint(rng, is_shown_whole));
        }
    }
}

fn padding(rng: &mut Pcg32, has_lines_between: bool) -> (u16, u16) {
    if has_lines_between {
        one_of(rng, &PADDINGS, (1, 1))
    } else {
        one_of(rng, &PADDINGS[..3], (1, 1))
    }
}

// if the table is as wide as its texts, the only constraint of a column is that it is hidden
fn constraint(rng: &mut Pcg32, is_shown_whole: bool) -> ColumnConstraint {
    let constraints = if is_shown_whole {
        &CONSTRAINTS[..1]
    } else {
        CONSTRAINTS.as_slice()
    };
    one_of(rng, constraints, ColumnConstraint::Hidden)
}
