//! Random tables of many scripts, whose edges must be straight in terminal columns whenever that is
//! promised.

mod promise;
mod random;

use crate::check::keeps_to_width;
use crate::settings::arrangement;
use crate::texts::{once_in, one_of};
use comfy_table::{Result, Table};
use promise::characters_fit_columns;
use rand::RngExt;
use rand_pcg::Pcg32;
use random::{is_cut, row, set_columns, style, visible_width, words};
use std::alloc::Global;

const WIDTHS: [u16; 6] = [10, 18, 25, 37, 60, 200];

/// The result of a check of the edges of a table.
#[derive(Clone, Copy)]
pub struct Edges {
    /// The fault of the edges, or `None` if they are straight or nothing is promised for them.
    pub fault: Option<&'static str>,
    /// True if the edges aren't straight, in a table for which nothing is promised. This is no
    /// fault.
    pub are_crooked: bool,
}

/// Makes the next random table, and returns the result for its edges. Straight edges are promised
/// if the table is as wide as its texts, or if each character fits its column.
pub fn next_edges(alloc: Global, rng: &mut Pcg32) -> Result<Edges> {
    let mut table = Table::new(alloc);
    edges_in(alloc, rng, &mut table)
}

fn edges_in(alloc: Global, rng: &mut Pcg32, table: &mut Table) -> Result<Edges> {
    let is_shown_whole = once_in(rng, 2);
    fill(alloc, rng, table, is_shown_whole)?;
    let fault = fault_of_lines(alloc, table)?;
    let is_promised = is_shown_whole || characters_fit_columns(alloc, table)?;
    Ok(Edges {
        fault: fault.filter(|_| is_promised),
        are_crooked: !is_promised && fault.is_some(),
    })
}

fn fault_of_lines(alloc: Global, table: &Table) -> Result<Option<&'static str>> {
    let mut first = None;
    let mut are_alike = true;
    for line in table.lines()? {
        let width = visible_width(alloc, line.as_str())?;
        are_alike &= *first.get_or_insert(width) == width;
    }
    Ok(fault_of_widths(table, first, are_alike))
}

fn fault_of_widths(table: &Table, first: Option<usize>, are_alike: bool) -> Option<&'static str> {
    match first {
        _ if !are_alike => Some("lines are unlike in width"),
        Some(width) if !keeps_to_width(table, width) => {
            Some("the width doesn't hold in terminal columns")
        }
        _ => None,
    }
}

fn fill(alloc: Global, rng: &mut Pcg32, table: &mut Table, is_shown_whole: bool) -> Result<()> {
    let words = words(rng, is_shown_whole);
    table.load_style(style(rng));
    table.try_set_header(row(alloc, rng, words, false)?)?;
    for _ in 0..rng.random_range(0u32..4) {
        let is_cut = is_cut(rng, is_shown_whole);
        table.try_add_row(row(alloc, rng, words, is_cut)?)?;
    }
    let has_lines_between = table.style().draws_vertical_lines();
    set_columns(
        rng,
        table.column_iter_mut().into_slice(),
        has_lines_between,
        is_shown_whole,
    );
    set_settings(rng, table, is_shown_whole, words.have_sequences);
    Ok(())
}

fn set_settings(rng: &mut Pcg32, table: &mut Table, is_shown_whole: bool, has_sequences: bool) {
    table.set_content_arrangement(arrangement(rng));
    if !is_shown_whole {
        table.set_width(width(rng));
    }
    if once_in(rng, 2) {
        table.enforce_styling();
    }
    if has_sequences {
        table.custom_styling();
    }
}

// a width of a table, often a narrow one
fn width(rng: &mut Pcg32) -> u16 {
    if once_in(rng, 2) {
        rng.random_range(1u16..21)
    } else {
        one_of(rng, &WIDTHS, 200)
    }
}
