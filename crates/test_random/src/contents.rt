//! Random cells and rows of difficult texts, and random settings of columns.

use crate::scan::Scan;
use crate::settings::alignment;
use crate::texts::{Kind, delimiter, once_in, one_of, text};
use comfy_table::style::{ColumnConstraint, Width};
use comfy_table::{Cell, Column, Result, Row};
use rand::RngExt;
use rand_pcg::Pcg32;
use std::alloc::Global;

const PADDINGS: [(u16, u16); 4] = [(1, 1), (0, 0), (2, 0), (0, 3)];

const CONSTRAINTS: [ColumnConstraint; 6] = [
    ColumnConstraint::Hidden,
    ColumnConstraint::ContentWidth,
    ColumnConstraint::Absolute(Width::Fixed(5)),
    ColumnConstraint::LowerBoundary(Width::Percentage(40)),
    ColumnConstraint::UpperBoundary(Width::Fixed(4)),
    ColumnConstraint::Boundaries {
        lower: Width::Fixed(3),
        upper: Width::Fixed(9),
    },
];

/// Makes random rows with texts of one kind, and has facts about the rows that were made.
#[derive(Clone, Copy)]
pub struct Contents {
    /// The kind of the texts, such as printable ASCII.
    pub kind: Kind,
    // true if texts are made without SGR sequences
    is_visible: bool,
    /// True if at least one row has a greatest height.
    pub is_limited: bool,
    /// True if a text has a new SGR sequence after its sequences were taken out, formed by the
    /// parts around them.
    pub has_formed: bool,
}

impl Contents {
    /// Returns `Contents` of a random kind, with which no row was made yet. If `is_visible` is
    /// true, texts are made without their SGR sequences.
    pub fn new(rng: &mut Pcg32, is_visible: bool) -> Contents {
        Contents {
            kind: Kind::new(rng),
            is_visible,
            is_limited: false,
            has_formed: false,
        }
    }

    /// Makes a random row of up to four cells.
    pub fn row(&mut self, alloc: Global, rng: &mut Pcg32) -> Result<Row> {
        let mut row = Row::new(alloc);
        self.fill_row(alloc, rng, &mut row)?;
        Ok(row)
    }

    fn fill_row(&mut self, alloc: Global, rng: &mut Pcg32, row: &mut Row) -> Result<()> {
        for _ in 0..rng.random_range(0u32..5) {
            row.try_add_cell(self.cell(alloc, rng)?)?;
        }
        if once_in(rng, if self.kind.has_sequences { 2 } else { 6 }) {
            row.max_height(rng.random_range(0usize..4));
            self.is_limited = true;
        }
        Ok(())
    }

    /// Makes a random cell, with a text of the kind `kind`.
    pub fn cell(&mut self, alloc: Global, rng: &mut Pcg32) -> Result<Cell> {
        let text = self.text(alloc, rng)?;
        let cell = Cell::new_owned(alloc, text)?;
        Ok(with_settings(rng, cell, self.kind))
    }

    fn text(&mut self, alloc: Global, rng: &mut Pcg32) -> Result<String> {
        let text = text(alloc, rng, self.kind)?;
        if self.is_visible {
            self.visible_text_of(alloc, text.as_str())
        } else {
            Ok(text)
        }
    }

    fn visible_text_of(&mut self, alloc: Global, text: &str) -> Result<String> {
        let scan = Scan::of(alloc, text)?;
        self.has_formed |= count_visible(alloc, scan.visible.as_str())? != scan.count;
        Ok(scan.visible)
    }
}

// the number of characters of a text outside its SGR sequences
fn count_visible(alloc: Global, text: &str) -> Result<usize> {
    let scan = Scan::of(alloc, text)?;
    Ok(scan.count)
}

fn with_settings(rng: &mut Pcg32, cell: Cell, kind: Kind) -> Cell {
    let mut cell = cell;
    if once_in(rng, 6) {
        cell = cell.set_delimiter(delimiter(rng, kind));
    }
    cell.set_alignment(alignment(rng))
}

/// Gives columns random settings. In three of four tables, `Hidden` is the only constraint. In one
/// of eight tables the first two columns are exchanged, and the field `index` of all columns is 7.
pub fn change_columns(rng: &mut Pcg32, columns: &mut [Column], kind: Kind) {
    let is_free = !once_in(rng, 4);
    for column in columns.iter_mut() {
        set_column(rng, column, kind, is_free);
    }
    if once_in(rng, 8) {
        exchange_columns(columns);
    }
}

fn exchange_columns(columns: &mut [Column]) {
    if columns.len() >= 2 {
        columns.swap(0, 1);
    }
    for column in columns.iter_mut() {
        column.index = 7;
    }
}

fn set_column(rng: &mut Pcg32, column: &mut Column, kind: Kind, is_free: bool) {
    column.set_padding(one_of(rng, &PADDINGS, (1, 1)));
    if once_in(rng, 5) {
        column.set_delimiter(delimiter(rng, kind));
    }
    if once_in(rng, 5) {
        column.set_constraint(constraint(rng, is_free));
    }
}

fn constraint(rng: &mut Pcg32, is_free: bool) -> ColumnConstraint {
    if is_free {
        ColumnConstraint::Hidden
    } else {
        one_of(rng, &CONSTRAINTS, ColumnConstraint::Hidden)
    }
}
