//! Random tables, built through public functions.

use crate::contents::{Contents, change_columns};
use crate::settings::arrangement;
use crate::texts::{delimiter, indicator, once_in, one_of};
use comfy_table::presets::UTF8_FULL;
use comfy_table::{Result, Table};
use rand::RngExt;
use rand_pcg::Pcg32;
use std::alloc::Global;

const WIDTHS: [u16; 9] = [0, 1, 2, 3, 7, 12, 20, 35, 65535];

/// A random table, and facts about it that its own functions don't return.
#[derive(Drop)]
pub struct Sample {
    /// The table, in the style `UTF8_FULL`, whose characters are in no text and no delimiter.
    pub table: Table,
    /// The table's delimiter.
    pub delimiter: char,
    /// The kind of the texts in the rows, and facts about the rows. If texts have SGR sequences,
    /// the table has `custom_styling`.
    pub contents: Contents,
    /// True if the table has another truncation indicator than `…`, which a new table has.
    pub has_own_indicator: bool,
    // the random numbers from which the sample was made
    numbers: Pcg32,
}

impl Sample {
    /// Returns a sample that is made from the same random numbers, but whose texts have no SGR
    /// sequences.
    pub fn as_visible(&self, alloc: Global) -> Result<Sample> {
        Sample::new(alloc, &mut self.numbers.clone()?, true)
    }

    /// Makes a random table of up to five rows and four columns. If `is_visible` is true, texts are
    /// made without their SGR sequences.
    pub fn new(alloc: Global, rng: &mut Pcg32, is_visible: bool) -> Result<Sample> {
        let numbers = rng.clone()?;
        let mut sample = Sample::without_rows(alloc, numbers, Contents::new(rng, is_visible));
        sample.fill(alloc, rng)?;
        Ok(sample)
    }

    fn without_rows(alloc: Global, numbers: Pcg32, contents: Contents) -> Sample {
        Sample {
            table: Table::new(alloc),
            delimiter: ' ',
            contents,
            has_own_indicator: false,
            numbers,
        }
    }

    fn fill(&mut self, alloc: Global, rng: &mut Pcg32) -> Result<()> {
        self.set_table(rng);
        self.add_rows(alloc, rng)?;
        change_columns(
            rng,
            self.table.column_iter_mut().into_slice(),
            self.contents.kind,
        );
        if once_in(rng, 8) {
            self.add_late_cell(alloc, rng)?;
        }
        self.know_sequences(rng)
    }

    fn set_table(&mut self, rng: &mut Pcg32) {
        self.delimiter = delimiter(rng, self.contents.kind);
        self.table
            .load_style(UTF8_FULL)
            .set_delimiter(self.delimiter)
            .set_content_arrangement(arrangement(rng))
            .set_width(one_of(rng, &WIDTHS, 0));
    }

    fn add_rows(&mut self, alloc: Global, rng: &mut Pcg32) -> Result<()> {
        if !once_in(rng, 3) {
            let header = self.contents.row(alloc, rng)?;
            self.table.try_set_header(header)?;
        }
        for _ in 0..rng.random_range(0u32..6) {
            let row = self.contents.row(alloc, rng)?;
            self.table.try_add_row(row)?;
        }
        Ok(())
    }

    // adds a cell to the last row, in no column of the table, or in a column of the other rows
    fn add_late_cell(&mut self, alloc: Global, rng: &mut Pcg32) -> Result<()> {
        let cell = self.contents.cell(alloc, rng)?;
        let last = self.table.row_count().saturating_sub(1);
        match self.table.row_mut(last) {
            Some(row) => row.try_add_cell(cell),
            None => Ok(()),
        }
    }

    fn know_sequences(&mut self, rng: &mut Pcg32) -> Result<()> {
        if !self.contents.kind.has_sequences {
            return Ok(());
        }
        self.table.custom_styling();
        self.has_own_indicator = once_in(rng, 2);
        if !self.has_own_indicator {
            return Ok(());
        }
        self.table.try_set_truncation_indicator(indicator(rng))
    }
}
