//! Drawings keep the texts of their cells.

use crate::drawing::{Drawing, piece_at};
use crate::scan::Scan;
use comfy_table::{Cell, Column, Result, Row};
use std::alloc::Global;

/// Compares the drawing of each cell with the text of the cell.
#[derive(Drop)]
pub struct Reader {
    // the table's delimiter
    delimiter: char,
    knows_sequences: bool,
    drawn: Scan,
    wanted: Scan,
    /// True if each cell that was read is drawn with all characters of its text in order, except
    /// spaces and delimiters. The same SGR sequences must be open before a character in the drawing
    /// and in the text.
    pub are_kept: bool,
}

impl Reader {
    /// Returns a `Reader` that hasn't read a row yet. `delimiter` is that of the table.
    /// `knows_sequences` is true if the table has `custom_styling`, so that SGR sequences aren't
    /// characters.
    pub fn new(alloc: Global, delimiter: char, knows_sequences: bool) -> Reader {
        Reader {
            delimiter,
            knows_sequences,
            drawn: Scan::new(alloc, knows_sequences),
            wanted: Scan::new(alloc, knows_sequences),
            are_kept: true,
        }
    }

    /// Reads the drawn lines of the header and of each row, and compares them with the cells. The
    /// result is in `are_kept`.
    pub fn read_rows(
        &mut self,
        columns: &[Column],
        header: Option<&Row>,
        rows: &[Row],
        drawing: &Drawing,
    ) -> Result<()> {
        // the first frame line ends no row
        let mut drawn = drawing.rows.iter().skip(1);
        for row in header.into_iter().chain(rows.iter()) {
            let lines = lines_to_compare(self.knows_sequences, row, drawn.next());
            self.read_row(columns, row, lines)?;
        }
        Ok(())
    }

    fn read_row(&mut self, columns: &[Column], row: &Row, lines: &[String]) -> Result<()> {
        let mut place: usize = 0;
        for (column, cell) in columns.iter().zip(row.cell_iter()) {
            if !column.is_hidden() {
                self.begin(delimiter_of(self.delimiter, column, cell));
                self.read_lines(lines, place)?;
                self.read_text(cell, row.height_limit().is_some())?;
                place = place.saturating_add(1);
            }
        }
        Ok(())
    }

    fn begin(&mut self, delimiter: char) {
        self.drawn.begin(delimiter);
        self.wanted.begin(delimiter);
    }

    // reads the piece of each line in the shown column at this place; sequences that a line leaves
    // open are forgotten
    fn read_lines(&mut self, lines: &[String], place: usize) -> Result<()> {
        for line in lines {
            self.drawn.read(piece_at(line.as_str(), place))?;
            self.drawn.forget_open();
        }
        Ok(())
    }

    // reads a cell's text, which was drawn whole, or up to some place if the row's height is
    // limited
    fn read_text(&mut self, cell: &Cell, is_limited: bool) -> Result<()> {
        let content = cell.content()?;
        self.wanted.read(content.as_str())?;
        let wanted = self.wanted.found.as_str();
        let drawn = self.drawn.found.as_str();
        self.are_kept &= wanted.starts_with(drawn) && (is_limited || wanted.len() == drawn.len());
        Ok(())
    }
}

// the delimiter of a cell, in a table whose delimiter is `delimiter`
fn delimiter_of(delimiter: char, column: &Column, cell: &Cell) -> char {
    cell.cell_delimiter()
        .or(column.column_delimiter())
        .unwrap_or(delimiter)
}

// the lines of a row that are compared with its texts. If sequences are known and the row's height
// is limited, the last line is left out: a cut text and its indicator may form a sequence.
fn lines_to_compare<'a>(
    knows_sequences: bool,
    row: &Row,
    lines: Option<&'a Vec<String>>,
) -> &'a [String] {
    let Some(lines) = lines else {
        return &[];
    };
    match lines.as_slice().split_last() {
        Some((_, others)) if knows_sequences && row.height_limit().is_some() => others,
        _ => lines.as_slice(),
    }
}
