//! A drawing in the style `UTF8_FULL`, as it is read from its lines.

use crate::scan::{INDICATOR, Scan};
use comfy_table::Result;
use std::alloc::Global;
use std::mem;

const BORDER: char = '│';

// the character between two pieces of a line
const JUNCTION: char = '┆';

/// Facts that were read from the lines of a drawing: the number of characters of each line, and the
/// lines of each row.
#[derive(Drop)]
pub struct Drawing {
    /// The number of characters of each frame line.
    pub frame_counts: Vec<usize>,
    /// The number of visible characters of each line of a row.
    pub row_counts: Vec<usize>,
    /// True if a line of a row has the truncation indicator `…`.
    pub has_indicator: bool,
    /// True if the piece of a cell in some line leaves an SGR sequence open.
    pub leaves_open: bool,
    /// The lines of each row, the header first. A frame line ends each item, so the first item is
    /// empty.
    pub rows: Vec<Vec<String>>,
    // the lines since the last frame line
    row: Vec<String>,
    // the scan of the last line
    scan: Scan,
}

impl Drawing {
    /// Returns a `Drawing` that hasn't read a line yet. If `knows_sequences` is true, SGR sequences
    /// aren't counted. Otherwise each of their characters counts.
    pub fn new(alloc: Global, knows_sequences: bool) -> Drawing {
        Drawing {
            frame_counts: Vec::new(alloc),
            row_counts: Vec::new(alloc),
            has_indicator: false,
            leaves_open: false,
            rows: Vec::new(alloc),
            row: Vec::new(alloc),
            scan: Scan::new(alloc, knows_sequences),
        }
    }

    /// Reads the next line of the drawing. The lines have to be read in order.
    pub fn add_line(&mut self, alloc: Global, line: String) -> Result<()> {
        if !line.as_str().starts_with(BORDER) {
            return self.add_frame_line(alloc, line.as_str());
        }
        self.read_pieces(line.as_str())?;
        Ok(self.row.push(line)?)
    }

    fn add_frame_line(&mut self, alloc: Global, line: &str) -> Result<()> {
        self.frame_counts.push(line.chars().count())?;
        let row = mem::replace(&mut self.row, Vec::new(alloc));
        Ok(self.rows.push(row)?)
    }

    // reads a line of a row piece by piece
    fn read_pieces(&mut self, line: &str) -> Result<()> {
        self.scan.begin(' ');
        for piece in line.split_inclusive(JUNCTION) {
            self.scan.read(piece)?;
            self.leaves_open |= self.scan.is_open();
            self.scan.forget_open();
        }
        self.has_indicator |= line.contains(INDICATOR);
        Ok(self.row_counts.push(self.scan.count)?)
    }

    /// Returns true if each line of another drawing has as many characters as the same line of this
    /// drawing.
    pub fn has_counts_of(&self, other: &Drawing) -> bool {
        self.frame_counts.as_slice() == other.frame_counts.as_slice()
            && self.row_counts.as_slice() == other.row_counts.as_slice()
    }
}

/// Returns the piece of a shown column in a line of a row: the text between two borders. `place` is
/// the number of shown columns before the column. The piece is empty if the line has no such piece.
pub fn piece_at(line: &str, place: usize) -> &str {
    let line = line.strip_prefix(BORDER).unwrap_or(line);
    let line = line.strip_suffix(BORDER).unwrap_or(line);
    line.split(JUNCTION).nth(place).unwrap_or("")
}
