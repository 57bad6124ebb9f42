//! A cell: its text lines and its settings.

ghost use Rattle.std.specs.Prelude.{◌≡◌, ◌∷◌, ◌++◌, [], string_bytes, map, IfOk, IfSome, Some};
ghost use Rattle.std.specs.Cmp.{partial_equiv_from_equiv};
ghost use Rattle.comfy_parts.specs.CellEquality.{cell_eq, cell_eq_equiv, cell_hash, cell_hash_respects_eq};
ghost use Rattle.comfy_parts.specs.CellValue.{HasTextLines, IsCell, content_of, plain_cell};

pub mod for_tables;
mod text_lines;

use crate::cell::text_lines::TextLines;
use crate::error::Result;
use crate::style::{Attribute, CellAlignment, Color};
use std::alloc::{AllocError, Global};
use std::fmt::{self, Display};
use std::hash::{Hash, Hasher};
use std::marker::Model;

/// One cell of a table: a text and its settings, such as colours. The text is stored as text lines,
/// which are its pieces between line feeds. There is at least one text line.
///
/// ```
/// let cell = Cell::new(alloc, "rent")?
///     .fg(Color::Red)
///     .set_alignment(CellAlignment::Right);
/// ```
pub struct Cell {
    text_lines: TextLines,
    attributes: Vec<Attribute>,
    delimiter: Option<char>,
    alignment: Option<CellAlignment>,
    foreground: Option<Color>,
    background: Option<Color>,
}

// At each `?` at which a caller owns a value, the caller's proof unfolds the value's derived drop.
// A drop that is written by hand is only a call there. So a type that callers own has a drop of its
// own if it makes their proofs shorter.
impl Drop for Cell {
    fn drop(self) {
        let Cell {
            text_lines: _,
            attributes: _,
            delimiter: _,
            alignment: _,
            foreground: _,
            background: _,
        } = self;
    }
}

impl Model for Cell {
    ghost use Rattle.comfy_parts.specs.CellValue.{CellValue, HasTextLines, IsDelimiter};

    ghost Value = { CellValue };

    ghost view = { λ c. record {
      text_lines = c.text_lines;
      delimiter = c.delimiter;
      alignment = c.alignment;
      foreground = c.foreground;
      background = c.background;
      attributes = c.attributes.items;
    } };

    ghost invariant = { λ c. HasTextLines c.text_lines × IsDelimiter c.delimiter };
}

impl Cell {
    /// Makes a cell of the text that the `Display` of `content` writes, without settings. The text
    /// lines of the cell are the pieces of this text between line feeds.
    ///
    /// # Errors
    ///
    /// `OutOfMemory` if memory runs out, or if the `Display` of `content` returns an error. After
    /// an error `content` is dropped.
    ///
    /// ```
    /// let cells = [Cell::new(alloc, "rent")?, Cell::new(alloc, 1200)?];
    /// ```
    pub fn new<T: Display + Drop>(alloc: Global, content: T) -> Result<Cell>
        ensures value { IfOk result
            (λ cell. IfSome (T.output content) (λ text. cell ≡ plain_cell text)) }
        ensures content { IfOk result
            (λ cell. IfSome (T.output content) (λ text. content_of cell ≡ text)) }
    {
        Cell::new_owned(alloc, content.to_string(alloc)?)
    }

    /// Makes a cell of a text, without settings. The text lines of the cell are the pieces of the
    /// text between line feeds. If the text has neither a line feed nor ESC, the cell stores this
    /// `String` itself, and the call takes no memory.
    ///
    /// The only error is `OutOfMemory`. After it the text is dropped.
    pub fn new_owned(alloc: Global, text: String) -> Result<Cell>
        ensures value { IfOk result (λ cell. cell ≡ plain_cell (string_bytes text)) }
        ensures content { IfOk result (λ cell. content_of cell ≡ string_bytes text) }
    {
        let text_lines = TextLines::of_text(alloc, text)?;
        Ok(Cell::of_lines(alloc, text_lines, None))
    }

    // A cell with these text lines, this alignment and no other setting.
    fn of_lines(alloc: Global, text_lines: TextLines, alignment: Option<CellAlignment>) -> Cell
        requires has_text_lines { HasTextLines text_lines }
        ensures { result ≡ record (plain_cell []) {
          text_lines = text_lines;
          alignment = alignment;
        } }
    {
        Cell {
            text_lines,
            attributes: Vec::new(alloc),
            delimiter: None,
            alignment,
            foreground: None,
            background: None,
        }
    }

    /// The text of the cell: its text lines, joined by line feeds. The only error is `OutOfMemory`.
    pub fn content(&self) -> Result<String>
        ensures { IfOk result (λ text. string_bytes text ≡ content_of self.now) }
    {
        Ok(self.text_lines().join(*self.attributes.allocator(), "\n")?)
    }

    /// The text lines of the cell in order, with their colour sequences. They are the pieces of the
    /// cell's text between line feeds.
    pub fn text_lines(&self) -> &[String]
        ensures value { map string_bytes result.now ≡ self.now.text_lines }
        ensures is_cell { IsCell self.now }
    {
        self.text_lines.raw().0
    }

    /// Sets the cell's delimiter, the character at which its text lines may break. It takes
    /// precedence over the delimiters of the column and of the table.
    pub fn set_delimiter(mut self, delimiter: char) -> Cell
        ensures { result ≡ record self { delimiter = Some delimiter } }
    {
        self.delimiter = Some(delimiter);
        self
    }

    /// Sets the alignment of the cell's lines. It takes precedence over the alignment of the
    /// column.
    pub fn set_alignment(mut self, alignment: CellAlignment) -> Cell
        ensures { result ≡ record self { alignment = Some alignment } }
    {
        self.alignment = Some(alignment);
        self
    }

    /// Sets the foreground colour, which is the colour of the cell's text.
    ///
    /// ```
    /// let amount = -12;
    /// let color = if amount < 0 { Color::Red } else { Color::Green };
    /// let cell = Cell::new(alloc, amount)?.fg(color);
    /// ```
    pub fn fg(mut self, color: Color) -> Cell
        ensures { result ≡ record self { foreground = Some color } }
    {
        self.foreground = Some(color);
        self
    }

    /// Sets the background colour of the cell.
    pub fn bg(mut self, color: Color) -> Cell
        ensures { result ≡ record self { background = Some color } }
    {
        self.background = Some(color);
        self
    }

    /// Adds `attribute`, such as bold, to the end of the cell's list of attributes. In a drawing
    /// each attribute is written only once, and the attributes come in the order of the enumeration
    /// `Attribute`. After `OutOfMemory` the cell is dropped.
    ///
    /// ```
    /// let cell = Cell::new(alloc, "Sum")?.add_attribute(Attribute::Bold)?;
    /// ```
    pub fn add_attribute(self, attribute: Attribute) -> Result<Cell>
        ensures { IfOk result (λ cell. cell ≡ record self {
          attributes = self.attributes ++ attribute ∷ [];
        }) }
    {
        self.with_attributes(&[attribute])
    }

    /// Adds `attributes` in their order to the end of the cell's list of attributes, as repeated
    /// calls of `add_attribute` do. After `OutOfMemory` the cell is dropped.
    pub fn add_attributes(self, attributes: Vec<Attribute>) -> Result<Cell>
        ensures { IfOk result (λ cell. cell ≡ record self {
          attributes = self.attributes ++ attributes.items;
        }) }
    {
        self.with_attributes(attributes.as_slice())
    }

    // Appends attributes to the list of the cell.
    fn with_attributes(mut self, attributes: &[Attribute]) -> Result<Cell>
        ensures { IfOk result (λ cell. cell ≡ record self {
          attributes = self.attributes ++ attributes.now;
        }) }
    {
        self.attributes.extend_from_slice(attributes)?;
        Ok(self)
    }

    /// The cell's own delimiter, the character at which its text lines may break. `None` if the
    /// delimiter of the column or of the table applies.
    pub fn cell_delimiter(&self) -> Option<char>
        ensures { result ≡ self.now.delimiter }
    {
        self.delimiter
    }

    /// The cell's own alignment of its lines. `None` if the alignment of the column applies.
    pub fn cell_alignment(&self) -> Option<CellAlignment>
        ensures { result ≡ self.now.alignment }
    {
        self.alignment
    }

    /// The foreground colour, which is the colour of the cell's text. `None` if no colour is set.
    pub fn foreground(&self) -> Option<Color>
        ensures { result ≡ self.now.foreground }
    {
        self.foreground
    }

    /// The background colour of the cell. `None` if no colour is set.
    pub fn background(&self) -> Option<Color>
        ensures { result ≡ self.now.background }
    {
        self.background
    }

    /// The attributes of the cell, in the order in which they were added. An attribute that was
    /// added twice occurs twice.
    pub fn attributes(&self) -> &[Attribute]
        ensures { result.now ≡ self.now.attributes }
    {
        self.attributes.as_slice()
    }
}

impl fmt::Debug for Cell {
    fn fmt<W: fmt::Write>(&self, f: &mut fmt::Formatter<W>) -> fmt::Result {
        f.debug_struct("Cell")
            .field("text_lines", &self.text_lines())
            .field("delimiter", &self.delimiter)
            .field("alignment", &self.alignment)
            .field("foreground", &self.foreground)
            .field("background", &self.background)
            .field("attributes", &self.attributes())
            .finish()
    }
}

// A copy has the same value, in its own memory.
impl Clone for Cell {
    ghost is_clone = { λ source copy. copy ≡ source };

    fn clone(&self) -> std::result::Result<Cell, AllocError> {
        Ok(Cell {
            text_lines: self.text_lines.clone()?,
            attributes: self.attributes.clone()?,
            delimiter: self.delimiter,
            alignment: self.alignment,
            foreground: self.foreground,
            background: self.background,
        })
    }
}

// Two cells are equal if their text lines and settings are. Stored widths and visible texts aren't
// compared, because they follow from the text lines.
impl PartialEq for Cell {
    ghost eq = { cell_eq };

    ghost laws = { partial_equiv_from_equiv cell_eq_equiv };

    fn eq(&self, other: &Cell) -> bool {
        self.text_lines() == other.text_lines()
            && self.delimiter == other.delimiter
            && self.alignment == other.alignment
            && self.foreground == other.foreground
            && self.background == other.background
            && self.attributes() == other.attributes()
    }
}

impl Eq for Cell {
    ghost laws = { cell_eq_equiv };
}

impl Hash for Cell {
    ghost hash_input = { cell_hash };

    ghost respects_eq = { cell_hash_respects_eq };

    fn hash<H: Hasher>(&self, state: &mut H) {
        self.text_lines().hash(state);
        self.delimiter.hash(state);
        self.alignment.hash(state);
        self.foreground.hash(state);
        self.background.hash(state);
        self.attributes().hash(state);
    }
}
