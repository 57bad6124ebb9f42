//! The drawn lines of a table.

ghost use Rattle.std.specs.Prelude.{◌≡◌, All, IfOk, IsUtf8, map, string_bytes};
ghost use Rattle.std.specs.Iterator.{YieldsFirstBy, item_count};
ghost use Rattle.comfy_table.specs.Arrangement.{IsDrawingOf};
ghost use Rattle.comfy_table.specs.Headline.{IsTableDrawing, TerminatesLines, JoinsLines, JoinsTrimmedLines};

use crate::table::Table;
use crate::utils::formatting::TrimmedText;
use crate::utils::{build_table, draw};
use comfy_parts::Result;
use std::marker::Model;
use std::vec;

/// An iterator over the drawn lines of a table, from the top. If neither the style nor the
/// truncation indicator has a line feed, no line has one.
///
/// With `custom_styling`, no line leaves an SGR sequence open under three conditions. Each cell
/// with a colour of its own also has an attribute, if colours are written. Neither the style nor
/// the truncation indicator has ESC. Each shown column has a padding on its right.
///
/// ```
/// let top = table.lines()?.next();
/// ```
#[derive(Drop)]
pub struct Lines {
    rest: vec::IntoIter<String>,
}

impl Model for Lines {
    ghost use Rattle.std.specs.Prelude.{List, ℕ, map, string_bytes};
    ghost use Rattle.std.specs.Vec.Iter.{into_iter_items};

    ghost Value = { List (List ℕ) };

    ghost view = { λ s. map string_bytes (into_iter_items s.rest) };
}

impl Lines {
    pub(crate) fn new(lines: Vec<String>) -> Lines
        ensures { result ≡ map string_bytes lines.items }
    {
        Lines {
            rest: lines.into_iter(),
        }
    }
}

impl Iterator for Lines {
    type Item = String;

    ghost next_gives = { YieldsFirstBy string_bytes (λ lines. lines) };

    ghost remaining = { item_count (λ lines. lines) };

    fn next(&mut self) -> Option<String> {
        self.rest.next()
    }
}

impl Table {
    /// The drawn lines of the table as it is now, from the top. The lines are the frame lines and
    /// the lines of the rows, in the order in which they are printed. The only error is
    /// `OutOfMemory`.
    ///
    /// Without colours, attributes and `custom_styling`, all lines of a straight table
    /// (`IsStraightTable`) take the same number of terminal columns, for texts of every script. In
    /// any preset, a table whose columns have the paddings of new columns is straight if it is as
    /// wide as its texts (`IsShownWhole`). This means that it keeps to no width, no shown column
    /// has a constraint, no row has a `max_height`, and no text line takes more than 65535 terminal
    /// columns.
    ///
    /// Likewise, all lines of a printable table (`IsPrintableTable`) have the same number of
    /// characters. A table is printable if its texts and delimiters are printable ASCII. If the
    /// truncation indicator is drawn, each of its characters must also add one terminal column.
    ///
    /// The next bounds are for a table whose width (`Table::width`) is known. Let W be this width.
    /// Let F be the number of characters that borders and paddings take in a line, plus one for
    /// each shown column. For a column whose constraint fixes its width, or that gets just its
    /// lower boundary, F counts this width without paddings instead of one.
    ///
    /// Under `ContentArrangement::Dynamic` a frame line has at most max(W, F) characters. Under
    /// `DynamicFullWidth` it has exactly max(W, F), if a column is shown. Without colours,
    /// attributes and `custom_styling`, the lines of rows keep the same bounds. The bounds count
    /// characters in a printable table, and terminal columns in a straight table.
    ///
    /// ```
    /// let mut table = Table::new(alloc);
    /// table.add_row(["17", "dock 3"])?;
    /// for line in table.lines()? {
    ///     println!(rt; "{line}")?;
    /// }
    /// // +----+--------+
    /// // | 17 | dock 3 |
    /// // +----+--------+
    /// ```
    pub fn lines(&self) -> Result<Lines>
        ensures drawing { IfOk result (λ lines. IsDrawingOf self.now lines) }
        ensures headline { IfOk result (λ lines. IsTableDrawing self.now lines) }
        ensures characters { IfOk result (λ lines. All IsUtf8 lines) }
    {
        build_table(self)
    }

    /// The drawn lines, joined by line feeds. The only error is `OutOfMemory`. If neither the style
    /// nor the truncation indicator has a line feed, splitting the text at line feeds gives the
    /// lines, by the law `laws::lines_are_found_in_their_texts`.
    ///
    /// ```
    /// let drawing = table.to_text()?;
    /// ```
    pub fn to_text(&self) -> Result<String>
        ensures { IfOk result (λ text. JoinsLines self.now (string_bytes text)) }
    {
        let mut text = self.to_terminated_text()?;
        // the line feed of the last line
        text.pop();
        Ok(text)
    }

    /// The drawn lines, each without its trailing white space, joined by line feeds. The only error
    /// is `OutOfMemory`.
    pub fn trim_fmt(&self) -> Result<String>
        ensures { IfOk result (λ text. JoinsTrimmedLines self.now (string_bytes text)) }
    {
        let mut lines = TrimmedText::new(*self.columns.allocator());
        draw(self, &mut lines)?;
        let mut text = lines.into_text();
        // the line feed of the last line
        text.pop();
        Ok(text)
    }

    /// The drawn lines, each followed by a line feed, ready to print. The only error is
    /// `OutOfMemory`. If neither the style nor the truncation indicator has a line feed, splitting
    /// the text at line feeds gives the lines, and an empty text after them, by the law
    /// `laws::lines_are_found_in_their_texts`.
    pub fn to_terminated_text(&self) -> Result<String>
        ensures { IfOk result (λ text. TerminatesLines self.now (string_bytes text)) }
    {
        let mut text = String::new(*self.columns.allocator());
        draw(self, &mut text)?;
        Ok(text)
    }
}
