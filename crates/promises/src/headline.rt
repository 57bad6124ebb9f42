//! The headline: the lines of a drawing, and their widths.

ghost use Rattle.std.specs.Prelude.{All, IfOk, IsUtf8};
ghost use Rattle.promises.specs.Headline.{IsHeadline};

use comfy_table::{Lines, Result, Table};

/// The drawn lines of a table: frame lines, and rows of the text lines of the shown cells, between
/// spaces and borders. Each text line has the alignment of its cell, or else that of its column. A
/// row has as many lines as its highest cell. Without `custom_styling`, SGR sequences are only in
/// these spaces, and only if colours and attributes are written and the cell has a colour or an
/// attribute. The only error is `OutOfMemory`.
///
/// With `custom_styling`, the text of a cell counts without its SGR sequences. The lines may have
/// these sequences between the characters of the text. In a row without a `max_height`, the
/// sequences that are open before a visible byte of a line are those that are active at this byte
/// in the cell. No line leaves a sequence open, under the conditions of the definition
/// `HasSequencesInTextsAlone`.
///
/// A text line that fits its column is drawn as one line, even if it is empty. Any other text line
/// is wrapped, and loses only delimiters. If it has only delimiters, no line is drawn for it. If
/// `max_height` cuts a cell, only a beginning of its last line is drawn, followed by the truncation
/// indicator. This indicator isn't drawn if it is wider than the column. Under `Disabled`, or if no
/// width is known, a column without a constraint is as wide as its widest text.
///
/// Let W be the width that was set, or else the terminal's width. Let the arrangement be `Dynamic`
/// or `DynamicFullWidth`, and let no column have a constraint except `Hidden`. The *room* is W less
/// borders and paddings. If the room is enough for the widest texts of all columns, each column is
/// as wide as its widest text. Otherwise there is a number of terminal columns, the level, which is
/// at least an even share of the room. A column whose widest text is at most the level is as wide
/// as this text. Any other column is at least as wide as the level, or at least as wide as each
/// line of its texts, if these are wrapped at some width of at least the level. Under
/// `DynamicFullWidth` columns may also be wider than this paragraph says.
///
/// Let F be the number of characters of borders and paddings, plus one for each shown column. Under
/// `Dynamic` a frame line has at most max(W, F) characters. Under `DynamicFullWidth` a frame line
/// has exactly max(W, F) characters, if a column is shown. Let texts and delimiters be printable
/// ASCII. If the truncation indicator is drawn, let each of its characters add one terminal column.
/// Then the lines of rows have as many characters as frame lines, not counting SGR sequences.
pub fn headline(table: &Table) -> Result<Lines>
    ensures drawing { IfOk result (λ lines. IsHeadline table.now lines) }
    ensures characters { IfOk result (λ lines. All IsUtf8 lines) }
{
    table.lines()
}
