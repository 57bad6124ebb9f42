//! No text is lost.

ghost use Rattle.std.specs.Prelude.{IfOk};
ghost use Rattle.promises.specs.Kept.{ShowAllTexts, ShowWholeTexts};

use comfy_table::{Lines, Result, Table};

/// The drawn lines of a table. The only error is `OutOfMemory`. All promises of this function
/// require that `custom_styling` is off.
///
/// The lines have all texts of shown columns in rows without a `max_height`, each text in its own
/// row and column. Each of these texts is unchanged, or in slices that leave out only the
/// characters at which the text may break.
///
/// The lines are the top border, the header with the line below it, the rows with separators
/// between them, and the bottom border. A row has as many lines as its highest cell. Each line of a
/// row has a piece for each shown column, side by side between borders. A piece is a slice of a
/// text between spaces, which are at least the paddings and fill the column. SGR sequences are only
/// in these spaces, and only if colours and attributes are written and the cell has a colour or an
/// attribute.
pub fn lines_with_all_texts(table: &Table) -> Result<Lines>
    ensures { IfOk result (λ lines. ShowAllTexts table.now lines) }
{
    table.lines()
}

/// The drawn lines of a table. The only error is `OutOfMemory`.
///
/// The lines have all texts of shown columns unchanged under these conditions:
///
/// - The arrangement is `Disabled`, and no shown column has a constraint.
/// - No row has a `max_height`, and no text line takes more than 65535 terminal columns.
/// - `custom_styling` is off.
///
/// Each text line, which is the text between two line feeds, is then in a line of its own, in its
/// row and column. Frame lines, borders and spaces are as in `lines_with_all_texts`.
pub fn lines_with_whole_texts(table: &Table) -> Result<Lines>
    ensures { IfOk result (λ lines. ShowWholeTexts table.now lines) }
{
    table.lines()
}
