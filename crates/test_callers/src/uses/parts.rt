//! Callers that draw a table in parts.

ghost use Rattle.std.specs.Prelude.{◌≡◌, ◌++◌, OnOk, string_bytes};
ghost use Rattle.comfy_parts.specs.Text.{Text};
ghost use Rattle.comfy_table.specs.Headline.{TerminatesLines};
ghost use Rattle.test_callers.specs.Uses.{AppendsPageWithin};

use comfy_table::laws::{lines_are_found_in_their_texts, parts_have_lines_of_the_table};
use comfy_table::{Result, Table};

/// Appends `count` rows of a table to a text, from the row `first` on. No line of them has more
/// characters than the table's width, if the conditions of `AppendsPageWithin` hold. For example,
/// the texts must be printable ASCII, and the width must have room for the frame.
pub fn push_page(table: &Table, text: &mut String, first: usize, count: usize) -> Result<()>
    ensures { OnOk result (AppendsPageWithin table.now (string_bytes text.old)
        (string_bytes text.new)) }
{
    parts_have_lines_of_the_table();
    lines_are_found_in_their_texts();
    table.arranged()?.push_rows(text, first, count)
}

/// Appends the whole drawing of a table to a text, with a line feed after each line.
pub fn in_one_part(table: &Table, text: &mut String) -> Result<()>
    ensures { OnOk result ((part : Text) × TerminatesLines table.now part
        × (string_bytes text.new ≡ string_bytes text.old ++ part)) }
{
    parts_have_lines_of_the_table();
    table.arranged()?.push_rows(text, 0, table.row_count())
}
