//! Records that are expanded: each is drawn as a table of its own, of names and fields.

ghost use Rattle.std.specs.Prelude.{◌≡◌, ◌+◌, ◌++◌, OnOk, string_bytes};
ghost use Rattle.csv_tables.specs.Drawn.{is_expanded_in, record_line};

use crate::options::Expansion;
use crate::selection::Noun;
use comfy_table::Result;
use std::fmt::Write;

/// Returns true if records are expanded by the rule `expansion`. `has_room` is true if the width
/// has room for the table of the records' rows.
pub(crate) fn is_expanded(expansion: Expansion, has_room: bool) -> bool
    ensures { result ≡ is_expanded_in expansion has_room }
{
    match expansion {
        Expansion::Always => true,
        Expansion::Never => false,
        Expansion::Auto => !has_room,
    }
}

/// Appends the line above an expanded record to `text`, such as `record 1 of 2`. `at` is the place
/// of the record, counted from 0. `count` is the number of all records below the header, or `None`
/// if this number isn't known. The only error is `OutOfMemory`.
pub(crate) fn push_record_line(
    text: &mut String,
    noun: Noun,
    at: usize,
    count: Option<usize>,
) -> Result<()>
    ensures { OnOk result (string_bytes text.new
        ≡ string_bytes text.old ++ record_line noun (at + 1) count) }
{
    // One `write!` of all parts takes 120 instructions more.
    text.push_str(noun.one())?;
    text.push(' ')?;
    write!(text, "{}", at as u128 + 1)?;
    if let Some(count) = count {
        text.push_str(" of ")?;
        write!(text, "{count}")?;
    }
    text.push('\n')?;
    Ok(())
}
