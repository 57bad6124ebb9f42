//! No field is lost.

ghost use Rattle.std.specs.Prelude.{ℕ, Bool, List, IfSome};
ghost use Rattle.csv_promises.specs.Fields.{ShowsRecords, StaysAsItIs};

use crate::straight::written;
use csv_command::{Invocation, OutputContext};
use csv_records::Records;
use devices::MemorySink;
use std::alloc::Global;

/// Returns the parsed arguments, the records of a file with the bytes `input`, and the output of
/// `csvtable` for this file. The promise holds under every width and for every script. The output
/// is a table in the requested style: the header, if there is one, and below it one row for each
/// drawn record. Each field is cleaned: control characters, and characters that turn the direction
/// of text, are replaced. The cleaned field is alone in its column, between spaces. It is whole, or
/// in slices that end at the ends of wrapped lines and leave out only spaces. If records are
/// expanded, each record is a table of its own in this style, with one row for each drawn field and
/// its column's name. A line with the record's number is above this table. If the header is bold,
/// sequences that begin and end bold surround the parts of lines that have texts of the header, or
/// names of expanded records. If not all records are drawn, a line below the table counts the
/// records.
///
/// A column is right-aligned if each of its drawn fields is a number or neutral, and at least one
/// is a number. A field is neutral (`csv_records::is_neutral`) if it is empty, or is `-`, `–`, `—`
/// or `..`, or is a word such as `n/a`. The options `--right` and `--left` override this rule. In a
/// right-aligned column with a decimal mark, spaces after shorter fractions put the marks below
/// each other, unless `--no-decimal` is given. These spaces may be left out if a width is set. The
/// fields of expanded records are left-aligned.
///
/// Under `--expanded auto`, fields of columns of numbers and dates aren't split over lines, if
/// records aren't expanded. In a column of numbers and dates each field is a number, a date or
/// neutral, with at most 25 characters. A field may also be a time stamp of at most 35. The column
/// is at least as wide as its widest field. The column of record numbers is at least as wide as its
/// widest number. If no width is set, every column is at least as wide as its widest text,
/// including the header, even if records are expanded. A text of more than 65535 terminal columns
/// counts as a text of 65535. In an expanded record a number or date isn't split if the width has
/// room for it beside borders, paddings and four terminal columns for names.
///
/// Returns `None` if the arguments are refused, or request `--ansi`, Markdown, a greatest height,
/// help or the version. Also returns `None` if the whole input can't be read or drawn, if the
/// output has more than `room` bytes, or if memory runs out.
pub fn output_with_all_fields(
    alloc: Global,
    arguments: &[&str],
    context: OutputContext<'_>,
    input: &[u8],
    room: usize,
) -> Option<(Invocation, Records, MemorySink)>
    ensures { IfSome result (λ drawn. ShowsRecords drawn.0.options drawn.1 drawn.2.bytes) }
{
    let (invocation, records, sink) = written(alloc, arguments, context, input, room, false)?;
    if invocation.options.look.max_height.is_some() {
        return None;
    }
    Some((invocation, records, sink))
}

/// Cleaning leaves a field in UTF-8 unchanged, if the field has no control character and no
/// character that turns the direction of text. Cleaning replaces only such characters.
pub fn plain_fields_stay()
    ensures { (keeps_sequences : Bool) (field : List ℕ) → StaysAsItIs keeps_sequences field }
{}
