//! Reads the records of a text with the options of a caller.

ghost use Rattle.std.specs.Prelude.{◌≡◌, ◌<◌, ◌^◌, IfErr, IfOk};
ghost use Rattle.csv_records.specs.First.{AreFirst};
ghost use Rattle.csv_records.specs.Longer.{longer_records};
ghost use Rattle.csv_records.specs.Reading.{AreRecordsIn, IsTextWithoutRecords};

use crate::delimiter::{Delimiter, delimited};
use crate::error::RecordsError;
use crate::longer::longer_records;
use crate::options::InputOptions;
use crate::quotes::unclosed_quote;
use crate::records::{FirstRecords, Records, first_records_of};
use crate::spaces::tabbed_text;
use crate::text::line_before;
use std::alloc::Global;

/// Returns all records of `text`, which is a text that `decoded` has returned for the same
/// `options`. An empty line isn't a record. A line `""` is a record with one empty field, if
/// `has_quotes` is true.
///
/// # Errors
///
/// - `Unclosed`: a quote that opens a field is never closed. The error has the number of the line
///   with this quote, counted from 1. The lines that `skip` leaves out are counted too.
/// - `SplitCharacter`: the delimiter is a byte that isn't ASCII, and it splits a character of the
///   text, because it is one of the bytes of that character's UTF-8.
/// - `OutOfMemory`: there isn't enough memory for the records.
pub fn read_records(
    alloc: Global,
    text: &str,
    options: &InputOptions,
) -> Result<Records, RecordsError>
    ensures all { IfOk result (λ records. AreRecordsIn options.now text.now records) }
    ensures refused { IfErr result (λ e. IsTextWithoutRecords options.now text.now e) }
{
    Ok(read_first_records(alloc, text, options, usize::MAX)?.records)
}

/// Returns the first `most` records of `text`, or all if there are fewer, and the number of all
/// records of the text. `text` is a text that `decoded` returned for the same `options`. The field
/// `longer` of the result reports the returned records that have more fields than the first one. It
/// is `None` if there are none, and always for `Delimiter::Spaces`. The whole text is read, and the
/// errors are those of `read_records`.
pub fn read_first_records(
    alloc: Global,
    text: &str,
    options: &InputOptions,
    most: usize,
) -> Result<FirstRecords, RecordsError>
    ensures all { IfOk result (AreFirst (AreRecordsIn options.now text.now) most) }
    ensures count { IfOk result (λ first. first.count < 2 ^ 64) }
    ensures longer { IfOk result (λ first. first.longer
        ≡ longer_records options.now text.now first.records) }
    ensures refused { IfErr result (λ e. IsTextWithoutRecords options.now text.now e) }
{
    if let Delimiter::Spaces = options.delimiter {
        let tabbed = tabbed_text(alloc, text, options.has_header)?;
        return first_records_of(alloc, tabbed.as_str(), b'\t', false, most);
    }
    let (delimiter, rest) = delimited(alloc, text, options.delimiter, options.has_quotes)?;
    if options.has_quotes {
        if let Some(at) = unclosed_quote(rest, delimiter) {
            let line = line_before(options.skip, text, rest.len() - at);
            return Err(RecordsError::Unclosed(line));
        }
    }
    let mut first = first_records_of(alloc, rest, delimiter, options.has_quotes, most)?;
    first.longer = longer_records(&first.records.rows(), text, options, delimiter, rest);
    Ok(first)
}
