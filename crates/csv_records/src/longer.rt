//! Reports records that have more fields than the first record. Empty fields at the end of a record
//! don't count.

ghost use Rattle.std.specs.Prelude.{◌≡◌, ◌≢◌, [], nat_lt, slice_get, unwrap_or};
ghost use Rattle.std.specs.List.{count_by, position};
ghost use Rattle.csv_records.specs.Delimiter.{delimited};
ghost use Rattle.csv_records.specs.Input.{config_for};
ghost use Rattle.csv_records.specs.Longer.{skip_record, skip_newlines, field_count, filled_len, skip_records, longer_records};
ghost use Rattle.csv_records.specs.declared.delimiter.Delimiter.TheVariants.{Spaces};

use crate::counting::first_count;
use crate::options::InputOptions;
use crate::records::Rows;
use crate::text::{line_before, without_utf8_mark};

/// A report on the *longer* records of a text: those that have more fields than the first record of
/// the text. Empty fields at the end of a longer record don't count.
#[derive(Clone, Copy, Debug)]
pub struct LongRecords {
    /// The number of the line in which the first longer record begins. Lines are counted from 1,
    /// including the lines that `InputOptions::skip` leaves out.
    pub line: u64,
    /// The number of fields of the first longer record. Empty fields at the end of the record don't
    /// count.
    pub fields: usize,
    /// The number of fields of the first record of the text. Empty fields count too.
    pub first_fields: usize,
    /// The number of longer records after the first longer record.
    pub others: usize,
    /// True if each record after the first longer record is longer too. Also true if no record
    /// comes after the first longer record.
    pub lasts: bool,
}

/// The report on the longer records among `records`, the first records of a text. `None` if none of
/// `records` is longer. `rest` is the text without a line that names the delimiter.
pub(crate) fn longer_records(
    records: &Rows<'_>,
    text: &str,
    options: &InputOptions,
    delimiter: u8,
    rest: &str,
) -> Option<LongRecords>
    requires no_spaces { options.now.delimiter ≢ Spaces }
    requires byte { delimiter
        ≡ (delimited options.now.delimiter options.now.has_quotes text.now).0 }
    requires after { rest.now
        ≡ (delimited options.now.delimiter options.now.has_quotes text.now).1 }
    ensures { result ≡ longer_records options.now text.now records.now }
{
    let first_fields = fields_at(records, 0);
    let before = first_longer(records, first_fields)?;
    let unmarked = without_utf8_mark(rest).as_bytes();
    let from = skip_records(unmarked, before, delimiter, options.has_quotes);
    let others = count_longer(records, first_fields).saturating_sub(1);
    Some(LongRecords {
        line: line_before(options.skip, text, from.len()),
        fields: filled_at(records, before),
        first_fields,
        others,
        lasts: others == records.len().saturating_sub(before).saturating_sub(1),
    })
}

// The number of fields of the record at a position, or 0 if there is no such record.
fn fields_at(records: &Rows<'_>, position: usize) -> usize
    ensures { result ≡ field_count records.now position }
{
    match records.get(position) {
        Some(record) => record.len(),
        None => 0,
    }
}

// The number of fields of the record at a position, not counting empty ones at its end. 0 if there
// is no such record.
fn filled_at(records: &Rows<'_>, position: usize) -> usize
    ensures { result ≡ filled_len (unwrap_or (slice_get records.now position) []) }
{
    match records.get(position) {
        Some(record) => record.filled_len(),
        None => 0,
    }
}

// The position of the first record that has more than `most` fields, not counting empty ones at its
// end.
fn first_longer(records: &Rows<'_>, most: usize) -> Option<usize>
    ensures { result ≡ position (λ fields. nat_lt most (filled_len fields)) records.now }
{
    records.iter().position(|record| record.has_more(most))
}

// The number of records that have more than `most` fields, not counting empty ones at their ends.
fn count_longer(records: &Rows<'_>, most: usize) -> usize
    ensures { result ≡ count_by (λ fields. nat_lt most (filled_len fields)) records.now }
{
    records
        .iter()
        .filter(|record| record.has_more(most))
        .count()
}

// The bytes from the record after the first `before` records on.
fn skip_records(bytes: &[u8], before: usize, delimiter: u8, has_quotes: bool) -> &[u8]
    ensures { result.now ≡ skip_records (config_for delimiter has_quotes) before bytes.now }
{
    let mut rest = bytes;
    for _ in 0..before {
        rest = skip_record(rest, delimiter, has_quotes);
    }
    skip_newlines(rest)
}

// The bytes after the first record, or no bytes if there is no record.
fn skip_record(bytes: &[u8], delimiter: u8, has_quotes: bool) -> &[u8]
    ensures { result.now ≡ skip_record (config_for delimiter has_quotes) bytes.now }
{
    match first_count(bytes, delimiter, has_quotes) {
        Some((_, after)) => after,
        None => &[],
    }
}

// The bytes without the line ends at their start.
fn skip_newlines(bytes: &[u8]) -> &[u8]
    ensures { result.now ≡ skip_newlines bytes.now }
{
    let mut rest = bytes;
    while let [b'\n' | b'\r', after @ ..] = rest {
        rest = after;
    }
    rest
}
