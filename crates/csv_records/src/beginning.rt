//! Finds the first records of an input in its beginning, if this beginning is enough for them.

ghost use Rattle.std.specs.Prelude.{◌≡◌, ◌↔◌, List, ℕ, IfNone, IfOk, IfSome, IsTrue, string_bytes};
ghost use Rattle.csv_records.specs.Beginning.{EndsWithLine, IsFoundInBeginning, NoneAreEnough, whole_lines};
ghost use Rattle.csv_records.specs.First.{AreFirst};
ghost use Rattle.csv_records.specs.Longer.{longer_records};
ghost use Rattle.csv_records.specs.Reading.{AreRecordsIn, IsDecodedBy};

use crate::delimiter::shows_delimiter;
use crate::encoding::{Encoding, decoded, encoding_of};
use crate::error::{DecodeError, RecordsError};
use crate::lines::below_lines;
use crate::options::InputOptions;
use crate::reading::read_first_records;
use crate::records::FirstRecords;
use memchr::{memchr_iter, memrchr};
use std::alloc::{AllocError, Global};

const LINE_FEED: u8 = b'\n';

/// Reads the first `most` records of an input from its beginning `read`, and counts all records in
/// this beginning.
///
/// Only the complete lines of `read` are used. `None` means that these lines aren't enough, and
/// that more of the input has to be read. Lines aren't enough if they have at most `most` records,
/// end inside quotes or don't show the delimiter of the input. Lines that can't be decoded or split
/// into records aren't enough either. The result is always `None` for UTF-16, for
/// `Delimiter::Spaces`, and for lines that end with carriage returns alone. The only error is that
/// memory runs out.
pub fn read_beginning(
    alloc: Global,
    read: &[u8],
    options: &InputOptions,
    most: usize,
) -> Result<Option<FirstRecords>, AllocError>
    ensures some { IfOk result (λ found.
        IfSome found (IsFoundInBeginning options.now most read.now)) }
    ensures none { IfOk result (λ found.
        IfNone found (NoneAreEnough options.now most read.now)) }
{
    let lines = whole_lines(read);
    // If lines end with line feeds, there are no more records than line feeds.
    if memchr_iter(LINE_FEED, lines).count() <= most
        || encoding_of(options.encoding, lines) == Encoding::Utf16
        || !ends_with_line(below_lines(lines, options.skip))
    {
        return Ok(None);
    }
    let Some(text) = found_text(alloc, lines, options)? else {
        return Ok(None);
    };
    if !shows_delimiter(alloc, text.as_str(), options.delimiter, options.has_quotes)? {
        return Ok(None);
    }
    let Some(first) = found_records(alloc, text.as_str(), options, most)? else {
        return Ok(None);
    };
    if first.count <= most {
        return Ok(None);
    }
    Ok(Some(first))
}

// The text that these bytes are decoded into, or `None` if they can't be decoded. The only error is
// that memory runs out.
fn found_text(
    alloc: Global,
    bytes: &[u8],
    options: &InputOptions,
) -> Result<Option<String>, AllocError>
    ensures some { IfOk result (λ found.
        IfSome found (λ text. IsDecodedBy options.now bytes.now (string_bytes text))) }
    ensures none { IfOk result (λ found. IfNone found
        ((text : List ℕ) → ¬ (IsDecodedBy options.now bytes.now text))) }
{
    match decoded(alloc, Vec::from_slice(alloc, bytes)?, options) {
        Ok(text) => Ok(Some(text)),
        Err(DecodeError::OutOfMemory) => Err(AllocError),
        Err(DecodeError::NotText(_)) => Ok(None),
        Err(DecodeError::NotUtf8 { .. }) => Ok(None),
        Err(DecodeError::NotUtf16(_)) => Ok(None),
    }
}

// The first `most` records of a text. `None` if a quote is never closed, or if the delimiter splits
// a character. The only error is that memory runs out.
fn found_records(
    alloc: Global,
    text: &str,
    options: &InputOptions,
    most: usize,
) -> Result<Option<FirstRecords>, AllocError>
    ensures some { IfOk result (λ found.
        IfSome found (AreFirst (AreRecordsIn options.now text.now) most)) }
    ensures longer { IfOk result (λ found. IfSome found (λ first. first.longer
        ≡ longer_records options.now text.now first.records)) }
    ensures none { IfOk result (λ found. IfNone found
        ((records : List (List (List ℕ))) → ¬ (AreRecordsIn options.now text.now records))) }
{
    match read_first_records(alloc, text, options, most) {
        Ok(first) => Ok(Some(first)),
        Err(RecordsError::OutOfMemory) => Err(AllocError),
        Err(RecordsError::Unclosed(_)) => Ok(None),
        Err(RecordsError::SplitCharacter) => Ok(None),
    }
}

// True if these bytes end with a line feed.
fn ends_with_line(bytes: &[u8]) -> bool
    ensures { IsTrue result ↔ EndsWithLine bytes.now }
{
    match bytes.split_last() {
        Some((last, _)) => *last == LINE_FEED,
        None => false,
    }
}

// The bytes that were read, up to their last line feed and including it; none without a line feed.
fn whole_lines(read: &[u8]) -> &[u8]
    ensures { result.now ≡ whole_lines read.now }
{
    let end = match memrchr(LINE_FEED, read) {
        Some(at) => at + 1,
        None => 0,
    };
    read.split_at(end).0
}
