//! Finds the delimiter between the fields of a text.

ghost use Rattle.std.specs.Prelude.{◌≡◌, ◌==◌, IfOk, option_map};
ghost use Rattle.std.specs.List.{count_by, list_all};
ghost use Rattle.csv_records.specs.Delimiter.{IsAsciiUnlessSet, agreement, delimited, delimiter_in, found_delimiter, has_first_records, named_delimiter, only_ascii, shows_delimiter, tried_delimiters};
ghost use Rattle.csv_records.specs.Lines.{EndsIn};

use crate::counting::field_counts;
use crate::lines::split_line;
use crate::text::without_utf8_mark;
use std::alloc::{AllocError, Global};

/// The delimiter between the fields of a record, or the rule that finds this delimiter.
#[derive(Clone, Copy, Debug)]
pub enum Delimiter {
    /// The delimiter is this byte.
    Byte(u8),
    /// The delimiter is X if the first line is `sep=X`. Otherwise TAB, `;`, `,` and `|` are tried.
    /// The count for each is how many of the first ten records have the same number of fields, at
    /// least two. The delimiter is the first with the highest count, or a comma if all counts are
    /// 0.
    Auto,
    /// The delimiter is X if the first line is `sep=X`, and otherwise TAB.
    NamedOrTab,
    /// Runs of spaces and TABs separate fields, as in the output of `df -h` and `ps aux`. White
    /// space at the ends of a line is ignored, and quotes are ordinary characters. The last column
    /// takes the rest of a line. Fields may have single spaces if all are below the names of the
    /// first line, as in the output of `docker ps`.
    Spaces,
}

/// The byte between the fields of a text, and the part of the text that has its records. This part
/// is the whole text, or the text after a first line `sep=X`.
///
/// A line `sep=X` is looked for with `Auto` and `NamedOrTab`, also after a byte-order mark. X is
/// one ASCII character other than a double quote and a line end. The letters of `sep` may be
/// capitals.
///
/// `Auto` tries TAB, `;`, `,` and `|`. For each of them it counts how many of the first ten records
/// have the same number of fields, at least two. The byte is the first with the highest count, or a
/// comma if all counts are 0. For `Spaces` the byte is TAB. The only error is that memory runs out.
pub(crate) fn delimited<'a>(
    alloc: Global,
    text: &'a str,
    delimiter: Delimiter,
    has_quotes: bool,
) -> Result<(u8, &'a str), AllocError>
    ensures byte { IfOk result (λ parts. parts.0 ≡ (delimited delimiter has_quotes text.now).0) }
    ensures records { IfOk result (λ parts. parts.1.now
        ≡ (delimited delimiter has_quotes text.now).1) }
    ensures end { IfOk result (λ parts. EndsIn text.now parts.1.now) }
    ensures ascii { IfOk result (λ parts. IsAsciiUnlessSet delimiter parts.0) }
{
    match delimiter {
        Delimiter::Byte(byte) => Ok((byte, text)),
        Delimiter::Auto => match named_delimiter(text) {
            Some(parts) => Ok(parts),
            None => Ok((found_delimiter(alloc, text, has_quotes)?, text)),
        },
        Delimiter::NamedOrTab => match named_delimiter(text) {
            Some(parts) => Ok(parts),
            None => Ok((b'\t', text)),
        },
        // The text has TABs between its fields by then.
        Delimiter::Spaces => Ok((b'\t', text)),
    }
}

/// Returns true if the complete lines `text` at the beginning of an input show its delimiter,
/// whatever follows. The result is true for a `Byte` other than a line feed, and for `NamedOrTab`.
/// For `Auto` the result is true if the first line names the delimiter, or if `text` has more than
/// ten records with each delimiter that is tried. For `Spaces` the result is false, because such an
/// input is read whole.
pub(crate) fn shows_delimiter(
    alloc: Global,
    text: &str,
    delimiter: Delimiter,
    has_quotes: bool,
) -> Result<bool, AllocError>
    ensures { IfOk result (λ is. is ≡ shows_delimiter delimiter has_quotes text.now) }
{
    match delimiter {
        Delimiter::Auto if named_delimiter(text).is_none() => {
            each_has_first_records(alloc, text, has_quotes)
        }
        Delimiter::Byte(byte) => Ok(byte != b'\n'),
        Delimiter::Auto | Delimiter::NamedOrTab => Ok(true),
        Delimiter::Spaces => Ok(false),
    }
}

// The delimiter that the first line of a text names, and the text after this line. `None` if the
// first line isn't `sep=X`.
fn named_delimiter(text: &str) -> Option<(u8, &str)>
    ensures { option_map (λ parts. (parts.0, parts.1.now)) result ≡ named_delimiter text.now }
{
    let (line, below) = split_line(without_utf8_mark(text));
    Some((delimiter_in(line.as_bytes())?, below))
}

// The word before a delimiter that a line names, in letters of either case.
const NAMING_WORD: &[u8] = b"sep=";

// The delimiter that a line names, or `None` if the line isn't `sep=X`.
fn delimiter_in(line: &[u8]) -> Option<u8>
    ensures { result ≡ delimiter_in line.now }
{
    let (word, name) = line.split_at_checked(NAMING_WORD.len())?;
    if word.eq_ignore_ascii_case(NAMING_WORD) {
        only_ascii(name)
    } else {
        None
    }
}

/// The only byte of `word`, if this byte may separate fields. `None` if the word is empty or has
/// several bytes, or if its byte is a double quote, a line feed, a carriage return or not ASCII.
pub fn only_ascii(word: &[u8]) -> Option<u8>
    ensures { result ≡ only_ascii word.now }
{
    match word {
        [b'"' | b'\n' | b'\r' | 0x80..] => None,
        [byte] => Some(*byte),
        _ => None,
    }
}

// The delimiters that are tried, in this order.
const TRIED: [u8; 4] = [b'\t', b';', b',', b'|'];

// The number of first records whose numbers of fields are compared.
const FIRST_RECORDS: usize = 10;

// The first of the `TRIED` delimiters with which the most of the first records have the same number
// of fields, at least two. A comma if there are no such records.
fn found_delimiter(alloc: Global, text: &str, has_quotes: bool) -> Result<u8, AllocError>
    ensures { IfOk result (λ delimiter. delimiter ≡ found_delimiter has_quotes text.now) }
{
    let mut found = b',';
    let mut most = 0;
    for delimiter in TRIED {
        let counts = field_counts(alloc, text, has_quotes, delimiter, FIRST_RECORDS)?;
        let agreement = agreement(counts.as_slice());
        if agreement > most {
            found = delimiter;
            most = agreement;
        }
    }
    Ok(found)
}

// The number of records that have the most common number of fields above 1. `counts` are the
// numbers of fields of the records.
fn agreement(counts: &[usize]) -> usize
    ensures { result ≡ agreement counts.now }
{
    let mut most_alike = 0;
    for count in counts {
        if *count > 1 {
            most_alike = most_alike.max(alike(counts, *count));
        }
    }
    most_alike
}

// The number of elements that are equal to `wanted`.
fn alike(counts: &[usize], wanted: usize) -> usize
    ensures { result ≡ count_by (λ n. n == wanted) counts.now }
{
    counts.iter().filter(|count| **count == wanted).count()
}

// True if a text has more than `FIRST_RECORDS` records with each delimiter that is tried.
fn each_has_first_records(alloc: Global, text: &str, has_quotes: bool) -> Result<bool, AllocError>
    ensures { IfOk result (λ is. is
        ≡ list_all (has_first_records has_quotes text.now) tried_delimiters) }
{
    for delimiter in TRIED {
        let counts = field_counts(alloc, text, has_quotes, delimiter, FIRST_RECORDS + 1)?;
        if counts.len() != FIRST_RECORDS + 1 {
            return Ok(false);
        }
    }
    Ok(true)
}
