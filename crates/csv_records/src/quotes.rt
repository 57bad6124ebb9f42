//! Finds a quote that opens a field and is never closed.

ghost use Rattle.std.specs.Prelude.{◌≡◌, ◌≢◌, ◌<◌, ◌≤◌, ℕ, IfNone, IfSome, drop, length, take};
ghost use Rattle.csv.specs.Reading.{strip_bom};
ghost use Rattle.csv.specs.declared.parser.State.TheVariants.{InQuoted};
ghost use Rattle.csv_records.specs.QuoteWalk.{ClosesAt, StaysQuoted, ends_field, is_opening};
ghost use Rattle.csv_records.specs.Quotes.{IsUnclosed, state_after};

use crate::counting::ends_line;
use crate::text::without_utf8_mark;
use memchr::memchr;

const QUOTE: u8 = b'"';

/// The index, in bytes, of the quote that opens a field and is never closed. `None` if the reader
/// of the crate `csv` isn't within quotes at the end of the text. A byte-order mark at the start of
/// the text is skipped, as by that reader.
pub(crate) fn unclosed_quote(text: &str, delimiter: u8) -> Option<usize>
    ensures some { IfSome result (λ at.
        IsUnclosed delimiter (strip_bom text.now) (drop at text.now)) }
    ensures none { IfNone result (state_after delimiter (strip_bom text.now) ≢ InQuoted) }
{
    let unmarked = without_utf8_mark(text).as_bytes();
    let at = unclosed_in(unmarked, delimiter)?;
    Some(text.len() - unmarked.len() + at)
}

// The index of the quote that opens a field and is never closed in these bytes. The search goes
// from quote to quote, because other bytes neither open nor close quotes.
fn unclosed_in(bytes: &[u8], delimiter: u8) -> Option<usize>
    ensures some { IfSome result (λ at. IsUnclosed delimiter bytes.now (drop at bytes.now)) }
    ensures within { IfSome result (λ at. at < length bytes.now) }
    ensures none { IfNone result (state_after delimiter bytes.now ≢ InQuoted) }
{
    let mut at = 0;
    'quotes: while let Some(ahead) = memchr(QUOTE, &bytes[at..]) {
        let quote = at + ahead;
        at = if is_opening(bytes, quote, delimiter) {
            let Some(end) = closing_end(bytes, quote + 1) else {
                return Some(quote);
            };
            end
        } else {
            quote + 1
        };
    }
    None
}

// True if a quote at the index `at`, outside quotes, opens a field.
fn is_opening(bytes: &[u8], at: usize, delimiter: u8) -> bool
    requires within { at ≤ length bytes.now }
    ensures { result ≡ is_opening delimiter bytes.now at }
{
    at == 0 || ends_field(bytes[at - 1], delimiter)
}

// True if a byte outside quotes ends a field or a record.
fn ends_field(byte: u8, delimiter: u8) -> bool
    ensures { result ≡ ends_field delimiter byte }
{
    byte == delimiter || ends_line(byte)
}

// The index after the quote that closes quotes which opened before `from`, or `None` if they are
// never closed. Two quotes in a row are one quote of the field.
fn closing_end(bytes: &[u8], from: usize) -> Option<usize>
    requires within { from ≤ length bytes.now }
    ensures some { IfSome result (λ at. (delimiter : ℕ)
        → state_after delimiter (take from bytes.now) ≡ InQuoted
        → ClosesAt delimiter bytes.now at) }
    ensures later { IfSome result (λ at. from < at) }
    ensures inside { IfSome result (λ at. at ≤ length bytes.now) }
    ensures none { IfNone result ((delimiter : ℕ)
        → state_after delimiter (take from bytes.now) ≡ InQuoted
        → StaysQuoted delimiter bytes.now from (length bytes.now)) }
{
    let mut at = from;
    'quotes: while let Some(ahead) = memchr(QUOTE, &bytes[at..]) {
        let after = at + ahead + 1;
        if after == bytes.len() || bytes[after] != QUOTE {
            return Some(after);
        }
        at = after + 1;
    }
    None
}
