//! Reads a field as a number: whether it is one, and which fraction it has with each decimal mark.

ghost use Rattle.std.specs.Prelude.{◌≡◌, ◌<◌, ◌||◌, IfSome, length, true};
ghost use Rattle.std.specs.Char.{is_ascii_digit};
ghost use Rattle.std.specs.List.{list_all, prefix_len};
ghost use Rattle.csv_records.specs.Decimals.{fraction_len, fraction_of, number_of, number_with};
ghost use Rattle.csv_records.specs.Number.{halves, is_figure, is_inner, is_number, is_scientific, is_written, unsigned};

use crate::number::{
    is_decimal, is_digits, is_fraction, is_inner, is_name, is_scientific, may_be_around, parts_of,
    position_of, trimmed,
};
use comfy_parts::content_split::are_digits;

/// Facts about a field as a number, as `number_in` finds them.
#[derive(Clone, Copy, Debug)]
pub struct FieldNumber {
    /// True if the field is a number: the function `is_number` returns true for the field.
    pub is_number: bool,
    /// True if the field is a number, and this number has no exponent.
    pub is_decimal: bool,
    /// True if each character of the field is an ASCII digit, `.`, `,`, `-` or `+`.
    pub is_bare: bool,
    /// The fraction that the field has if the point is the decimal mark.
    pub point: Fraction,
    /// The fraction that the field has if the comma is the decimal mark.
    pub comma: Fraction,
}

/// The fraction that a field has if a given character, a point or a comma, is the decimal mark. The
/// *digits* of a field are its part from the first digit, point or comma to the last one.
#[derive(Clone, Copy, Debug)]
pub struct Fraction {
    /// The length of the fraction in bytes: from the first decimal mark to the end of the digits,
    /// including the mark. 0 if the digits don't have this mark.
    pub len: usize,
    /// True if the digits can be read with the decimal mark. Digits without the mark can always be
    /// read. `1.234.567` can't be read with the point.
    pub is_readable: bool,
}

// The fraction of digits that don't have the mark.
const NO_FRACTION: Fraction = Fraction {
    len: 0,
    is_readable: true,
};

/// Returns true if a field is a number: digits, perhaps with a sign, a decimal mark, groups and an
/// exponent. A currency, `%`, or a unit of sizes or times may be next to the digits. A number
/// without a sign may be in parentheses. Spaces, TABs and line breaks around the field don't count.
/// Digits that begin with `0` and another digit, such as `0042`, are no number. Dates, addresses
/// such as `192.168.100.200`, and versions such as `1.2.3` are no numbers either. Each of these
/// calls returns true:
///
/// ```
/// is_number("-1_000.5e3")
/// is_number("($12,50)")
/// is_number("1.234,56 €")
/// is_number("EUR -5")
/// is_number("4 GiB")
/// ```
pub fn is_number(field: &str) -> bool
    ensures { result ≡ is_number field.now }
{
    let (front, digits, back) = parts_of(trimmed(field));
    may_be_around(front, back) && figure_number(digits, false).is_number
}

/// Reads `field` as a number. The result says whether `field` is a number (`is_number`), and which
/// fraction it has with each decimal mark. A field of digits with at most one decimal mark, perhaps
/// after a sign, is read in one pass.
pub fn number_in(field: &str) -> FieldNumber
    ensures { result ≡ number_of field.now }
{
    if let Some(number) = plain_number(unsigned(field.as_bytes()), true) {
        return number;
    }
    let (front, digits, back) = parts_of(trimmed(field));
    let number = figure_number(digits, are_written(field.as_bytes()));
    let is_number = number.is_number && may_be_around(front, back);
    FieldNumber {
        is_number,
        is_decimal: number.is_decimal && is_number,
        ..number
    }
}

// The bytes without a sign of ASCII, `-` or `+`, at their start.
fn unsigned(bytes: &[u8]) -> &[u8]
    ensures { result.now ≡ unsigned bytes.now }
{
    match bytes {
        [b'-' | b'+', rest @ ..] => rest,
        _ => bytes,
    }
}

// True if all bytes are digits, decimal marks or signs of ASCII. True for no bytes.
fn are_written(bytes: &[u8]) -> bool
    ensures { result ≡ list_all is_written bytes.now }
{
    bytes.iter().all(|byte| is_written(*byte))
}

fn is_written(byte: u8) -> bool
    ensures { result ≡ is_written byte }
{
    is_inner(byte) || matches!(byte, b'-' | b'+')
}

// Reads digits with their marks as a number. `digits` has no sign, no currency and no unit.
fn figure_number(digits: &str, is_bare: bool) -> FieldNumber
    ensures { result ≡ number_with (is_figure digits.now) is_bare digits.now }
{
    match plain_number(digits.as_bytes(), is_bare) {
        Some(number) => number,
        None => marked_number(digits, is_bare),
    }
}

// Reads digits, perhaps none, with at most one decimal mark as a number. `None` for any other text,
// and for a mark alone.
fn plain_number(digits: &[u8], is_bare: bool) -> Option<FieldNumber>
    ensures value { IfSome result (λ number. number
        ≡ number_with (is_figure digits.now) is_bare digits.now) }
    ensures bare { IfSome result (λ _. list_all is_inner digits.now ≡ true) }
{
    let is_number = !digits.is_empty() && !is_name(digits);
    let (_, rest) = digits.split_at(digit_count(digits));
    match rest {
        [] => Some(decimal_number(is_number, is_bare, NO_FRACTION, NO_FRACTION)),
        [b'.', after @ ..] if digits.len() > 1 && are_digits(after) => {
            Some(decimal_number(is_number, is_bare, read_fraction(rest), NO_FRACTION))
        }
        [b',', after @ ..] if digits.len() > 1 && are_digits(after) => {
            Some(decimal_number(is_number, is_bare, NO_FRACTION, read_fraction(rest)))
        }
        _ => None,
    }
}

// The number of digits at the start of the bytes.
fn digit_count(bytes: &[u8]) -> usize
    ensures { result ≡ prefix_len is_ascii_digit bytes.now }
{
    let mut count = 0;
    while count < bytes.len() && bytes[count].is_ascii_digit() {
        count += 1;
    }
    count
}

// The fraction of digits that end with `rest`: a decimal mark, and the digits after it.
fn read_fraction(rest: &[u8]) -> Fraction
    ensures { result ≡ record { len = length rest.now; is_readable = true } }
{
    Fraction {
        len: rest.len(),
        is_readable: true,
    }
}

// The result for digits that are no number, or a number without an exponent.
fn decimal_number(is_number: bool, is_bare: bool, point: Fraction, comma: Fraction) -> FieldNumber
    ensures { result ≡ record {
      is_number = is_number;
      is_decimal = is_number;
      is_bare = is_bare;
      point = point;
      comma = comma;
    } }
{
    FieldNumber {
        is_number,
        is_decimal: is_number,
        is_bare,
        point,
        comma,
    }
}

// Reads digits with any number of marks, and perhaps an exponent, as a number.
fn marked_number(digits: &str, is_bare: bool) -> FieldNumber
    ensures { result ≡ number_with (is_figure digits.now) is_bare digits.now }
{
    let is_figure = !is_name(digits.as_bytes());
    let is_decimal = is_figure && is_decimal(digits);
    FieldNumber {
        is_number: is_decimal || is_figure && has_exponent(digits),
        is_decimal,
        is_bare,
        point: fraction_in(digits, b'.'),
        comma: fraction_in(digits, b','),
    }
}

// True if a text is a decimal with an exponent.
fn has_exponent(text: &str) -> bool
    ensures { result ≡ is_scientific (halves 0x65 text.now)
        || is_scientific (halves 0x45 text.now) }
{
    is_scientific(text, 'e') || is_scientific(text, 'E')
}

// The fraction that digits have if `mark` is the decimal mark.
fn fraction_in(digits: &str, mark: u8) -> Fraction
    requires { mark < 128 }
    ensures { result ≡ fraction_of (halves mark digits.now) }
{
    let len = fraction_len(digits, mark);
    Fraction {
        len,
        is_readable: len == 0 || is_fraction(digits, mark),
    }
}

// The number of bytes from the first `mark` to the end of the digits: the mark, and the digits of
// the fraction. 0 if the digits don't have the mark.
pub(crate) fn fraction_len(digits: &str, mark: u8) -> usize
    ensures { result ≡ fraction_len (halves mark digits.now) }
{
    match position_of(digits.as_bytes(), mark) {
        Some(at) => digits.len() - at,
        None => 0,
    }
}
