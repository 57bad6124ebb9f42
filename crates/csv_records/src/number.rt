//! Recognises fields that are numbers, and neutral fields, such as `n/a`. The *figure* of a field
//! is the part from its first digit or decimal mark to its last one.

ghost use Rattle.std.specs.Prelude.{◌≡◌, ◌∷◌, ◌++◌, ◌-◌, ◌<◌, ◌==◌, ◌&&◌, ◌||◌, ℕ, Bool, [], IfNone, IfSome, bytes_eq, chars, encode_utf8, length, not};
ghost use Rattle.std.specs.List.{list_any, position, prefix_len, suffix_len};
ghost use Rattle.std.specs.Char.{is_ascii_digit, is_ascii_uppercase};
ghost use Rattle.std.specs.Str.{IsCharBoundary};
ghost use Rattle.csv_records.specs.Number.{are_parted_digits, back_of, before, begins, ends, figure_of, from_other, front_of, group_marks, halves, has_groups, has_groups_before, has_indian_groups, is_address, is_amount, is_bare_neutral, is_bare_number, is_blank, is_code, is_currency, is_dash, is_decimal, is_digits, is_enclosed, is_end, is_exponent, is_figure, is_fraction, is_group_len, is_grouped, is_inner, is_missing, is_money, is_name, is_neutral, is_number, is_octet, is_one, is_outer, is_scientific, is_sign, is_signed, is_signed_later, is_size, is_space, is_time, is_unit, is_word, to_other, trimmed, without_first, without_last, without_leading, without_leading_spaces, without_trailing_spaces};

use crate::characters::split_first;
use crate::digits::parse_digits;
use comfy_parts::content_split::are_digits;
use ucd_category::GeneralCategory;

// The characters that separate groups of digits.
const GROUP_MARKS: [char; 7] = [',', '.', '_', '\'', ' ', '\u{a0}', '\u{202f}'];

// The units of time.
const TIMES: [&str; 9] = [
    "ns", "us", "\u{b5}s", "\u{3bc}s", "ms", "s", "min", "h", "d",
];

// Names of currencies that are neither a currency character nor a code.
const CURRENCY_NAMES: [&str; 2] = ["R$", "kr"];

// Texts without a letter or a digit for a missing value.
const DASHES: [&str; 4] = ["-", "..", "\u{2013}", "\u{2014}"];

// The codes of ISO 4217 of currencies in use.
const CURRENCY_CODES: [&str; 161] = [
    "AED", "AFN", "ALL", "AMD", "ANG", "AOA", "ARS", "AUD", "AWG", "AZN", "BAM", "BBD", "BDT",
    "BGN", "BHD", "BIF", "BMD", "BND", "BOB", "BRL", "BSD", "BTN", "BWP", "BYN", "BZD", "CAD",
    "CDF", "CHF", "CLP", "CNY", "COP", "CRC", "CUC", "CUP", "CVE", "CZK", "DJF", "DKK", "DOP",
    "DZD", "EGP", "ERN", "ETB", "EUR", "FJD", "FKP", "GBP", "GEL", "GHS", "GIP", "GMD", "GNF",
    "GTQ", "GYD", "HKD", "HNL", "HRK", "HTG", "HUF", "IDR", "ILS", "INR", "IQD", "IRR", "ISK",
    "JMD", "JOD", "JPY", "KES", "KGS", "KHR", "KMF", "KPW", "KRW", "KWD", "KYD", "KZT", "LAK",
    "LBP", "LKR", "LRD", "LSL", "LYD", "MAD", "MDL", "MGA", "MKD", "MMK", "MNT", "MOP", "MRU",
    "MUR", "MVR", "MWK", "MXN", "MYR", "MZN", "NAD", "NGN", "NIO", "NOK", "NPR", "NZD", "OMR",
    "PAB", "PEN", "PGK", "PHP", "PKR", "PLN", "PYG", "QAR", "RON", "RSD", "RUB", "RWF", "SAR",
    "SBD", "SCR", "SDG", "SEK", "SGD", "SHP", "SLE", "SLL", "SOS", "SRD", "SSP", "STN", "SVC",
    "SYP", "SZL", "THB", "TJS", "TMT", "TND", "TOP", "TRY", "TTD", "TWD", "TZS", "UAH", "UGX",
    "USD", "UYU", "UZS", "VED", "VES", "VND", "VUV", "WST", "XAF", "XCD", "XCG", "XOF", "XPF",
    "YER", "ZAR", "ZMW", "ZWG", "ZWL",
];

// True if `front` and `back` may be the texts before and after the figure of a number.
pub(crate) fn may_be_around(front: &str, back: &str) -> bool
    ensures { result ≡ is_signed front.now back.now || is_enclosed front.now back.now }
{
    is_signed(front, back) || is_enclosed(front, back)
}

// A field without spaces around it.
pub(crate) fn trimmed(field: &str) -> &str
    ensures { result.now ≡ trimmed field.now }
{
    without_trailing_spaces(without_leading_spaces(field))
}

fn without_leading_spaces(text: &str) -> &str
    ensures { result.now ≡ without_leading_spaces text.now }
{
    let mut rest = text;
    'spaces: while let Some((c, after)) = split_first(rest) {
        if !is_space(c) {
            return rest;
        }
        rest = after;
    }
    rest
}

fn without_trailing_spaces(text: &str) -> &str
    ensures { result.now ≡ without_trailing_spaces text.now }
{
    let mut rest = text;
    'spaces: while let Some((before, c)) = split_last(rest) {
        if !is_space(c) {
            return rest;
        }
        rest = before;
    }
    rest
}

// The texts before the figure of a field, of the figure, and after it.
pub(crate) fn parts_of(text: &str) -> (&str, &str, &str)
    ensures front { result.0.now ≡ front_of text.now }
    ensures figure { result.1.now ≡ figure_of text.now }
    ensures back { result.2.now ≡ back_of text.now }
{
    let (front, rest) = text.split_at(figure_start(text));
    let (figure, back) = rest.split_at(figure_end(rest));
    (front, figure, back)
}

// The index of the first digit or decimal mark, or the length of the text if there is none.
fn figure_start(text: &str) -> usize
    ensures value { result ≡ prefix_len is_outer text.now }
    ensures boundary { IsCharBoundary text.now result }
{
    first_inner(text.as_bytes()).unwrap_or(text.len())
}

fn first_inner(bytes: &[u8]) -> Option<usize>
    ensures value { result ≡ position is_inner bytes.now }
    ensures inside { IfSome result (λ at. at < length bytes.now) }
{
    bytes.iter().position(|byte| is_inner(*byte))
}

// The index after the last digit or decimal mark, or 0 if there is none.
fn figure_end(text: &str) -> usize
    ensures value { result ≡ length text.now - suffix_len is_outer text.now }
    ensures boundary { IsCharBoundary text.now result }
{
    let bytes = text.as_bytes();
    let mut end = bytes.len();
    while end > 0 && !is_inner(bytes[end - 1]) {
        end -= 1;
    }
    end
}

// True for a digit or a decimal mark.
pub(crate) fn is_inner(byte: u8) -> bool
    ensures { result ≡ is_inner byte }
{
    byte.is_ascii_digit() || byte == b'.' || byte == b','
}

// True if `front` and `back` may be around a figure without parentheses, with a sign or without.
fn is_signed(front: &str, back: &str) -> bool
    ensures { result ≡ is_signed front.now back.now }
{
    match split_first(front) {
        Some((c, rest)) if is_sign(c) => is_amount(rest, back),
        _ => is_signed_later(front, back),
    }
}

// True if `front` and `back` may be around a figure without a sign at the start. The sign may be
// directly before or after the figure.
fn is_signed_later(front: &str, back: &str) -> bool
    ensures { result ≡ is_signed_later front.now back.now }
{
    match split_first(back) {
        Some((c, rest)) if c == '-' => is_amount(front, rest),
        _ => is_amount(before_sign(front), back),
    }
}

// True if `front` and `back` may be around a figure in parentheses.
fn is_enclosed(front: &str, back: &str) -> bool
    ensures { result ≡ is_enclosed front.now back.now }
{
    begins_with_parenthesis(front)
        && ends_with_parenthesis(back)
        && is_amount(without_first(front), without_last(back))
}

fn begins_with_parenthesis(text: &str) -> bool
    ensures { result ≡ begins (λ c. c == 0x28) (chars text.now) }
{
    matches!(split_first(text), Some(('(', _)))
}

fn ends_with_parenthesis(text: &str) -> bool
    ensures { result ≡ ends (λ c. c == 0x29) (chars text.now) }
{
    matches!(split_last(text), Some((_, ')')))
}

// True for a currency before the figure, or a unit after it, or neither.
fn is_amount(front: &str, back: &str) -> bool
    ensures { result ≡ is_amount front.now back.now }
{
    if front.is_empty() {
        is_end(back)
    } else {
        back.is_empty() && is_money(before_blank(front))
    }
}

// True for a text that may follow a figure: nothing, or a unit, also after a blank.
fn is_end(back: &str) -> bool
    ensures { result ≡ is_end back.now }
{
    back.is_empty() || is_unit(without_blank(back))
}

// True for a unit: percent, a size, a time or a currency.
fn is_unit(text: &str) -> bool
    ensures { result ≡ is_unit text.now }
{
    text == "%" || is_size(text.as_bytes()) || is_time(text) || is_money(text)
}

// True for a unit of sizes: a byte, or a multiple of it.
fn is_size(bytes: &[u8]) -> bool
    ensures { result ≡ is_size bytes.now }
{
    match bytes {
        [b'B'] => true,
        [b'k' | b'K' | b'M' | b'G' | b'T' | b'P' | b'E', rest @ ..] => {
            matches!(rest, [] | [b'B'] | [b'i'] | [b'i', b'B'])
        }
        _ => false,
    }
}

// True for a unit of time. U+00B5 and U+03BC are both in use as the letter for millionths.
fn is_time(text: &str) -> bool
    ensures { result ≡ is_time text.now }
{
    is_among(&TIMES, text)
}

// True for a currency: its character, its code or its name.
fn is_money(text: &str) -> bool
    ensures { result ≡ is_money text.now }
{
    is_currency_character(text) || is_code(text) || is_among(&CURRENCY_NAMES, text)
}

fn is_currency_character(text: &str) -> bool
    ensures { result ≡ is_one is_currency (chars text.now) }
{
    match split_first(text) {
        Some((c, "")) => is_currency(c),
        _ => false,
    }
}

// True for the code of a currency. Its length and its first letter are tested first, because this
// test is faster for most other texts.
fn is_code(text: &str) -> bool
    ensures { result ≡ is_code text.now }
{
    text.len() == 3 && begins_with_capital(text.as_bytes()) && is_among(&CURRENCY_CODES, text)
}

fn before_sign(text: &str) -> &str
    ensures { result.now ≡ before is_sign text.now }
{
    match split_last(text) {
        Some((rest, c)) if is_sign(c) => rest,
        _ => text,
    }
}

fn without_sign(text: &str) -> &str
    ensures { result.now ≡ without_leading is_sign text.now }
{
    match split_first(text) {
        Some((c, rest)) if is_sign(c) => rest,
        _ => text,
    }
}

fn without_blank(text: &str) -> &str
    ensures { result.now ≡ without_leading is_blank text.now }
{
    match split_first(text) {
        Some((c, rest)) if is_blank(c) => rest,
        _ => text,
    }
}

fn before_blank(text: &str) -> &str
    ensures { result.now ≡ before is_blank text.now }
{
    match split_last(text) {
        Some((rest, c)) if is_blank(c) => rest,
        _ => text,
    }
}

fn without_first(text: &str) -> &str
    ensures { result.now ≡ without_first text.now }
{
    match split_first(text) {
        Some((_, rest)) => rest,
        None => text,
    }
}

fn without_last(text: &str) -> &str
    ensures { result.now ≡ without_last text.now }
{
    match split_last(text) {
        Some((rest, _)) => rest,
        None => text,
    }
}

// The last character of a text, and the text before it. `None` if the text is empty.
pub(crate) fn split_last(text: &str) -> Option<(&str, char)>
    ensures some { IfSome result (λ parts. text.now ≡ parts.0.now ++ encode_utf8 parts.1) }
    ensures characters { IfSome result (λ parts.
        chars text.now ≡ chars parts.0.now ++ parts.1 ∷ []) }
    ensures last { IfSome result (λ parts. (p : ℕ → Bool) → ends p (chars text.now) ≡ p parts.1) }
    ensures rest { IfSome result (λ parts. parts.0.now ≡ without_last text.now) }
    ensures shorter { IfSome result (λ parts. length parts.0.now < length text.now) }
    ensures none { IfNone result (chars text.now ≡ []) }
    ensures empty { IfNone result (text.now ≡ []) }
{
    let mut characters = text.chars();
    let c = characters.next_back()?;
    Some((characters.as_str(), c))
}

fn is_sign(c: char) -> bool
    ensures { result ≡ is_sign c }
{
    matches!(c, '-' | '+' | '\u{2212}')
}

fn is_blank(c: char) -> bool
    ensures { result ≡ is_blank c }
{
    matches!(c, ' ' | '\u{a0}' | '\u{202f}')
}

// True for a space that may be around a field.
fn is_space(c: char) -> bool
    ensures { result ≡ is_space c }
{
    is_blank(c) || matches!(c, '\t' | '\n' | '\r')
}

// True for a currency character. In ASCII only the dollar is one, and this test is faster.
fn is_currency(c: char) -> bool
    ensures { result ≡ is_currency c }
{
    if c.is_ascii() {
        c == '$'
    } else {
        GeneralCategory::for_char(c) == GeneralCategory::CurrencySymbol
    }
}

// True if a text begins with `0` and another digit, as the name `0042` does.
pub(crate) fn is_name(bytes: &[u8]) -> bool
    ensures { result ≡ is_name bytes.now }
{
    match bytes {
        [b'0', second, ..] => second.is_ascii_digit(),
        _ => false,
    }
}

// True for a decimal, and an exponent after a letter.
pub(crate) fn is_scientific(text: &str, letter: char) -> bool
    requires { letter < 128 }
    ensures { result ≡ is_scientific (halves letter text.now) }
{
    match text.split_once(letter) {
        Some((decimal, exponent)) => is_decimal(decimal) && is_exponent(exponent),
        None => false,
    }
}

// True for digits after a sign, or without one.
fn is_exponent(text: &str) -> bool
    ensures { result ≡ is_exponent text.now }
{
    is_digits(without_sign(text).as_bytes())
}

// True for a number without a sign, an exponent and a unit.
pub(crate) fn is_decimal(text: &str) -> bool
    ensures { result ≡ is_decimal text.now }
{
    is_digits(text.as_bytes())
        || is_fraction(text, b'.')
        || is_fraction(text, b',')
        || has_groups(text) && !is_address(text)
}

// True for digits after a decimal mark, and digits or groups before it. There may be no digits on
// one side of the mark.
pub(crate) fn is_fraction(text: &str, mark: u8) -> bool
    requires { mark < 128 }
    ensures { result ≡ is_fraction (halves mark text.now) }
{
    let bytes = text.as_bytes();
    match position_of(bytes, mark) {
        Some(at) => {
            let (whole, rest) = (&bytes[..at], &bytes[at + 1..]);
            are_digits(rest) && (are_parted_digits(whole, rest) || has_groups_before(text, mark))
        }
        None => false,
    }
}

// The index of the first byte that is equal to `mark`.
pub(crate) fn position_of(bytes: &[u8], mark: u8) -> Option<usize>
    ensures value { result ≡ position (λ b. b == mark) bytes.now }
    ensures inside { IfSome result (λ at. at < length bytes.now) }
{
    bytes.iter().position(|byte| *byte == mark)
}

fn are_parted_digits(whole: &[u8], rest: &[u8]) -> bool
    ensures { result ≡ are_parted_digits whole.now rest.now }
{
    are_digits(whole) && !(whole.is_empty() && rest.is_empty())
}

// True for groups of digits before a mark.
fn has_groups_before(text: &str, mark: u8) -> bool
    requires { mark < 128 }
    ensures { result ≡ has_groups_before (halves mark text.now) }
{
    match text.split_once(mark as char) {
        Some((whole, _)) => has_groups(whole),
        None => false,
    }
}

// True for four numbers of at most 255, separated by points.
fn is_address(text: &str) -> bool
    ensures { result ≡ is_address text.now }
{
    text.split('.').count() == 4 && text.split('.').all(|group| is_octet(group))
}

fn is_octet(text: &str) -> bool
    ensures { result ≡ is_octet text.now }
{
    match parse_digits(text) {
        Some(number) => number <= 255,
        None => false,
    }
}

pub(crate) fn has_groups(text: &str) -> bool
    ensures { result ≡ has_groups text.now }
{
    has_groups_of_three(text) || has_indian_groups(text)
}

fn has_groups_of_three(text: &str) -> bool
    ensures { result ≡ list_any (λ mark. is_grouped 3 mark text.now) group_marks }
{
    GROUP_MARKS.iter().any(|mark| is_grouped(text, 3, *mark))
}

// True for digits with commas as in India: all digits except the last are in groups of two.
#[tactic(auto, unfolding(crate::specs::Number::has_indian_groups))]
fn has_indian_groups(text: &str) -> bool
    ensures { result ≡ has_indian_groups text.now }
{
    match split_last(text) {
        Some((rest, c)) => c.is_ascii_digit() && is_grouped(rest, 2, ','),
        None => false,
    }
}

// True for digits in groups of a size that are separated by a character. The first group may be
// smaller.
fn is_grouped(text: &str, size: usize, mark: char) -> bool
    ensures { result ≡ is_grouped size mark text.now }
{
    let mut is_first = true;
    let mut count = 0;
    for c in text.chars() {
        if c == mark {
            if !is_group_len(size, is_first, count) {
                return false;
            }
            is_first = false;
            count = 0;
        } else if c.is_ascii_digit() && count < size {
            count += 1;
        } else {
            return false;
        }
    }
    is_group_len(size, is_first, count)
}

// True if a group of a size may have this many digits.
fn is_group_len(size: usize, is_first: bool, count: usize) -> bool
    ensures { result ≡ is_group_len size is_first count }
{
    if is_first {
        count > 0 && count <= size
    } else {
        count == size
    }
}

// True if a text is one of these words.
fn is_among(words: &[&str], text: &str) -> bool
    ensures { result ≡ list_any (λ word. bytes_eq text.now word.now) words.now }
{
    words.iter().any(|word| text == *word)
}

// True if a text begins with a capital letter of ASCII.
fn begins_with_capital(bytes: &[u8]) -> bool
    ensures { result ≡ begins is_ascii_uppercase bytes.now }
{
    match bytes {
        [first, ..] => first.is_ascii_uppercase(),
        _ => false,
    }
}

// True for one digit or more.
pub(crate) fn is_digits(bytes: &[u8]) -> bool
    ensures { result ≡ is_digits bytes.now }
{
    !bytes.is_empty() && are_digits(bytes)
}

/// Returns true if a field is *neutral*, which means that it has no value and doesn't change how
/// its column is aligned. A neutral field is empty, or is `-`, `–`, `—` or `..`, or is a word such
/// as `n/a`, `null` or `nan`. The word may be in capitals and follow a sign. Spaces, TABs and line
/// breaks around the field don't count.
pub fn is_neutral(field: &str) -> bool
    ensures { result ≡ is_neutral field.now }
{
    is_bare_neutral(trimmed(field))
}

pub(crate) fn is_bare_neutral(text: &str) -> bool
    ensures { result ≡ is_bare_neutral text.now }
{
    text.is_empty() || is_dash(text) || is_missing(without_sign(text))
}

// True for `-`, `–`, `—` and `..`.
fn is_dash(text: &str) -> bool
    ensures { result ≡ is_dash text.now }
{
    is_among(&DASHES, text)
}

// True for a word for a missing value.
fn is_missing(text: &str) -> bool
    ensures { result ≡ is_missing text.now }
{
    is_word(text, "n/a")
        || is_word(text, "na")
        || is_word(text, "null")
        || is_word(text, "nan")
        || is_word(text, "inf")
        || is_word(text, "none")
        || is_word(text, "#n/a")
        || is_word(text, "\\n")
        || is_word(text, "(null)")
        || is_word(text, "<null>")
}

// True if a text is this word, in any case of letters.
fn is_word(text: &str, word: &str) -> bool
    ensures { result ≡ is_word word.now text.now }
{
    text.eq_ignore_ascii_case(word)
}
