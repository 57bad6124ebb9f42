//! Finds the decimal mark of a column of numbers, and the spaces after fields that put the decimal
//! marks of the column below each other.

ghost use Rattle.std.specs.Prelude.{◌≡◌, ◌<◌, ◌==◌, ◌&&◌, ◌||◌, ◌∷◌, ◌++◌, ℕ, Bool, List, [], chars, false, max, not, true};
ghost use Rattle.std.specs.Char.{is_ascii_digit};
ghost use Rattle.csv_records.specs.Number.{begins, ends, halves};
ghost use Rattle.csv_records.specs.Decimals.{byte_of, decides, digits_in, fraction_len, fraction_of, has_mark, is_plain, is_readable, marks_of, may_be_whole, number_of, points_for, trailing_spaces, use_with};

use crate::field_number::{FieldNumber, Fraction, fraction_len};
use crate::number::{has_groups, is_bare_neutral, is_neutral, parts_of, split_last, trimmed};

/// The character before the fraction of a number: a point or a comma.
#[derive(Clone, Copy, Debug, PartialEq, Eq)]
pub enum DecimalMark {
    /// The decimal mark is a point, `.`.
    Point,
    /// The decimal mark is a comma, `,`.
    Comma,
}

/// The decimal mark of a column of numbers, and the length of the longest fraction in the column.
/// `trailing_spaces` finds the spaces after fields that put the decimal marks below each other.
#[derive(Clone, Copy, Debug, PartialEq, Eq)]
pub struct Points {
    /// The decimal mark of the numbers in the column.
    pub mark: DecimalMark,
    /// The length of the longest fraction in the column, in characters, including its decimal mark.
    pub longest: usize,
}

/// A summary of the fields of a column for one possible decimal mark, which is a point or a comma.
#[derive(Clone, Copy, Debug)]
pub struct MarkSummary {
    /// True if at least one field needs this mark as its decimal mark, as `1,5` needs the comma.
    /// `1,234` doesn't need the comma, because it can also be a whole number.
    pub is_needed: bool,
    /// True if each field can be read with this mark as its decimal mark. A field without the mark
    /// can always be read. `1.234.567` can't be read with the point.
    pub is_readable: bool,
    /// The length of the longest fraction in bytes, including the mark; 0 if no field has the mark.
    /// If `is_readable` is true, the longest fraction has as many characters as bytes.
    pub longest: usize,
}

/// Facts about the fields of a column. `add` adds a field, and `points` finds the decimal mark of
/// the fields that were added.
#[derive(Clone, Copy, Debug)]
pub struct ColumnMarks {
    /// True if each field is neutral (`is_neutral`), or a number that ends with a digit and has no
    /// exponent.
    pub are_plain: bool,
    /// The summary of the fields for the point as the decimal mark.
    pub point: MarkSummary,
    /// The summary of the fields for the comma as the decimal mark.
    pub comma: MarkSummary,
}

impl DecimalMark {
    fn byte(self) -> u8
        ensures value { result ≡ byte_of self }
        ensures ascii { result < 128 }
    {
        match self {
            DecimalMark::Point => b'.',
            DecimalMark::Comma => b',',
        }
    }
}

impl Points {
    /// The number of spaces to write after the text `field` of the column, so that its decimal mark
    /// is below the other marks if all fields are right-aligned. The number is `longest` minus the
    /// length of the field's fraction, including its mark. A number without the mark gets `longest`
    /// spaces, and a neutral field (`is_neutral`) gets none.
    pub fn trailing_spaces(self, field: &str) -> usize
        ensures { result ≡ trailing_spaces self field.now }
    {
        let text = trimmed(field);
        if is_bare_neutral(text) {
            0
        } else {
            let (_, digits, _) = parts_of(text);
            self.longest
                .saturating_sub(fraction_len(digits, self.mark.byte()))
        }
    }
}

impl MarkSummary {
    fn new() -> MarkSummary
        ensures { result ≡ record { is_needed = false; is_readable = true; longest = 0 } }
    {
        MarkSummary {
            is_needed: false,
            is_readable: true,
            longest: 0,
        }
    }

    // Adds the digits of a field to the summary. Digits without the mark change nothing.
    fn add(&mut self, field: &str, fraction: Fraction, mark: DecimalMark)
        ensures { fraction ≡ fraction_of (halves (byte_of mark) (digits_in field.now))
            → self.new ≡ use_with mark self.old (digits_in field.now) }
    {
        if fraction.len > 0 {
            self.is_needed = self.is_needed || decides(field, fraction);
            self.is_readable = self.is_readable && fraction.is_readable;
            self.longest = self.longest.max(fraction.len);
        }
    }

    // True if this mark is the decimal mark of the column. `other` is the summary for the other
    // mark.
    fn has_mark(self, other: MarkSummary) -> bool
        ensures { result ≡ has_mark self other }
    {
        self.is_needed && self.is_readable && !other.is_needed
    }
}

impl ColumnMarks {
    /// The facts about a column without fields.
    pub fn new() -> ColumnMarks
        ensures { result ≡ marks_of [] }
    {
        ColumnMarks {
            are_plain: true,
            point: MarkSummary::new(),
            comma: MarkSummary::new(),
        }
    }

    /// Adds the text `field` of the column to the facts. `number` has to be the result of
    /// `number_in` for `field`.
    pub fn add(&mut self, field: &str, number: FieldNumber)
        ensures { number ≡ number_of field.now → (fields : List (List ℕ))
            → self.old ≡ marks_of fields → self.new ≡ marks_of (fields ++ field.now ∷ []) }
    {
        self.are_plain = self.are_plain && is_plain(field, number);
        self.point.add(field, number.point, DecimalMark::Point);
        self.comma.add(field, number.comma, DecimalMark::Comma);
    }

    /// The decimal mark of the column, and the length of its longest fraction. In the summary of
    /// this mark (`MarkSummary`), `is_needed` and `is_readable` are true. In the summary of the
    /// other mark, `is_needed` is false. The result is `None` if there is no such mark, or if
    /// `are_plain` is false.
    pub fn points(self) -> Option<Points>
        ensures { result ≡ points_for self }
    {
        if !self.are_plain {
            None
        } else if self.point.has_mark(self.comma) {
            Some(Points {
                mark: DecimalMark::Point,
                longest: self.point.longest,
            })
        } else if self.comma.has_mark(self.point) {
            Some(Points {
                mark: DecimalMark::Comma,
                longest: self.comma.longest,
            })
        } else {
            None
        }
    }
}

// True for a number that ends with a digit and has no exponent, and for a neutral field
// (`is_neutral`).
fn is_plain(field: &str, number: FieldNumber) -> bool
    ensures { number ≡ number_of field.now → result ≡ is_plain field.now }
{
    number.is_decimal && ends_with_digit(field) || is_neutral(field)
}

fn ends_with_digit(field: &str) -> bool
    ensures { result ≡ ends is_ascii_digit (chars field.now) }
{
    matches!(split_last(field), Some((_, c)) if c.is_ascii_digit())
}

// True if the mark of this fraction in a field can only begin a fraction, and not separate groups.
fn decides(field: &str, fraction: Fraction) -> bool
    ensures { result ≡ fraction.is_readable && not (may_be_whole (digits_in field.now)) }
{
    fraction.is_readable && !may_be_whole(digits_in(field))
}

// The digits of a field with the marks between them: from the first digit or decimal mark to the
// last.
fn digits_in(field: &str) -> &str
    ensures { result.now ≡ digits_in field.now }
{
    let (_, digits, _) = parts_of(trimmed(field));
    digits
}

// True if digits may be a whole number in groups, as `1,234`.
fn may_be_whole(digits: &str) -> bool
    ensures { result ≡ may_be_whole digits.now }
{
    has_groups(digits) && !begins_with_zero(digits.as_bytes())
}

fn begins_with_zero(bytes: &[u8]) -> bool
    ensures { result ≡ begins (λ b. b == 0x30) bytes.now }
{
    matches!(bytes, [b'0', ..])
}
