//! Character references of Markdown, as `&amp;`, `&#42;` and `&#x2a;`.

ghost use Rattle.std.specs.Prelude.{◌≡◌, chars};
ghost use Rattle.csv_tables.specs.References.{begins_kind, begins_number, begins_reference, closes, is_closed, is_of_kind};

use csv_records::split_first;

/// The kind of a character reference, which is that of its part before `;`.
#[derive(Clone, Copy)]
pub(crate) enum ReferenceKind {
    /// A name, as in `&amp;`.
    Name,
    /// Decimal digits, as in `&#42;`.
    Decimal,
    /// Hexadecimal digits, as in `&#x2a;`.
    Hexadecimal,
}

/// Returns true if the text after an ampersand begins with the rest of a character reference: a
/// name, or `#` and a number, and then `;`.
pub(crate) fn begins_reference(after: &str) -> bool
    ensures { result ≡ begins_reference (chars after.now) }
{
    match split_first(after) {
        Some(('#', number)) => begins_number(number),
        Some(_) => is_closed(ReferenceKind::Name, after),
        None => false,
    }
}

fn begins_number(text: &str) -> bool
    ensures { result ≡ begins_number (chars text.now) }
{
    match split_first(text) {
        Some(('x' | 'X', digits)) => is_closed(ReferenceKind::Hexadecimal, digits),
        Some(_) => is_closed(ReferenceKind::Decimal, text),
        None => false,
    }
}

// Returns true if a text begins with the name or the digits of a reference of this kind, and then
// `;`.
fn is_closed(kind: ReferenceKind, text: &str) -> bool
    ensures { result ≡ is_closed kind (chars text.now) }
{
    match split_first(text) {
        Some((c, rest)) => begins_kind(kind, c) && closes(kind, rest),
        None => false,
    }
}

// Returns true if `;` follows any number of characters of this kind at the beginning of a text.
fn closes(kind: ReferenceKind, text: &str) -> bool
    ensures { result ≡ closes kind (chars text.now) }
{
    let mut rest = text;
    while let Some((c, after)) = split_first(rest) {
        if !is_of_kind(kind, c) {
            return c == ';';
        }
        rest = after;
    }
    false
}

fn begins_kind(kind: ReferenceKind, c: char) -> bool
    ensures { result ≡ begins_kind kind c }
{
    match kind {
        ReferenceKind::Name => c.is_ascii_alphabetic(),
        ReferenceKind::Decimal | ReferenceKind::Hexadecimal => is_of_kind(kind, c),
    }
}

fn is_of_kind(kind: ReferenceKind, c: char) -> bool
    ensures { result ≡ is_of_kind kind c }
{
    match kind {
        ReferenceKind::Name => c.is_ascii_alphanumeric(),
        ReferenceKind::Decimal => c.is_ascii_digit(),
        ReferenceKind::Hexadecimal => c.is_ascii_hexdigit(),
    }
}
