//! A test for texts that fit each column that is at least as wide as their widest character.

ghost use Rattle.std.specs.Prelude.{◌≡◌, chars};
ghost use Rattle.std.specs.List.{list_all};
ghost use Rattle.cluster_width.specs.ClusterSums.{clash, selectors_agree};
ghost use Rattle.comfy_parts.specs.Columns.{character_fits, characters_fit};

use super::width::char_width;

/// Returns true if each character of the text, by itself, takes at most `width` terminal columns,
/// and U+FE01 is never directly next to U+FE0E or U+FE0F. A text of any script that passes this
/// test fits a column of `width` terminal columns: no wrapped line is wider, if `adds_one_column`
/// is true for the delimiter. Two terminal columns are enough for every character except U+17D8,
/// which takes three. The second text below is two ideographs, for which one terminal column is too
/// narrow.
/// ```
/// let is_so = characters_fit("كتاب 👨‍👩‍👧", 2) && !characters_fit("年度", 1);
/// // true
/// ```
pub fn characters_fit(text: &str, width: usize) -> bool
    ensures { result ≡ characters_fit width text.now }
{
    characters_are_narrow(text, width) && selectors_agree(text)
}

// Returns true if each character of the text, by itself, takes at most `width` terminal columns.
fn characters_are_narrow(text: &str, width: usize) -> bool
    ensures { result ≡ list_all (character_fits width) (chars text.now) }
{
    text.chars().all(|character| char_width(character) <= width)
}

// Returns true if U+FE01 is never directly next to U+FE0E or U+FE0F.
fn selectors_agree(text: &str) -> bool
    ensures { result ≡ selectors_agree (chars text.now) }
{
    let mut previous = ' ';
    for character in text.chars() {
        if clash(previous, character) {
            return false;
        }
        previous = character;
    }
    true
}

// Returns true if one of two characters is U+FE01, and the other is U+FE0E or U+FE0F.
fn clash(first: char, second: char) -> bool
    ensures { result ≡ clash first second }
{
    match first {
        '\u{fe01}' => matches!(second, '\u{fe0e}' | '\u{fe0f}'),
        '\u{fe0e}' | '\u{fe0f}' => second == '\u{fe01}',
        _ => false,
    }
}
