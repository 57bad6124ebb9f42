//! The width in terminal columns of each character that joins no other.

ghost use Rattle.std.specs.Prelude.{◌≡◌};
ghost use Rattle.comfy_parts.specs.OwnWidth.{begins_wide, own_width};

use table::{INDEX, TAIL, WORDS};

mod table;

// The table's entry for a character that joins others.
const JOINS: u32 = 3;

/// The length in bytes of the first character of each text for which `begins_wide` is true.
pub const WIDE_LEN: usize = 3;

/// Returns true if a text begins with a character from U+4E00 to U+9FFF or from U+B000 to U+CFFF.
/// Most ideographs and Hangul syllables are among these characters. Each such character adds two
/// terminal columns to every text, so it needn't be decoded.
#[inline]
pub fn begins_wide(text: &[u8]) -> bool
    ensures { result ≡ begins_wide text.now }
{
    match text.first() {
        // most other scripts
        Some(..0xe4) | None => false,
        Some(0xe4) => text.len() > 1 && text[1] >= 0xb8,
        Some(first) => matches!(*first, 0xe5..=0xe9 | 0xeb..=0xec),
    }
}

/// The number of terminal columns that a character adds to every text. `None` if the character may
/// join others or is a control character.
#[inline]
pub fn own_width(character: char) -> Option<usize>
    ensures { result ≡ own_width character }
{
    // Many characters are printable ASCII, and need no look-up after this test.
    if character <= '~' {
        return if character < ' ' { None } else { Some(1) };
    }
    tabled_width(character)
}

// Does the same as `own_width`, for any character by the table.
#[inline]
fn tabled_width(character: char) -> Option<usize>
    ensures { result ≡ own_width character }
{
    let columns = ucd_table::get::<2, 4>(&INDEX, &WORDS, &TAIL, character as u32);
    if columns == JOINS {
        return None;
    }
    Some(columns as usize)
}
