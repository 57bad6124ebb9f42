//! Tests for characters that add one terminal column to the width of any texts next to them.

ghost use Rattle.std.specs.Prelude.{◌≡◌, true, unwrap_or};
ghost use Rattle.std.specs.List.{list_all};
ghost use Rattle.comfy_parts.specs.Columns.{AddsOneColumn, IsOneColumnStyle, has_frame_characters, is_frame_character};

use crate::style::TableStyle;

/// Returns true only if two texts with the character between them always take exactly one terminal
/// column more than the two texts apart, in every script. The result is true for box and block
/// characters, `…`, and printable ASCII except `#`, `*` and the digits: a variation selector after
/// one of these characters makes the character wide. The result is false for every other character,
/// even if that character adds one terminal column too.
///
/// All lines of a table are equally wide (`IsStraightTable`) under some conditions on its
/// characters and on its texts. The conditions on characters hold if the result is true for each
/// character of the style, for each delimiter, and for the first character of the truncation
/// indicator.
#[tactic(auto, using(crate::proofs::FrameCharacterLemmas::frame_adds))]
pub fn adds_one_column(character: char) -> bool
    ensures test { result ≡ is_frame_character character }
    ensures adds { result ≡ true → AddsOneColumn character }
{
    is_frame_character(character)
}

// Returns true if the character is in the list of `adds_one_column`.
fn is_frame_character(character: char) -> bool
    ensures { result ≡ is_frame_character character }
{
    match character {
        '#' | '*' | '0'..='9' => false,
        ' '..='~' | '…' | '\u{2500}'..='\u{259f}' => true,
        _ => false,
    }
}

impl TableStyle {
    /// Returns true if `adds_one_column` is true for each character of the style. Missing
    /// characters have no influence. The result is true for all presets, even with rounded corners
    /// or solid inner borders. A true result is one of the conditions under which all lines of a
    /// table are equally wide (`IsStraightTable`).
    pub fn is_one_column(&self) -> bool
        ensures test { result ≡ has_frame_characters self.now }
        ensures adds { result ≡ true → IsOneColumnStyle self.now }
    {
        are_one_column(&self.characters())
    }
}

// Returns true if each of these characters adds one terminal column. A missing character counts as
// a space.
fn are_one_column(characters: &[Option<char>]) -> bool
    ensures { result ≡ list_all (λ c. is_frame_character (unwrap_or c 0x20)) characters.now }
{
    characters
        .iter()
        .all(|character| adds_one_column(character.unwrap_or(' ')))
}
