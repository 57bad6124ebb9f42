//! Reads numbers that are written with digits alone.

ghost use Rattle.std.specs.Prelude.{◌≡◌};
ghost use Rattle.csv_records.specs.Numerals.{number_for};

use comfy_parts::content_split::are_digits;

/// The value of `word`, if it is a number in ASCII digits. `None` if the word is empty or has
/// another character, or if the number is too large for `usize`. `parse` alone would also accept a
/// plus sign.
#[tactic(auto, using(crate::proofs::NumeralLemmas::other, crate::proofs::NumeralLemmas::parsed))]
pub fn parse_digits(word: &str) -> Option<usize>
    ensures { result ≡ number_for 64 word.now }
{
    if are_digits(word.as_bytes()) {
        word.parse::<usize>().ok()
    } else {
        None
    }
}
