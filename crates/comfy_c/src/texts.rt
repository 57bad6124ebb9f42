//! The texts that a caller passes as one block of bytes.

ghost use Rattle.std.specs.Prelude.{◌≡◌, ◌↔◌, All, IfErr, IfOk, IsTrue, IsUtf8, length, map};
ghost use Rattle.csv_records.specs.CutLists.{cut_by, total};
ghost use Rattle.comfy_c.specs.Texts.{AddUp, IsTextsRefusal, rows_of};

use crate::refusal::DrawRefusal;
use csv_records::Records;
use simdutf8::basic::from_utf8;
use std::alloc::Global;

/// Splits `texts` into texts of the lengths in `lengths`, in bytes, and returns records with these
/// texts as fields. `counts` has the number of fields of each record. The errors are those of
/// `texts_of`.
pub(crate) fn records_of(
    alloc: Global,
    texts: &[u8],
    lengths: &[usize],
    counts: &[usize],
) -> Result<Records, DrawRefusal>
    ensures records { IfOk result (λ records. records
        ≡ rows_of texts.now lengths.now counts.now) }
    ensures all { IfOk result (λ _. AddUp texts.now lengths.now counts.now) }
    ensures texts { IfOk result (λ _. All IsUtf8 (cut_by lengths.now texts.now)) }
    ensures refused { IfErr result (IsTextsRefusal texts.now lengths.now counts.now) }
{
    let texts = texts_of(alloc, texts, lengths, counts)?;
    let records = Records::from_fields(alloc, texts.as_slice(), counts)?;
    // `from_fields` returns records, because the counts add up to the number of texts.
    Ok(records.unwrap())
}

/// Splits `texts` into texts of the lengths in `lengths`, in bytes. Returns `Lengths` if the
/// lengths don't add up to the length of `texts`, or the counts don't add up to the number of
/// lengths. Otherwise returns `NotUtf8` if a text isn't UTF-8. The only other error is
/// `OutOfMemory`.
pub(crate) fn texts_of<'a>(
    alloc: Global,
    texts: &'a [u8],
    lengths: &[usize],
    counts: &[usize],
) -> Result<Vec<&'a str>, DrawRefusal>
    ensures cut { IfOk result (λ found. map (λ text. text.now) found.items
        ≡ cut_by lengths.now texts.now) }
    ensures all { IfOk result (λ _. AddUp texts.now lengths.now counts.now) }
    ensures texts { IfOk result (λ _. All IsUtf8 (cut_by lengths.now texts.now)) }
    ensures refused { IfErr result (IsTextsRefusal texts.now lengths.now counts.now) }
{
    if !add_up(texts, lengths, counts) {
        return Err(DrawRefusal::Lengths);
    }
    // Each text is UTF-8 if all bytes are, and each text ends at the end of a character.
    let Ok(whole) = from_utf8(texts) else {
        return Err(DrawRefusal::NotUtf8);
    };
    let mut found = Vec::with_capacity(alloc, lengths.len())?;
    let mut after = whole;
    for length in lengths {
        let Some((text, rest)) = after.split_at_checked(*length) else {
            return Err(DrawRefusal::NotUtf8);
        };
        found.push(text)?;
        after = rest;
    }
    Ok(found)
}

// Returns true if the lengths add up to the number of bytes, and the counts to the number of
// lengths.
fn add_up(texts: &[u8], lengths: &[usize], counts: &[usize]) -> bool
    ensures { IsTrue result ↔ AddUp texts.now lengths.now counts.now }
{
    add_up_to(lengths, texts.len()) && add_up_to(counts, lengths.len())
}

// Returns true if the sum of the numbers is `all`.
fn add_up_to(numbers: &[usize], all: usize) -> bool
    ensures { IsTrue result ↔ (total numbers.now ≡ all) }
{
    let mut left = all;
    for number in numbers {
        let Some(less) = left.checked_sub(*number) else {
            return false;
        };
        left = less;
    }
    left == 0
}
